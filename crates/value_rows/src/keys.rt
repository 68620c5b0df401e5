//! Keys of items, by the attributes that a table's keys have.
//!
//! A schema is spelled `id:S` or `id:S,at:N`, and stands before an item with a space between them.
use crate::attrs;
use crate::fault::RowFault;
use crate::json::value_of;
use crate::parts::{cut, ensure, put_yes};
use attr_values::{
    Item, Key, KeyAttribute, KeyPart, KeySchema, KeyText, KeyType, key_of, keys_have_one_form,
    read_item,
};
use json_tree::Text;
use std::alloc::Global;
use std::collections::HashMap;
use std::hash::{DefaultHasher, Hash, Hasher};

pub(crate) fn answer(
    alloc: Global,
    out: &mut String,
    word: &str,
    rest: &str,
) -> Result<(), RowFault> {
    match word {
        "key" => put_key(alloc, out, rest),
        "key_text" => put_key_text(alloc, out, rest),
        "found" => put_found(alloc, out, rest),
        _ => attrs::answer(alloc, out, word, rest),
    }
}

fn attribute(alloc: Global, text: &str) -> Result<KeyAttribute, RowFault> {
    let (name, kind) = match text.split_once(':') {
        Some((name, "S")) => (name, KeyType::S),
        Some((name, "N")) => (name, KeyType::N),
        _ => return Err(RowFault::Said("no row")),
    };
    let name = Text::new(alloc, name)?;
    Ok(KeyAttribute { name, kind })
}

pub(crate) fn schema(alloc: Global, text: &str) -> Result<KeySchema, RowFault> {
    match text.split_once(',') {
        Some((partition, sort)) => schema_of_two(alloc, partition, sort),
        None => {
            let partition = attribute(alloc, text)?;
            Ok(KeySchema {
                partition,
                sort: None,
            })
        }
    }
}

fn schema_of_two(alloc: Global, partition: &str, sort: &str) -> Result<KeySchema, RowFault> {
    let partition = attribute(alloc, partition)?;
    match attribute(alloc, sort) {
        Ok(sort) => Ok(KeySchema {
            partition,
            sort: Some(sort),
        }),
        Err(fault) => {
            drop(partition);
            Err(fault)
        }
    }
}

/// The key of an item behind its schema.
pub(crate) fn key_in(alloc: Global, text: &str) -> Result<Key, RowFault> {
    let Some((words, item)) = text.split_once(' ') else {
        return Err(RowFault::Said("no row"));
    };
    let schema = schema(alloc, words)?;
    ensure_copied(&schema)?;
    key_by(alloc, &schema, item)
}

fn ensure_copied(schema: &KeySchema) -> Result<(), RowFault> {
    let is_copied = schema.copy()? == *schema;
    ensure(
        is_copied && schema.partition.copy()? == schema.partition,
        "another schema",
    )
}

fn key_by(alloc: Global, schema: &KeySchema, text: &str) -> Result<Key, RowFault> {
    let item = item_in(alloc, text)?;
    Ok(key_of(schema, &item)?)
}

fn item_in(alloc: Global, text: &str) -> Result<Item, RowFault> {
    let json = value_of(alloc, text)?;
    Ok(read_item(alloc, &json)?)
}

/// `key SCHEMA ITEM`: the parts of the item's key. A copy of it is equal.
fn put_key(alloc: Global, out: &mut String, rest: &str) -> Result<(), RowFault> {
    let key = key_in(alloc, rest)?;
    ensure(key.copy()? == key, "another copy")?;
    put_part(alloc, out, &key.partition)?;
    match &key.sort {
        Some(sort) => {
            out.push(' ')?;
            put_part(alloc, out, sort)
        }
        None => Ok(()),
    }
}

fn put_part(alloc: Global, out: &mut String, part: &KeyPart) -> Result<(), RowFault> {
    match part {
        KeyPart::S(text) => {
            out.push_str("S ")?;
            out.push_str(text.as_str())?;
            Ok(())
        }
        KeyPart::N(number) => {
            let text = number.write_text(alloc)?;
            out.push_str("N ")?;
            out.push_str(text.as_str())?;
            Ok(())
        }
    }
}

/// `key_text TEXT`: a text of a key, and its copy, where it is not empty.
fn put_key_text(alloc: Global, out: &mut String, text: &str) -> Result<(), RowFault> {
    match KeyText::new(Text::new(alloc, text)?) {
        Some(text) => put_copied_text(out, &text),
        None => Err(RowFault::Said("empty key")),
    }
}

fn put_copied_text(out: &mut String, text: &KeyText) -> Result<(), RowFault> {
    let copy = text.copy()?;
    out.push_str(text.as_str())?;
    out.push(' ')?;
    out.push_str(copy.as_str())?;
    Ok(())
}

fn hash_of(key: &Key) -> u64 {
    let mut state = DefaultHasher::new();
    key.hash(&mut state);
    state.finish()
}

/// `found SCHEMA ITEM SCHEMA OTHER`: whether a map by hashes that has the first item's key has the other's. If so, their hashes are equal.
fn put_found(alloc: Global, out: &mut String, rest: &str) -> Result<(), RowFault> {
    let (first, second) = cut(rest);
    let key = key_in(alloc, second)?;
    put_found_in(alloc, out, first, &key)
}

fn put_found_in(alloc: Global, out: &mut String, text: &str, other: &Key) -> Result<(), RowFault> {
    let key = key_in(alloc, text)?;
    let is_hash = hash_of(&key) == hash_of(other);
    let mut places = HashMap::new(alloc);
    drop(places.insert(key, 1u8)?);
    let is_found = places.contains_key(other);
    ensure(is_hash || !is_found, "another hash")?;
    put_yes(out, is_found)
}

pub(crate) fn state_laws() {
    keys_have_one_form();
}
