//! Attribute values, numbers and items.
use crate::fault::RowFault;
use crate::json::{put, value_of};
use crate::lines;
use crate::parts::{cut, ensure, put_number, put_yes};
use attr_values::{
    Item, Number, Value, ValueMap, equality_is_of_values, numbers_are_read, numbers_have_one_form,
    numbers_read_back, read_item, read_value, write_item, write_value, written_is_read_back,
};
use std::alloc::Global;

pub(crate) fn answer(
    alloc: Global,
    out: &mut String,
    word: &str,
    rest: &str,
) -> Result<(), RowFault> {
    match word {
        "number" => put_number_text(alloc, out, rest),
        "value" => put_value_row(alloc, out, rest),
        "item" => put_item_row(alloc, out, rest),
        "has" => put_has(alloc, out, rest),
        "look" => put_look(alloc, out, rest),
        _ => lines::answer(alloc, out, word, rest),
    }
}

/// `number N`: the one text of the number.
fn put_number_text(alloc: Global, out: &mut String, text: &str) -> Result<(), RowFault> {
    let number = Number::read(text)?;
    let text = number.write_text(alloc)?;
    out.push_str(text.as_str())?;
    Ok(())
}

fn value_in(alloc: Global, text: &str) -> Result<Value, RowFault> {
    let json = value_of(alloc, text)?;
    Ok(read_value(alloc, &json)?)
}

pub(crate) fn item_in(alloc: Global, text: &str) -> Result<Item, RowFault> {
    let json = value_of(alloc, text)?;
    Ok(read_item(alloc, &json)?)
}

fn put_value(alloc: Global, out: &mut String, value: &Value) -> Result<(), RowFault> {
    let json = write_value(alloc, value)?;
    put(alloc, out, &json)
}

fn is_value_kept(alloc: Global, value: &Value) -> Result<bool, RowFault> {
    let copy = value.copy()?;
    let is_copied = copy == *value;
    drop(copy);
    Ok(is_copied && is_value_read_back(alloc, value)?)
}

fn is_value_read_back(alloc: Global, value: &Value) -> Result<bool, RowFault> {
    let json = write_value(alloc, value)?;
    let again = read_value(alloc, &json);
    drop(json);
    Ok(again? == *value)
}

/// `value V`: as it is written. A copy of it is equal, and so is what is read of what is written.
fn put_value_row(alloc: Global, out: &mut String, text: &str) -> Result<(), RowFault> {
    let value = value_in(alloc, text)?;
    ensure(is_value_kept(alloc, &value)?, "another value")?;
    put_value(alloc, out, &value)
}

pub(crate) fn put_item(alloc: Global, out: &mut String, item: &Item) -> Result<(), RowFault> {
    let json = write_item(item)?;
    put(alloc, out, &json)
}

fn is_item_kept(alloc: Global, item: &Item) -> Result<bool, RowFault> {
    let copy = item.copy()?;
    let is_copied = copy == *item;
    drop(copy);
    Ok(is_copied && is_item_read_back(alloc, item)?)
}

fn is_item_read_back(alloc: Global, item: &Item) -> Result<bool, RowFault> {
    let json = write_item(item)?;
    let again = read_item(alloc, &json);
    drop(json);
    Ok(again? == *item)
}

/// `item I`: how many attributes it has, and how it is written. A copy of it is equal, and so is what is read of what is written.
fn put_item_row(alloc: Global, out: &mut String, text: &str) -> Result<(), RowFault> {
    let item = item_in(alloc, text)?;
    ensure(is_item_kept(alloc, &item)?, "another item")?;
    ensure(item.is_empty() == (item.len() == 0), "another length")?;
    put_number(out, item.len())?;
    out.push(' ')?;
    put_item(alloc, out, &item)
}

/// `has I NAME`: whether an item has an attribute.
fn put_has(alloc: Global, out: &mut String, rest: &str) -> Result<(), RowFault> {
    let (text, name) = cut(rest);
    let item = item_in(alloc, text)?;
    put_yes(out, item.contains(name))
}

/// `look I NAME`: an attribute of an item; of a list or a set a copy, with its length where it is a list; `look I NAME FIELD` a field of a
/// copy of a map, with the map's length.
fn put_look(alloc: Global, out: &mut String, rest: &str) -> Result<(), RowFault> {
    let (text, rest) = cut(rest);
    let (name, field) = cut(rest);
    let item = item_in(alloc, text)?;
    put_attribute(alloc, out, &item, name, field)
}

fn put_attribute(
    alloc: Global,
    out: &mut String,
    item: &Item,
    name: &str,
    field: &str,
) -> Result<(), RowFault> {
    match item.get(name) {
        None => Err(RowFault::Said("none")),
        Some(Value::L(list)) => {
            put_number(out, list.as_slice().len())?;
            out.push(' ')?;
            put_owned(alloc, out, Value::L(list.copy()?))
        }
        Some(Value::M(map)) => {
            ensure(map.is_empty() == (map.len() == 0), "another length")?;
            put_number(out, map.len())?;
            out.push(' ')?;
            let copy = map.copy()?;
            put_field(alloc, out, &copy, field)
        }
        Some(Value::Ss(texts)) => put_owned(alloc, out, Value::Ss(texts.copy()?)),
        Some(Value::Ns(numbers)) => put_owned(alloc, out, Value::Ns(numbers.copy()?)),
        Some(other) => put_value(alloc, out, other),
    }
}

fn put_owned(alloc: Global, out: &mut String, value: Value) -> Result<(), RowFault> {
    let told = put_value(alloc, out, &value);
    drop(value);
    told
}

fn put_field(alloc: Global, out: &mut String, map: &ValueMap, field: &str) -> Result<(), RowFault> {
    match map.get(field) {
        Some(value) => put_value(alloc, out, value),
        None => {
            out.push_str("none")?;
            Ok(())
        }
    }
}

pub(crate) fn state_laws() {
    numbers_are_read();
    numbers_read_back();
    numbers_have_one_form();
    written_is_read_back();
    equality_is_of_values();
}
