//! JSON values: read, written, copied, and how deep they nest.
use crate::fault::RowFault;
use crate::parts::{ensure, put_number};
use crate::{changing, names};
use json_tree::{
    Json, Text, depth, equality_is_of_values, from_value, read, texts_tell_apart, write_text,
    written_is_read_back,
};
use serde_json::Value;
use std::alloc::Global;

pub(crate) fn answer(
    alloc: Global,
    out: &mut String,
    word: &str,
    rest: &str,
) -> Result<(), RowFault> {
    match word {
        "from" => put_from(alloc, out, rest),
        "depth" => put_depth(alloc, out, rest),
        "copy" => put_copy(alloc, out, rest),
        "change" => changing::put_changed(alloc, out, rest),
        _ => names::answer(alloc, out, word, rest),
    }
}

pub(crate) fn value_of(alloc: Global, text: &str) -> Result<Json, RowFault> {
    Ok(read(alloc, text.as_bytes())?)
}

pub(crate) fn put(alloc: Global, out: &mut String, json: &Json) -> Result<(), RowFault> {
    let text = write_text(alloc, json)?;
    out.push_str(text.as_str())?;
    Ok(())
}

/// `text J`: as it is written once it is read, and a copy of it is equal.
pub(crate) fn put_text(alloc: Global, out: &mut String, bytes: &[u8]) -> Result<(), RowFault> {
    let json = read(alloc, bytes)?;
    put_copied(alloc, out, &json)
}

fn put_copied(alloc: Global, out: &mut String, json: &Json) -> Result<(), RowFault> {
    let copy = json.copy()?;
    let is_copied = copy == *json;
    drop(copy);
    ensure(is_copied, "another copy")?;
    put(alloc, out, json)
}

/// `from J`: the same of the value that `serde_json` reads. It is the one that is read of the text.
fn put_from(alloc: Global, out: &mut String, text: &str) -> Result<(), RowFault> {
    let json = value_from(alloc, text)?;
    put_from_value(alloc, out, &json, text)
}

fn value_from(alloc: Global, text: &str) -> Result<Json, RowFault> {
    match Value::from_str(alloc, text) {
        Ok(value) => {
            let json = from_value(alloc, &value);
            drop(value);
            Ok(json?)
        }
        Err(fault) => Err(source_fault(fault.is_memory())),
    }
}

fn source_fault(is_memory: bool) -> RowFault {
    if is_memory {
        RowFault::Memory
    } else {
        RowFault::Said("not JSON")
    }
}

fn put_from_value(
    alloc: Global,
    out: &mut String,
    json: &Json,
    text: &str,
) -> Result<(), RowFault> {
    let read = value_of(alloc, text)?;
    let is_one = read == *json;
    drop(read);
    ensure(is_one, "another value")?;
    put(alloc, out, json)
}

/// `depth J`
fn put_depth(alloc: Global, out: &mut String, text: &str) -> Result<(), RowFault> {
    let json = value_of(alloc, text)?;
    put_number(out, depth(&json) as usize)
}

/// `copy TEXT`: a text, of whose two owners each has it.
fn put_copy(alloc: Global, out: &mut String, text: &str) -> Result<(), RowFault> {
    let first = Text::new(alloc, text)?;
    put_text_copy(alloc, out, &first, text)
}

fn put_text_copy(
    alloc: Global,
    out: &mut String,
    first: &Text,
    text: &str,
) -> Result<(), RowFault> {
    let second = Text::from_string(String::from_str(alloc, text)?)?;
    let is_one = *first == second;
    drop(second);
    ensure(is_one && first.as_str() == text, "another text")?;
    let copy = first.copy()?;
    out.push_str(copy.as_str())?;
    Ok(())
}

/// The laws, which state what holds of all values, and do nothing.
pub(crate) fn state_laws() {
    written_is_read_back();
    texts_tell_apart();
    equality_is_of_values();
}
