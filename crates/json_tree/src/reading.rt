// From text, or from a value of `serde_json`, to a value whose numbers are whole.
ghost use Rattle.std.specs.Prelude.{◌≡◌, ◌<◌, ◌≤◌, ◌↔◌, length, IsTrue, IsSome, is_some, IfOk, IfErr, None, Some};
ghost use Rattle.json_tree.specs.Data.{depth, items_of, members_of, most_levels};
ghost use Rattle.json_tree.specs.View.{data_of};
ghost use Rattle.json_tree.specs.Reading.{source_of, read_json, whole_of, whole_items, whole_members, holds_memory};
ghost use Rattle.serde_json.specs.View.{view, number_view, items_view, members_view};
ghost use Rattle.serde_json.specs.Data.{number as data_number};

use crate::common::read_common;
use crate::fault::JsonFault;
use crate::text::Text;
use crate::tree::{Field, Json, JsonFields, JsonList};
use serde_json::{Map, Number, Value};
use std::alloc::Global;

/// Reads one value (RFC 8259), with white space round it. Of fields with one name the last is read. The commonest short
/// texts, `{}`, `[]`, `""`, `null`, `true`, `false` and whole numbers of at most 18 digits with no sign, take a few steps and
/// no memory. Any other takes memory for `serde_json`'s value of the text, which it goes through once and then drops, and for
/// lists, fields and texts of more than 22 bytes; and `serde_json` clears a window of 16 KB first.
pub fn read(alloc: Global, bytes: &[u8]) -> Result<Json, JsonFault>
    ensures ok { IfOk result (λ j. read_json bytes.now ≡ Some (data_of j)) }
    ensures nests { IfOk result (λ j. depth (data_of j) ≤ most_levels) }
    ensures not_json { result ≡ Err JsonFault.NotJson → source_of bytes.now ≡ None }
    ensures not_whole { result ≡ Err JsonFault.NotWhole
        → IsSome (source_of bytes.now) × (read_json bytes.now ≡ None) }
    ensures memory { result ≡ Err JsonFault.Memory → 0 < length bytes.now }
{
    match read_common(alloc, bytes) {
        Some(json) => Ok(json),
        None => read_any(alloc, bytes),
    }
}

/// The same, by `serde_json`.
fn read_any(alloc: Global, bytes: &[u8]) -> Result<Json, JsonFault>
    ensures ok { IfOk result (λ j. read_json bytes.now ≡ Some (data_of j)) }
    ensures nests { IfOk result (λ j. depth (data_of j) ≤ most_levels) }
    ensures not_json { result ≡ Err JsonFault.NotJson → source_of bytes.now ≡ None }
    ensures not_whole { result ≡ Err JsonFault.NotWhole
        → IsSome (source_of bytes.now) × (read_json bytes.now ≡ None) }
    ensures memory { result ≡ Err JsonFault.Memory → 0 < length bytes.now }
{
    match Value::from_slice(alloc, bytes) {
        Ok(value) => copy_value(alloc, &value),
        Err(e) => if e.is_memory() {
            Err(JsonFault::Memory)
        } else {
            Err(JsonFault::NotJson)
        },
    }
}

/// The value of the same shape as one of `serde_json`, which is copied. Each number is looked at before memory is taken, for
/// texts, names, lists and fields; null, booleans and numbers take none.
pub fn from_value(alloc: Global, value: &Value) -> Result<Json, JsonFault>
    ensures ok { IfOk result (λ j. whole_of (view value.now) ≡ Some (data_of j)) }
    ensures not_json { result ≡ Err JsonFault.NotJson → ⊥ }
    ensures not_whole { (result ≡ Err JsonFault.NotWhole) ↔ (whole_of (view value.now) ≡ None) }
    ensures memory { result ≡ Err JsonFault.Memory → IsTrue (holds_memory (view value.now)) }
{
    if !is_whole(value) {
        return Err(JsonFault::NotWhole);
    }
    copy_value(alloc, value)
}

/// Whether each number is whole.
#[cycle(is_whole)]
fn is_whole(value: &Value) -> bool
    ensures { result ≡ is_some (whole_of (view value.now)) }
{
    match value {
        Value::Null | Value::Bool(_) | Value::String(_) => true,
        Value::Number(number) => number.as_i64().is_some(),
        Value::Array(items) => are_whole(items),
        Value::Object(members) => have_whole(members),
    }
}

#[cycle(is_whole)]
fn are_whole(items: &Vec<Value>) -> bool
    ensures { result ≡ is_some (whole_items (items_view items.now.items)) }
{
    for item in items {
        if !is_whole(item) {
            return false;
        }
    }
    true
}

#[cycle(is_whole)]
fn have_whole(members: &Map<String, Value>) -> bool
    ensures { result ≡ is_some (whole_members (members_view members.now.entries)) }
{
    for (_name, member) in members.iter() {
        if !is_whole(member) {
            return false;
        }
    }
    true
}

#[cycle(copy_value)]
fn copy_value(alloc: Global, value: &Value) -> Result<Json, JsonFault>
    ensures ok { IfOk result (λ j. whole_of (view value.now) ≡ Some (data_of j)) }
    ensures not_json { result ≡ Err JsonFault.NotJson → ⊥ }
    ensures not_whole { result ≡ Err JsonFault.NotWhole → whole_of (view value.now) ≡ None }
    ensures memory { result ≡ Err JsonFault.Memory → IsTrue (holds_memory (view value.now)) }
{
    match value {
        Value::Null => Ok(Json::Null),
        Value::Bool(b) => Ok(Json::Bool(*b)),
        Value::Number(number) => whole_number(number),
        Value::String(text) => Ok(Json::Text(Text::new(alloc, text.as_str())?)),
        Value::Array(items) => Ok(Json::List(copy_items(alloc, items)?)),
        Value::Object(members) => Ok(Json::Fields(copy_members(alloc, members)?)),
    }
}

fn whole_number(number: &Number) -> Result<Json, JsonFault>
    ensures ok { IfOk result (λ j. whole_of (data_number (number_view number.now)) ≡ Some (data_of j)) }
    ensures err { IfErr result (λ e. (e ≡ JsonFault.NotWhole)
        × (whole_of (data_number (number_view number.now)) ≡ None)) }
{
    match number.as_i64() {
        Some(n) => Ok(Json::Whole(n)),
        None => Err(JsonFault::NotWhole),
    }
}

#[cycle(copy_value)]
fn copy_items(alloc: Global, items: &Vec<Value>) -> Result<JsonList, JsonFault>
    ensures ok { IfOk result (λ l. whole_items (items_view items.now.items) ≡ Some (items_of l)) }
    ensures not_json { result ≡ Err JsonFault.NotJson → ⊥ }
    ensures not_whole { result ≡ Err JsonFault.NotWhole
        → whole_items (items_view items.now.items) ≡ None }
{
    let mut inner = Vec::with_capacity(alloc, items.len())?;
    for item in items {
        inner.push(copy_value(alloc, item)?)?;
    }
    Ok(JsonList::from_vec(inner)?)
}

#[cycle(copy_value)]
fn copy_members(alloc: Global, members: &Map<String, Value>) -> Result<JsonFields, JsonFault>
    ensures ok { IfOk result
        (λ m. whole_members (members_view members.now.entries) ≡ Some (members_of m)) }
    ensures not_json { result ≡ Err JsonFault.NotJson → ⊥ }
    ensures not_whole { result ≡ Err JsonFault.NotWhole
        → whole_members (members_view members.now.entries) ≡ None }
{
    let mut inner = Vec::with_capacity(alloc, members.len())?;
    for (key, member) in members.iter() {
        let name = Text::new(alloc, key.as_str())?;
        let value = copy_value(alloc, member)?;
        inner.push(Field { name, value })?;
    }
    Ok(JsonFields::from_sorted(inner)?)
}
