//! From JSON to values.

ghost use Rattle.std.specs.Prelude.{◌≡◌, ◌≢◌, ◌∷◌, [], Some, Err, IsTrue, MatchOption, IfOk, length};
ghost use Rattle.std.specs.List.Sorted.{IsStrictlySortedBy};
ghost use Rattle.std.specs.Map.{keys_of};
ghost use Rattle.json_tree.specs.Data.{items_of, members_of};
ghost use Rattle.json_tree.specs.Fields.{text_cmp};
ghost use Rattle.json_tree.specs.View.{data_of};
ghost use Rattle.attr_values.specs.Datum.{elements_of, attributes_of};
ghost use Rattle.attr_values.specs.Faults.{AnswersAs};
ghost use Rattle.attr_values.specs.Proper.{IsProper};
ghost use Rattle.attr_values.specs.Reading as spec;
ghost use Rattle.attr_values.specs.View.{datum_of};

use crate::fault::ItemFault;
use crate::number::Number;
use crate::value::{Attribute, NumberSet, TextSet, Value, ValueList, ValueMap};
use json_tree::{Json, JsonFields, JsonList};
use std::alloc::Global;
use std::collections::BTreeSet;
use std::sync::Arc;

/// How deep the lists and maps of a value may nest.
pub const MOST_LEVELS: u8 = 32;

/// The types of values, by the API's names.
#[derive(Clone, Copy)]
enum Kind {
    S,
    N,
    Bool,
    Null,
    L,
    M,
    Ss,
    Ns,
}

/// Reads a value: an object with one field, named for its type. Takes memory for each list, map and set, and shares
/// the texts.
pub fn read_value(alloc: Global, json: &Json) -> Result<Value, ItemFault>
    ensures read { AnswersAs datum_of (spec.read_datum 32 (data_of json.now)) result }
    ensures kept { IfOk result (λ v. IsProper 32 (datum_of v)) }
    ensures memory { result ≡ Err ItemFault.Memory → IsTrue (spec.takes_memory (data_of json.now)) }
{
    read_within(alloc, json, MOST_LEVELS)
}

fn kind_of(name: &str) -> Option<Kind>
    ensures { result ≡ spec.type_kind_of name.now }
{
    match name {
        "S" => Some(Kind::S),
        "N" => Some(Kind::N),
        "BOOL" => Some(Kind::Bool),
        "NULL" => Some(Kind::Null),
        "L" => Some(Kind::L),
        "M" => Some(Kind::M),
        "SS" => Some(Kind::Ss),
        "NS" => Some(Kind::Ns),
        _ => None,
    }
}

/// The name and the value of an object's only field.
pub(crate) fn only_field(fields: &JsonFields) -> Option<(&str, &Json)>
    ensures { MatchOption result (length fields.now ≢ 1) (λ r. fields.now ≡ (r.0.now, data_of r.1.now) ∷ []) }
{
    match fields.as_slice() {
        [field] => Some((field.name.as_str(), &field.value)),
        _ => None,
    }
}

#[cycle(read)]
fn read_within(alloc: Global, json: &Json, levels: u8) -> Result<Value, ItemFault>
    ensures read { AnswersAs datum_of (spec.read_datum levels (data_of json.now)) result }
    ensures memory { result ≡ Err ItemFault.Memory → IsTrue (spec.takes_memory (data_of json.now)) }
{
    let Json::Fields(fields) = json else {
        return Err(ItemFault::BadValue);
    };
    let Some((name, value)) = only_field(fields) else {
        return Err(ItemFault::BadValue);
    };
    match kind_of(name) {
        Some(kind) => read_kind(alloc, kind, value, levels),
        None => Err(ItemFault::BadValue),
    }
}

#[cycle(read)]
fn read_kind(alloc: Global, kind: Kind, json: &Json, levels: u8) -> Result<Value, ItemFault>
    ensures read { AnswersAs datum_of (spec.read_kind (Some kind) levels (data_of json.now)) result }
    ensures memory { result ≡ Err ItemFault.Memory → IsTrue (spec.kind_takes_memory (Some kind) (data_of json.now)) }
{
    match kind {
        Kind::S => read_text(json),
        Kind::N => read_number(json),
        Kind::Bool => read_bool(json),
        Kind::Null => read_null(json),
        Kind::L => read_list(alloc, json, levels),
        Kind::M => read_map(alloc, json, levels),
        Kind::Ss => read_text_set(alloc, json),
        Kind::Ns => read_number_set(alloc, json),
    }
}

fn read_text(json: &Json) -> Result<Value, ItemFault>
    ensures read { AnswersAs datum_of (spec.read_kind (Some Kind.S) 0 (data_of json.now)) result }
    ensures memory { result ≡ Err ItemFault.Memory → IsTrue (spec.kind_takes_memory (Some Kind.S) (data_of json.now)) }
{
    match json {
        Json::Text(text) => Ok(Value::S(text.copy()?)),
        _ => Err(ItemFault::BadValue),
    }
}

fn read_number(json: &Json) -> Result<Value, ItemFault>
    ensures read { AnswersAs datum_of (spec.read_kind (Some Kind.N) 0 (data_of json.now)) result }
    ensures memory { result ≡ Err ItemFault.Memory → IsTrue (spec.kind_takes_memory (Some Kind.N) (data_of json.now)) }
{
    match json {
        Json::Text(text) => Ok(Value::N(Number::read(text.as_str())?)),
        _ => Err(ItemFault::BadValue),
    }
}

fn read_bool(json: &Json) -> Result<Value, ItemFault>
    ensures read { AnswersAs datum_of (spec.read_kind (Some Kind.Bool) 0 (data_of json.now)) result }
    ensures memory { result ≡ Err ItemFault.Memory → IsTrue (spec.kind_takes_memory (Some Kind.Bool) (data_of json.now)) }
{
    match json {
        Json::Bool(b) => Ok(Value::Bool(*b)),
        _ => Err(ItemFault::BadValue),
    }
}

fn read_null(json: &Json) -> Result<Value, ItemFault>
    ensures read { AnswersAs datum_of (spec.read_kind (Some Kind.Null) 0 (data_of json.now)) result }
    ensures memory { result ≡ Err ItemFault.Memory → IsTrue (spec.kind_takes_memory (Some Kind.Null) (data_of json.now)) }
{
    match json {
        Json::Bool(true) => Ok(Value::Null),
        _ => Err(ItemFault::BadValue),
    }
}

#[cycle(read)]
fn read_list(alloc: Global, json: &Json, levels: u8) -> Result<Value, ItemFault>
    ensures read { AnswersAs datum_of (spec.read_kind (Some Kind.L) levels (data_of json.now)) result }
    ensures memory { result ≡ Err ItemFault.Memory → IsTrue (spec.kind_takes_memory (Some Kind.L) (data_of json.now)) }
{
    match json {
        Json::List(list) if levels > 0 => match read_elements(alloc, list, levels - 1) {
            Ok(list) => Ok(Value::L(list)),
            Err(fault) => Err(fault),
        },
        _ => Err(ItemFault::BadValue),
    }
}

#[cycle(read)]
fn read_map(alloc: Global, json: &Json, levels: u8) -> Result<Value, ItemFault>
    ensures read { AnswersAs datum_of (spec.read_kind (Some Kind.M) levels (data_of json.now)) result }
    ensures memory { result ≡ Err ItemFault.Memory → IsTrue (spec.kind_takes_memory (Some Kind.M) (data_of json.now)) }
{
    match json {
        Json::Fields(fields) if levels > 0 => match read_attributes(alloc, fields, levels - 1) {
            Ok(map) => Ok(Value::M(map)),
            Err(fault) => Err(fault),
        },
        _ => Err(ItemFault::BadValue),
    }
}

fn read_text_set(alloc: Global, json: &Json) -> Result<Value, ItemFault>
    ensures read { AnswersAs datum_of (spec.read_kind (Some Kind.Ss) 0 (data_of json.now)) result }
    ensures memory { result ≡ Err ItemFault.Memory → IsTrue (spec.kind_takes_memory (Some Kind.Ss) (data_of json.now)) }
{
    match json {
        Json::List(list) if !list.is_empty() => Ok(Value::Ss(read_texts(alloc, list)?)),
        _ => Err(ItemFault::BadValue),
    }
}

fn read_number_set(alloc: Global, json: &Json) -> Result<Value, ItemFault>
    ensures read { AnswersAs datum_of (spec.read_kind (Some Kind.Ns) 0 (data_of json.now)) result }
    ensures memory { result ≡ Err ItemFault.Memory → IsTrue (spec.kind_takes_memory (Some Kind.Ns) (data_of json.now)) }
{
    match json {
        Json::List(list) if !list.is_empty() => Ok(Value::Ns(read_numbers(alloc, list)?)),
        _ => Err(ItemFault::BadValue),
    }
}

#[cycle(read)]
fn read_elements(alloc: Global, list: &JsonList, levels: u8) -> Result<ValueList, ItemFault>
    ensures { AnswersAs elements_of (spec.read_elements levels (items_of list.now)) result }
{
    let mut inner = Vec::with_capacity(alloc, list.len())?;
    for json in list.as_slice() {
        inner.push(read_within(alloc, json, levels)?)?;
    }
    Ok(ValueList {
        inner: Arc::new(alloc, inner)?,
    })
}

#[cycle(read)]
pub(crate) fn read_attributes(
    alloc: Global,
    fields: &JsonFields,
    levels: u8,
) -> Result<ValueMap, ItemFault>
    ensures read { AnswersAs attributes_of (spec.read_attributes levels (members_of fields.now)) result }
    ensures ordered { IfOk result (λ m. IsStrictlySortedBy text_cmp (keys_of m)) }
{
    let mut inner = Vec::with_capacity(alloc, fields.len())?;
    for field in fields.as_slice() {
        let value = read_within(alloc, &field.value, levels)?;
        let name = field.name.copy()?;
        inner.push(Attribute { name, value })?;
    }
    Ok(ValueMap {
        inner: Arc::new(alloc, inner)?,
    })
}

fn read_texts(alloc: Global, list: &JsonList) -> Result<TextSet, ItemFault>
    ensures { AnswersAs (λ s. s) (spec.read_texts [] (items_of list.now)) result }
{
    let mut inner = BTreeSet::new(alloc);
    for json in list.as_slice() {
        let Json::Text(text) = json else {
            return Err(ItemFault::BadValue);
        };
        if !inner.insert(text.copy()?)? {
            return Err(ItemFault::BadValue);
        }
    }
    Ok(TextSet {
        inner: Arc::new(alloc, inner)?,
    })
}

fn read_numbers(alloc: Global, list: &JsonList) -> Result<NumberSet, ItemFault>
    ensures { AnswersAs (λ s. s) (spec.read_numbers [] (items_of list.now)) result }
{
    let mut inner = BTreeSet::new(alloc);
    for json in list.as_slice() {
        let Json::Text(text) = json else {
            return Err(ItemFault::BadValue);
        };
        if !inner.insert(Number::read(text.as_str())?)? {
            return Err(ItemFault::BadValue);
        }
    }
    Ok(NumberSet {
        inner: Arc::new(alloc, inner)?,
    })
}
