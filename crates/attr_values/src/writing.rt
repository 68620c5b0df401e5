//! From values to JSON.

ghost use Rattle.std.specs.Prelude.{◌≡◌, ◌∷◌, [], IfOk, map as list_map};
ghost use Rattle.json_tree.specs.Data as json;
ghost use Rattle.json_tree.specs.View.{data_of};
ghost use Rattle.attr_values.specs.View.{datum_of};
ghost use Rattle.attr_values.specs.Writing.{json_of, json_entries, number_json, one_field as object_of_one};

use crate::number::Number;
use crate::value::{Attribute, NumberSet, TextSet, Value, ValueList, ValueMap};
use json_tree::{Field, Json, JsonFields, JsonList, Text};
use std::alloc::{AllocError, Global};
use std::collections::BTreeSet;

/// Writes a value: an object with one field, named for its type. Takes memory for each text, list, map and set.
#[cycle(write)]
pub fn write_value(alloc: Global, value: &Value) -> Result<Json, AllocError>
    ensures { IfOk result (λ j. data_of j ≡ json_of (datum_of value.now)) }
{
    match value {
        Value::S(text) => one_field(alloc, "S", Json::Text(text.copy()?)),
        Value::N(number) => one_field(alloc, "N", write_number(alloc, number)?),
        Value::Bool(b) => one_field(alloc, "BOOL", Json::Bool(*b)),
        Value::Null => one_field(alloc, "NULL", Json::Bool(true)),
        Value::L(list) => one_field(alloc, "L", Json::List(write_list(alloc, list)?)),
        Value::M(map) => one_field(alloc, "M", Json::Fields(write_map(alloc, map)?)),
        Value::Ss(set) => one_field(alloc, "SS", Json::List(write_texts(alloc, set)?)),
        Value::Ns(set) => one_field(alloc, "NS", Json::List(write_numbers(alloc, set)?)),
    }
}

fn one_field(alloc: Global, name: &str, value: Json) -> Result<Json, AllocError>
    ensures { IfOk result (λ j. data_of j ≡ object_of_one name.now (data_of value)) }
{
    let mut fields = JsonFields::new(alloc);
    drop(fields.insert(Text::new(alloc, name)?, value)?);
    Ok(Json::Fields(fields))
}

fn write_number(alloc: Global, number: &Number) -> Result<Json, AllocError>
    ensures { IfOk result (λ j. data_of j ≡ number_json number.now) }
{
    Ok(Json::Text(Text::from_string(number.write_text(alloc)?)?))
}

#[cycle(write)]
fn write_list(alloc: Global, list: &ValueList) -> Result<JsonList, AllocError>
    ensures { IfOk result (λ js. js ≡ list_map json_of list.now) }
{
    let items: &Vec<Value> = &list.inner;
    let mut values = Vec::with_capacity(alloc, items.len())?;
    for value in items {
        values.push(write_value(alloc, value)?)?;
    }
    Ok(JsonList::from_vec(values)?)
}

#[cycle(write)]
pub(crate) fn write_map(alloc: Global, map: &ValueMap) -> Result<JsonFields, AllocError>
    ensures { IfOk result (λ fields. fields ≡ json_entries map.now) }
{
    let attributes: &Vec<Attribute> = &map.inner;
    let mut fields = Vec::with_capacity(alloc, attributes.len())?;
    for attribute in attributes {
        let name = attribute.name.copy()?;
        let value = write_value(alloc, &attribute.value)?;
        fields.push(Field { name, value })?;
    }
    Ok(JsonFields::from_sorted(fields)?)
}

fn write_texts(alloc: Global, set: &TextSet) -> Result<JsonList, AllocError>
    ensures { IfOk result (λ js. js ≡ list_map json.text set.now) }
{
    let members: &BTreeSet<Text> = &set.inner;
    let mut texts = Vec::with_capacity(alloc, members.len())?;
    for text in members {
        texts.push(Json::Text(text.copy()?))?;
    }
    Ok(JsonList::from_vec(texts)?)
}

fn write_numbers(alloc: Global, set: &NumberSet) -> Result<JsonList, AllocError>
    ensures { IfOk result (λ js. js ≡ list_map number_json set.now) }
{
    let members: &BTreeSet<Number> = &set.inner;
    let mut numbers = Vec::with_capacity(alloc, members.len())?;
    for number in members {
        numbers.push(write_number(alloc, number)?)?;
    }
    Ok(JsonList::from_vec(numbers)?)
}
