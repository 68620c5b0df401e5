//! Whether JSON is spelled as it would be written. To look takes no memory.

ghost use Rattle.std.specs.Prelude.{◌≡◌, IsTrue, map as list_map};
ghost use Rattle.json_tree.specs.Data.{text as json_text};
ghost use Rattle.json_tree.specs.View.{data_of};
ghost use Rattle.attr_values.specs.View.{datum_of};
ghost use Rattle.attr_values.specs.Writing.{json_of, json_entries, number_json, one_field};

use crate::number::Number;
use crate::reading::only_field;
use crate::value::{Attribute, NumberSet, TextSet, Value, ValueList, ValueMap};
use json_tree::{Json, JsonFields, JsonList, Text};
use std::collections::BTreeSet;

#[cycle(spelled)]
fn is_spelled(value: &Value, json: &Json) -> bool
    ensures { IsTrue result → data_of json.now ≡ json_of (datum_of value.now) }
{
    let Json::Fields(fields) = json else {
        return false;
    };
    match only_field(fields) {
        Some((name, content)) => is_content_spelled(value, name, content),
        None => false,
    }
}

#[cycle(spelled)]
fn is_content_spelled(value: &Value, name: &str, json: &Json) -> bool
    ensures { IsTrue result → one_field name.now (data_of json.now) ≡ json_of (datum_of value.now) }
{
    match (value, json) {
        (Value::S(text), Json::Text(json)) => name == "S" && json == text,
        (Value::N(number), Json::Text(json)) => name == "N" && number.is_text(json.as_str()),
        (Value::Bool(b), Json::Bool(json)) => name == "BOOL" && json == b,
        (Value::Null, Json::Bool(true)) => name == "NULL",
        (Value::L(list), Json::List(json)) => name == "L" && is_list_spelled(list, json),
        (Value::M(map), Json::Fields(json)) => name == "M" && is_map_spelled(map, json),
        (Value::Ss(set), Json::List(json)) => name == "SS" && are_texts_spelled(set, json),
        (Value::Ns(set), Json::List(json)) => name == "NS" && are_numbers_spelled(set, json),
        _ => false,
    }
}

#[cycle(spelled)]
fn is_list_spelled(list: &ValueList, json: &JsonList) -> bool
    ensures { IsTrue result → json.now ≡ list_map json_of list.now }
{
    let mut rest = json.as_slice().iter();
    let items: &Vec<Value> = &list.inner;
    for value in items {
        let Some(json) = rest.next() else {
            return false;
        };
        if !is_spelled(value, json) {
            return false;
        }
    }
    rest.next().is_none()
}

#[cycle(spelled)]
pub(crate) fn is_map_spelled(map: &ValueMap, json: &JsonFields) -> bool
    ensures { IsTrue result → json.now ≡ json_entries map.now }
{
    let mut rest = json.as_slice().iter();
    let attributes: &Vec<Attribute> = &map.inner;
    for attribute in attributes {
        let Some(field) = rest.next() else {
            return false;
        };
        if field.name != attribute.name || !is_spelled(&attribute.value, &field.value) {
            return false;
        }
    }
    rest.next().is_none()
}

/// A set is written in its own order, so members in another one are not spelled so.
fn are_texts_spelled(set: &TextSet, json: &JsonList) -> bool
    ensures { IsTrue result → json.now ≡ list_map json_text set.now }
{
    let mut rest = json.as_slice().iter();
    let members: &BTreeSet<Text> = &set.inner;
    for text in members {
        match rest.next() {
            Some(Json::Text(json)) if json == text => {}
            _ => return false,
        }
    }
    rest.next().is_none()
}

fn are_numbers_spelled(set: &NumberSet, json: &JsonList) -> bool
    ensures { IsTrue result → json.now ≡ list_map number_json set.now }
{
    let mut rest = json.as_slice().iter();
    let members: &BTreeSet<Number> = &set.inner;
    for number in members {
        match rest.next() {
            Some(Json::Text(json)) if number.is_text(json.as_str()) => {}
            _ => return false,
        }
    }
    rest.next().is_none()
}
