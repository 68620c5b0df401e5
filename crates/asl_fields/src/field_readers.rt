// Reading the fields that several kinds of objects have.
ghost use Rattle.std.specs.Prelude.{◌≡◌, List, Option, option_and_then, IfOk, IfErr, OnOk, OnErr, Some, None, true, false, codes};
ghost use Rattle.json_tree.specs.Reading.{whole_of};
ghost use Rattle.json_tree.specs.View.{data_of};
ghost use Rattle.ref_paths.specs.TemplateFaults.{IsNoTemplate};
ghost use Rattle.ref_paths.specs.Templates.{IsTemplate};
ghost use Rattle.ref_paths.specs.declared.path.PathStep.{PathStep};
ghost use Rattle.serde_json.specs.Find.{get, as_str, as_bool, as_number, as_i64, as_object};
ghost use Rattle.serde_json.specs.View.{view, members_view};
ghost use Rattle.asl_fields.specs.FieldFaults.{FieldsFault, NamesFault, PathFieldFault, TemplateFieldFault, TellsTemplate, optional_text_fault, query_language_fault};
ghost use Rattle.asl_fields.specs.Fields.{all_known, speaks_json_path};
ghost use Rattle.asl_fields.specs.Refusal.{RefusesForFault};
ghost use Rattle.asl_fields.specs.Values.{HasFields, IsPathText, IsPath, IsPathField, IsTemplateField, text_or_empty};

use crate::fault::MachineFault;
use crate::fields::{FieldStatus, Place, field_status_of};
use json_tree::{Json, JsonFault, Text, from_value};
use ref_paths::{PathFault, RefPath, Template, TemplateFault};
use serde_json::{Map, Value};
use std::alloc::Global;

/// The value of a required field.
pub fn required<'a>(alloc: Global, object: &'a Value, name: &str) -> Result<&'a Value, MachineFault>
    ensures ok { IfOk result (λ v. get name.now (view object.now) ≡ Some (view v.now)) }
    ensures refused { OnErr result (get name.now (view object.now) ≡ None) }
    ensures fault { IfErr result (λ e. RefusesForFault e (e ≡ MachineFault.Missing name.now)) }
{
    match object.get(name) {
        Some(value) => Ok(value),
        None => Err(MachineFault::Missing(Text::new(alloc, name)?)),
    }
}

/// A copy of the text that a field of this name has.
pub fn text_of(alloc: Global, value: &Value, name: &str) -> Result<Text, MachineFault>
    ensures ok { IfOk result (λ text. as_str (view value.now) ≡ Some text) }
    ensures refused { IfErr result (λ e. RefusesForFault e (as_str (view value.now) ≡ None)) }
    ensures fault { IfErr result (λ e. RefusesForFault e (e ≡ MachineFault.BadField name.now)) }
{
    match value.as_str() {
        Some(text) => Ok(Text::new(alloc, text)?),
        None => Err(MachineFault::BadField(Text::new(alloc, name)?)),
    }
}

/// A copy of the text of a field, which is empty where there is no such field.
pub fn optional_text(alloc: Global, object: &Value, name: &str) -> Result<Text, MachineFault>
    ensures ok { IfOk result (λ text. text_or_empty (get name.now (view object.now)) ≡ Some text) }
    ensures fault { IfErr result
        (λ e. RefusesForFault e (optional_text_fault name.now (get name.now (view object.now)) ≡ Some e)) }
{
    match object.get(name) {
        Some(value) => text_of(alloc, value, name),
        None => Ok(Text::new(alloc, "")?),
    }
}

/// The Boolean that a field of this name has.
pub fn bool_of(alloc: Global, value: &Value, name: &str) -> Result<bool, MachineFault>
    ensures ok { IfOk result (λ b. as_bool (view value.now) ≡ Some b) }
    ensures refused { IfErr result (λ e. RefusesForFault e (as_bool (view value.now) ≡ None)) }
    ensures fault { IfErr result (λ e. RefusesForFault e (e ≡ MachineFault.BadField name.now)) }
{
    match value.as_bool() {
        Some(truth) => Ok(truth),
        None => Err(MachineFault::BadField(Text::new(alloc, name)?)),
    }
}

/// The whole number that a field of this name has.
pub fn integer_of(alloc: Global, value: &Value, name: &str) -> Result<i64, MachineFault>
    ensures ok { IfOk result (λ z. option_and_then as_i64 (as_number (view value.now)) ≡ Some z) }
    ensures refused { IfErr result
        (λ e. RefusesForFault e (option_and_then as_i64 (as_number (view value.now)) ≡ None)) }
    ensures fault { IfErr result (λ e. RefusesForFault e (e ≡ MachineFault.BadField name.now)) }
{
    match value.as_i64() {
        Some(number) => Ok(number),
        None => Err(MachineFault::BadField(Text::new(alloc, name)?)),
    }
}

/// Refuses a field that may not stand here.
fn check_names(alloc: Global, place: Place, fields: &Map<String, Value>) -> Result<(), MachineFault>
    ensures ok { OnOk result (all_known place (members_view fields.now.entries) ≡ true) }
    ensures refused { IfErr result
        (λ e. RefusesForFault e (all_known place (members_view fields.now.entries) ≡ false)) }
    ensures fault { IfErr result
        (λ e. RefusesForFault e (NamesFault place (members_view fields.now.entries) e)) }
{
    for (name, _value) in fields {
        match field_status_of(place, name.as_str()) {
            FieldStatus::Known => {}
            FieldStatus::Unsupported => {
                return Err(MachineFault::Unsupported(Text::new(alloc, name.as_str())?));
            }
            FieldStatus::Unknown => {
                return Err(MachineFault::UnknownField(Text::new(alloc, name.as_str())?));
            }
        }
    }
    Ok(())
}

/// Only JSONPath is read. JSONata is left out.
fn check_query_language(alloc: Global, object: &Value) -> Result<(), MachineFault>
    ensures ok { OnOk result (speaks_json_path (view object.now) ≡ true) }
    ensures refused { OnErr result (speaks_json_path (view object.now) ≡ false) }
    ensures fault { IfErr result
        (λ e. RefusesForFault e (query_language_fault (get (codes "QueryLanguage") (view object.now)) ≡ Some e)) }
{
    let Some(value) = object.get("QueryLanguage") else {
        return Ok(());
    };
    let Some(language) = value.as_str() else {
        return Err(MachineFault::BadField(Text::new(alloc, "QueryLanguage")?));
    };
    if language == "JSONPath" {
        Ok(())
    } else if language == "JSONata" {
        Err(MachineFault::Unsupported(Text::new(alloc, "QueryLanguage")?))
    } else {
        Err(MachineFault::BadField(Text::new(alloc, "QueryLanguage")?))
    }
}

/// Refuses a field that may not stand here, and a language that isn't read, of an object whose fields are `fields` too.
#[tactic(auto, using(crate::proofs::KnownMembers::named_language))]
pub fn check_fields(
    alloc: Global,
    place: Place,
    object: &Value,
    fields: &Map<String, Value>,
) -> Result<(), MachineFault>
    requires { as_object (view object.now) ≡ Some (members_view fields.now.entries) }
    ensures ok { OnOk result (HasFields place (view object.now)) }
    ensures fault { IfErr result (λ e. RefusesForFault e (FieldsFault place (view object.now) e)) }
{
    check_names(alloc, place, fields)?;
    check_query_language(alloc, object)
}

/// The path of a text.
fn path_of(alloc: Global, text: &str, field: &str) -> Result<Option<RefPath>, MachineFault>
    ensures ok { IfOk result (IsPathText text.now) }
    ensures fault { IfErr result
        (λ e. RefusesForFault e ((e ≡ MachineFault.BadField field.now) × ((p : Option (List PathStep)) → IsPathText text.now p → ⊥))) }
{
    match RefPath::read(alloc, text) {
        Ok(path) => Ok(Some(path)),
        Err(PathFault::BadPath(_)) => Err(MachineFault::BadField(Text::new(alloc, field)?)),
        Err(PathFault::Memory) => Err(MachineFault::Memory),
    }
}

/// The path of a field's value, or none where it is `null`.
fn path_or_null(alloc: Global, value: &Value, field: &str) -> Result<Option<RefPath>, MachineFault>
    ensures ok { IfOk result (IsPath (view value.now)) }
    ensures fault { IfErr result (λ e. RefusesForFault e (PathFieldFault field.now (Some (view value.now)) e)) }
{
    match value {
        Value::Null => Ok(None),
        Value::String(text) => path_of(alloc, text.as_str(), field),
        _ => Err(MachineFault::BadField(Text::new(alloc, field)?)),
    }
}

/// The path of a field, `$` where there is no such field, and none where it is `null`.
pub fn read_path(
    alloc: Global,
    object: &Value,
    field: &str,
) -> Result<Option<RefPath>, MachineFault>
    ensures ok { IfOk result (IsPathField (get field.now (view object.now))) }
    ensures fault { IfErr result
        (λ e. RefusesForFault e (PathFieldFault field.now (get field.now (view object.now)) e)) }
{
    match object.get(field) {
        Some(value) => path_or_null(alloc, value, field),
        None => Ok(Some(RefPath::root(alloc))),
    }
}

/// A field's value, if its numbers are whole.
fn whole_value(alloc: Global, value: &Value, field: &str) -> Result<Json, MachineFault>
    ensures ok { IfOk result (λ j. whole_of (view value.now) ≡ Some (data_of j)) }
    ensures fault { IfErr result
        (λ e. RefusesForFault e ((e ≡ MachineFault.BadField field.now) × (whole_of (view value.now) ≡ None))) }
{
    match from_value(alloc, value) {
        Ok(json) => Ok(json),
        Err(JsonFault::Memory) => Err(MachineFault::Memory),
        Err(_) => Err(MachineFault::BadField(Text::new(alloc, field)?)),
    }
}

fn template_of(alloc: Global, json: &Json, item_paths: bool) -> Result<Template, MachineFault>
    ensures ok { IfOk result (IsTemplate item_paths (data_of json.now)) }
    ensures fault { IfErr result (λ e. RefusesForFault e (TellsTemplate item_paths (data_of json.now) e)) }
    ensures no_template { IfErr result (λ e. RefusesForFault e (IsNoTemplate item_paths (data_of json.now))) }
{
    match Template::read(alloc, json, item_paths) {
        Ok(template) => Ok(template),
        Err(TemplateFault::BadTemplate(name)) => Err(MachineFault::BadField(name)),
        Err(TemplateFault::Unsupported(name)) => Err(MachineFault::Unsupported(name)),
        Err(TemplateFault::Memory) => Err(MachineFault::Memory),
    }
}

/// The template of a field, if it has one.
pub fn read_template(
    alloc: Global,
    object: &Value,
    field: &str,
    item_paths: bool,
) -> Result<Option<Template>, MachineFault>
    ensures ok { IfOk result (IsTemplateField item_paths (get field.now (view object.now))) }
    ensures fault { IfErr result
        (λ e. RefusesForFault e (TemplateFieldFault item_paths field.now (get field.now (view object.now)) e)) }
{
    let Some(value) = object.get(field) else {
        return Ok(None);
    };
    let json = whole_value(alloc, value, field)?;
    Ok(Some(template_of(alloc, &json, item_paths)?))
}
