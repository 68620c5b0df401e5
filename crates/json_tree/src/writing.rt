// From a value to its text.
ghost use Rattle.std.specs.Prelude.{◌≡◌, ◌≤◌, ◌++◌, Some, IfOk, OnOk, string_bytes};
ghost use Rattle.json_tree.specs.Data.{items_of, members_of, depth, most_levels, fields as data_fields};
ghost use Rattle.json_tree.specs.Proper.{IsProper, ItemsAreProper};
ghost use Rattle.json_tree.specs.Reading.{read_json};
ghost use Rattle.json_tree.specs.View.{data_of};
ghost use Rattle.json_tree.specs.Written.{text_of};
ghost use Rattle.json_tree.specs.Tokens.{tokens_of, items_tokens, members_tokens};

use crate::tree::{Field, Json, JsonFields, JsonList};
use json::Writer;
use std::alloc::{AllocError, Global};

const FIRST_ROOM: usize = 128;

/// The one text of a value: compact (RFC 8259), fields in the order of their names' bytes, and only those bytes escaped
/// that have to be. Takes memory for the text alone, in one pass over the value. `read` gives the value back where it nests
/// at most 127 deep, and refuses deeper texts.
pub fn write_text(alloc: Global, json: &Json) -> Result<String, AllocError>
    ensures text { IfOk result (λ s. string_bytes s ≡ text_of (data_of json.now)) }
    ensures proper { OnOk result (IsProper (data_of json.now)) }
    ensures reads_back { IfOk result (λ s. depth (data_of json.now) ≤ most_levels
        → read_json (string_bytes s) ≡ Some (data_of json.now)) }
{
    let mut out = Writer::new(Vec::with_capacity(alloc, FIRST_ROOM)?);
    write(json, &mut out)?;
    let bytes = out.into_inner();
    Ok(unsafe { String::from_utf8_unchecked(bytes) })
}

#[cycle(write)]
fn write(json: &Json, out: &mut Writer) -> Result<(), AllocError>
    ensures ok { OnOk result (out.new.tokens ≡ out.old.tokens ++ tokens_of (data_of json.now)) }
    ensures proper { OnOk result (IsProper (data_of json.now)) }
    ensures before { out.new.before ≡ out.old.before }
{
    match json {
        Json::Null => out.null(),
        Json::Bool(b) => out.boolean(*b),
        Json::Whole(n) => out.i64(*n),
        Json::Text(text) => out.string(text.as_str()),
        Json::List(list) => {
            out.begin_array()?;
            write_list(list, out)
        }
        Json::Fields(fields) => {
            out.begin_object()?;
            write_fields(fields, out)
        }
    }
}

#[cycle(write)]
fn write_list(list: &JsonList, out: &mut Writer) -> Result<(), AllocError>
    ensures ok { OnOk result (out.new.tokens ≡ out.old.tokens ++ items_tokens (items_of list.now)) }
    ensures proper { OnOk result (ItemsAreProper (items_of list.now)) }
    ensures before { out.new.before ≡ out.old.before }
{
    let Some(node) = &list.inner else {
        return out.end_array();
    };
    let items: &Vec<Json> = node;
    for item in items {
        write(item, out)?;
    }
    out.end_array()
}

#[cycle(write)]
fn write_fields(fields: &JsonFields, out: &mut Writer) -> Result<(), AllocError>
    ensures ok { OnOk result (out.new.tokens ≡ out.old.tokens ++ members_tokens (members_of fields.now)) }
    ensures proper { OnOk result (IsProper (data_fields (members_of fields.now))) }
    ensures before { out.new.before ≡ out.old.before }
{
    let Some(node) = &fields.inner else {
        return out.end_object();
    };
    let fields: &Vec<Field> = node;
    for field in fields {
        out.key(field.name.as_str())?;
        write(&field.value, out)?;
    }
    out.end_object()
}
