//! Objects of one field each, one inside the other, for the part of a path that is not there yet. All of it goes by
//! loops: a path may have far more steps than any value has levels.

ghost use Rattle.std.specs.Prelude.{◌≡◌, ◌<◌, ◌∷◌, [], length, slice_set, true, IfOk, IfErr, OnOk, OnErr};
ghost use Rattle.std.specs.List.{list_all};
ghost use Rattle.json_tree.specs.Fields.{with_field};
ghost use Rattle.json_tree.specs.View.{data_of};
ghost use Rattle.ref_paths.specs.Nesting.{is_name_step, nested};

use crate::path::PathStep;
use json_tree::{Json, JsonFields, JsonList, Text};
use std::alloc::{AllocError, AllocFailed, Global};

/// Adds a field that holds the value inside an object for each further step.
pub(crate) fn insert_nested(
    alloc: Global,
    members: &mut JsonFields,
    name: &Text,
    rest: &[PathStep],
    value: Json,
) -> Result<(), AllocError>
    requires { list_all is_name_step rest.now ≡ true }
    ensures ok { OnOk result (members.new ≡ with_field name.now (nested rest.now (data_of value)) members.old) }
    ensures err { OnErr result (members.new ≡ members.old) }
{
    let name = name.copy()?;
    let inner = nest(alloc, rest, value)?;
    put_field(members, name, inner, rest)
}

/// Puts a value at a name, which replaces what stood there. One that is refused is dropped along the steps.
pub(crate) fn put_field(
    members: &mut JsonFields,
    name: Text,
    value: Json,
    rest: &[PathStep],
) -> Result<(), AllocError>
    ensures ok { OnOk result (members.new ≡ with_field name (data_of value) members.old) }
    ensures err { OnErr result (members.new ≡ members.old) }
{
    match members.insert(name, value) {
        Ok(_replaced) => Ok(()),
        Err(
            AllocFailed {
                value: (_name, refused),
            },
        ) => {
            drop_nested(rest, refused);
            Err(AllocError)
        }
    }
}

/// The same at an index of a list.
pub(crate) fn put_item(
    items: &mut JsonList,
    index: u32,
    value: Json,
    rest: &[PathStep],
) -> Result<(), AllocError>
    requires { index < length items.old }
    ensures ok { OnOk result (items.new ≡ slice_set items.old index (data_of value)) }
    ensures err { OnErr result (items.new ≡ items.old) }
{
    match items.replace(index as usize, value) {
        Ok(_replaced) => Ok(()),
        Err(AllocFailed { value: refused }) => {
            drop_nested(rest, refused);
            Err(AllocError)
        }
    }
}

/// The value inside an object for each step, made from the inside out.
fn nest(alloc: Global, steps: &[PathStep], value: Json) -> Result<Json, AllocError>
    requires { list_all is_name_step steps.now ≡ true }
    ensures { IfOk result (λ j. data_of j ≡ nested steps.now (data_of value)) }
{
    let mut inner = value;
    let mut at = steps.len();
    while at > 0 {
        match wrap(alloc, &steps[at - 1], inner) {
            Ok(outer) => inner = outer,
            Err(inner) => {
                drop_nested(&steps[at..], inner);
                return Err(AllocError);
            }
        }
        at -= 1;
    }
    Ok(inner)
}

/// An object with the value as its only field.
fn wrap(alloc: Global, step: &PathStep, inner: Json) -> Result<Json, Json>
    requires { is_name_step step.now ≡ true }
    ensures ok { IfOk result (λ j. data_of j ≡ nested (step.now ∷ []) (data_of inner)) }
    ensures value_returned { IfErr result (λ v. v ≡ inner) }
{
    let PathStep::Name(name) = step else {
        unreachable!()
    };
    let Ok(name) = name.copy() else {
        return Err(inner);
    };
    let mut fields = JsonFields::new(alloc);
    match fields.insert(name, inner) {
        Ok(_absent) => Ok(Json::Fields(fields)),
        Err(
            AllocFailed {
                value: (_name, inner),
            },
        ) => Err(inner),
    }
}

/// Drops what `nest` made, from the outside in, also where it stands in other values. Dropped as it is, it would take as
/// many calls inside each other as there are steps.
fn drop_nested(steps: &[PathStep], json: Json) {
    let mut inner = json;
    for step in steps {
        match (step, inner) {
            (PathStep::Name(name), Json::Fields(mut fields)) => {
                match fields.remove(name.as_str()) {
                    Ok(Some(child)) => inner = child,
                    _ => return,
                }
            }
            (PathStep::Index(index), Json::List(mut list)) => {
                if *index as usize >= list.len() {
                    return;
                }
                match list.replace(*index as usize, Json::Null) {
                    Ok(child) => inner = child,
                    Err(_refused) => return,
                }
            }
            _ => return,
        }
    }
}
