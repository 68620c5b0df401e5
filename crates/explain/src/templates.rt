// Paths of a state that pick nothing.
ghost use Rattle.std.specs.Prelude.{◌≡◌, ◌++◌, IfOk, true, codes};
ghost use Rattle.json_tree.specs.View.{data_of};
ghost use Rattle.explain.specs.Details.{PathPicksNothing};

use crate::details::{Absent, Case};
use crate::why::{Way, field, text_in};
use json_tree::{Field, Json, JsonFields, JsonList, Text};
use ref_paths::{PathFault, RefPath};
use std::alloc::{AllocError, Global};

/// How deep templates and tests are looked into: no line's JSON nests deeper.
pub(crate) const MOST_LEVELS: u8 = 128;

/// Whether a text is that of a path that picks nothing of a value.
fn picks_nothing(alloc: Global, text: &str, of: &Json) -> Result<bool, AllocError>
    ensures { IfOk result (λ b. b ≡ true → PathPicksNothing text.now (data_of of.now)) }
{
    match RefPath::read(alloc, text) {
        Ok(path) => {
            let nothing = path.pick(of).is_none();
            drop(path);
            Ok(nothing)
        }
        Err(PathFault::BadPath(_)) => Ok(false),
        Err(PathFault::Memory) => Err(AllocError),
    }
}

/// The text's path, if it picks nothing of the value.
fn absent(alloc: Global, text: &Text, of: &Json) -> Result<Option<Absent>, AllocError> {
    if !picks_nothing(alloc, text.as_str(), of)? {
        return Ok(None);
    }
    let path = text.copy()?;
    let of = of.copy()?;
    Ok(Some(Absent { path, of }))
}

/// The same of a text that leads into a Map's element, by these steps.
fn absent_in_item(
    alloc: Global,
    text: &Text,
    steps: &str,
    item: &Json,
) -> Result<Option<Absent>, AllocError>
    requires { text.now ≡ codes "$$.Map.Item.Value" ++ steps.now }
{
    let mut inner = String::from_str(alloc, "$")?;
    inner.push_str(steps)?;
    if !picks_nothing(alloc, inner.as_str(), item)? {
        return Ok(None);
    }
    let path = text.copy()?;
    let of = item.copy()?;
    Ok(Some(Absent { path, of }))
}

/// The path of a template's marked field, if it picks nothing: of the input, or of the element.
fn absent_source(
    alloc: Global,
    text: &Text,
    input: &Json,
    item: Option<&Json>,
) -> Result<Option<Absent>, AllocError> {
    let Some(item) = item else {
        return absent(alloc, text, input);
    };
    match text.as_str().strip_prefix("$$.Map.Item.Value") {
        Some(steps) => absent_in_item(alloc, text, steps, item),
        None => absent(alloc, text, input),
    }
}

/// The first path of a template that picks nothing, of the input or, in an item selector, of the element. Looks so many levels
/// deep, and calls itself once for each.
#[cycle(absent_within)]
fn absent_within(
    alloc: Global,
    way: &mut Way,
    template: &Json,
    input: &Json,
    item: Option<&Json>,
    levels: u8,
) -> Result<Option<Absent>, AllocError> {
    if levels == 0 {
        return Ok(None);
    }
    match template {
        Json::List(list) => absent_in_list(alloc, way, list, input, item, levels - 1),
        Json::Fields(fields) => absent_in_fields(alloc, way, fields, input, item, levels - 1),
        _ => Ok(None),
    }
}

#[cycle(absent_within)]
fn absent_in_list(
    alloc: Global,
    way: &mut Way,
    list: &JsonList,
    input: &Json,
    item: Option<&Json>,
    levels: u8,
) -> Result<Option<Absent>, AllocError> {
    for (index, value) in list.as_slice().iter().enumerate() {
        way.enter_item(index)?;
        if let Some(found) = absent_within(alloc, way, value, input, item, levels)? {
            return Ok(Some(found));
        }
        way.leave();
    }
    Ok(None)
}

#[cycle(absent_within)]
fn absent_in_fields(
    alloc: Global,
    way: &mut Way,
    fields: &JsonFields,
    input: &Json,
    item: Option<&Json>,
    levels: u8,
) -> Result<Option<Absent>, AllocError> {
    for field in fields.as_slice() {
        way.enter(alloc, field.name.as_str())?;
        if let Some(found) = absent_in_field(alloc, way, field, input, item, levels)? {
            return Ok(Some(found));
        }
        way.leave();
    }
    Ok(None)
}

#[cycle(absent_within)]
fn absent_in_field(
    alloc: Global,
    way: &mut Way,
    field: &Field,
    input: &Json,
    item: Option<&Json>,
    levels: u8,
) -> Result<Option<Absent>, AllocError> {
    if !field.name.as_str().ends_with(".$") {
        return absent_within(alloc, way, &field.value, input, item, levels);
    }
    match &field.value {
        Json::Text(text) => absent_source(alloc, text, input, item),
        _ => Ok(None),
    }
}

/// The path of a state's template that picks nothing, if there is one.
pub(crate) fn in_template(
    alloc: Global,
    way: &mut Way,
    fields: &Json,
    name: &str,
    input: &Json,
    item: Option<&Json>,
) -> Result<Option<Case>, AllocError> {
    let Some(template) = field(fields, name) else {
        return Ok(None);
    };
    way.enter(alloc, name)?;
    match absent_within(alloc, way, template, input, item, MOST_LEVELS)? {
        Some(absent) => Ok(Some(Case::PicksNothing(absent))),
        None => Ok(None),
    }
}

/// A state's path, if it picks nothing.
pub(crate) fn in_path(
    alloc: Global,
    way: &mut Way,
    fields: &Json,
    name: &str,
    of: &Json,
) -> Result<Option<Case>, AllocError> {
    let Some(text) = text_in(fields, name) else {
        return Ok(None);
    };
    way.enter(alloc, name)?;
    match absent(alloc, text, of)? {
        Some(absent) => Ok(Some(Case::PicksNothing(absent))),
        None => Ok(None),
    }
}
