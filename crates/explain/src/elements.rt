// What is wrong with the elements of a Map.
use crate::catchers::{caught_own, in_catcher};
use crate::details::{Case, NoList, TooMany};
use crate::results::too_deep;
use crate::templates::{in_path, in_template};
use crate::why::{Way, field};
use asl_forward::frame_turns::{MOST_LEVELS, OwnFault};
use asl_forward::machine_tree::Map;
use json_tree::{Json, JsonList, depth};
use ref_paths::FillFault;
use std::alloc::{AllocError, Global};

/// The branches that a Map may have.
const BRANCHES: usize = 4096;

/// What is wrong with the items path of a Map, or with what the item selector makes of an element.
pub(crate) fn in_elements(
    alloc: Global,
    way: &mut Way,
    fields: &Json,
    map: &Map,
    raw: &Json,
    input: &Json,
) -> Result<Option<Case>, AllocError> {
    match map.items_path.pick(input) {
        None => in_path(alloc, way, fields, "ItemsPath", input),
        Some(Json::List(elements)) => in_list(alloc, way, fields, map, raw, input, elements),
        Some(of) => no_list(alloc, way, fields, of),
    }
}

/// Goes to ItemsPath, if the state has one.
fn enter_items(alloc: Global, way: &mut Way, fields: &Json) -> Result<(), AllocError> {
    match field(fields, "ItemsPath") {
        Some(_) => way.enter(alloc, "ItemsPath"),
        None => Ok(()),
    }
}

fn no_list(
    alloc: Global,
    way: &mut Way,
    fields: &Json,
    of: &Json,
) -> Result<Option<Case>, AllocError> {
    if let Json::List(_) = of {
        return Ok(None);
    }
    enter_items(alloc, way, fields)?;
    let of = of.copy()?;
    Ok(Some(Case::NoList(NoList { of })))
}

fn in_list(
    alloc: Global,
    way: &mut Way,
    fields: &Json,
    map: &Map,
    raw: &Json,
    input: &Json,
    elements: &JsonList,
) -> Result<Option<Case>, AllocError> {
    if elements.len() > BRANCHES {
        enter_items(alloc, way, fields)?;
        return too_many(elements);
    }
    if map.item_selector.is_none() {
        enter_items(alloc, way, fields)?;
        return deep_element(elements);
    }
    in_selector(alloc, way, fields, map, raw, input, elements)
}

fn too_many(elements: &JsonList) -> Result<Option<Case>, AllocError> {
    if elements.len() <= BRANCHES {
        return Ok(None);
    }
    let elements = elements.copy()?;
    Ok(Some(Case::TooMany(TooMany { elements })))
}

/// The first element that nests too deep.
fn deep_element(elements: &JsonList) -> Result<Option<Case>, AllocError> {
    for element in elements.as_slice() {
        if depth(element) > MOST_LEVELS {
            return too_deep(element);
        }
    }
    Ok(None)
}

/// What the item selector makes of an element.
#[derive(Drop)]
enum Selected {
    Made,
    TooDeep(Option<Case>),
    NoSuchNode,
}

/// What is wrong with the item selector at the first element at which it fails.
fn in_selector(
    alloc: Global,
    way: &mut Way,
    fields: &Json,
    map: &Map,
    raw: &Json,
    input: &Json,
    elements: &JsonList,
) -> Result<Option<Case>, AllocError> {
    let name = match field(fields, "ItemSelector") {
        Some(_) => "ItemSelector",
        None => "Parameters",
    };
    way.enter(alloc, name)?;
    for (index, element) in elements.as_slice().iter().enumerate() {
        match select(alloc, map, input, index, element)? {
            Selected::Made => {}
            Selected::TooDeep(found) => return Ok(found),
            Selected::NoSuchNode => {
                way.leave();
                return match caught_own(alloc, &map.errors, OwnFault::ParameterPathFailure)? {
                    Some(index) => in_catcher(alloc, way, fields, index, raw),
                    None => in_template(alloc, way, fields, name, input, Some(element)),
                };
            }
        }
    }
    Ok(None)
}

/// What the item selector makes of this element.
fn select(
    alloc: Global,
    map: &Map,
    input: &Json,
    index: usize,
    element: &Json,
) -> Result<Selected, AllocError> {
    let Some(selector) = &map.item_selector else {
        return Ok(Selected::Made);
    };
    let index = u32::try_from(index).unwrap_or(u32::MAX);
    match selector.fill(alloc, input, Some((index, element))) {
        Ok(made) => {
            if depth(&made) > MOST_LEVELS {
                Ok(Selected::TooDeep(too_deep(&made)?))
            } else {
                Ok(Selected::Made)
            }
        }
        Err(FillFault::NoSuchNode) => Ok(Selected::NoSuchNode),
        Err(FillFault::Memory) => Err(AllocError),
    }
}
