// What is wrong with a state's input or output.
ghost use Rattle.std.specs.Prelude.{◌≡◌, IfOk, true};
ghost use Rattle.json_tree.specs.View.{data_of};
ghost use Rattle.explain.specs.Details.{PlacesNothing};

use crate::details::{Case, NoPlace, TooDeep};
use crate::templates::{in_path, in_template};
use crate::why::{Way, text_in};
use asl_forward::frame_turns::MOST_LEVELS;
use asl_forward::frame_turns::state_parts::Processing;
use json_tree::{Json, JsonFields, depth};
use ref_paths::{FillFault, PathFault, RefPath, place};
use std::alloc::{AllocError, Global};

/// A value that would come to be deeper isn't made to be shown.
const MOST_SHOWN: u32 = 1024;

/// What is wrong with InputPath or Parameters.
pub(crate) fn in_input(
    alloc: Global,
    way: &mut Way,
    fields: &Json,
    processing: &Processing,
    raw: &Json,
) -> Result<Option<Case>, AllocError> {
    let Some(path) = &processing.input_path else {
        let nothing = Json::Fields(JsonFields::new(alloc));
        return in_template(alloc, way, fields, "Parameters", &nothing, None);
    };
    match path.pick(raw) {
        Some(input) => in_template(alloc, way, fields, "Parameters", input, None),
        None => in_path(alloc, way, fields, "InputPath", raw),
    }
}

/// What is wrong with ResultSelector, ResultPath or OutputPath, or with the output.
pub(crate) fn in_result(
    alloc: Global,
    way: &mut Way,
    fields: &Json,
    processing: &Processing,
    raw: &Json,
    made: &Json,
) -> Result<Option<Case>, AllocError> {
    let Some(selector) = &processing.result_selector else {
        return in_placing(alloc, way, fields, processing, raw, made);
    };
    match selector.fill(alloc, made, None) {
        Ok(selected) => in_placing(alloc, way, fields, processing, raw, &selected),
        Err(FillFault::NoSuchNode) => in_template(alloc, way, fields, "ResultSelector", made, None),
        Err(FillFault::Memory) => Err(AllocError),
    }
}

fn in_placing(
    alloc: Global,
    way: &mut Way,
    fields: &Json,
    processing: &Processing,
    raw: &Json,
    selected: &Json,
) -> Result<Option<Case>, AllocError> {
    let Some(path) = &processing.result_path else {
        return in_output(alloc, way, fields, &processing.output_path, raw);
    };
    if !path.can_place(raw) {
        return no_place(alloc, way, fields, raw);
    }
    match placed(alloc, path, raw, selected)? {
        Some(placed) => in_output(alloc, way, fields, &processing.output_path, &placed),
        None => Ok(None),
    }
}

/// The raw input with a value placed in it, unless that could come to be very deep.
fn placed(
    alloc: Global,
    path: &RefPath,
    raw: &Json,
    value: &Json,
) -> Result<Option<Json>, AllocError> {
    if path.placed_depth(value) > MOST_SHOWN {
        return Ok(None);
    }
    let value = value.copy()?;
    let Ok(root) = raw.copy() else {
        drop(value);
        return Err(AllocError);
    };
    match place(alloc, root, path, value) {
        Ok(placed) => Ok(Some(placed)),
        Err(fault) => {
            drop(fault);
            Err(AllocError)
        }
    }
}

/// The ResultPath of a state or of a catcher, if nothing can be placed by it.
pub(crate) fn no_place(
    alloc: Global,
    way: &mut Way,
    fields: &Json,
    raw: &Json,
) -> Result<Option<Case>, AllocError> {
    let Some(text) = text_in(fields, "ResultPath") else {
        return Ok(None);
    };
    if !places_nothing(alloc, text.as_str(), raw)? {
        return Ok(None);
    }
    way.enter(alloc, "ResultPath")?;
    let path = text.copy()?;
    let of = raw.copy()?;
    Ok(Some(Case::CannotPlace(NoPlace { path, of })))
}

/// Whether a text is that of a path by which nothing can be placed in a value.
fn places_nothing(alloc: Global, text: &str, of: &Json) -> Result<bool, AllocError>
    ensures { IfOk result (λ b. b ≡ true → PlacesNothing text.now (data_of of.now)) }
{
    match RefPath::read(alloc, text) {
        Ok(path) => {
            let nothing = !path.can_place(of);
            drop(path);
            Ok(nothing)
        }
        Err(PathFault::BadPath(_)) => Ok(false),
        Err(PathFault::Memory) => Err(AllocError),
    }
}

/// What is wrong with OutputPath, or with what it picks.
fn in_output(
    alloc: Global,
    way: &mut Way,
    fields: &Json,
    path: &Option<RefPath>,
    placed: &Json,
) -> Result<Option<Case>, AllocError> {
    let Some(path) = path else {
        return Ok(None);
    };
    let Some(output) = path.pick(placed) else {
        return in_path(alloc, way, fields, "OutputPath", placed);
    };
    if text_in(fields, "OutputPath").is_some() {
        way.enter(alloc, "OutputPath")?;
    } else if text_in(fields, "ResultPath").is_some() {
        way.enter(alloc, "ResultPath")?;
    }
    too_deep(output)
}

/// The value, if it nests too deep for a frame.
pub(crate) fn too_deep(json: &Json) -> Result<Option<Case>, AllocError> {
    if depth(json) <= MOST_LEVELS {
        return Ok(None);
    }
    let of = json.copy()?;
    Ok(Some(Case::TooDeep(TooDeep { of })))
}
