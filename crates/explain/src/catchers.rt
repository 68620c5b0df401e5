// What is wrong where a catcher takes an error up.
use crate::details::Case;
use crate::results::no_place;
use crate::why::{Way, field};
use asl_forward::call_fault;
use asl_forward::frame_turns::error_handling::{ErrorHandling, ErrorNames};
use asl_forward::frame_turns::{Fault, Origin, OwnFault, own_fault};
use json_tree::{Json, Text};
use std::alloc::{AllocError, Global};

/// The place of the first catcher that stands for an error.
pub(crate) fn caught_by(errors: &ErrorHandling, fault: &Fault) -> Option<usize> {
    for (index, catcher) in errors.catchers.as_slice().iter().enumerate() {
        if stand_for(&catcher.errors, fault) {
            return Some(index);
        }
    }
    None
}

/// The same of an error that the state met by itself.
pub(crate) fn caught_own(
    alloc: Global,
    errors: &ErrorHandling,
    error: OwnFault,
) -> Result<Option<usize>, AllocError> {
    let fault = own_fault(alloc, error)?;
    Ok(caught_by(errors, &fault))
}

/// The same of an error that the table answered.
pub(crate) fn caught_call(
    alloc: Global,
    errors: &ErrorHandling,
    error: Text,
) -> Result<Option<usize>, AllocError> {
    let fault = call_fault(alloc, error)?;
    Ok(caught_by(errors, &fault))
}

/// Whether one of the names stands for this error.
fn stand_for(names: &ErrorNames, fault: &Fault) -> bool {
    if fault.error.as_str() == "States.Runtime" {
        return false;
    }
    for name in names.as_slice() {
        if means(name.as_str(), fault) {
            return true;
        }
    }
    false
}

fn means(name: &str, fault: &Fault) -> bool {
    if name == "States.ALL" {
        return true;
    }
    if name == "States.TaskFailed" {
        return matches!(fault.origin, Origin::Call);
    }
    if name == "States.BranchFailed" && matches!(fault.origin, Origin::Branch) {
        return true;
    }
    name == fault.error.as_str()
}

/// The path of a catcher by which its error can't be placed.
pub(crate) fn in_catcher(
    alloc: Global,
    way: &mut Way,
    fields: &Json,
    index: usize,
    raw: &Json,
) -> Result<Option<Case>, AllocError> {
    let Some(Json::List(catchers)) = field(fields, "Catch") else {
        return Ok(None);
    };
    let Some(catcher) = catchers.get(index) else {
        return Ok(None);
    };
    way.enter(alloc, "Catch")?;
    way.enter_item(index)?;
    no_place(alloc, way, catcher, raw)
}
