// What is wrong with a Task, or with the result of a state that does work.
use crate::answers::answer;
use crate::catchers::{caught_call, caught_own, in_catcher};
use crate::details::Case;
use crate::flaws::in_call;
use crate::keys::in_refusal;
use crate::results::{in_input, in_result};
use crate::why::Way;
use asl_forward::frame_turns::error_handling::ErrorHandling;
use asl_forward::frame_turns::state_parts::{Processing, Resource, Task};
use asl_forward::frame_turns::{OwnFault, TurnFault, effective_input, output_of};
use asl_forward::{Outcome, Prepared};
use attr_values::Item;
use item_store::{Action, Answer, Call, CallFault, ItemStore};
use json_tree::{Json, Text};
use std::alloc::{AllocError, Global};

/// What is wrong with a Task's turn that failed.
pub(crate) fn in_task(
    alloc: Global,
    way: &mut Way,
    fields: &Json,
    task: &Task,
    prepared: &Prepared,
    table: &ItemStore,
    item: Option<&Item>,
) -> Result<Option<Case>, AllocError> {
    let raw = &prepared.frame().raw;
    match prepared.outcome() {
        Outcome::Call(call) => in_answer(alloc, way, fields, task, raw, call, table, item),
        _ => in_asking(alloc, way, fields, task, raw),
    }
}

/// What is wrong with the table's answer.
fn in_answer(
    alloc: Global,
    way: &mut Way,
    fields: &Json,
    task: &Task,
    raw: &Json,
    call: &Call,
    table: &ItemStore,
    item: Option<&Item>,
) -> Result<Option<Case>, AllocError> {
    match answer(alloc, call, table, item)? {
        Answer::Given(made) => {
            let made = made;
            in_work(
                alloc,
                way,
                fields,
                &task.processing,
                &task.errors,
                raw,
                &made,
            )
        }
        Answer::Refused(error) => match caught_call(alloc, &task.errors, error)? {
            Some(index) => in_catcher(alloc, way, fields, index, raw),
            None => in_refusal(alloc, way, fields, table, call, item),
        },
    }
}

/// What is wrong with the result of a state's work.
pub(crate) fn in_work(
    alloc: Global,
    way: &mut Way,
    fields: &Json,
    processing: &Processing,
    errors: &ErrorHandling,
    raw: &Json,
    made: &Json,
) -> Result<Option<Case>, AllocError> {
    let Some(error) = output_error(alloc, processing, raw, made)? else {
        return Ok(None);
    };
    match caught_own(alloc, errors, error)? {
        Some(index) => in_catcher(alloc, way, fields, index, raw),
        None => in_result(alloc, way, fields, processing, raw, made),
    }
}

/// The error of the output, if it has one.
fn output_error(
    alloc: Global,
    processing: &Processing,
    raw: &Json,
    made: &Json,
) -> Result<Option<OwnFault>, AllocError> {
    match output_of(alloc, processing, raw, made.copy()?) {
        Ok(output) => {
            drop(output);
            Ok(None)
        }
        Err(TurnFault::Error(error)) => Ok(Some(error)),
        Err(TurnFault::Memory) => Err(AllocError),
    }
}

/// What is wrong with a Task that asks the table nothing.
fn in_asking(
    alloc: Global,
    way: &mut Way,
    fields: &Json,
    task: &Task,
    raw: &Json,
) -> Result<Option<Case>, AllocError> {
    match effective_input(alloc, &task.processing, raw) {
        Ok(input) => in_form(alloc, way, fields, task, raw, &input),
        Err(fault) => in_no_input(
            alloc,
            way,
            fields,
            &task.processing,
            &task.errors,
            raw,
            fault,
        ),
    }
}

/// What is wrong with the effective input of a state that has none.
pub(crate) fn in_no_input(
    alloc: Global,
    way: &mut Way,
    fields: &Json,
    processing: &Processing,
    errors: &ErrorHandling,
    raw: &Json,
    fault: TurnFault,
) -> Result<Option<Case>, AllocError> {
    let TurnFault::Error(error) = fault else {
        return Err(AllocError);
    };
    match caught_own(alloc, errors, error)? {
        Some(index) => in_catcher(alloc, way, fields, index, raw),
        None => in_input(alloc, way, fields, processing, raw),
    }
}

/// What is wrong with an effective input that is no call.
fn in_form(
    alloc: Global,
    way: &mut Way,
    fields: &Json,
    task: &Task,
    raw: &Json,
    input: &Json,
) -> Result<Option<Case>, AllocError> {
    let Some(name) = CallFault::Malformed.error_name() else {
        return Ok(None);
    };
    match caught_call(alloc, &task.errors, Text::new(alloc, name)?)? {
        Some(index) => in_catcher(alloc, way, fields, index, raw),
        None => in_call(alloc, way, fields, action_of(task.resource), input),
    }
}

fn action_of(resource: Resource) -> Action {
    match resource {
        Resource::GetItem => Action::GetItem,
        Resource::PutItem => Action::PutItem,
        Resource::DeleteItem => Action::DeleteItem,
    }
}
