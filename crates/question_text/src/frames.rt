// Threads: where each is.
use crate::fields::{field, is_true, list_in, number_in, text_in};
use crate::lines::Lines;
use crate::steps::{add_branches, add_whole_step};
use json_tree::Json;
use std::alloc::AllocError;

/// A thread in a line, and each of its steps in one.
pub(crate) fn add_thread(lines: &mut Lines, thread: &Json) -> Result<(), AllocError> {
    lines.add(text_in(thread, "thread"))?;
    if let Some(frame) = field(thread, "frame") {
        add_frame(lines, frame)?;
    }
    if is_true(thread, "closed") {
        lines.add(" (closed)")?;
    }
    lines.add("\n")?;
    for step in list_in(thread, "steps") {
        add_whole_step(lines, step)?;
    }
    Ok(())
}

/// Where a thread is, behind its name.
pub(crate) fn add_frame(lines: &mut Lines, frame: &Json) -> Result<(), AllocError> {
    match text_in(frame, "phase") {
        "done" => {
            lines.add(" is done, with the output ")?;
            match field(frame, "output") {
                Some(output) => lines.value(output),
                None => lines.add("null"),
            }
        }
        "failed" => add_failure(lines, frame),
        "parked" => {
            lines.all(&[" waits in the state ", text_in(frame, "state"), " for its "])?;
            add_branches(lines, number_in(frame, "branches"))
        }
        _ => lines.all(&[" is before the state ", text_in(frame, "state")]),
    }
}

/// That something failed, with its error and, if there is one, its cause.
pub(crate) fn add_failure(lines: &mut Lines, of: &Json) -> Result<(), AllocError> {
    lines.all(&[" has failed with ", text_in(of, "error")])?;
    match text_in(of, "cause") {
        "" => Ok(()),
        cause => lines.all(&[": ", cause]),
    }
}
