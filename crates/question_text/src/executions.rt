// Executions: how many are done, failed and open, and which.
use crate::fields::{field, list_in, number_in, text_in};
use crate::frames::add_thread;
use crate::lines::Lines;
use json_tree::{Field, Json};
use std::alloc::AllocError;

/// How many executions are done, failed and open: of all, and of each machine.
pub(crate) fn add_counts(lines: &mut Lines, answer: &Json) -> Result<(), AllocError> {
    if let Some(counts) = field(answer, "counts") {
        lines.add("executions")?;
        add_count(lines, counts)?;
    }
    if let Some(Json::Fields(machines)) = field(answer, "machines") {
        for machine in machines.as_slice() {
            add_machine(lines, machine)?;
        }
    }
    Ok(())
}

fn add_machine(lines: &mut Lines, machine: &Field) -> Result<(), AllocError> {
    lines.all(&["machine ", machine.name.as_str()])?;
    add_count(lines, &machine.value)
}

fn add_count(lines: &mut Lines, counts: &Json) -> Result<(), AllocError> {
    lines.add(": ")?;
    lines.value(&Json::Whole(number_in(counts, "done")))?;
    lines.add(" done, ")?;
    lines.value(&Json::Whole(number_in(counts, "failed")))?;
    lines.add(" failed, ")?;
    lines.value(&Json::Whole(number_in(counts, "open")))?;
    lines.add(" open\n")
}

/// A line for each execution of a list, and for each that is gone.
pub(crate) fn add_rows(lines: &mut Lines, answer: &Json) -> Result<(), AllocError> {
    for row in list_in(answer, "executions") {
        add_row(lines, row)?;
    }
    for gone in list_in(answer, "gone") {
        if let Json::Text(name) = gone {
            lines.all(&[name.as_str(), " is gone\n"])?;
        }
    }
    Ok(())
}

fn add_row(lines: &mut Lines, row: &Json) -> Result<(), AllocError> {
    lines.all(&[
        text_in(row, "execution"),
        " of ",
        text_in(row, "machine"),
        ": ",
        text_in(row, "status"),
    ])?;
    match (text_in(row, "state"), text_in(row, "error")) {
        ("", _) => {}
        (state, "") => lines.all(&[", before ", state])?,
        (state, error) => lines.all(&[" in ", state, " with ", error])?,
    }
    lines.add(", ")?;
    lines.count(number_in(row, "steps"), "step")?;
    lines.add("\n")
}

/// What is held, and how much of it is left.
pub(crate) fn add_hold(lines: &mut Lines, answer: &Json) -> Result<(), AllocError> {
    let Some(held) = field(answer, "held") else {
        return Ok(());
    };
    lines.all(&["held: ", text_in(held, "step"), "; left: "])?;
    lines.value(&Json::Whole(number_in(held, "left")))?;
    lines.add("\n")
}

/// An execution with its threads, or a thread.
pub(crate) fn add_shown(lines: &mut Lines, answer: &Json) -> Result<(), AllocError> {
    if field(answer, "execution").is_some() {
        lines.all(&[
            text_in(answer, "execution"),
            " of the machine ",
            text_in(answer, "machine"),
            ", with the input ",
        ])?;
        match field(answer, "input") {
            Some(input) => lines.value(input)?,
            None => lines.add("null")?,
        }
        lines.add("\n")?;
        add_waiting(lines, answer)?;
    }
    for thread in list_in(answer, "threads") {
        add_thread(lines, thread)?;
    }
    Ok(())
}

/// The branches for which an execution waits, if it does; and the held step that keeps its next move back.
fn add_waiting(lines: &mut Lines, answer: &Json) -> Result<(), AllocError> {
    let branches = list_in(answer, "waits_for");
    for (place, branch) in branches.iter().enumerate() {
        if let Json::Text(name) = branch {
            lines.all(&[if place == 0 { "waits for " } else { ", " }, name.as_str()])?;
        }
    }
    if !branches.is_empty() {
        lines.add("\n")?;
    }
    match text_in(answer, "held") {
        "" => Ok(()),
        held => lines.all(&["its next move depends on ", held, ", which is held\n"]),
    }
}
