// Which text an answer has.
use crate::entries::{add_accesses, add_change, add_entry, add_place, add_writer};
use crate::executions::{add_counts, add_hold, add_rows, add_shown};
use crate::fields::{field, is_true, list_in, number_in, text_in};
use crate::frames::add_frame;
use crate::lines::Lines;
use crate::reasons::add_why;
use crate::steps::{add_cause, add_dependence, add_item, add_outcome, add_step, add_whole_step};
use json_tree::Json;
use std::alloc::{AllocError, Global};

/// The most executions that the head of a plan names.
const MOST_NAMED: usize = 20;

/// The text of the answer to a question, in lines. Takes time and memory in the answer's size.
///
/// # Errors
///
/// `AllocError` if memory is refused.
pub fn text_of(alloc: Global, question: &str, answer: &Json) -> Result<Lines, AllocError> {
    let mut lines = Lines::new(alloc);
    if is_absent(answer) {
        lines.all(&[text_in(answer, "error"), "\n"])?;
    } else {
        add_answer(&mut lines, question, answer)?;
    }
    Ok(lines)
}

/// The lines before those of a plan or a list of threads: how many steps of which executions, and what becomes of which items; or how
/// many executions are done, failed and open. Nothing before other answers.
///
/// # Errors
///
/// `AllocError` if memory is refused.
pub fn head_of(alloc: Global, question: &str, answer: &Json) -> Result<Lines, AllocError> {
    let mut lines = Lines::new(alloc);
    if !is_absent(answer) {
        match first_word(question).0 {
            "list" => add_counts(&mut lines, answer)?,
            "plan" => add_plan_head(&mut lines, answer)?,
            _ => {}
        }
    }
    Ok(lines)
}

/// Whether there is no answer, but a sentence that says why: it speaks of no lines.
fn is_absent(answer: &Json) -> bool {
    field(answer, "entries").is_none()
}

/// A text up to its first blank, and behind it.
fn first_word(text: &str) -> (&str, &str) {
    match text.split_once(' ') {
        Some(parts) => parts,
        None => (text, ""),
    }
}

fn add_answer(lines: &mut Lines, question: &str, answer: &Json) -> Result<(), AllocError> {
    let (word, rest) = first_word(question);
    match word {
        "causes" => add_causes(lines, answer)?,
        "plan" => {
            add_plan_head(lines, answer)?;
            add_planned(lines, answer)?;
        }
        "why" => add_chain(lines, answer)?,
        "item" => add_items(lines, answer)?,
        "show" => add_show(lines, answer)?,
        "explain" => add_why(lines, rest, field(answer, "why"))?,
        "list" => {
            add_counts(lines, answer)?;
            add_hold(lines, answer)?;
            add_rows(lines, answer)?;
        }
        "machine" => lines.all(&[text_in(answer, "definition"), "\n"])?,
        _ => add_many(lines, answer)?,
    }
    if is_true(answer, "more") {
        lines.add("..\n")?;
    }
    Ok(())
}

/// Rows of one kind: machines, steps, threads or accepted lines.
fn add_many(lines: &mut Lines, answer: &Json) -> Result<(), AllocError> {
    for machine in list_in(answer, "machines") {
        if let Json::Text(name) = machine {
            lines.all(&[name.as_str(), "\n"])?;
        }
    }
    for step in list_in(answer, "steps") {
        add_step(lines, step)?;
        add_outcome(lines, step)?;
        lines.add("\n")?;
    }
    for thread in list_in(answer, "threads") {
        add_place(lines, thread)?;
    }
    for gone in list_in(answer, "gone") {
        if let Json::Text(name) = gone {
            lines.all(&[name.as_str(), " is gone\n"])?;
        }
    }
    for entry in list_in(answer, "log") {
        add_entry(lines, entry)?;
    }
    Ok(())
}

// ---- causes and consequences

fn add_causes(lines: &mut Lines, answer: &Json) -> Result<(), AllocError> {
    for cause in list_in(answer, "causes") {
        add_step(lines, cause)?;
        add_cause(lines, cause)?;
        lines.add("\n")?;
    }
    Ok(())
}

fn add_plan_head(lines: &mut Lines, answer: &Json) -> Result<(), AllocError> {
    let executions = list_in(answer, "executions");
    lines.count(number_in(answer, "count"), "step")?;
    lines.add(" of ")?;
    lines.count(executions.len() as i64, "execution")?;
    lines.add(":")?;
    for (place, execution) in executions.iter().enumerate() {
        if place >= MOST_NAMED {
            break;
        }
        if let Json::Text(name) = execution {
            lines.all(&[if place == 0 { " " } else { ", " }, name.as_str()])?;
        }
    }
    if executions.len() > MOST_NAMED {
        lines.add(" and ")?;
        lines.value(&Json::Whole((executions.len() - MOST_NAMED) as i64))?;
        lines.add(" more")?;
    }
    lines.add("\n")?;
    for change in list_in(answer, "items") {
        add_change(lines, change)?;
    }
    Ok(())
}

fn add_planned(lines: &mut Lines, answer: &Json) -> Result<(), AllocError> {
    for step in list_in(answer, "steps") {
        add_step(lines, step)?;
        match text_in(step, "after") {
            "" => lines.add(": the step itself")?,
            after => add_dependence(lines, text_in(step, "reason"), after)?,
        }
        lines.add("\n")?;
    }
    Ok(())
}

fn add_chain(lines: &mut Lines, answer: &Json) -> Result<(), AllocError> {
    let mut before = "";
    for step in list_in(answer, "chain") {
        if !before.is_empty() {
            add_step(lines, step)?;
            add_dependence(lines, text_in(step, "reason"), before)?;
            lines.add("\n")?;
        }
        before = text_in(step, "step");
    }
    Ok(())
}

// ---- one step, items

fn add_show(lines: &mut Lines, answer: &Json) -> Result<(), AllocError> {
    let Some(step) = field(answer, "step") else {
        return add_shown(lines, answer);
    };
    if !matches!(step, Json::Fields(_)) {
        return add_shown(lines, answer);
    }
    add_whole_step(lines, step)?;
    if let Some(frames) = field(step, "frames") {
        add_moved(lines, text_in(step, "thread"), frames)?;
    }
    if let Some(items) = field(step, "items") {
        lines.add("  the item before: ")?;
        add_item(lines, field(items, "before"))?;
        lines.add("\n  the item after: ")?;
        add_item(lines, field(items, "after"))?;
        lines.add("\n")?;
    }
    add_neighbours(lines, step, answer)
}

/// Where a step's thread was before it, and is after it.
fn add_moved(lines: &mut Lines, thread: &str, frames: &Json) -> Result<(), AllocError> {
    if let Some(before) = field(frames, "before") {
        lines.all(&["  before: ", thread])?;
        add_frame(lines, before)?;
        lines.add("\n")?;
    }
    if let Some(after) = field(frames, "after") {
        lines.all(&["  after: ", thread])?;
        add_frame(lines, after)?;
        lines.add("\n")?;
    }
    Ok(())
}

/// The steps on which a step depends, and those that depend on it.
fn add_neighbours(lines: &mut Lines, step: &Json, answer: &Json) -> Result<(), AllocError> {
    for cause in list_in(step, "on") {
        lines.all(&[
            "  depends on ",
            text_in(cause, "step"),
            " (",
            text_in(cause, "reason"),
            ")\n",
        ])?;
    }
    if field(step, "waited").is_some() {
        lines.all(&[
            "  waited for the branches up to ",
            text_in(step, "waited"),
            "\n",
        ])?;
    }
    for later in list_in(answer, "dependents") {
        lines.all(&[
            "  ",
            text_in(later, "step"),
            " depends on it (",
            text_in(later, "reason"),
            ")\n",
        ])?;
    }
    Ok(())
}

fn add_items(lines: &mut Lines, answer: &Json) -> Result<(), AllocError> {
    if matches!(field(answer, "accesses"), Some(_)) {
        return add_accesses(lines, answer);
    }
    for row in list_in(answer, "items") {
        add_writer(lines, row)?;
    }
    Ok(())
}
