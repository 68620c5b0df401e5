// Steps: what each did, why it is among others, and what it went on to.
use crate::fields::{field, number_in, text_in};
use crate::lines::Lines;
use json_tree::{Json, JsonFields};
use std::alloc::AllocError;

/// A key: the plain text of a key of one text, else its attributes.
pub(crate) fn add_key(lines: &mut Lines, key: &Json) -> Result<(), AllocError> {
    match plain_key(key) {
        Some(text) => lines.add(text),
        None => lines.value(key),
    }
}

fn plain_key(key: &Json) -> Option<&str> {
    match key {
        Json::Fields(attributes) => plain_attribute(attributes),
        _ => None,
    }
}

fn plain_attribute(attributes: &JsonFields) -> Option<&str> {
    match attributes.as_slice() {
        [one] => match field(&one.value, "S") {
            Some(Json::Text(text)) if is_plain(text.as_str()) => Some(text.as_str()),
            _ => None,
        },
        _ => None,
    }
}

/// Whether a text has no control characters and no blanks, so that it can be read in a sentence.
fn is_plain(text: &str) -> bool {
    for byte in text.as_bytes() {
        if *byte <= b' ' || *byte == 127 {
            return false;
        }
    }
    !text.is_empty()
}

/// A step: its name, its state, and what it did to an item.
pub(crate) fn add_step(lines: &mut Lines, step: &Json) -> Result<(), AllocError> {
    lines.add(text_in(step, "step"))?;
    if field(step, "state").is_some() {
        lines.all(&[" ", text_in(step, "state")])?;
    }
    add_access(lines, step)
}

/// The same with the state's type and the step's kind, and what it went on to, in a line.
pub(crate) fn add_whole_step(lines: &mut Lines, step: &Json) -> Result<(), AllocError> {
    lines.add(text_in(step, "step"))?;
    if field(step, "state").is_some() {
        lines.all(&[" ", text_in(step, "state"), " ", text_in(step, "type")])?;
    }
    lines.all(&[" ", text_in(step, "kind")])?;
    add_access(lines, step)?;
    add_outcome(lines, step)?;
    lines.add("\n")
}

fn add_access(lines: &mut Lines, step: &Json) -> Result<(), AllocError> {
    let Some(key) = field(step, "key") else {
        return Ok(());
    };
    lines.add(does_words(text_in(step, "access")))?;
    add_key(lines, key)
}

fn does_words(access: &str) -> &'static str {
    match access {
        "write" => " writes ",
        "refused" => " is refused by its condition on ",
        _ => " reads ",
    }
}

/// Why a step is among the causes: what it is to the step for which it was needed.
pub(crate) fn add_cause(lines: &mut Lines, cause: &Json) -> Result<(), AllocError> {
    let of = text_in(cause, "needed_for");
    match text_in(cause, "reason") {
        "thread" => lines.all(&[": before ", of, " in its thread"]),
        "start" => lines.all(&[": the start of the execution of ", of]),
        "fork" => lines.all(&[": the fork of the branch of ", of]),
        "join" => lines.all(&[": of a branch that ", of, " takes out"]),
        "bound" => lines.all(&[": of a branch for which ", of, " waited"]),
        _ => lines.all(&[": an item that ", of, " accesses"]),
    }
}

/// Why a step is in a plan or a chain: how it depends on the earlier one of this name.
pub(crate) fn add_dependence(lines: &mut Lines, reason: &str, on: &str) -> Result<(), AllocError> {
    match reason {
        "thread" => lines.all(&[": follows ", on]),
        "start" => lines.all(&[": in the execution started by ", on]),
        "fork" => lines.all(&[": in a branch forked by ", on]),
        "join" => lines.all(&[": takes out the branch of ", on]),
        "bound" => lines.all(&[": waited for the branch of ", on]),
        _ => lines.all(&[": after ", on, ", which accessed the item"]),
    }
}

/// What a step went on to.
pub(crate) fn add_outcome(lines: &mut Lines, step: &Json) -> Result<(), AllocError> {
    let Some(outcome) = field(step, "outcome") else {
        return Ok(());
    };
    lines.add(" -> ")?;
    match text_in(outcome, "to") {
        "next" => lines.add(text_in(outcome, "state")),
        "caught" => lines.all(&["caught, ", text_in(outcome, "state")]),
        "failed" => lines.all(&["failed with ", text_in(outcome, "error")]),
        "forked" => add_branches(lines, number_in(outcome, "branches")),
        other => lines.add(other),
    }
}

pub(crate) fn add_branches(lines: &mut Lines, count: i64) -> Result<(), AllocError> {
    lines.value(&Json::Whole(count))?;
    lines.add(if count == 1 { " branch" } else { " branches" })
}

/// An item, or that there is none.
pub(crate) fn add_item(lines: &mut Lines, item: Option<&Json>) -> Result<(), AllocError> {
    match item {
        Some(item) => lines.value(item),
        None => lines.add("none"),
    }
}
