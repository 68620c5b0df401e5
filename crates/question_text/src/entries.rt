// Accepted lines, threads by what moved, and items.
use crate::fields::{field, list_in, number_in, text_in};
use crate::lines::Lines;
use crate::steps::{add_item, add_key};
use json_tree::Json;
use std::alloc::AllocError;

/// An accepted line by its number.
pub(crate) fn add_entry(lines: &mut Lines, entry: &Json) -> Result<(), AllocError> {
    lines.value(&Json::Whole(number_in(entry, "entry")))?;
    for name in ["command", "table", "machine", "step", "of", "kind"].as_slice() {
        match text_in(entry, name) {
            "" => {}
            text => lines.all(&[" ", text])?,
        }
    }
    add_names(lines, ": took back", list_in(entry, "undone"))?;
    add_names(lines, ": took out", list_in(entry, "closed"))?;
    lines.add("\n")
}

/// Some names behind a word; nothing if there are none.
pub(crate) fn add_names(lines: &mut Lines, word: &str, names: &[Json]) -> Result<(), AllocError> {
    if names.is_empty() {
        return Ok(());
    }
    lines.add(word)?;
    for name in names {
        if let Json::Text(text) = name {
            lines.all(&[" ", text.as_str()])?;
        }
    }
    Ok(())
}

/// A thread, where it is and what it does next.
pub(crate) fn add_place(lines: &mut Lines, row: &Json) -> Result<(), AllocError> {
    lines.all(&[text_in(row, "thread"), " of ", text_in(row, "machine")])?;
    match text_in(row, "state") {
        "" => lines.add(" has ended")?,
        state => lines.all(&[" is before the state ", state])?,
    }
    match text_in(row, "move") {
        "" => {}
        next => lines.all(&["; next: ", next])?,
    }
    lines.add("\n")
}

// ---- items

/// An item with the step that wrote it last.
pub(crate) fn add_writer(lines: &mut Lines, row: &Json) -> Result<(), AllocError> {
    add_item(lines, field(row, "item"))?;
    match text_in(row, "writer") {
        "" => lines.add("\n"),
        writer => lines.all(&[" written by ", writer, "\n"]),
    }
}

/// Each access of an item, and the item now.
pub(crate) fn add_accesses(lines: &mut Lines, answer: &Json) -> Result<(), AllocError> {
    for access in list_in(answer, "accesses") {
        lines.add(text_in(access, "step"))?;
        match text_in(access, "access") {
            "write" => {
                lines.add(" writes ")?;
                add_item(lines, field(access, "after"))?;
                lines.add(" over ")?;
            }
            "read" => lines.add(" reads ")?,
            _ => lines.add(" is refused by its condition on ")?,
        }
        add_item(lines, field(access, "before"))?;
        lines.add("\n")?;
    }
    lines.add("now: ")?;
    add_item(lines, field(answer, "now"))?;
    lines.add("\n")
}

/// What becomes of an item if a plan is done.
pub(crate) fn add_change(lines: &mut Lines, change: &Json) -> Result<(), AllocError> {
    lines.add("item ")?;
    if let Some(key) = field(change, "key") {
        add_key(lines, key)?;
    }
    lines.add(": ")?;
    add_item(lines, field(change, "now"))?;
    lines.add(" becomes ")?;
    add_item(lines, field(change, "then"))?;
    lines.add("\n")
}
