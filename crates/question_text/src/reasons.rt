// Why a thread failed, or would fail.
use crate::fields::{field, list_in, text_in};
use crate::lines::Lines;
use json_tree::{Field, Json};
use std::alloc::AllocError;

/// One line: where, and what is wrong there.
pub(crate) fn add_why(
    lines: &mut Lines,
    thread: &str,
    why: Option<&Json>,
) -> Result<(), AllocError> {
    let Some(why) = why else {
        return lines.all(&[
            "nothing of ",
            thread,
            " fails: it is done, it waits, or its next step succeeds\n",
        ]);
    };
    add_place(lines, why)?;
    match field(why, "path") {
        Some(_) => {
            lines.all(&[": ", text_in(why, "path"), " picks nothing of "])?;
            add_value(lines, field(why, "of"))?;
        }
        None => {
            lines.add(": ")?;
            add_case(lines, text_in(why, "case"))?;
            add_details(lines, why)?;
        }
    }
    lines.all(&[" (", text_in(why, "error"), ")\n"])
}

fn add_value(lines: &mut Lines, value: Option<&Json>) -> Result<(), AllocError> {
    match value {
        Some(value) => lines.value(value),
        None => lines.add("null"),
    }
}

/// The step that failed or comes next, its state, and the place within that.
fn add_place(lines: &mut Lines, why: &Json) -> Result<(), AllocError> {
    match text_in(why, "step") {
        "" => lines.add("its next step")?,
        step => lines.all(&["in ", step])?,
    }
    lines.all(&[", state ", text_in(why, "state")])?;
    let mut is_first = true;
    for part in list_in(why, "place") {
        add_part(lines, part, is_first)?;
        is_first = false;
    }
    Ok(())
}

/// A name or an index of a place.
fn add_part(lines: &mut Lines, part: &Json, is_first: bool) -> Result<(), AllocError> {
    match part {
        Json::Text(name) => lines.all(&[if is_first { ", " } else { "." }, name.as_str()]),
        index => {
            lines.add("[")?;
            lines.value(index)?;
            lines.add("]")
        }
    }
}

/// The name of a case in words.
fn add_case(lines: &mut Lines, case: &str) -> Result<(), AllocError> {
    let mut is_first = true;
    for word in case.split('_') {
        if !is_first {
            lines.add(" ")?;
        }
        is_first = false;
        lines.add(word)?;
    }
    Ok(())
}

/// What else a case has, each with its name.
fn add_details(lines: &mut Lines, why: &Json) -> Result<(), AllocError> {
    let Json::Fields(fields) = why else {
        return Ok(());
    };
    for detail in fields.as_slice() {
        add_detail(lines, detail)?;
    }
    Ok(())
}

fn add_detail(lines: &mut Lines, detail: &Field) -> Result<(), AllocError> {
    let is_known = matches!(
        detail.name.as_str(),
        "case" | "state" | "error" | "cause" | "step" | "place" | "path"
    );
    if is_known || matches!(detail.value, Json::Null) {
        return Ok(());
    }
    lines.all(&[", ", detail.name.as_str(), " "])?;
    lines.value(&detail.value)
}
