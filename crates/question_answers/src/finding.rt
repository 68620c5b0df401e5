// Steps whose name, state, error or key has a text.
use answer_causes::parts::books::{BookCalls, Phase, StepRecord};
use answer_causes::parts::graph::record_at;
use answer_causes::parts::{
    Asked, Object, Rows, frame_after, frame_before, key_value, put_step_row,
};
use attr_values::Key;
use json_tree::{Json, write_text};
use std::alloc::AllocError;

/// The remaining steps whose name, state, error or key has a text, whatever the case of its letters, the latest first, at most so many.
pub(crate) fn found_steps<B: BookCalls>(
    asked: &Asked<'_, B>,
    text: &str,
    most: usize,
) -> Result<Json, AllocError> {
    let mut rows = Rows::new(asked.alloc);
    let more = push_found(asked, text.as_bytes(), most, &mut rows);
    let mut answer = asked.answer();
    answer.put_whether("more", more);
    answer.put_list("steps", rows);
    answer.done()
}

/// At most so many steps with a text, and whether more follow.
fn push_found<B: BookCalls>(
    asked: &Asked<'_, B>,
    text: &[u8],
    most: usize,
    rows: &mut Rows,
) -> Result<bool, AllocError> {
    let records = asked.book.history();
    let count = records.len();
    for behind in 0..count {
        let place = count - 1 - behind;
        let Some(kept) = record_at(records, place) else {
            continue;
        };
        if !has_text(asked, kept, text)? {
            continue;
        }
        if rows.len() >= most {
            return Ok(true);
        }
        rows.push(found_row(asked, kept, place));
    }
    Ok(false)
}

fn found_row<B: BookCalls>(
    asked: &Asked<'_, B>,
    kept: &StepRecord,
    place: usize,
) -> Result<Json, AllocError> {
    let mut row = Object::new(asked.alloc);
    put_step_row(asked, &mut row, kept, place);
    row.put_number("place", place);
    row.done()
}

fn has_text<B: BookCalls>(
    asked: &Asked<'_, B>,
    kept: &StepRecord,
    text: &[u8],
) -> Result<bool, AllocError> {
    if is_written(text, kept.fact.name.write_text(asked.alloc))? {
        return Ok(true);
    }
    if let Some(frame) = frame_before(kept) {
        if is_within(text, frame.state.as_str().as_bytes()) {
            return Ok(true);
        }
    }
    if let Some(frame) = frame_after(asked, &kept.fact.name)? {
        if let Phase::Failed(fault) = &frame.phase {
            if is_within(text, fault.error.as_str().as_bytes()) {
                return Ok(true);
            }
        }
    }
    match &kept.fact.access {
        Some(access) => is_written(text, key_text(asked, &access.key)),
        None => Ok(false),
    }
}

fn key_text<B: BookCalls>(asked: &Asked<'_, B>, key: &Key) -> Result<String, AllocError> {
    let value = key_value(asked, key)?;
    let text = write_text(asked.alloc, &value);
    drop(value);
    text
}

/// Whether a text that was written has another.
fn is_written(text: &[u8], written: Result<String, AllocError>) -> Result<bool, AllocError> {
    let written = written?;
    let is_there = is_within(text, written.as_bytes());
    drop(written);
    Ok(is_there)
}

/// Whether a text has another, but for the case of ASCII's letters.
fn is_within(part: &[u8], whole: &[u8]) -> bool {
    if part.len() > whole.len() {
        return false;
    }
    for from in 0..whole.len() - part.len() + 1 {
        if is_at(part, &whole[from..]) {
            return true;
        }
    }
    false
}

fn is_at(part: &[u8], rest: &[u8]) -> bool {
    let mut rest = rest.iter();
    for byte in part {
        match rest.next() {
            Some(other) if byte.to_ascii_lowercase() == other.to_ascii_lowercase() => {}
            _ => return false,
        }
    }
    true
}
