// What was accepted, by the numbers of the lines.
use answer_causes::parts::books::{BookCalls, Entry};
use answer_causes::parts::graph::kind_word;
use answer_causes::parts::{Asked, Object, Page, Rows, ThreadNames};
use json_tree::{Json, Text};
use std::alloc::{AllocError, Global};
use std::cmp::Ordering;
use step_names::StepName;

/// So many accepted lines from a number on.
pub(crate) fn log_from<B: BookCalls>(
    asked: &Asked<'_, B>,
    from: usize,
    count: usize,
) -> Result<Json, AllocError> {
    let (_, entries) = asked.book.entries();
    let end = from.saturating_add(count);
    let lines = entries.len().saturating_add(1);
    let last = if end < lines { end } else { lines };
    let mut rows = Rows::new(asked.alloc);
    for line in from..last {
        rows.push(line_row(asked, line));
    }
    let mut answer = asked.answer();
    answer.put_list("log", rows);
    answer.done()
}

fn line_row<B: BookCalls>(asked: &Asked<'_, B>, line: usize) -> Result<Json, AllocError> {
    let (begin, entries) = asked.book.entries();
    let mut row = Object::new(asked.alloc);
    row.put_number("entry", line);
    match line.checked_sub(1) {
        Some(before) => {
            if let Some(entry) = entries.get(before) {
                put_entry(asked, &mut row, entry, line);
            }
        }
        None => {
            row.put_text("command", "table");
            row.put_text("table", begin.table.as_str());
        }
    }
    row.done()
}

fn put_entry<B: BookCalls>(asked: &Asked<'_, B>, row: &mut Object, entry: &Entry, line: usize) {
    match entry {
        Entry::Define { name, .. } => {
            row.put_text("command", "define");
            row.put_text("machine", name.as_str());
        }
        Entry::Start { exec, machine, .. } => {
            row.put_text("command", "start");
            row.put_text("machine", machine.as_str());
            row.put_step_of("step", exec, 0);
        }
        Entry::Step { name, kind } => {
            row.put_text("command", "step");
            row.put_text("kind", kind_word(*kind));
            row.put_step("step", name);
            put_closed(asked, row, line);
        }
        Entry::Undo { step } => {
            row.put_text("command", "undo");
            let mut undone = Rows::new(asked.alloc);
            undone.push_step(step);
            row.put_list("undone", undone);
        }
        Entry::Rollback { step, undone } => {
            row.put_text("command", "rollback");
            row.put_step("of", step);
            row.put("undone", steps_value(asked.alloc, undone.names()));
        }
        Entry::Settle => row.put_text("command", "settle"),
        Entry::Hold { step, count } => {
            row.put_text("command", "hold");
            row.put_step("of", step);
            row.put_number("held", *count);
        }
    }
}

fn steps_value(alloc: Global, steps: &[StepName]) -> Result<Json, AllocError> {
    let mut names = Rows::new(alloc);
    for step in steps {
        names.push_step(step);
    }
    names.done()
}

/// The branches that went with a join or a terminate.
fn put_closed<B: BookCalls>(asked: &Asked<'_, B>, row: &mut Object, line: usize) {
    let closed = asked.index.closed_by(line);
    if closed.is_empty() {
        return;
    }
    let mut names = ThreadNames::new(asked.alloc);
    for thread in closed {
        names.add(thread);
    }
    row.put("closed", names.done());
}

// ---- machines

/// The names of the machines, in the order of their bytes.
pub(crate) fn machines_of<B: BookCalls>(
    asked: &Asked<'_, B>,
    page: &Page<Text>,
) -> Result<Json, AllocError> {
    let mut names = Rows::new(asked.alloc);
    let more = push_machines(asked, page, &mut names);
    let mut answer = asked.answer();
    answer.put_whether("more", Ok(more));
    answer.put_list("machines", names);
    answer.done()
}

/// The names of a page, and whether more follow.
fn push_machines<B: BookCalls>(asked: &Asked<'_, B>, page: &Page<Text>, names: &mut Rows) -> bool {
    for (name, _) in asked.index.definitions().iter() {
        if is_up_to(name, &page.after) {
            continue;
        }
        if page.is_full(names.len()) {
            return true;
        }
        names.push_text(name.as_str());
    }
    false
}

/// Whether a name comes before another, or is that one.
fn is_up_to(name: &Text, after: &Option<Text>) -> bool {
    match after {
        Some(after) => !matches!(name.as_str().cmp(after.as_str()), Ordering::Greater),
        None => false,
    }
}

/// The text of a machine's definition; nothing if there is no such machine.
pub(crate) fn definition_of<B: BookCalls>(
    asked: &Asked<'_, B>,
    name: &Text,
) -> Result<Option<Json>, AllocError> {
    let Some(definition) = asked.index.definitions().get(name) else {
        return Ok(None);
    };
    let mut answer = asked.answer();
    answer.put_text("machine", name.as_str());
    answer.put_text("definition", definition.text.as_str());
    Ok(Some(answer.done()?))
}
