// Threads: where each stands, and what its next move is.
use crate::asked::{Asked, Page};
use crate::steps::record_in;
use crate::values::{Object, Rows, ThreadNames, whole};
use asl_tree::{Level, SharedMachine, State};
use book_events::turns::{Frame, Phase, located};
use book_events::{BookCalls, Entry, Saved};
use json_tree::Json;
use question_index::{Presence, frame_of, is_waiting};
use std::alloc::AllocError;
use step_graph::branch_of;
use step_names::ThreadName;

/// What a thread does next.
#[derive(Clone, Copy, PartialEq, Eq)]
pub enum Move {
    Step,
    Join,
    Terminate,
    /// It waits for others.
    Waits,
    /// It has ended.
    Ended,
}

impl Move {
    /// Its name; none of a thread without a move.
    pub fn word(self) -> Option<&'static str> {
        match self {
            Move::Step => Some("step"),
            Move::Join => Some("join"),
            Move::Terminate => Some("terminate"),
            Move::Waits | Move::Ended => None,
        }
    }
}

// ---- questions

/// Each thread that has a move. Takes time in the number of all threads, and in the branches over which they wait.
pub fn ready_threads<B: BookCalls>(
    asked: &Asked<'_, B>,
    page: &Page<ThreadName>,
) -> Result<Json, AllocError> {
    let mut rows = Rows::new(asked.alloc);
    let more = push_ready(asked, page, &mut rows);
    let mut answer = asked.answer();
    answer.put_whether("more", more);
    answer.put_list("threads", rows);
    answer.done()
}

/// The threads of a page that have a move, and whether more follow.
fn push_ready<B: BookCalls>(
    asked: &Asked<'_, B>,
    page: &Page<ThreadName>,
    rows: &mut Rows,
) -> Result<bool, AllocError> {
    for (thread, presence) in asked.index.threads().iter() {
        if page.skips(thread) {
            continue;
        }
        let Some(next) = move_of(asked, thread)? else {
            continue;
        };
        if next.word().is_none() {
            continue;
        }
        if page.is_full(rows.len()) {
            return Ok(true);
        }
        rows.push(row_of(asked, thread, *presence, next));
    }
    Ok(false)
}

/// One thread, whatever it does; none if there is no such thread. Takes time in the branches over which it waits.
pub fn one_thread<B: BookCalls>(
    asked: &Asked<'_, B>,
    thread: &ThreadName,
) -> Result<Option<Json>, AllocError> {
    let Some(presence) = asked.index.threads().get(thread) else {
        return Ok(None);
    };
    let Some(next) = move_of(asked, thread)? else {
        return Ok(None);
    };
    let mut rows = Rows::new(asked.alloc);
    rows.push(row_of(asked, thread, *presence, next));
    let mut answer = asked.answer();
    answer.put_whether("more", Ok(false));
    answer.put_list("threads", rows);
    Ok(Some(answer.done()?))
}

/// The threads that a line after one touched, and those that are gone since. Takes time in the number of threads that these lines touched.
pub fn threads_since<B: BookCalls>(
    asked: &Asked<'_, B>,
    since: usize,
    page: &Page<ThreadName>,
) -> Result<Json, AllocError> {
    let mut here = ThreadNames::new(asked.alloc);
    let mut gone = ThreadNames::new(asked.alloc);
    let mut rows = Rows::new(asked.alloc);
    sort_touched(asked, since, &mut here, &mut gone);
    let more = push_here(asked, page, &here, &mut rows);
    let mut answer = asked.answer();
    answer.put("gone", gone.done());
    answer.put_whether("more", more);
    answer.put_list("threads", rows);
    drop(here);
    answer.done()
}

/// The threads that a line after one touched: those that are here, and those that are gone.
fn sort_touched<B: BookCalls>(
    asked: &Asked<'_, B>,
    since: usize,
    here: &mut ThreadNames,
    gone: &mut ThreadNames,
) {
    for (_, threads) in asked.index.changes().range(since.saturating_add(1)..) {
        for thread in threads {
            if asked.index.threads().contains_key(thread) {
                here.add(thread);
            } else {
                gone.add(thread);
            }
        }
    }
}

/// Of these threads those of a page, and whether more follow.
fn push_here<B: BookCalls>(
    asked: &Asked<'_, B>,
    page: &Page<ThreadName>,
    here: &ThreadNames,
    rows: &mut Rows,
) -> Result<bool, AllocError> {
    if here.is_refused() {
        return Err(AllocError);
    }
    for (thread, ()) in here.names().iter() {
        if page.skips(thread) {
            continue;
        }
        if page.is_full(rows.len()) {
            return Ok(true);
        }
        if let (Some(presence), Some(next)) = (
            asked.index.threads().get(thread),
            move_of(asked, thread)?,
        ) {
            rows.push(row_of(asked, thread, *presence, next));
        }
    }
    Ok(false)
}

// ---- a row

fn row_of<B: BookCalls>(
    asked: &Asked<'_, B>,
    thread: &ThreadName,
    presence: Presence,
    next: Move,
) -> Result<Json, AllocError> {
    let mut row = Object::new(asked.alloc);
    row.put_thread("thread", thread);
    row.put_number("entry", presence.brought);
    row.put_word("move", next.word());
    if let Some(frame) = frame_of(asked.book, thread) {
        row.put_text("machine", frame.level.machine.as_str());
        row.put_number("moves", frame.count as usize);
        put_place(asked, &mut row, frame);
        put_retries(asked, &mut row, thread, frame);
    }
    row.done()
}

/// Where a thread stands, if it hasn't ended.
fn put_place<B: BookCalls>(asked: &Asked<'_, B>, row: &mut Object, frame: &Frame) {
    if matches!(&frame.phase, Phase::Done(_) | Phase::Failed(_)) {
        row.put_null("at");
        row.put_null("state");
        row.put_null("type");
        row.put_null("input");
        return;
    }
    row.put("at", place_of(asked, frame));
    row.put_text("state", frame.state.as_str());
    row.put_word("type", type_of(asked.book, asked, frame));
    row.put("input", frame.raw.copy());
}

/// How often the retrier was used that the thread's last step used, if that step was a retry.
fn put_retries<B: BookCalls>(
    asked: &Asked<'_, B>,
    row: &mut Object,
    thread: &ThreadName,
    frame: &Frame,
) {
    match retrier_of(asked, thread, frame) {
        Ok(Some((place, times))) => {
            row.put_number("retrier", place);
            row.put_number("retries", times as usize);
        }
        Ok(None) => {
            row.put_null("retrier");
            row.put_number("retries", 0);
        }
        Err(AllocError) => row.refuse(),
    }
}

/// The retrier that a thread's last step used, if that remains and was a retry, and how often it was used at this visit.
fn retrier_of<B: BookCalls>(
    asked: &Asked<'_, B>,
    thread: &ThreadName,
    frame: &Frame,
) -> Result<Option<(usize, u32)>, AllocError> {
    if !matches!(&frame.phase, Phase::Ready) {
        return Ok(None);
    }
    let Some(kept) = record_in(asked, thread.copy()?, frame.count) else {
        return Ok(None);
    };
    match &kept.saved {
        Saved::Framed(old) | Saved::Called { frame: old, .. } | Saved::Closed { frame: old, .. } =>
            { Ok(used_between(old, frame)) }
        Saved::Started | Saved::Forked(_) => Ok(None),
    }
}

/// The retrier whose counter is one more in the later of two frames.
pub(crate) fn used_between(old: &Frame, new: &Frame) -> Option<(usize, u32)> {
    if old.state.as_str() != new.state.as_str() {
        return None;
    }
    for place in 0..usize::MAX {
        match (old.retries.get(place), new.retries.get(place)) {
            (Some(before), Some(after)) if after > before => return Some((place, after)),
            (Some(_), Some(_)) => {}
            _ => return None,
        }
    }
    None
}

// ---- where a frame stands

/// The state's type as its machine says.
pub(crate) fn type_of<B: BookCalls>(
    book: &B,
    asked: &Asked<'_, B>,
    frame: &Frame,
) -> Option<&'static str> {
    let machine = machine_of(book, asked, &frame.level)?;
    match located(machine, frame) {
        Some((_, state)) => Some(type_word(state)),
        None => None,
    }
}

fn type_word(state: &State) -> &'static str {
    match state {
        State::Pass(_) => "Pass",
        State::Task(_) => "Task",
        State::Choice(_) => "Choice",
        State::Wait(_) => "Wait",
        State::Succeed(_) => "Succeed",
        State::Fail(_) => "Fail",
        State::Parallel(_) => "Parallel",
        State::Map(_) => "Map",
    }
}

/// The machine of a level, as it was defined.
pub(crate) fn machine_of<'a, B: BookCalls>(
    book: &'a B,
    asked: &Asked<'_, B>,
    level: &Level,
) -> Option<&'a asl_tree::Machine> {
    match defined_in(book, asked, level) {
        Some(machine) => Some(machine.machine()),
        None => None,
    }
}

/// The machine of a level, as it was defined and as turns take it; none if the index has no such definition.
pub fn shared_machine_of<'a, B: BookCalls>(
    asked: &Asked<'a, B>,
    level: &Level,
) -> Option<&'a SharedMachine> {
    defined_in(asked.book, asked, level)
}

fn defined_in<'a, B: BookCalls>(
    book: &'a B,
    asked: &Asked<'_, B>,
    level: &Level,
) -> Option<&'a SharedMachine> {
    let definition = asked.index.definitions().get(&level.machine)?;
    let (_, entries) = book.entries();
    // (the table's line is no entry)
    match entries.get(definition.line.checked_sub(1)?) {
        Some(Entry::Define { machine, .. }) => Some(machine),
        _ => None,
    }
}

/// The state's place in the definition, as a list of names and indexes.
fn place_of<B: BookCalls>(asked: &Asked<'_, B>, frame: &Frame) -> Result<Json, AllocError> {
    let mut place = Rows::new(asked.alloc);
    let mut here = match asked.index.definitions().get(&frame.level.machine) {
        Some(definition) => Some(&definition.value),
        None => None,
    };
    for step in frame.level.path.as_slice() {
        place.push_text("States");
        place.push_text(step.state.as_str());
        here = push_branch(
            &mut place,
            inside(inside(here, "States"), step.state.as_str()),
            step.branch,
        );
    }
    place.push_text("States");
    place.push_text(frame.state.as_str());
    place.done()
}

/// The way from a Parallel or a Map state to the branch of this number. The value to which it leads.
fn push_branch<'a>(
    place: &mut Rows,
    state: Option<&'a serde_json::Value>,
    branch: u32,
) -> Option<&'a serde_json::Value> {
    if let Some(branches) = inside(state, "Branches") {
        place.push_text("Branches");
        place.push(Ok(whole(branch as usize)));
        return branches.get(branch as usize);
    }
    let name = if inside(state, "ItemProcessor").is_some() {
        "ItemProcessor"
    } else {
        "Iterator"
    };
    place.push_text(name);
    inside(state, name)
}

fn inside<'a>(value: Option<&'a serde_json::Value>, name: &str) -> Option<&'a serde_json::Value> {
    match value {
        Some(value) => value.get(name),
        None => None,
    }
}

// ---- moves

/// What a thread does next; nothing if it isn't there. Takes time in the number of branches over which it waits, and memory for their names.
pub fn move_of<B: BookCalls>(
    asked: &Asked<'_, B>,
    thread: &ThreadName,
) -> Result<Option<Move>, AllocError> {
    let Some(frame) = frame_of(asked.book, thread) else {
        return Ok(None);
    };
    Ok(Some(match &frame.phase {
        Phase::Done(_) | Phase::Failed(_) => Move::Ended,
        Phase::Ready if frame.count > 0 || thread.is_execution() => Move::Step,
        Phase::Ready => if is_waiting(asked.book, thread)? {
            Move::Waits
        } else {
            Move::Step
        },
        Phase::Parked(branches, _) => closing_of(asked, thread, frame, *branches)?,
    }))
}

/// Whether a thread over branches waits for them, joins them, or ends them since one failed.
fn closing_of<B: BookCalls>(
    asked: &Asked<'_, B>,
    thread: &ThreadName,
    frame: &Frame,
    branches: u32,
) -> Result<Move, AllocError> {
    if is_waiting(asked.book, thread)? {
        return Ok(Move::Waits);
    }
    if has_failed_branch(asked, thread, frame, branches)? {
        Ok(Move::Terminate)
    } else {
        Ok(Move::Join)
    }
}

/// Whether a branch has failed.
fn has_failed_branch<B: BookCalls>(
    asked: &Asked<'_, B>,
    thread: &ThreadName,
    frame: &Frame,
    branches: u32,
) -> Result<bool, AllocError> {
    for index in 0..branches {
        let Some(branch) = branch_of(asked.alloc, thread, frame.count, index)? else {
            break;
        };
        if has_failed(asked.book, branch) {
            return Ok(true);
        }
    }
    Ok(false)
}

fn has_failed<B: BookCalls>(book: &B, thread: ThreadName) -> bool {
    let has = match frame_of(book, &thread) {
        Some(frame) => matches!(&frame.phase, Phase::Failed(_)),
        None => false,
    };
    drop(thread);
    has
}
