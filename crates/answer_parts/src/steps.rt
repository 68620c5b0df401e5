// Steps: what each was, what it was given and what it handed on.
use crate::asked::Asked;
use crate::near::near_of;
use crate::threads::{machine_of, type_of, used_between};
use crate::values::{Object, Rows, written_value};
use asl_states::{Resource, Transition};
use asl_tree::State;
use attr_values::{Item, Key, KeyPart, write_item};
use book_events::turns::{Frame, Phase, located};
use book_events::{Access, BookCalls, Fact, Saved, StepRecord};
use item_store::AccessMode;
use json_tree::Json;
use question_index::frame_of;
use std::alloc::{AllocError, Global};
use step_graph::{
    Reason, awaited_branch, branch_of, kind_word, reason_word, record_at, thread_above,
};
use step_names::{StepName, ThreadName};

/// The record of a step that remains; none of another step.
pub fn record_of<'a, B: BookCalls>(
    asked: &Asked<'a, B>,
    step: &StepName,
) -> Option<&'a StepRecord> {
    let records = asked.book.history();
    record_at(records, records.find(step)?)
}

/// The place of a thread's step of this number, if it remains.
pub(crate) fn place_of_step<B: BookCalls>(
    asked: &Asked<'_, B>,
    thread: ThreadName,
    no: u32,
) -> Option<usize> {
    let step = StepName { thread, no };
    let place = asked.book.history().find(&step);
    drop(step);
    place
}

/// The record of a thread's step of this number, if it remains.
pub fn record_in<'a, B: BookCalls>(
    asked: &Asked<'a, B>,
    thread: ThreadName,
    no: u32,
) -> Option<&'a StepRecord> {
    record_at(asked.book.history(), place_of_step(asked, thread, no)?)
}

// ---- frames

/// The frame that a step's thread had before it; none before a start.
pub fn frame_before(kept: &StepRecord) -> Option<&Frame> {
    match &kept.saved {
        Saved::Started => None,
        Saved::Framed(frame)
        | Saved::Forked(frame)
        | Saved::Called { frame, .. }
        | Saved::Closed { frame, .. } => Some(frame),
    }
}

/// The frame that a step's thread had after it: what its next step began with, or what it has now, or had when its branch went. Takes
/// memory for the name, and what [`closed_frame`] takes.
pub fn frame_after<'a, B: BookCalls>(
    asked: &Asked<'a, B>,
    step: &StepName,
) -> Result<Option<&'a Frame>, AllocError> {
    if let Some(kept) = record_in(asked, step.thread.copy()?, step.no.saturating_add(1)) {
        return Ok(frame_before(kept));
    }
    if let Some(frame) = frame_of(asked.book, &step.thread) {
        return Ok(Some(frame));
    }
    closed_frame(asked, &step.thread)
}

/// The frame that a branch had when a join or a terminate took it away. Takes a name for each fork above it, and time in their number.
pub fn closed_frame<'a, B: BookCalls>(
    asked: &Asked<'a, B>,
    thread: &ThreadName,
) -> Result<Option<&'a Frame>, AllocError> {
    for depth in 0..thread.path().len() {
        let Some((fork, _)) = thread.path().get(depth) else {
            return Ok(None);
        };
        let over = thread_above(asked.alloc, thread, depth)?;
        let Some(kept) = record_in(asked, over, fork.saturating_add(1)) else {
            continue;
        };
        if let Some(frame) = branch_closed_by(kept, thread.path(), depth) {
            return Ok(Some(frame));
        }
    }
    Ok(None)
}

/// The frame of the branch that a path leads to from a thread of so many branches, among those that the thread's step took away.
fn branch_closed_by<'a>(
    kept: &'a StepRecord,
    path: &[(u32, u32)],
    depth: usize,
) -> Option<&'a Frame> {
    let Saved::Closed { frame: _, kids } = &kept.saved else {
        return None;
    };
    let mut branches = kids.as_slice();
    // the fork is the step before
    let mut fork = kept.fact.name.no.saturating_sub(1);
    let mut found = None;
    for (number, index) in path.iter().skip(depth) {
        if *number != fork {
            return None;
        }
        let Some(branch) = branches.get(*index as usize) else {
            return None;
        };
        fork = branch.frame().count;
        branches = branch.branches();
        found = Some(branch.frame());
    }
    found
}

/// A frame: its state, what it was given, and how it ended; `null` of none. Takes copies of its JSON.
pub fn frame_value(alloc: Global, frame: Option<&Frame>) -> Result<Json, AllocError> {
    let Some(frame) = frame else {
        return Ok(Json::Null);
    };
    let mut value = Object::new(alloc);
    value.put_number("moves", frame.count as usize);
    value.put_text("state", frame.state.as_str());
    value.put("input", frame.raw.copy());
    match &frame.phase {
        Phase::Ready => value.put_text("phase", "ready"),
        Phase::Parked(branches, _) => {
            value.put_text("phase", "parked");
            value.put_number("branches", *branches as usize);
        }
        Phase::Done(output) => {
            value.put_text("phase", "done");
            value.put("output", output.copy());
        }
        Phase::Failed(fault) => {
            value.put_text("phase", "failed");
            value.put_text("error", fault.error.as_str());
            value.put_text("cause", fault.cause.as_str());
        }
    }
    value.done()
}

// ---- keys and items

/// A key: an object of its attributes, by the names that the table's schema has.
pub fn key_value<B: BookCalls>(asked: &Asked<'_, B>, key: &Key) -> Result<Json, AllocError> {
    let (begin, _) = asked.book.entries();
    let mut value = Object::new(asked.alloc);
    value.put(
        begin.schema.partition.name.as_str(),
        part_value(asked.alloc, &key.partition),
    );
    if let (Some(attribute), Some(part)) = (&begin.schema.sort, &key.sort) {
        value.put(attribute.name.as_str(), part_value(asked.alloc, part));
    }
    value.done()
}

fn part_value(alloc: Global, part: &KeyPart) -> Result<Json, AllocError> {
    let mut value = Object::new(alloc);
    match part {
        KeyPart::S(text) => value.put_text("S", text.as_str()),
        KeyPart::N(number) => value.put("N", written_value(number.write_text(alloc))),
    }
    value.done()
}

/// An item, or `null`, in one step: an item shares the JSON that it keeps. Takes no memory.
pub fn item_value(item: Option<&Item>) -> Result<Json, AllocError> {
    match item {
        Some(item) => write_item(item),
        None => Ok(Json::Null),
    }
}

/// The item of a key before and after a step that accessed it, as its accesses say.
#[derive(Clone, Copy)]
pub struct Around<'a> {
    pub before: Option<&'a Item>,
    pub after: Option<&'a Item>,
}

/// The item before and after the access at a place, of all accesses of its key in order; nothing if there is no such place.
fn items_at<'a, B: BookCalls>(
    asked: &Asked<'a, B>,
    place: usize,
    accesses: &[usize],
) -> Option<Around<'a>> {
    let kept = record_at(asked.book.history(), place)?;
    let after = replaced_next(asked, place, accesses);
    let before = before_access(kept, after);
    Some(Around { before, after })
}

/// The item before and after the step at a place, if it is a call. Takes memory for the places of its key's accesses, and time in their
/// number.
pub fn items_around<'a, B: BookCalls>(
    asked: &Asked<'a, B>,
    kept: &StepRecord,
    place: usize,
) -> Result<Option<Around<'a>>, AllocError> {
    let Some(access) = &kept.fact.access else {
        return Ok(None);
    };
    let accesses = asked.book.history().accesses(asked.alloc, &access.key)?;
    let around = items_at(asked, place, accesses.as_slice());
    drop(accesses);
    Ok(around)
}

/// The item before an access, if it is this one after it: what a write replaced, and the same for a read.
pub fn before_access<'a>(kept: &'a StepRecord, after: Option<&'a Item>) -> Option<&'a Item> {
    match (&kept.fact.access, &kept.saved) {
        (Some(access), Saved::Called { old, .. }) => match access.mode {
            AccessMode::Write => old.as_ref(),
            AccessMode::Read => after,
        },
        _ => after,
    }
}

/// What the next write of the key replaced; if there is none, the item now.
fn replaced_next<'a, B: BookCalls>(
    asked: &Asked<'a, B>,
    place: usize,
    accesses: &[usize],
) -> Option<&'a Item> {
    let records = asked.book.history();
    for later in accesses {
        if *later <= place {
            continue;
        }
        let Some(kept) = record_at(records, *later) else {
            continue;
        };
        if let (Some(access), Saved::Called { old, .. }) = (&kept.fact.access, &kept.saved) {
            if matches!(access.mode, AccessMode::Write) {
                return old.as_ref();
            }
        }
    }
    match record_at(records, place) {
        Some(kept) => item_now(asked, kept),
        None => None,
    }
}

/// The item now of the key that a step accessed; none of a step that is no call, too. Takes no search.
pub fn item_now<'a, B: BookCalls>(asked: &Asked<'a, B>, kept: &StepRecord) -> Option<&'a Item> {
    match &kept.saved {
        Saved::Called { slot, .. } => asked.book.item_in(*slot),
        _ => None,
    }
}

/// How a step accessed a key: it read it, wrote it, or found that its condition doesn't hold.
pub fn access_word<B: BookCalls>(
    asked: &Asked<'_, B>,
    kept: &StepRecord,
    access: &Access,
) -> &'static str {
    match access.mode {
        AccessMode::Write => "write",
        AccessMode::Read => if is_get(asked, kept) {
            "read"
        } else {
            "refused"
        },
    }
}

/// Whether a step's state reads an item.
fn is_get<B: BookCalls>(asked: &Asked<'_, B>, kept: &StepRecord) -> bool {
    let Some(frame) = frame_before(kept) else {
        return false;
    };
    let Some(machine) = machine_of(asked.book, asked, &frame.level) else {
        return true;
    };
    match located(machine, frame) {
        Some((_, State::Task(task))) => { matches!(task.resource, Resource::GetItem) }
        _ => true,
    }
}

// ---- a step's row

/// A step's name, thread, kind, state with its type, key with the kind of its access, for which branch it waited, and the nearest steps on which
/// it depends. Takes what [`near_of`] takes.
pub fn put_step_row<B: BookCalls>(
    asked: &Asked<'_, B>,
    row: &mut Object,
    kept: &StepRecord,
    place: usize,
) {
    row.put_step("step", &kept.fact.name);
    row.put_thread("thread", &kept.fact.name.thread);
    row.put_text("kind", kind_word(kept.fact.kind));
    match frame_before(kept) {
        Some(frame) => {
            row.put_text("state", frame.state.as_str());
            row.put_word("type", type_of(asked.book, asked, frame));
        }
        None => {
            row.put_null("state");
            row.put_null("type");
        }
    }
    match &kept.fact.access {
        Some(access) => {
            row.put_text("access", access_word(asked, kept, access));
            row.put("key", key_value(asked, &access.key));
        }
        None => {
            row.put_null("access");
            row.put_null("key");
        }
    }
    put_waited(asked.alloc, row, &kept.fact);
    put_on(asked, row, place);
}

/// Of a first move that waited under its Map's bound, the last branch for which it waited. It waited for those before it, too.
fn put_waited(alloc: Global, row: &mut Object, fact: &Fact) {
    match waited_branch(alloc, fact) {
        Ok(Some(thread)) => {
            row.put_thread("waited", &thread);
            drop(thread);
        }
        Ok(None) => {}
        Err(AllocError) => row.refuse(),
    }
}

fn waited_branch(alloc: Global, fact: &Fact) -> Result<Option<ThreadName>, AllocError> {
    let Some((fork, branch)) = awaited_branch(fact) else {
        return Ok(None);
    };
    let depth = fact.name.thread.path().len().saturating_sub(1);
    let over = thread_above(alloc, &fact.name.thread, depth)?;
    let waited = branch_of(alloc, &over, fork, branch);
    drop(over);
    waited
}

/// The steps on which the one at a place depends in a picture, each with its reason.
fn put_on<B: BookCalls>(asked: &Asked<'_, B>, row: &mut Object, place: usize) {
    match near_of(asked, place) {
        Ok(near) => {
            row.put("on", near_rows(asked, near.as_slice()));
            drop(near);
        }
        Err(AllocError) => row.refuse(),
    }
}

fn near_rows<B: BookCalls>(
    asked: &Asked<'_, B>,
    near: &[(usize, Reason)],
) -> Result<Json, AllocError> {
    let mut on = Rows::new(asked.alloc);
    for (earlier, reason) in near {
        if let Some(kept) = record_at(asked.book.history(), *earlier) {
            on.push(reason_row(asked.alloc, &kept.fact.name, *reason));
        }
    }
    on.done()
}

/// A step, and why another depends on it, or it on another.
pub fn reason_row(alloc: Global, step: &StepName, reason: Reason) -> Result<Json, AllocError> {
    let mut row = Object::new(alloc);
    row.put_step("step", step);
    row.put_text("reason", reason_word(reason));
    row.done()
}

/// What a step went on to, by its thread's frames before and after it: a state, the same one again, the end, or branches; `null` if there is
/// none after it.
pub fn outcome_of<B: BookCalls>(
    asked: &Asked<'_, B>,
    before: Option<&Frame>,
    after: Option<&Frame>,
) -> Result<Json, AllocError> {
    let Some(after) = after else {
        return Ok(Json::Null);
    };
    let mut outcome = Object::new(asked.alloc);
    match &after.phase {
        Phase::Done(_) => outcome.put_text("to", "done"),
        Phase::Failed(fault) => {
            outcome.put_text("to", "failed");
            outcome.put_text("error", fault.error.as_str());
        }
        Phase::Parked(branches, _) => {
            outcome.put_text("to", "forked");
            outcome.put_number("branches", *branches as usize);
        }
        Phase::Ready => put_next(asked, &mut outcome, before, after),
    }
    outcome.done()
}

/// The state to which a step went on, unless it was a retry.
fn put_next<B: BookCalls>(
    asked: &Asked<'_, B>,
    outcome: &mut Object,
    before: Option<&Frame>,
    after: &Frame,
) {
    match before {
        Some(before) if used_between(before, after).is_some() => {
            outcome.put_text("to", "retry");
            return;
        }
        Some(before) if is_caught(asked, before, after) => outcome.put_text("to", "caught"),
        _ => outcome.put_text("to", "next"),
    }
    outcome.put_text("state", after.state.as_str());
}

/// Whether a catcher led from one state to another: the first one's own transition leads elsewhere.
fn is_caught<B: BookCalls>(asked: &Asked<'_, B>, before: &Frame, after: &Frame) -> bool {
    let Some(machine) = machine_of(asked.book, asked, &before.level) else {
        return false;
    };
    let Some((_, state)) = located(machine, before) else {
        return false;
    };
    let transition = match state {
        State::Task(task) => &task.transition,
        State::Parallel(parallel) => &parallel.transition,
        State::Map(map) => &map.transition,
        _ => return false,
    };
    match transition {
        Transition::Next(name) => name.as_str() != after.state.as_str(),
        Transition::End => true,
    }
}
