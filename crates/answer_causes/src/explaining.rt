// Why a thread failed, or why its next move would fail.
use crate::calls::key_of_call;
use crate::items::current_item;
use crate::reasons::why_value;
use answer_parts::books::{BookCalls, Fault, Frame, Outcome, Phase, Prepared, Saved, StepRecord};
use answer_parts::graph::{branch_of, closed_threads};
use answer_parts::{
    Asked, Move, Rows, closed_frame, frame_of, items_around, move_of, record_of, shared_machine_of,
};
use attr_values::Item;
use explain::{Why, explain_branch, explain_join, explain_turn, ready_turn};
use item_store::ItemStore;
use json_tree::{Json, JsonList};
use std::alloc::AllocError;
use step_names::{StepName, ThreadName};

/// Why a thread failed, or why its next move would; `null` if neither. Nothing if there is no such thread, and none that a join or a
/// terminate took away. Takes the time of one turn, of a join that of its branches, and copies of what is told.
pub fn explained<B: BookCalls>(
    asked: &Asked<'_, B>,
    thread: &ThreadName,
) -> Result<Option<Json>, AllocError> {
    let frame = match frame_of(asked.book, thread) {
        Some(frame) => frame,
        None => match closed_frame(asked, thread)? {
            Some(frame) => frame,
            None => return Ok(None),
        },
    };
    let mut answer = asked.answer();
    answer.put("why", why_of(asked, thread, frame));
    Ok(Some(answer.done()?))
}

fn why_of<B: BookCalls>(
    asked: &Asked<'_, B>,
    thread: &ThreadName,
    frame: &Frame,
) -> Result<Json, AllocError> {
    match &frame.phase {
        Phase::Done(_) => Ok(Json::Null),
        Phase::Failed(_) => of_last_step(asked, thread, frame),
        Phase::Ready => of_next_step(asked, frame),
        Phase::Parked(branches, _) => of_next_closing(asked, thread, frame, *branches),
    }
}

// ---- the step that failed

/// Why the last step of a thread failed, if that remains.
fn of_last_step<B: BookCalls>(
    asked: &Asked<'_, B>,
    thread: &ThreadName,
    frame: &Frame,
) -> Result<Json, AllocError> {
    let step = StepName {
        thread: thread.copy()?,
        no: frame.count,
    };
    let why = match record_of(asked, &step) {
        Some(kept) => why_value(asked, why_at(asked, kept), Some(&step)),
        None => Ok(Json::Null),
    };
    drop(step);
    why
}

fn why_at<B: BookCalls>(
    asked: &Asked<'_, B>,
    kept: &StepRecord,
) -> Result<Option<Why>, AllocError> {
    match &kept.saved {
        Saved::Framed(before) => turn_of(asked, before, None),
        Saved::Called { frame: before, .. } => turn_of(asked, before, met_by(asked, kept)?),
        Saved::Closed {
            frame: before,
            kids: _,
        } => closing_of(asked, kept, before),
        Saved::Started | Saved::Forked(_) => Ok(None),
    }
}

/// The item that a call met.
fn met_by<'a, B: BookCalls>(
    asked: &Asked<'a, B>,
    kept: &StepRecord,
) -> Result<Option<&'a Item>, AllocError> {
    let Some(place) = asked.book.history().find(&kept.fact.name) else {
        return Ok(None);
    };
    match items_around(asked, kept, place)? {
        Some(items) => Ok(items.before),
        None => Ok(None),
    }
}

/// Why a join or a terminate failed, by the branches that it took away.
fn closing_of<B: BookCalls>(
    asked: &Asked<'_, B>,
    kept: &StepRecord,
    before: &Frame,
) -> Result<Option<Why>, AllocError> {
    let Phase::Parked(branches, _) = &before.phase else {
        return Ok(None);
    };
    let closed = closed_threads(asked.alloc, kept)?;
    let mut frames = Vec::new(asked.alloc);
    let why = match push_closed(
        asked,
        &kept.fact.name,
        *branches,
        closed.as_slice(),
        &mut frames,
    ) {
        Ok(()) => closed_by(asked, before, frames.as_slice()),
        Err(AllocError) => Err(AllocError),
    };
    drop(frames);
    drop(closed);
    why
}

/// The frames of a fork's branches, in the order of these, among those that a step took away.
fn push_closed<'a, B: BookCalls>(
    asked: &Asked<'_, B>,
    closing: &StepName,
    branches: u32,
    closed: &[(ThreadName, &'a Frame)],
    frames: &mut Vec<&'a Frame>,
) -> Result<(), AllocError> {
    // the fork is the step before
    let fork = closing.no.saturating_sub(1);
    for index in 0..branches {
        let Some(branch) = branch_of(asked.alloc, &closing.thread, fork, index)? else {
            break;
        };
        if let Some(frame) = frame_among(closed, branch) {
            frames.push(frame)?;
        }
    }
    Ok(())
}

fn frame_among<'a>(closed: &[(ThreadName, &'a Frame)], branch: ThreadName) -> Option<&'a Frame> {
    let mut found = None;
    for (thread, frame) in closed {
        if *thread == branch {
            found = Some(*frame);
            break;
        }
    }
    drop(branch);
    found
}

// ---- the next move

/// Why the next step of a frame that is ready would fail.
fn of_next_step<B: BookCalls>(asked: &Asked<'_, B>, frame: &Frame) -> Result<Json, AllocError> {
    let Some(machine) = shared_machine_of(asked, &frame.level) else {
        return Ok(Json::Null);
    };
    let Some(prepared) = ready_turn(asked.alloc, machine, frame)? else {
        return Ok(Json::Null);
    };
    let why = match called_now(asked, &prepared) {
        Ok(item) => explain_prepared(asked, &prepared, item),
        Err(AllocError) => Err(AllocError),
    };
    drop(prepared);
    why_value(asked, why, None)
}

/// The item now of the key that a prepared turn asks for.
fn called_now<'a, B: BookCalls>(
    asked: &Asked<'a, B>,
    prepared: &Prepared,
) -> Result<Option<&'a Item>, AllocError> {
    let Outcome::Call(call) = prepared.outcome() else {
        return Ok(None);
    };
    match key_of_call(asked, call)? {
        Some(key) => {
            let item = current_item(asked, &key);
            drop(key);
            item
        }
        None => Ok(None),
    }
}

/// Why the next join or terminate of a thread over branches would fail.
fn of_next_closing<B: BookCalls>(
    asked: &Asked<'_, B>,
    thread: &ThreadName,
    frame: &Frame,
    branches: u32,
) -> Result<Json, AllocError> {
    match move_of(asked, thread)? {
        Some(Move::Join | Move::Terminate) => {}
        _ => return Ok(Json::Null),
    }
    let mut frames = Vec::new(asked.alloc);
    let why = match push_open(asked, thread, frame.count, branches, &mut frames) {
        Ok(()) => closed_by(asked, frame, frames.as_slice()),
        Err(AllocError) => Err(AllocError),
    };
    drop(frames);
    why_value(asked, why, None)
}

/// The frames that a fork's branches have now.
fn push_open<'a, B: BookCalls>(
    asked: &Asked<'a, B>,
    thread: &ThreadName,
    fork: u32,
    branches: u32,
    frames: &mut Vec<&'a Frame>,
) -> Result<(), AllocError> {
    for index in 0..branches {
        let Some(branch) = branch_of(asked.alloc, thread, fork, index)? else {
            break;
        };
        if let Some(frame) = frame_now(asked, branch) {
            frames.push(frame)?;
        }
    }
    Ok(())
}

fn frame_now<'a, B: BookCalls>(asked: &Asked<'a, B>, thread: ThreadName) -> Option<&'a Frame> {
    let frame = frame_of(asked.book, &thread);
    drop(thread);
    frame
}

// ---- turns and closings

/// Why the turn of a frame fails if its call meets this item.
fn turn_of<B: BookCalls>(
    asked: &Asked<'_, B>,
    frame: &Frame,
    item: Option<&Item>,
) -> Result<Option<Why>, AllocError> {
    let Some(machine) = shared_machine_of(asked, &frame.level) else {
        return Ok(None);
    };
    match ready_turn(asked.alloc, machine, frame)? {
        Some(prepared) => {
            let why = explain_prepared(asked, &prepared, item);
            drop(prepared);
            why
        }
        None => Ok(None),
    }
}

fn explain_prepared<B: BookCalls>(
    asked: &Asked<'_, B>,
    prepared: &Prepared,
    item: Option<&Item>,
) -> Result<Option<Why>, AllocError> {
    let Some(definition) = asked
        .index
        .definitions()
        .get(&prepared.frame().level.machine)
    else {
        return Ok(None);
    };
    let table = table_of(asked)?;
    let why = explain_turn(asked.alloc, prepared, &definition.value, &table, item);
    drop(table);
    why
}

/// The book's table without its items.
pub(crate) fn table_of<B: BookCalls>(asked: &Asked<'_, B>) -> Result<ItemStore, AllocError> {
    let (begin, _) = asked.book.entries();
    let table = begin.table.copy()?;
    let Ok(schema) = begin.schema.copy() else {
        drop(table);
        return Err(AllocError);
    };
    Ok(ItemStore::new(asked.alloc, table, schema))
}

/// Why the end of a fork with these branches fails: by the error of the first branch that failed, or by what their outputs come to.
fn closed_by<B: BookCalls>(
    asked: &Asked<'_, B>,
    frame: &Frame,
    branches: &[&Frame],
) -> Result<Option<Why>, AllocError> {
    let alloc = asked.alloc;
    let Some(machine) = shared_machine_of(asked, &frame.level) else {
        return Ok(None);
    };
    let Some(definition) = asked.index.definitions().get(&frame.level.machine) else {
        return Ok(None);
    };
    match first_failed(branches) {
        Some((index, fault)) => {
            explain_branch(alloc, machine, frame, &definition.value, index, fault)
        }
        None => {
            let outputs = outputs_of(asked, branches)?;
            explain_join(alloc, machine, frame, &definition.value, outputs)
        }
    }
}

/// The first branch that failed, by its number.
fn first_failed<'a>(branches: &[&'a Frame]) -> Option<(u32, &'a Fault)> {
    let mut index: u32 = 0;
    for branch in branches {
        if let Phase::Failed(fault) = &branch.phase {
            return Some((index, fault));
        }
        index = index.saturating_add(1);
    }
    None
}

fn outputs_of<B: BookCalls>(
    asked: &Asked<'_, B>,
    branches: &[&Frame],
) -> Result<JsonList, AllocError> {
    let mut outputs = Rows::new(asked.alloc);
    for branch in branches {
        if let Phase::Done(output) = &branch.phase {
            outputs.push(output.copy());
        }
    }
    outputs.list()
}
