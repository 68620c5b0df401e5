// Calls of the table: what each was given and what it answered; and which held step keeps a next move back.
use crate::explaining::table_of;
use crate::items::current_item;
use answer_parts::books::{Access, BookCalls, Fact, Frame, Kind, Outcome, StepRecord, located};
use answer_parts::graph::{depends, record_at};
use answer_parts::{
    Asked, Move, Object, frame_before, frame_of, items_around, move_of, shared_machine_of,
    step_value,
};
use asl_processing::{TurnFault, effective_input};
use asl_tree::State;
use attr_values::{Item, Key};
use explain::ready_turn;
use item_store::{AccessMode, Answer, Call, Decided, decide};
use json_tree::Json;
use std::alloc::{AllocError, Global};
use step_names::{StepName, ThreadName};

/// Adds what a call was given, and its answer or its error; `null` of another step. Takes the time of one turn, and time in the number of the
/// key's accesses.
pub fn put_call<B: BookCalls>(
    asked: &Asked<'_, B>,
    row: &mut Object,
    kept: &StepRecord,
    place: usize,
) {
    if kept.fact.access.is_none() {
        row.put_null("call");
        put_answer(row, Ok(None));
        return;
    }
    row.put("call", input_of(asked, kept));
    put_answer(row, answer_of(asked, kept, place));
}

fn put_answer(row: &mut Object, answer: Result<Option<Answer>, AllocError>) {
    match answer {
        Ok(Some(Answer::Given(json))) => {
            row.put("answer", Ok(json));
            row.put_null("error");
        }
        Ok(Some(Answer::Refused(name))) => {
            row.put_null("answer");
            row.put("error", Ok(Json::Text(name)));
        }
        Ok(None) => {
            row.put_null("answer");
            row.put_null("error");
        }
        Err(AllocError) => row.refuse(),
    }
}

/// What a Task's state works on; `null` if that can't be told.
fn input_of<B: BookCalls>(asked: &Asked<'_, B>, kept: &StepRecord) -> Result<Json, AllocError> {
    let Some(frame) = frame_before(kept) else {
        return Ok(Json::Null);
    };
    let Some(machine) = shared_machine_of(asked, &frame.level) else {
        return Ok(Json::Null);
    };
    let Some((_, State::Task(task))) = located(machine.machine(), frame) else {
        return Ok(Json::Null);
    };
    match effective_input(asked.alloc, &task.processing, &frame.raw) {
        Ok(json) => Ok(json),
        Err(TurnFault::Memory) => Err(AllocError),
        Err(TurnFault::Error(_)) => Ok(Json::Null),
    }
}

/// What a call answered, by the item that it met.
fn answer_of<B: BookCalls>(
    asked: &Asked<'_, B>,
    kept: &StepRecord,
    place: usize,
) -> Result<Option<Answer>, AllocError> {
    let Some(frame) = frame_before(kept) else {
        return Ok(None);
    };
    let Some(items) = items_around(asked, kept, place)? else {
        return Ok(None);
    };
    match call_of(asked, frame)? {
        Some(call) => answered(asked.alloc, call, items.before),
        None => Ok(None),
    }
}

fn answered(alloc: Global, call: Call, met: Option<&Item>) -> Result<Option<Answer>, AllocError> {
    let Decided {
        access: _,
        new,
        answer,
    } = decide(alloc, call, met)?;
    drop(new);
    Ok(Some(answer))
}

/// The call that a frame's turn makes, if it makes one.
fn call_of<B: BookCalls>(asked: &Asked<'_, B>, frame: &Frame) -> Result<Option<Call>, AllocError> {
    let Some(machine) = shared_machine_of(asked, &frame.level) else {
        return Ok(None);
    };
    let Some(prepared) = ready_turn(asked.alloc, machine, frame)? else {
        return Ok(None);
    };
    let (frame, machine, outcome) = prepared.into_parts();
    drop(frame);
    drop(machine);
    match outcome {
        Outcome::Call(call) => Ok(Some(call)),
        other => {
            drop(other);
            Ok(None)
        }
    }
}

/// The key of a call; none if the call is of another table, or has no key.
pub(crate) fn key_of_call<B: BookCalls>(
    asked: &Asked<'_, B>,
    call: &Call,
) -> Result<Option<Key>, AllocError> {
    let table = table_of(asked)?;
    let key = table.key(call);
    drop(table);
    match key {
        Ok(key) => Ok(Some(key)),
        Err(_) => Ok(None),
    }
}

// ---- holds

/// The earliest step that is left of a hold and on which an execution's next move would depend directly; `null` if there is none.
/// Takes the time of the hold's plan.
pub fn held_step<B: BookCalls>(
    asked: &Asked<'_, B>,
    exec: &ThreadName,
) -> Result<Json, AllocError> {
    let Some(held) = asked.book.held() else {
        return Ok(Json::Null);
    };
    let Some(at) = asked.book.history().find(held) else {
        return Ok(Json::Null);
    };
    match next_fact(asked, exec)? {
        Some(next) => {
            let step = first_held(asked, at, &next);
            drop(next);
            step
        }
        None => Ok(Json::Null),
    }
}

/// The earliest step of the plan of the one at a place on which a next move would depend.
fn first_held<B: BookCalls>(
    asked: &Asked<'_, B>,
    at: usize,
    next: &Fact,
) -> Result<Json, AllocError> {
    let records = asked.book.history();
    if at >= records.len() {
        return Ok(Json::Null);
    }
    let left = records.plan(asked.alloc, at)?;
    let step = first_needed(asked, left.places(), next);
    drop(left);
    step
}

fn first_needed<B: BookCalls>(
    asked: &Asked<'_, B>,
    plan: &[usize],
    next: &Fact,
) -> Result<Json, AllocError> {
    // (the plan has the latest first)
    for place in plan.iter().rev() {
        let Some(kept) = record_at(asked.book.history(), *place) else {
            continue;
        };
        if depends(&kept.fact, next) {
            return step_value(asked.alloc, &kept.fact.name);
        }
    }
    Ok(Json::Null)
}

/// What is known of an execution's next move; nothing if it has none.
fn next_fact<B: BookCalls>(
    asked: &Asked<'_, B>,
    exec: &ThreadName,
) -> Result<Option<Fact>, AllocError> {
    let Some(frame) = frame_of(asked.book, exec) else {
        return Ok(None);
    };
    match move_of(asked, exec)? {
        Some(Move::Join) => fact_of(exec, frame, Kind::Join, None),
        Some(Move::Terminate) => fact_of(exec, frame, Kind::Terminate, None),
        Some(Move::Step) => fact_of(exec, frame, Kind::Plain, next_access(asked, frame)?),
        _ => Ok(None),
    }
}

fn fact_of(
    exec: &ThreadName,
    frame: &Frame,
    kind: Kind,
    access: Option<Access>,
) -> Result<Option<Fact>, AllocError> {
    let Ok(thread) = exec.copy() else {
        drop(access);
        return Err(AllocError);
    };
    let name = StepName {
        thread,
        no: frame.count.saturating_add(1),
    };
    Ok(Some(Fact {
        name,
        kind,
        access,
        bound: 0,
    }))
}

/// What a frame's next step would access, if it is a call of an item.
fn next_access<B: BookCalls>(
    asked: &Asked<'_, B>,
    frame: &Frame,
) -> Result<Option<Access>, AllocError> {
    match call_of(asked, frame)? {
        Some(call) => access_of(asked, call),
        None => Ok(None),
    }
}

fn access_of<B: BookCalls>(asked: &Asked<'_, B>, call: Call) -> Result<Option<Access>, AllocError> {
    match key_of_call(asked, &call) {
        Ok(Some(key)) => access_to(asked, call, key),
        Ok(None) => {
            drop(call);
            Ok(None)
        }
        Err(AllocError) => {
            drop(call);
            Err(AllocError)
        }
    }
}

fn access_to<B: BookCalls>(
    asked: &Asked<'_, B>,
    call: Call,
    key: Key,
) -> Result<Option<Access>, AllocError> {
    match mode_of(asked, call, &key) {
        Ok(mode) => Ok(Some(Access { key, mode })),
        Err(AllocError) => {
            drop(key);
            Err(AllocError)
        }
    }
}

/// How a call would access the item of its key.
fn mode_of<B: BookCalls>(
    asked: &Asked<'_, B>,
    call: Call,
    key: &Key,
) -> Result<AccessMode, AllocError> {
    let Ok(met) = current_item(asked, key) else {
        drop(call);
        return Err(AllocError);
    };
    let Decided {
        access,
        new,
        answer,
    } = decide(asked.alloc, call, met)?;
    drop(new);
    drop(answer);
    Ok(access)
}
