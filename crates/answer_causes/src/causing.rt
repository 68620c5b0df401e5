// On which steps one depends, and what a rollback takes back.
use answer_parts::books::{BookCalls, Kind, Saved, StepRecords};
use answer_parts::graph::{
    Cause, causes, plan_reasons, reason_at, reason_word, record_at, take_reason, thread_above, why,
};
use answer_parts::{
    Asked, Object, Rows, ThreadNames, item_now, item_value, key_value, put_step_row,
};
use attr_values::{Item, Key};
use item_store::AccessMode;
use json_tree::Json;
use std::alloc::AllocError;
use std::collections::{BTreeMap, VecDeque};
use step_names::StepName;

/// The steps on which the one at a place depends, the latest first; of these alone those that wrote an item, and the starts, if so
/// asked. Takes the time of [`causes`], and for each row that of [`put_step_row`].
pub fn causes_of<B: BookCalls>(
    asked: &Asked<'_, B>,
    step: &StepName,
    at: usize,
    writes: bool,
) -> Result<Json, AllocError> {
    let mut answer = asked.answer();
    answer.put_step("step", step);
    answer.put("causes", causes_at(asked, at, writes));
    answer.done()
}

fn causes_at<B: BookCalls>(
    asked: &Asked<'_, B>,
    at: usize,
    writes: bool,
) -> Result<Json, AllocError> {
    let records = asked.book.history();
    if at >= records.len() {
        return Rows::new(asked.alloc).done();
    }
    let found = causes(asked.alloc, records, at)?;
    let rows = cause_rows(asked, found.as_slice(), writes);
    drop(found);
    rows
}

fn cause_rows<B: BookCalls>(
    asked: &Asked<'_, B>,
    found: &[Cause],
    writes: bool,
) -> Result<Json, AllocError> {
    let mut rows = Rows::new(asked.alloc);
    for cause in found {
        if !writes || is_source(asked.book.history(), cause.place) {
            rows.push(cause_row(asked, *cause));
        }
    }
    rows.done()
}

/// Whether a step wrote an item, or is a start.
fn is_source(records: &StepRecords, place: usize) -> bool {
    let Some(kept) = record_at(records, place) else {
        return false;
    };
    match &kept.fact.access {
        Some(access) => matches!(access.mode, AccessMode::Write),
        None => matches!(kept.fact.kind, Kind::Start),
    }
}

fn cause_row<B: BookCalls>(asked: &Asked<'_, B>, cause: Cause) -> Result<Json, AllocError> {
    let records = asked.book.history();
    let mut row = Object::new(asked.alloc);
    if let Some(kept) = record_at(records, cause.place) {
        put_step_row(asked, &mut row, kept, cause.place);
    }
    if let Some(kept) = record_at(records, cause.needed_for) {
        row.put_step("needed_for", &kept.fact.name);
    }
    row.put_text("reason", reason_word(cause.reason));
    row.done()
}

// ---- plans

/// What a rollback of the step at a place takes back, with a head: how many steps of which executions, and the items that change. Takes the
/// time of the plan and of [`plan_reasons`], and for each row that of [`put_step_row`].
pub fn plan_of<B: BookCalls>(
    asked: &Asked<'_, B>,
    step: &StepName,
    at: usize,
) -> Result<Json, AllocError> {
    let mut answer = asked.answer();
    answer.put_step("step", step);
    put_plan_at(asked, &mut answer, at);
    answer.done()
}

fn put_plan_at<B: BookCalls>(asked: &Asked<'_, B>, answer: &mut Object, at: usize) {
    let records = asked.book.history();
    if at >= records.len() {
        put_plan(asked, answer, &[]);
        return;
    }
    match records.plan(asked.alloc, at) {
        Ok(plan) => {
            put_plan(asked, answer, plan.places());
            drop(plan);
        }
        Err(AllocError) => answer.refuse(),
    }
}

fn put_plan<B: BookCalls>(asked: &Asked<'_, B>, answer: &mut Object, plan: &[usize]) {
    answer.put_number("count", plan.len());
    answer.put("steps", steps_in(asked, plan));
    answer.put("executions", executions_in(asked, plan));
    answer.put("items", items_in(asked, plan));
}

fn steps_in<B: BookCalls>(asked: &Asked<'_, B>, plan: &[usize]) -> Result<Json, AllocError> {
    // the latest comes last here, and first in the plan
    let mut reasons = plan_reasons(asked.alloc, asked.book.history(), plan)?;
    let rows = planned_rows(asked, plan, &mut reasons);
    drop(reasons);
    rows
}

fn planned_rows<B: BookCalls>(
    asked: &Asked<'_, B>,
    plan: &[usize],
    reasons: &mut Vec<Cause>,
) -> Result<Json, AllocError> {
    let mut rows = Rows::new(asked.alloc);
    for place in plan {
        let reason = take_reason(reasons, *place);
        rows.push(planned_row(asked, *place, reason));
    }
    rows.done()
}

/// A step of a plan, with the latest step of the plan on which it depends, and why.
fn planned_row<B: BookCalls>(
    asked: &Asked<'_, B>,
    place: usize,
    reason: Option<Cause>,
) -> Result<Json, AllocError> {
    let mut row = Object::new(asked.alloc);
    if let Some(kept) = record_at(asked.book.history(), place) {
        put_step_row(asked, &mut row, kept, place);
        put_cause(asked.book.history(), &mut row, reason);
    }
    row.done()
}

fn put_cause(records: &StepRecords, row: &mut Object, reason: Option<Cause>) {
    match reason {
        Some(cause) => {
            if let Some(other) = record_at(records, cause.place) {
                row.put_step("after", &other.fact.name);
            }
            row.put_text("reason", reason_word(cause.reason));
        }
        None => {
            row.put_null("after");
            row.put_null("reason");
        }
    }
}

fn executions_in<B: BookCalls>(asked: &Asked<'_, B>, plan: &[usize]) -> Result<Json, AllocError> {
    let mut executions = ThreadNames::new(asked.alloc);
    for place in plan {
        if let Some(kept) = record_at(asked.book.history(), *place) {
            executions.take(thread_above(asked.alloc, &kept.fact.name.thread, 0));
        }
    }
    executions.done()
}

/// The items that a plan gives back: of each key a write's place, and the item that this replaced.
type Changed<'a> = BTreeMap<Key, (usize, Option<&'a Item>)>;

/// The items that a plan's writes change: each as it is now, and as it is then.
fn items_in<B: BookCalls>(asked: &Asked<'_, B>, plan: &[usize]) -> Result<Json, AllocError> {
    let mut items = BTreeMap::new(asked.alloc);
    let changes = match note_writes(asked, plan, &mut items) {
        Ok(()) => changes_in(asked, &items),
        Err(AllocError) => Err(AllocError),
    };
    drop(items);
    changes
}

/// Notes of each write the item that it gives back. The earliest write of a key comes last, and decides.
fn note_writes<'a, B: BookCalls>(
    asked: &Asked<'a, B>,
    plan: &[usize],
    items: &mut Changed<'a>,
) -> Result<(), AllocError> {
    for place in plan {
        let Some(kept) = record_at(asked.book.history(), *place) else {
            continue;
        };
        if let (Some(access), Saved::Called { old, .. }) = (&kept.fact.access, &kept.saved) {
            if matches!(access.mode, AccessMode::Write) {
                items.insert(access.key.copy()?, (*place, old.as_ref()))?;
            }
        }
    }
    Ok(())
}

fn changes_in<B: BookCalls>(asked: &Asked<'_, B>, items: &Changed<'_>) -> Result<Json, AllocError> {
    let mut changes = Rows::new(asked.alloc);
    for (key, (place, then)) in items.iter() {
        let now = match record_at(asked.book.history(), *place) {
            Some(kept) => item_now(asked, kept),
            None => None,
        };
        if now != *then {
            changes.push(change_row(asked, key, now, *then));
        }
    }
    changes.done()
}

fn change_row<B: BookCalls>(
    asked: &Asked<'_, B>,
    key: &Key,
    now: Option<&Item>,
    then: Option<&Item>,
) -> Result<Json, AllocError> {
    let mut change = Object::new(asked.alloc);
    change.put("key", key_value(asked, key));
    change.put("now", item_value(now));
    change.put("then", item_value(then));
    change.done()
}

// ---- chains

/// A shortest chain of direct dependences from one step to another; nothing if there is none. Takes the time of [`why`], and for
/// each row that of [`put_step_row`].
pub fn chain_of<B: BookCalls>(
    asked: &Asked<'_, B>,
    from: usize,
    to: usize,
) -> Result<Option<Json>, AllocError> {
    let Some(chain) = why(asked.alloc, asked.book.history(), from, to)? else {
        return Ok(None);
    };
    let mut answer = asked.answer();
    answer.put("chain", chain_rows(asked, &chain));
    drop(chain);
    Ok(Some(answer.done()?))
}

fn chain_rows<B: BookCalls>(
    asked: &Asked<'_, B>,
    chain: &VecDeque<usize>,
) -> Result<Json, AllocError> {
    let mut rows = Rows::new(asked.alloc);
    let mut before = None;
    for place in chain.iter() {
        rows.push(chained_row(asked, before, *place));
        before = Some(*place);
    }
    rows.done()
}

/// A step of a chain, and why it depends on the one before.
fn chained_row<B: BookCalls>(
    asked: &Asked<'_, B>,
    before: Option<usize>,
    place: usize,
) -> Result<Json, AllocError> {
    let records = asked.book.history();
    let mut row = Object::new(asked.alloc);
    if let Some(kept) = record_at(records, place) {
        put_step_row(asked, &mut row, kept, place);
    }
    let reason = match before {
        Some(earlier) => reason_at(records, earlier, place),
        None => None,
    };
    match reason {
        Some(reason) => row.put_text("reason", reason_word(reason)),
        None => row.put_null("reason"),
    }
    row.done()
}
