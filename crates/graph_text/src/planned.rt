// A plan with its reasons: what a rollback takes back and why, what that gives back, and what is ready then.
use crate::page::Page;
use attr_values::{Item, Key};
use book_events::turns::{Frame, Phase};
use book_events::{BookCalls, Fact, Saved, StepRecord, StepRecords};
use item_store::AccessMode;
use std::alloc::{AllocError, Global};
use std::collections::BTreeMap;
use step_graph::{Cause, closed_threads, plan_reasons, record_at, take_reason, thread_above};
use step_names::ThreadName;

/// The threads that a rollback gives back or takes away, with the frames that they have then.
type Frames<'a> = BTreeMap<ThreadName, Option<&'a Frame>>;

/// The most executions that the head of a plan names.
const MOST_NAMED: usize = 20;

/// The items that a plan gives back: each key with the item now and the one that was there before.
type Changes<'a> = BTreeMap<Key, (Option<&'a Item>, Option<&'a Item>)>;

/// The plan of the step at a place. Takes the time of `StepRecords::plan` and, logarithms aside, time in the number of the plan's steps and of
/// what they give back.
pub(crate) fn tell_plan<B: BookCalls>(
    page: &mut Page,
    alloc: Global,
    book: Option<&B>,
    records: &StepRecords,
    at: usize,
) -> Result<(), AllocError> {
    if at >= records.len() {
        return Ok(());
    }
    let plan = records.plan(alloc, at)?;
    // the latest comes last here, and first in the plan
    let mut reasons = plan_reasons(alloc, records, plan.places())?;
    tell_head(page, alloc, book, records, plan.places())?;
    let mut frames = BTreeMap::new(alloc);
    for place in plan.places() {
        let reason = take_reason(&mut reasons, *place);
        tell_step(page, alloc, records, *place, *place == at, reason)?;
        give_back(alloc, &mut frames, records, *place)?;
    }
    tell_ready(page, alloc, &frames)
}

// ---- the head

/// How many steps of which executions, and what becomes of which items.
fn tell_head<B: BookCalls>(
    page: &mut Page,
    alloc: Global,
    book: Option<&B>,
    records: &StepRecords,
    plan: &[usize],
) -> Result<(), AllocError> {
    let mut executions = BTreeMap::new(alloc);
    let mut changes = BTreeMap::new(alloc);
    for place in plan {
        if let Some(kept) = record_at(records, *place) {
            executions.insert(thread_above(alloc, &kept.fact.name.thread, 0)?, ())?;
            note_change(&mut changes, book, kept)?;
        }
    }
    page.count(plan.len() as u64, "step")?;
    page.word(" of ")?;
    page.count(executions.len() as u64, "execution")?;
    tell_names(page, alloc, &executions)?;
    for (key, (now, then)) in changes.iter() {
        if now != then {
            tell_change(page, alloc, key, *now, *then)?;
        }
    }
    Ok(())
}

/// The names of executions, some of them if they are many.
fn tell_names(
    page: &mut Page,
    alloc: Global,
    executions: &BTreeMap<ThreadName, ()>,
) -> Result<(), AllocError> {
    let mut named = 0usize;
    for (name, ()) in executions.iter() {
        if named >= MOST_NAMED {
            page.word(" and ")?;
            page.number((executions.len() as u64).saturating_sub(named as u64))?;
            page.word(" more")?;
            break;
        }
        page.word(if named == 0 { ": " } else { ", " })?;
        page.thread(alloc, name)?;
        named += 1;
    }
    page.word("\n")
}

/// Notes what a write gives back. The earliest write of a key comes last, and decides.
fn note_change<'a, B: BookCalls>(
    changes: &mut Changes<'a>,
    book: Option<&'a B>,
    kept: &'a StepRecord,
) -> Result<(), AllocError> {
    let Some(access) = &kept.fact.access else {
        return Ok(());
    };
    if let (AccessMode::Write, Saved::Called { slot, old, .. }) = (access.mode, &kept.saved) {
        let now = match book {
            Some(book) => book.item_in(*slot),
            None => None,
        };
        changes.insert(access.key.copy()?, (now, old.as_ref()))?;
    }
    Ok(())
}

fn tell_change(
    page: &mut Page,
    alloc: Global,
    key: &Key,
    now: Option<&Item>,
    then: Option<&Item>,
) -> Result<(), AllocError> {
    page.word("item ")?;
    page.key(alloc, key)?;
    page.word(": ")?;
    page.item_or_none(alloc, now)?;
    page.word(" becomes ")?;
    page.item_or_none(alloc, then)?;
    page.word("\n")
}

// ---- a step

/// A step of a plan, which is the plan's own or a consequence.
fn tell_step(
    page: &mut Page,
    alloc: Global,
    records: &StepRecords,
    place: usize,
    is_own: bool,
    reason: Option<Cause>,
) -> Result<(), AllocError> {
    let Some(kept) = record_at(records, place) else {
        return Ok(());
    };
    tell_cause(page, alloc, records, &kept.fact, is_own, reason)?;
    page.word("; undone, ")?;
    tell_saved(page, alloc, kept)?;
    page.word("\n")
}

/// Why a step is in a plan. Of a consequence without a reason the name alone.
fn tell_cause(
    page: &mut Page,
    alloc: Global,
    records: &StepRecords,
    fact: &Fact,
    is_own: bool,
    reason: Option<Cause>,
) -> Result<(), AllocError> {
    let Some(cause) = reason else {
        page.step(alloc, &fact.name)?;
        return if is_own {
            page.word(" is the step itself")
        } else {
            Ok(())
        };
    };
    match record_at(records, cause.place) {
        Some(earlier) => page.because(alloc, &earlier.fact, fact, cause.reason),
        None => Ok(()),
    }
}

/// What the undoing of a step gives back.
fn tell_saved(page: &mut Page, alloc: Global, kept: &StepRecord) -> Result<(), AllocError> {
    page.thread(alloc, &kept.fact.name.thread)?;
    match &kept.saved {
        Saved::Started => page.word(" goes"),
        Saved::Framed(frame) => tell_frame(page, alloc, frame),
        Saved::Called { frame, .. } => {
            tell_frame(page, alloc, frame)?;
            tell_item(page, alloc, kept)
        }
        Saved::Forked(frame) => {
            tell_frame(page, alloc, frame)?;
            page.word(", and its branches go")
        }
        Saved::Closed { frame, kids } => {
            tell_frame(page, alloc, frame)?;
            page.word(", with its branches: ")?;
            page.number(kids.len() as u64)
        }
    }
}

fn tell_frame(page: &mut Page, alloc: Global, frame: &Frame) -> Result<(), AllocError> {
    page.word(" is ")?;
    page.frame(alloc, frame)
}

/// The item that a write's undoing gives back.
fn tell_item(page: &mut Page, alloc: Global, kept: &StepRecord) -> Result<(), AllocError> {
    let Some(access) = &kept.fact.access else {
        return Ok(());
    };
    match (access.mode, &kept.saved) {
        (AccessMode::Write, Saved::Called { old, .. }) => {
            page.word(", and item ")?;
            page.key(alloc, &access.key)?;
            match old {
                Some(item) => {
                    page.word(" is ")?;
                    page.item(alloc, item)
                }
                None => page.word(" isn't there"),
            }
        }
        _ => Ok(()),
    }
}

// ---- what is ready then

/// Puts down what the undoing of the step at a place gives back and takes away. The steps come as they are undone, the latest first.
fn give_back<'a>(
    alloc: Global,
    frames: &mut Frames<'a>,
    records: &'a StepRecords,
    place: usize,
) -> Result<(), AllocError> {
    let Some(kept) = record_at(records, place) else {
        return Ok(());
    };
    let thread = kept.fact.name.thread.copy()?;
    match &kept.saved {
        Saved::Started => {
            frames.insert(thread, None)?;
        }
        Saved::Framed(frame) | Saved::Forked(frame) | Saved::Called { frame, .. } => {
            frames.insert(thread, Some(frame))?;
        }
        Saved::Closed { frame, .. } => {
            frames.insert(thread, Some(frame))?;
            for (branch, frame) in closed_threads(alloc, kept)? {
                frames.insert(branch, Some(frame))?;
            }
        }
    }
    Ok(())
}

/// The threads that stand before a state again.
fn tell_ready(page: &mut Page, alloc: Global, frames: &Frames<'_>) -> Result<(), AllocError> {
    page.word("ready again afterwards:\n")?;
    for (name, frame) in frames.iter() {
        if let Some(frame) = frame {
            if is_ready(frame) && is_there(alloc, frames, name)? {
                page.thread(alloc, name)?;
                page.word(" ")?;
                page.frame(alloc, frame)?;
                page.word("\n")?;
            }
        }
    }
    Ok(())
}

fn is_ready(frame: &Frame) -> bool {
    matches!(&frame.phase, Phase::Ready)
}

/// Whether a thread is there afterwards: its fork is not undone.
fn is_there(alloc: Global, frames: &Frames<'_>, name: &ThreadName) -> Result<bool, AllocError> {
    let Some(((fork, _), above)) = name.path().split_last() else {
        return Ok(true);
    };
    let over = thread_above(alloc, name, above.len())?;
    Ok(match frames.get(&over) {
        Some(Some(frame)) => frame.count == *fork && matches!(&frame.phase, Phase::Parked(_, _)),
        Some(None) => false,
        None => true,
    })
}
