// One execution, one thread or one step, with all that is known of it.
use crate::listing::{machine_word, put_end, status_of};
use answer_causes::parts::books::{BookCalls, Entry, Frame, Phase, StepRecord};
use answer_causes::parts::graph::{branch_of, record_at};
use answer_causes::parts::{
    Asked, Move, Object, Page, Rows, frame_after, frame_before, frame_of, frame_value, item_value,
    items_around, move_of, outcome_of, put_step_row,
};
use answer_causes::{dependents_of, held_step, put_call};
use json_tree::Json;
use std::alloc::AllocError;
use std::cmp::Ordering;
use std::collections::BTreeMap;
use step_names::{StepName, ThreadName};

/// An execution: its machine, input and status, its output or how it failed, the branches for which it waits, and its threads with
/// their steps, closed branches too.
pub(crate) fn execution_of<B: BookCalls>(
    asked: &Asked<'_, B>,
    exec: &ThreadName,
    page: &Page<StepName>,
) -> Result<Option<Json>, AllocError> {
    let Some(start) = asked.index.executions().get(exec) else {
        return Ok(None);
    };
    let mut threads = Rows::new(asked.alloc);
    let more = push_threads(asked, exec, page, &mut threads);
    let mut answer = asked.answer();
    answer.put_thread("execution", exec);
    answer.put_word("machine", machine_word(asked, *start));
    answer.put("input", input_of(asked, *start));
    answer.put_text("status", status_of(asked, exec).word());
    put_end(asked, &mut answer, exec);
    put_result(asked, &mut answer, exec);
    answer.put("waits_for", waited_for(asked, exec));
    answer.put("held", held_step(asked, exec));
    answer.put_whether("more", more);
    answer.put_list("threads", threads);
    Ok(Some(answer.done()?))
}

/// The branches for which an execution's own thread waits: those that aren't done.
fn waited_for<B: BookCalls>(asked: &Asked<'_, B>, exec: &ThreadName) -> Result<Json, AllocError> {
    let mut names = Rows::new(asked.alloc);
    if push_waited(asked, exec, &mut names).is_err() {
        names.refuse();
    }
    names.done()
}

fn push_waited<B: BookCalls>(
    asked: &Asked<'_, B>,
    exec: &ThreadName,
    names: &mut Rows,
) -> Result<(), AllocError> {
    let Some(frame) = frame_of(asked.book, exec) else {
        return Ok(());
    };
    let Phase::Parked(branches, _) = &frame.phase else {
        return Ok(());
    };
    if !matches!(move_of(asked, exec)?, Some(Move::Waits)) {
        return Ok(());
    }
    for index in 0..*branches {
        let Some(branch) = branch_of(asked.alloc, exec, frame.count, index)? else {
            break;
        };
        push_open(asked, names, branch);
    }
    Ok(())
}

/// Adds the name of a branch that isn't done.
fn push_open<B: BookCalls>(asked: &Asked<'_, B>, names: &mut Rows, branch: ThreadName) {
    if !is_done(asked, &branch) {
        names.push_thread(&branch);
    }
    drop(branch);
}

fn is_done<B: BookCalls>(asked: &Asked<'_, B>, thread: &ThreadName) -> bool {
    match frame_of(asked.book, thread) {
        Some(frame) => matches!(&frame.phase, Phase::Done(_)),
        None => false,
    }
}

/// The input with which an execution was started.
fn input_of<B: BookCalls>(asked: &Asked<'_, B>, start: usize) -> Result<Json, AllocError> {
    let (_, entries) = asked.book.entries();
    let Some(before) = start.checked_sub(1) else {
        return Ok(Json::Null);
    };
    match entries.get(before) {
        Some(Entry::Start { input, .. }) => input.copy(),
        _ => Ok(Json::Null),
    }
}

/// The output of an execution that is done, and the cause and the step of one that failed.
fn put_result<B: BookCalls>(asked: &Asked<'_, B>, answer: &mut Object, exec: &ThreadName) {
    answer.put_null("output");
    answer.put_null("cause");
    answer.put_null("step");
    let Some(frame) = frame_of(asked.book, exec) else {
        return;
    };
    match &frame.phase {
        Phase::Done(output) => answer.put("output", output.copy()),
        Phase::Failed(fault) => {
            answer.put_text("cause", fault.cause.as_str());
            answer.put_step_of("step", exec, frame.count);
        }
        _ => {}
    }
}

// ---- threads and their steps

/// The threads of an execution, in the order of their names, each with its steps, and whether more steps or threads follow. A page
/// counts steps; a thread whose steps all come before it is left out.
fn push_threads<B: BookCalls>(
    asked: &Asked<'_, B>,
    exec: &ThreadName,
    page: &Page<StepName>,
    threads: &mut Rows,
) -> Result<bool, AllocError> {
    let mut by_thread = BTreeMap::new(asked.alloc);
    let more = match add_places(asked, exec, &mut by_thread) {
        Ok(()) => Ok(push_by_thread(asked, page, &by_thread, threads)),
        Err(AllocError) => Err(AllocError),
    };
    drop(by_thread);
    more
}

type ByThread = BTreeMap<ThreadName, Vec<usize>>;

fn push_by_thread<B: BookCalls>(
    asked: &Asked<'_, B>,
    page: &Page<StepName>,
    by_thread: &ByThread,
    threads: &mut Rows,
) -> bool {
    let mut shown: usize = 0;
    for (thread, places) in by_thread.iter() {
        if page.place_of(thread) == Ordering::Less {
            continue;
        }
        if page.is_full(shown) {
            return true;
        }
        if push_thread(asked, page, thread, places.as_slice(), &mut shown, threads) {
            return true;
        }
    }
    false
}

/// Adds a thread with those of its steps that are in a page which has so many already; none if they all come before it. Whether more of
/// them follow.
fn push_thread<B: BookCalls>(
    asked: &Asked<'_, B>,
    page: &Page<StepName>,
    thread: &ThreadName,
    places: &[usize],
    shown: &mut usize,
    threads: &mut Rows,
) -> bool {
    let mut steps = Rows::new(asked.alloc);
    let more = push_steps(asked, page, places, *shown, &mut steps);
    if steps.len() == 0 && page.place_of(thread) == Ordering::Equal {
        drop(steps);
    } else {
        *shown = shown.saturating_add(steps.len());
        threads.push(thread_row(asked, thread, steps));
    }
    more
}

/// Those of a thread's steps that are in a page which has so many already, and whether more of them follow.
fn push_steps<B: BookCalls>(
    asked: &Asked<'_, B>,
    page: &Page<StepName>,
    places: &[usize],
    shown: usize,
    steps: &mut Rows,
) -> bool {
    for place in places {
        let Some(kept) = record_at(asked.book.history(), *place) else {
            continue;
        };
        if page.passes_by(&kept.fact.name) {
            continue;
        }
        if page.is_full(shown.saturating_add(steps.len())) {
            return true;
        }
        steps.push(told_step(asked, kept, *place, false));
    }
    false
}

/// The places of an execution's remaining steps by their threads; each thread that is there has some or none.
fn add_places<B: BookCalls>(
    asked: &Asked<'_, B>,
    exec: &ThreadName,
    by_thread: &mut ByThread,
) -> Result<(), AllocError> {
    for (thread, _) in asked.index.threads().range(exec..) {
        if thread.exec() != exec.exec() {
            break;
        }
        by_thread.insert(thread.copy()?, Vec::new(asked.alloc))?;
    }
    let places = asked.book.history().of_execution(asked.alloc, exec.exec())?;
    let added = add_by_thread(asked, places.as_slice(), by_thread);
    drop(places);
    added
}

fn add_by_thread<B: BookCalls>(
    asked: &Asked<'_, B>,
    places: &[usize],
    by_thread: &mut ByThread,
) -> Result<(), AllocError> {
    for place in places {
        let Some(kept) = record_at(asked.book.history(), *place) else {
            continue;
        };
        let thread = &kept.fact.name.thread;
        if !by_thread.contains_key(thread) {
            by_thread.insert(thread.copy()?, Vec::new(asked.alloc))?;
        }
        if let Some(places) = by_thread.get_mut(thread) {
            places.push(*place)?;
        }
    }
    Ok(())
}

/// One thread with its steps; nothing if it isn't there and no step of it remains.
pub(crate) fn thread_of<B: BookCalls>(
    asked: &Asked<'_, B>,
    thread: &ThreadName,
    page: &Page<StepName>,
) -> Result<Option<Json>, AllocError> {
    let mut places = Vec::new(asked.alloc);
    let answer = match add_own(asked, thread, &mut places) {
        Ok(()) => thread_with(asked, thread, page, places.as_slice()),
        Err(AllocError) => Err(AllocError),
    };
    drop(places);
    answer
}

/// The places of a thread's remaining steps.
fn add_own<B: BookCalls>(
    asked: &Asked<'_, B>,
    thread: &ThreadName,
    places: &mut Vec<usize>,
) -> Result<(), AllocError> {
    let all = asked
        .book
        .history()
        .of_execution(asked.alloc, thread.exec())?;
    let added = add_own_of(asked, thread, all.as_slice(), places);
    drop(all);
    added
}

fn add_own_of<B: BookCalls>(
    asked: &Asked<'_, B>,
    thread: &ThreadName,
    all: &[usize],
    places: &mut Vec<usize>,
) -> Result<(), AllocError> {
    for place in all {
        if let Some(kept) = record_at(asked.book.history(), *place) {
            if kept.fact.name.thread == *thread {
                places.push(*place)?;
            }
        }
    }
    Ok(())
}

fn thread_with<B: BookCalls>(
    asked: &Asked<'_, B>,
    thread: &ThreadName,
    page: &Page<StepName>,
    places: &[usize],
) -> Result<Option<Json>, AllocError> {
    if places.is_empty() && frame_of(asked.book, thread).is_none() {
        return Ok(None);
    }
    let mut steps = Rows::new(asked.alloc);
    let more = push_steps(asked, page, places, 0, &mut steps);
    let mut threads = Rows::new(asked.alloc);
    threads.push(thread_row(asked, thread, steps));
    let mut answer = asked.answer();
    answer.put_whether("more", Ok(more));
    answer.put_list("threads", threads);
    Ok(Some(answer.done()?))
}

fn thread_row<B: BookCalls>(
    asked: &Asked<'_, B>,
    thread: &ThreadName,
    steps: Rows,
) -> Result<Json, AllocError> {
    let frame = frame_of(asked.book, thread);
    let mut row = Object::new(asked.alloc);
    row.put_thread("thread", thread);
    row.put_whether("closed", Ok(frame.is_none()));
    row.put("frame", frame_value(asked.alloc, frame));
    put_move(asked, &mut row, thread);
    row.put_list("steps", steps);
    row.done()
}

/// A thread's next move; `null` if it has none, and if it isn't there.
fn put_move<B: BookCalls>(asked: &Asked<'_, B>, row: &mut Object, thread: &ThreadName) {
    match move_of(asked, thread) {
        Ok(Some(next)) => row.put_word("move", next.word()),
        Ok(None) => row.put_null("move"),
        Err(AllocError) => row.refuse(),
    }
}

/// A step with its line, what it was given and what it handed on, and what it went on to; with its frames and items if so asked.
fn told_step<B: BookCalls>(
    asked: &Asked<'_, B>,
    kept: &StepRecord,
    place: usize,
    whole: bool,
) -> Result<Json, AllocError> {
    let after = frame_after(asked, &kept.fact.name)?;
    let mut row = Object::new(asked.alloc);
    put_step_row(asked, &mut row, kept, place);
    match asked.index.line_of(&kept.fact.name) {
        Some(line) => row.put_number("entry", line),
        None => row.put_null("entry"),
    }
    row.put("outcome", outcome_of(asked, frame_before(kept), after));
    row.put("input", given_to(frame_before(kept)));
    row.put("output", handed_on(after));
    put_call(asked, &mut row, kept, place);
    if whole {
        row.put("frames", frames_of(asked, frame_before(kept), after));
        row.put("items", items_of(asked, kept, place));
    }
    row.done()
}

/// What a step was given; `null` of a start.
fn given_to(before: Option<&Frame>) -> Result<Json, AllocError> {
    match before {
        Some(frame) => frame.raw.copy(),
        None => Ok(Json::Null),
    }
}

/// What a step handed on; `null` if its thread's frame after it isn't known.
fn handed_on(after: Option<&Frame>) -> Result<Json, AllocError> {
    match after {
        Some(frame) => match &frame.phase {
            Phase::Done(output) => output.copy(),
            _ => frame.raw.copy(),
        },
        None => Ok(Json::Null),
    }
}

fn frames_of<B: BookCalls>(
    asked: &Asked<'_, B>,
    before: Option<&Frame>,
    after: Option<&Frame>,
) -> Result<Json, AllocError> {
    let mut frames = Object::new(asked.alloc);
    frames.put("before", frame_value(asked.alloc, before));
    frames.put("after", frame_value(asked.alloc, after));
    frames.done()
}

/// The item before and after a call; `null` of another step.
fn items_of<B: BookCalls>(
    asked: &Asked<'_, B>,
    kept: &StepRecord,
    place: usize,
) -> Result<Json, AllocError> {
    let Some(around) = items_around(asked, kept, place)? else {
        return Ok(Json::Null);
    };
    let mut items = Object::new(asked.alloc);
    items.put("before", item_value(around.before));
    items.put("after", item_value(around.after));
    items.done()
}

/// All about the step at a place: also those on which it depends directly, and those that depend directly on it.
pub(crate) fn step_of<B: BookCalls>(
    asked: &Asked<'_, B>,
    place: usize,
) -> Result<Json, AllocError> {
    let mut answer = asked.answer();
    if let Some(kept) = record_at(asked.book.history(), place) {
        answer.put("step", told_step(asked, kept, place, true));
    }
    answer.put("dependents", dependents_of(asked, place));
    answer.done()
}

/// So many remaining steps from a place on, with their frames and items.
pub(crate) fn steps_from<B: BookCalls>(
    asked: &Asked<'_, B>,
    from: usize,
    count: usize,
) -> Result<Json, AllocError> {
    let records = asked.book.history();
    let end = from.saturating_add(count);
    let last = if end < records.len() {
        end
    } else {
        records.len()
    };
    let mut rows = Rows::new(asked.alloc);
    for place in from..last {
        if let Some(kept) = record_at(records, place) {
            rows.push(told_step(asked, kept, place, true));
        }
    }
    let mut answer = asked.answer();
    answer.put_number("from", from);
    answer.put_number("count", records.len());
    answer.put_list("steps", rows);
    answer.done()
}
