// A book's executions and threads, and how near it is to its limits.
use crate::page::Page;
use book_events::turns::{Frame, Phase};
use book_events::{BookCalls, Entry, Readiness, Refusal};
use json_tree::Text;
use std::alloc::{AllocError, Global};
use std::collections::BTreeMap;
use step_graph::branch_of;
use step_names::ThreadName;

/// The most steps that may remain.
const MOST_STEPS: u64 = 65_536;

/// The most entries and remaining steps together.
const MOST_ENTRIES: u64 = 1_000_000;

/// How many steps of each thread remain.
type Counts = BTreeMap<ThreadName, u64>;

/// What a thread can do.
#[derive(Clone, Copy)]
enum Progress {
    Moves,
    Waits,
    Ended,
}

/// The book's sizes, what is held, and a line for each thread that has a frame or steps. Takes time in the numbers of entries, of steps and of
/// threads, logarithms aside.
pub(crate) fn tell_book<B: BookCalls>(
    page: &mut Page,
    alloc: Global,
    book: &B,
) -> Result<(), AllocError> {
    let (_, entries) = book.entries();
    let steps = book.history().len();
    tell_executions(page, alloc, book)?;
    tell_sizes(page, steps as u64, entries.len() as u64)?;
    tell_hold(page, alloc, book)?;
    let mut counts = BTreeMap::new(alloc);
    count_executions(book, &mut counts)?;
    count_steps(book, &mut counts)?;
    add_branches(alloc, book, &mut counts)?;
    for (name, count) in counts.iter() {
        tell_thread(page, alloc, book, name, *count)?;
    }
    Ok(())
}

fn tell_sizes(page: &mut Page, steps: u64, entries: u64) -> Result<(), AllocError> {
    page.word("remaining steps: ")?;
    page.number(steps)?;
    page.word(" of ")?;
    page.number(MOST_STEPS)?;
    page.word("\nentries and remaining steps: ")?;
    page.number(entries.saturating_add(steps))?;
    page.word(" of ")?;
    page.number(MOST_ENTRIES)?;
    page.word("\n")
}

/// The hold that stands, if one does, and how many steps of it are left.
fn tell_hold<B: BookCalls>(page: &mut Page, alloc: Global, book: &B) -> Result<(), AllocError> {
    let Some(step) = book.held() else {
        return Ok(());
    };
    page.word("held: ")?;
    page.step(alloc, step)?;
    page.word("; left: ")?;
    page.number(book.held_left() as u64)?;
    page.word("\n")
}

// ---- how many executions are done, failed and open

#[derive(Clone, Copy)]
struct Ends {
    done: u64,
    failed: u64,
    open: u64,
}

impl Ends {
    fn none() -> Ends {
        Ends {
            done: 0,
            failed: 0,
            open: 0,
        }
    }

    /// These and one more, whose own thread has this frame.
    fn with(self, frame: &Frame) -> Ends {
        let mut ends = self;
        match &frame.phase {
            Phase::Done(_) => ends.done = ends.done.saturating_add(1),
            Phase::Failed(_) => ends.failed = ends.failed.saturating_add(1),
            _ => ends.open = ends.open.saturating_add(1),
        }
        ends
    }
}

/// How many executions are done, failed and open: of all, and of each machine.
fn tell_executions<B: BookCalls>(
    page: &mut Page,
    alloc: Global,
    book: &B,
) -> Result<(), AllocError> {
    let mut machines = BTreeMap::new(alloc);
    let mut started = BTreeMap::new(alloc);
    let (_, entries) = book.entries();
    for entry in entries {
        match entry {
            Entry::Define { name, .. } => {
                machines.insert(name.copy()?, Ends::none())?;
            }
            Entry::Start { exec, machine, .. } => {
                // (a name whose start was taken back may be started again)
                started.insert(exec.copy()?, machine)?;
            }
            _ => {}
        }
    }
    let all = count_ends(book, &started, &mut machines);
    page.word("executions")?;
    tell_ends(page, all)?;
    for (name, ends) in machines.iter() {
        page.word("machine ")?;
        page.word(name.as_str())?;
        tell_ends(page, *ends)?;
    }
    Ok(())
}

fn count_ends<B: BookCalls>(
    book: &B,
    started: &BTreeMap<ThreadName, &Text>,
    machines: &mut BTreeMap<Text, Ends>,
) -> Ends {
    let mut all = Ends::none();
    for (exec, machine) in started.iter() {
        if let Some(frame) = frame_of(book, exec) {
            all = all.with(frame);
            if let Some(ends) = machines.get_mut(*machine) {
                *ends = ends.with(frame);
            }
        }
    }
    all
}

fn tell_ends(page: &mut Page, ends: Ends) -> Result<(), AllocError> {
    page.word(": ")?;
    page.number(ends.done)?;
    page.word(" done, ")?;
    page.number(ends.failed)?;
    page.word(" failed, ")?;
    page.number(ends.open)?;
    page.word(" open\n")
}

// ---- which threads there are

/// The executions that were started and are still there, also those whose steps are all settled.
fn count_executions<B: BookCalls>(book: &B, counts: &mut Counts) -> Result<(), AllocError> {
    let (_, entries) = book.entries();
    for entry in entries {
        if let Entry::Start { exec, .. } = entry {
            if frame_of(book, exec).is_some() {
                put(counts, exec, 0)?;
            }
        }
    }
    Ok(())
}

fn count_steps<B: BookCalls>(book: &B, counts: &mut Counts) -> Result<(), AllocError> {
    let records = book.history();
    for place in 0..records.len() {
        put(counts, &records.get(place).fact.name.thread, 1)?;
    }
    Ok(())
}

fn put(counts: &mut Counts, thread: &ThreadName, more: u64) -> Result<(), AllocError> {
    if let Some(count) = counts.get_mut(thread) {
        *count = count.saturating_add(more);
        return Ok(());
    }
    counts.insert(thread.copy()?, more)?;
    Ok(())
}

/// The branches of the threads that are parked, at any depth, also those without steps.
fn add_branches<B: BookCalls>(
    alloc: Global,
    book: &B,
    counts: &mut Counts,
) -> Result<(), AllocError> {
    let mut left = Vec::new(alloc);
    for name in counts.keys() {
        left.push(name.copy()?)?;
    }
    // each thread comes once
    for _ in 0..u64::MAX {
        let Some(thread) = left.pop() else {
            break;
        };
        if let Some(frame) = frame_of(book, &thread) {
            add_branches_of(alloc, counts, &mut left, &thread, frame)?;
        }
    }
    Ok(())
}

fn add_branches_of(
    alloc: Global,
    counts: &mut Counts,
    left: &mut Vec<ThreadName>,
    thread: &ThreadName,
    frame: &Frame,
) -> Result<(), AllocError> {
    for index in 0..branches_of(frame) {
        let Some(branch) = branch_of(alloc, thread, frame.count, index)? else {
            break;
        };
        if !counts.contains_key(&branch) {
            left.push(branch.copy()?)?;
            counts.insert(branch, 0)?;
        }
    }
    Ok(())
}

fn branches_of(frame: &Frame) -> u32 {
    match &frame.phase {
        Phase::Parked(branches, _) => *branches,
        _ => 0,
    }
}

// ---- a thread

fn tell_thread<B: BookCalls>(
    page: &mut Page,
    alloc: Global,
    book: &B,
    name: &ThreadName,
    count: u64,
) -> Result<(), AllocError> {
    page.thread(alloc, name)?;
    match frame_of(book, name) {
        Some(frame) => {
            page.word(" ")?;
            page.state(alloc, frame)?;
            page.word("; next: ")?;
            page.word(next_word(alloc, book, name, frame)?)?;
            tell_count(page, count, settled_of(name, frame, count))
        }
        None => {
            page.word(" closed")?;
            tell_count(page, count, 0)
        }
    }
}

/// How many steps of a thread that has a frame are settled: those that it took and that don't remain.
fn settled_of(name: &ThreadName, frame: &Frame, count: u64) -> u64 {
    let start = if name.is_execution() { 1 } else { 0 };
    let taken = u64::from(frame.count).saturating_add(start);
    taken.saturating_sub(count)
}

fn tell_count(page: &mut Page, count: u64, settled: u64) -> Result<(), AllocError> {
    page.word("; remaining: ")?;
    page.number(count)?;
    if settled > 0 {
        page.word("; settled: ")?;
        page.number(settled)?;
    }
    page.word("\n")
}

/// What a thread can do next.
fn next_word<B: BookCalls>(
    alloc: Global,
    book: &B,
    name: &ThreadName,
    frame: &Frame,
) -> Result<&'static str, AllocError> {
    match progress_of(book, name)? {
        Progress::Moves => moving_word(alloc, book, name, frame),
        Progress::Waits => Ok("wait"),
        Progress::Ended => Ok("nothing"),
    }
}

/// Whether a thread has a move, as the book tells it with a ticket.
fn progress_of<B: BookCalls>(book: &B, name: &ThreadName) -> Result<Progress, AllocError> {
    match book.ticket(name) {
        Ok(ticket) => {
            drop(ticket);
            Ok(Progress::Moves)
        }
        Err(Refusal::NotReady(Readiness::Waiting)) => Ok(Progress::Waits),
        Err(Refusal::Memory) => Err(AllocError),
        Err(_) => Ok(Progress::Ended),
    }
}

/// The frame of a thread, if it has one.
fn frame_of<'a, B: BookCalls>(book: &'a B, name: &ThreadName) -> Option<&'a Frame> {
    match book.show(name) {
        Ok(frame) => Some(frame),
        Err(_) => None,
    }
}

/// The word for the move of a thread that has one.
fn moving_word<B: BookCalls>(
    alloc: Global,
    book: &B,
    name: &ThreadName,
    frame: &Frame,
) -> Result<&'static str, AllocError> {
    if matches!(&frame.phase, Phase::Ready) {
        return Ok("step");
    }
    for index in 0..branches_of(frame) {
        let Some(branch) = branch_of(alloc, name, frame.count, index)? else {
            break;
        };
        if has_failed(book, &branch) {
            return Ok("terminate");
        }
    }
    Ok("join")
}

fn has_failed<B: BookCalls>(book: &B, name: &ThreadName) -> bool {
    match frame_of(book, name) {
        Some(frame) => matches!(&frame.phase, Phase::Failed(_)),
        None => false,
    }
}
