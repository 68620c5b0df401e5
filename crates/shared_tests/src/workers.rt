//! Rounds of workers on a shared book.
ghost use Rattle.std.specs.Prelude.{◌≡◌, ◌<◌, ◌≤◌, IfSome, IsTrue, slice_get, vec_len};

use crate::calls::{PASS, book_with};
use json_tree::{Text, depth, read};
use rollback_book::turns::Phase;
use rollback_book::{Book, Entry};
use shared_book::{CloseFault, PARTS, Pass, Shared, Sharing, close, share};
use std::alloc::{AllocError, Global};
use std::marker::Brand;
use std::sync::Wait;
use std::sync::atomic::{AtomicBool, AtomicU64, Ordering};
use std::sync::ledger::Blank;
use std::test::Fail;
use std::thread;
use std::thread::Threads;
use step_names::{StepName, ThreadName};
use step_workers::{Gate, OpenGate, Outcome, Stopped, work};

/// A fork of two branches of two steps each.
pub(crate) const FORK: &str =
    r#"{"StartAt":"F","States":{"F":{"Type":"Parallel","End":true,"Branches":[
    {"StartAt":"A","States":{"A":{"Type":"Pass","Next":"B"},"B":{"Type":"Pass","End":true}}},
    {"StartAt":"C","States":{"C":{"Type":"Pass","Next":"D"},"D":{"Type":"Pass","End":true}}}]}}}"#;

// ---- a book with executions

fn start(alloc: Global, book: &mut Book, exec: &str) -> Result<(), Fail> {
    let exec = ThreadName::read(alloc, exec)?;
    let machine = Text::new(alloc, "p")?;
    let input = read(alloc, b"{}")?;
    if !exec.is_execution() || depth(&input) > 127 {
        drop(input);
        return Err("no execution".into());
    }
    drop(book.start(alloc, &exec, &machine, input)?);
    Ok(())
}

fn start_all(alloc: Global, book: &mut Book, count: u32) -> Result<(), Fail> {
    for at in 0..count {
        let exec = format!(in alloc; "x{at}")?;
        start(alloc, book, exec.as_str())?;
    }
    Ok(())
}

pub(crate) fn book_of(alloc: Global, machine: &str, count: u32) -> Result<Book, Fail> {
    let mut book = book_with(alloc, machine)?;
    match start_all(alloc, &mut book, count) {
        Ok(()) => Ok(book),
        Err(fail) => {
            drop(book);
            Err(fail)
        }
    }
}

fn are_done(alloc: Global, book: &Book, count: u32) -> Result<bool, Fail> {
    for at in 0..count {
        let exec = format!(in alloc; "x{at}")?;
        let thread = ThreadName::read(alloc, exec.as_str())?;
        let frame = book.show(&thread)?;
        if !matches!(frame.phase, Phase::Done(_)) {
            return Ok(false);
        }
    }
    Ok(true)
}

// ---- a round

/// What is left of a round once its book is closed: the book, how many entries the log has, how many seats stopped for their budget,
/// and how many tickets were taken.
#[derive(Drop)]
pub(crate) struct Round {
    book: Book,
    budgets: usize,
    taken: usize,
}

pub(crate) fn seats_of<L: Sharing>(
    alloc: Global,
    first: Pass<L>,
    workers: usize,
) -> Result<Vec<Pass<L>>, Fail> {
    let mut passes = Vec::new(alloc);
    let mut first = first;
    if passes.reserve(workers).is_err() {
        return Err(AllocError.into());
    }
    for _ in 1..workers {
        let Some(pass) = first.seat() else {
            return Err("no seat".into());
        };
        passes.push(pass)?;
    }
    passes.push(first)?;
    Ok(passes)
}

/// Whether a round may have these passes.
pub(crate) fn can_work<L: Sharing>(passes: &Vec<Pass<L>>) -> bool
    ensures some { IsTrue result → (0 < vec_len passes.now) × (vec_len passes.now ≤ 8) }
    ensures seat { IsTrue result → IfSome (slice_get passes.now.items 0) (λ p. 2 ≤ p.parts) }
{
    match passes.first() {
        Some(first) => passes.len() <= 8 && first.can_seat(),
        None => false,
    }
}

pub(crate) fn run<L: Sharing + Send + Sync, G: Gate + Sync, R: Threads + Wait + Sync>(
    rt: &R,
    alloc: Global,
    blank: Blank,
    book: Book,
    workers: usize,
    budget: u32,
    gate: &G,
) -> Result<Round, Fail>
    requires { (blank.name ≡ L.name) × (blank.parts ≡ L.parts) × (L.parts ≡ PARTS) × (book.log ≡ L.begun) }
{
    let (shared, first) = share::<Book, L>(alloc, blank, book);
    let passes = seats_of(alloc, first, workers)?;
    if !can_work(&passes) {
        return Err("no seats".into());
    }
    let Ok(outcome) = work(rt, alloc, &shared, passes, budget, gate) else {
        return Err(AllocError.into());
    };
    let Outcome {
        passes,
        stopped,
        taken,
        refused,
    } = outcome;
    drop(refused);
    let mut budgets: usize = 0;
    for why in &stopped {
        if matches!(why, Stopped::Budget) {
            budgets = budgets.saturating_add(1);
        }
    }
    let mut numbers: usize = 0;
    for list in &taken {
        numbers = numbers.saturating_add(list.len());
    }
    match close(alloc, shared, passes) {
        Ok(book) => Ok(Round {
            book,
            budgets,
            taken: numbers,
        }),
        Err(refusal) => {
            let is_short = matches!(&refusal.reason, CloseFault::Memory);
            drop(refusal);
            if is_short {
                return Err(AllocError.into());
            }
            Err("the book isn't closed".into())
        }
    }
}

/// How many entries the log has then, whether all executions are done, how many seats stopped for their budget, and how many tickets
/// were taken.
pub(crate) fn told(
    alloc: Global,
    round: Round,
    count: u32,
) -> Result<(usize, bool, usize, usize), Fail> {
    let Round {
        book,
        budgets,
        taken,
    } = round;
    let entries = book.entries().1.len();
    let done = are_done(alloc, &book, count);
    drop(book);
    Ok((entries, done?, budgets, taken))
}

// ---- rows

/// Holds one seat before its commit until the other one has committed, for so many turns at most, and counts the calls.
#[derive(Drop)]
pub(crate) struct Overlap {
    held: u32,
    has_committed: AtomicBool,
    is_missed: AtomicBool,
    before: AtomicU64,
    before_held: AtomicU64,
    after: AtomicU64,
}

/// How often a gate was called: before and after commits, and before those of the seat that it held.
#[derive(Clone, Copy, Debug, PartialEq, Eq)]
pub(crate) struct GateCalls {
    pub(crate) before: u64,
    pub(crate) before_held: u64,
    pub(crate) after: u64,
}

impl Overlap {
    pub(crate) fn new(held: u32) -> Overlap {
        Overlap {
            held,
            has_committed: AtomicBool::new(false),
            is_missed: AtomicBool::new(false),
            before: AtomicU64::new(0),
            before_held: AtomicU64::new(0),
            after: AtomicU64::new(0),
        }
    }

    /// The calls, if the seat that was held waited until the other one had committed.
    pub(crate) fn calls(&self) -> Option<GateCalls> {
        if self.is_missed.load(Ordering::SeqCst) {
            return None;
        }
        Some(GateCalls {
            before: self.before.load(Ordering::SeqCst),
            before_held: self.before_held.load(Ordering::SeqCst),
            after: self.after.load(Ordering::SeqCst),
        })
    }
}

const MOST_TURNS: u32 = 1_000_000;

impl Gate for Overlap {
    fn before_commit(&self, seat: u32) {
        self.before.fetch_add(1, Ordering::SeqCst);
        if seat != self.held {
            return;
        }
        self.before_held.fetch_add(1, Ordering::SeqCst);
        for _ in 0..MOST_TURNS {
            if self.has_committed.load(Ordering::SeqCst) {
                return;
            }
            thread::yield_now();
        }
        self.is_missed.store(true, Ordering::SeqCst);
    }

    fn after_commit(&self, seat: u32) {
        self.after.fetch_add(1, Ordering::SeqCst);
        if seat != self.held {
            self.has_committed.store(true, Ordering::SeqCst);
        }
    }
}

/// Two workers of which one commits while the other one has prepared its move. Each calls the gate before its move and behind it.
fn commits_between<R: Threads + Wait + Sync>(
    rt: &R,
    alloc: Global,
    held: u32,
) -> Result<bool, Fail> {
    let gate = Overlap::new(held);
    let book = book_of(alloc, PASS, 2)?;
    let round = run::<Brand, Overlap, R>(rt, alloc, Blank::new(PARTS), book, 2, 2, &gate)?;
    let (entries, done, budgets, taken) = told(alloc, round, 2)?;
    let each_move = Some(GateCalls {
        before: 2,
        before_held: 1,
        after: 2,
    });
    Ok(entries == 5 && done && budgets == 2 && taken == 2 && gate.calls() == each_move)
}

#[test]
fn overlapping_workers(rt: HostRuntime) -> Result<(), Fail> {
    assert!(rt; commits_between(&rt, rt.alloc(), 1)?);
    assert!(rt; commits_between(&rt, rt.alloc(), 2)?);
    Ok(())
}

#[test]
fn workers_on_a_fork(rt: HostRuntime) -> Result<(), Fail> {
    let book = book_of(rt.alloc(), FORK, 1)?;
    let round = run::<Brand, OpenGate, _>(
        &rt,
        rt.alloc(),
        Blank::new(PARTS),
        book,
        2,
        100,
        &OpenGate,
    )?;
    let (entries, done, _, taken) = told(rt.alloc(), round, 1)?;
    assert_eq!(rt; entries, 8);
    assert!(rt; done);
    assert!(rt; taken >= 6);
    Ok(())
}

/// The threads of the steps of a fork and its branches.
const TAKEN: &[&str] = &["x0", "x0/1.0", "x0/1.0", "x0/1.1", "x0/1.1"];

/// Takes the steps of a fork and its branches.
pub(crate) fn step_fork(alloc: Global, book: &mut Book) -> Result<(), Fail> {
    for &thread in TAKEN {
        let thread = ThreadName::read(alloc, thread)?;
        drop(book.step(alloc, &thread)?);
    }
    Ok(())
}

/// Takes the steps of a fork and its branches, holds them all, and starts another execution.
fn hold_fork(alloc: Global, book: &mut Book) -> Result<bool, Fail> {
    step_fork(alloc, book)?;
    let step = StepName::read(alloc, "x0#1")?;
    let count = book.hold(alloc, &step)?;
    start(alloc, book, "x1")?;
    Ok(count == 5)
}

fn held_book(alloc: Global) -> Result<Book, Fail> {
    let mut book = book_of(alloc, FORK, 1)?;
    match hold_fork(alloc, &mut book) {
        Ok(true) => Ok(book),
        Ok(false) => {
            drop(book);
            Err("another number of steps is held".into())
        }
        Err(fail) => {
            drop(book);
            Err(fail)
        }
    }
}

/// The join of the first execution would depend on what is held: its thread is passed by, and the only worker goes on with the other.
#[test]
fn a_worker_passes_by_what_is_held(rt: HostRuntime) -> Result<(), Fail> {
    let book = held_book(rt.alloc())?;
    let round = run::<Brand, OpenGate, _>(
        &rt,
        rt.alloc(),
        Blank::new(PARTS),
        book,
        1,
        100,
        &OpenGate,
    )?;
    let (entries, done, budgets, taken) = told(rt.alloc(), round, 1)?;
    assert_eq!(rt; entries, 15);
    assert!(rt; !done);
    assert_eq!(rt; budgets, 0);
    assert_eq!(rt; taken, 7);
    Ok(())
}

/// A round of two workers.
fn round_of_two<R: Threads + Wait + Sync>(
    rt: &R,
    alloc: Global,
    book: Book,
) -> Result<Round, Fail> {
    run::<Brand, OpenGate, R>(rt, alloc, Blank::new(PARTS), book, 2, 100, &OpenGate)
}

/// A further one.
fn round_more<R: Threads + Wait + Sync>(
    rt: &R,
    alloc: Global,
    round: Round,
) -> Result<Round, Fail> {
    let Round { book, .. } = round;
    round_of_two(rt, alloc, book)
}

/// Whatever request for memory is refused to a worker of the first round, the second one makes the moves that are left. For
/// refused-growths.sh.
#[test]
fn rounds_want_memory(rt: HostRuntime) -> Result<(), Fail> {
    let book = book_of(rt.alloc(), FORK, 1)?;
    let first = round_of_two(&rt, rt.alloc(), book)?;
    let second = round_more(&rt, rt.alloc(), first)?;
    let (entries, done, _, _) = told(rt.alloc(), second, 1)?;
    assert_eq!(rt; entries, 8);
    assert!(rt; done);
    Ok(())
}

#[test]
fn eight_workers_on_64_executions(rt: HostRuntime) -> Result<(), Fail> {
    let book = book_of(rt.alloc(), PASS, 64)?;
    let round = run::<Brand, OpenGate, _>(
        &rt,
        rt.alloc(),
        Blank::new(PARTS),
        book,
        8,
        64,
        &OpenGate,
    )?;
    let (entries, done, budgets, taken) = told(rt.alloc(), round, 64)?;
    assert_eq!(rt; entries, 129);
    assert!(rt; done);
    assert_eq!(rt; budgets, 8);
    assert_eq!(rt; taken, 64);
    Ok(())
}
