//! Steps of drawn rounds that are held, and taken back by one to eight workers.
ghost use Rattle.std.specs.Prelude.{◌≡◌};

use crate::hot::name_of;
use crate::undoings::{idle_in, undoings_in};
use crate::workers::{can_work, seats_of};
use rollback_book::{Book, Entry};
use shared_book::{PARTS, Pass, Shared, Sharing, close, share};
use std::alloc::{AllocError, Global};
use std::marker::Brand;
use std::sync::Wait;
use std::sync::ledger::Blank;
use std::test::Fail;
use std::thread::Threads;
use step_names::StepName;
use step_workers::{OpenGate, Outcome, take_back};

/// The book of which held steps were taken back: how many there were, how many undoings the workers made, and how many of these stopped
/// since nothing was left.
#[derive(Drop)]
struct TakenBack {
    book: Book,
    held: usize,
    undoings: usize,
    idle: usize,
}

/// Holds the first step of an execution, and says how many steps are held; none, where it isn't there.
fn hold_first<L: Sharing>(
    rt: &impl Wait,
    alloc: Global,
    shared: &Shared<Book, L>,
    pass: &mut Pass<L>,
    execution: u32,
) -> Result<usize, Fail> {
    let thread = name_of(alloc, execution, 0)?;
    let step = StepName { thread, no: 1 };
    let count = match shared.hold(rt, alloc, pass, &step) {
        Ok(receipt) => match &receipt.entry {
            Entry::Hold { count, .. } => *count,
            _ => 0,
        },
        Err(refusal) => {
            drop(refusal);
            0
        }
    };
    drop(step);
    Ok(count)
}

fn run<L: Sharing + Send + Sync, R: Threads + Wait + Sync>(
    rt: &R,
    alloc: Global,
    blank: Blank,
    book: Book,
    execution: u32,
    workers: usize,
) -> Result<TakenBack, Fail>
    requires { (blank.name ≡ L.name) × (blank.parts ≡ L.parts) × (L.parts ≡ PARTS) × (book.log ≡ L.begun) }
{
    let (shared, mut mine) = share::<Book, L>(alloc, blank, book);
    let held = hold_first(rt, alloc, &shared, &mut mine, execution)?;
    let Some(pass) = mine.seat() else {
        return Err("no seat".into());
    };
    let passes = seats_of(alloc, pass, workers)?;
    if !can_work(&passes) {
        return Err("no seats".into());
    }
    let Ok(outcome) = take_back(rt, alloc, &shared, passes, &OpenGate) else {
        return Err(AllocError.into());
    };
    let Outcome {
        passes,
        stopped,
        taken,
        refused,
    } = outcome;
    drop(taken);
    drop(refused);
    let undoings = undoings_in(&passes);
    let idle = idle_in(&stopped);
    let mut passes = passes;
    if passes.push(mine).is_err() {
        return Err(AllocError.into());
    }
    match close(alloc, shared, passes) {
        Ok(book) => Ok(TakenBack {
            book,
            held,
            undoings,
            idle,
        }),
        Err(refusal) => {
            drop(refusal);
            Err("the book isn't closed".into())
        }
    }
}

/// The book after the first step of an execution, and all that depends on it, was held and taken back by so many workers, each of which
/// stops since nothing is left; and how many steps these were.
pub(crate) fn without_first<R: Threads + Wait + Sync>(
    rt: &R,
    alloc: Global,
    book: Book,
    execution: u32,
    workers: usize,
) -> Result<(Book, usize), Fail> {
    let TakenBack {
        book,
        held,
        undoings,
        idle,
    } = run::<Brand, R>(rt, alloc, Blank::new(PARTS), book, execution, workers)?;
    if undoings != held || idle != workers {
        drop(book);
        return Err("another number of steps is taken back".into());
    }
    Ok((book, undoings))
}
