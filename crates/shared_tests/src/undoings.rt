//! Rounds of workers that take back what is left of a hold.
ghost use Rattle.std.specs.Prelude.{◌≡◌};

use crate::calls::{Act, is_told};
use crate::workers::{FORK, Overlap, book_of, can_work, seats_of, step_fork};
use rollback_book::{Book, Entry};
use shared_book::{PARTS, Pass, Shared, Sharing, close, share};
use std::alloc::{AllocError, Global};
use std::marker::Brand;
use std::sync::Wait;
use std::sync::ledger::Blank;
use std::test::Fail;
use std::thread::Threads;
use step_workers::{Gate, Outcome, Stopped, take_back};

/// How many receipts of undoings the workers have, how many of them stopped since nothing was left, how many steps were left then, and
/// how many entries the closed book has.
#[derive(Clone, Copy)]
struct Told {
    undoings: usize,
    idle: usize,
    left: usize,
    entries: usize,
}

/// Of an execution that has taken its five steps but for the join.
fn stepped_book(alloc: Global) -> Result<Book, Fail> {
    let mut book = book_of(alloc, FORK, 1)?;
    match step_fork(alloc, &mut book) {
        Ok(()) => Ok(book),
        Err(fail) => {
            drop(book);
            Err(fail)
        }
    }
}

pub(crate) fn undoings_in<L: Sharing>(passes: &Vec<Pass<L>>) -> usize {
    let mut count: usize = 0;
    for pass in passes {
        for receipt in pass.receipts() {
            if matches!(&receipt.entry, Entry::Undo { .. }) {
                count = count.saturating_add(1);
            }
        }
    }
    count
}

pub(crate) fn idle_in(stopped: &Vec<Stopped>) -> usize {
    let mut count: usize = 0;
    for why in stopped {
        if matches!(why, Stopped::Idle) {
            count = count.saturating_add(1);
        }
    }
    count
}

/// Holds the five steps, and lets two workers take them back. The pass that held them is none of theirs.
fn run<L: Sharing + Send + Sync, G: Gate + Sync, R: Threads + Wait + Sync>(
    rt: &R,
    alloc: Global,
    blank: Blank,
    book: Book,
    gate: &G,
) -> Result<Told, Fail>
    requires { (blank.name ≡ L.name) × (blank.parts ≡ L.parts) × (L.parts ≡ PARTS) × (book.log ≡ L.begun) }
{
    let (shared, mut mine) = share::<Book, L>(alloc, blank, book);
    let hold = Act::Hold("x0#1");
    if !is_told(rt, alloc, &shared, &mut mine, hold, "8 hold x0#1 of 5")? {
        return Err("another number of steps is held".into());
    }
    let Some(pass) = mine.seat() else {
        return Err("no seat".into());
    };
    let passes = seats_of(alloc, pass, 2)?;
    if !can_work(&passes) {
        return Err("no seats".into());
    }
    match take_back(rt, alloc, &shared, passes, gate) {
        Ok(outcome) => told_of(rt, alloc, shared, mine, outcome),
        Err(passes) => {
            drop(passes);
            Err(AllocError.into())
        }
    }
}

/// What the workers say, and the book once it is closed.
fn told_of<L: Sharing, R: Wait>(
    rt: &R,
    alloc: Global,
    shared: Shared<Book, L>,
    mine: Pass<L>,
    outcome: Outcome<L>,
) -> Result<Told, Fail> {
    let mut mine = mine;
    let Outcome {
        passes,
        stopped,
        taken,
        refused,
    } = outcome;
    drop(taken);
    drop(refused);
    let undoings = undoings_in(&passes);
    let idle = idle_in(&stopped);
    let left = match shared.held_left(rt, &mut mine) {
        Ok(shown) => shown.left,
        Err(refusal) => {
            drop(refusal);
            return Err("nobody tells what is left".into());
        }
    };
    let mut passes = passes;
    if passes.push(mine).is_err() {
        return Err(AllocError.into());
    }
    match close(alloc, shared, passes) {
        Ok(book) => {
            let entries = book.entries().1.len();
            drop(book);
            Ok(Told {
                undoings,
                idle,
                left,
                entries,
            })
        }
        Err(refusal) => {
            drop(refusal);
            Err("the book isn't closed".into())
        }
    }
}

/// Two workers of which one undoes while the other one is about to. Each calls the gate before each undoing and behind it, also before the one
/// that finds nothing left.
fn undoes_between<R: Threads + Wait + Sync>(
    rt: &R,
    alloc: Global,
    held: u32,
) -> Result<bool, Fail> {
    let gate = Overlap::new(held);
    let book = stepped_book(alloc)?;
    let told = run::<Brand, Overlap, R>(rt, alloc, Blank::new(PARTS), book, &gate)?;
    let Some(calls) = gate.calls() else {
        return Ok(false);
    };
    let is_each = calls.before == 7 && calls.after == 7;
    let is_by_both = 0 < calls.before_held && calls.before_held < 7;
    let is_so = told.undoings == 5 && told.idle == 2 && told.left == 0 && told.entries == 13;
    Ok(is_so && is_each && is_by_both)
}

#[test]
fn overlapping_undoings(rt: HostRuntime) -> Result<(), Fail> {
    assert!(rt; undoes_between(&rt, rt.alloc(), 1)?);
    assert!(rt; undoes_between(&rt, rt.alloc(), 2)?);
    Ok(())
}
