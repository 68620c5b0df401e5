//! Rounds of eight workers beside an operator, and what remains of them.
ghost use Rattle.std.specs.Prelude.{◌≡◌};

use crate::hot::{hot_book, is_entered_again, is_taken_again};
use crate::operator::{Both, Operator, Pace, work_beside};
use crate::taking_back::without_first;
use crate::workers;
use crate::workers::{can_work, seats_of, told};
use rollback_book::{Book, Entry};
use shared_book::{PARTS, Pass, Receipt, Shared, SharedRefusal, Sharing, close, share};
use std::alloc::{AllocError, Global};
use std::marker::Brand;
use std::sync::Wait;
use std::sync::ledger::Blank;
use std::test::Fail;
use std::thread::Threads;
use step_workers::{OpenGate, Outcome, Stopped};

/// A round of so many executions, beside an operator of so many acts.
#[derive(Clone, Copy)]
struct Plan {
    seed: u32,
    executions: u32,
    acts: u32,
    /// How many moves there are for each act.
    pace: u32,
}

/// How many steps the operator undid, alone and of holds, how many rollbacks and holds he made, how many refusals there were that
/// nothing explains, how many of his receipts are of before the workers' last, and how many steps of a hold the workers shared.
#[derive(Clone, Copy, Debug)]
struct Deeds {
    undoings: usize,
    rollbacks: usize,
    holds: usize,
    faults: u32,
    between: usize,
    shared: usize,
}

/// The book of a round that is over, and what the operator did.
#[derive(Drop)]
struct Round {
    book: Book,
    deeds: Deeds,
}

fn last_number<L: Sharing>(passes: &Vec<Pass<L>>) -> usize {
    let mut last: usize = 0;
    for pass in passes {
        if let Some(receipt) = pass.receipts().last() {
            last = last.max(receipt.number);
        }
    }
    last
}

fn deeds_of(receipts: &[Receipt], faults: u32, last: usize) -> Deeds {
    let mut deeds = Deeds { faults, ..NO_DEEDS };
    for receipt in receipts {
        match &receipt.entry {
            Entry::Undo { .. } => deeds.undoings = deeds.undoings.saturating_add(1),
            Entry::Rollback { .. } => deeds.rollbacks = deeds.rollbacks.saturating_add(1),
            Entry::Hold { .. } => deeds.holds = deeds.holds.saturating_add(1),
            _ => {}
        }
        if receipt.number < last {
            deeds.between = deeds.between.saturating_add(1);
        }
    }
    deeds
}

const BUDGET: u32 = 1_000_000;

/// How often a worker, or the one who hands out tickets, was refused a call.
fn refusals_in(stopped: &Vec<Stopped>, refused: &Option<SharedRefusal>) -> u32 {
    let mut count = u32::from(refused.is_some());
    for why in stopped {
        if matches!(why, Stopped::Refused(_)) {
            count = count.saturating_add(1);
        }
    }
    count
}

fn run<L: Sharing + Send + Sync, R: Threads + Wait + Sync>(
    rt: &R,
    alloc: Global,
    blank: Blank,
    book: Book,
    plan: Plan,
) -> Result<Round, Fail>
    requires { (blank.name ≡ L.name) × (blank.parts ≡ L.parts) × (L.parts ≡ PARTS) × (book.log ≡ L.begun) }
{
    let (shared, mut first) = share::<Book, L>(alloc, blank, book);
    let Some(pass) = first.seat() else {
        return Err("no seat".into());
    };
    let operator = Operator {
        pass,
        drawn: plan.seed,
        executions: plan.executions,
        acts: plan.acts,
        pace: plan.pace,
        faults: 0,
    };
    let passes = seats_of(alloc, first, 8)?;
    if !can_work(&passes) {
        return Err("no seats".into());
    }
    let pace = Pace::new();
    let both = work_beside(rt, alloc, &shared, &pace, passes, BUDGET, operator);
    close_all(alloc, shared, both)
}

/// Closes the book by all passes.
fn close_all<L: Sharing>(
    alloc: Global,
    shared: Shared<Book, L>,
    both: Both<L>,
) -> Result<Round, Fail> {
    let Both { worked, operator } = both;
    let Ok(outcome) = worked else {
        return Err(AllocError.into());
    };
    let Outcome {
        passes,
        stopped,
        taken,
        refused,
    } = outcome;
    drop(taken);
    let Operator { pass, faults, .. } = operator;
    let faults = faults.saturating_add(refusals_in(&stopped, &refused));
    let deeds = deeds_of(pass.receipts(), faults, last_number(&passes));
    let mut passes = passes;
    if passes.push(pass).is_err() {
        return Err(AllocError.into());
    }
    match close(alloc, shared, passes) {
        Ok(book) => Ok(Round { book, deeds }),
        Err(refusal) => {
            drop(refusal);
            Err("the book isn't closed".into())
        }
    }
}

/// Whether what remains of a book gives the same when it is taken again, and its log when it is entered again.
fn gives_again(alloc: Global, book: &Book, executions: u32) -> Result<(bool, bool), Fail> {
    let is_taken = is_taken_again(alloc, book, executions)?;
    Ok((is_taken, is_entered_again(alloc, book, executions)?))
}

/// Whether eight workers finish all executions of a book.
fn finishes<R: Threads + Wait + Sync>(
    rt: &R,
    alloc: Global,
    book: Book,
    executions: u32,
) -> Result<bool, Fail> {
    let round = workers::run::<Brand, OpenGate, R>(
        rt,
        alloc,
        Blank::new(PARTS),
        book,
        8,
        BUDGET,
        &OpenGate,
    )?;
    let (_, is_done, _, _) = told(alloc, round, executions)?;
    Ok(is_done)
}

/// The book, where it gives the same again.
fn checked(alloc: Global, book: Book, executions: u32) -> Result<Book, Fail> {
    match gives_again(alloc, &book, executions) {
        Ok((true, true)) => Ok(book),
        Ok(_) => {
            drop(book);
            Err("the book gives something else when it is taken or entered again".into())
        }
        Err(fail) => {
            drop(book);
            Err(fail)
        }
    }
}

/// What the operator did in a round whose book gives the same again, also after one to eight workers took back what was held, and is
/// finished by workers alone.
fn deeds_in<R: Threads + Wait + Sync>(rt: &R, alloc: Global, plan: Plan) -> Result<Deeds, Fail> {
    let book = hot_book(alloc, plan.executions)?;
    let Round { book, deeds } = run::<Brand, R>(rt, alloc, Blank::new(PARTS), book, plan)?;
    let book = checked(alloc, book, plan.executions)?;
    let execution = plan.seed.wrapping_mul(7) % plan.executions.max(1);
    let workers = (plan.seed % 8) as usize + 1;
    let (book, shared) = without_first(rt, alloc, book, execution, workers)?;
    let book = checked(alloc, book, plan.executions)?;
    if !finishes(rt, alloc, book, plan.executions)? {
        return Err("an execution isn't done".into());
    }
    Ok(Deeds { shared, ..deeds })
}

fn sum_of(one: Deeds, other: Deeds) -> Deeds {
    Deeds {
        undoings: one.undoings.saturating_add(other.undoings),
        rollbacks: one.rollbacks.saturating_add(other.rollbacks),
        holds: one.holds.saturating_add(other.holds),
        faults: one.faults.saturating_add(other.faults),
        between: one.between.saturating_add(other.between),
        shared: one.shared.saturating_add(other.shared),
    }
}

/// Whether all kinds of deeds were done, some before the workers' last, and each refusal is explained.
fn are_all_kinds(deeds: Deeds) -> bool {
    let Deeds {
        undoings,
        rollbacks,
        holds,
        faults,
        between,
        shared,
    } = deeds;
    let is_beside = between > 0 && faults == 0;
    undoings > 0 && rollbacks > 0 && holds > 0 && is_beside && shared > 0
}

const NO_DEEDS: Deeds = Deeds {
    undoings: 0,
    rollbacks: 0,
    holds: 0,
    faults: 0,
    between: 0,
    shared: 0,
};

#[test]
fn eight_workers_beside_an_operator(rt: HostRuntime) -> Result<(), Fail> {
    let mut all = NO_DEEDS;
    for seed in 1..=100u32 {
        let plan = Plan {
            seed,
            executions: 64,
            acts: 64,
            pace: 8,
        };
        all = sum_of(all, deeds_in(&rt, rt.alloc(), plan)?);
    }
    assert!(rt; are_all_kinds(all), "{all:?}");
    Ok(())
}

#[test]
fn an_operator_beside_4096_executions(rt: HostRuntime) -> Result<(), Fail> {
    let plan = Plan {
        seed: 5,
        executions: 4_096,
        acts: 256,
        pace: 100,
    };
    let deeds = deeds_in(&rt, rt.alloc(), plan)?;
    assert!(rt; are_all_kinds(deeds), "{deeds:?}");
    Ok(())
}
