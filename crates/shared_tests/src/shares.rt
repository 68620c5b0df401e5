//! How workers share a budget, and what remains of the tickets.
ghost use Rattle.std.specs.Prelude.{◌≡◌};

use crate::calls::PASS;
use crate::workers::{book_of, can_work, seats_of};
use book_log::Refusal;
use rollback_book::Book;
use shared_book::{Offer, PARTS, Pass, Shared, SharedRefusal, Sharing, share};
use std::alloc::{AllocError, Global};
use std::marker::Brand;
use std::sync::Wait;
use std::sync::ledger::Blank;
use std::test::Fail;
use std::thread::Threads;
use step_workers::{OpenGate, Outcome, Stopped, work};

/// The tickets that the seats took, why they stopped, how many moves they made, and how many steps another caller could take then.
#[derive(Drop)]
struct Shares {
    taken: Vec<Vec<u64>>,
    stopped: Vec<Stopped>,
    moves: usize,
    steps: usize,
}

/// Takes a step of each thread that is offered. Then none is claimed any more, or a worker has left a claim.
fn step_all<L: Sharing>(
    rt: &impl Wait,
    alloc: Global,
    shared: &Shared<Book, L>,
    pass: &mut Pass<L>,
) -> Result<usize, Fail> {
    for count in 0..65_536usize {
        match shared.offer(rt, alloc, pass)? {
            Offer::Ticket(ticket) => {
                let answer = shared.step(rt, alloc, pass, ticket.thread());
                shared.give_back(rt, ticket);
                drop(answer?);
            }
            Offer::Busy(_) => return Err("a worker has left a claim".into()),
            Offer::Idle => return Ok(count),
        }
    }
    Err("no end of tickets".into())
}

fn moves_in<L: Sharing>(passes: &Vec<Pass<L>>) -> usize {
    let mut count: usize = 0;
    for pass in passes {
        count = count.saturating_add(pass.receipts().len());
    }
    count
}

fn run<L: Sharing + Send + Sync, R: Threads + Wait + Sync>(
    rt: &R,
    alloc: Global,
    blank: Blank,
    book: Book,
    workers: usize,
    budget: u32,
) -> Result<Shares, Fail>
    requires { (blank.name ≡ L.name) × (blank.parts ≡ L.parts) × (L.parts ≡ PARTS) × (book.log ≡ L.begun) }
{
    let (shared, mut mine) = share::<Book, L>(alloc, blank, book);
    let Some(pass) = mine.seat() else {
        return Err("no seat".into());
    };
    let passes = seats_of(alloc, pass, workers)?;
    if !can_work(&passes) {
        return Err("no seats".into());
    }
    let Ok(outcome) = work(rt, alloc, &shared, passes, budget, &OpenGate) else {
        return Err(AllocError.into());
    };
    let Outcome {
        passes,
        stopped,
        taken,
        refused,
    } = outcome;
    drop(refused);
    let moves = moves_in(&passes);
    let steps = step_all(rt, alloc, &shared, &mut mine)?;
    Ok(Shares {
        taken,
        stopped,
        moves,
        steps,
    })
}

/// How often a number was taken.
fn times(taken: &Vec<Vec<u64>>, wanted: u64) -> usize {
    let mut count: usize = 0;
    for list in taken {
        for &number in list {
            if number == wanted {
                count = count.saturating_add(1);
            }
        }
    }
    count
}

/// Whether the seats took so many tickets, in their order.
fn are_shares(taken: &Vec<Vec<u64>>, shares: &[usize]) -> bool {
    for (i, list) in taken.iter().enumerate() {
        match shares.get(i) {
            Some(&share) if share == list.len() => {}
            _ => return false,
        }
    }
    taken.len() == shares.len()
}

/// A round of so many executions of one step, and how many tickets each seat takes of the budget.
#[derive(Clone, Copy)]
struct Case {
    executions: u32,
    budget: u32,
    shares: &'static [usize],
}

const CASES: &[Case] = &[
    Case {
        executions: 64,
        budget: 10,
        shares: &[3, 3, 2, 2],
    },
    Case {
        executions: 64,
        budget: 15,
        shares: &[5, 5, 5],
    },
    Case {
        executions: 64,
        budget: 2,
        shares: &[1, 1, 0, 0, 0],
    },
    Case {
        executions: 64,
        budget: 64,
        shares: &[8, 8, 8, 8, 8, 8, 8, 8],
    },
];

/// Whether the seats take these shares, the first ones the greater ones, each ticket from the first to the last once; and whether each
/// other thread can be stepped afterwards.
fn is_shared_out<R: Threads + Wait + Sync>(
    rt: &R,
    alloc: Global,
    case: Case,
) -> Result<bool, Fail> {
    let Case {
        executions,
        budget,
        shares,
    } = case;
    let book = book_of(alloc, PASS, executions)?;
    let told = run::<Brand, R>(rt, alloc, Blank::new(PARTS), book, shares.len(), budget)?;
    let mut is_so = are_shares(&told.taken, shares);
    for number in 1..=budget {
        is_so = is_so && times(&told.taken, number as u64) == 1;
    }
    for why in &told.stopped {
        is_so = is_so && matches!(why, Stopped::Budget);
    }
    let left = executions.saturating_sub(budget) as usize;
    Ok(is_so && told.moves == budget as usize && told.steps == left)
}

#[test]
fn shares_of_a_budget(rt: HostRuntime) -> Result<(), Fail> {
    for (i, &case) in CASES.iter().enumerate() {
        assert!(rt; is_shared_out(&rt, rt.alloc(), case)?, "case {i}");
    }
    Ok(())
}

// ---- a worker that is refused memory

/// Whether a worker stopped since it had spent its share, had nothing more to do, or was refused memory.
fn is_explained(why: &Stopped) -> bool {
    match why {
        Stopped::Budget | Stopped::Idle => true,
        Stopped::Refused(refusal) => { matches!(refusal, SharedRefusal::Refused(Refusal::Memory)) }
    }
}

/// Whatever request for memory is refused to a worker, it tells so, and gives the claim of its ticket back: another caller takes each step
/// that it didn't take. For refused-growths.sh.
#[test]
fn a_refused_worker_gives_its_claim_back(rt: HostRuntime) -> Result<(), Fail> {
    let book = book_of(rt.alloc(), PASS, 3)?;
    let told = run::<Brand, _>(&rt, rt.alloc(), Blank::new(PARTS), book, 1, 2)?;
    for why in &told.stopped {
        assert!(rt; is_explained(why), "{why:?}");
    }
    assert_eq!(rt; told.moves.saturating_add(told.steps), 3);
    Ok(())
}
