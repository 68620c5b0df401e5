// One move of a worker.
ghost use Rattle.std.specs.Prelude.{◌≡◌};
ghost use Rattle.step_workers.specs.Work.{PassGoesOn};

use crate::gate::Gate;
use book_events::turns::{Phase, Prepared, prepare};
use book_events::{Events, Ticket};
use book_log::Refusal;
use shared_book::{Pass, Receipt, Shared, SharedCommitRefusal, SharedRefusal, Sharing};
use std::alloc::Global;
use std::sync::Wait;

/// Takes the move of a ticket's thread, and ends its claim. A move that another made, or made impossible, is no refusal, nor is one
/// that a hold keeps back: its thread is passed by then.
pub(crate) fn take_move<B: Events, L: Sharing, G: Gate>(
    rt: &impl Wait,
    alloc: Global,
    shared: &Shared<B, L>,
    gate: &G,
    seat: u32,
    pass: &mut Pass<L>,
    ticket: Ticket,
) -> Result<(), SharedRefusal>
    ensures { PassGoesOn 1 pass.old pass.new }
{
    match ticket.frame().phase {
        Phase::Ready => {
            let Ok(prepared) = prepare(alloc, ticket.machine(), ticket.frame()) else {
                shared.give_back(rt, ticket);
                return Err(SharedRefusal::Refused(Refusal::Memory));
            };
            gate.before_commit(seat);
            let answer = commit(rt, alloc, shared, pass, ticket, prepared);
            gate.after_commit(seat);
            answer
        }
        _ => {
            gate.before_commit(seat);
            let answer = join(rt, alloc, shared, pass, ticket);
            gate.after_commit(seat);
            answer
        }
    }
}

/// Commits what was prepared.
fn commit<B: Events, L: Sharing>(
    rt: &impl Wait,
    alloc: Global,
    shared: &Shared<B, L>,
    pass: &mut Pass<L>,
    ticket: Ticket,
    prepared: Prepared,
) -> Result<(), SharedRefusal>
    ensures { PassGoesOn 1 pass.old pass.new }
{
    match shared.commit(rt, alloc, pass, ticket, prepared) {
        Ok(receipt) => {
            drop(receipt);
            Ok(())
        }
        Err(SharedCommitRefusal::Refused(refusal)) => unless_in_the_way(refusal),
        // stale, or held back
        Err(refusal) => {
            drop(refusal);
            Ok(())
        }
    }
}

/// Takes the step of a thread that waits for its branches, under the lock.
fn join<B: Events, L: Sharing>(
    rt: &impl Wait,
    alloc: Global,
    shared: &Shared<B, L>,
    pass: &mut Pass<L>,
    ticket: Ticket,
) -> Result<(), SharedRefusal>
    ensures { PassGoesOn 1 pass.old pass.new }
{
    let answer = shared.step(rt, alloc, pass, ticket.thread());
    shared.give_back(rt, ticket);
    match answer {
        Ok(receipt) => {
            drop(receipt);
            Ok(())
        }
        Err(refusal) => unless_in_the_way(refusal),
    }
}

/// A thread that is gone or has no move now was overtaken, and one that is held back is passed by, which is no refusal of the worker.
fn unless_in_the_way(refusal: SharedRefusal) -> Result<(), SharedRefusal> {
    match refusal {
        SharedRefusal::Refused(Refusal::NoThread | Refusal::NotReady(_)) => Ok(()),
        SharedRefusal::Refused(Refusal::Held(_)) => Ok(()),
        refusal => Err(refusal),
    }
}
