// One worker of those that take back what is left of a hold.
ghost use Rattle.std.specs.Prelude.{◌≡◌};
ghost use Rattle.step_workers.specs.Undoings.{HasUndone, IsStopped, TakesBack, stopped_for};

use crate::gate::Gate;
use crate::outcome::Stopped;
use book_events::Events;
use book_log::Refusal;
use shared_book::{Pass, Shared, SharedRefusal, Sharing};
use std::alloc::Global;
use std::sync::Wait;
use std::sync::atomic::{AtomicU64, Ordering};
use std::sync::ledger::Ledger;

/// A worker before it begins.
#[derive(Drop)]
pub(crate) struct Undoer<L: Ledger> {
    /// From 1 on.
    pub(crate) number: u32,
    pub(crate) pass: Pass<L>,
}

/// A worker when it has ended.
#[derive(Drop)]
pub(crate) struct Undone<L: Ledger> {
    pub(crate) pass: Pass<L>,
    pub(crate) stopped: Stopped,
}

/// Undoes until a call is refused or 65,536 were made. `unstarted` has the number of the seat that couldn't be started; that one
/// undoes nothing.
pub(crate) fn undo<B: Events, L: Sharing, G: Gate, R: Wait>(
    rt: &R,
    alloc: Global,
    shared: &Shared<B, L>,
    unstarted: &AtomicU64,
    gate: &G,
    undoer: Undoer<L>,
) -> Undone<L>
    ensures { HasUndone L.begun undoer result }
{
    let Undoer { number, mut pass } = undoer;
    let stopped = if unstarted.load(Ordering::SeqCst) == number as u64 {
        Stopped::Refused(SharedRefusal::Refused(Refusal::Memory))
    } else {
        undo_each(rt, alloc, shared, gate, number, &mut pass)
    };
    Undone { pass, stopped }
}

/// One undoing after the other.
fn undo_each<B: Events, L: Sharing, G: Gate>(
    rt: &impl Wait,
    alloc: Global,
    shared: &Shared<B, L>,
    gate: &G,
    seat: u32,
    pass: &mut Pass<L>,
) -> Stopped
    ensures receipts { TakesBack 65536 pass.old pass.new }
    ensures stopped { IsStopped L.begun pass.old pass.new result }
{
    for _done in 0..65_536u32 {
        gate.before_commit(seat);
        let answer = shared.undo_held(rt, alloc, pass);
        gate.after_commit(seat);
        match answer {
            Ok(receipt) => drop(receipt),
            Err(refusal) => return stopped_by(refusal),
        }
    }
    Stopped::Budget
}

/// That nothing is left is no refusal of the worker.
fn stopped_by(refusal: SharedRefusal) -> Stopped
    ensures { result ≡ stopped_for refusal }
{
    match refusal {
        SharedRefusal::Refused(Refusal::NoStep) => Stopped::Idle,
        refusal => Stopped::Refused(refusal),
    }
}
