//! A step that is taken back in a thread of its own.
ghost use Rattle.std.specs.Prelude.{◌≡◌};
ghost use denote.Param.Send.{IsSend, IsSync};

use book_log::Entry;
use rollback_book::Events;
use shared_book::{Pass, Shared, Sharing};
use std::alloc::Global;
use std::sync::Wait;
use std::sync::ledger::Ledger;
use std::thread;
use std::thread::{JoinHandle, Scope, Threads};
use step_names::StepName;

/// The pass of the other thread, and whether it has undone the start of execution a, as the third entry.
#[derive(Drop)]
pub(crate) struct Undone<L: Ledger> {
    pub(crate) pass: Pass<L>,
    pub(crate) is_undone: bool,
}

/// Whether a pass undoes the start.
fn is_undone<B: Events, L: Sharing, R: Wait>(
    rt: &R,
    alloc: Global,
    shared: &Shared<B, L>,
    pass: &mut Pass<L>,
) -> bool {
    let Ok(step) = StepName::read(alloc, "a#0") else {
        return false;
    };
    match shared.undo(rt, alloc, pass, &step) {
        Ok(receipt) => {
            let is_third = receipt.number == 3 && matches!(&receipt.entry, Entry::Undo { .. });
            drop(receipt);
            is_third
        }
        Err(refusal) => {
            drop(refusal);
            false
        }
    }
}

fn undo<B: Events, L: Sharing, R: Wait>(
    rt: &R,
    alloc: Global,
    shared: &Shared<B, L>,
    pass: Pass<L>,
) -> Undone<L> {
    let mut pass = pass;
    let is_undone = is_undone(rt, alloc, shared, &mut pass);
    Undone { pass, is_undone }
}

/// Starts the thread. If none can be made, nothing is undone.
fn start<'s, E, B, L, R>(
    rt: &'s R,
    alloc: Global,
    scope: &Scope<'s, E>,
    shared: &'s Shared<B, L>,
    pass: Pass<L>,
) -> Result<JoinHandle<Undone<L>>, Undone<L>>
where
    B: Events + Send,
    L: Sharing + Send + Sync,
    R: Threads + Wait + Sync,
{
    match scope.spawn(move || undo(rt, alloc, shared, pass)) {
        Ok(handle) => Ok(handle),
        Err(refused) => {
            let undone = (refused.value)();
            Err(Undone {
                pass: undone.pass,
                is_undone: false,
            })
        }
    }
}

fn run_beside<'s, E, B, L, R>(
    rt: &'s R,
    alloc: Global,
    scope: &Scope<'s, E>,
    shared: &'s Shared<B, L>,
    pass: Pass<L>,
) -> Undone<L>
where
    B: Events + Send,
    L: Sharing + Send + Sync,
    R: Threads + Wait + Sync,
    requires bounds { IsSend B.row × IsSend L.row × IsSync L.row × IsSync R.row }
{
    match start(rt, alloc, scope, shared, pass) {
        Ok(handle) => handle.join(rt),
        Err(undone) => undone,
    }
}

/// Undoes the start of execution a in a thread of its own, and waits for that.
pub(crate) fn undo_beside<B, L, R>(
    rt: &R,
    alloc: Global,
    shared: &Shared<B, L>,
    pass: Pass<L>,
) -> Undone<L>
where
    B: Events + Send,
    L: Sharing + Send + Sync,
    R: Threads + Wait + Sync,
{
    thread::scope(
        thread::scope_env(),
        rt,
        move |scope| -> Undone<L>
            requires { IsSend B.row × IsSend L.row × IsSync L.row × IsSync R.row }
        { run_beside(rt, alloc, scope, shared, pass) },
    )
}
