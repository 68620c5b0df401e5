// Workers that take back what is left of a hold, each in its thread.
ghost use Rattle.std.specs.Prelude.{◌≡◌, ◌<◌, ◌≤◌, ◌^◌, IfErr, IfOk, None, vec_capacity, vec_len};
ghost use denote.Param.Send.{IsSend, IsSync};
ghost use Rattle.step_workers.specs.Rooms.{IsTray};
ghost use Rattle.step_workers.specs.Undoings.{AllStopped, AllTakeBack, AllTookNone, HasUndone};

use crate::gate::Gate;
use crate::gathering::Tray;
use crate::outcome::Outcome;
use crate::undoing::{Undoer, Undone, undo};
use book_events::Events;
use shared_book::{Pass, Shared, Sharing};
use std::alloc::Global;
use std::snapshot::Snapshot;
use std::sync::Wait;
use std::sync::atomic::{AtomicU64, Ordering};
use std::thread;
use std::thread::{Promise, PromisedHandle, Scope, Threads};

/// What an undoer's thread promises of what it gives.
#[derive(Drop)]
struct Undoes<L: Sharing> {
    undoer: Snapshot<Undoer<L>>,
}

impl<L: Sharing> Promise<Undone<L>> for Undoes<L> {
    ghost use Rattle.step_workers.specs.Undoings.{HasUndone};

    ghost kept_by = { λ p undone. HasUndone L.begun p.undoer.value undone };
}

/// Takes back what is left of a hold, with a thread for each pass, until nothing is left. Each calls `gate.before_commit`,
/// `shared.undo_held` and `gate.after_commit`, with its seat's number from 1 on in the order of the passes, until it is refused
/// (`NoStep` is `Stopped::Idle`) or has made 65,536 undoings (`Stopped::Budget`). One whose thread can't be started undoes nothing, and
/// tells want of memory. All that a round itself needs of memory is taken before the first undoing.
///
/// # Errors
///
/// The passes, where memory for the round is refused; nothing was done then.
pub fn take_back<B, L, G, R>(
    rt: &R,
    alloc: Global,
    shared: &Shared<B, L>,
    passes: Vec<Pass<L>>,
    gate: &G,
) -> Result<Outcome<L>, Vec<Pass<L>>>
where
    B: Events + Send,
    L: Sharing + Send + Sync,
    G: Gate + Sync,
    R: Threads + Wait + Sync,
    requires { (0 < vec_len passes) × (vec_len passes ≤ 8) }
    ensures passes { IfOk result (λ o. AllTakeBack 65536 passes.items o.passes.items) }
    ensures stopped { IfOk result (λ o. AllStopped L.begun passes.items o.passes.items o.stopped.items) }
    ensures lens { IfOk result (λ o. (vec_len o.stopped ≡ vec_len passes) × (vec_len o.taken ≡ vec_len passes)) }
    ensures none { IfOk result (λ o. AllTookNone o.taken.items × (o.refused ≡ None)) }
    ensures err { IfErr result (λ back. back.items ≡ passes.items) }
{
    let Ok(tray) = Tray::new(alloc, passes.len()) else {
        return Err(passes);
    };
    let unstarted = AtomicU64::new(0);
    let Tray {
        passes,
        stopped,
        taken,
    } = undo_all(rt, alloc, shared, &unstarted, gate, passes, tray);
    Ok(Outcome {
        passes,
        stopped,
        taken,
        refused: None,
    })
}

/// As `run_undoers`, in a scope of its own.
fn undo_all<B, L, G, R>(
    rt: &R,
    alloc: Global,
    shared: &Shared<B, L>,
    unstarted: &AtomicU64,
    gate: &G,
    passes: Vec<Pass<L>>,
    tray: Tray<L>,
) -> Tray<L>
where
    B: Events + Send,
    L: Sharing + Send + Sync,
    G: Gate + Sync,
    R: Threads + Wait + Sync,
    requires tray { IsTray (vec_len passes) tray }
    requires few { vec_len passes < 2 ^ 32 }
    ensures passes { AllTakeBack 65536 passes.items result.passes.items }
    ensures stopped { AllStopped L.begun passes.items result.passes.items result.stopped.items }
    ensures lens { (vec_len result.stopped ≡ vec_len passes) × (vec_len result.taken ≡ vec_len passes) }
    ensures none { AllTookNone result.taken.items }
{
    thread::scope(
        thread::scope_env(),
        rt,
        move |scope| -> Tray<L>
            requires { IsSend B.row × IsSend L.row × IsSync L.row × IsSync G.row × IsSync R.row × IsTray (vec_len passes) tray × (vec_len passes < 2 ^ 32) }
            ensures passes { AllTakeBack 65536 passes.items result.passes.items }
            ensures stopped { AllStopped L.begun passes.items result.passes.items result.stopped.items }
            ensures lens { (vec_len result.stopped ≡ vec_len passes) × (vec_len result.taken ≡ vec_len passes) }
            ensures none { AllTookNone result.taken.items }
        { run_undoers(rt, alloc, scope, shared, unstarted, gate, passes, tray) },
    )
}

/// Starts a thread for each pass, and waits for all.
#[tactic(auto, using(crate::proofs::Seated::tray_less, crate::proofs::TakenBack::takes_back_last, crate::proofs::TakenBack::stopped_last, crate::proofs::TakenBack::took_none_last))]
fn run_undoers<'s, E, B, L, G, R>(
    rt: &'s R,
    alloc: Global,
    scope: &Scope<'s, E>,
    shared: &'s Shared<B, L>,
    unstarted: &'s AtomicU64,
    gate: &'s G,
    passes: Vec<Pass<L>>,
    tray: Tray<L>,
) -> Tray<L>
where
    B: Events + Send,
    L: Sharing + Send + Sync,
    G: Gate + Sync,
    R: Threads + Wait + Sync,
    requires bounds { IsSend B.row × IsSend L.row × IsSync L.row × IsSync G.row × IsSync R.row }
    requires tray { IsTray (vec_len passes) tray }
    requires few { vec_len passes < 2 ^ 32 }
    ensures passes { AllTakeBack 65536 passes.items result.passes.items }
    ensures stopped { AllStopped L.begun passes.items result.passes.items result.stopped.items }
    ensures lens { (vec_len result.passes ≡ vec_len passes) × (vec_len result.stopped ≡ vec_len passes) × (vec_len result.taken ≡ vec_len passes) }
    ensures none { AllTookNone result.taken.items }
    ensures room { (vec_capacity result.passes ≡ vec_capacity tray.passes) × (vec_capacity result.stopped ≡ vec_capacity tray.stopped) × (vec_capacity result.taken ≡ vec_capacity tray.taken) }
{
    let mut passes = passes;
    let Some(pass) = passes.pop() else {
        return tray;
    };
    let number = passes.len() as u32 + 1;
    let undoer = Undoer { number, pass };
    let started = start(rt, alloc, scope, shared, unstarted, gate, undoer);
    let mut tray = run_undoers(rt, alloc, scope, shared, unstarted, gate, passes, tray);
    let Undone { pass, stopped } = match started {
        Ok(handle) => handle.join(rt),
        Err(undone) => undone,
    };
    tray.passes.push_reserved(pass);
    tray.stopped.push_reserved(stopped);
    tray.taken.push_reserved(Vec::new(alloc));
    tray
}

/// Starts an undoer's thread. Where none can be made, it ends at once.
#[tactic(auto, using(crate::proofs::Crossing::undoer_send, crate::proofs::Crossing::undone_send))]
fn start<'s, E, B, L, G, R>(
    rt: &'s R,
    alloc: Global,
    scope: &Scope<'s, E>,
    shared: &'s Shared<B, L>,
    unstarted: &'s AtomicU64,
    gate: &'s G,
    undoer: Undoer<L>,
) -> Result<PromisedHandle<Undone<L>, Undoes<L>>, Undone<L>>
where
    B: Events + Send,
    L: Sharing + Send + Sync,
    G: Gate + Sync,
    R: Threads + Wait + Sync,
    ensures ok { IfOk result (λ h. h.promise.undoer.value ≡ undoer) }
    ensures err { IfErr result (HasUndone L.begun undoer) }
{
    let promise = Undoes {
        undoer: Snapshot::of(&undoer),
    };
    let number = undoer.number;
    match scope.spawn_with(
        promise,
        move || undo(rt, alloc, shared, unstarted, gate, undoer),
    ) {
        Ok(handle) => Ok(handle),
        Err(refused) => {
            unstarted.store(number as u64, Ordering::SeqCst);
            let undone = (refused.value)();
            unstarted.store(0, Ordering::SeqCst);
            Err(undone)
        }
    }
}
