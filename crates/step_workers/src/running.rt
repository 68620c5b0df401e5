// All workers, each in its thread.
ghost use Rattle.std.specs.Prelude.{◌≡◌, ◌+◌, ◌≤◌, IfErr, IfOk, vec_len, vec_capacity};
ghost use denote.Param.Send.{IsSend, IsSync};
ghost use Rattle.slip_queue.specs.Slips.{IsGiver};
ghost use Rattle.step_workers.specs.Work.{PassGoesOn, KeepsGiver};
ghost use Rattle.step_workers.specs.Seats.{AllSeated, AllServed, HasServed, IsSeated, seat_shares};

use crate::board::{Board, BoxedTicket};
use crate::dispatching::{Dispatcher, dispatch};
use crate::gate::Gate;
use crate::seat::{Seat, Served};
use crate::worker::serve;
use book_events::Events;
use shared_book::{Shared, Sharing};
use slip_queue::Slips;
use std::alloc::Global;
use std::snapshot::Snapshot;
use std::sync::Wait;
use std::sync::atomic::Ordering;
use std::thread;
use std::thread::{Promise, PromisedHandle, Scope, Threads};

/// What a worker's thread promises of what it gives.
#[derive(Drop)]
pub(crate) struct Serves<L: Sharing> {
    slips: Snapshot<Slips<BoxedTicket>>,
    seat: Snapshot<Seat<L>>,
}

impl<L: Sharing> Promise<Served<L>> for Serves<L> {
    ghost use Rattle.step_workers.specs.Seats.{HasServed};

    ghost kept_by = { λ p served. HasServed p.slips.value p.seat.value served };
}

/// Starts the thread of a seat. Where none can be made, the seat ends at once.
#[tactic(auto, using(crate::proofs::Crossing::board_sync, crate::proofs::Crossing::seat_send, crate::proofs::Crossing::served_send))]
fn start<'s, E, B, L, G, R>(
    rt: &'s R,
    alloc: Global,
    scope: &Scope<'s, E>,
    shared: &'s Shared<B, L>,
    board: &'s Board,
    gate: &'s G,
    seat: Seat<L>,
) -> Result<PromisedHandle<Served<L>, Serves<L>>, Served<L>>
where
    B: Events + Send,
    L: Sharing + Send + Sync,
    G: Gate + Sync,
    R: Threads + Wait + Sync,
    requires { IsSeated board.now.slips seat }
    ensures ok { IfOk result (λ h. (h.promise.slips.value ≡ board.now.slips) × (h.promise.seat.value ≡ seat)) }
    ensures err { IfErr result (HasServed board.now.slips seat) }
{
    let promise = Serves {
        slips: Snapshot::of(&board.slips),
        seat: Snapshot::of(&seat),
    };
    let number = seat.number;
    match scope.spawn_with(promise, move || serve(rt, alloc, shared, board, gate, seat)) {
        Ok(handle) => Ok(handle),
        Err(refused) => {
            board.unstarted.store(number as u64, Ordering::SeqCst);
            let served = (refused.value)();
            board.unstarted.store(0, Ordering::SeqCst);
            Err(served)
        }
    }
}

/// Starts a thread for each seat, hands out tickets here, and waits for all.
#[tactic(auto, using(crate::proofs::Seated::seated_front, crate::proofs::Seated::seated_back, crate::proofs::Seated::served_back))]
pub(crate) fn run_seats<'s, E, B, L, G, R>(
    rt: &'s R,
    alloc: Global,
    scope: &Scope<'s, E>,
    shared: &'s Shared<B, L>,
    board: &'s Board,
    gate: &'s G,
    seats: Vec<Seat<L>>,
    dispatcher: Dispatcher<L>,
) -> Dispatcher<L>
where
    B: Events + Send,
    L: Sharing + Send + Sync,
    G: Gate + Sync,
    R: Threads + Wait + Sync,
    requires bounds { IsSend B.row × IsSend L.row × IsSync L.row × IsSync G.row × IsSync R.row }
    requires giver { IsGiver board.now.slips dispatcher.giver }
    requires seats { AllSeated board.now.slips seats.items }
    requires room { (vec_len dispatcher.served ≡ 0) × (vec_len seats ≤ vec_capacity dispatcher.served) }
    ensures giver { KeepsGiver (dispatcher.tickets + dispatcher.workers + (seat_shares seats.items + vec_len seats)) board.now.slips dispatcher.giver result.giver }
    ensures pass { PassGoesOn 0 dispatcher.pass result.pass }
    ensures served { AllServed board.now.slips seats.items result.served.items }
    ensures room { (vec_len result.served ≡ vec_len seats) × (vec_capacity result.served ≡ vec_capacity dispatcher.served) }
{
    let mut seats = seats;
    let Some(seat) = seats.pop() else {
        return dispatch(rt, alloc, shared, board, dispatcher);
    };
    let share = seat.share;
    match start(rt, alloc, scope, shared, board, gate, seat) {
        Ok(handle) => {
            let with = one_worker_more(dispatcher, share);
            let mut done = run_seats(rt, alloc, scope, shared, board, gate, seats, with);
            let served = handle.join(rt);
            done.served.push_reserved(served);
            done
        }
        Err(served) => {
            let mut done = run_seats(rt, alloc, scope, shared, board, gate, seats, dispatcher);
            done.served.push_reserved(served);
            done
        }
    }
}

/// As `run_seats`, in a scope of its own.
pub(crate) fn run_all<B, L, G, R>(
    rt: &R,
    alloc: Global,
    shared: &Shared<B, L>,
    board: &Board,
    gate: &G,
    seats: Vec<Seat<L>>,
    dispatcher: Dispatcher<L>,
) -> Dispatcher<L>
where
    B: Events + Send,
    L: Sharing + Send + Sync,
    G: Gate + Sync,
    R: Threads + Wait + Sync,
    requires giver { IsGiver board.now.slips dispatcher.giver }
    requires seats { AllSeated board.now.slips seats.items }
    requires room { (vec_len dispatcher.served ≡ 0) × (vec_len seats ≤ vec_capacity dispatcher.served) }
    ensures giver { KeepsGiver (dispatcher.tickets + dispatcher.workers + (seat_shares seats.items + vec_len seats)) board.now.slips dispatcher.giver result.giver }
    ensures pass { PassGoesOn 0 dispatcher.pass result.pass }
    ensures served { AllServed board.now.slips seats.items result.served.items }
    ensures len { vec_len result.served ≡ vec_len seats }
{
    thread::scope(
        thread::scope_env(),
        rt,
        move |scope| -> Dispatcher<L>
            requires { IsSend B.row × IsSend L.row × IsSync L.row × IsSync G.row × IsSync R.row
                × IsGiver board.now.slips dispatcher.giver × AllSeated board.now.slips seats.items × (vec_len dispatcher.served ≡ 0) × (vec_len seats ≤ vec_capacity dispatcher.served) }
            ensures giver { KeepsGiver (dispatcher.tickets + dispatcher.workers + (seat_shares seats.items + vec_len seats)) board.entry.now.slips dispatcher.giver result.giver }
            ensures pass { PassGoesOn 0 dispatcher.pass result.pass }
            ensures served { AllServed board.entry.now.slips seats.items result.served.items }
            ensures len { vec_len result.served ≡ vec_len seats }
        { run_seats(rt, alloc, scope, shared, board, gate, seats, dispatcher) },
    )
}

/// One more to whom tickets are handed out, and how many more.
fn one_worker_more<L: Sharing>(dispatcher: Dispatcher<L>, share: u32) -> Dispatcher<L>
    ensures same { result ≡ record dispatcher { tickets = result.tickets; workers = result.workers } }
    ensures more { (result.tickets ≤ dispatcher.tickets + share) × (result.workers ≤ dispatcher.workers + 1) }
{
    Dispatcher {
        tickets: dispatcher.tickets.saturating_add(share),
        workers: dispatcher.workers.saturating_add(1),
        ..dispatcher
    }
}
