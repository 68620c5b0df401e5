// A round of workers.
ghost use Rattle.std.specs.Prelude.{◌^◌, ◌≡◌, ◌+◌, ◌<◌, ◌≤◌, ℕ, IfErr, IfOk, IfSome, map, slice_get, vec_len};
ghost use Rattle.slip_queue.specs.Slips.{is_given, times};
ghost use Rattle.step_workers.specs.Work.{AllGoOn, EachAtMost, all_taken, count_of};
ghost use Rattle.step_workers.specs.Rooms.{HasBoardRoom};
ghost use Rattle.step_workers.specs.Shares.{shares_of};

use crate::allowance::{Allowance, allowances};
use crate::board::{Board, BoxedTicket};
use crate::dispatching::Dispatcher;
use crate::gate::Gate;
use crate::gathering::{Tray, gather};
use crate::outcome::Outcome;
use crate::running::run_all;
use crate::seat::{Seat, Served};
use crate::seating::seat_all;
use book_events::Events;
use shared_book::{Pass, Shared, Sharing};
use slip_queue::{Giver, Slips};
use std::alloc::{AllocError, Global};
use std::sync::Wait;
use std::sync::atomic::AtomicU64;
use std::sync::ledger::Ledger;
use std::thread;
use std::thread::Threads;

/// How many workers a round may have.
pub const MOST_WORKERS: usize = 8;

/// How many tickets may wait in the queue, for each worker. So few threads are claimed at a time, and are looked up fast.
const WAITING_FOR_EACH: usize = 8;

/// The memory of a round.
struct Rooms<L: Ledger> {
    board: Board,
    giver: Giver<BoxedTicket>,
    allowances: Vec<Allowance>,
    seats: Vec<Seat<L>>,
    served: Vec<Served<L>>,
    tray: Tray<L>,
}

impl<L: Ledger> Rooms<L> {
    fn new(alloc: Global, seats: usize, budget: u32) -> Result<Rooms<L>, AllocError>
        requires { (0 < seats) × (seats < 2 ^ 32) }
        ensures { IfOk result (HasBoardRoom seats budget) }
    {
        let (slips, giver) = Slips::open(alloc, seats * WAITING_FOR_EACH)?;
        let board = Board {
            slips,
            unstarted: AtomicU64::new(0),
            resting: AtomicU64::new(0),
        };
        let allowances = allowances(alloc, seats, budget)?;
        Ok(Rooms {
            board,
            giver,
            allowances,
            seats: Vec::with_capacity(alloc, seats)?,
            served: Vec::with_capacity(alloc, seats)?,
            tray: Tray::new(alloc, seats)?,
        })
    }
}

/// Works on a shared book with a thread for each pass, until no thread of the book can move or the budget of moves is spent, which the
/// workers share equally (the first ones have one more where it doesn't divide). A move that was overtaken or that a hold keeps back
/// costs one too.
/// All that a round itself needs of memory is taken before the first move, but for a block for each ticket.
///
/// # Errors
///
/// The passes, where memory for the round is refused; nothing was done then.
pub fn work<B, L, G, R>(
    rt: &R,
    alloc: Global,
    shared: &Shared<B, L>,
    passes: Vec<Pass<L>>,
    budget: u32,
    gate: &G,
) -> Result<Outcome<L>, Vec<Pass<L>>>
where
    B: Events + Send,
    L: Sharing + Send + Sync,
    G: Gate + Sync,
    R: Threads + Wait + Sync,
    requires some { (0 < vec_len passes) × (vec_len passes ≤ 8) }
    requires seat { IfSome (slice_get passes.items 0) (λ p. 2 ≤ p.parts) }
    ensures passes { IfOk result (λ o. AllGoOn budget passes.items o.passes.items) }
    ensures lens { IfOk result (λ o. (vec_len o.stopped ≡ vec_len passes) × (vec_len o.taken ≡ vec_len passes)) }
    ensures few { IfOk result (λ o. EachAtMost (map count_of o.taken.items) (shares_of budget (vec_len passes))) }
    ensures once { IfOk result (λ o. (x : ℕ) → times x (all_taken o.taken.items) ≤ is_given x (budget + vec_len passes)) }
    ensures err { IfErr result (λ back. back.items ≡ passes.items) }
{
    let mut passes = passes;
    let Ok(rooms) = Rooms::new(alloc, passes.len(), budget) else {
        return Err(passes);
    };
    let Rooms {
        board,
        mut giver,
        allowances,
        seats,
        served,
        tray,
    } = rooms;
    let Some(pass) = passes[0].seat() else {
        unreachable!()
    };
    let seats = seat_all(&board, &mut giver, passes, allowances, seats);
    let dispatcher = Dispatcher {
        giver,
        pass,
        tickets: 0,
        workers: 0,
        served,
        refused: None,
    };
    let done = run_all(rt, alloc, shared, &board, gate, seats, dispatcher);
    Ok(gather(&board, done, tray))
}
