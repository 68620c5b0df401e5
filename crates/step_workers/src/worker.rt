// One worker.
ghost use Rattle.std.specs.Prelude.{◌≡◌, []};
ghost use Rattle.step_workers.specs.Seats.{HasServed, IsSeated, IsTaking, KeepsSeat, is_more};
ghost use Rattle.step_workers.specs.Work.{PassGoesOn};

use crate::board::{Board, BoxedTicket};
use crate::gate::Gate;
use crate::moving::take_move;
use crate::outcome::Stopped;
use crate::seat::{Seat, Served};
use book_events::Events;
use book_log::Refusal;
use shared_book::{Shared, SharedRefusal, Sharing};
use slip_queue::Slip;
use std::alloc::Global;
use std::sync::Wait;
use std::sync::atomic::Ordering;
use std::thread;

/// Takes tickets and their moves until the seat's share is spent or a slip without work comes. After a refusal it gives tickets back,
/// so that none stays claimed. A seat that couldn't be started takes nothing.
pub(crate) fn serve<B: Events, L: Sharing, G: Gate, R: Wait>(
    rt: &R,
    alloc: Global,
    shared: &Shared<B, L>,
    board: &Board,
    gate: &G,
    seat: Seat<L>,
) -> Served<L>
    requires { IsSeated board.now.slips seat }
    ensures { HasServed board.now.slips seat result }
{
    if board.unstarted.load(Ordering::SeqCst) == seat.number as u64 {
        // Nobody hands out tickets yet, so it waits for none.
        let refusal = SharedRefusal::Refused(Refusal::Memory);
        return ended(seat, Stopped::Refused(refusal));
    }
    let mut seat = seat;
    let stopped = take_all(rt, alloc, shared, board, gate, &mut seat);
    board.resting.fetch_add(1, Ordering::SeqCst);
    if matches!(stopped, Stopped::Refused(_)) {
        hand_back(rt, shared, board, &mut seat);
    }
    ended(seat, stopped)
}

/// What a seat gives when it has ended so.
fn ended<L: Sharing>(seat: Seat<L>, stopped: Stopped) -> Served<L>
    ensures { (result.pass ≡ seat.pass) × (result.taker ≡ seat.taker) × (result.taken ≡ seat.taken) }
{
    let Seat {
        pass,
        taker,
        taken,
        ..
    } = seat;
    Served {
        pass,
        taker,
        taken,
        stopped,
    }
}

/// Takes the moves of tickets, until there are no more for this seat or a call is refused.
fn take_all<B: Events, L: Sharing, G: Gate, R: Wait>(
    rt: &R,
    alloc: Global,
    shared: &Shared<B, L>,
    board: &Board,
    gate: &G,
    seat: &mut Seat<L>,
) -> Stopped
    requires taking { IsTaking board.now.slips seat.old }
    requires none { seat.old.taken.items ≡ [] }
    ensures taking { IsTaking board.now.slips seat.new }
    ensures goes { PassGoesOn seat.old.share seat.old.pass seat.new.pass }
    ensures share { seat.new.share ≡ seat.old.share }
{
    for _ in rt.forever() {
        match next_ticket(rt, board, seat) {
            NextTicket::Ticket(ticket) => {
                let number = seat.number;
                if let Err(refusal) = take_move(
                    rt,
                    alloc,
                    shared,
                    gate,
                    number,
                    &mut seat.pass,
                    Box::into_inner(ticket),
                ) {
                    return Stopped::Refused(refusal);
                }
            }
            NextTicket::Spent => return Stopped::Budget,
            NextTicket::Ended => return Stopped::Idle,
        }
    }
    unreachable!()
}

/// Gives the seat's further tickets back.
fn hand_back<B: Events, L: Sharing>(
    rt: &impl Wait,
    shared: &Shared<B, L>,
    board: &Board,
    seat: &mut Seat<L>,
)
    requires { IsTaking board.now.slips seat.old }
    ensures taking { IsTaking board.now.slips seat.new }
    ensures same { KeepsSeat seat.old seat.new }
{
    for _ in rt.forever() {
        match next_ticket(rt, board, seat) {
            NextTicket::Ticket(ticket) => shared.give_back(rt, Box::into_inner(ticket)),
            NextTicket::Spent | NextTicket::Ended => return,
        }
    }
    unreachable!()
}

/// What comes next for a seat.
#[derive(Drop)]
pub(crate) enum NextTicket {
    Ticket(BoxedTicket),
    /// Its share is spent.
    Spent,
    /// No more tickets are handed out.
    Ended,
}

/// The seat's next ticket. It waits while the queue is empty.
fn next_ticket<L: Sharing>(rt: &impl Wait, board: &Board, seat: &mut Seat<L>) -> NextTicket
    requires { IsTaking board.now.slips seat.old }
    ensures taking { IsTaking board.now.slips seat.new }
    ensures same { KeepsSeat seat.old seat.new }
    ensures more { is_more result seat.old seat.new }
{
    for _ in rt.forever() {
        if seat.taken.len() >= seat.share as usize {
            return NextTicket::Spent;
        }
        match seat.taker.take(&board.slips) {
            None => thread::yield_now(),
            Some(
                Slip {
                    number: _,
                    work: None,
                },
            ) => return NextTicket::Ended,
            Some(
                Slip {
                    number,
                    work: Some(ticket),
                },
            ) => {
                seat.taken.push_reserved(number);
                return NextTicket::Ticket(ticket);
            }
        }
    }
    unreachable!()
}
