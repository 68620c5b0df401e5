// The one who hands out tickets.
ghost use Rattle.std.specs.Prelude.{◌≡◌, ◌+◌};
ghost use Rattle.slip_queue.specs.Slips.{IsGiver};
ghost use Rattle.step_workers.specs.Work.{PassGoesOn, KeepsGiver};

use crate::board::{Board, BoxedTicket};
use crate::seat::Served;
use book_events::Events;
use book_log::Refusal;
use shared_book::{Offer, Pass, Shared, SharedRefusal, Sharing};
use slip_queue::Giver;
use std::alloc::Global;
use std::sync::Wait;
use std::sync::atomic::Ordering;
use std::sync::ledger::Ledger;
use std::thread;

/// Who hands out tickets, how many at most and to how many workers; and what the workers give when they end.
#[derive(Drop)]
pub(crate) struct Dispatcher<L: Ledger> {
    pub(crate) giver: Giver<BoxedTicket>,
    pub(crate) pass: Pass<L>,
    pub(crate) tickets: u32,
    pub(crate) workers: u32,
    pub(crate) served: Vec<Served<L>>,
    pub(crate) refused: Option<SharedRefusal>,
}

/// Hands out the tickets, until no thread can move and nobody is at work, or until no worker takes a move any more; then a slip without
/// work for each worker. A refusal ends it sooner, and is told.
pub(crate) fn dispatch<B: Events, L: Sharing>(
    rt: &impl Wait,
    alloc: Global,
    shared: &Shared<B, L>,
    board: &Board,
    dispatcher: Dispatcher<L>,
) -> Dispatcher<L>
    requires { IsGiver board.now.slips dispatcher.giver }
    ensures giver { KeepsGiver (dispatcher.tickets + dispatcher.workers) board.now.slips dispatcher.giver result.giver }
    ensures pass { PassGoesOn 0 dispatcher.pass result.pass }
    ensures served { result.served ≡ dispatcher.served }
{
    let Dispatcher {
        mut giver,
        mut pass,
        tickets,
        workers,
        served,
        refused,
    } = dispatcher;
    drop(refused);
    let limits = Limits { tickets, workers };
    let refused = hand_out(rt, alloc, shared, board, &mut giver, &mut pass, limits);
    end_all(rt, board, &mut giver, workers);
    Dispatcher {
        giver,
        pass,
        tickets,
        workers,
        served,
        refused,
    }
}

/// How many tickets are handed out at most, and to how many workers.
#[derive(Drop)]
struct Limits {
    tickets: u32,
    workers: u32,
}

/// The tickets.
fn hand_out<B: Events, L: Sharing>(
    rt: &impl Wait,
    alloc: Global,
    shared: &Shared<B, L>,
    board: &Board,
    giver: &mut Giver<BoxedTicket>,
    pass: &mut Pass<L>,
    limits: Limits,
) -> Option<SharedRefusal>
    requires { IsGiver board.now.slips giver.old }
    ensures giver { KeepsGiver limits.tickets board.now.slips giver.old giver.new }
    ensures pass { PassGoesOn 0 pass.old pass.new }
{
    let mut left = limits.tickets;
    for _ in rt.forever() {
        let resting = board.resting.load(Ordering::SeqCst);
        if left == 0 || resting >= limits.workers as u64 {
            return None;
        }
        match shared.offer(rt, alloc, pass) {
            Ok(Offer::Ticket(ticket)) => match Box::new(alloc, ticket) {
                Ok(ticket) => {
                    give(rt, board, giver, Some(ticket));
                    left -= 1;
                }
                Err(refused) => {
                    shared.give_back(rt, refused.value);
                    return Some(SharedRefusal::Refused(Refusal::Memory));
                }
            },
            Ok(Offer::Busy(_)) => thread::yield_now(),
            Ok(Offer::Idle) => return None,
            Err(refusal) => return Some(refusal),
        }
    }
    unreachable!()
}

/// A slip without work for each worker.
fn end_all(rt: &impl Wait, board: &Board, giver: &mut Giver<BoxedTicket>, workers: u32)
    requires { IsGiver board.now.slips giver.old }
    ensures { KeepsGiver workers board.now.slips giver.old giver.new }
{
    for _worker in 0..workers {
        give(rt, board, giver, None);
    }
}

/// Puts a slip into the queue, and waits while it is full.
fn give(rt: &impl Wait, board: &Board, giver: &mut Giver<BoxedTicket>, work: Option<BoxedTicket>)
    requires { IsGiver board.now.slips giver.old }
    ensures { KeepsGiver 1 board.now.slips giver.old giver.new }
{
    let mut work = work;
    for _ in rt.forever() {
        match giver.give(&board.slips, work) {
            Ok(_) => return,
            Err(back) => {
                work = back;
                thread::yield_now();
            }
        }
    }
    unreachable!()
}
