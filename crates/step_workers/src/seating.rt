// The seats of a round.
ghost use Rattle.std.specs.Prelude.{◌^◌, ◌≡◌, ◌+◌, ◌<◌, ◌≤◌, [], map, vec_len, vec_capacity};
ghost use Rattle.slip_queue.specs.Slips.{IsGiver, given_of, parts_of, taken_of};
ghost use Rattle.step_workers.specs.Seats.{AllRoomy, AllSeated, pass_of, share_in, share_of};

use crate::allowance::Allowance;
use crate::board::{Board, BoxedTicket};
use crate::seat::Seat;
use shared_book::Pass;
use slip_queue::Giver;
use std::sync::ledger::Ledger;

/// A seat for each pass and its allowance, in their order.
#[tactic(auto, using(crate::proofs::Sums::roomy_front))]
pub(crate) fn seat_all<L: Ledger>(
    board: &Board,
    giver: &mut Giver<BoxedTicket>,
    passes: Vec<Pass<L>>,
    allowances: Vec<Allowance>,
    seats: Vec<Seat<L>>,
) -> Vec<Seat<L>>
    requires giver { IsGiver board.now.slips giver.old }
    requires parts { vec_len passes < parts_of giver.old }
    requires allowances { (vec_len allowances ≡ vec_len passes) × AllRoomy allowances.items }
    requires room { (seats.items ≡ []) × (vec_len passes ≤ vec_capacity seats) }
    requires few { vec_len passes < 2 ^ 32 }
    ensures giver { IsGiver board.now.slips giver.new }
    ensures parts { parts_of giver.new + vec_len passes ≡ parts_of giver.old }
    ensures same { (given_of giver.new ≡ given_of giver.old) × (taken_of giver.new ≡ taken_of giver.old) }
    ensures room { (vec_len result ≡ vec_len passes) × (vec_capacity result ≡ vec_capacity seats) }
    ensures seated { AllSeated board.now.slips result.items }
    ensures passes { map pass_of result.items ≡ passes.items }
    ensures shares { map share_of result.items ≡ map share_in allowances.items }
{
    let mut passes = passes;
    let mut allowances = allowances;
    let Some(pass) = passes.pop() else {
        return seats;
    };
    let Some(Allowance { share, taken }) = allowances.pop() else {
        unreachable!()
    };
    let mut seats = seat_all(board, giver, passes, allowances, seats);
    let number = seats.len() as u32 + 1;
    let taker = giver.taker(&board.slips);
    seats.push_reserved(Seat {
        number,
        share,
        pass,
        taker,
        taken,
    });
    seats
}
