// What the workers gave, put together.
ghost use Rattle.std.specs.Prelude.{◌≡◌, ◌+◌, ◌<◌, ◌≤◌, ◌^◌, ℕ, [], ◌∷◌, ◌++◌, map, IfOk, vec_capacity, vec_len};
ghost use Rattle.slip_queue.specs.Slips.{IsGiver, all_parts, given_of, is_given, parts_of, taken_of, times};
ghost use Rattle.step_workers.specs.Seats.{AllWell, count_served, pass_served};
ghost use Rattle.step_workers.specs.Rooms.{IsTray};
ghost use Rattle.step_workers.specs.Work.{AreWrittenTaken, all_taken, count_of};

use crate::board::{Board, BoxedTicket};
use crate::dispatching::Dispatcher;
use crate::outcome::{Outcome, Stopped};
use crate::seat::Served;
use shared_book::Pass;
use slip_queue::Giver;
use std::alloc::{AllocError, Global};
use std::sync::ledger::Ledger;

/// Room for what a round gives.
#[derive(Drop)]
pub(crate) struct Tray<L: Ledger> {
    pub(crate) passes: Vec<Pass<L>>,
    pub(crate) stopped: Vec<Stopped>,
    pub(crate) taken: Vec<Vec<u64>>,
}

impl<L: Ledger> Tray<L> {
    pub(crate) fn new(alloc: Global, seats: usize) -> Result<Tray<L>, AllocError>
        requires { seats < 2 ^ 32 }
        ensures { IfOk result (IsTray seats) }
    {
        Ok(Tray {
            passes: Vec::with_capacity(alloc, seats + 1)?,
            stopped: Vec::with_capacity(alloc, seats)?,
            taken: Vec::with_capacity(alloc, seats)?,
        })
    }
}

/// Takes in what each worker knows of the queue, and puts what they gave together.
pub(crate) fn gather<L: Ledger>(
    board: &Board,
    dispatcher: Dispatcher<L>,
    tray: Tray<L>,
) -> Outcome<L>
    requires giver { IsGiver board.now.slips dispatcher.giver }
    requires served { AllWell board.now.slips dispatcher.served.items }
    requires parts { (parts_of dispatcher.giver + vec_len dispatcher.served ≡ all_parts) × (taken_of dispatcher.giver ≡ []) }
    requires tray { IsTray (vec_len dispatcher.served) tray }
    ensures passes { result.passes.items ≡ map pass_served dispatcher.served.items ++ dispatcher.pass ∷ [] }
    ensures lens { (vec_len result.stopped ≡ vec_len dispatcher.served) × (vec_len result.taken ≡ vec_len dispatcher.served) }
    ensures counts { map count_of result.taken.items ≡ map count_served dispatcher.served.items }
    ensures once { (x : ℕ) → times x (all_taken result.taken.items) ≤ is_given x (given_of dispatcher.giver) }
{
    let Dispatcher {
        mut giver,
        pass: mine,
        served,
        refused,
        ..
    } = dispatcher;
    let mut tray = lay_out(board, &mut giver, served, tray);
    tray.passes.push_reserved(mine);
    giver.settle(&board.slips);
    drop(giver);
    let Tray {
        passes,
        stopped,
        taken,
    } = tray;
    Outcome {
        passes,
        stopped,
        taken,
        refused,
    }
}

/// What each worker gave, in their order.
#[tactic(auto, using(crate::proofs::Seated::well_front, crate::proofs::Seated::tray_less))]
fn lay_out<L: Ledger>(
    board: &Board,
    giver: &mut Giver<BoxedTicket>,
    served: Vec<Served<L>>,
    tray: Tray<L>,
) -> Tray<L>
    requires giver { IsGiver board.now.slips giver.old }
    requires served { AllWell board.now.slips served.items }
    requires fresh { taken_of giver.old ≡ [] }
    requires tray { IsTray (vec_len served) tray }
    ensures giver { IsGiver board.now.slips giver.new }
    ensures given { given_of giver.new ≡ given_of giver.old }
    ensures parts { parts_of giver.new ≡ parts_of giver.old + vec_len served }
    ensures written { AreWrittenTaken (all_taken result.taken.items) (taken_of giver.new) }
    ensures passes { result.passes.items ≡ map pass_served served.items }
    ensures counts { map count_of result.taken.items ≡ map count_served served.items }
    ensures lens { (vec_len result.passes ≡ vec_len served) × (vec_len result.stopped ≡ vec_len served) × (vec_len result.taken ≡ vec_len served) }
    ensures room { (vec_capacity result.passes ≡ vec_capacity tray.passes) × (vec_capacity result.stopped ≡ vec_capacity tray.stopped) × (vec_capacity result.taken ≡ vec_capacity tray.taken) }
{
    let mut served = served;
    let Some(
        Served {
            pass,
            taker,
            taken,
            stopped,
        },
    ) = served.pop()
    else {
        return tray;
    };
    let mut tray = lay_out(board, giver, served, tray);
    giver.absorb(&board.slips, taker);
    tray.passes.push_reserved(pass);
    tray.stopped.push_reserved(stopped);
    tray.taken.push_reserved(taken);
    tray
}
