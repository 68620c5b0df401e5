// Those who take slips.
ghost use Rattle.std.specs.Prelude.{◌≡◌, [], ◌∷◌, ◌++◌, MatchOption};
ghost use Rattle.slip_queue.specs.Slips.{IsTaker, taker_numbers};

use crate::hand::{Hand, Takes};
use crate::slips::{Slip, Slips};
use crossbeam_queue::Pass;

/// Takes slips, and knows which it took.
#[derive(Drop)]
pub struct Taker<T> {
    pub(crate) pass: Pass<Slip<T>, Hand>,
}

impl<T: Drop> Taker<T> {
    /// The oldest slip, or none where the queue is empty. Takes a few steps, no lock and no memory.
    pub fn take(&mut self, slips: &Slips<T>) -> Option<Slip<T>>
        requires taker { IsTaker slips.now self.old }
        ensures taker { IsTaker slips.now self.new }
        ensures taken { MatchOption result (taker_numbers self.new ≡ taker_numbers self.old) (λ slip. taker_numbers self.new ≡ taker_numbers self.old ++ slip.number ∷ []) }
    {
        slips.queue.try_pop_as::<Takes>(&mut self.pass)
    }
}
