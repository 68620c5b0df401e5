// The one who gives slips.
ghost use Rattle.std.specs.Prelude.{◌≡◌, ℕ, ◌+◌, ◌<◌, ◌≤◌, [], ◌++◌, IfOk, MatchResult};
ghost use Rattle.slip_queue.specs.Slips.{IsGiver, IsTaker, all_parts, given_of, is_given, is_same, parts_of, taker_numbers, taken_of, times};

use crate::hand::{Adds, Cut, Gives, Hand};
use crate::slips::{Slip, Slips};
use crate::taker::Taker;
use crossbeam_queue::Pass;

/// Gives slips, numbered from 1 on, and afterwards knows what was taken.
#[derive(Drop)]
pub struct Giver<T> {
    pub(crate) pass: Pass<Slip<T>, Hand>,
    pub(crate) last: u64,
}

impl<T: Drop> Giver<T> {
    /// One more who takes slips.
    pub fn taker(&mut self, slips: &Slips<T>) -> Taker<T>
        requires giver { IsGiver slips.now self.old }
        requires part { 1 < parts_of self.old }
        ensures giver { IsGiver slips.now self.new }
        ensures same { (given_of self.new ≡ given_of self.old) × (taken_of self.new ≡ taken_of self.old) }
        ensures parts { parts_of self.new + 1 ≡ parts_of self.old }
        ensures taker { IsTaker slips.now result × (taker_numbers result ≡ []) }
    {
        Taker {
            pass: slips.queue.another::<Cut>(&mut self.pass),
        }
    }

    /// Puts a slip with the next number into the queue, and answers the number. Takes a few steps, no lock and no memory.
    ///
    /// # Errors
    ///
    /// The work, where the queue is full or no number is left.
    pub fn give(&mut self, slips: &Slips<T>, work: Option<T>) -> Result<u64, Option<T>>
        requires giver { IsGiver slips.now self.old }
        ensures giver { IsGiver slips.now self.new }
        ensures same { (parts_of self.new ≡ parts_of self.old) × (taken_of self.new ≡ taken_of self.old) }
        ensures given { MatchResult result (λ n. (n ≡ given_of self.old + 1) × (given_of self.new ≡ n)) (λ back. (back ≡ work) × (given_of self.new ≡ given_of self.old)) }
    {
        let Some(number) = self.last.checked_add(1) else {
            return Err(work);
        };
        match slips
            .queue
            .try_push_as::<Gives>(&mut self.pass, Slip { number, work })
        {
            Ok(()) => {
                self.last = number;
                Ok(number)
            }
            Err(slip) => {
                let Slip { number: _, work } = slip;
                Err(work)
            }
        }
    }

    /// Takes in what a taker knows, who takes no more.
    pub fn absorb(&mut self, slips: &Slips<T>, taker: Taker<T>)
        requires giver { IsGiver slips.now self.old }
        requires taker { IsTaker slips.now taker }
        ensures giver { IsGiver slips.now self.new }
        ensures given { given_of self.new ≡ given_of self.old }
        ensures parts { parts_of self.new ≡ parts_of self.old + 1 }
        ensures taken { taken_of self.new ≡ taken_of self.old ++ taker_numbers taker }
    {
        let Taker { pass } = taker;
        slips.queue.absorb::<Cut>(&mut self.pass, pass);
    }

    /// Once all takers are taken in: no number was taken twice, and none that wasn't given. It does nothing at run time.
    pub fn settle(&mut self, slips: &Slips<T>)
        requires giver { IsGiver slips.now self.old }
        requires whole { parts_of self.old ≡ all_parts }
        ensures giver { IsGiver slips.now self.new }
        ensures same { is_same self.old self.new }
        ensures once { (x : ℕ) → times x (taken_of self.new) ≤ is_given x (given_of self.new) }
    {
        slips.queue.learn_as::<Adds>(&mut self.pass);
    }
}
