// The queue.
ghost use Rattle.std.specs.Prelude.{◌≡◌, ◌<◌, [], IfOk};
ghost use Rattle.slip_queue.specs.Slips.{IsGiver, parts_of, given_of, taken_of};

use crate::giver::Giver;
use crate::hand::{Balance, Hand};
use crossbeam_queue::RuledArrayQueue;
use std::alloc::{AllocError, Global};

/// Of how many parts the right to know the whole has; a taker has one of them, and the giver all others.
pub const PARTS: u64 = 1_024;

/// A number from 1 upward, and work or none.
#[derive(Drop)]
pub struct Slip<T> {
    pub number: u64,
    pub work: Option<T>,
}

/// A bounded queue of slips that threads share by `&`.
#[derive(Drop)]
pub struct Slips<T> {
    pub(crate) queue: RuledArrayQueue<Slip<T>, Hand, Balance>,
}

impl<T: Drop> Slips<T> {
    /// An empty queue with room for so many slips, and the one who gives slips into it. The only call that takes memory.
    pub fn open(alloc: Global, capacity: usize) -> Result<(Slips<T>, Giver<T>), AllocError>
        requires { 0 < capacity }
        ensures giver { IfOk result (λ r. IsGiver r.0 r.1) }
        ensures fresh { IfOk result (λ r. (parts_of r.1 ≡ PARTS) × (given_of r.1 ≡ 0) × (taken_of r.1 ≡ [])) }
    {
        let (queue, pass) = RuledArrayQueue::ruled(alloc, capacity)?;
        Ok((Slips { queue }, Giver { pass, last: 0 }))
    }
}
