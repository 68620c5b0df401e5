// How many tickets each seat may take, and the memory for their numbers.
ghost use Rattle.std.specs.Prelude.{◌^◌, ◌≡◌, ◌<◌, IfOk, map, vec_len};
ghost use Rattle.step_workers.specs.Seats.{AllRoomy, share_in};
ghost use Rattle.step_workers.specs.Shares.{shares_of};

use std::alloc::{AllocError, Global};

#[derive(Drop)]
pub(crate) struct Allowance {
    pub(crate) share: u32,
    pub(crate) taken: Vec<u64>,
}

/// Shares out the budget as equally as it can be, in the order of the seats: the first ones have one more if it doesn't divide.
pub(crate) fn allowances(
    alloc: Global,
    seats: usize,
    budget: u32,
) -> Result<Vec<Allowance>, AllocError>
    requires { (0 < seats) × (seats < 2 ^ 32) }
    ensures len { IfOk result (λ a. vec_len a ≡ seats) }
    ensures shares { IfOk result (λ a. map share_in a.items ≡ shares_of budget seats) }
    ensures room { IfOk result (λ a. AllRoomy a.items) }
{
    let mut all = Vec::with_capacity(alloc, seats)?;
    let each = budget / seats as u32;
    let remaining = budget % seats as u32;
    for seat in 0..seats {
        let share = if (seat as u32) < remaining {
            each + 1
        } else {
            each
        };
        let taken = Vec::with_capacity(alloc, share as usize)?;
        all.push_reserved(Allowance { share, taken });
    }
    Ok(all)
}
