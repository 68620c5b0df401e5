// The passes of a round.
ghost use Rattle.std.specs.Prelude.{◌≡◌, ◌<◌, ◌≤◌, [], IfSome, slice_get, vec_len, vec_capacity};
ghost use Rattle.book_rounds.specs.Rounds.{AreFresh};

use shared_book::{PARTS, Pass};
use std::sync::ledger::Ledger;

/// So many passes, of one that has all parts and no receipts. Takes no memory.
#[tactic(auto, using(crate::proofs::Seatings::can_seat, crate::proofs::Seatings::seats_begin, crate::proofs::Seatings::seat_more, crate::proofs::Seatings::seats_end))]
pub(crate) fn seats_of<L: Ledger>(
    first: Pass<L>,
    count: usize,
    passes: Vec<Pass<L>>,
) -> Vec<Pass<L>>
    requires whole { (first.receipts ≡ []) × (first.parts ≡ PARTS) }
    requires room { (passes.items ≡ []) × (count ≤ vec_capacity passes) }
    requires few { (1 ≤ count) × (count ≤ 8) }
    ensures len { vec_len result ≡ count }
    ensures parts { IfSome (slice_get result.items 0) (λ p. 2 ≤ p.parts) }
    ensures fresh { AreFresh result.items }
{
    let mut passes = passes;
    let mut first = first;
    let mut left = count - 1;
    while 0 < left {
        let Some(pass) = first.seat() else {
            unreachable!()
        };
        passes.push_reserved(pass);
        left -= 1;
    }
    passes.push_reserved(first);
    passes
}
