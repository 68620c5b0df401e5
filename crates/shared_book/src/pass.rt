// What one caller has seen of the shared log.
ghost use Rattle.std.specs.Prelude.{◌≡◌, ◌≤◌, ◌↔◌, length, IfSome, IfNone, IsSome, nat_le};
ghost use Rattle.shared_book.specs.Views.{first_half, second_half};

use crate::receipt::Receipt;
use std::marker::Model;
use std::sync::ledger::{Ledger, Share};

/// How many entries a caller has seen, the receipts of its calls, and its part of the right to call. Contracts see these three. A pass
/// that is dropped takes its receipts with it, so the book can't be closed then.
#[derive(Drop)]
pub struct Pass<L: Ledger> {
    pub(crate) kept: Kept<L>,
}

#[derive(Drop)]
pub(crate) struct Kept<L: Ledger> {
    pub(crate) seen: usize,
    pub(crate) receipts: Vec<Receipt>,
    pub(crate) parts: u64,
    /// Of so many parts; its amount is the number of the receipts.
    pub(crate) share: Share<L>,
}

impl<L: Ledger> Model for Pass<L> {
    ghost use Rattle.std.specs.Prelude.{◌≡◌, ◌<◌, length};
    ghost use Rattle.std.specs.Coded.{codes};
    ghost use Rattle.shared_book.specs.Views.{PassView};
    ghost use Rattle.shared_book.specs.contracts.receipt.Receipt as receipt_row;

    ghost Value = { PassView };

    ghost coded = { Prim.hlevel (codes, receipt_row.the_row.coded) };

    ghost view = { λ p. record { seen = p.kept.seen; receipts = p.kept.receipts.items; parts = p.kept.parts } };

    ghost invariant = { λ p. (0 < p.kept.parts) × (p.kept.share.parts ≡ p.kept.parts) × (p.kept.share.amount ≡ length p.kept.receipts.items) };
}

impl<L: Ledger> Pass<L> {
    /// Whether another pass can be made of this one.
    pub fn can_seat(&self) -> bool
        ensures { result ≡ nat_le 2 self.now.parts }
    {
        self.kept.parts >= 2
    }

    /// A pass for another caller, which has seen as much, has no receipts and takes half of this one's parts. None where one part is
    /// left. Takes no memory.
    pub fn seat(&mut self) -> Option<Pass<L>>
        ensures can { IsSome result ↔ (2 ≤ self.old.parts) }
        ensures seated { IfSome result (λ p. (p ≡ second_half self.old) × (self.new ≡ first_half self.old)) }
        ensures none { IfNone result (self.new ≡ self.old) }
    {
        let kept = &mut self.kept;
        if kept.parts < 2 {
            return None;
        }
        let half = kept.parts / 2;
        let share = kept.share.split_off(half, 0);
        kept.parts -= half;
        Some(Pass {
            kept: Kept {
                seen: kept.seen,
                receipts: Vec::new(*kept.receipts.allocator()),
                parts: half,
                share,
            },
        })
    }

    /// The receipts, in the order of their calls.
    pub fn receipts(&self) -> &[Receipt]
        ensures { result.now ≡ self.now.receipts }
    {
        self.kept.receipts.as_slice()
    }

    /// How many entries were seen.
    pub fn seen(&self) -> usize
        ensures { result ≡ self.now.seen }
    {
        self.kept.seen
    }

    /// Its share, whose amount is the number of its receipts.
    pub(crate) fn into_share(self) -> Share<L>
        ensures { result.amount ≡ length self.receipts }
    {
        self.kept.share
    }
}
