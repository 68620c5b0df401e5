// Taking the book out of the lock, with a receipt for each entry.
ghost use Rattle.std.specs.Prelude.{◌≡◌, ◌+◌, ◌≤◌, length, MatchResult, IfOk, IfErr};
ghost use Rattle.std.specs.Option.{option_copied};
ghost use Rattle.book_log.specs.Legal.{IsLegal};
ghost use Rattle.book_log.specs.Log.{Log};
ghost use Rattle.shared_book.specs.Closed.{AllAreLogged, IsClosed, IsForeignAmong, IsForeignPass, IsForeignReason, IsSettled, IsUnsettled, SomeForeign, all_receipts};
ghost use Rattle.shared_book.specs.Views.{ExtendsLog};

use crate::admitting::{Foreign, known};
use crate::copies::copied;
use crate::desk::{Desk, Side};
use crate::marks::missing;
use crate::pass::Pass;
use crate::receipt::Receipt;
use crate::refusal::CloseFault;
use crate::shared::Shared;
use crate::sharing::Sharing;
use book_events::Events;
use book_log::Entry;
use std::alloc::{AllocError, Global};
use std::sync::Mutex;
use std::sync::ledger::{Book, Ledger, Share};

/// A shared book that could not be closed, with all that was handed in.
#[derive(Drop)]
pub struct CloseRefusal<B: Events, L: Sharing> {
    pub reason: CloseFault,
    pub shared: Shared<B, L>,
    pub passes: Vec<Pass<L>>,
}

/// Takes the book out of the lock, where the passes have a receipt for each entry since it was shared. Its earlier entries stand as
/// they stood then. Takes memory for a mark for each of the entries since, and time linear in these and the receipts.
///
/// # Errors
///
/// `ForeignPass` for the last receipt of a pass, if that isn't of this book, and else for the pass's first that isn't; `Memory`, and
/// `Missing` for the first entry without a receipt, in this order. The shared book and the passes come back.
pub fn close<B: Events, L: Sharing>(
    alloc: Global,
    shared: Shared<B, L>,
    passes: Vec<Pass<L>>,
) -> Result<B, CloseRefusal<B, L>>
    ensures closed { IfOk result (λ b. IsLegal (B.log b) × IsClosed L.begun (B.log b) (all_receipts passes.items)) }
    ensures refused { IfErr result (λ e. (e.passes.items ≡ passes.items) × ((at : Log) × ExtendsLog L.begun at × IsLegal at × IsUnsettled (length L.begun.entries + 1) at.entries passes.items e.reason)) }
{
    let Shared { desk } = shared;
    let desk = desk.into_inner();
    match desk.settle(alloc, passes.as_slice()) {
        Ok(()) => Ok(desk.finish(passes)),
        Err(reason) => Err(CloseRefusal {
            reason,
            shared: Shared {
                desk: Mutex::new(desk),
            },
            passes,
        }),
    }
}

/// Whether each receipt stands in the log.
#[tactic(auto, using(crate::proofs::Counts::stand_more))]
fn among<'a>(entries: &'a [Entry], seen: usize, receipts: &[Receipt]) -> Result<(), Foreign<'a>>
    ensures { MatchResult result (λ _. AllAreLogged entries.now receipts.now) (λ f. IsForeignAmong entries.now seen receipts.now f.number (option_copied f.there)) }
{
    for receipt in receipts {
        known(entries, seen, Some(receipt))?;
    }
    Ok(())
}

/// Whether the receipts of a pass stand in the log: the last one first.
fn is_of<'a, L: Ledger>(entries: &'a [Entry], pass: &Pass<L>) -> Result<(), Foreign<'a>>
    ensures { MatchResult result (λ _. AllAreLogged entries.now pass.now.receipts) (λ f. IsForeignPass entries.now pass.now f.number (option_copied f.there)) }
{
    known(entries, pass.seen(), pass.receipts().last())?;
    among(entries, pass.seen(), pass.receipts())
}

/// Whether the receipts of each pass stand in the log.
#[tactic(auto, using(crate::proofs::Counts::stand_all_more))]
fn all_among<'a, L: Ledger>(entries: &'a [Entry], passes: &[Pass<L>]) -> Result<(), Foreign<'a>>
    ensures { MatchResult result (λ _. AllAreLogged entries.now (all_receipts passes.now)) (λ f. SomeForeign entries.now passes.now f.number (option_copied f.there)) }
{
    for pass in passes {
        is_of(entries, pass)?;
    }
    Ok(())
}

/// As many receipts as the passes have were handed out.
#[tactic(auto, using(crate::proofs::Counts::length_all_more))]
fn gather<L: Ledger>(calls: &mut Book<L>, spare: Share<L>, passes: Vec<Pass<L>>)
    requires { spare.amount ≡ 0 }
    ensures { length (all_receipts passes.items) ≤ calls.old.total }
{
    let mut all = spare;
    let mut passes = passes;
    while let Some(pass) = passes.pop() {
        all.merge(pass.into_share());
    }
    calls.audit(&mut all);
}

/// Why a foreign pass keeps a book from being closed. Takes memory for a copy of the entry that stands there.
fn foreign_reason(foreign: Foreign<'_>) -> CloseFault
    ensures { IsForeignReason foreign.entry.number (option_copied foreign.entry.there) result }
{
    match copied(foreign.there) {
        Ok(there) => CloseFault::ForeignPass {
            number: foreign.number,
            there,
        },
        Err(AllocError) => CloseFault::Memory,
    }
}

impl<B: Events, L: Sharing> Desk<B, L> {
    /// Whether the passes have a receipt for each entry since the book was shared, and none of another book.
    fn settle(&self, alloc: Global, passes: &[Pass<L>]) -> Result<(), CloseFault>
        ensures settled { MatchResult result
            (λ _. IsSettled self.now.log.entries self.now.first passes.now)
            (IsUnsettled self.now.first self.now.log.entries passes.now) }
        ensures first { self.now.first ≡ length L.begun.entries + 1 }
        ensures goes { ExtendsLog L.begun self.now.log }
        ensures legal { IsLegal self.now.log }
    {
        let (_, entries) = self.book.entries();
        if let Err(foreign) = all_among(entries, passes) {
            return Err(foreign_reason(foreign));
        }
        match missing(alloc, passes, self.first, entries.len() + 1) {
            Ok(Some(number)) => Err(CloseFault::Missing { number }),
            Ok(None) => Ok(()),
            Err(AllocError) => Err(CloseFault::Memory),
        }
    }

    /// The book, where the passes have these receipts.
    fn finish(self, passes: Vec<Pass<L>>) -> B
        requires { IsSettled self.log.entries self.first passes.items }
        ensures legal { IsLegal (B.log result) }
        ensures closed { IsClosed L.begun (B.log result) (all_receipts passes.items) }
    {
        let Desk { book, side, .. } = self;
        let Side { calls, spare, .. } = side;
        let mut calls = calls;
        gather(&mut calls, spare, passes);
        let _ = book.entries();
        book
    }
}
