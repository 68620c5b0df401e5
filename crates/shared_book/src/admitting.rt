// Whether a log can be the one that a caller has seen.
ghost use Rattle.std.specs.Prelude.{◌≡◌, ◌≢◌, true, false, ◌+◌, ◌<◌, length, vec_len, vec_capacity, IfOk, IfErr, OnOk, MatchResult};
ghost use Rattle.std.specs.Option.{option_copied};
ghost use Rattle.shared_book.specs.Numbers.{IsForeign, IsKnown, entry_at, last_of};
ghost use Rattle.book_log.specs.Legal.{IsLegal};
ghost use Rattle.book_log.specs.declared.refusal.Refusal.TheVariants.{Memory};
ghost use Rattle.shared_book.specs.Calls.{IsNotAdmitted, IsRefusedAt, IsRefusedFor, IsTurnedAway, MaySee};
ghost use Rattle.shared_book.specs.Views.{ExtendsLog};

use crate::copies::copied;
use crate::desk::Desk;
use crate::pass::{Kept, Pass};
use crate::receipt::Receipt;
use crate::refusal::SharedRefusal;
use crate::sharing::Sharing;
use book_events::Events;
use book_log::{Entry, Refusal, equality_is_of_entries};
use std::alloc::AllocError;

/// Where a log isn't the one that a caller has seen: a number, and the entry that stands there.
#[derive(Clone, Copy, Debug)]
pub struct Foreign<'a> {
    pub number: usize,
    pub there: Option<&'a Entry>,
}

/// The entry of a number, if there is one.
fn entry_at(entries: &[Entry], number: usize) -> Option<&Entry>
    ensures { option_copied result ≡ entry_at entries.now number }
{
    if number == 0 {
        return None;
    }
    entries.get(number - 1)
}

/// Whether two entries are one, with all that they hold. Takes no memory.
fn is_same_entry(a: &Entry, b: &Entry) -> bool
    ensures yes { result ≡ true → a.now ≡ b.now }
    ensures not { result ≡ false → a.now ≢ b.now }
{
    equality_is_of_entries();
    a == b
}

/// Whether a log can be the one of which a caller has seen so many entries, and whose last receipt this is. Takes no memory, and
/// compares one entry at most.
///
/// # Errors
///
/// The last receipt's number where another entry stands there, or none; and else `seen` where the log is shorter than that.
pub fn known<'a>(
    entries: &'a [Entry],
    seen: usize,
    last: Option<&Receipt>,
) -> Result<(), Foreign<'a>>
    ensures { MatchResult result
        (λ _. IsKnown entries.now seen (option_copied last.entry))
        (λ f. IsForeign entries.now seen (option_copied last.entry) f.number (option_copied f.there)) }
{
    if let Some(receipt) = last {
        let there = entry_at(entries, receipt.number);
        let Some(entry) = there else {
            return Err(Foreign {
                number: receipt.number,
                there,
            });
        };
        if !is_same_entry(entry, &receipt.entry) {
            return Err(Foreign {
                number: receipt.number,
                there,
            });
        }
    }
    if entries.len() < seen {
        return Err(Foreign {
            number: seen,
            there: entry_at(entries, seen),
        });
    }
    Ok(())
}

impl<B: Events, L: Sharing> Desk<B, L> {
    /// Whether the log is one that a pass can have seen. Answers how many entries it has.
    pub(crate) fn know(&self, pass: &Pass<L>) -> Result<usize, SharedRefusal>
        ensures entries { IfOk result (λ n. n ≡ length self.now.log.entries) }
        ensures may { OnOk result (MaySee L.begun pass.now self.now.log) }
        ensures legal { IsLegal self.now.log }
        ensures err { IfErr result (λ e. IsRefusedFor L.begun pass.now (λ cause. cause ≡ Memory) e × IsRefusedAt self.now.log pass.now (λ cause. cause ≡ Memory) e) }
    {
        let (_, entries) = self.book.entries();
        match known(entries, pass.seen(), pass.receipts().last()) {
            Ok(()) => Ok(entries.len()),
            Err(foreign) => Err(turned_away(foreign)),
        }
    }

    /// Lets a pass make a call, with room for its receipt. Answers the number of the next entry.
    pub(crate) fn admit(&self, kept: &mut Kept<L>) -> Result<usize, SharedRefusal>
        ensures number { IfOk result (λ n. n ≡ length self.now.log.entries + 1) }
        ensures goes { ExtendsLog L.begun self.now.log }
        ensures legal { IsLegal self.now.log }
        ensures known { OnOk result (IsKnown self.now.log.entries kept.old.seen (last_of kept.old.receipts.items)) }
        ensures room { OnOk result (vec_len kept.new.receipts < vec_capacity kept.new.receipts) }
        ensures items { kept.new.receipts.items ≡ kept.old.receipts.items }
        ensures same { (kept.new.seen ≡ kept.old.seen) × (kept.new.parts ≡ kept.old.parts) × (kept.new.share ≡ kept.old.share) }
        ensures err { IfErr result (IsNotAdmitted self.now.log.entries kept.old.seen (last_of kept.old.receipts.items)) }
    {
        let (_, entries) = self.book.entries();
        if let Err(foreign) = known(entries, kept.seen, kept.receipts.last()) {
            return Err(turned_away(foreign));
        }
        kept.receipts.reserve(1)?;
        Ok(entries.len() + 1)
    }
}

/// The refusal of a foreign pass. Takes memory for a copy of the entry that stands there.
pub(crate) fn turned_away(foreign: Foreign<'_>) -> SharedRefusal
    ensures { IsTurnedAway foreign.entry.number (option_copied foreign.entry.there) result }
{
    match copied(foreign.there) {
        Ok(there) => SharedRefusal::ForeignPass {
            number: foreign.number,
            there,
        },
        Err(AllocError) => SharedRefusal::Refused(Refusal::Memory),
    }
}
