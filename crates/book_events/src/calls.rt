// The calls of a book that one caller has, who keeps its entries in a journal.
ghost use Rattle.std.specs.Prelude.{◌≡◌, ◌<◌, ◌^◌, ◌⊎◌, [], length, map, option_copied, IfOk, IsOk, MatchResult, Option, Some, Err};
ghost use Rattle.attr_values.specs.declared.key.Key.{Key};
ghost use Rattle.item_store.specs.Listing.{IsListing, items_left};
ghost use Rattle.item_store.specs.declared.slot.SlotNo.{SlotNo};
ghost use Rattle.saved_steps.specs.Steps.{name_of};
ghost use Rattle.book_log.specs.Beginning.{begun_table};
ghost use Rattle.book_log.specs.Legal.{IsAccepted};
ghost use Rattle.book_log.specs.Log.{appended, remaining, world_of};
ghost use Rattle.book_log.specs.declared.entry.Entry.{Entry};
ghost use Rattle.book_events.specs.Answered.{IsCommandAnswered, IsProperChange, entry_by};

use crate::change::Change;
use crate::events::Events;
use attr_values::{Item, ItemFault};
use book_log::{Begin, Entry, Refusal};
use item_store::{Items, SlotNo};
use std::alloc::Global;
use step_history::StepRecords;

/// A book of one caller, as `Book` is one: each command takes one path to its log, by `ready_entry` and `enter`. What is made for a command
/// is of a type of the book's own.
pub trait BookCalls: Events + Drop {
    /// A command for which everything is made.
    type Made: Drop;

    /// The entry that it will be.
    ghost entry_in: { Self.Made → Entry };

    /// Everything is made for the command, and the book is as it was left when this was made.
    ghost can_enter: { Self → Self.Made → Type 0 };

    /// The key whose item a slot of the table has.
    ghost key_in: { Self → SlotNo → Option Key };

    /// As `Book::open`.
    fn open(alloc: Global, begin: Begin) -> Result<Self, ItemFault>
        ensures { MatchResult result
            (λ book. (Self.log book ≡ record { begin = begin; entries = [] }) × IsOk (begun_table begin))
            (λ e. (e ≡ ItemFault.Memory) ⊎ (begun_table begin ≡ Err e)) };

    /// As `Book::ready_entry`.
    fn ready_entry(&mut self, alloc: Global, change: Change<'_>) -> Result<Self::Made, Refusal>
        requires { IsProperChange change }
        ensures answer { IsCommandAnswered (Self.log self.old) change.entry (entry_by entry_in result) }
        ensures accepted { IfOk result (λ made. IsAccepted (Self.log self.old) (entry_in made)) }
        ensures ready { IfOk result (λ made. can_enter self.new made) }
        ensures log { Self.log self.new ≡ Self.log self.old };

    /// As `Book::enter`.
    fn enter(&mut self, made: Self::Made)
        requires { can_enter self.old made }
        ensures { Self.log self.new ≡ appended (Self.log self.old) (entry_in made) };

    /// The entry that a command will be, which holds its reply. Takes no memory.
    fn entry_of(made: &Self::Made) -> &Entry
        ensures { result.now ≡ entry_in made.now };

    /// As `Book::items`.
    fn items(&self) -> Items<'_>
        ensures items { IsListing (world_of (Self.log self.now)).items (items_left result) }
        ensures fits { length (items_left result) < 2 ^ 63 };

    /// As `Book::item_in`.
    fn item_in(&self, slot: SlotNo) -> Option<&Item>
        ensures { (key : Key) → key_in self.now slot ≡ Some key → option_copied result ≡ (world_of (Self.log self.now)).items key };

    /// As `Book::history`.
    fn history(&self) -> &StepRecords
        ensures names { map (λ r. r.fact.name) result.now.items ≡ map name_of (remaining (Self.log self.now)) };
}
