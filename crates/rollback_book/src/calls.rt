// The calls of a book that one caller has, as `Book` has them.
ghost use Rattle.item_store.specs.Store.{slot_key};
ghost use Rattle.step_history.specs.History.{history_items};
ghost use Rattle.rollback_book.specs.Making.{CanEnter};

use crate::book::Book;
use crate::making::Made;
use attr_values::{Item, ItemFault};
use book_events::{BookCalls, Change};
use book_log::{Begin, Entry, Refusal};
use item_store::{Items, SlotNo};
use std::alloc::Global;
use step_history::StepRecords;

impl BookCalls for Book {
    type Made = Made;

    ghost entry_in = { λ m. m.entry };

    ghost can_enter = { CanEnter };

    ghost key_in = { λ b slot. slot_key (history_items b.history) slot };

    fn open(alloc: Global, begin: Begin) -> Result<Book, ItemFault> {
        Book::open(alloc, begin)
    }

    fn ready_entry(&mut self, alloc: Global, change: Change<'_>) -> Result<Made, Refusal> {
        Book::ready_entry(self, alloc, change)
    }

    fn enter(&mut self, made: Made) {
        Book::enter(self, made)
    }

    fn entry_of(made: &Made) -> &Entry {
        made.entry()
    }

    fn items(&self) -> Items<'_> {
        Book::items(self)
    }

    fn item_in(&self, slot: SlotNo) -> Option<&Item> {
        Book::item_in(self, slot)
    }

    fn history(&self) -> &StepRecords {
        Book::history(self)
    }
}
