// The book: the history of its remaining steps, and the log of what was accepted.
ghost use Rattle.std.specs.Prelude.{◌≡◌, ◌^◌, ◌<◌, ◌⊎◌, [], map, length, option_copied, true, IfOk, IfErr, IsOk, OnOk, MatchResult, Some, None, Ok, Err};
ghost use Rattle.attr_values.specs.declared.key.Key.{Key};
ghost use Rattle.item_store.specs.Listing.{IsListing, items_left};
ghost use Rattle.item_store.specs.Store.{slot_key};
ghost use Rattle.saved_steps.specs.Steps.{name_of};
ghost use Rattle.step_history.specs.History.{AreRecordsOf, history_items};
ghost use Rattle.book_log.specs.Answers.{absent, remains, undo_answer};
ghost use Rattle.book_log.specs.Beginning.{begun_table};
ghost use Rattle.book_log.specs.Legal.{IsLegal};
ghost use Rattle.book_log.specs.Log.{appended, past_of, remaining, world_of};
ghost use Rattle.rollback_book.specs.Book.{IsStepAt, IsMaximalPlace};
ghost use Rattle.book_events.specs.Calls.{IsLogOf, MakesRoom, MakesUndoRoom, PlansRollback, RollsBack, Shows, Undoes};
ghost use Rattle.book_events.specs.Planned.{IsPlanned, WasPlanned};

use crate::hold::Hold;
use crate::lists::{absent_in, names_at};
use crate::machines::Machines;
use crate::room::FreeRoom;
use attr_values::{Item, ItemFault};
use book_events::{PlanRoom, Room};
use book_log::{Begin, Entry, Refusal, StepNames, first_store};
use item_store::{Items, SlotNo};
use std::alloc::{AllocError, Global};
use std::collections::BTreeMap;
use std::marker::Model;
use step_history::turns::Frame;
use step_history::{History, SettledNames};
use step_index::{Looks, StepRecords};
use step_names::{StepName, ThreadName};

/// Executions of state machines over one table, and the steps that were taken and not taken back.
///
/// Contracts see the log: what the book began with, and the log of the commands that it accepted. The remaining steps, and the
/// executions and items that these give when they are run from the start, are functions of the log. Beside it stand the room and
/// the places that commands need, of which only the conditions of `enter` speak.
#[derive(Drop)]
pub struct Book {
    pub(crate) begin: Begin,
    pub(crate) machines: Machines,
    pub(crate) history: History,
    pub(crate) entries: Vec<Entry>,
    pub(crate) settled: SettledNames,
    /// Of a hold that stands, which steps are left.
    pub(crate) held: Option<Hold>,
}

impl Model for Book {
    ghost use Rattle.rollback_book.specs.Book.{BookView, BookInvariant, book_view};
    ghost use Rattle.asl_tree.specs.TreeCode.{definition_code};
    ghost use Rattle.book_log.specs.contracts.begin.Begin as begin_row;
    ghost use Rattle.book_log.specs.contracts.entry.Entry as entry_row;
    ghost use Rattle.step_history.specs.contracts.history.History as history_row;
    ghost use Rattle.rollback_book.specs.contracts.hold.Hold as hold_row;
    ghost use Rattle.std.specs.Coded.{codes};

    ghost Value = { BookView };

    ghost coded = { Prim.hlevel (codes, begin_row.the_row.coded, entry_row.the_row.coded, history_row.the_row.coded, hold_row.the_row.coded, definition_code) };

    ghost view = { λ b. book_view b.begin b.machines b.history b.entries b.settled b.held };

    ghost invariant = { λ b. BookInvariant (book_view b.begin b.machines b.history b.entries b.settled b.held) };
}

impl Book {
    /// A book without machines and executions, over the items of the beginning. Takes memory for each item and its key; a later
    /// item of a key replaces an earlier one.
    ///
    /// # Errors
    ///
    /// The fault of the first item that is none, and `Memory`.
    pub fn open(alloc: Global, begin: Begin) -> Result<Book, ItemFault>
        ensures { MatchResult result
            (λ book. (book.log ≡ record { begin = begin; entries = [] }) × IsOk (begun_table begin))
            (λ e. (e ≡ ItemFault.Memory) ⊎ (begun_table begin ≡ Err e)) }
    {
        match first_store(alloc, &begin) {
            Ok(items) => Ok(Book {
                begin,
                machines: BTreeMap::new(alloc),
                history: History::new(alloc, items),
                entries: Vec::new(alloc),
                settled: SettledNames::new(alloc),
                held: None,
            }),
            Err(fault) => {
                drop(begin);
                Err(fault)
            }
        }
    }

    /// Makes what `undo` of this step needs. Whether there is such a step is not looked at.
    pub fn room(&self, alloc: Global, step: &StepName) -> Result<Room, Refusal>
        ensures { MakesRoom step.now result }
    {
        Ok(Room::new(alloc, step)?)
    }

    /// The same for a step that remains. Of no other out of memory is answered: if memory is refused, the step is looked up.
    ///
    /// # Errors
    ///
    /// `NoStep`, `Settled` and `Memory`.
    pub fn undo_room(&self, alloc: Global, step: &StepName) -> Result<Room, Refusal>
        ensures { MakesUndoRoom self.now.log step.now result }
    {
        match Room::new(alloc, step) {
            Ok(room) => Ok(room),
            Err(AllocError) => Err(self.unroomed(step)),
        }
    }

    /// Whether a step may be undone; where it may, its room with the place at which it was found. Takes no memory; looks at those
    /// remaining steps alone that are near it by their names and keys.
    pub fn can_undo(&self, room: Room) -> Result<FreeRoom, Refusal>
        ensures { MatchResult result
            (λ free. (free.room.step ≡ room.step) × IsMaximalPlace self.now free.room.step free.at)
            (λ e. undo_answer self.now.log room.step ≡ Err e) }
    {
        let Some(at) = self.history.find(&room.step) else {
            let gone = self.absent(&room.step);
            drop(room);
            return Err(gone);
        };
        let Some(dependent) = self.history.first_dependent(at) else {
            return Ok(FreeRoom { room, at });
        };
        let Room { step: _, spare } = room;
        let needing = self.history.records().get(dependent);
        Err(Refusal::HasDependents(spare.step(&needing.fact.name)))
    }

    /// Takes back a step that may be undone, as `can_undo` found, and answers its name: it isn't looked for again. Takes no memory.
    pub fn undo_found(&mut self, free: FreeRoom) -> StepName
        requires { IsMaximalPlace self.old free.room.step free.at }
        ensures name { result ≡ free.room.step }
        ensures log { self.new.log ≡ appended self.old.log (Entry.Undo free.room.step) }
    {
        let FreeRoom { room, at } = free;
        let Room { step, spare } = room;
        let answer = spare.step(&step);
        self.take_back(at, step);
        answer
    }

    /// Takes a step back on which no remaining step depends directly, and answers its name. Takes no memory.
    pub fn undo(&mut self, room: Room) -> Result<StepName, Refusal>
        ensures { Undoes self.old.log self.new.log room.step result }
    {
        let free = self.can_undo(room)?;
        Ok(self.undo_found(free))
    }

    /// Plans the rollback of a step: it and its consequences, the latest first. Takes memory for their names and places. Looks at each of
    /// them, and at those later steps alone that are in a class of one of them; the plan says how many it looked at.
    pub fn plan_room(&self, alloc: Global, step: &StepName) -> Result<PlanRoom, Refusal>
        ensures { PlansRollback self.now.log step.now result }
    {
        let Some(at) = self.history.find(step) else {
            return Err(self.absent(step));
        };
        match self.plan_at(alloc, step, at) {
            Ok(room) => Ok(room),
            Err(AllocError) => Err(Refusal::Memory),
        }
    }

    /// Takes back a step and its consequences, and no other step, as they were planned, and answers their names, the latest first.
    /// Takes no memory.
    ///
    /// # Errors
    ///
    /// `Stale` where commands were accepted since the plan was made.
    pub fn rollback(&mut self, room: PlanRoom) -> Result<StepNames, Refusal>
        requires { WasPlanned self.old.log room }
        ensures { RollsBack self.old.log self.new.log room result }
    {
        if self.entries.len() != room.entries {
            return Err(Refusal::Stale(self.entries.len()));
        }
        let PlanRoom {
            step,
            names,
            undone,
            places,
            entries: _,
            looks: _,
        } = room;
        self.take_back_all(step, undone, places);
        Ok(names)
    }

    /// The frame of a thread. Takes no memory, and time logarithmic in the number of executions.
    pub fn show(&self, thread: &ThreadName) -> Result<&Frame, Refusal>
        ensures { Shows self.now.log thread.now result }
    {
        match self.history.frame(thread) {
            Some(frame) => Ok(frame),
            None => Err(Refusal::NoThread),
        }
    }

    /// The items of the table in the order of their keys. Takes no memory.
    pub fn items(&self) -> Items<'_>
        ensures items { IsListing (world_of self.now.log).items (items_left result) }
        ensures fits { length (items_left result) < 2 ^ 63 }
    {
        self.history.items().items()
    }

    /// The item that stands in a slot of the table, if any: the slot of a key as the record of a call has it. Takes no memory.
    pub fn item_in(&self, slot: SlotNo) -> Option<&Item>
        ensures { (key : Key) → slot_key (history_items self.now.history) slot ≡ Some key → option_copied result ≡ (world_of self.now.log).items key }
    {
        let items = self.history.items();
        if items.has_slot(slot) {
            items.look(slot)
        } else {
            None
        }
    }

    /// The remaining steps in the order in which they were taken, each with what its undoing gives back. Takes no memory.
    pub fn history(&self) -> &StepRecords
        ensures names { map (λ r. r.fact.name) result.now.items ≡ map name_of (remaining self.now.log) }
        ensures saved { AreRecordsOf (history_items self.now.history) result.now.items (past_of self.now.log) }
    {
        self.history.records()
    }

    /// What the book began with, and the commands that it accepted, each with its reply. Takes no memory.
    pub fn entries(&self) -> (&Begin, &[Entry])
        ensures { IsLogOf self.now.log result.0.now result.1.now }
    {
        (&self.begin, self.entries.as_slice())
    }

    /// Why a step can't be undone for which there is no room.
    fn unroomed(&self, step: &StepName) -> Refusal
        ensures { ((result ≡ Refusal.Memory) × (remains self.now.log step.now ≡ true)) ⊎ (undo_answer self.now.log step.now ≡ Err result) }
    {
        match self.check_remains(step) {
            Ok(()) => Refusal::Memory,
            Err(gone) => gone,
        }
    }

    /// Refuses a step that doesn't remain. Takes no memory.
    pub(crate) fn check_remains(&self, step: &StepName) -> Result<(), Refusal>
        ensures ok { OnOk result (remains self.now.log step.now ≡ true) }
        ensures err { IfErr result (λ gone. (gone ≡ absent self.now.log step.now) × (undo_answer self.now.log step.now ≡ Err gone)) }
        ensures legal { IsLegal self.now.log }
    {
        let Some(_) = self.history.find(step) else {
            return Err(self.absent(step));
        };
        Ok(())
    }

    /// Why a step that doesn't remain can't be taken back.
    pub(crate) fn absent(&self, name: &StepName) -> Refusal
        ensures { result ≡ absent self.now.log name.now }
    {
        absent_in(&self.settled, name)
    }

    /// The plan of the step at a place.
    fn plan_at(&self, alloc: Global, step: &StepName, at: usize) -> Result<PlanRoom, AllocError>
        requires { IsStepAt self.now step.now at }
        ensures { IfOk result (λ r. (r.step ≡ step.now) × IsPlanned self.now.log r) }
    {
        let mut looks = Looks::new();
        let places = self.history.plan_with_looks(alloc, at, &mut looks)?;
        let names = names_at(alloc, self.history.records(), places.places())?;
        let undone = names.copy()?;
        Ok(PlanRoom {
            step: step.copy()?,
            names,
            undone,
            places,
            entries: self.entries.len(),
            looks: looks.count(),
        })
    }
}
