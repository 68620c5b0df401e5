// The world as it was before a step.
ghost use Rattle.std.specs.Prelude.{◌≡◌, if◌then◌else◌};
ghost use Rattle.attr_values.specs.declared.key.Key.{Key};
ghost use Rattle.item_store.specs.Store.{stored_items};
ghost use Rattle.saved_steps.specs.Made.{KeepsStore};
ghost use Rattle.saved_steps.specs.Steps.{is_write_of};
ghost use Rattle.saved_steps.specs.Undoing.{CanUndo, IsSlotOf, IsUndone};

use crate::fact::{Access, Fact};
use crate::record::{Saved, StepRecord};
use crate::world::World;
use asl_forward::Frame;
use attr_values::Item;
use branch_tree::Branch;
use item_store::{AccessMode, ItemStore, SlotNo};

/// Puts the item back that a write found.
fn give_item_back(items: &mut ItemStore, access: &Option<Access>, slot: SlotNo, old: Option<Item>)
    requires { IsSlotOf items.old access.now slot }
    ensures items { (key : Key) → stored_items items.new key ≡ (if is_write_of access.now key then old else stored_items items.old key) }
    ensures store { KeepsStore items.old items.new }
{
    match access {
        Some(access) => match access.mode {
            AccessMode::Write => drop(items.swap(slot, old)),
            AccessMode::Read => {}
        },
        None => {}
    }
}

impl World {
    /// Undoes a step, where the world is at the step's places as the step left it. What the record saved is moved back. Takes
    /// no memory.
    pub fn undo(&mut self, step: StepRecord)
        requires { CanUndo self.old step }
        ensures { IsUndone self.old step self.new }
    {
        let StepRecord { fact, saved } = step;
        match saved {
            Saved::Started => self.undo_start(&fact),
            Saved::Framed(frame) => self.undo_plain(&fact, frame),
            Saved::Called { frame, slot, old } => self.undo_call(&fact, frame, slot, old),
            Saved::Forked(frame) => self.undo_fork(&fact, frame),
            Saved::Closed { frame, kids } => self.undo_close(&fact, frame, kids),
        }
    }

    fn undo_start(&mut self, fact: &Fact)
        requires { CanUndo self.old (record { fact = fact.now; saved = Saved.Started }) }
        ensures { IsUndone self.old (record { fact = fact.now; saved = Saved.Started }) self.new }
    {
        let there = self.frame(&fact.name.thread).is_some();
        prove!(there);
        self.executions.remove_tree(fact.name.thread.exec());
    }

    fn undo_plain(&mut self, fact: &Fact, frame: Frame)
        requires { CanUndo self.old (record { fact = fact.now; saved = Saved.Framed frame }) }
        ensures { IsUndone self.old (record { fact = fact.now; saved = Saved.Framed frame }) self.new }
    {
        let left = self.executions.replace(&fact.name.thread, frame);
        drop(left);
    }

    fn undo_call(&mut self, fact: &Fact, frame: Frame, slot: SlotNo, old: Option<Item>)
        requires { CanUndo self.old (record { fact = fact.now; saved = Saved.Called frame slot old }) }
        ensures { IsUndone self.old (record { fact = fact.now; saved = Saved.Called frame slot old }) self.new }
    {
        drop(self.executions.replace(&fact.name.thread, frame));
        give_item_back(&mut self.items, &fact.access, slot, old);
    }

    fn undo_fork(&mut self, fact: &Fact, frame: Frame)
        requires { CanUndo self.old (record { fact = fact.now; saved = Saved.Forked frame }) }
        ensures { IsUndone self.old (record { fact = fact.now; saved = Saved.Forked frame }) self.new }
    {
        drop(self.executions.take(&fact.name.thread, frame));
    }

    fn undo_close(&mut self, fact: &Fact, frame: Frame, kids: Vec<Branch>)
        requires { CanUndo self.old (record { fact = fact.now; saved = Saved.Closed frame kids }) }
        ensures { IsUndone self.old (record { fact = fact.now; saved = Saved.Closed frame kids }) self.new }
    {
        drop(self.executions.give(&fact.name.thread, frame, kids));
    }
}
