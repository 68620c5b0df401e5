// What a step does to the world.
ghost use Rattle.std.specs.Prelude.{◌≡◌, None, Some, if◌then◌else◌};
ghost use Rattle.attr_values.specs.declared.key.Key as keys;
ghost use Rattle.item_store.specs.Store.{stored_items, slot_key};
ghost use Rattle.saved_steps.specs.Saving.{item_written};
ghost use Rattle.saved_steps.specs.Made.{CanApply, KeepsStore, plain_fact};
ghost use Rattle.saved_steps.specs.Steps.{is_write_of};
ghost use Rattle.saved_steps.specs.Undoing.{IsApplied};

use crate::fact::{Access, Fact, Kind};
use crate::made::{Change, Made};
use crate::record::{Saved, StepRecord};
use crate::world::World;
use asl_forward::Frame;
use attr_values::Item;
use branch_tree::{Branch, Tree};
use item_store::{AccessMode, ItemStore, SlotNo};
use step_names::StepName;

/// The record of a step that touches no item.
fn record(name: StepName, bound: u32, kind: Kind, saved: Saved) -> StepRecord
    ensures { result ≡ record { fact = plain_fact name bound kind; saved = saved } }
{
    StepRecord {
        fact: Fact {
            name,
            kind,
            access: None,
            bound,
        },
        saved,
    }
}

/// Puts what a write leaves into the slot of its key, and hands out what a write found.
fn put_item(items: &mut ItemStore, access: &Access, slot: SlotNo, new: Option<Item>) -> Option<Item>
    requires { slot_key items.old slot ≡ Some access.now.key }
    ensures was { result ≡ item_written (stored_items items.old) (Some access.now) }
    ensures items { (key : keys.Key) → stored_items items.new key ≡ (if is_write_of (Some access.now) key then new else stored_items items.old key) }
    ensures store { KeepsStore items.old items.new }
{
    match access.mode {
        AccessMode::Write => items.swap(slot, new),
        AccessMode::Read => None,
    }
}

impl World {
    /// Applies a step that `make` made, where the world is as that left it. What it takes away is moved into the record.
    /// Takes no memory.
    pub fn apply(&mut self, made: Made) -> StepRecord
        requires { CanApply self.old made }
        ensures { IsApplied self.old made self.new result }
    {
        let Made {
            name,
            bound,
            change,
        } = made;
        match change {
            Change::Begin(frame) => self.apply_begin(name, bound, frame),
            Change::Plain(frame) => self.apply_plain(name, bound, frame),
            Change::Call {
                frame,
                access,
                slot,
                new,
            } => self.apply_call(name, bound, frame, access, slot, new),
            Change::Fork(frame, kids) => self.apply_fork(name, bound, frame, kids),
            Change::Join(frame) => self.apply_join(name, bound, frame),
            Change::Terminate(frame) => self.apply_terminate(name, bound, frame),
        }
    }

    fn apply_begin(&mut self, name: StepName, bound: u32, frame: Frame) -> StepRecord
        requires { CanApply self.old (record { name = name; bound = bound; change = Change.Begin frame }) }
        ensures { IsApplied self.old (record { name = name; bound = bound; change = Change.Begin frame }) self.new result }
    {
        let tree = Tree::new(self.alloc, frame);
        self.executions.put_tree(name.thread.exec(), tree);
        record(name, bound, Kind::Start, Saved::Started)
    }

    fn apply_plain(&mut self, name: StepName, bound: u32, frame: Frame) -> StepRecord
        requires { CanApply self.old (record { name = name; bound = bound; change = Change.Plain frame }) }
        ensures { IsApplied self.old (record { name = name; bound = bound; change = Change.Plain frame }) self.new result }
    {
        let before = self.executions.replace(&name.thread, frame);
        record(name, bound, Kind::Plain, Saved::Framed(before))
    }

    fn apply_call(
        &mut self,
        name: StepName,
        bound: u32,
        frame: Frame,
        access: Access,
        slot: SlotNo,
        new: Option<Item>,
    ) -> StepRecord
        requires { CanApply self.old (record { name = name; bound = bound; change = Change.Call frame access slot new }) }
        ensures { IsApplied self.old (record { name = name; bound = bound; change = Change.Call frame access slot new }) self.new result }
    {
        let before = self.executions.replace(&name.thread, frame);
        let old = put_item(&mut self.items, &access, slot, new);
        StepRecord {
            fact: Fact {
                name,
                kind: Kind::Call,
                access: Some(access),
                bound,
            },
            saved: Saved::Called {
                frame: before,
                slot,
                old,
            },
        }
    }

    fn apply_fork(
        &mut self,
        name: StepName,
        bound: u32,
        frame: Frame,
        kids: Vec<Branch>,
    ) -> StepRecord
        requires { CanApply self.old (record { name = name; bound = bound; change = Change.Fork frame kids }) }
        ensures { IsApplied self.old (record { name = name; bound = bound; change = Change.Fork frame kids }) self.new result }
    {
        let before = self.executions.give(&name.thread, frame, kids);
        record(name, bound, Kind::Fork, Saved::Forked(before))
    }

    fn apply_join(&mut self, name: StepName, bound: u32, frame: Frame) -> StepRecord
        requires { CanApply self.old (record { name = name; bound = bound; change = Change.Join frame }) }
        ensures { IsApplied self.old (record { name = name; bound = bound; change = Change.Join frame }) self.new result }
    {
        let (before, kids) = self.executions.take(&name.thread, frame);
        let saved = Saved::Closed {
            frame: before,
            kids,
        };
        record(name, bound, Kind::Join, saved)
    }

    fn apply_terminate(&mut self, name: StepName, bound: u32, frame: Frame) -> StepRecord
        requires { CanApply self.old (record { name = name; bound = bound; change = Change.Terminate frame }) }
        ensures { IsApplied self.old (record { name = name; bound = bound; change = Change.Terminate frame }) self.new result }
    {
        let (before, branches) = self.executions.take(&name.thread, frame);
        let saved = Saved::Closed {
            frame: before,
            kids: branches,
        };
        record(name, bound, Kind::Terminate, saved)
    }
}
