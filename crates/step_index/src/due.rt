//! Which later places are due in a plan: those of the classes that were opened for the steps that it has found.

ghost use Rattle.std.specs.Prelude.{◌≡◌, ◌<◌, ◌+◌, ℕ, true, false, List, nat_eq, Some, OnOk};
ghost use Rattle.std.specs.BinaryHeap.{heap_items};
ghost use Rattle.std.specs.HashSet.{contains as has_class};
ghost use Rattle.linked_classes.specs.Cells.{cell_at};
ghost use Rattle.saved_steps.specs.declared.record.StepRecord.{StepRecord as Kept};
ghost use Rattle.step_index.specs.Buckets.{by_set};
ghost use Rattle.step_index.specs.Due.{AllDue, AreDue, IsBehind, IsFurther, IsGrown, HasOpenClasses, IsOpenByAccess, IsOpenByName, IsPlaceTaken, Keeps, is_due};
ghost use Rattle.step_index.specs.Near.{shares, shares_by_access, shares_by_name};
ghost use Rattle.step_index.specs.Queue.{has_place};
ghost use Rattle.step_index.specs.Records.{classes_by, classes_in};

use crate::buckets::{Classing, exec_bucket, key_bucket, makes_threads, set_number, thread_bucket};
use crate::looks::CountedRecords;
use crate::queue::PlaceQueue;
use item_store::AccessMode;
use linked_classes::ClassedVec;
use saved_steps::{Fact, StepRecord};
use std::alloc::{AllocError, Global};
use std::collections::HashSet;

/// The later places of the classes that were opened, and these classes of each kind. A class is opened once: then its later places
/// become due, and each is taken once, in their order.
#[derive(Drop)]
pub(crate) struct DuePlaces {
    places: PlaceQueue,
    threads: HashSet<u32>,
    execs: HashSet<u32>,
    gates: HashSet<u32>,
    keys: HashSet<u32>,
    writes: HashSet<u32>,
}

impl DuePlaces {
    /// None. Takes no memory.
    pub(crate) fn new(alloc: Global) -> DuePlaces
        ensures none { (k : ℕ) → is_due result k ≡ false }
        ensures due { (rs : List Kept) (from : ℕ) → AreDue rs from result }
    {
        DuePlaces {
            places: PlaceQueue::new(alloc),
            threads: HashSet::new(alloc),
            execs: HashSet::new(alloc),
            gates: HashSet::new(alloc),
            keys: HashSet::new(alloc),
            writes: HashSet::new(alloc),
        }
    }

    /// Takes the least due place, if there is one.
    pub(crate) fn take_first(&mut self) -> Option<usize>
        ensures { (rs : List Kept) (from : ℕ) → AreDue rs from self.old → IsPlaceTaken rs from self.old self.new result }
    {
        self.places.pop()
    }

    /// Opens the classes in which each later step is that depends directly on the one at a place.
    pub(crate) fn open(
        &mut self,
        records: &CountedRecords,
        at: usize,
        fact: &Fact,
    ) -> Result<(), AllocError>
        ensures opened { OnOk result (HasOpenClasses self.new fact.now) }
        ensures further { OnOk result (IsFurther (shares fact.now) records.now at self.old self.new) }
    {
        self.open_by_name(records, at, fact)?;
        self.open_by_access(records, at, fact)
    }

    /// Opens those of the steps that depend on it by their names. Each of these is of its execution: if that is open, they are due.
    fn open_by_name(
        &mut self,
        records: &CountedRecords,
        at: usize,
        fact: &Fact,
    ) -> Result<(), AllocError>
        ensures opened { OnOk result (IsOpenByName self.new fact.now) }
        ensures further { OnOk result (IsFurther (shares_by_name fact.now) records.now at self.old self.new) }
    {
        let thread = &fact.name.thread;
        let exec = exec_bucket(thread.exec());
        if self.execs.contains(&exec) {
            return Ok(());
        }
        let due = &mut self.places;
        if makes_threads(fact.kind) {
            return open_class(due, &mut self.execs, records, Classing::Execs, exec, at);
        }
        let own = thread_bucket(thread);
        open_class(due, &mut self.threads, records, Classing::Threads, own, at)?;
        open_class(due, &mut self.gates, records, Classing::Gates, exec, at)
    }

    /// Opens those of the steps that depend on it for an item. Each of these accessed its key: if all accesses of that are open, they
    /// are due.
    fn open_by_access(
        &mut self,
        records: &CountedRecords,
        at: usize,
        fact: &Fact,
    ) -> Result<(), AllocError>
        ensures opened { OnOk result (IsOpenByAccess self.new fact.now.access) }
        ensures further { OnOk result (IsFurther (shares_by_access fact.now.access) records.now at self.old self.new) }
    {
        let Some(access) = &fact.access else {
            return Ok(());
        };
        let key = key_bucket(&access.key);
        if self.keys.contains(&key) {
            return Ok(());
        }
        let due = &mut self.places;
        match access.mode {
            AccessMode::Write => {
                open_class(due, &mut self.keys, records, Classing::Keys, key, at)
            }
            AccessMode::Read => {
                open_class(due, &mut self.writes, records, Classing::Writes, key, at)
            }
        }
    }
}

/// Makes the places of a class behind one due, unless it was opened before.
fn open_class(
    due: &mut PlaceQueue,
    opened: &mut HashSet<u32>,
    records: &CountedRecords,
    by: Classing,
    class: u32,
    at: usize,
) -> Result<(), AllocError>
    requires { class < 16381 }
    ensures has { OnOk result (has_class nat_eq opened.new class ≡ true) }
    ensures kept { OnOk result (Keeps (has_class nat_eq opened.old) (has_class nat_eq opened.new)) }
    ensures grown { OnOk result (IsGrown (IsBehind (classes_by (by_set by) records.now) class at) (has_place (heap_items due.old.heap)) (has_place (heap_items due.new.heap))) }
    ensures due { OnOk result (AllDue (classes_by (by_set by) records.now) (at + 1) (has_place (heap_items due.old.heap)) (has_class nat_eq opened.old)
        → AllDue (classes_by (by_set by) records.now) (at + 1) (has_place (heap_items due.new.heap)) (has_class nat_eq opened.new)) }
{
    if !opened.insert(class)? {
        return Ok(());
    }
    records.put_behind(due, by, class, at)
}

/// Puts the places of a class behind one to those that are due.
pub(crate) fn put_behind(
    due: &mut PlaceQueue,
    records: &ClassedVec<StepRecord>,
    by: Classing,
    class: u32,
    at: usize,
) -> Result<(), AllocError>
    requires { class < 16381 }
    ensures all { OnOk result ((k : ℕ) → at < k → cell_at (classes_in records.now by) k ≡ Some class → has_place (heap_items due.new.heap) k ≡ true) }
    ensures grown { OnOk result (IsGrown (IsBehind (classes_in records.now by) class at) (has_place (heap_items due.old.heap)) (has_place (heap_items due.new.heap))) }
{
    let set = set_number(by);
    let mut last = records.last(set, class);
    while let Some(number) = last {
        let place = records.place(number);
        if place <= at {
            return Ok(());
        }
        due.push(place)?;
        last = records.before(set, number);
    }
    Ok(())
}
