//! The records, and the classes of their places.

ghost use Rattle.std.specs.Prelude.{◌≡◌, ◌<◌, ◌≤◌, ◌+◌, ◌-◌, ◌==◌, [], ◌∷◌, ◌++◌, true, drop, length, map, position, slice_get, Some, IfOk, OnOk};
ghost use Rattle.std.specs.List.{count_by, remove};
ghost use Rattle.depends.specs.Plans as plans;
ghost use Rattle.saved_steps.specs.World.{is_same_step};
ghost use Rattle.saved_steps.specs.declared.record.StepRecord.{StepRecord as Kept};
ghost use Rattle.step_index.specs.Gathered.{accesses, is_of_execution, places_where};
ghost use Rattle.step_index.specs.Near.{is_near};
ghost use Rattle.step_index.specs.Walks.{ConflictsAt, IsFirstFrom, NeedsByName, record_needs};

use crate::buckets::{
    BUCKETS, Classing, all_classes, exec_bucket, key_bucket, makes_threads, name_bucket,
};
use crate::gathered::{gathered_accesses, gathered_of};
use crate::looks::{CountedRecords, Looks};
use crate::plans::{plan_of, plan_with_looks};
use crate::walks::{earlier, first_named, first_needing, first_needing_in};
use attr_values::Key;
use depends::Plan;
use item_store::AccessMode;
use linked_classes::ClassedVec;
use saved_steps::StepRecord;
use std::alloc::{AllocError, Global};
use std::marker::Model;
use std::mem;
use step_names::StepName;

/// Records of steps in the order in which they were added. Contracts see their list, and whether there is room for one more.
///
/// The steps are in classes: of their names, their threads, their executions and the keys that they touched, each by its hash.
/// Those that close a fork or waited for branches are in one of their own as well, by their execution, and those that wrote by
/// their key. All classes are over the numbers of one list. A record costs 112 to 160 bytes for these, one that is gone 32, and
/// all together 1,570,000 once.
#[derive(Drop)]
pub struct StepRecords {
    records: ClassedVec<StepRecord>,
}

impl Model for StepRecords {
    ghost use Rattle.step_index.specs.Records.{Records, AreIndexed, has_record_room};
    ghost use Rattle.saved_steps.specs.contracts.record.StepRecord as record_row;
    ghost use Rattle.std.specs.Coded.{codes};

    ghost Value = { Records };

    ghost coded = { Prim.hlevel (codes, record_row.the_row.coded) };

    ghost view = { λ a. record {
      items = a.records.items;
      has_room = has_record_room a.records;
    } };

    ghost invariant = { λ a. AreIndexed a.records };
}

impl StepRecords {
    /// No records. Takes no memory.
    pub fn new(alloc: Global) -> StepRecords
        ensures { result.items ≡ [] }
    {
        StepRecords {
            records: ClassedVec::new(alloc),
        }
    }

    /// The records in their order.
    pub(crate) fn listed(&self) -> &ClassedVec<StepRecord>
        ensures { result.now.items ≡ self.now.items }
    {
        &self.records
    }

    /// The record at a place, in the time of `RisingNumbers::get`.
    pub fn get(&self, at: usize) -> &StepRecord
        requires { at < length self.now.items }
        ensures { slice_get self.now.items at ≡ Some result.now }
    {
        self.records.get(at)
    }

    /// How many there are.
    pub fn len(&self) -> usize
        ensures { result ≡ length self.now.items }
    {
        self.records.len()
    }

    /// Whether there is none.
    pub fn is_empty(&self) -> bool
        ensures { result ≡ (length self.now.items == 0) }
    {
        self.records.is_empty()
    }

    /// Makes room for one more record. Refused where memory is, and where 715,827,882 records have come.
    pub fn reserve(&mut self) -> Result<(), AllocError>
        ensures items { self.new.items ≡ self.old.items }
        ensures room { OnOk result (self.new.has_room ≡ true) }
    {
        self.records.reserve(BUCKETS as usize)
    }

    /// Adds a record at the end. Takes no memory, and the time to hash its name and its key a few times.
    pub fn push(&mut self, kept: StepRecord)
        requires { self.old.has_room ≡ true }
        ensures { self.new.items ≡ self.old.items ++ kept ∷ [] }
    {
        let classes = all_classes(&kept.fact);
        self.records.push(kept, &classes);
    }

    /// Takes the record at a place out: the others stay in their order. Takes no memory, a few steps for each class, and the
    /// time of `RisingNumbers::remove`; no record is moved or looked at.
    pub fn remove(&mut self, at: usize) -> StepRecord
        requires { at < length self.old.items }
        ensures taken { slice_get self.old.items at ≡ Some result }
        ensures items { self.new.items ≡ remove self.old.items at }
    {
        self.records.remove(at)
    }

    /// Takes the first record out: the others stay in their order. Takes no memory, and the time of `remove`.
    pub fn take_first(&mut self) -> StepRecord
        requires { 0 < length self.old.items }
        ensures { self.old.items ≡ result ∷ self.new.items }
    {
        self.remove(0)
    }

    /// Takes all records out, in their order: none is left, and no room. Takes no memory.
    pub fn take_all(&mut self) -> StepRecords
        ensures taken { result.items ≡ self.old.items }
        ensures items { self.new.items ≡ [] }
    {
        let alloc = self.records.allocator();
        mem::replace(self, StepRecords::new(alloc))
    }

    /// The place of the first step of a name. Takes no memory; looks at the steps whose names have its hash.
    pub fn find(&self, name: &StepName) -> Option<usize>
        ensures { result ≡ position (λ r. is_same_step r.fact.name name.now) self.now.items }
    {
        first_named(&self.records, name_bucket(name), name)
    }

    /// The places of an execution's steps, in ascending order. Takes memory for these; looks at the steps whose executions have its
    /// hash.
    pub fn of_execution(&self, alloc: Global, exec: &str) -> Result<Vec<usize>, AllocError>
        ensures { IfOk result (λ places. places.items ≡ places_where (is_of_execution exec.now) self.now.items) }
    {
        gathered_of(alloc, &self.records, exec_bucket(exec), exec)
    }

    /// The places of the steps that accessed a key, in ascending order. Takes memory for these; looks at the accesses of the keys
    /// that have its hash.
    pub fn accesses(&self, alloc: Global, key: &Key) -> Result<Vec<usize>, AllocError>
        ensures { IfOk result (λ places. places.items ≡ places_where (accesses key.now) self.now.items) }
    {
        gathered_accesses(alloc, &self.records, key_bucket(key), key)
    }

    /// The place of the earliest step that depends directly on the one at a place. Takes no memory. Looks, behind it, at the
    /// steps of its thread up to that one, at those of its execution that close a fork or waited for branches, and at the
    /// accesses of its key up to that one, of a read at the writes alone; of a start or a fork at the steps of its execution up
    /// to that one. Steps whose names or keys have the same hash are looked at beside these.
    pub fn first_dependent(&self, at: usize) -> Option<usize>
        requires { at < length self.now.items }
        ensures { result ≡ plans.first_dependent (map (λ r. r.fact) self.now.items) at }
    {
        earlier(self.first_in_execution(at), self.first_conflict(at))
    }

    /// The earliest step that accesses the key of the one at a place, and not both read.
    fn first_conflict(&self, at: usize) -> Option<usize>
        requires { at < length self.now.items }
        ensures { (f : Kept) → slice_get self.now.items at ≡ Some f → IsFirstFrom (ConflictsAt self.now.items f) (record_needs f) self.now.items (at + 1) result }
    {
        let records = &self.records;
        let Some(access) = &records.get(at).fact.access else {
            return None;
        };
        match access.mode {
            AccessMode::Write => first_needing(records, Classing::Keys, at),
            AccessMode::Read => {
                first_needing_in(records, Classing::Writes, key_bucket(&access.key), at)
            }
        }
    }

    /// The step at a place and all its consequences, the latest first, as `plan_with_looks` finds them.
    pub fn plan(&self, alloc: Global, at: usize) -> Result<Plan, AllocError>
        requires { at < length self.now.items }
        ensures { IfOk result (λ p. p ≡ plans.plan (map (λ r. r.fact) self.now.items) at) }
    {
        plan_of(alloc, &self.counted(), at)
    }

    /// The same, with its looks at records added to a count. A later step is looked at once, and only if it is in a class that was
    /// opened for one that was found. Takes memory for the marks of each step that was found, for the opened classes and for their
    /// later places, and for each record that is looked at a few look-ups among the marks.
    pub fn plan_with_looks(
        &self,
        alloc: Global,
        at: usize,
        looks: &mut Looks,
    ) -> Result<Plan, AllocError>
        requires there { at < length self.now.items }
        requires room { looks.old.count + length self.now.items ≤ 18446744073709551615 }
        ensures plan { IfOk result (λ p. p ≡ plans.plan (map (λ r. r.fact) self.now.items) at) }
        ensures looks { looks.new.count ≤ looks.old.count + (length self.now.items - at) }
        ensures members { IfOk result (λ p. looks.old.count + length p ≤ looks.new.count) }
        ensures near { IfOk result (λ p. looks.new.count ≤ looks.old.count + 1 + count_by (is_near self.now.items p) (drop (at + 1) self.now.items)) }
    {
        plan_with_looks(alloc, &self.counted(), at, looks)
    }

    /// The records as a plan sees them.
    fn counted(&self) -> CountedRecords<'_>
        ensures { result ≡ self.now.items }
    {
        CountedRecords {
            records: &self.records,
        }
    }

    /// The earliest step that depends directly on the one at a place, of those that do so by their names.
    fn first_in_execution(&self, at: usize) -> Option<usize>
        requires { at < length self.now.items }
        ensures { (f : Kept) → slice_get self.now.items at ≡ Some f → IsFirstFrom (NeedsByName self.now.items f) (record_needs f) self.now.items (at + 1) result }
    {
        let records = &self.records;
        let fact = &records.get(at).fact;
        if makes_threads(fact.kind) {
            return first_needing(records, Classing::Execs, at);
        }
        let class = exec_bucket(fact.name.thread.exec());
        let closing = first_needing_in(records, Classing::Gates, class, at);
        earlier(first_needing(records, Classing::Threads, at), closing)
    }
}
