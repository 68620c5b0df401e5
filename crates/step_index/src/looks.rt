//! Records as a plan sees them: by looks that are counted.

ghost use Rattle.std.specs.Prelude.{◌≡◌, ◌<◌, ◌+◌, ℕ, true, length, slice_get, Some, OnOk};
ghost use Rattle.std.specs.BinaryHeap.{heap_items};
ghost use Rattle.linked_classes.specs.Cells.{cell_at};
ghost use Rattle.step_index.specs.Buckets.{by_set};
ghost use Rattle.step_index.specs.Due.{IsBehind, IsGrown};
ghost use Rattle.step_index.specs.Queue.{has_place};
ghost use Rattle.step_index.specs.Records.{classes_by};

use crate::buckets::Classing;
use crate::due::put_behind;
use crate::queue::PlaceQueue;
use linked_classes::ClassedVec;
use saved_steps::StepRecord;
use std::alloc::AllocError;
use std::marker::Model;

/// How many records were looked at.
#[derive(Debug, Drop)]
pub struct Looks {
    count: u64,
}

impl Looks {
    /// None.
    pub fn new() -> Looks
        ensures { result.count ≡ 0 }
    {
        Looks { count: 0 }
    }

    /// How many there were.
    pub fn count(&self) -> u64
        ensures { result ≡ self.now.count }
    {
        self.count
    }
}

/// Records of which only the classes are told, and which are handed out by a call that counts. Contracts see their list.
#[derive(Drop)]
pub(crate) struct CountedRecords<'a> {
    pub(crate) records: &'a ClassedVec<StepRecord>,
}

impl<'a> Model for CountedRecords<'a> {
    ghost use Rattle.std.specs.Prelude.{List};
    ghost use Rattle.saved_steps.specs.declared.record.StepRecord.{StepRecord as Kept};
    ghost use Rattle.saved_steps.specs.contracts.record.StepRecord as record_row;
    ghost use Rattle.std.specs.Coded.{codes};
    ghost use Rattle.step_index.specs.Records.{AreIndexed};

    ghost Value = { List Kept };

    ghost coded = { Prim.hlevel (codes, record_row.the_row.coded) };

    ghost view = { λ a. a.records.now.items };

    ghost invariant = { λ a. AreIndexed a.records.now };
}

impl<'a> CountedRecords<'a> {
    pub(crate) fn len(&self) -> usize
        ensures { result ≡ length self.now }
    {
        self.records.len()
    }

    /// Puts the places of a class behind one to those that are due. No record is looked at.
    pub(crate) fn put_behind(
        &self,
        due: &mut PlaceQueue,
        by: Classing,
        class: u32,
        at: usize,
    ) -> Result<(), AllocError>
        requires { class < 16381 }
        ensures all { OnOk result ((k : ℕ) → at < k → cell_at (classes_by (by_set by) self.now) k ≡ Some class → has_place (heap_items due.new.heap) k ≡ true) }
        ensures grown { OnOk result (IsGrown (IsBehind (classes_by (by_set by) self.now) class at) (has_place (heap_items due.old.heap)) (has_place (heap_items due.new.heap))) }
    {
        put_behind(due, self.records, by, class, at)
    }

    /// Hands out the record at a place, and counts it.
    pub(crate) fn look(&self, looks: &mut Looks, place: usize) -> &'a StepRecord
        requires there { place < length self.now }
        requires room { looks.old.count < 18446744073709551615 }
        ensures record { slice_get self.now place ≡ Some result.now }
        ensures counted { looks.new.count ≡ looks.old.count + 1 }
    {
        looks.count += 1;
        self.records.get(place)
    }
}
