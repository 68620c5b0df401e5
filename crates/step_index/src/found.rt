//! The steps that were found for a plan, the marks that they left, and the later places that are due.

ghost use Rattle.std.specs.Prelude.{◌≡◌, ◌+◌, ◌∷◌, ◌++◌, [], ℕ, List, map, IfOk, OnOk, Some, slice_get};
ghost use Rattle.depends.specs.Plans as plans;
ghost use Rattle.saved_steps.specs.declared.record.StepRecord.{StepRecord as Kept};
ghost use Rattle.step_index.specs.Finding.{AreFound, IsNextDue};

use crate::due::DuePlaces;
use crate::looks::CountedRecords;
use depends::Marks;
use saved_steps::Fact;
use std::alloc::{AllocError, Global};

/// The places of steps that were found, in the order in which they came; the marks that these left; and the later places at which
/// a step may be that depends directly on one of them.
#[derive(Drop)]
pub(crate) struct FoundSteps {
    pub(crate) places: Vec<usize>,
    marks: Marks,
    due: DuePlaces,
}

impl FoundSteps {
    /// None. Takes no memory.
    pub(crate) fn new(alloc: Global) -> FoundSteps
        ensures places { result.places.items ≡ [] }
        ensures found { (rs : List Kept) (from : ℕ) → AreFound rs from result }
    {
        FoundSteps {
            places: Vec::new(alloc),
            marks: Marks::new(alloc),
            due: DuePlaces::new(alloc),
        }
    }

    /// Adds the step at a place behind the others. The later places of its classes become due.
    pub(crate) fn add(
        &mut self,
        records: &CountedRecords,
        place: usize,
        fact: &Fact,
    ) -> Result<(), AllocError>
        ensures places { OnOk result (self.new.places.items ≡ self.old.places.items ++ place ∷ []) }
        ensures found { OnOk result ((r : Kept) → slice_get records.now place ≡ Some r → r.fact ≡ fact.now → AreFound records.now (place + 1) self.old → AreFound records.now (place + 1) self.new) }
    {
        self.marks.add(fact)?;
        self.due.open(records, place, fact)?;
        self.places.push(place)?;
        Ok(())
    }

    /// Takes the least due place, if there is one. No step before it depends directly on one of those that were found.
    pub(crate) fn next_due(&mut self) -> Option<usize>
        ensures places { self.new.places.items ≡ self.old.places.items }
        ensures next { (rs : List Kept) (from : ℕ) → AreFound rs from self.old → IsNextDue rs from self.old self.new result }
    {
        self.due.take_first()
    }

    /// Their places.
    pub(crate) fn into_places(self) -> Vec<usize>
        ensures { result.items ≡ self.places.items }
    {
        self.places
    }

    /// Whether a later step depends directly on one of them, by the marks that they left: none of them is looked at.
    pub(crate) fn is_needed(&self, later: &Fact) -> Result<bool, AllocError>
        ensures { IfOk result (λ b. (rs : List Kept) (from : ℕ) → AreFound rs from self.now → b ≡ plans.depends_on_some (map (λ r. r.fact) rs) self.now.places.items later.now) }
    {
        self.marks.marks(later)
    }
}
