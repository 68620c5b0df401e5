//! The steps of an execution, and those that accessed a key, gathered from their classes.

ghost use Rattle.std.specs.Prelude.{◌≡◌, ◌<◌, ℕ, true, Some, IfOk, slice_get};
ghost use Rattle.linked_classes.specs.Cells.{cell_at};
ghost use Rattle.saved_steps.specs.declared.record.StepRecord.{StepRecord as Kept};
ghost use Rattle.step_index.specs.Gathered.{accesses, is_of_execution, places_where};
ghost use Rattle.step_index.specs.Records.{classes_in};

use crate::buckets::{Classing, set_number};
use attr_values::Key;
use linked_classes::ClassedVec;
use saved_steps::StepRecord;
use std::alloc::{AllocError, Global};

/// The places of an execution's steps, if all of them are in this class: a look at each step there.
pub(crate) fn gathered_of(
    alloc: Global,
    records: &ClassedVec<StepRecord>,
    class: u32,
    exec: &str,
) -> Result<Vec<usize>, AllocError>
    requires { class < 16381 }
    ensures { ((k : ℕ) (r : Kept) → slice_get records.now.items k ≡ Some r → is_of_execution exec.now r ≡ true → cell_at (classes_in records.now Classing.Execs) k ≡ Some class)
        → IfOk result (λ found. found.items ≡ places_where (is_of_execution exec.now) records.now.items) }
{
    let mut found = Vec::new(alloc);
    let set = set_number(Classing::Execs);
    let mut next = records.first(set, class);
    while let Some(number) = next {
        if is_of(records.of_number(number), exec) {
            found.push(records.place(number))?;
        }
        next = records.next(set, number);
    }
    Ok(found)
}

/// The places of the steps that accessed a key, if all of them are in this class: a look at each step there.
pub(crate) fn gathered_accesses(
    alloc: Global,
    records: &ClassedVec<StepRecord>,
    class: u32,
    key: &Key,
) -> Result<Vec<usize>, AllocError>
    requires { class < 16381 }
    ensures { ((k : ℕ) (r : Kept) → slice_get records.now.items k ≡ Some r → accesses key.now r ≡ true → cell_at (classes_in records.now Classing.Keys) k ≡ Some class)
        → IfOk result (λ found. found.items ≡ places_where (accesses key.now) records.now.items) }
{
    let mut found = Vec::new(alloc);
    let set = set_number(Classing::Keys);
    let mut next = records.first(set, class);
    while let Some(number) = next {
        if accesses(records.of_number(number), key) {
            found.push(records.place(number))?;
        }
        next = records.next(set, number);
    }
    Ok(found)
}

/// Whether a record is that of a step of this execution.
fn is_of(taken: &StepRecord, exec: &str) -> bool
    ensures { result ≡ is_of_execution exec.now taken.now }
{
    taken.fact.name.thread.exec() == exec
}

/// Whether a record is that of a step that accessed this key.
fn accesses(taken: &StepRecord, key: &Key) -> bool
    ensures { result ≡ accesses key.now taken.now }
{
    match &taken.fact.access {
        Some(access) => access.key == *key,
        None => false,
    }
}
