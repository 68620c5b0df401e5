//! Which steps a rollback takes back.

ghost use Rattle.std.specs.Prelude.{◌≡◌, ◌<◌, ◌≤◌, ◌+◌, ◌-◌, ◌∷◌, ◌++◌, [], drop, length, map, IfOk, OnOk, Some, if◌then◌else◌, slice_get};
ghost use Rattle.std.specs.List.{count_by};
ghost use Rattle.depends.specs.Plans as plans;
ghost use Rattle.saved_steps.specs.declared.record.StepRecord.{StepRecord as Kept};
ghost use Rattle.step_index.specs.Finding.{AreFound};
ghost use Rattle.step_index.specs.Near.{is_near};

use crate::found::FoundSteps;
use crate::looks::{CountedRecords, Looks};
use depends::Plan;
use std::alloc::{AllocError, Global};

/// The step at a place and all its consequences, the latest first, as `plan_with_looks` finds them.
pub(crate) fn plan_of(
    alloc: Global,
    records: &CountedRecords,
    at: usize,
) -> Result<Plan, AllocError>
    requires { at < length records.now }
    ensures { IfOk result (λ p. p ≡ plans.plan (map (λ r. r.fact) records.now) at) }
{
    let count = records.len();
    prove!(at < count);
    let mut looks = Looks::new();
    plan_with_looks(alloc, records, at, &mut looks)
}

/// The step at a place and all its consequences, the latest first. A consequence makes those later places due at which a step may be
/// that depends directly on it. Each due place is looked at once, in their order: whether its step depends directly on one that was
/// found is told by the marks of these. No other place is looked at.
pub(crate) fn plan_with_looks(
    alloc: Global,
    records: &CountedRecords,
    at: usize,
    looks: &mut Looks,
) -> Result<Plan, AllocError>
    requires there { at < length records.now }
    requires room { looks.old.count + length records.now ≤ 18446744073709551615 }
    ensures plan { IfOk result (λ p. p ≡ plans.plan (map (λ r. r.fact) records.now) at) }
    ensures looks { looks.new.count ≤ looks.old.count + (length records.now - at) }
    ensures members { IfOk result (λ p. looks.old.count + length p ≤ looks.new.count) }
    ensures near { IfOk result (λ p. looks.new.count ≤ looks.old.count + 1 + count_by (is_near records.now p) (drop (at + 1) records.now)) }
{
    let mut found = begin(alloc, records, at, looks)?;
    while let Some(place) = found.next_due() {
        add_if_follows(&mut found, records, place, looks)?;
    }
    let mut places = found.into_places();
    places.reverse();
    Ok(Plan::new(places))
}

/// The first step of a plan.
fn begin(
    alloc: Global,
    records: &CountedRecords,
    at: usize,
    looks: &mut Looks,
) -> Result<FoundSteps, AllocError>
    requires there { at < length records.now }
    requires room { looks.old.count < 18446744073709551615 }
    ensures places { IfOk result (λ found. found.places.items ≡ at ∷ []) }
    ensures found { IfOk result (λ found. AreFound records.now (at + 1) found) }
    ensures looks { looks.new.count ≡ looks.old.count + 1 }
{
    let mut found = FoundSteps::new(alloc);
    let fact = &records.look(looks, at).fact;
    found.add(records, at, fact)?;
    Ok(found)
}

/// Adds a place to those that were found, if its step depends directly on one there.
fn add_if_follows(
    found: &mut FoundSteps,
    records: &CountedRecords,
    place: usize,
    looks: &mut Looks,
) -> Result<(), AllocError>
    requires there { place < length records.now }
    requires room { looks.old.count < 18446744073709551615 }
    requires found { AreFound records.now (place + 1) found.old }
    ensures places { (g : Kept) → slice_get records.now place ≡ Some g → OnOk result (found.new.places.items
        ≡ (if plans.depends_on_some (map (λ r. r.fact) records.now) found.old.places.items g.fact then found.old.places.items ++ place ∷ [] else found.old.places.items)) }
    ensures found { OnOk result (AreFound records.now (place + 1) found.new) }
    ensures looks { looks.new.count ≡ looks.old.count + 1 }
{
    let fact = &records.look(looks, place).fact;
    if !found.is_needed(fact)? {
        return Ok(());
    }
    found.add(records, place, fact)
}
