//! Walks through the places of a class.

ghost use Rattle.std.specs.Prelude.{◌≡◌, ◌<◌, ◌+◌, ℕ, Some, None, IfSome, length, option_map, slice_get, if◌then◌else◌};
ghost use Rattle.linked_classes.specs.Cells.{cell_at};
ghost use Rattle.linked_classes.specs.Places.{IsNumber, place_in};
ghost use Rattle.linked_classes.specs.Sets.{set_of};
ghost use Rattle.saved_steps.specs.World.{is_same_step};
ghost use Rattle.saved_steps.specs.declared.record.StepRecord.{StepRecord as Kept};
ghost use Rattle.step_index.specs.Records.{classes_in};
ghost use Rattle.step_index.specs.Walks.{IsFirstFrom, needed_by, record_needs, earlier};

use crate::buckets::{Classing, set_number};
use depends::depends;
use linked_classes::ClassedVec;
use saved_steps::{Fact, StepRecord};
use step_names::StepName;

/// The first step of a name in a class of names: a look at each step there before it.
pub(crate) fn first_named(
    records: &ClassedVec<StepRecord>,
    class: u32,
    name: &StepName,
) -> Option<usize>
    requires { class < 16381 }
    ensures { IsFirstFrom (λ k. cell_at (classes_in records.now Classing.Names) k ≡ Some class) (λ r. is_same_step r.fact.name name.now) records.now.items 0 result }
{
    let set = set_number(Classing::Names);
    let mut next = records.first(set, class);
    while let Some(number) = next {
        if is_of_name(records.of_number(number), name) {
            return Some(records.place(number));
        }
        next = records.next(set, number);
    }
    None
}

/// Whether a record is that of the step of a name.
fn is_of_name(taken: &StepRecord, name: &StepName) -> bool
    ensures { result ≡ is_same_step taken.now.fact.name name.now }
{
    taken.fact.name.thread == name.thread && taken.fact.name.no == name.no
}

/// The first step in the class of one, behind it, that depends directly on it: a look at each step there before it.
pub(crate) fn first_needing(
    records: &ClassedVec<StepRecord>,
    by: Classing,
    at: usize,
) -> Option<usize>
    requires { at < length records.now.items }
    ensures member { (c : ℕ) (f : Kept) → cell_at (classes_in records.now by) at ≡ Some c → slice_get records.now.items at ≡ Some f
        → IsFirstFrom (λ k. cell_at (classes_in records.now by) k ≡ Some c) (record_needs f) records.now.items (at + 1) result }
    ensures none { cell_at (classes_in records.now by) at ≡ None → result ≡ None }
{
    let set = set_number(by);
    let own = records.number(at);
    let mut next = records.next(set, own);
    while let Some(number) = next {
        if depends(
            &records.of_number(own).fact,
            &records.of_number(number).fact,
        ) {
            return Some(records.place(number));
        }
        next = records.next(set, number);
    }
    None
}

/// The first step in a class, behind a step, that depends directly on that one: a look at each step there behind it.
pub(crate) fn first_needing_in(
    records: &ClassedVec<StepRecord>,
    by: Classing,
    class: u32,
    at: usize,
) -> Option<usize>
    requires there { at < length records.now.items }
    requires below { class < 16381 }
    ensures { (f : Kept) → slice_get records.now.items at ≡ Some f → IsFirstFrom (λ k. cell_at (classes_in records.now by) k ≡ Some class) (record_needs f) records.now.items (at + 1) result }
{
    let set = set_number(by);
    let own = records.number(at);
    let mut found = None;
    let mut last = records.last(set, class);
    while let Some(number) = last {
        if !records.is_behind(number, own) {
            return place_of(records, found);
        }
        found = nearer(records, own, number, found);
        last = records.before(set, number);
    }
    place_of(records, found)
}

/// A number, if its step depends directly on that of another; and else what was found.
fn nearer(
    records: &ClassedVec<StepRecord>,
    own: u32,
    number: u32,
    found: Option<u32>,
) -> Option<u32>
    requires own { IsNumber records.now.numbers own }
    requires number { IsNumber records.now.numbers number }
    ensures { (f g : Kept) → slice_get records.now.items (place_in records.now.numbers own) ≡ Some f → slice_get records.now.items (place_in records.now.numbers number) ≡ Some g
        → result ≡ (if record_needs f g then Some number else found) }
{
    if depends(
        &records.of_number(own).fact,
        &records.of_number(number).fact,
    ) {
        return Some(number);
    }
    found
}

/// The place of a number, if there is one.
fn place_of(records: &ClassedVec<StepRecord>, number: Option<u32>) -> Option<usize>
    requires { IfSome number (IsNumber records.now.numbers) }
    ensures { result ≡ option_map (place_in records.now.numbers) number }
{
    match number {
        Some(number) => Some(records.place(number)),
        None => None,
    }
}

/// The first step in a class of some places beside the records, on which a later one would depend directly: a look at each step
/// there before it.
pub(crate) fn first_needed_in(
    records: &ClassedVec<StepRecord>,
    steps: &ClassedVec<bool>,
    set: u32,
    class: u32,
    later: &Fact,
) -> Option<usize>
    requires many { length steps.now.items ≡ length records.now.items }
    requires set { set < 6 }
    requires class { class < 16381 }
    ensures first { IsFirstFrom (λ k. cell_at (set_of steps.now set) k ≡ Some class) (needed_by later.now) records.now.items 0 result }
    ensures member { IfSome result (λ k. cell_at (set_of steps.now set) k ≡ Some class) }
{
    let mut next = steps.first(set, class);
    while let Some(number) = next {
        let place = steps.place(number);
        if depends(&records.get(place).fact, later) {
            return Some(place);
        }
        next = steps.next(set, number);
    }
    None
}

/// The lesser of two places, as far as there are any.
pub(crate) fn earlier(one: Option<usize>, other: Option<usize>) -> Option<usize>
    ensures { result ≡ earlier one other }
{
    match (one, other) {
        (Some(i), Some(j)) => { if i < j { Some(i) } else { Some(j) } }
        (Some(i), None) => Some(i),
        (None, other) => other,
    }
}
