// The steps on which one depends, directly or not.
ghost use Rattle.std.specs.Prelude.{◌≡◌, ◌<◌, ◌∷◌, ℕ, All, IfOk, IfSome, None, Some, length, map, true};
ghost use Rattle.step_graph.specs.Causes.{IsNeeded, causes_of, is_in};
ghost use Rattle.step_graph.specs.Edges.{reason_at};
ghost use Rattle.step_graph.specs.Members.{OpensMembers};

use crate::linking::reason_at;
use crate::opened::OpenPlaces;
use depends::Reason;
use std::alloc::{AllocError, Global};
use step_index::StepRecords;

/// A step on which another depends, directly or not: its place among the records, that of the step for which it is needed, and why that
/// one depends directly on it.
#[derive(Clone, Copy, Debug, PartialEq, Eq)]
pub struct Cause {
    pub place: usize,
    pub needed_for: usize,
    pub reason: Reason,
}

/// The steps on which the one at a place depends, directly or not, the latest first: those whose rollback takes it back too. Each is
/// needed for the earliest step that depends directly on it, among the one asked for and its other causes.
///
/// Takes memory for the causes, two bytes for each record, and time in the steps of the executions of the causes and in the accesses
/// of their keys, each beside the causes that were found before it; of each other record before the place it reads these two bytes.
pub fn causes(alloc: Global, records: &StepRecords, at: usize) -> Result<Vec<Cause>, AllocError>
    requires { at < length records.now.items }
    ensures places { IfOk result (λ found. map (λ c. c.place) found.items ≡ causes_of records.now.items at) }
    ensures reasons { IfOk result (λ found. All (IsNeeded records.now.items) found.items) }
{
    let mut found = Vec::new(alloc);
    let mut near = OpenPlaces::new(alloc, records)?;
    near.open(alloc, records, at)?;
    let mut place = at;
    while place > 0 {
        place -= 1;
        if let Some(cause) = needed_open(&near, records, found.as_slice(), at, place) {
            near.open(alloc, records, place)?;
            found.push(cause)?;
        }
    }
    Ok(found)
}

/// Why the step at a place is needed for the one asked for or for a cause that was found, if its place is open; at no other is one.
fn needed_open(
    near: &OpenPlaces,
    records: &StepRecords,
    found: &[Cause],
    at: usize,
    place: usize,
) -> Option<Cause>
    ensures place { IfSome result (λ c. c.place ≡ place) }
    ensures after { IfSome result (λ c. place < c.needed_for) }
    ensures reason { IfSome result (IsNeeded records.now.items) }
    ensures among { IfSome result (λ c. is_in c.needed_for (at ∷ map (λ c. c.place) found.now) ≡ true) }
    ensures none { result ≡ None → OpensMembers records.now.items at (map (λ c. c.place) found.now) near.now → (m : ℕ) → place < m
        → is_in m (at ∷ map (λ c. c.place) found.now) ≡ true → reason_at records.now.items place m ≡ None }
{
    if !near.has(place) {
        return None;
    }
    needed(records, found, at, place)
}

/// Why the step at a place is needed for the one asked for or for a cause that was found, the latest of which was found first.
fn needed(records: &StepRecords, found: &[Cause], at: usize, place: usize) -> Option<Cause>
    ensures place { IfSome result (λ c. c.place ≡ place) }
    ensures after { IfSome result (λ c. place < c.needed_for) }
    ensures reason { IfSome result (IsNeeded records.now.items) }
    ensures among { IfSome result (λ c. is_in c.needed_for (at ∷ map (λ c. c.place) found.now) ≡ true) }
    ensures none { result ≡ None → (m : ℕ) → place < m → is_in m (at ∷ map (λ c. c.place) found.now) ≡ true → reason_at records.now.items place m ≡ None }
{
    let mut left = found.len();
    while left > 0 {
        left -= 1;
        let later = found[left].place;
        if let Some(reason) = reason_behind(records, place, later) {
            return Some(Cause {
                place,
                needed_for: later,
                reason,
            });
        }
    }
    match reason_behind(records, place, at) {
        Some(reason) => Some(Cause {
            place,
            needed_for: at,
            reason,
        }),
        None => None,
    }
}

/// Why the step at a later place depends directly on the one at a place; nothing if it isn't later.
fn reason_behind(records: &StepRecords, place: usize, later: usize) -> Option<Reason>
    ensures after { IfSome result (λ r. place < later) }
    ensures reason { IfSome result (λ r. reason_at records.now.items place later ≡ Some r) }
    ensures none { result ≡ None → place < later → reason_at records.now.items place later ≡ None }
{
    if place >= later {
        return None;
    }
    reason_at(records, place, later)
}
