//! In which order a step and its consequences are undone.

ghost use Rattle.std.specs.Prelude.{◌≡◌, ◌<◌, length, map, All, IfOk};
ghost use Rattle.depends.specs.Plans as plans;

use crate::depend::depends;
use crate::places::Plan;
use saved_steps::{Fact, StepRecord};
use std::alloc::{AllocError, Global};

/// The step at a place and all its consequences, the latest first: the steps that depend on it, directly or by others. Takes
/// memory for each of them, and compares each later step with those that were found before it.
pub fn plan(alloc: Global, records: &[StepRecord], at: usize) -> Result<Plan, AllocError>
    requires { at < length records.now }
    ensures { IfOk result (λ p. p ≡ plans.plan (map (λ r. r.fact) records.now) at) }
{
    let mut places = Vec::new(alloc);
    places.push(at)?;
    for place in at + 1..records.len() {
        if depends_on_some(records, places.as_slice(), &records[place].fact) {
            places.push(place)?;
        }
    }
    places.reverse();
    Ok(Plan::new(places))
}

/// Whether a later step depends directly on one of those at some places. Takes no memory, and compares it with each of them up to
/// the first.
pub fn depends_on_some(records: &[StepRecord], places: &[usize], later: &Fact) -> bool
    requires { All (λ place. place < length records.now) places.now }
    ensures { result ≡ plans.depends_on_some (map (λ r. r.fact) records.now) places.now later.now }
{
    for place in places {
        if depends(&records[*place].fact, later) {
            return true;
        }
    }
    false
}
