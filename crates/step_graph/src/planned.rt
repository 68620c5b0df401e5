// Why a plan takes back each of its steps.
ghost use Rattle.std.specs.Prelude.{◌≡◌, All, IfOk, IfSome};
ghost use Rattle.step_graph.specs.Causes.{IsReason};

use crate::causing::Cause;
use crate::latest::Latest;
use crate::linking::reason_at;
use std::alloc::{AllocError, Global};
use step_index::StepRecords;

/// For each consequence in a plan another of its steps on which it depends directly, and why: of several the latest. The plan has the latest step
/// first, and what is answered the earliest.
///
/// Takes time in the number of the plan's steps, logarithms aside, and memory for each of them.
pub fn plan_reasons(
    alloc: Global,
    records: &StepRecords,
    plan: &[usize],
) -> Result<Vec<Cause>, AllocError>
    ensures { IfOk result (λ found. All (IsReason records.now.items) found.items) }
{
    let mut latest = Latest::new(alloc);
    let mut near = Vec::new(alloc);
    let mut found = Vec::new(alloc);
    for place in plan.iter().rev() {
        if *place >= records.len() {
            break;
        }
        near.clear();
        if let Some(awaited) = latest.add(alloc, &records.get(*place).fact, *place, &mut near)? {
            near.push(awaited)?;
            near.sort_unstable();
        }
        if let Some(cause) = latest_cause(records, near.as_slice(), *place) {
            found.push(cause)?;
        }
    }
    Ok(found)
}

/// Takes the last of a plan's reasons, if it is that of the step at a place. So reasons are taken in the plan's order.
pub fn take_reason(reasons: &mut Vec<Cause>, place: usize) -> Option<Cause>
    ensures { IfSome result (λ c. c.needed_for ≡ place) }
{
    match reasons.last() {
        Some(cause) if cause.needed_for == place => reasons.pop(),
        _ => None,
    }
}

/// The last of some steps on which the one at a place depends directly.
fn latest_cause(records: &StepRecords, near: &[usize], place: usize) -> Option<Cause>
    ensures reason { IfSome result (IsReason records.now.items) }
    ensures of { IfSome result (λ c. c.needed_for ≡ place) }
{
    for earlier in near.iter().rev() {
        if *earlier >= place {
            continue;
        }
        if let Some(reason) = reason_at(records, *earlier, place) {
            return Some(Cause {
                place: *earlier,
                needed_for: place,
                reason,
            });
        }
    }
    None
}
