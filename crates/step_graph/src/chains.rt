// Why a step depends on another: a shortest chain of direct dependences.
ghost use Rattle.std.specs.Prelude.{◌≡◌, IfOk, IfSome};
ghost use Rattle.step_graph.specs.Chains.{IsChain, is_link};

use crate::linking::reason_at;
use std::alloc::{AllocError, Global};
use std::collections::VecDeque;
use step_index::StepRecords;

/// A consequence that was reached: its place, the number of the one before it on a shortest chain, and how many steps that chain has.
#[derive(Clone, Copy)]
struct Reached {
    place: usize,
    previous: usize,
    steps: usize,
}

/// The places of a shortest chain of direct dependences from one step to another; none where the second is no consequence of the
/// first, or where there is no such step. The chain of a step to itself is its place alone.
///
/// Takes memory for each consequence up to the second step, and the time of `StepRecords::plan` and of one comparison for each pair of
/// these: it grows with the square of their number.
pub fn why(
    alloc: Global,
    records: &StepRecords,
    from: usize,
    to: usize,
) -> Result<Option<VecDeque<usize>>, AllocError>
    ensures { IfOk result (λ found. IfSome found (λ chain. IsChain records.now.items from to chain.items)) }
{
    if from >= records.len() {
        return Ok(None);
    }
    let plan = records.plan(alloc, from)?;
    let mut reached = Vec::new(alloc);
    // the plan has the latest first
    for place in plan.places().iter().rev() {
        if *place > to {
            break;
        }
        reach(&mut reached, records, *place)?;
    }
    walk_back(alloc, records, reached.as_slice(), from, to)
}

/// Adds a consequence to those before it, behind the one on which it depends by the fewest steps. The first of them is reached from nowhere.
fn reach(
    reached: &mut Vec<Reached>,
    records: &StepRecords,
    place: usize,
) -> Result<(), AllocError> {
    let (previous, steps) = match nearest(reached.as_slice(), records, place) {
        Some(previous) => previous,
        None => (0, 0),
    };
    reached.push(Reached {
        place,
        previous,
        steps,
    })?;
    Ok(())
}

/// The number of the one with the fewest steps on which the step at a place depends directly, and how many steps its chain has with that
/// step.
fn nearest(reached: &[Reached], records: &StepRecords, place: usize) -> Option<(usize, usize)> {
    let mut best: Option<(usize, usize)> = None;
    for (number, one) in reached.iter().enumerate() {
        let steps = one.steps.saturating_add(1);
        if is_fewer(steps, best) && reason_at(records, one.place, place).is_some() {
            best = Some((number, steps));
        }
    }
    best
}

fn is_fewer(steps: usize, best: Option<(usize, usize)>) -> bool {
    match best {
        Some((_, least)) => steps < least,
        None => true,
    }
}

/// The chain to the last that was reached, if that is the second step. Each dependence is asked once more, so that the chain is
/// one whatever was reached.
fn walk_back(
    alloc: Global,
    records: &StepRecords,
    reached: &[Reached],
    from: usize,
    to: usize,
) -> Result<Option<VecDeque<usize>>, AllocError>
    ensures { IfOk result (λ found. IfSome found (λ chain. IsChain records.now.items from to chain.items)) }
{
    let Some(last) = reached.last() else {
        return Ok(None);
    };
    if last.place != to {
        return Ok(None);
    }
    let mut chain = VecDeque::new(alloc);
    chain.push_front(to)?;
    let mut here = to;
    let mut number = reached.len() - 1;
    while number > 0 {
        let previous = reached[number].previous;
        if previous >= number {
            return Ok(None);
        }
        let place = reached[previous].place;
        if !is_link(records, place, here) {
            return Ok(None);
        }
        chain.push_front(place)?;
        here = place;
        number = previous;
    }
    if here != from {
        return Ok(None);
    }
    Ok(Some(chain))
}

/// Whether the step at a later place depends directly on one at an earlier place.
fn is_link(records: &StepRecords, earlier: usize, later: usize) -> bool
    ensures { result ≡ is_link records.now.items earlier later }
{
    earlier < later && reason_at(records, earlier, later).is_some()
}
