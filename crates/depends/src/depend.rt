//! Dependence between steps (Danos and Krivine, "Reversible Communicating Systems", 2004: causality; items that steps share
//! are added).

ghost use Rattle.std.specs.Prelude.{◌≡◌, ◌<◌, is_some, length, map};
ghost use Rattle.depends.specs.Dependence.{depends_directly, awaited, awaits, begins, conflicts};
ghost use Rattle.depends.specs.Plans as plans;
ghost use Rattle.saved_steps.specs.Steps.{makes, closes, is_write};

use item_store::AccessMode;
use saved_steps::{Access, Fact, Kind, StepRecord};
use step_names::ThreadName;

/// Whether the later of two steps depends directly on the earlier one. Takes no memory, and time in the lengths of the names
/// and keys.
pub fn depends(earlier: &Fact, later: &Fact) -> bool
    ensures { result ≡ depends_directly earlier.now later.now }
{
    earlier.name.thread == later.name.thread
        || begins(earlier, &later.name.thread)
        || makes(earlier, &later.name.thread)
        || closes(later, &earlier.name.thread)
        || conflict(&earlier.access, &later.access)
        || awaits(later, &earlier.name.thread)
}

/// Whether a step is the start of a thread's execution.
pub(crate) fn begins(fact: &Fact, thread: &ThreadName) -> bool
    ensures { result ≡ begins fact.now thread.now }
{
    match fact.kind {
        Kind::Start => fact.name.thread.exec() == thread.exec(),
        _ => false,
    }
}

/// Whether a step is a fork that a thread lies under.
pub(crate) fn makes(fact: &Fact, thread: &ThreadName) -> bool
    ensures { result ≡ makes fact.now thread.now }
{
    match fact.kind {
        Kind::Fork => thread.is_under(&fact.name.thread, fact.name.no),
        _ => false,
    }
}

/// Whether a step closes a fork that a thread lies under.
pub(crate) fn closes(fact: &Fact, thread: &ThreadName) -> bool
    ensures { result ≡ closes fact.now thread.now }
{
    match fact.kind {
        // the fork is the step before
        Kind::Join | Kind::Terminate => {
            thread.is_under(&fact.name.thread, fact.name.no.saturating_sub(1))
        }
        _ => false,
    }
}

/// Whether a thread is a branch for which a first move waited, or lies under one.
pub(crate) fn awaits(fact: &Fact, thread: &ThreadName) -> bool
    ensures { result ≡ awaits fact.now thread.now }
{
    if fact.bound == 0 || fact.name.thread.exec() != thread.exec() {
        return false;
    }
    is_awaited(fact.bound, fact.name.thread.path(), thread.path())
}

/// Whether a path goes on from one of the branches for which a branch waits under a bound.
fn is_awaited(bound: u32, branch: &[(u32, u32)], path: &[(u32, u32)]) -> bool
    ensures { result ≡ is_some (awaited bound branch.now path.now) }
{
    let [first, above @ ..] = branch else {
        return false;
    };
    let [other, rest @ ..] = path else {
        return false;
    };
    if above.is_empty() {
        return other.0 == first.0 && other.1 as u64 + bound as u64 <= first.1 as u64;
    }
    first.0 == other.0 && first.1 == other.1 && is_awaited(bound, above, rest)
}

/// Whether two accesses are of one key, and not both reads.
pub(crate) fn conflict(earlier: &Option<Access>, later: &Option<Access>) -> bool
    ensures { result ≡ conflicts earlier.now later.now }
{
    match (earlier, later) {
        (Some(earlier), Some(later)) => {
            earlier.key == later.key && (is_write(earlier.mode) || is_write(later.mode))
        }
        _ => false,
    }
}

fn is_write(mode: AccessMode) -> bool
    ensures { result ≡ is_write mode }
{
    match mode {
        AccessMode::Write => true,
        AccessMode::Read => false,
    }
}

/// The place of the earliest step after the one at a place that depends directly on it. Takes no memory, and one comparison
/// for each later step up to that one.
pub fn first_dependent(records: &[StepRecord], at: usize) -> Option<usize>
    requires { at < length records.now }
    ensures { result ≡ plans.first_dependent (map (λ r. r.fact) records.now) at }
{
    let fact = &records[at].fact;
    for place in at + 1..records.len() {
        if depends(fact, &records[place].fact) {
            return Some(place);
        }
    }
    None
}
