// Why a step depends on another.
ghost use Rattle.std.specs.Prelude.{◌≡◌};
ghost use Rattle.depends.specs.Reasons.{reason_between};

use crate::depend::{awaits, begins, closes, conflict, makes};
use saved_steps::Fact;

/// Why a later step depends directly on an earlier one.
#[derive(Clone, Copy, Debug, Drop, PartialEq, Eq)]
pub enum Reason {
    /// Both are steps of one thread.
    Thread,
    /// The earlier one is the start of the later one's execution.
    Start,
    /// The earlier one is a fork that the later one's thread lies under.
    Fork,
    /// The later one is a join or a terminate of a fork that the earlier one's thread lies under.
    Join,
    /// Both access the item of one key, and not both read it.
    Item,
    /// The later one is a branch's first move, which waited for the earlier one's branch under a Map's bound.
    Bound,
}

/// Why the later of two steps depends directly on the earlier one; nothing, where it doesn't. Of several reasons it is the first in
/// the order in which `Reason` has them. Takes no memory, and time in the lengths of the names and keys.
pub fn reason_of(earlier: &Fact, later: &Fact) -> Option<Reason>
    ensures { result ≡ reason_between earlier.now later.now }
{
    if earlier.name.thread == later.name.thread {
        Some(Reason::Thread)
    } else if begins(earlier, &later.name.thread) {
        Some(Reason::Start)
    } else if makes(earlier, &later.name.thread) {
        Some(Reason::Fork)
    } else if closes(later, &earlier.name.thread) {
        Some(Reason::Join)
    } else if conflict(&earlier.access, &later.access) {
        Some(Reason::Item)
    } else if awaits(later, &earlier.name.thread) {
        Some(Reason::Bound)
    } else {
        None
    }
}
