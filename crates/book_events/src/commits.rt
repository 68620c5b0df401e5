// Why a turn that was prepared apart from a book isn't taken.
use book_log::Refusal;
use branch_tree::Readiness;
use step_history::turns::Prepared;
use step_names::StepName;

/// Why a turn that was prepared is no longer its thread's.
#[derive(Debug, Drop)]
pub enum Staleness {
    /// There is no such thread.
    Gone,
    /// The thread isn't ready: it is parked, done or failed; or it is a branch that may not begin now. This is what it can do
    /// next.
    NotReady(Readiness),
    /// The thread is ready after another number of moves: this one.
    Moved(u32),
    /// It is ready after as many moves, and its frame, or the book's machine of that name, is another.
    Other,
}

/// Why a turn isn't taken. Each refusal leaves the book as it was.
#[derive(Debug, Drop)]
pub enum CommitRefusal {
    /// 9: the turn is no longer its thread's, and comes back.
    Stale(Staleness, Prepared),
    /// 13: the step would depend directly on this one, which a hold has left. The turn comes back.
    Held(StepName, Prepared),
    /// 10 and 11: `Full` or `Memory`; the turn is dropped.
    Refused(Refusal),
}
