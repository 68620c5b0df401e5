// Why a shared book refuses a call.
ghost use Rattle.std.specs.Prelude.{◌≡◌};
ghost use Rattle.shared_book.specs.Calls.{is_held};
ghost use Rattle.shared_book.specs.Commits.{is_turn_held};

use book_events::Staleness;
use book_events::turns::Prepared;
use book_log::{Entry, Refusal};
use std::alloc::AllocError;
use step_names::StepName;

/// Why a call of a shared book is refused. Each refusal leaves the book and the pass as they were, and
/// but for `commit` and a step that is held back the claims.
#[derive(Debug, Drop)]
pub enum SharedRefusal {
    /// The pass is of another book: what stands at this number isn't what it has seen.
    ForeignPass { number: usize, there: Option<Entry> },
    /// The book refuses the command, or memory was refused to the call itself.
    Refused(Refusal),
}

impl SharedRefusal {
    /// Whether the step would depend on what a hold has left.
    pub fn is_held(&self) -> bool
        ensures { result ≡ is_held self.now }
    {
        matches!(self, SharedRefusal::Refused(Refusal::Held(_)))
    }
}

impl From<AllocError> for SharedRefusal {
    ghost use Rattle.std.specs.Prelude.{◌≡◌};
    ghost use Rattle.book_log.specs.declared.refusal.Refusal.TheVariants.{Memory};
    ghost use Rattle.shared_book.specs.declared.refusal.SharedRefusal.TheVariants.{Refused};

    ghost from_gives = { λ _ e. e ≡ Refused Memory };

    fn from(_refused: AllocError) -> SharedRefusal {
        SharedRefusal::Refused(Refusal::Memory)
    }
}

impl From<Refusal> for SharedRefusal {
    ghost use Rattle.std.specs.Prelude.{◌≡◌};
    ghost use Rattle.shared_book.specs.declared.refusal.SharedRefusal.TheVariants.{Refused};

    ghost from_gives = { λ refusal e. e ≡ Refused refusal };

    fn from(refusal: Refusal) -> SharedRefusal {
        SharedRefusal::Refused(refusal)
    }
}

/// Why a turn isn't taken. Each refusal leaves the book and the pass as they were, and the claim has ended.
#[derive(Debug, Drop)]
pub enum SharedCommitRefusal {
    /// The turn is no longer its thread's, and comes back.
    Stale(Staleness, Prepared),
    /// The step would depend directly on this one, which a hold has left. The turn comes back.
    Held(StepName, Prepared),
    /// The pass is of another book, the book is full, or memory was refused. The turn is dropped.
    Refused(SharedRefusal),
}

impl SharedCommitRefusal {
    /// Whether the step would depend on what a hold has left.
    pub fn is_held(&self) -> bool
        ensures { result ≡ is_turn_held self.now }
    {
        matches!(self, SharedCommitRefusal::Held(_, _))
    }
}

/// Why a shared book isn't closed.
#[derive(Debug, Drop)]
pub enum CloseFault {
    /// A pass is of another book: what stands at this number isn't what it has seen.
    ForeignPass { number: usize, there: Option<Entry> },
    /// None of the passes has a receipt for this entry.
    Missing { number: usize },
    /// Memory was refused.
    Memory,
}
