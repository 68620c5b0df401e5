// Why a command is refused.
use asl_machine::MachineFault;
use depends::branches::Readiness;
use std::alloc::{AllocError, AllocFailed};
use step_names::StepName;

/// Why a command is refused. Each refusal leaves the book as it was.
#[derive(Debug, Drop)]
pub enum Refusal {
    /// 1: no machine of this name is defined.
    NoMachine,
    /// 2: a machine of this name is defined.
    MachineTaken,
    /// 3: the definition is none.
    BadMachine(MachineFault),
    /// 4: an execution of this name is there.
    ExecTaken,
    /// 5: there is no such thread.
    NoThread,
    /// 6: the thread has no move.
    NotReady(Readiness),
    /// 7: no such step remains.
    NoStep,
    /// 8: this is the first remaining step that depends directly on the one asked for.
    HasDependents(StepName),
    /// 9: commands were accepted since the plan was made. So many entries has the log now.
    Stale(usize),
    /// 10: as many steps remain, or as many commands were accepted, as the book can keep.
    Full,
    /// 11: memory was refused.
    Memory,
    /// 12: the step was settled, and can't be taken back any more.
    Settled,
    /// 13: a hold stands. A hold and a settlement are told its step; a move is told the earliest step, of what is left to be
    /// taken back, on which it would depend directly.
    Held(StepName),
}

impl From<AllocError> for Refusal {
    ghost use Rattle.std.specs.Prelude.{◌≡◌};
    ghost use Rattle.book_log.specs.declared.refusal.Refusal.TheVariants.{Memory};

    ghost from_gives = { λ _ e. e ≡ Memory };

    fn from(_refused: AllocError) -> Refusal {
        Refusal::Memory
    }
}

impl<T: Drop> From<AllocFailed<T>> for Refusal {
    ghost use Rattle.std.specs.Prelude.{◌≡◌};
    ghost use Rattle.book_log.specs.declared.refusal.Refusal.TheVariants.{Memory};

    ghost from_gives = { λ _ e. e ≡ Memory };

    fn from(_refused: AllocFailed<T>) -> Refusal {
        Refusal::Memory
    }
}
