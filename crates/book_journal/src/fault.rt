use sqlite::{Error, ErrorCode};
use std::alloc::{AllocError, AllocFailed};
use std::fmt;

/// Why a call of a journal was refused.
#[derive(Clone, Copy, Debug, PartialEq, Eq)]
pub enum JournalFault {
    /// The database refused, for another cause than memory.
    Store(Error),
    /// The number at this position, counted from 0 in the order of the numbers, is another than the position.
    Gap(usize),
    /// Memory was refused.
    Memory,
}

impl fmt::Display for JournalFault {
    fn fmt<W: fmt::Write>(&self, f: &mut fmt::Formatter<W>) -> fmt::Result {
        match self {
            JournalFault::Store(cause) => write!(f, "the journal's database: {cause}"),
            JournalFault::Gap(position) => write!(f, "the journal has no line {position}"),
            JournalFault::Memory => f.write_str("out of memory"),
        }
    }
}

impl std::error::Error for JournalFault {}

impl From<Error> for JournalFault {
    ghost use Rattle.std.specs.Prelude.{◌≡◌};
    ghost use Rattle.book_journal.specs.Faults.{journal_fault_of};

    ghost from_gives = { λ e fault. fault ≡ journal_fault_of e };

    fn from(error: Error) -> JournalFault {
        match error {
            Error::SqliteFailure(ErrorCode::OutOfMemory) => JournalFault::Memory,
            cause => JournalFault::Store(cause),
        }
    }
}

impl From<AllocError> for JournalFault {
    ghost use Rattle.std.specs.Prelude.{◌≡◌};
    ghost use Rattle.book_journal.specs.declared.fault.JournalFault.TheVariants.{Memory};

    ghost from_gives = { λ _ fault. fault ≡ Memory };

    fn from(_: AllocError) -> JournalFault {
        JournalFault::Memory
    }
}

impl<T: Drop> From<AllocFailed<T>> for JournalFault {
    ghost use Rattle.std.specs.Prelude.{◌≡◌};
    ghost use Rattle.book_journal.specs.declared.fault.JournalFault.TheVariants.{Memory};

    ghost from_gives = { λ _ fault. fault ≡ Memory };

    fn from(_: AllocFailed<T>) -> JournalFault {
        JournalFault::Memory
    }
}
