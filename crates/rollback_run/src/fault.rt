// Why a run fails, and how that is told.
ghost use Rattle.std.specs.Prelude.{◌≡◌};
ghost use Rattle.book_journal.specs.Faults.{journal_fault_of};
ghost use Rattle.operator_line.specs.Serving.{WritesReply};
ghost use Rattle.rollback_run.specs.Faults.{exit_text, fault_status, outcome_status, of_journal, of_open, of_serve, IsExitFaultSaid};

use crate::writing::write_number;
use book_journal::JournalFault;
use operator_line::journaled::OpenFault;
use operator_line::{ServeFault, write_all};
use sqlite::Error;
use std::io::Write;

/// The input ended, the check passed, or help was asked for.
pub const ENDED: u8 = 0;

/// The words of the command line are wrong.
pub const USAGE: u8 = 2;

/// The journal gives no book.
pub const REFUSED: u8 = 3;

/// The input can't be read, the output can't be written, or memory was refused.
pub const FAILED: u8 = 4;

/// Why a run fails.
#[derive(Clone, Copy, Debug, PartialEq, Eq)]
pub enum ExitFault {
    /// The journal's line of this number isn't what its place needs, or is refused.
    Damaged(usize),
    /// The journal's number at this position is another.
    Gap(usize),
    /// The journal's database refuses.
    Store,
    /// The input can't be read.
    Input,
    /// The output can't be written.
    Output,
    /// Memory was refused.
    Memory,
}

impl ExitFault {
    /// How a refusal of the journal is told.
    pub(crate) fn of_journal(fault: JournalFault) -> ExitFault
        ensures { result ≡ of_journal fault }
    {
        match fault {
            JournalFault::Store(_) => ExitFault::Store,
            JournalFault::Gap(position) => ExitFault::Gap(position),
            JournalFault::Memory => ExitFault::Memory,
        }
    }

    /// How a refusal to connect is told.
    pub(crate) fn of_connection(cause: Error) -> ExitFault
        ensures { result ≡ of_journal (journal_fault_of cause) }
    {
        ExitFault::of_journal(JournalFault::from(cause))
    }

    /// How a journal is told that gives no book.
    pub(crate) fn of_open(fault: OpenFault) -> ExitFault
        ensures { result ≡ of_open fault }
    {
        match fault {
            OpenFault::Damaged(line) => ExitFault::Damaged(line),
            OpenFault::Journal(fault) => ExitFault::of_journal(fault),
            OpenFault::Memory => ExitFault::Memory,
        }
    }

    /// How an end of serving is told.
    pub(crate) fn of_serve(fault: ServeFault) -> ExitFault
        ensures { result ≡ of_serve fault }
    {
        match fault {
            ServeFault::Read => ExitFault::Input,
            ServeFault::Write => ExitFault::Output,
            ServeFault::Journal => ExitFault::Store,
            ServeFault::Memory => ExitFault::Memory,
        }
    }

    fn status(self) -> u8
        ensures { result ≡ fault_status self }
    {
        match self {
            ExitFault::Damaged(_) | ExitFault::Gap(_) | ExitFault::Store => REFUSED,
            ExitFault::Input | ExitFault::Output | ExitFault::Memory => FAILED,
        }
    }

    /// Writes what is told of it.
    fn tell<W: Write>(self, faults: &mut W) -> Result<(), ServeFault>
        ensures { WritesReply result (exit_text self) (W.contents faults.old) (W.contents faults.new) }
    {
        match self {
            ExitFault::Damaged(line) => write_number(faults, b"rollback: damaged ", line, b"\n"),
            ExitFault::Gap(position) => write_number(faults, b"rollback: gap ", position, b"\n"),
            ExitFault::Store => write_all(faults, b"rollback: store\n"),
            ExitFault::Input => write_all(faults, b"rollback: input\n"),
            ExitFault::Output => write_all(faults, b"rollback: output\n"),
            ExitFault::Memory => write_all(faults, b"rollback: memory\n"),
        }
    }
}

/// The status of a run's outcome, which is told where it is a fault. Where even that can't be written, the status alone tells it.
pub(crate) fn end<W: Write>(outcome: Result<(), ExitFault>, faults: &mut W) -> u8
    ensures status { result ≡ outcome_status outcome }
    ensures told { IsExitFaultSaid outcome (W.contents faults.old) (W.contents faults.new) }
{
    match outcome {
        Ok(()) => ENDED,
        Err(fault) => {
            let _ = fault.tell(faults);
            fault.status()
        }
    }
}
