// Why a journaled book refuses.

use attr_values::ItemFault;
use book_journal::JournalFault;
use book_log::Refusal;
use command_lines::CommandFault;
use std::alloc::AllocError;

/// Why a journal gives no book.
#[derive(Clone, Copy, Debug, PartialEq, Eq)]
pub enum OpenFault {
    /// The line of this number isn't what its place needs, or the book refuses its command.
    Damaged(usize),
    /// The journal refuses, for another cause than memory.
    Journal(JournalFault),
    /// Memory was refused.
    Memory,
}

impl From<JournalFault> for OpenFault {
    ghost use Rattle.std.specs.Prelude.{◌≡◌};
    ghost use Rattle.journaled_book.specs.Reading.{open_fault_of};

    ghost from_gives = { λ fault e. e ≡ open_fault_of fault };

    fn from(fault: JournalFault) -> OpenFault {
        match fault {
            JournalFault::Memory => OpenFault::Memory,
            fault => OpenFault::Journal(fault),
        }
    }
}

/// Why no book is begun. Each refusal leaves the journal as it was.
#[derive(Debug, Drop)]
pub enum BeginRefusal {
    /// An item is none, or memory was refused.
    Item(ItemFault),
    /// The journal refuses the line.
    Journal(JournalFault),
}

/// Why a command isn't entered. Each refusal leaves book and journal as they were.
#[derive(Debug, Drop)]
pub enum EntryFault {
    /// The book refuses.
    Book(Refusal),
    /// The journal refuses the line.
    Journal(JournalFault),
}

impl From<AllocError> for EntryFault {
    ghost use Rattle.std.specs.Prelude.{◌≡◌};
    ghost use Rattle.book_log.specs.declared.refusal.Refusal.TheVariants.{Memory};
    ghost use Rattle.journaled_book.specs.declared.fault.EntryFault.TheVariants.{Book};

    ghost from_gives = { λ _ e. e ≡ Book Memory };

    fn from(_refused: AllocError) -> EntryFault {
        EntryFault::Book(Refusal::Memory)
    }
}

impl From<Refusal> for EntryFault {
    ghost use Rattle.std.specs.Prelude.{◌≡◌};
    ghost use Rattle.journaled_book.specs.declared.fault.EntryFault.TheVariants.{Book};

    ghost from_gives = { λ refusal e. e ≡ Book refusal };

    fn from(refusal: Refusal) -> EntryFault {
        EntryFault::Book(refusal)
    }
}

/// Why a line gives no book.
#[derive(Clone, Copy)]
pub(crate) enum LineFault {
    /// It isn't what its place needs, or the book refuses its command.
    Damaged,
    /// Memory was refused.
    Memory,
}
