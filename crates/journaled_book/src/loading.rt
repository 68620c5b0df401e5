// The book that a journal's lines give.
ghost use Rattle.std.specs.Prelude.{◌≡◌, ℕ, Err, IfOk, IfErr, map, string_bytes};
ghost use Rattle.sqlite.specs.Held.{state};
ghost use Rattle.sqlite.specs.State.{HasCleanDisk};
ghost use Rattle.book_journal.specs.Kept.{lines_in};
ghost use Rattle.journaled_book.specs.Changes.{IsRead};
ghost use Rattle.journaled_book.specs.Journaled.{log_of};
ghost use Rattle.journaled_book.specs.Opening.{Give, HasDamageAt, OpensTo, RefusesOpen};
ghost use Rattle.journaled_book.specs.Reading.{fault_at, open_fault_of};

use crate::fault::{LineFault, OpenFault};
use crate::lines::add_line;
use book_events::BookCalls;
use book_journal::{Journal, JournalFault};
use sqlite::Alter;
use std::alloc::Global;

/// The book of a journal's lines, none where it has none.
pub(crate) fn load<B: BookCalls, S: Alter>(
    alloc: Global,
    journal: &mut Journal<S>,
) -> Result<Option<B>, OpenFault>
    ensures opened { HasCleanDisk (state S.Store journal.new) → IfOk result (λ book. OpensTo (lines_in (state S.Store journal.old)) (log_of B.log book)) }
    ensures refused { HasCleanDisk (state S.Store journal.new) → IfErr result (RefusesOpen (state S.Store journal.old) (state S.Store journal.new)) }
    ensures memory { ¬ (result ≡ Err (OpenFault.Journal JournalFault.Memory)) }
    ensures journal { IsRead (state S.Store journal.old) (state S.Store journal.new) }
{
    match journal.load(alloc) {
        Ok(lines) => book_of(alloc, lines.as_slice()),
        Err(fault) => Err(open_fault(fault)),
    }
}

/// How it is told that the journal doesn't show its lines.
fn open_fault(fault: JournalFault) -> OpenFault
    ensures { result ≡ open_fault_of fault }
{
    OpenFault::from(fault)
}

/// The book of these lines, which are applied one after another.
fn book_of<B: BookCalls>(alloc: Global, lines: &[String]) -> Result<Option<B>, OpenFault>
    ensures ok { IfOk result (λ book. Give (map string_bytes lines.now) (log_of B.log book)) }
    ensures damaged { (place : ℕ) → result ≡ Err (OpenFault.Damaged place) → HasDamageAt (map string_bytes lines.now) place }
    ensures named { (fault : JournalFault) → ¬ (result ≡ Err (OpenFault.Journal fault)) }
{
    let mut book = None;
    let mut place = 0;
    for line in lines {
        match add_line(alloc, book, line.as_str()) {
            Ok(after) => book = Some(after),
            Err(fault) => return Err(fault_at(place, fault)),
        }
        place += 1;
    }
    Ok(book)
}

/// How a fault of the line at a place is told.
fn fault_at(place: usize, fault: LineFault) -> OpenFault
    ensures { result ≡ fault_at place fault }
{
    match fault {
        LineFault::Damaged => OpenFault::Damaged(place),
        LineFault::Memory => OpenFault::Memory,
    }
}
