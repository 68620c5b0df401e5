// What is done to a book and its journal together.
ghost use Rattle.std.specs.Prelude.{◌≡◌, [], IsOk, IfOk, IfErr, OnOk, OnErr};
ghost use Rattle.sqlite.specs.Held.{state};
ghost use Rattle.book_log.specs.Beginning.{begun_table};
ghost use Rattle.book_log.specs.Log.{appended};
ghost use Rattle.book_journal.specs.Kept.{IsAtRest};
ghost use Rattle.journaled_book.specs.Changes.{Appends, IsStoreFault, RefusesBegin};

use crate::fault::BeginRefusal;
use book_events::BookCalls;
use book_journal::{Journal, JournalFault};
use book_log::Begin;
use sqlite::Alter;
use std::alloc::Global;

/// Opens a book and appends its line.
pub(crate) fn begin<B: BookCalls, S: Alter>(
    alloc: Global,
    journal: &mut Journal<S>,
    begin: Begin,
    line: &str,
) -> Result<B, BeginRefusal>
    requires { IsAtRest (state S.Store journal.old) }
    ensures ok { IfOk result (λ book. (B.log book ≡ record { begin = begin; entries = [] }) × IsOk (begun_table begin)) }
    ensures refused { IfErr result (RefusesBegin begin) }
    ensures journal { Appends (state S.Store journal.old) (state S.Store journal.new) line.now result }
{
    let book = match B::open(alloc, begin) {
        Ok(book) => book,
        Err(fault) => return Err(BeginRefusal::Item(fault)),
    };
    let Err(fault) = append(journal, line) else {
        return Ok(book);
    };
    drop(book);
    Err(BeginRefusal::Journal(fault))
}

pub(crate) fn enter<B: BookCalls, S: Alter>(
    book: &mut B,
    journal: &mut Journal<S>,
    made: B::Made,
    line: &str,
) -> Result<(), JournalFault>
    requires { B.can_enter book.old made }
    ensures ok { OnOk result (B.log book.new ≡ appended (B.log book.old) (B.entry_in made)) }
    ensures refused { IfErr result IsStoreFault }
    ensures err { OnErr result (book.new ≡ book.old) }
    ensures journal { Appends (state S.Store journal.old) (state S.Store journal.new) line.now result }
{
    match append(journal, line) {
        Ok(()) => {
            book.enter(made);
            Ok(())
        }
        Err(fault) => {
            drop(made);
            Err(fault)
        }
    }
}

fn append<S: Alter>(journal: &mut Journal<S>, line: &str) -> Result<(), JournalFault>
    ensures refused { IfErr result IsStoreFault }
    ensures journal { Appends (state S.Store journal.old) (state S.Store journal.new) line.now result }
{
    journal.append(&[line])
}
