ghost use Rattle.std.specs.Prelude.{◌≡◌, ℕ, List, [], None, Some, IsOk, IsSome, IfOk, IfErr, IfSome, OnOk, OnErr, MatchResult, is_some, option_map};
ghost use Rattle.sqlite.specs.Held.{state};
ghost use Rattle.sqlite.specs.State.{HasCleanDisk};
ghost use Rattle.book_log.specs.Beginning.{begun_table};
ghost use Rattle.book_log.specs.Legal.{IsAccepted};
ghost use Rattle.book_journal.specs.Kept.{lines_in};
ghost use Rattle.book_events.specs.Answered.{IsCommandAnswered, IsProperChange, entry_by};
ghost use Rattle.journaled_book.specs.Changes.{Appends, IsRead, IsMadeReady, IsStoreFault, RefusesBegin};
ghost use Rattle.journaled_book.specs.Journaled.{IsJournalOf, log_of, with_entry};
ghost use Rattle.journaled_book.specs.Lines.{IsBeginLine, IsLineOf, SaysChange};
ghost use Rattle.journaled_book.specs.Opening.{OpensTo, RefusesOpen};

use crate::changing;
use crate::fault::{BeginRefusal, OpenFault};
use crate::loading::load;
use book_events::{BookCalls, Change};
use book_journal::{Journal, JournalFault};
use book_log::{Begin, Refusal};
use sqlite::Alter;
use std::alloc::Global;
use std::marker::Model;

/// The book of one session, none before its table is given, and the journal of its accepted lines: line 0 is the table's, and line n
/// that of the log's entry n.
///
/// Contracts see the book and what the journal's connection shows. While the disk is clean and the connection open, the
/// journal's lines are those of the book's log.
#[derive(Drop)]
pub struct JournaledBook<B: BookCalls, S: Alter> {
    pub(crate) book: Option<B>,
    pub(crate) journal: Journal<S>,
}

impl<B: BookCalls, S: Alter> Model for JournaledBook<B, S> {
    ghost use Rattle.journaled_book.specs.Journaled.{Journaled, journaled_code, IsJournalOf, log_of};
    ghost use Rattle.std.specs.Coded.{coded_option};
    ghost use Rattle.sqlite.specs.Held.{state};

    ghost Value = { Journaled B S };

    ghost coded = { journaled_code (coded_option B.code) S.code };

    ghost view = { λ j. record { book = j.book; journal = j.journal } };

    ghost invariant = { λ j. IsJournalOf (state S.Store j.journal) (log_of B.log j.book) };
}

impl<B: BookCalls, S: Alter> JournaledBook<B, S> {
    /// Loads the journal's lines and applies them one after another, without replies: no text is read twice. A journal without
    /// lines gives no book. Takes memory for all lines at once, which is given back, and for the book; time is that of its commands.
    ///
    /// # Errors
    ///
    /// `Damaged` with the number of the first line that isn't what its place needs or is refused for another cause than memory,
    /// `Journal` as `Journal::load` refuses, and `Memory`. The journal is handed back as it was.
    pub fn open(
        alloc: Global,
        journal: Journal<S>,
    ) -> Result<JournaledBook<B, S>, (OpenFault, Journal<S>)>
        ensures opened { IfOk result (λ j. HasCleanDisk (state S.Store j.journal) → OpensTo (lines_in (state S.Store journal)) (log_of B.log j.book)) }
        ensures refused { IfErr result (λ e. HasCleanDisk (state S.Store e.1) → RefusesOpen (state S.Store journal) (state S.Store e.1) e.0) }
        ensures memory { IfErr result (λ e. ¬ (e.0 ≡ OpenFault.Journal JournalFault.Memory)) }
        ensures read { MatchResult result (λ j. IsRead (state S.Store journal) (state S.Store j.journal)) (λ e. IsRead (state S.Store journal) (state S.Store e.1)) }
    {
        let mut journal = journal;
        match load(alloc, &mut journal) {
            Ok(book) => Ok(JournaledBook { book, journal }),
            Err(fault) => Err((fault, journal)),
        }
    }

    /// The book, once its table was given. Takes no memory.
    pub fn book(&self) -> Option<&B>
        ensures book { option_map (λ book. book.now) result ≡ self.now.book }
        ensures journal { IsJournalOf (state S.Store self.now.journal) (log_of B.log self.now.book) }
    {
        self.book.as_ref()
    }

    /// Whether the table was given.
    pub fn is_open(&self) -> bool
        ensures { result ≡ is_some self.now.book }
    {
        self.book.is_some()
    }

    /// The journal, which holds the lines of the book.
    pub fn into_journal(self) -> Journal<S>
        ensures same { result ≡ self.journal }
        ensures journal { IsJournalOf (state S.Store result) (log_of B.log self.book) }
    {
        let JournaledBook { book, journal } = self;
        drop(book);
        journal
    }

    /// Begins the book by its table's line. Takes what `Book::open` takes, and then an append's time.
    ///
    /// # Errors
    ///
    /// `Item` as `Book::open` refuses, and `Journal`. There is no book then, and the journal is as it was.
    pub fn begin(&mut self, alloc: Global, begin: Begin, line: &str) -> Result<(), BeginRefusal>
        requires closed { self.old.book ≡ None }
        requires line { IsBeginLine line.now begin }
        ensures ok { OnOk result ((log_of B.log self.new.book ≡ Some (record { begin = begin; entries = [] })) × IsOk (begun_table begin)) }
        ensures refused { IfErr result (RefusesBegin begin) }
        ensures err { OnErr result (self.new.book ≡ None) }
        ensures journal { Appends (state S.Store self.old.journal) (state S.Store self.new.journal) line.now result }
    {
        let book = changing::begin(alloc, &mut self.journal, begin, line)?;
        put(&mut self.book, book);
        Ok(())
    }

    /// Makes everything that a command needs but its line in the journal, as `Book::ready_entry`. The log and the journal
    /// are the same then.
    ///
    /// # Errors
    ///
    /// As the book refuses the command.
    pub fn prepare(&mut self, alloc: Global, change: Change<'_>) -> Result<B::Made, Refusal>
        requires open { IsSome self.old.book }
        requires proper { IsProperChange change }
        ensures answer { IfSome self.old.book (λ b. IsCommandAnswered (B.log b) change.entry (entry_by B.entry_in result)) }
        ensures accepted { IfSome self.old.book (λ b. IfOk result (λ made. IsAccepted (B.log b) (B.entry_in made))) }
        ensures ready { IfOk result (λ made. IsMadeReady B.can_enter self.new.book made) }
        ensures line { IfOk result (λ made. (line : List ℕ) → SaysChange change.entry line → IsLineOf line (B.entry_in made)) }
        ensures log { log_of B.log self.new.book ≡ log_of B.log self.old.book }
        ensures journal { self.new.journal ≡ self.old.journal }
    {
        let Some(book) = &mut self.book else {
            unreachable!()
        };
        book.ready_entry(alloc, change)
    }

    /// Appends the line of a command for which everything is made, and then enters it, if the book is as that left it. The
    /// book takes no memory.
    ///
    /// # Errors
    ///
    /// As the journal refuses the line. Book and journal are as before then.
    pub fn enter(&mut self, made: B::Made, line: &str) -> Result<(), JournalFault>
        requires ready { IsMadeReady B.can_enter self.old.book made }
        requires line { IsLineOf line.now (B.entry_in made) }
        ensures ok { OnOk result (log_of B.log self.new.book ≡ with_entry (log_of B.log self.old.book) (B.entry_in made)) }
        ensures refused { IfErr result IsStoreFault }
        ensures err { OnErr result (self.new.book ≡ self.old.book) }
        ensures journal { Appends (state S.Store self.old.journal) (state S.Store self.new.journal) line.now result }
    {
        let Some(book) = &mut self.book else {
            unreachable!()
        };
        changing::enter(book, &mut self.journal, made, line)
    }
}

/// In a function of its own, since an assignment drops the old value.
fn put<B: BookCalls>(place: &mut Option<B>, book: B)
    requires { place.old ≡ None }
    ensures { place.new ≡ Some book }
{
    *place = Some(book);
}
