// A journal whose book is away.
ghost use Rattle.std.specs.Prelude.{◌≡◌, Some, IsSome, IfOk, IfErr};
ghost use Rattle.sqlite.specs.Held.{state};
ghost use Rattle.book_journal.specs.Entries.{texts};
ghost use Rattle.journaled_book.specs.Changes.{AppendsAll};
ghost use Rattle.journaled_book.specs.Journaled.{GoesOnBy, IsJournalOf, journal_of, log_of};

use crate::book::JournaledBook;
use book_events::BookCalls;
use book_journal::Journal;
use sqlite::Alter;
use std::marker::Model;
use std::snapshot::Snapshot;

/// The journal of a book that was taken out, while others work on it. It holds the lines of the book as it was then. Where the book
/// can't be put back, this is what is left of the session.
///
/// Contracts see the book as it was, and what the journal's connection shows.
#[derive(Drop)]
pub struct AwayBook<B: BookCalls, S: Alter> {
    was: Snapshot<B>,
    journal: Journal<S>,
}

impl<B: BookCalls, S: Alter> Model for AwayBook<B, S> {
    ghost use Rattle.std.specs.Prelude.{Some};
    ghost use Rattle.journaled_book.specs.Journaled.{Journaled, journaled_code, IsJournalOf};
    ghost use Rattle.std.specs.Coded.{coded_option};
    ghost use Rattle.sqlite.specs.Held.{state};

    ghost Value = { Journaled B S };

    ghost coded = { journaled_code (coded_option B.code) S.code };

    ghost view = { λ j. record { book = Some j.was.value; journal = j.journal } };

    ghost invariant = { λ j. IsJournalOf (state S.Store j.journal) (Some (B.log j.was.value)) };
}

impl<B: BookCalls, S: Alter> JournaledBook<B, S> {
    /// Takes the book out. Takes no memory.
    pub fn take_out(self) -> (B, AwayBook<B, S>)
        requires open { IsSome self.book }
        ensures book { self.book ≡ Some result.0 }
        ensures away { result.1 ≡ self }
    {
        let JournaledBook { book, journal } = self;
        let Some(book) = book else { unreachable!() };
        let was = Snapshot::of(&book);
        (book, AwayBook { was, journal })
    }
}

impl<B: BookCalls, S: Alter> AwayBook<B, S> {
    /// Puts the book back, whose log is the one from before. Takes no memory.
    pub fn put_back(self, book: B) -> JournaledBook<B, S>
        requires same { log_of B.log self.book ≡ Some (B.log book) }
        ensures book { result.book ≡ Some book }
        ensures journal { result.journal ≡ self.journal }
    {
        let AwayBook { was: _, journal } = self;
        JournaledBook {
            book: Some(book),
            journal,
        }
    }

    /// Puts the book back, whose log went on by entries that these lines say: all lines are appended before, in one transaction.
    ///
    /// # Errors
    ///
    /// As the journal refuses the lines, all of them. The book is dropped then, and the journal is as it was.
    pub fn append(self, book: B, lines: &[&str]) -> Result<JournaledBook<B, S>, AwayBook<B, S>>
        requires lines { GoesOnBy (texts lines.now) (log_of B.log self.book) (B.log book) }
        ensures ok { IfOk result (λ back. back.book ≡ Some book) }
        ensures err { IfErr result (λ away. away.book ≡ self.book) }
        ensures journal { AppendsAll (state S.Store self.journal) (state S.Store (journal_of result)) (texts lines.now) result }
    {
        let AwayBook { was, mut journal } = self;
        match journal.append(lines) {
            Ok(()) => Ok(JournaledBook {
                book: Some(book),
                journal,
            }),
            Err(_fault) => {
                drop(book);
                Err(AwayBook { was, journal })
            }
        }
    }

    /// The journal, which holds the lines of the book as it was. Takes no memory.
    pub fn journal(&self) -> &Journal<S>
        ensures same { result.now ≡ self.now.journal }
        ensures journal { IsJournalOf (state S.Store self.now.journal) (log_of B.log self.now.book) }
    {
        &self.journal
    }

    /// The journal, which holds the lines of the book as it was.
    pub fn into_journal(self) -> Journal<S>
        ensures same { result ≡ self.journal }
        ensures journal { IsJournalOf (state S.Store result) (log_of B.log self.book) }
    {
        let AwayBook { was: _, journal } = self;
        journal
    }
}
