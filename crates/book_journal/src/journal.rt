ghost use Rattle.std.specs.Prelude.{◌≡◌, ◌++◌, ℕ, [], map, false, Err, OnOk, OnErr, IfOk, IfErr, IsTrue, string_bytes};
ghost use Rattle.sqlite.specs.Held.{state};
ghost use Rattle.sqlite.specs.State.{HasCleanDisk, Survives};
ghost use Rattle.book_journal.specs.Change.{HasTable};
ghost use Rattle.book_journal.specs.Entries.{texts, AddLines, HaveGap, HoldLines};
ghost use Rattle.book_journal.specs.Faults.{journal_fault_of, IsNamed, RefusesRows, TellsRefusal};
ghost use Rattle.book_journal.specs.Table.{journal_schema};
ghost use Rattle.book_journal.specs.Kept.{lines_in, IsKept, IsAtRest, IsOpened, IsSame, LeavesAllOrNone, MayAdd};

use crate::fault::JournalFault;
use crate::{insert, read, table};
use sqlite::{Alter, Connection, Error, ErrorCode};
use std::alloc::Global;
use std::marker::Model;

/// A journal over a connection, which contracts see as what the connection shows. No transaction is open.
#[derive(Drop)]
pub struct Journal<S: Alter> {
    conn: Connection<S>,
    last: Option<i64>,
}

impl<S: Alter> Model for Journal<S> {
    ghost use Rattle.sqlite.specs.Held.{Held, held_code, state};
    ghost use Rattle.book_journal.specs.Kept.{IsKept};

    ghost Value = { Held S };

    ghost coded = { held_code S.code };

    ghost view = { λ j. j.conn };

    ghost invariant = { λ j. IsKept (state S.Store j.conn) j.last };
}

/// Makes the table where there is none, and answers the last number.
fn prepare<S: Alter>(conn: &mut Connection<S>) -> Result<Option<i64>, Error>
    ensures kept { IfOk result (IsKept (state S.Store conn.new)) }
    ensures ok { HasCleanDisk (state S.Store conn.new) → OnOk result (IsOpened (state S.Store conn.old) (state S.Store conn.new)) }
    ensures err { HasCleanDisk (state S.Store conn.new) → OnErr result (IsSame (state S.Store conn.old) (state S.Store conn.new)) }
    ensures cause { HasCleanDisk (state S.Store conn.new) → conn.old.in_transaction ≡ false → (state S.Store conn.old).now.schema ≡ journal_schema
        → IfErr result (RefusesRows (state S.Store conn.old) (state S.Store conn.new) (lines_in (state S.Store conn.old))) }
    ensures survives { Survives (state S.Store conn.old) (state S.Store conn.new) (HasTable (state S.Store conn.old)) }
{
    if !conn.is_autocommit() {
        return Err(Error::SqliteFailure(ErrorCode::TransactionState));
    }
    if table::is_blank(conn.schema()) {
        insert::create_table(conn)?;
        return Ok(None);
    }
    if !table::is_journal(conn.schema()) {
        return Err(Error::SqliteFailure(ErrorCode::NotADatabase));
    }
    read::last_number(conn)
}

impl<S: Alter> Journal<S> {
    /// Opens the journal of a database, and makes its table where the database has none. A refusal hands the connection back.
    ///
    /// # Errors
    ///
    /// `Store` with what the database answers, with `TransactionState` where a transaction is open, or with `NotADatabase` where the
    /// database has other tables; and `Memory`. Where the journal's table is there, the database refuses only what [`Journal::load`] names.
    pub fn open(conn: Connection<S>) -> Result<Journal<S>, (JournalFault, Connection<S>)>
        ensures ok { IfOk result (λ j. HasCleanDisk (state S.Store j) → IsOpened (state S.Store conn) (state S.Store j)) }
        ensures err { IfErr result (λ e. HasCleanDisk (state S.Store e.1) → IsSame (state S.Store conn) (state S.Store e.1)) }
        ensures named { IfErr result (λ e. (cause : Error) × (e.0 ≡ journal_fault_of cause)) }
        ensures cause { IfErr result (λ e. HasCleanDisk (state S.Store e.1) → conn.in_transaction ≡ false → (state S.Store conn).now.schema ≡ journal_schema
            → TellsRefusal (state S.Store conn) (state S.Store e.1) (lines_in (state S.Store conn)) e.0) }
        ensures survives { IfOk result (λ j. Survives (state S.Store conn) (state S.Store j) (HasTable (state S.Store conn))) }
        ensures handed_back { IfErr result (λ e. Survives (state S.Store conn) (state S.Store e.1) (HasTable (state S.Store conn))) }
        ensures at_rest { IfOk result (λ j. IsAtRest (state S.Store j)) }
    {
        let mut conn = conn;
        match prepare(&mut conn) {
            Ok(last) => Ok(Journal { conn, last }),
            Err(error) => Err((error.into(), conn)),
        }
    }

    /// The connection, as it is: closing it copies a file's log into the file.
    pub fn into_connection(self) -> Connection<S>
        ensures { result ≡ self }
    {
        let Journal { conn, last: _ } = self;
        conn
    }

    /// Appends the lines in one transaction.
    pub fn append(&mut self, lines: &[&str]) -> Result<(), JournalFault>
        ensures ok { HasCleanDisk (state S.Store self.new) → OnOk result (AddLines (lines_in (state S.Store self.old)) (texts lines.now) (lines_in (state S.Store self.new))) }
        ensures was_open { HasCleanDisk (state S.Store self.new) → OnOk result (IsTrue (state S.Store self.old).is_open) }
        ensures open { HasCleanDisk (state S.Store self.new) → OnOk result (IsTrue (state S.Store self.new).is_open) }
        ensures lines { HasCleanDisk (state S.Store self.new) → (before : _) → HoldLines (lines_in (state S.Store self.old)) before
            → OnOk result (HoldLines (lines_in (state S.Store self.new)) (before ++ texts lines.now)) }
        ensures err { HasCleanDisk (state S.Store self.new) → OnErr result (IsSame (state S.Store self.old) (state S.Store self.new)) }
        ensures named { IfErr result (λ e. (cause : Error) × (e ≡ journal_fault_of cause)) }
        ensures crash { LeavesAllOrNone (state S.Store self.old) (texts lines.now) (state S.Store self.new) }
        ensures survives { Survives (state S.Store self.old) (state S.Store self.new) (MayAdd (state S.Store self.old) (texts lines.now)) }
        ensures at_rest { IsAtRest (state S.Store self.new) }
    {
        if !table::is_journal(self.conn.schema()) {
            return Err(JournalFault::Store(Error::SqliteFailure(ErrorCode::Closed)));
        }
        self.last = insert::append_all(&mut self.conn, self.last, lines)?;
        Ok(())
    }

    /// All lines, the first first. Takes memory for the rows and for the lines.
    ///
    /// # Errors
    ///
    /// `Gap` at the first number that isn't its position, and `Memory`. `Store` only where the disk fails, the database is shut or takes
    /// a limited number of steps, or a row is no entry: its number no integer, or its line no text in UTF-8.
    pub fn load(&mut self, alloc: Global) -> Result<Vec<String>, JournalFault>
        ensures ok { HasCleanDisk (state S.Store self.new) → IfOk result (λ lines. HoldLines (lines_in (state S.Store self.old)) (map string_bytes lines.items)) }
        ensures gap { HasCleanDisk (state S.Store self.new) → (n : ℕ) → result ≡ Err (JournalFault.Gap n) → HaveGap (lines_in (state S.Store self.old)) n }
        ensures cause { HasCleanDisk (state S.Store self.new) → (cause : Error) → result ≡ Err (JournalFault.Store cause)
            → RefusesRows (state S.Store self.old) (state S.Store self.new) (lines_in (state S.Store self.old)) cause }
        ensures named { IfErr result IsNamed }
        ensures same { HasCleanDisk (state S.Store self.new) → IsSame (state S.Store self.old) (state S.Store self.new) }
        ensures survives { Survives (state S.Store self.old) (state S.Store self.new) (λ _. ⊥) }
        ensures at_rest { IsAtRest (state S.Store self.new) }
    {
        if !table::is_journal(self.conn.schema()) {
            return Err(JournalFault::Store(Error::SqliteFailure(ErrorCode::Closed)));
        }
        let rows = read::all_rows(&mut self.conn)?;
        read::lines_of(alloc, rows.as_slice())
    }
}
