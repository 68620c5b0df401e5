//! The statements that read.

ghost use Rattle.std.specs.Prelude.{◌≡◌, ◌≢◌, ◌⊎◌, ℕ, pos, [], map, false, Err, OnOk, OnErr, IfOk, IfErr, string_bytes};
ghost use Rattle.sqlite.specs.declared.types.Value.TheVariants.{Int};
ghost use Rattle.sqlite.specs.Held.{state};
ghost use Rattle.sqlite.specs.State.{HasCleanDisk, IsUnchanged, FailsToQuery, Survives, Shown};
ghost use Rattle.sqlite.specs.Given.{IsPlain};
ghost use Rattle.sqlite.specs.Listing.{understood};
ghost use Rattle.book_journal.specs.Change.{IsBack};
ghost use Rattle.book_journal.specs.Entries.{entries, entry, numbered, row_number, pair, IsLastNumber, AreInOrder, HaveGapAt};
ghost use Rattle.book_journal.specs.Faults.{HasReadCause, HaveUnreadable, IsNamed, IsUnreadable, RefusesRows};
ghost use Rattle.book_journal.specs.Table.{journal_schema};

use crate::fault::JournalFault;
use sqlite::{Alter, Connection, Error, Row};
use std::alloc::Global;

const LAST: &str = "SELECT no FROM entry ORDER BY no DESC LIMIT 1";

const ALL: &str = "SELECT no, line FROM entry ORDER BY no";

/// The rows of a query that writes nothing.
fn select<S: Alter>(conn: &mut Connection<S>, sql: &str) -> Result<Vec<Row>, Error>
    requires { IsPlain (understood (state S.Store conn.old).now.schema sql.now) }
    ensures mode { conn.old.in_transaction ≡ false → conn.new.in_transaction ≡ false }
    ensures shown { HasCleanDisk (state S.Store conn.new) → IfOk result (λ rows. Shown sql.now [] (state S.Store conn.old) (state S.Store conn.new) rows.items) }
    ensures same { HasCleanDisk (state S.Store conn.new) → OnOk result (IsUnchanged (state S.Store conn.old) (state S.Store conn.new)) }
    ensures err { HasCleanDisk (state S.Store conn.new)
        → OnErr result (IsUnchanged (state S.Store conn.old) (state S.Store conn.new) ⊎ IsBack (state S.Store conn.old) (state S.Store conn.new)) }
    ensures cause { HasCleanDisk (state S.Store conn.new) → IfErr result (FailsToQuery sql.now [] (state S.Store conn.old) (state S.Store conn.new)) }
    ensures survives { Survives (state S.Store conn.old) (state S.Store conn.new) (λ _. ⊥) }
{
    conn.query_all(sql, &[])
}

/// The greatest number of the table, none where it is empty.
pub(crate) fn last_number<S: Alter>(conn: &mut Connection<S>) -> Result<Option<i64>, Error>
    requires { (state S.Store conn.old).now.schema ≡ journal_schema }
    ensures mode { conn.old.in_transaction ≡ false → conn.new.in_transaction ≡ false }
    ensures last { HasCleanDisk (state S.Store conn.new) → IfOk result (IsLastNumber (entries (state S.Store conn.old).now.trees)) }
    ensures same { HasCleanDisk (state S.Store conn.new) → OnOk result (IsUnchanged (state S.Store conn.old) (state S.Store conn.new)) }
    ensures err { HasCleanDisk (state S.Store conn.new)
        → OnErr result (IsUnchanged (state S.Store conn.old) (state S.Store conn.new) ⊎ IsBack (state S.Store conn.old) (state S.Store conn.new)) }
    ensures cause { HasCleanDisk (state S.Store conn.new)
        → IfErr result (RefusesRows (state S.Store conn.old) (state S.Store conn.new) (entries (state S.Store conn.old).now.trees)) }
    ensures survives { Survives (state S.Store conn.old) (state S.Store conn.new) (λ _. ⊥) }
{
    let rows = select(conn, LAST)?;
    match rows.first() {
        None => Ok(None),
        Some(row) => Ok(Some(row.get(0)?)),
    }
}

/// The rows in the order of their numbers.
pub(crate) fn all_rows<S: Alter>(conn: &mut Connection<S>) -> Result<Vec<Row>, Error>
    requires { (state S.Store conn.old).now.schema ≡ journal_schema }
    ensures mode { conn.old.in_transaction ≡ false → conn.new.in_transaction ≡ false }
    ensures ok { HasCleanDisk (state S.Store conn.new) → IfOk result (λ rows. AreInOrder (entries (state S.Store conn.old).now.trees) rows.items) }
    ensures same { HasCleanDisk (state S.Store conn.new) → OnOk result (IsUnchanged (state S.Store conn.old) (state S.Store conn.new)) }
    ensures err { HasCleanDisk (state S.Store conn.new)
        → OnErr result (IsUnchanged (state S.Store conn.old) (state S.Store conn.new) ⊎ IsBack (state S.Store conn.old) (state S.Store conn.new)) }
    ensures cause { HasCleanDisk (state S.Store conn.new) → IfErr result (HasReadCause (state S.Store conn.old) (state S.Store conn.new)) }
    ensures survives { Survives (state S.Store conn.old) (state S.Store conn.new) (λ _. ⊥) }
{
    select(conn, ALL)
}

/// The line of a row that has this number.
fn line_at(row: &Row, position: usize) -> Result<String, JournalFault>
    ensures ok { IfOk result (λ line. pair row.now ≡ entry (pos position) (string_bytes line)) }
    ensures gap { (n : ℕ) → result ≡ Err (JournalFault.Gap n) → (n ≡ position) × (row_number row.now ≢ Int (pos position)) }
    ensures unreadable { (cause : Error) → result ≡ Err (JournalFault.Store cause) → IsUnreadable (pair row.now) }
    ensures named { IfErr result IsNamed }
{
    let no: i64 = row.get(0)?;
    if i128::from(no) != position as i128 {
        return Err(JournalFault::Gap(position));
    }
    Ok(row.get(1)?)
}

/// The lines of rows that have the numbers 0, 1, 2 and so on.
pub(crate) fn lines_of(alloc: Global, rows: &[Row]) -> Result<Vec<String>, JournalFault>
    ensures ok { IfOk result (λ lines. map pair rows.now ≡ numbered (pos 0) (map string_bytes lines.items)) }
    ensures gap { (n : ℕ) → result ≡ Err (JournalFault.Gap n) → HaveGapAt n (map pair rows.now) }
    ensures unreadable { (cause : Error) → result ≡ Err (JournalFault.Store cause) → HaveUnreadable (map pair rows.now) }
    ensures named { IfErr result IsNamed }
{
    let mut lines = Vec::new(alloc);
    for row in rows {
        lines.push(line_at(row, lines.len())?)?;
    }
    Ok(lines)
}
