//! The statements that write.

ghost use Rattle.std.specs.Prelude.{◌≡◌, ◌++◌, [], ◌∷◌, false, pos, Some, OnOk, OnErr, IfOk, IfErr, IsTrue, IsPermutation};
ghost use Rattle.sqlite.specs.Held.{state};
ghost use Rattle.sqlite.specs.State.{HasCleanDisk, KeepsCommit, Survives};
ghost use Rattle.book_journal.specs.Change.{IsBlank, Creates, IsJournalReady, Inserts, IsAppended, IsBack, HasAppended, IsMade, HasTable};
ghost use Rattle.book_journal.specs.Table.{journal_schema, no_schema};
ghost use Rattle.book_journal.specs.Entries.{entry, texts, numbered, number_after, last_after};

use crate::table::CREATE;
use sqlite::{Alter, Connection, Error, ErrorCode, Transaction, params};

const INSERT: &str = "INSERT INTO entry (no, line) VALUES (?1, ?2)";

fn create<S: Alter>(tx: &mut Transaction<'_, S>) -> Result<(), Error>
    ensures same_reference { tx.new.conn.ghost_name ≡ tx.old.conn.ghost_name }
    ensures ok { HasCleanDisk (state S.Store tx.new.conn.now) → IsBlank (state S.Store tx.old.conn.now)
        → OnOk result (Creates (state S.Store tx.old.conn.now) (state S.Store tx.new.conn.now)) }
    ensures kept { HasCleanDisk (state S.Store tx.new.conn.now) → IsBlank (state S.Store tx.old.conn.now)
        → KeepsCommit (state S.Store tx.old.conn.now) (state S.Store tx.new.conn.now) }
    ensures survives { Survives (state S.Store tx.old.conn.now) (state S.Store tx.new.conn.now) (λ _. ⊥) }
{
    tx.execute(CREATE, &[])?;
    Ok(())
}

/// Makes the table in a database that has none.
pub(crate) fn create_table<S: Alter>(conn: &mut Connection<S>) -> Result<(), Error>
    requires { conn.old.in_transaction ≡ false }
    ensures mode { conn.new.in_transaction ≡ false }
    ensures ok { HasCleanDisk (state S.Store conn.new) → (state S.Store conn.old).now.schema ≡ no_schema
        → OnOk result (IsMade (state S.Store conn.old) (state S.Store conn.new)) }
    ensures err { HasCleanDisk (state S.Store conn.new) → (state S.Store conn.old).now.schema ≡ no_schema
        → OnErr result (IsBack (state S.Store conn.old) (state S.Store conn.new)) }
    ensures survives { Survives (state S.Store conn.old) (state S.Store conn.new) (HasTable (state S.Store conn.old)) }
{
    let mut tx = conn.transaction();
    create(&mut tx)?;
    tx.commit()
}

/// The number after this one, the first being 0.
fn next_number(last: Option<i64>) -> Result<i64, Error>
    ensures ok { IfOk result (λ no. no ≡ number_after last) }
    ensures err { IfErr result (λ e. (e ≡ Error.SqliteFailure ErrorCode.NoRowid) × (last ≡ Some (pos 0x7fff_ffff_ffff_ffff))) }
{
    match last {
        None => Ok(0),
        Some(no) => match no.checked_add(1) {
            Some(next) => Ok(next),
            None => Err(Error::SqliteFailure(ErrorCode::NoRowid)),
        },
    }
}

fn insert<S: Alter>(tx: &mut Transaction<'_, S>, no: i64, line: &str) -> Result<(), Error>
    ensures same_reference { tx.new.conn.ghost_name ≡ tx.old.conn.ghost_name }
    ensures ok { HasCleanDisk (state S.Store tx.new.conn.now) → IsJournalReady (state S.Store tx.old.conn.now)
        → OnOk result (Inserts (state S.Store tx.old.conn.now) (state S.Store tx.new.conn.now) (entry no line.now ∷ [])) }
    ensures kept { HasCleanDisk (state S.Store tx.new.conn.now) → IsJournalReady (state S.Store tx.old.conn.now)
        → KeepsCommit (state S.Store tx.old.conn.now) (state S.Store tx.new.conn.now) }
    ensures survives { Survives (state S.Store tx.old.conn.now) (state S.Store tx.new.conn.now) (λ _. ⊥) }
{
    tx.execute(INSERT, params![no, line])?;
    Ok(())
}

/// Inserts the lines with the numbers after the last, and answers the number that is the last then.
fn insert_all<S: Alter>(
    tx: &mut Transaction<'_, S>,
    last: Option<i64>,
    lines: &[&str],
) -> Result<Option<i64>, Error>
    ensures same_reference { tx.new.conn.ghost_name ≡ tx.old.conn.ghost_name }
    ensures ok { HasCleanDisk (state S.Store tx.new.conn.now) → IsJournalReady (state S.Store tx.old.conn.now)
        → OnOk result (Inserts (state S.Store tx.old.conn.now) (state S.Store tx.new.conn.now) (numbered (number_after last) (texts lines.now))) }
    ensures last { IfOk result (λ after. after ≡ last_after last (texts lines.now)) }
    ensures kept { HasCleanDisk (state S.Store tx.new.conn.now) → IsJournalReady (state S.Store tx.old.conn.now)
        → KeepsCommit (state S.Store tx.old.conn.now) (state S.Store tx.new.conn.now) }
    ensures survives { Survives (state S.Store tx.old.conn.now) (state S.Store tx.new.conn.now) (λ _. ⊥) }
{
    let mut last = last;
    for line in lines {
        let no = next_number(last)?;
        insert(tx, no, line)?;
        last = Some(no);
    }
    Ok(last)
}

/// All of the lines in one transaction, or none.
pub(crate) fn append_all<S: Alter>(
    conn: &mut Connection<S>,
    last: Option<i64>,
    lines: &[&str],
) -> Result<Option<i64>, Error>
    requires { conn.old.in_transaction ≡ false }
    ensures mode { conn.new.in_transaction ≡ false }
    ensures ok { HasCleanDisk (state S.Store conn.new) → (state S.Store conn.old).now.schema ≡ journal_schema
        → OnOk result (IsAppended (state S.Store conn.old) (state S.Store conn.new) (numbered (number_after last) (texts lines.now))) }
    ensures last { IfOk result (λ after. after ≡ last_after last (texts lines.now)) }
    ensures err { HasCleanDisk (state S.Store conn.new) → (state S.Store conn.old).now.schema ≡ journal_schema
        → OnErr result (IsBack (state S.Store conn.old) (state S.Store conn.new)) }
    ensures survives { Survives (state S.Store conn.old) (state S.Store conn.new) (HasAppended (state S.Store conn.old) (numbered (number_after last) (texts lines.now))) }
{
    let mut tx = conn.transaction();
    let last = insert_all(&mut tx, last, lines)?;
    tx.commit()?;
    Ok(last)
}
