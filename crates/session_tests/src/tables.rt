//! Texts that are no command, which a journal keeps all the same, and databases with other tables.
use crate::files::{FOREVER, Stopping, appends, connected, holds, new_journal};
use book_journal::{Journal, JournalFault};
use sqlite::{Connection, Error, ErrorCode};
use std::alloc::Global;
use std::test::Fail;

fn long_text(alloc: Global) -> Option<String> {
    let mut text = String::new(alloc);
    for _ in 0..65_536 {
        text.push_str("0123456789abcdef").ok()?;
    }
    Some(text)
}

fn opened(conn: Connection<Stopping>) -> Result<Journal<Stopping>, JournalFault> {
    match Journal::open(conn) {
        Ok(journal) => Ok(journal),
        Err((fault, conn)) => {
            drop(conn);
            Err(fault)
        }
    }
}

fn is_kept(alloc: Global, journal: &mut Journal<Stopping>, first: &[&str]) -> bool {
    holds(alloc, journal, &[]) && appends(journal, first) && appends(journal, &[])
}

fn is_kept_again(alloc: Global, journal: &mut Journal<Stopping>, all: &[&str]) -> bool {
    appends(journal, &["last"]) && holds(alloc, journal, all)
}

/// Appends in two calls, opens the journal again and appends once more.
fn keeps_texts(alloc: Global, first: &[&str], all: &[&str]) -> bool {
    let Some(mut journal) = new_journal(alloc, FOREVER) else {
        return false;
    };
    let is_kept = is_kept(alloc, &mut journal, first);
    match opened(journal.into_connection()) {
        Ok(mut again) => is_kept && is_kept_again(alloc, &mut again, all),
        Err(_) => false,
    }
}

#[test]
fn texts_come_back(rt: HostRuntime) -> Result<(), Fail> {
    let alloc = rt.alloc();
    let long = long_text(alloc).ok_or("out of memory")?;
    let all = [
        "",
        "a\0b",
        "it's \"quoted\" -- \u{e9}",
        long.as_str(),
        "last",
    ];
    assert!(rt; keeps_texts(alloc, &all[..4], all.as_slice()));
    Ok(())
}

fn refusal(alloc: Global, conn: Connection<Stopping>) -> Option<JournalFault> {
    match opened(conn) {
        Ok(mut journal) => journal.load(alloc).err(),
        Err(fault) => Some(fault),
    }
}

/// Why a journal over a database that was made by this text is not opened and loaded.
fn refused_after(alloc: Global, sql: &str) -> Option<JournalFault> {
    let mut conn = connected(alloc, FOREVER)?;
    if conn.execute_batch(sql).is_ok() {
        refusal(alloc, conn)
    } else {
        None
    }
}

const NO_JOURNAL: Option<JournalFault> = Some(JournalFault::Store(Error::SqliteFailure(
    ErrorCode::NotADatabase,
)));

const UNENDED: Option<JournalFault> = Some(JournalFault::Store(Error::SqliteFailure(
    ErrorCode::TransactionState,
)));

/// What the program answers to such tables is in rows/journals.txt, but for a transaction that isn't ended.
const TABLES: &[(&str, Option<JournalFault>)] = &[
    (
        "CREATE TABLE entry(no INTEGER PRIMARY KEY, line TEXT NOT NULL) STRICT",
        None,
    ),
    (
        "CREATE TABLE entry(no INTEGER PRIMARY KEY, line TEXT NOT NULL) STRICT; INSERT INTO entry VALUES (3, 'c'), (0, 'a'), (1, 'b')",
        Some(JournalFault::Gap(2)),
    ),
    (
        "CREATE TABLE entry(no INTEGER PRIMARY KEY, line TEXT) STRICT",
        NO_JOURNAL,
    ),
    (
        "CREATE TABLE other(no INTEGER PRIMARY KEY, line TEXT NOT NULL) STRICT",
        NO_JOURNAL,
    ),
    ("BEGIN", UNENDED),
];

#[test]
fn another_table_is_refused(rt: HostRuntime) {
    for &(sql, fault) in TABLES {
        assert!(rt; refused_after(rt.alloc(), sql) == fault, "{sql}");
    }
}
