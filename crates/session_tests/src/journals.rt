//! Journals that give no session, which are handed back with their lines.
use crate::files::{FOREVER, Stopping, appends, connected, holds, new_journal};
use book_journal::{Journal, JournalFault};
use operator_line::Session;
use operator_line::calls::BookCalls;
use operator_line::journaled::OpenFault;
use std::alloc::Global;
use std::test::Fail;
use threaded_book::Book;

/// Opens with no promise, so that none need be read at each call.
fn opened<B: BookCalls>(
    alloc: Global,
    journal: Journal<Stopping>,
) -> Result<Session<B, Stopping>, (OpenFault, Journal<Stopping>)> {
    Session::open(alloc, journal)
}

fn has_lines(alloc: Global, mut journal: Journal<Stopping>, lines: &[&str]) -> bool {
    holds(alloc, &mut journal, lines)
}

/// Why a journal is not opened, and whether it comes back with its lines.
fn refusal_of<B: BookCalls>(
    alloc: Global,
    journal: Journal<Stopping>,
    lines: &[&str],
) -> Option<(OpenFault, bool)> {
    match opened::<B>(alloc, journal) {
        Ok(session) => {
            drop(session);
            None
        }
        Err((fault, journal)) => Some((fault, has_lines(alloc, journal, lines))),
    }
}

fn refusal_with<B: BookCalls>(
    alloc: Global,
    mut journal: Journal<Stopping>,
    lines: &[&str],
) -> Option<(OpenFault, bool)> {
    if appends(&mut journal, lines) {
        refusal_of::<B>(alloc, journal, lines)
    } else {
        drop(journal);
        None
    }
}

fn refusal<B: BookCalls>(alloc: Global, lines: &[&str]) -> Option<(OpenFault, bool)> {
    match new_journal(alloc, FOREVER) {
        Some(journal) => refusal_with::<B>(alloc, journal, lines),
        None => None,
    }
}

const TABLE: &str = "table items id:S []";

const MACHINE_P: &str =
    r#"define p {"StartAt":"P","States":{"P":{"Type":"Pass","Result":7,"End":true}}}"#;

/// Lines, and the first that is damaged. rows/journals.txt has such lines of each kind.
const DAMAGED: &[(&[&str], usize)] = &[
    (&[""], 0),
    (&[TABLE, MACHINE_P, "start a p {}", "ste"], 3),
    (&[TABLE, MACHINE_P, "start a p {}", "settle", "undo a#0"], 4),
];

#[test]
fn damaged_journals_are_handed_back(rt: HostRuntime) {
    for &(lines, place) in DAMAGED {
        let refusal = refusal::<Book>(rt.alloc(), lines);
        assert!(rt;
            refusal == Some((OpenFault::Damaged(place), true)),
            "{place}"
        );
    }
}

const GAP: &str =
    "CREATE TABLE entry(no INTEGER PRIMARY KEY, line TEXT NOT NULL) STRICT; INSERT INTO entry VALUES (0, 'table items id:S []'), (2, 'x')";

/// A journal whose table was made by this text.
fn journal_by(alloc: Global, sql: &str) -> Option<Journal<Stopping>> {
    let mut conn = connected(alloc, FOREVER)?;
    if conn.execute_batch(sql).is_ok() {
        Journal::open(conn).ok()
    } else {
        None
    }
}

#[test]
fn a_journal_with_a_gap_is_handed_back(rt: HostRuntime) {
    let told = match journal_by(rt.alloc(), GAP) {
        Some(journal) => refusal_of::<Book>(rt.alloc(), journal, &[]),
        None => None,
    };
    assert!(rt; told == Some((OpenFault::Journal(JournalFault::Gap(1)), false)));
}

const MACHINE_W: &str =
    r#"define w {"StartAt":"W","States":{"W":{"Type":"Task","Resource":"arn:aws:states:::dynamodb:putItem","Parameters":{"TableName":"items","Item":{"id":{"S":"k"},"v":{"S.$":"$.v"}}},"End":true}}}"#;

/// Lines of each kind, which leave three steps.
const FILLING: &[&str] = &[
    TABLE,
    MACHINE_W,
    r#"start a w {"v":"1"}"#,
    r#"start b w {"v":"2"}"#,
    "step a",
    "step b",
    "undo b#1",
    "step b",
    "rollback a#1",
    "step b",
];

/// A journal that comes back from an opening that is out of memory is opened then.
fn opened_at_last<B: BookCalls>(
    alloc: Global,
    journal: Journal<Stopping>,
) -> Option<Session<B, Stopping>> {
    match opened(alloc, journal) {
        Ok(session) => Some(session),
        Err((OpenFault::Memory, journal)) => opened(alloc, journal).ok(),
        Err(_) => None,
    }
}

fn has_steps<B: BookCalls>(session: &Session<B, Stopping>) -> bool {
    match session.book() {
        Some(book) => book.history().len() == 3,
        None => false,
    }
}

/// Whether a journal is opened at last, and its book has its steps.
fn is_opened_at_last<B: BookCalls>(alloc: Global, journal: Journal<Stopping>) -> bool {
    match opened_at_last::<B>(alloc, journal) {
        Some(session) => {
            let has_steps = has_steps(&session);
            drop(session);
            has_steps
        }
        None => false,
    }
}

fn filled(alloc: Global) -> Option<Journal<Stopping>> {
    let mut journal = new_journal(alloc, FOREVER)?;
    if appends(&mut journal, FILLING) {
        Some(journal)
    } else {
        None
    }
}

/// For tools/refused-growths.sh, which refuses one growth: if that is in the opening, the journal comes back, and is opened.
#[test]
fn a_refused_growth_hands_the_journal_back(rt: HostRuntime) -> Result<(), Fail> {
    let alloc = rt.alloc();
    let Some(journal) = filled(alloc) else {
        return Err("out of memory".into());
    };
    assert!(rt; is_opened_at_last::<Book>(alloc, journal));
    Ok(())
}
