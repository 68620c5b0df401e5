//! A journal over files in memory that stop after so many calls.
//!
//! Each call with a long contract is in a function without one, and what is owned is let go on one way out.
use book_journal::Journal;
use sqlite::{Connection, FileStore, Files, Options};
use sqlite_disk::{Fuse, Memory};
use std::alloc::Global;

/// The store of a database on files that stop.
pub(crate) type Stopping = FileStore<Fuse<Memory>>;

pub(crate) const FOREVER: u64 = u64::MAX;

/// A connection over new files, of which the log stops after so many calls.
pub(crate) fn connected(alloc: Global, calls: u64) -> Option<Connection<Stopping>> {
    connected_over(alloc, calls, FOREVER)
}

/// The same, with how many calls of the database's file come through.
fn connected_over(alloc: Global, calls: u64, of_file: u64) -> Option<Connection<Stopping>> {
    let files = Files {
        log: Fuse::new(Memory::new(alloc), calls),
        db: Fuse::new(Memory::new(alloc), of_file),
    };
    if !files.may_be_used() {
        return None;
    }
    match Connection::open_files(alloc, files, Options::new(1)) {
        Ok(conn) => Some(conn),
        Err(refused) => {
            drop(refused);
            None
        }
    }
}

/// A new journal.
pub(crate) fn new_journal(alloc: Global, calls: u64) -> Option<Journal<Stopping>> {
    new_journal_over(alloc, calls, FOREVER)
}

/// The same, with how many calls of the database's file come through.
pub(crate) fn new_journal_over(
    alloc: Global,
    calls: u64,
    of_file: u64,
) -> Option<Journal<Stopping>> {
    match connected_over(alloc, calls, of_file) {
        Some(conn) => Journal::open(conn).ok(),
        None => None,
    }
}

/// Whether the lines are appended.
pub(crate) fn appends(journal: &mut Journal<Stopping>, lines: &[&str]) -> bool {
    journal.append(lines).is_ok()
}

fn are(found: &[String], lines: &[&str]) -> bool {
    for (text, line) in found.iter().zip(lines) {
        if text.as_str() != *line {
            return false;
        }
    }
    found.len() == lines.len()
}

/// Whether the journal has these lines.
pub(crate) fn holds(alloc: Global, journal: &mut Journal<Stopping>, lines: &[&str]) -> bool {
    match journal.load(alloc) {
        Ok(found) => are(found.as_slice(), lines),
        Err(_) => false,
    }
}
