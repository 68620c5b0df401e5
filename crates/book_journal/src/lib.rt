//! A journal of lines in one table of a SQLite database, a file's or one in memory.
//!
//! ```sql
//! CREATE TABLE entry(no INTEGER PRIMARY KEY, line TEXT NOT NULL) STRICT
//! ```
//!
//! The lines have the numbers 0, 1, 2 and so on. They are appended in one transaction a call, and read in the order of their
//! numbers.
#![tactic(auto)]

mod fault;
mod insert;
mod journal;
mod read;
mod table;

pub use fault::JournalFault;
pub use journal::Journal;
