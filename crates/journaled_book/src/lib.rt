#![tactic(auto)]

//! A book whose accepted commands stand in a journal: line 0 is the table's, and line n that of the log's entry n.
//!
//! For each command all growths come first, then the line is appended, and then the book is changed, which takes no memory and
//! can't be refused. So a refused append leaves book and journal as they were.
mod away;
mod book;
mod changing;
mod fault;
mod lines;
mod loading;
mod parts;

pub use away::AwayBook;
pub use book::JournaledBook;
pub use book_events as calls;
pub use fault::{BeginRefusal, EntryFault, OpenFault};
