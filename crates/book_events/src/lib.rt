#![tactic(auto)]

//! The calls of a book, as two traits with their promises: those that many callers may share, and those of the one who has it. And what
//! these calls take and answer.
mod calls;
mod change;
mod commits;
mod cursor;
mod events;
mod room;
mod ticket;

pub use book_log::{Begin, Entry, Refusal};
pub use branch_tree::Readiness;
pub use calls::BookCalls;
pub use change::Change;
pub use commits::{CommitRefusal, Staleness};
pub use cursor::Cursor;
pub use events::Events;
pub use room::{PlanRoom, Room};
pub use saved_steps::{Access, Fact, Kind, Saved, StepRecord};
pub use step_history::{StepRecords, turns as turns};
pub use ticket::Ticket;
