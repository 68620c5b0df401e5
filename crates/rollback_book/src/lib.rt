#![tactic(auto)]

//! The book: executions of state machines over one table, the commands that were accepted, and the taking back of their steps.
mod book;
mod calls;
mod checks;
mod commits;
mod entering;
mod events;
mod hold;
mod holding;
mod lists;
mod machines;
mod making;
mod ordering;
mod rerunning;
mod room;
mod settling;
mod stepping;
mod tickets;
mod undoing;

pub use book::Book;
pub use book_events::{
    BookCalls, Change, CommitRefusal, Cursor, Events, PlanRoom, Room, Staleness, Ticket,
};
pub use book_log::{Begin, Entry, Moved, Refusal, StepNames};
pub use branch_tree::Readiness;
pub use making::Made;
pub use room::FreeRoom;
pub use saved_steps::{Access, Fact, Kind, Saved, StepRecord};
pub use step_history::turns as turns;
pub use step_index::StepRecords;
