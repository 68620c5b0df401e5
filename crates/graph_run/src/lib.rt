#![tactic(auto)]

//! What the program `rollback_graph` does: what its words ask for, and how it answers then, over any streams and any store.
mod asked;
mod following;
mod lines;
mod paging;
mod running;
mod spoken;
mod telling;

pub use asked::{AskRefusal, Asked, Question, asked_of, unread_words};
pub use following::serve;
pub use paging::{Subject, Viewer, write_page};
pub use rollback_run::{ExitFault, FAILED};
pub use running::{ABSENT, refuse, run, show_parts, status_of};
pub use spoken::{Part, Spoken, Wanted, wanted_of};
pub use telling::tell;
