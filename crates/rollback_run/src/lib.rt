#![tactic(auto)]

//! What the program `rollback` does: what its words ask for, and how it runs then, over any streams and any store.
mod fault;
mod mode;
mod running;
mod writing;

pub use fault::{ENDED, ExitFault, FAILED, REFUSED, USAGE};
pub use mode::{Mode, ModeRefusal, mode_of, unread_words};
pub use operator_line as lines;
pub use running::{finish, has_to_close, refuse, run, run_session};
