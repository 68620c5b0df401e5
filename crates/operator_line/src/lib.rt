#![tactic(auto)]

//! The operators' language: lines in, replies out.
mod driving;
mod laws;
mod line;
mod open_session;
mod serving;
mod session;
mod working;

pub use command_lines::{Command, CommandFault, Execution, lines_are_spelled};
pub use journaled_book as journaled;
pub use journaled_book::calls as calls;
pub use laws::refused_lines_change_nothing;
pub use line::{Line, LineBuffer};
pub use serving::{MOST_READS, ServeFault, flush, serve, serve_at_most, write_all};
pub use session::Session;
