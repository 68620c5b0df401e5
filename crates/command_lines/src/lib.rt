#![tactic(auto)]

//! The grammar of the operators' command lines: which command a line is, and the one line of each command.
mod command;
mod execution;
mod laws;
mod words;
mod writing;

pub use command::{Command, CommandFault, Execution, LONGEST_LINE};
pub use laws::lines_are_spelled;
pub use writing::step_line;
