#![tactic(auto)]

//! The dependences among the remaining steps as a graph: the nearest ones of each step, and why one step depends on another.
mod branch_ends;
mod causing;
mod chains;
mod closed;
mod latest;
mod linking;
mod marks;
mod opened;
mod planned;
mod words;

pub use causing::{Cause, causes};
pub use chains::why;
pub use closed::closed_threads;
pub use depends::{Plan, Reason, depends};
pub use latest::{awaited_branch, branch_of, thread_above};
pub use linking::{Edge, edges, reason_at};
pub use marks::Marks;
pub use planned::{plan_reasons, take_reason};
pub use words::{kind_word, reason_word, record_at};
