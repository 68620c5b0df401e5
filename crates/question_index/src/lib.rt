#![tactic(auto)]

//! What questions of a book need beside it: which accepted line brought what about.
mod definitions;
mod index;
mod touched;

pub use definitions::Definition;
pub use index::{Index, Presence};
pub use touched::{Touched, frame_of, is_waiting};
