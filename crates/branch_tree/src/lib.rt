#![tactic(auto)]

//! The frames of an execution in one tree of branches.
mod branch;
mod counts;
mod first;
mod laws;
mod readiness;
mod tree;

pub use branch::Branch;
pub use laws::{below_is_parked, fork_taken_back, given_back, names_by_path, paths_go_on};
pub use readiness::Readiness;
pub use tree::Tree;
