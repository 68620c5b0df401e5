#![tactic(auto)]

//! Replies to the operators' lines, as they are written.
mod lines;
mod reply;

pub use lines::Lines;
pub use reply::Reply;
