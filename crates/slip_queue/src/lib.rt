#![tactic(auto)]

//! Numbered slips, with or without work on them, that one gives and others take from a bounded queue, each at most once.
mod giver;
mod hand;
mod slips;
mod taker;

pub use giver::Giver;
pub use slips::{PARTS, Slip, Slips};
pub use taker::Taker;
