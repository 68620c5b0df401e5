#![tactic(auto)]

//! The answers to questions in plain lines, made of their JSON.
mod answers;
mod entries;
mod executions;
mod fields;
mod frames;
mod lines;
mod reasons;
mod steps;

pub use answers::{head_of, text_of};
pub use lines::Lines;
