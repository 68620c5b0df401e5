#![tactic(auto)]

//! Rounds of workers on a book: the book is shared, workers take steps of it at the same time, and it comes back with what they took.
mod room;
mod rounds;
mod seats;

pub use room::is_full_for_step;
pub use rounds::{Round, RoundFault, run_round};
