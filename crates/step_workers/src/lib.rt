#![tactic(auto)]

//! Workers on a shared book: one hands out tickets of the threads that can move, through a bounded queue, and the others prepare their
//! moves outside of the lock and commit them under it. Or all of them take back what is left of a hold.
mod allowance;
mod board;
mod dispatching;
mod gate;
mod gathering;
mod moving;
mod outcome;
mod running;
mod seat;
mod seating;
mod taking_back;
mod undoing;
mod worker;
mod working;

pub use gate::{Gate, OpenGate};
pub use outcome::{Outcome, Stopped};
pub use taking_back::take_back;
pub use working::{MOST_WORKERS, work};
