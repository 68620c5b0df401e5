#![tactic(auto)]

//! What a step does to executions and items, and what is kept to undo it.
mod answering;
mod applying;
mod executions;
mod fact;
mod first;
mod laws;
mod made;
mod making;
mod next;
mod places;
mod quiet;
mod record;
mod undoing;
mod world;

pub use asl_forward as turns;
pub use branch_tree as branches;
pub use fact::{Access, Fact, Kind};
pub use laws::{nexts_are_moves, steps_are_taken_back, steps_leave_threads, taken_back};
pub use made::Made;
pub use next::Next;
pub use record::{Saved, StepRecord};
pub use world::World;
