#![tactic(auto)]

//! Answers about what led to something in a book and what follows from it, and why a thread fails.
mod calls;
mod causing;
mod dependents;
mod explaining;
mod items;
mod reasons;

pub use answer_parts as parts;
pub use calls::{held_step, put_call};
pub use causing::{causes_of, chain_of, plan_of};
pub use dependents::dependents_of;
pub use explaining::explained;
pub use items::{item_of, items_of};
