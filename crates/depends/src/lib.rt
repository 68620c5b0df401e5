#![tactic(auto)]

//! On which earlier steps a step of an execution depends, and what follows for taking steps back. Marks that steps leave decide
//! whether a later step depends directly on one of them, without a look at them.
mod above;
mod depend;
mod forks;
mod keys;
mod laws;
mod marks;
mod places;
mod planning;
mod reason;
mod starts;
mod thread_marks;
mod under;

pub use depend::{depends, first_dependent};
pub use laws::{
    consequences_are_least, free_steps_undo, held_consequences_are_left, linearizations_agree,
    neighbours_swap, orders_undo, plans_are_consequences, reasons_are_dependences,
    steps_are_reversible,
};
pub use marks::Marks;
pub use places::Plan;
pub use planning::{depends_on_some, plan};
pub use reason::{Reason, reason_of};
pub use saved_steps as steps;
pub use saved_steps::{branches as branches, turns as turns};
