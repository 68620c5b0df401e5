#![tactic(auto)]

//! The steps that remain of executions, in their order, with the world that they give, and the names of those that were settled.
mod history;
mod laws;
mod making;
mod moving;
mod name_bucket;
mod settled_names;
mod settling;
mod undoing;

pub use asl_forward as turns;
pub use history::History;
pub use laws::{
    backward_orders_undo, frames_are_counted, frames_stand, free_steps_return,
    more_machines_keep_histories, threads_move_where_ready,
};
pub use settled_names::SettledNames;
pub use step_index::StepRecords;
