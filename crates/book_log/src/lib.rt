#![tactic(auto)]

//! What books accept: the commands of a log, what remains of them, what these give when they are run from the start, and
//! what each further command is answered.
mod begin;
mod entry;
mod entry_copies;
mod entry_equality;
mod laws;
mod moved;
mod opening;
mod refusal;
mod step_names_list;

pub use asl_machine as machines;
pub use begin::Begin;
pub use depends::{branches as branches, steps as steps, turns as turns};
pub use entry::Entry;
pub use laws::{
    equality_is_of_entries, holds_are_shared, legal_logs_run, moves_leave_others, orders_undo,
    reruns_agree, rollback_is_exact, settling_is_for_good, undo_answers_are_exact,
    undoing_is_exact,
};
pub use moved::Moved;
pub use opening::first_store;
pub use refusal::Refusal;
pub use step_names_list::StepNames;
