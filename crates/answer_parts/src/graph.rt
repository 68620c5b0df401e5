// What answers name of the dependences.
pub use step_graph::{
    Cause, Reason, branch_of, causes, closed_threads, depends, kind_word, plan_reasons, reason_at,
    reason_word, record_at, take_reason, thread_above, why,
};
