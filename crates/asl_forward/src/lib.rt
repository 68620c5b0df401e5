#![tactic(auto)]

//! What every state makes of a frame: its turn, and what comes of a call, of branches and of an error, its own or a branch's.
mod forking;
mod frames;
mod handling;
mod outcomes;
mod prepared;
mod work;
mod work_results;

pub use asl_frames as frame_turns;
pub use asl_frames::{
    Fault, Frame, Origin, Phase, Retries, first_frame, located, machine_tree as machine_tree,
    next_frame,
};
pub use frames::Frames;
pub use handling::{after_branch, after_error, handle};
pub use prepared::{Outcome, Prepared, prepare, prepare_at};
pub use work::finish;
pub use work_results::{after_answer, call_fault, joined, work_of};
