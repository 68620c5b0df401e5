#![tactic(auto)]

//! Frames of threads, and what a state that does no work makes of one.
mod copies;
mod equality;
mod frame;
mod laws;
mod turn;

pub use asl_processing::{
    MOST_LEVELS, OwnFault, TurnFault, effective_input, error_handling as error_handling, held,
    output_of, place_held, state_parts as state_parts,
};
pub use asl_tree as machine_tree;
pub use frame::{Fault, Frame, Origin, Phase, Retries};
pub use laws::equality_is_of_frames;
pub use turn::{
    counters_at, enter, failed, first_frame, go_on, located, next_frame, own_fault, same_place,
    with_phase,
};
