#![tactic(auto)]

//! What a state makes of its input and its result, where a Choice state goes, and the errors that states meet by themselves.
mod choosing;
mod error;
mod processing;

pub use asl_states as state_parts;
pub use asl_states::{error_handling as error_handling, paths as paths};
pub use choosing::choose;
pub use error::{OwnFault, TurnFault};
pub use processing::{MOST_LEVELS, effective_input, held, output_of, place_held};
