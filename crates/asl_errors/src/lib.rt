#![tactic(auto)]

//! What a state does with errors (Amazon States Language, "Errors"): its retriers and catchers, and how they are read.
mod equality;
mod error_readers;
mod errors;

pub use error_readers::read_error_handling;
pub use errors::{Catcher, Catchers, ErrorHandling, ErrorNames, Retrier, Retriers};
