#![tactic(auto)]

//! A journal's files as they are at one moment, read into memory and opened there. The files aren't written, locked or changed in any way,
//! and a session may have them open.
mod at_path;
mod copied;
mod reading;

pub use at_path::open_at;
pub use copied::{Copied, open_copy};
pub use reading::{CopyFault, JournalBytes, JournalFiles, read_still};
