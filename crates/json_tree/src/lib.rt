#![tactic(auto)]

//! JSON values whose numbers are whole, read by `serde_json` and written in one spelling.
mod common;
mod fault;
mod fields;
mod laws;
mod list;
mod nesting;
mod order;
mod reading;
mod short;
mod text;
mod told;
mod tree;
mod writing;

pub use fault::JsonFault;
pub use laws::{equality_is_of_values, texts_tell_apart, written_is_read_back};
pub use nesting::depth;
pub use reading::{from_value, read};
pub use text::Text;
pub use tree::{ChangeFault, Field, Json, JsonFields, JsonList};
pub use writing::write_text;
