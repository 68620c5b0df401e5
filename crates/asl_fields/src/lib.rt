#![tactic(auto)]

//! The fields of the objects of a definition (Amazon States Language): which may stand where, how those are read that
//! several kinds of objects have, and why a definition is refused.
mod fault;
mod field_readers;
mod fields;

pub use fault::MachineFault;
pub use field_readers::{
    bool_of, check_fields, integer_of, optional_text, read_path, read_template, required, text_of,
};
pub use fields::{FieldStatus, Place, field_status_of};
pub use ref_paths as paths;
