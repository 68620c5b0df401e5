//! Attribute values, items and keys of a table, as the DynamoDB API writes them in JSON.
#![tactic(auto)]

mod fault;
mod item;
mod key;
mod key_order;
mod key_part;
mod keying;
mod laws;
mod number;
mod order;
mod reading;
mod spelling;
mod value;
mod writing;

pub use fault::ItemFault;
pub use item::{Item, read_item, write_item};
pub use key::{Key, KeyAttribute, KeySchema, KeyType};
pub use key_part::{KeyPart, KeyText};
pub use keying::key_of;
pub use laws::{
    equality_is_of_values, keys_have_one_form, numbers_are_read, numbers_have_one_form,
    numbers_read_back, written_is_read_back,
};
pub use number::Number;
pub use reading::{MOST_LEVELS, read_value};
pub use value::{NumberSet, TextSet, Value, ValueList, ValueMap};
pub use writing::write_value;
