//! The items of one table by their keys, and the calls that read and write one item (GetItem, PutItem and DeleteItem of the
//! DynamoDB API).
#![tactic(auto)]

mod access;
mod call;
mod condition;
mod deciding;
mod fault;
mod keying;
mod laws;
mod listing;
mod reading;
mod slot;
mod store;

pub use access::AccessMode;
pub use call::{Action, Call, Condition, ConditionKind, Request, ReturnValues, Terms};
pub use deciding::{Answer, Decided, decide};
pub use fault::CallFault;
pub use laws::{calls_touch_one_item, conditions_are_spelled, swaps_are_undone};
pub use listing::Items;
pub use slot::SlotNo;
pub use store::ItemStore;
