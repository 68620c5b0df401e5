#![tactic(auto)]

//! Numbers in classes, each member linked to its neighbours in its class; and values at numbers with holes between them.
mod classed;
mod classes;
mod listed;
mod member;
mod numbers;
mod sparse;

pub use classed::{ClassedVec, SETS};
pub use classes::LinkedClasses;
pub use listed::NumberedVec;
pub use member::Member;
pub use numbers::RisingNumbers;
pub use sparse::SparseVec;
