#![tactic(auto)]

//! The answers to questions as one page, which a browser shows by itself.
mod markup;
mod page;
mod table;

pub use page::{PageParts, page_of};
