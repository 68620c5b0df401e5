#![tactic(auto)]

//! What operators read of a book's dependences: lists, plans with their reasons, chains, and pictures.
mod asking;
mod barriers;
mod chain;
mod cutting;
mod dot;
mod listing;
mod page;
mod picture;
mod planned;
mod words;

pub use asking::{Answer, Question, ask};
pub use page::Page;
