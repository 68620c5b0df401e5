#![tactic(auto)]

//! Questions of a book, and their answers in JSON.
mod answering;
mod finding;
mod listing;
mod logging;
mod questions;
mod showing;

pub use answer_causes::parts::Page;
pub use answering::{Answer, ask};
pub use listing::{Filter, Status};
pub use questions::{Question, QuestionFault};
