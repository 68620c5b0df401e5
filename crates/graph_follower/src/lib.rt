#![tactic(auto)]

//! A book that follows another one, line by line, and answers questions.
mod behind;
mod follower;
mod following;
mod giving;

pub use behind::{ask_behind, follow_behind};
pub use follower::{Answered, Followed, Follower, Form, written};
pub use following::{FollowFault, follow};
pub use threaded_book::Book;

/// What is asked and answered.
pub mod questions {
    pub use question_answers::{Answer, Question, QuestionFault};
}
