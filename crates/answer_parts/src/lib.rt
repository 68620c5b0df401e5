#![tactic(auto)]

//! The parts of which answers about a book are made: its values, threads and steps in JSON.
mod asked;
pub mod books;
pub mod graph;
mod near;
mod steps;
mod threads;
mod values;

pub use asked::{Asked, Page, answer_after, no_answer};
pub use near::near_of;
pub use question_index::{Index, frame_of};
pub use steps::{
    Around, access_word, before_access, closed_frame, frame_after, frame_before, frame_value,
    item_now, item_value, items_around, key_value, outcome_of, put_step_row, reason_row, record_in,
    record_of,
};
pub use threads::{Move, move_of, one_thread, ready_threads, shared_machine_of, threads_since};
pub use values::{Object, Rows, ThreadNames, step_value, whole};
