#![tactic(auto)]

//! The book as threads have it: `Book`, which may be sent to another thread (`book_send` of proofs/Sending.antt).
pub use rollback_book::Book;
