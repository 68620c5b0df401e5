// What answers name of a book.
pub use book_events::turns::{Fault, Frame, Outcome, Phase, Prepared, located};
pub use book_events::{
    Access, BookCalls, Entry, Fact, Kind, Refusal, Saved, StepRecord, StepRecords,
};
