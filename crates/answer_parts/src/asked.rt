// What a question is asked of, and which part of a long answer.
use crate::values::Object;
use book_events::BookCalls;
use json_tree::Json;
use question_index::Index;
use std::alloc::{AllocError, Global};
use std::cmp::Ordering;
use step_names::{StepName, ThreadName};

/// The version of the answers' form.
const VERSION: i64 = 1;

/// A book, and what is known of its lines. The index has to be that of the book's own lines: answers say what it says.
#[derive(Drop)]
pub struct Asked<'a, B: BookCalls> {
    pub alloc: Global,
    pub book: &'a B,
    pub index: &'a Index,
}

impl<B: BookCalls> Asked<'_, B> {
    /// An answer without what was asked for: its form's version, and of how many lines it speaks. Takes memory for these two fields.
    pub fn answer(&self) -> Object {
        answer_after(self.alloc, self.index.lines())
    }
}

/// An answer of so many lines, without what was asked for. Takes memory for its two fields.
pub fn answer_after(alloc: Global, lines: usize) -> Object {
    let mut answer = Object::new(alloc);
    answer.put("rollback_graph", Ok(Json::Whole(VERSION)));
    answer.put_number("entries", lines);
    answer
}

/// A sentence in place of an answer. Takes memory for a copy of it.
pub fn no_answer(alloc: Global, sentence: &str) -> Result<Json, AllocError> {
    let mut answer = Object::new(alloc);
    answer.put("rollback_graph", Ok(Json::Whole(VERSION)));
    answer.put_text("error", sentence);
    answer.done()
}

/// Which rows of a long answer are asked for: those behind a name, and at most so many.
#[derive(Debug, Drop)]
pub struct Page<N> {
    pub after: Option<N>,
    pub most: Option<usize>,
}

impl<N> Page<N> {
    /// All rows.
    pub fn whole() -> Page<N> {
        Page {
            after: None,
            most: None,
        }
    }

    /// Whether there are as many rows as asked for.
    pub fn is_full(&self, rows: usize) -> bool {
        match self.most {
            Some(most) => rows >= most,
            None => false,
        }
    }
}

impl Page<ThreadName> {
    /// Whether a thread doesn't come behind the name.
    pub fn skips(&self, thread: &ThreadName) -> bool {
        match &self.after {
            Some(after) => !matches!(thread.cmp(after), Ordering::Greater),
            None => false,
        }
    }
}

impl Page<StepName> {
    /// Whether a step doesn't come behind the name.
    pub fn passes_by(&self, step: &StepName) -> bool {
        match &self.after {
            Some(after) => !matches!(step.cmp(after), Ordering::Greater),
            None => false,
        }
    }

    /// How a thread is to that of the name; behind it if there is no name.
    pub fn place_of(&self, thread: &ThreadName) -> Ordering {
        match &self.after {
            Some(after) => thread.cmp(&after.thread),
            None => Ordering::Greater,
        }
    }
}
