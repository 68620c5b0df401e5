// Questions about a book, and their answers.
use crate::chain::tell_chain;
use crate::dot::write_dot;
use crate::listing::tell_book;
use crate::page::Page;
use crate::picture::Picture;
use crate::planned::tell_plan;
use book_events::{BookCalls, Refusal, StepRecords};
use std::alloc::{AllocError, Global};
use step_graph::why;
use step_names::StepName;

/// What is asked of a book.
#[derive(Debug, Drop)]
pub enum Question {
    /// Its executions and threads, and its sizes.
    List,
    /// The plan of a step, with reasons.
    Plan(StepName),
    /// Why the second step is a consequence of the first.
    Why(StepName, StepName),
    /// The dependences as a picture for Graphviz: all, or those of a step and its consequences.
    Dot(Option<StepName>),
}

/// The text of an answer.
#[derive(Drop)]
pub struct Answer {
    pub page: Page,
    /// Whether it is what was asked. Else it is a sentence that says why there is none.
    pub is_found: bool,
}

/// The answer of a book to a question; no book is one without steps. It changes nothing.
///
/// A list takes time in the numbers of entries, steps and threads; a plan and a picture in that of steps and of what is shown, each with
/// logarithms; a chain as [`why`], with the square of the number of consequences.
pub fn ask<B: BookCalls>(
    alloc: Global,
    book: Option<&B>,
    question: &Question,
) -> Result<Answer, AllocError> {
    match book {
        Some(given) => ask_of(alloc, book, given.history(), question),
        None => {
            let empty = StepRecords::new(alloc);
            let answer = ask_of(alloc, book, &empty, question);
            drop(empty);
            answer
        }
    }
}

/// The answer over these records.
fn ask_of<B: BookCalls>(
    alloc: Global,
    book: Option<&B>,
    records: &StepRecords,
    question: &Question,
) -> Result<Answer, AllocError> {
    let mut page = Page::new(alloc);
    let is_found = match question {
        Question::List => tell_list(&mut page, alloc, book)?,
        Question::Plan(step) => tell_plan_of(&mut page, alloc, book, records, step)?,
        Question::Why(from, to) => tell_why(&mut page, alloc, book, records, from, to)?,
        Question::Dot(from) => tell_dot(&mut page, alloc, book, records, from.as_ref())?,
    };
    Ok(Answer { page, is_found })
}

fn tell_plan_of<B: BookCalls>(
    page: &mut Page,
    alloc: Global,
    book: Option<&B>,
    records: &StepRecords,
    step: &StepName,
) -> Result<bool, AllocError> {
    let Some(at) = find(page, alloc, book, records, step)? else {
        return Ok(false);
    };
    tell_plan(page, alloc, book, records, at)?;
    Ok(true)
}

fn tell_list<B: BookCalls>(
    page: &mut Page,
    alloc: Global,
    book: Option<&B>,
) -> Result<bool, AllocError> {
    match book {
        Some(book) => tell_book(page, alloc, book)?,
        None => page.word("no table yet\n")?,
    }
    Ok(true)
}

fn tell_why<B: BookCalls>(
    page: &mut Page,
    alloc: Global,
    book: Option<&B>,
    records: &StepRecords,
    from: &StepName,
    to: &StepName,
) -> Result<bool, AllocError> {
    let Some(first) = find(page, alloc, book, records, from)? else {
        return Ok(false);
    };
    let Some(last) = find(page, alloc, book, records, to)? else {
        return Ok(false);
    };
    match why(alloc, records, first, last)? {
        Some(chain) if chain.len() > 1 => {
            tell_chain(page, alloc, records, &chain)?;
            Ok(true)
        }
        Some(_) => {
            page.step(alloc, to)?;
            page.word(" is the step itself\n")?;
            Ok(true)
        }
        None => {
            page.step(alloc, to)?;
            page.word(" is no consequence of ")?;
            page.step(alloc, from)?;
            page.word("\n")?;
            Ok(false)
        }
    }
}

fn tell_dot<B: BookCalls>(
    page: &mut Page,
    alloc: Global,
    book: Option<&B>,
    records: &StepRecords,
    from: Option<&StepName>,
) -> Result<bool, AllocError> {
    let Some(from) = from else {
        let picture = Picture::new(alloc, records, None)?;
        write_dot(page, alloc, records, &picture)?;
        return Ok(true);
    };
    let Some(at) = find(page, alloc, book, records, from)? else {
        return Ok(false);
    };
    let picture = Picture::new(alloc, records, Some(at))?;
    write_dot(page, alloc, records, &picture)?;
    Ok(true)
}

/// The place of a step; or a sentence that says why it doesn't remain.
fn find<B: BookCalls>(
    page: &mut Page,
    alloc: Global,
    book: Option<&B>,
    records: &StepRecords,
    step: &StepName,
) -> Result<Option<usize>, AllocError> {
    if let Some(at) = records.find(step) {
        return Ok(Some(at));
    }
    page.step(alloc, step)?;
    if is_settled(alloc, book, step) {
        page.word(" is settled\n")?;
    } else {
        page.word(" is no remaining step\n")?;
    }
    Ok(None)
}

/// Whether a step that doesn't remain was settled.
fn is_settled<B: BookCalls>(alloc: Global, book: Option<&B>, step: &StepName) -> bool {
    match book {
        Some(book) => matches!(book.plan_room(alloc, step), Err(Refusal::Settled)),
        None => false,
    }
}
