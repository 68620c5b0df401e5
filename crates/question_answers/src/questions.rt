// The grammar of questions.
use crate::listing::{Filter, Status};
use answer_causes::parts::Page;
use json_tree::Text;
use std::alloc::{AllocError, Global};
use step_names::{NameFault, StepName, ThreadName};

/// The most steps that `find` answers if it isn't asked for so many.
const MOST_FOUND: usize = 100;

/// A question of a book.
#[derive(Debug, Drop)]
pub enum Question {
    /// On which steps one depends; of these alone the writes and the starts, if so asked.
    Causes(StepName, bool),
    /// Who accessed the item of this key, in JSON or, of a key of one text, plain.
    Item(String, Page<StepName>),
    /// All items; those behind one of a key.
    Items(Page<String>),
    ShowStep(StepName),
    ShowThread(ThreadName, Page<StepName>),
    ShowExecution(ThreadName, Page<StepName>),
    Explain(ThreadName),
    List(Filter, Page<ThreadName>),
    Machines(Page<Text>),
    Definition(Text),
    Plan(StepName),
    Why(StepName, StepName),
    Find(String, usize),
    Steps(usize, usize),
    ReadyThreads(Page<ThreadName>),
    ThreadsSince(usize, Page<ThreadName>),
    Thread(ThreadName),
    Log(usize, usize),
}

/// Why a text is no question.
#[derive(Clone, Copy, Debug, PartialEq, Eq)]
pub enum QuestionFault {
    NoQuestion,
    /// Memory was refused.
    Memory,
}

impl From<AllocError> for QuestionFault {
    fn from(_refused: AllocError) -> QuestionFault {
        QuestionFault::Memory
    }
}

impl Question {
    /// Reads a question. Takes memory for its names.
    pub fn read(alloc: Global, text: &str) -> Result<Question, QuestionFault> {
        let (word, rest) = first_word(text);
        match word {
            "causes" => causes(alloc, rest),
            "item" => item(alloc, rest),
            "show" => show(alloc, rest),
            "explain" => Ok(Question::Explain(thread(alloc, rest)?)),
            "list" => list(alloc, rest),
            "machines" => machines(alloc, rest),
            "machine" => definition(alloc, rest),
            "plan" => Ok(Question::Plan(step(alloc, rest)?)),
            "why" => why(alloc, rest),
            "find" => find(alloc, rest),
            "steps" => {
                let (from, count) = two_numbers(rest)?;
                Ok(Question::Steps(from, count))
            }
            "threads" => threads(alloc, rest),
            "log" => {
                let (from, count) = two_numbers(rest)?;
                Ok(Question::Log(from, count))
            }
            _ => Err(QuestionFault::NoQuestion),
        }
    }
}

// ---- one by one

fn causes(alloc: Global, rest: &str) -> Result<Question, QuestionFault> {
    let (name, more) = first_word(rest);
    let writes = match more {
        "" => false,
        "writes" => true,
        _ => return Err(QuestionFault::NoQuestion),
    };
    Ok(Question::Causes(step(alloc, name)?, writes))
}

/// `KEY`, or nothing for all items; before it `after NAME most N` or `most N`, the name being that of a step, or of all items a key.
fn item(alloc: Global, rest: &str) -> Result<Question, QuestionFault> {
    let (after, left) = item_page(rest);
    let (count, key) = first_word(left);
    let Some(most) = number(count) else {
        return whole_item(alloc, rest);
    };
    let most = Some(most);
    if !key.is_empty() {
        return item_behind(alloc, key, step_or_none(alloc, after), most);
    }
    let after = match after {
        Some(key) => Some(String::from_str(alloc, key)?),
        None => None,
    };
    Ok(Question::Items(Page { after, most }))
}

fn item_behind(
    alloc: Global,
    key: &str,
    after: Result<Option<StepName>, QuestionFault>,
    most: Option<usize>,
) -> Result<Question, QuestionFault> {
    let after = after?;
    match String::from_str(alloc, key) {
        Ok(key) => Ok(Question::Item(key, Page { after, most })),
        Err(AllocError) => {
            drop(after);
            Err(QuestionFault::Memory)
        }
    }
}

fn whole_item(alloc: Global, key: &str) -> Result<Question, QuestionFault> {
    if key.is_empty() {
        return Ok(Question::Items(Page::whole()));
    }
    Ok(Question::Item(String::from_str(alloc, key)?, Page::whole()))
}

/// The name behind `after`, and what is behind `most`; nothing if it doesn't begin so.
fn item_page(rest: &str) -> (Option<&str>, &str) {
    if let Some(left) = rest.strip_prefix("most ") {
        return (None, left);
    }
    let Some(text) = rest.strip_prefix("after ") else {
        return (None, "");
    };
    match text.split_once(" most ") {
        Some((name, left)) => (Some(name), left),
        None => (None, ""),
    }
}

/// `NAME`, and of a name without a step also `after STEP most N`, either or both or none.
fn show(alloc: Global, rest: &str) -> Result<Question, QuestionFault> {
    let (name, more) = first_word(rest);
    if name.contains('#') {
        if more.is_empty() {
            return Ok(Question::ShowStep(step(alloc, name)?));
        }
        return Err(QuestionFault::NoQuestion);
    }
    let (after, most) = page_words(more)?;
    let after = step_or_none(alloc, after)?;
    match thread(alloc, name) {
        Ok(thread) if thread.is_execution() => {
            Ok(Question::ShowExecution(thread, Page { after, most }))
        }
        Ok(thread) => Ok(Question::ShowThread(thread, Page { after, most })),
        Err(fault) => {
            drop(after);
            Err(fault)
        }
    }
}

fn machines(alloc: Global, rest: &str) -> Result<Question, QuestionFault> {
    let (after, most) = page_words(rest)?;
    let after = match after {
        Some(after) => Some(Text::new(alloc, after)?),
        None => None,
    };
    Ok(Question::Machines(Page { after, most }))
}

fn list(alloc: Global, rest: &str) -> Result<Question, QuestionFault> {
    let mut filter = Filter {
        status: None,
        machine: None,
        since: None,
    };
    let mut page = Page::whole();
    match take_filters(alloc, &mut filter, &mut page, rest) {
        Ok(()) => Ok(Question::List(filter, page)),
        Err(fault) => {
            drop(filter);
            drop(page);
            Err(fault)
        }
    }
}

/// Takes all words of a list's.
fn take_filters(
    alloc: Global,
    filter: &mut Filter,
    page: &mut Page<ThreadName>,
    rest: &str,
) -> Result<(), QuestionFault> {
    let mut left = rest;
    // each turn takes a word at least
    for _ in 0..rest.len() {
        if left.is_empty() {
            break;
        }
        left = take_filter(alloc, filter, page, left)?;
    }
    if left.is_empty() {
        Ok(())
    } else {
        Err(QuestionFault::NoQuestion)
    }
}

/// Takes one word of a list's, with its value. What is left behind these.
fn take_filter<'a>(
    alloc: Global,
    filter: &mut Filter,
    page: &mut Page<ThreadName>,
    rest: &'a str,
) -> Result<&'a str, QuestionFault> {
    let (word, more) = first_word(rest);
    let (value, behind) = first_word(more);
    match word {
        "failed" => set_status(filter, Status::Failed)?,
        "open" => set_status(filter, Status::Open)?,
        "done" => set_status(filter, Status::Done)?,
        "all" => {}
        "machine" => {
            filter.machine = Some(Text::new(alloc, value)?);
            return Ok(behind);
        }
        "since" => {
            filter.since = Some(some_number(value)?);
            return Ok(behind);
        }
        "after" => {
            page.after = Some(thread(alloc, value)?);
            return Ok(behind);
        }
        "most" => {
            page.most = Some(some_number(value)?);
            return Ok(behind);
        }
        _ => return Err(QuestionFault::NoQuestion),
    }
    Ok(more)
}

/// A list is of one status at most.
fn set_status(filter: &mut Filter, status: Status) -> Result<(), QuestionFault> {
    if filter.status.is_some() {
        return Err(QuestionFault::NoQuestion);
    }
    filter.status = Some(status);
    Ok(())
}

fn definition(alloc: Global, rest: &str) -> Result<Question, QuestionFault> {
    let (name, more) = first_word(rest);
    if more != "definition" || name.is_empty() {
        return Err(QuestionFault::NoQuestion);
    }
    Ok(Question::Definition(Text::new(alloc, name)?))
}

fn why(alloc: Global, rest: &str) -> Result<Question, QuestionFault> {
    let (from, to) = first_word(rest);
    let from = step(alloc, from)?;
    match step(alloc, to) {
        Ok(to) => Ok(Question::Why(from, to)),
        Err(fault) => {
            drop(from);
            Err(fault)
        }
    }
}

/// `TEXT` or `TEXT most N`: the last two words are a bound if they are one.
fn find(alloc: Global, rest: &str) -> Result<Question, QuestionFault> {
    if let Some((text, most)) = rest.rsplit_once(" most ") {
        if let Some(most) = number(most) {
            if !text.is_empty() {
                return Ok(Question::Find(String::from_str(alloc, text)?, most));
            }
        }
    }
    if rest.is_empty() {
        return Err(QuestionFault::NoQuestion);
    }
    Ok(Question::Find(String::from_str(alloc, rest)?, MOST_FOUND))
}

fn threads(alloc: Global, rest: &str) -> Result<Question, QuestionFault> {
    let (word, more) = first_word(rest);
    match word {
        "ready" => Ok(Question::ReadyThreads(page(alloc, more)?)),
        "since" => {
            let (since, more) = first_word(more);
            let since = some_number(since)?;
            Ok(Question::ThreadsSince(since, page(alloc, more)?))
        }
        _ => Ok(Question::Thread(thread(alloc, rest)?)),
    }
}

fn page(alloc: Global, rest: &str) -> Result<Page<ThreadName>, QuestionFault> {
    let (after, most) = page_words(rest)?;
    let after = match after {
        Some(after) => Some(thread(alloc, after)?),
        None => None,
    };
    Ok(Page { after, most })
}

/// `after NAME most N`, either or both or none.
fn page_words(rest: &str) -> Result<(Option<&str>, Option<usize>), QuestionFault> {
    let (word, more) = first_word(rest);
    let (after, left) = if word == "after" {
        let (name, behind) = first_word(more);
        (Some(name), behind)
    } else {
        (None, rest)
    };
    if left.is_empty() {
        return Ok((after, None));
    }
    let (word, most) = first_word(left);
    if word != "most" {
        return Err(QuestionFault::NoQuestion);
    }
    Ok((after, Some(some_number(most)?)))
}

// ---- parts

/// The first word of a text, and what is behind the blank after it.
fn first_word(text: &str) -> (&str, &str) {
    match text.split_once(' ') {
        Some(parts) => parts,
        None => (text, ""),
    }
}

fn step(alloc: Global, text: &str) -> Result<StepName, QuestionFault> {
    match StepName::read(alloc, text) {
        Ok(step) => Ok(step),
        Err(NameFault::BadName) => Err(QuestionFault::NoQuestion),
        Err(NameFault::Memory) => Err(QuestionFault::Memory),
    }
}

fn step_or_none(alloc: Global, text: Option<&str>) -> Result<Option<StepName>, QuestionFault> {
    match text {
        Some(text) => Ok(Some(step(alloc, text)?)),
        None => Ok(None),
    }
}

fn thread(alloc: Global, text: &str) -> Result<ThreadName, QuestionFault> {
    match ThreadName::read(alloc, text) {
        Ok(thread) => Ok(thread),
        Err(NameFault::BadName) => Err(QuestionFault::NoQuestion),
        Err(NameFault::Memory) => Err(QuestionFault::Memory),
    }
}

/// A number of 32 bits.
fn number(text: &str) -> Option<usize> {
    match text.parse::<u32>() {
        Ok(number) => Some(number as usize),
        Err(_) => None,
    }
}

fn some_number(text: &str) -> Result<usize, QuestionFault> {
    match number(text) {
        Some(number) => Ok(number),
        None => Err(QuestionFault::NoQuestion),
    }
}

fn two_numbers(rest: &str) -> Result<(usize, usize), QuestionFault> {
    let (from, count) = first_word(rest);
    Ok((some_number(from)?, some_number(count)?))
}
