// The answer to a question.
use crate::finding::found_steps;
use crate::listing::{Filter, executions, put_none};
use crate::logging::{definition_of, log_from, machines_of};
use crate::questions::Question;
use crate::showing::{execution_of, step_of, steps_from, thread_of};
use answer_causes::parts::books::{BookCalls, Refusal};
use answer_causes::parts::{
    Asked, Index, Object, Page, Rows, answer_after, no_answer, one_thread, ready_threads,
    threads_since,
};
use answer_causes::{causes_of, chain_of, explained, item_of, items_of, plan_of};
use attr_values::{Item, ItemFault, Key, KeyType, key_of, read_item};
use json_tree::{Json, JsonFault, read};
use std::alloc::{AllocError, Global};
use step_names::{StepName, ThreadName};

/// The answer to a question, and whether there is what was asked for; if not, the answer has a sentence that says so.
#[derive(Drop)]
pub struct Answer {
    pub json: Json,
    pub is_found: bool,
}

/// The answer of a book to a question; no book is one before its table is given. It changes nothing.
pub fn ask<B: BookCalls>(
    alloc: Global,
    book: Option<&B>,
    index: &Index,
    question: &Question,
) -> Result<Answer, AllocError> {
    match book {
        Some(book) => answer_of(&Asked { alloc, book, index }, question),
        None => answer_before(alloc, index, question),
    }
}

fn answer_of<B: BookCalls>(
    asked: &Asked<'_, B>,
    question: &Question,
) -> Result<Answer, AllocError> {
    match question {
        Question::Causes(step, _) | Question::ShowStep(step) | Question::Plan(step) => of_step(
            asked, step, question,
        ),
        Question::Why(from, to) => why(asked, from, to),
        Question::Item(key, page) => item(asked, key.as_str(), page),
        Question::Items(page) => items(asked, page),
        Question::List(filter, page) => list(asked, filter, page),
        Question::Machines(page) => found(machines_of(asked, page)),
        Question::Find(text, most) => found(found_steps(asked, text.as_str(), *most)),
        Question::Steps(from, count) => found(steps_from(asked, *from, *count)),
        Question::ReadyThreads(page) => found(ready_threads(asked, page)),
        Question::ThreadsSince(since, page) => found(threads_since(asked, *since, page)),
        Question::Log(from, count) => found(log_from(asked, *from, *count)),
        Question::ShowThread(_, _)
        | Question::ShowExecution(_, _)
        | Question::Explain(_)
        | Question::Definition(_)
        | Question::Thread(_) => of_name(asked, question),
    }
}

/// The executions of a filter, if its machine is one.
fn list<B: BookCalls>(
    asked: &Asked<'_, B>,
    filter: &Filter,
    page: &Page<ThreadName>,
) -> Result<Answer, AllocError> {
    match &filter.machine {
        Some(machine) if !asked.index.definitions().contains_key(machine) => {
            absent_word(asked.alloc, machine.as_str(), " is no machine")
        }
        _ => found(executions(asked, filter, page)),
    }
}

// ---- of a step

/// The answer to a question of one step.
fn of_step<B: BookCalls>(
    asked: &Asked<'_, B>,
    step: &StepName,
    question: &Question,
) -> Result<Answer, AllocError> {
    let Some(at) = asked.book.history().find(step) else {
        return gone(asked, step);
    };
    match question {
        Question::Causes(_, writes) => found(causes_of(asked, step, at, *writes)),
        Question::Plan(_) => found(plan_of(asked, step, at)),
        _ => found(step_of(asked, at)),
    }
}

fn why<B: BookCalls>(
    asked: &Asked<'_, B>,
    from: &StepName,
    to: &StepName,
) -> Result<Answer, AllocError> {
    let Some(first) = asked.book.history().find(from) else {
        return gone(asked, from);
    };
    let Some(last) = asked.book.history().find(to) else {
        return gone(asked, to);
    };
    match chain_of(asked, first, last)? {
        Some(json) => found(Ok(json)),
        None => no_consequence(asked, from, to),
    }
}

fn no_consequence<B: BookCalls>(
    asked: &Asked<'_, B>,
    from: &StepName,
    to: &StepName,
) -> Result<Answer, AllocError> {
    let mut sentence = to.write_text(asked.alloc)?;
    let written = write_behind(&mut sentence, from);
    absent_if(asked.alloc, sentence, written)
}

fn write_behind(sentence: &mut String, from: &StepName) -> Result<(), AllocError> {
    sentence.push_str(" is no consequence of ")?;
    from.write_to(sentence)
}

/// Why there is no such step.
fn gone<B: BookCalls>(asked: &Asked<'_, B>, step: &StepName) -> Result<Answer, AllocError> {
    let words = if is_settled(asked, step) {
        " is settled"
    } else {
        " is no remaining step"
    };
    absent_name(asked.alloc, step.write_text(asked.alloc), words)
}

/// Whether a step that doesn't remain was settled.
fn is_settled<B: BookCalls>(asked: &Asked<'_, B>, step: &StepName) -> bool {
    matches!(
        asked.book.plan_room(asked.alloc, step),
        Err(Refusal::Settled)
    )
}

// ---- of another name

/// The answer to a question of a thread, an execution or a machine.
fn of_name<B: BookCalls>(asked: &Asked<'_, B>, question: &Question) -> Result<Answer, AllocError> {
    match question {
        Question::ShowThread(thread, page) => {
            of_thread(
                asked,
                thread,
                thread_of(asked, thread, page),
                " is no thread",
            )
        }
        Question::Thread(thread) => {
            of_thread(asked, thread, one_thread(asked, thread), " is no thread")
        }
        Question::Explain(thread) => {
            of_thread(asked, thread, explained(asked, thread), " is no thread")
        }
        Question::ShowExecution(exec, page) => {
            of_thread(
                asked,
                exec,
                execution_of(asked, exec, page),
                " is no execution",
            )
        }
        Question::Definition(name) => match definition_of(asked, name)? {
            Some(json) => found(Ok(json)),
            None => absent_word(asked.alloc, name.as_str(), " is no machine"),
        },
        _ => absent(asked.alloc, "no question"),
    }
}

/// An answer about a thread; of none a sentence, which begins with its name.
fn of_thread<B: BookCalls>(
    asked: &Asked<'_, B>,
    thread: &ThreadName,
    json: Result<Option<Json>, AllocError>,
    words: &str,
) -> Result<Answer, AllocError> {
    match json? {
        Some(json) => found(Ok(json)),
        None => absent_name(asked.alloc, thread.write_text(asked.alloc), words),
    }
}

// ---- of an item

/// The accesses of a key, which is an object of attributes or, if the key has one text, this text.
fn item<B: BookCalls>(
    asked: &Asked<'_, B>,
    text: &str,
    page: &Page<StepName>,
) -> Result<Answer, AllocError> {
    if let Some(after) = &page.after {
        if asked.book.history().find(after).is_none() {
            return gone(asked, after);
        }
    }
    match key_in(asked, text)? {
        Some(key) => item_at(asked, text, key, page),
        None => no_item(asked, text),
    }
}

fn item_at<B: BookCalls>(
    asked: &Asked<'_, B>,
    text: &str,
    key: Key,
    page: &Page<StepName>,
) -> Result<Answer, AllocError> {
    let json = item_of(asked, &key, page);
    drop(key);
    match json? {
        Some(json) => found(Ok(json)),
        None => no_item(asked, text),
    }
}

/// The items, from the first one behind a key.
fn items<B: BookCalls>(asked: &Asked<'_, B>, page: &Page<String>) -> Result<Answer, AllocError> {
    let Some(text) = &page.after else {
        return items_behind(asked, None, page.most);
    };
    match key_in(asked, text.as_str())? {
        Some(key) => items_behind(asked, Some(key), page.most),
        None => no_item(asked, text.as_str()),
    }
}

fn items_behind<B: BookCalls>(
    asked: &Asked<'_, B>,
    after: Option<Key>,
    most: Option<usize>,
) -> Result<Answer, AllocError> {
    let page = Page { after, most };
    let json = items_of(asked, &page);
    drop(page);
    found(json)
}

fn no_item<B: BookCalls>(asked: &Asked<'_, B>, text: &str) -> Result<Answer, AllocError> {
    absent_word(asked.alloc, text, " is no item")
}

/// The key that a text says.
fn key_in<B: BookCalls>(asked: &Asked<'_, B>, text: &str) -> Result<Option<Key>, AllocError> {
    match read(asked.alloc, text.as_bytes()) {
        Ok(Json::Fields(fields)) => key_of_json(asked, Ok(Json::Fields(fields))),
        Ok(other) => {
            drop(other);
            key_of_json(asked, plain_key(asked, text))
        }
        Err(JsonFault::NotJson | JsonFault::NotWhole) => key_of_json(asked, plain_key(asked, text)),
        Err(JsonFault::Memory) => Err(AllocError),
    }
}

fn key_of_json<B: BookCalls>(
    asked: &Asked<'_, B>,
    json: Result<Json, AllocError>,
) -> Result<Option<Key>, AllocError> {
    let json = json?;
    let item = read_item(asked.alloc, &json);
    drop(json);
    match item {
        Ok(item) => key_of_item(asked, item),
        Err(ItemFault::Memory) => Err(AllocError),
        Err(_) => Ok(None),
    }
}

fn key_of_item<B: BookCalls>(asked: &Asked<'_, B>, item: Item) -> Result<Option<Key>, AllocError> {
    let (begin, _) = asked.book.entries();
    let key = key_of(&begin.schema, &item);
    drop(item);
    match key {
        Ok(key) => Ok(Some(key)),
        Err(ItemFault::Memory) => Err(AllocError),
        Err(_) => Ok(None),
    }
}

/// The key whose one attribute is this text.
fn plain_key<B: BookCalls>(asked: &Asked<'_, B>, text: &str) -> Result<Json, AllocError> {
    let (begin, _) = asked.book.entries();
    let tag = match begin.schema.partition.kind {
        KeyType::S => "S",
        KeyType::N => "N",
    };
    let mut value = Object::new(asked.alloc);
    value.put_text(tag, text);
    let mut key = Object::new(asked.alloc);
    key.put(begin.schema.partition.name.as_str(), value.done());
    key.done()
}

// ---- before a table

/// The answer to a question before there is a table: each list is empty, and there is nothing of any name.
fn answer_before(alloc: Global, index: &Index, question: &Question) -> Result<Answer, AllocError> {
    let mut answer = answer_after(alloc, index.lines());
    if !put_no_rows(alloc, &mut answer, question) {
        drop(answer);
        return absent(alloc, "no table yet");
    }
    answer.put_whether("more", Ok(false));
    found(answer.done())
}

/// Adds the empty list that a question asks for. Whether it asks for one.
fn put_no_rows(alloc: Global, answer: &mut Object, question: &Question) -> bool {
    match question {
        Question::Items(_) => answer.put_list("items", Rows::new(alloc)),
        Question::List(filter, _) => put_none(alloc, answer, filter),
        Question::Machines(_) => answer.put_list("machines", Rows::new(alloc)),
        Question::Find(_, _) | Question::Steps(_, _) => answer.put_list("steps", Rows::new(alloc)),
        Question::ReadyThreads(_) => answer.put_list("threads", Rows::new(alloc)),
        Question::ThreadsSince(_, _) => {
            answer.put_list("gone", Rows::new(alloc));
            answer.put_list("threads", Rows::new(alloc));
        }
        Question::Log(_, _) => answer.put_list("log", Rows::new(alloc)),
        _ => return false,
    }
    true
}

// ---- an answer

fn found(json: Result<Json, AllocError>) -> Result<Answer, AllocError> {
    Ok(Answer {
        json: json?,
        is_found: true,
    })
}

fn absent(alloc: Global, sentence: &str) -> Result<Answer, AllocError> {
    Ok(Answer {
        json: no_answer(alloc, sentence)?,
        is_found: false,
    })
}

/// A sentence in place of an answer, if all of it was written.
fn absent_if(
    alloc: Global,
    sentence: String,
    written: Result<(), AllocError>,
) -> Result<Answer, AllocError> {
    let answer = match written {
        Ok(()) => absent(alloc, sentence.as_str()),
        Err(AllocError) => Err(AllocError),
    };
    drop(sentence);
    answer
}

/// A sentence that begins with a name.
fn absent_name(
    alloc: Global,
    name: Result<String, AllocError>,
    words: &str,
) -> Result<Answer, AllocError> {
    let mut sentence = name?;
    let written = sentence.push_str(words);
    absent_if(alloc, sentence, written)
}

/// A sentence that begins with a word.
fn absent_word(alloc: Global, word: &str, words: &str) -> Result<Answer, AllocError> {
    absent_name(alloc, String::from_str(alloc, word), words)
}
