//! Executions that call for few keys, and what of them remains taken again.
use crate::calls::book_with;
use attr_values::write_item;
use book_log::Refusal;
use json_tree::{Json, Text, depth, read, write_text};
use rollback_book::{Book, Entry, Events, StepRecords};
use shared_book::{Pass, Shared, SharedRefusal, Sharing};
use std::alloc::{AllocError, Global};
use std::sync::Wait;
use std::test::Fail;
use step_names::{StepName, ThreadName};

/// One branch reads a key; the other one writes it where it isn't there, and else tries twice more and catches. Then it is written.
pub(crate) const HOT: &str = r#"{"StartAt":"F","States":{
    "F":{"Type":"Parallel","ResultPath":"$.read","Next":"L","Branches":[
    {"StartAt":"G","States":{"G":{"Type":"Task","Resource":"arn:aws:states:::dynamodb:getItem",
    "Parameters":{"TableName":"items","Key":{"id":{"S.$":"$.key"}}},"End":true}}},
    {"StartAt":"W","States":{"W":{"Type":"Task","Resource":"arn:aws:states:::dynamodb:putItem",
    "Parameters":{"TableName":"items","Item":{"id":{"S.$":"$.key"},"v":{"S.$":"$.value"}},
    "ConditionExpression":"attribute_not_exists(id)"},"Retry":[{"ErrorEquals":["States.TaskFailed"],"MaxAttempts":2}],
    "Catch":[{"ErrorEquals":["States.ALL"],"Next":"A"}],"End":true},"A":{"Type":"Pass","End":true}}}]},
    "L":{"Type":"Task","Resource":"arn:aws:states:::dynamodb:putItem",
    "Parameters":{"TableName":"items","Item":{"id":{"S.$":"$.key"},"v":{"S.$":"$.value"}}},"End":true}}}"#;

// ---- executions by number

/// The thread of an execution, or one of its two branches.
pub(crate) fn name_of(alloc: Global, number: u32, which: u32) -> Result<ThreadName, AllocError> {
    let name = match which {
        0 => format!(in alloc; "x{number}")?,
        1 => format!(in alloc; "x{number}/1.0")?,
        _ => format!(in alloc; "x{number}/1.1")?,
    };
    match ThreadName::read(alloc, name.as_str()) {
        Ok(thread) => Ok(thread),
        Err(_fault) => Err(AllocError),
    }
}

/// One execution of four calls for a key that sixteen among 256 share, and each other one for a key of its own.
fn input_of(alloc: Global, number: u32) -> Result<Json, AllocError> {
    let text = if number % 4 == 0 {
        let (group, key) = (number / 256, number / 4 % 4);
        format!(in alloc; "{{\"key\":\"h{group}.{key}\",\"value\":\"{number}\"}}")?
    } else {
        format!(in alloc; "{{\"key\":\"k{number}\",\"value\":\"{number}\"}}")?
    };
    match read(alloc, text.as_str().as_bytes()) {
        Ok(input) => Ok(input),
        Err(_fault) => Err(AllocError),
    }
}

/// Starts an execution of a shared book.
pub(crate) fn start_shared<B: Events, L: Sharing>(
    rt: &impl Wait,
    alloc: Global,
    shared: &Shared<B, L>,
    pass: &mut Pass<L>,
    number: u32,
) -> Result<(), SharedRefusal> {
    let (Ok(exec), Ok(machine), Ok(input)) = (
        name_of(alloc, number, 0),
        Text::new(alloc, "p"),
        input_of(alloc, number),
    ) else {
        return Err(SharedRefusal::Refused(Refusal::Memory));
    };
    if !exec.is_execution() || depth(&input) > 127 {
        drop(input);
        return Err(SharedRefusal::Refused(Refusal::NoMachine));
    }
    drop(shared.start(rt, alloc, pass, &exec, &machine, input)?);
    Ok(())
}

fn start_as(
    alloc: Global,
    book: &mut Book,
    exec: &ThreadName,
    machine: &Text,
    input: Json,
) -> Result<(), Fail> {
    if !exec.is_execution() || depth(&input) > 127 {
        drop(input);
        return Err("no execution".into());
    }
    drop(book.start(alloc, exec, machine, input)?);
    Ok(())
}

fn start_all(alloc: Global, book: &mut Book, executions: u32) -> Result<(), Fail> {
    let machine = Text::new(alloc, "p")?;
    for number in 0..executions {
        let exec = name_of(alloc, number, 0)?;
        start_as(alloc, book, &exec, &machine, input_of(alloc, number)?)?;
    }
    Ok(())
}

/// A book in which so many executions are started.
pub(crate) fn hot_book(alloc: Global, executions: u32) -> Result<Book, Fail> {
    let mut book = book_with(alloc, HOT)?;
    match start_all(alloc, &mut book, executions) {
        Ok(()) => Ok(book),
        Err(fail) => {
            drop(book);
            Err(fail)
        }
    }
}

// ---- what two books show

fn is_same_frame(
    alloc: Global,
    one: &Book,
    other: &Book,
    thread: &ThreadName,
) -> Result<bool, Fail> {
    match (one.show(thread), other.show(thread)) {
        (Ok(one), Ok(other)) => {
            let one = format!(in alloc; "{one:?}")?;
            let other = format!(in alloc; "{other:?}")?;
            Ok(one == other)
        }
        (Err(Refusal::NoThread), Err(Refusal::NoThread)) => Ok(true),
        _ => Ok(false),
    }
}

fn are_same_frames(alloc: Global, one: &Book, other: &Book, executions: u32) -> Result<bool, Fail> {
    for number in 0..executions {
        for which in 0..3u32 {
            let thread = name_of(alloc, number, which)?;
            if !is_same_frame(alloc, one, other, &thread)? {
                return Ok(false);
            }
        }
    }
    Ok(true)
}

fn items_in(alloc: Global, book: &Book) -> Result<String, AllocError> {
    let mut text = String::new(alloc);
    for item in book.items() {
        let json = write_item(item)?;
        text.push_str(write_text(alloc, &json)?.as_str())?;
    }
    Ok(text)
}

fn are_same_names(one: &StepRecords, other: &StepRecords) -> bool {
    if one.len() != other.len() {
        return false;
    }
    for place in 0..one.len() {
        if one.get(place).fact.name != other.get(place).fact.name {
            return false;
        }
    }
    true
}

/// Whether two books have the same steps, items and frames.
pub(crate) fn are_same(
    alloc: Global,
    one: &Book,
    other: &Book,
    executions: u32,
) -> Result<bool, Fail> {
    Ok(
        are_same_names(one.history(), other.history())
            && items_in(alloc, one)? == items_in(alloc, other)?
            && are_same_frames(alloc, one, other, executions)?,
    )
}

// ---- what remains, taken again

/// The number of an execution.
fn number_of(exec: &str) -> Result<u32, Fail> {
    match exec.strip_prefix("x") {
        Some(number) => Ok(number.parse::<u32>()?),
        None => Err("no number".into()),
    }
}

/// Takes a step, where it is the next of its thread.
fn take(alloc: Global, book: &mut Book, name: &StepName) -> Result<bool, Fail> {
    if name.no == 0 {
        let machine = Text::new(alloc, "p")?;
        let input = input_of(alloc, number_of(name.thread.exec())?)?;
        start_as(alloc, book, &name.thread, &machine, input)?;
        return Ok(true);
    }
    let moved = book.step(alloc, &name.thread)?;
    let is_next = moved.name == *name;
    drop(moved);
    Ok(is_next)
}

fn take_all(alloc: Global, book: &mut Book, steps: &StepRecords) -> Result<bool, Fail> {
    for place in 0..steps.len() {
        if !take(alloc, book, &steps.get(place).fact.name)? {
            return Ok(false);
        }
    }
    Ok(true)
}

fn takes_again(
    alloc: Global,
    book: &Book,
    again: &mut Book,
    executions: u32,
) -> Result<bool, Fail> {
    Ok(take_all(alloc, again, book.history())? && are_same(alloc, book, again, executions)?)
}

/// Whether the remaining steps alone, taken in a new book, give the same.
pub(crate) fn is_taken_again(alloc: Global, book: &Book, executions: u32) -> Result<bool, Fail> {
    let mut again = book_with(alloc, HOT)?;
    let is_so = takes_again(alloc, book, &mut again, executions);
    drop(again);
    is_so
}

// ---- the log, entered again

fn enter(alloc: Global, book: &mut Book, entry: &Entry) -> Result<(), Fail> {
    match entry {
        // It is there from the beginning.
        Entry::Define { .. } => Ok(()),
        Entry::Start {
            exec,
            machine,
            input,
        } => start_as(alloc, book, exec, machine, input.copy()?),
        Entry::Step { name, .. } => {
            drop(book.step(alloc, &name.thread)?);
            Ok(())
        }
        Entry::Undo { step } => {
            let room = book.room(alloc, step)?;
            drop(book.undo(room)?);
            Ok(())
        }
        Entry::Rollback { step, .. } => {
            let room = book.plan_room(alloc, step)?;
            drop(book.rollback(room)?);
            Ok(())
        }
        Entry::Settle => Ok(book.settle(alloc)?),
        Entry::Hold { step, .. } => {
            book.hold(alloc, step)?;
            Ok(())
        }
    }
}

fn enter_all(alloc: Global, book: &mut Book, log: &[Entry]) -> Result<(), Fail> {
    for entry in log {
        enter(alloc, book, entry)?;
    }
    Ok(())
}

fn enters_again(
    alloc: Global,
    book: &Book,
    again: &mut Book,
    executions: u32,
) -> Result<bool, Fail> {
    let (_begin, log) = book.entries();
    enter_all(alloc, again, log)?;
    Ok(log == again.entries().1 && are_same(alloc, book, again, executions)?)
}

/// Whether the log's commands, entered into a new book, are answered as they were and give the same.
pub(crate) fn is_entered_again(alloc: Global, book: &Book, executions: u32) -> Result<bool, Fail> {
    let mut again = book_with(alloc, HOT)?;
    let is_so = enters_again(alloc, book, &mut again, executions);
    drop(again);
    is_so
}
