//! A shared book of two passes, and what is called through them.
ghost use Rattle.std.specs.Prelude.{◌≡◌};

use attr_values::{KeyAttribute, KeySchema, KeyType};
use book_log::{Begin, Entry, Refusal};
use json_tree::{Json, JsonList, Text, depth, read};
use rollback_book::Book;
use serde_json::Value;
use shared_book::{PARTS, Pass, Receipt, Shared, SharedRefusal, Sharing, share};
use std::alloc::{AllocError, Global};
use std::sync::Wait;
use std::sync::ledger::Blank;
use std::test::Fail;
use step_names::{StepName, ThreadName};

pub(crate) const PASS: &str =
    r#"{"StartAt":"P","States":{"P":{"Type":"Pass","Result":7,"End":true}}}"#;

// ---- a book to begin with

fn key_schema(alloc: Global) -> Result<KeySchema, AllocError> {
    let name = Text::new(alloc, "id")?;
    let partition = KeyAttribute {
        name,
        kind: KeyType::S,
    };
    Ok(KeySchema {
        partition,
        sort: None,
    })
}

fn beginning(alloc: Global, items: JsonList) -> Result<Begin, AllocError> {
    let (Ok(table), Ok(schema)) = (Text::new(alloc, "items"), key_schema(alloc)) else {
        drop(items);
        return Err(AllocError);
    };
    Ok(Begin {
        table,
        schema,
        items,
    })
}

fn open(alloc: Global) -> Result<Book, Fail> {
    match read(alloc, b"[]")? {
        Json::List(items) => Ok(Book::open(alloc, beginning(alloc, items)?)?),
        _ => Err("no list of items".into()),
    }
}

fn define(alloc: Global, book: &mut Book, machine: &str) -> Result<(), Fail> {
    let definition = Value::from_str(alloc, machine)?;
    let name = Text::new(alloc, "p")?;
    let defined = book.define(alloc, &name, &definition);
    drop(definition);
    Ok(defined?)
}

/// A book over no items, with a machine named p.
pub(crate) fn book_with(alloc: Global, machine: &str) -> Result<Book, Fail> {
    let mut book = open(alloc)?;
    match define(alloc, &mut book, machine) {
        Ok(()) => Ok(book),
        Err(fail) => {
            drop(book);
            Err(fail)
        }
    }
}

/// Starts execution a of machine p.
pub(crate) fn begin(alloc: Global, book: &mut Book) -> Result<(), Fail> {
    let exec = ThreadName::read(alloc, "a")?;
    let machine = Text::new(alloc, "p")?;
    let input = read(alloc, b"{}")?;
    if !exec.is_execution() || depth(&input) > 127 {
        drop(input);
        return Err("no execution".into());
    }
    drop(book.start(alloc, &exec, &machine, input)?);
    Ok(())
}

/// A shared book, and two passes of it.
#[derive(Drop)]
pub(crate) struct Seats<L: Sharing> {
    pub(crate) shared: Shared<Book, L>,
    pub(crate) first: Pass<L>,
    pub(crate) second: Pass<L>,
}

pub(crate) fn seats_of<L: Sharing>(alloc: Global, blank: Blank, book: Book) -> Seats<L>
    requires { (blank.name ≡ L.name) × (blank.parts ≡ L.parts) × (L.parts ≡ PARTS) × (book.log ≡ L.begun) }
{
    let (shared, mut first) = share::<Book, L>(alloc, blank, book);
    let Some(second) = first.seat() else {
        unreachable!()
    };
    Seats {
        shared,
        first,
        second,
    }
}

// ---- calls

/// What is called. Names and texts are as lines spell them; the machine of each start is p.
#[derive(Clone, Copy)]
pub(crate) enum Act {
    Start(&'static str, &'static str),
    Step(&'static str),
    Undo(&'static str),
    Rollback(&'static str),
    Hold(&'static str),
}

fn out_of_memory() -> SharedRefusal {
    SharedRefusal::Refused(Refusal::Memory)
}

fn start<L: Sharing>(
    rt: &impl Wait,
    alloc: Global,
    shared: &Shared<Book, L>,
    pass: &mut Pass<L>,
    exec: &str,
    input: &str,
) -> Result<Receipt, SharedRefusal> {
    let (Ok(exec), Ok(machine)) = (ThreadName::read(alloc, exec), Text::new(alloc, "p")) else {
        return Err(out_of_memory());
    };
    let Ok(input) = read(alloc, input.as_bytes()) else {
        return Err(out_of_memory());
    };
    if !exec.is_execution() || depth(&input) > 127 {
        drop(input);
        return Err(SharedRefusal::Refused(Refusal::NoThread));
    }
    shared.start(rt, alloc, pass, &exec, &machine, input)
}

fn step<L: Sharing>(
    rt: &impl Wait,
    alloc: Global,
    shared: &Shared<Book, L>,
    pass: &mut Pass<L>,
    thread: &str,
) -> Result<Receipt, SharedRefusal> {
    match ThreadName::read(alloc, thread) {
        Ok(thread) => shared.step(rt, alloc, pass, &thread),
        Err(_fault) => Err(out_of_memory()),
    }
}

fn undo<L: Sharing>(
    rt: &impl Wait,
    alloc: Global,
    shared: &Shared<Book, L>,
    pass: &mut Pass<L>,
    step: &str,
) -> Result<Receipt, SharedRefusal> {
    match StepName::read(alloc, step) {
        Ok(step) => shared.undo(rt, alloc, pass, &step),
        Err(_fault) => Err(out_of_memory()),
    }
}

fn roll_back<L: Sharing>(
    rt: &impl Wait,
    alloc: Global,
    shared: &Shared<Book, L>,
    pass: &mut Pass<L>,
    step: &str,
) -> Result<Receipt, SharedRefusal> {
    match StepName::read(alloc, step) {
        Ok(step) => shared.rollback(rt, alloc, pass, &step),
        Err(_fault) => Err(out_of_memory()),
    }
}

fn hold<L: Sharing>(
    rt: &impl Wait,
    alloc: Global,
    shared: &Shared<Book, L>,
    pass: &mut Pass<L>,
    step: &str,
) -> Result<Receipt, SharedRefusal> {
    match StepName::read(alloc, step) {
        Ok(step) => shared.hold(rt, alloc, pass, &step),
        Err(_fault) => Err(out_of_memory()),
    }
}

/// A receipt's number and entry, as `3 step a#1`.
pub(crate) fn spelled(alloc: Global, receipt: &Receipt) -> Result<String, AllocError> {
    let number = receipt.number;
    match &receipt.entry {
        Entry::Define { .. } => format!(in alloc; "{number} define"),
        Entry::Start { exec, .. } => {
            let exec = exec.write_text(alloc)?;
            format!(in alloc; "{number} start {exec}")
        }
        Entry::Step { name, .. } => {
            let name = name.write_text(alloc)?;
            format!(in alloc; "{number} step {name}")
        }
        Entry::Undo { step } => {
            let step = step.write_text(alloc)?;
            format!(in alloc; "{number} undo {step}")
        }
        Entry::Rollback { step, undone } => {
            let step = step.write_text(alloc)?;
            let count = undone.names().len();
            format!(in alloc; "{number} rollback {step} of {count}")
        }
        Entry::Settle => format!(in alloc; "{number} settle"),
        Entry::Hold { step, count } => {
            let step = step.write_text(alloc)?;
            format!(in alloc; "{number} hold {step} of {count}")
        }
    }
}

/// Whether it is spelled so.
pub(crate) fn is_spelled(alloc: Global, receipt: Receipt, want: &str) -> Result<bool, Fail> {
    let text = spelled(alloc, &receipt);
    drop(receipt);
    Ok(text?.as_str() == want)
}

/// Whether that is the refusal; for want of memory an error.
fn is_refused(refusal: &SharedRefusal, want: &str) -> Result<bool, Fail> {
    match refusal {
        SharedRefusal::Refused(Refusal::Memory) => Err(AllocError.into()),
        SharedRefusal::Refused(Refusal::NoThread) => Ok(want == "no thread"),
        SharedRefusal::Refused(Refusal::NotReady(_)) => Ok(want == "not ready"),
        SharedRefusal::Refused(Refusal::NoStep) => Ok(want == "no step"),
        SharedRefusal::Refused(Refusal::HasDependents(_)) => Ok(want == "has dependents"),
        SharedRefusal::Refused(Refusal::Held(_)) => Ok(want == "held"),
        _ => Ok(false),
    }
}

/// Whether a call is answered so.
pub(crate) fn is_told<L: Sharing>(
    rt: &impl Wait,
    alloc: Global,
    shared: &Shared<Book, L>,
    pass: &mut Pass<L>,
    act: Act,
    want: &str,
) -> Result<bool, Fail> {
    let answer = match act {
        Act::Start(exec, input) => start(rt, alloc, shared, pass, exec, input),
        Act::Step(thread) => step(rt, alloc, shared, pass, thread),
        Act::Undo(name) => undo(rt, alloc, shared, pass, name),
        Act::Rollback(name) => roll_back(rt, alloc, shared, pass, name),
        Act::Hold(name) => hold(rt, alloc, shared, pass, name),
    };
    match answer {
        Ok(receipt) => is_spelled(alloc, receipt, want),
        Err(refusal) => {
            let is_so = is_refused(&refusal, want);
            drop(refusal);
            is_so
        }
    }
}
