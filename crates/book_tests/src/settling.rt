//! What is settled can't be taken back, and all else is as it was.
use crate::acts::{
    Act, PASS, PUT, Row, TWO_BRANCHES, book_over, expect, expect_over, is_answered, listed,
    rerun_of, shown, world,
};
use json_tree::{Json, Text};
use rollback_book::{Book, Refusal};
use std::alloc::Global;
use std::process::Abort;
use std::test::Fail;
use step_names::ThreadName;

const SETTLED: &[Row] = &[
    (Act::Define("p", PASS), "ok"),
    (Act::Start("a", "p", "{}"), "ok"),
    (Act::Step("a"), "ok"),
    (Act::CanUndo("a#1"), "ok"),
    (Act::Settle, "ok"),
    (Act::CanUndo("a#1"), "settled"),
    (Act::Undo("a#1"), "settled"),
    (Act::Undo("a#0"), "settled"),
    (Act::Undo("a#2"), "no step"),
    (Act::UndoOrder(&["a#1"]), "settled"),
    (Act::UndoOrder(&["a#2"]), "no step"),
    (Act::LateRollback("a#1", "a#0"), "settled"),
    (Act::LateRollback("a#2", "a#0"), "no step"),
    (Act::Start("a", "p", "{}"), "taken"),
    (Act::Start("b", "p", "{}"), "ok"),
    (Act::Step("b"), "ok"),
    (Act::UndoOrder(&["b#1", "a#1"]), "settled"),
    (Act::Rerun(&["b#0", "b#1"]), "b#0 b#1 "),
    (Act::Rerun(&["a#0"]), "no step"),
    (Act::Undo("b#1"), "ok"),
    (Act::Undo("b#1"), "no step"),
    (Act::Undo("b#0"), "ok"),
    (Act::Start("b", "p", "{}"), "ok"),
    (Act::Settle, "ok"),
    (Act::Undo("a#0"), "settled"),
    (Act::Undo("b#0"), "settled"),
    (Act::Undo("b#1"), "no step"),
    (Act::Step("b"), "ok"),
    (Act::Undo("b#0"), "settled"),
    (Act::Undo("b#1"), "ok"),
];

#[test]
fn settled_steps_stay(rt: HostRuntime) -> Result<(), Fail> {
    expect_over(&rt, rt.alloc(), "[]", SETTLED)
}

/// A settlement of nothing is an entry, and another one too.
const NOTHING: &[Row] = &[
    (Act::Settle, "ok"),
    (Act::Settle, "ok"),
    (Act::Undo("a#0"), "no step"),
    (Act::Rerun(&[]), ""),
    (Act::Define("p", PASS), "ok"),
    (Act::Start("a", "p", "{}"), "ok"),
    (Act::Settle, "ok"),
    (Act::Settle, "ok"),
    (Act::Undo("a#0"), "settled"),
];

#[test]
fn nothing_is_settled(rt: HostRuntime) -> Result<(), Fail> {
    expect_over(&rt, rt.alloc(), "[]", NOTHING)
}

// ---- the world stays

fn is_as_before(alloc: Global, book: &mut Book) -> Result<bool, Fail> {
    let before = world(alloc, book)?;
    if !is_answered(alloc, book, Act::Settle, "ok")? {
        return Ok(false);
    }
    Ok(world(alloc, book)? == before && book.history().is_empty())
}

/// A fork is settled, and the branches run on: the undoing of the join gives them back.
fn joins_again(rt: &impl Abort, alloc: Global, book: &mut Book) -> Result<bool, Fail> {
    let first: &[Row] = &[
        (Act::Define("q", TWO_BRANCHES), "ok"),
        (Act::Start("e", "q", "{}"), "ok"),
        (Act::Step("e"), "ok"),
        (Act::Step("e/1.0"), "ok"),
    ];
    let then: &[Row] = &[
        (Act::Step("e/1.0"), "ok"),
        (Act::Step("e/1.1"), "ok"),
        (Act::Step("e/1.1"), "ok"),
        (Act::Undo("e#1"), "settled"),
        (Act::Undo("e/1.0#1"), "settled"),
    ];
    expect(rt, alloc, book, first)?;
    if !is_as_before(alloc, book)? {
        return Ok(false);
    }
    expect(rt, alloc, book, then)?;
    let parked = shown(alloc, book)?;
    expect(rt, alloc, book, &[(Act::Step("e"), "ok")])?;
    if shown(alloc, book)? == parked {
        return Ok(false);
    }
    expect(rt, alloc, book, &[(Act::Undo("e#2"), "ok")])?;
    Ok(shown(alloc, book)? == parked)
}

#[test]
fn settled_between_fork_and_join(rt: HostRuntime) -> Result<(), Fail> {
    let mut book = book_over(rt.alloc(), "[]")?;
    let joined = joins_again(&rt, rt.alloc(), &mut book);
    drop(book);
    assert!(rt; joined?);
    Ok(())
}

// ---- reruns begin from what was settled

const PUT_AND_SETTLED: &[Row] = &[
    (Act::Define("w", PUT), "ok"),
    (Act::Start("a", "w", r#"{"v":"1"}"#), "ok"),
    (Act::Start("b", "w", r#"{"v":"2"}"#), "ok"),
    (Act::Step("a"), "ok"),
    (Act::Step("b"), "ok"),
    (Act::UndoOrder(&["b#1", "a#1"]), "ok"),
    (Act::Step("b"), "ok"),
    (Act::LateRollback("b#1", "b#0"), "ok"),
    (Act::Step("b"), "ok"),
    (Act::Settle, "ok"),
    (Act::Define("p", PASS), "ok"),
    (Act::Start("c", "p", "{}"), "ok"),
    (Act::Step("a"), "ok"),
    (Act::Rerun(&[]), r#"{"id":{"S":"k"},"v":{"S":"2"}}"#),
    (
        Act::Rerun(&["a#1", "c#0"]),
        r#"a#1 c#0 {"id":{"S":"k"},"v":{"S":"1"}}"#,
    ),
    (Act::Rerun(&["c#0", "b#1"]), "no step"),
];

/// The rerun has the log up to the settlement, the definition after it, and an entry for each step.
fn is_replayed(alloc: Global, book: &Book, again: &Book) -> Result<bool, Fail> {
    let (_begin, log) = book.entries();
    let (_again, replayed) = again.entries();
    Ok(
        log.len() == 14
            && replayed.len() == 14
            && log[..12] == replayed[..12]
            && listed(alloc, again)?.as_str() == r#"c#0 a#1 {"id":{"S":"k"},"v":{"S":"1"}}"#
            && world(alloc, again)? == world(alloc, book)?,
    )
}

fn reruns_from_there(rt: &impl Abort, alloc: Global, book: &mut Book) -> Result<bool, Fail> {
    expect(rt, alloc, book, PUT_AND_SETTLED)?;
    match rerun_of(alloc, book, &["c#0", "a#1"]) {
        Ok(again) => {
            let is_replayed = is_replayed(alloc, book, &again);
            drop(again);
            is_replayed
        }
        Err(refusal) => Err(refusal.into()),
    }
}

#[test]
fn reruns_begin_from_what_was_settled(rt: HostRuntime) -> Result<(), Fail> {
    let mut book = book_over(rt.alloc(), "[]")?;
    let replayed = reruns_from_there(&rt, rt.alloc(), &mut book);
    drop(book);
    assert!(rt; replayed?);
    Ok(())
}

// ---- many at once

/// Whether so many executions are started.
fn starts_all(alloc: Global, book: &mut Book, letter: &str, count: u32) -> Result<bool, Fail> {
    let machine = Text::new(alloc, "p")?;
    for number in 0..count {
        let name = format!(in alloc; "{letter}{number}")?;
        let exec = ThreadName::read(alloc, name.as_str())?;
        if !starts(alloc, book, &exec, &machine)? {
            return Ok(false);
        }
    }
    Ok(true)
}

fn starts(
    alloc: Global,
    book: &mut Book,
    exec: &ThreadName,
    machine: &Text,
) -> Result<bool, Refusal> {
    if !exec.is_execution() {
        return Ok(false);
    }
    match book.start(alloc, exec, machine, Json::Null) {
        Ok(name) => {
            drop(name);
            Ok(true)
        }
        Err(Refusal::Full) => Ok(false),
        Err(refusal) => Err(refusal),
    }
}

fn starts_more(rt: &impl Abort, alloc: Global, book: &mut Book) -> Result<bool, Fail> {
    expect(rt, alloc, book, &[(Act::Define("p", PASS), "ok")])?;
    if !starts_all(alloc, book, "x", 300)? {
        return Ok(false);
    }
    Ok(
        is_answered(alloc, book, Act::Settle, "ok")?
            && starts_all(alloc, book, "y", 1)?
            && is_answered(alloc, book, Act::Undo("x299#0"), "settled")?
            && is_answered(alloc, book, Act::Undo("y0#0"), "ok")?
            && is_answered(alloc, book, Act::Undo("y0#0"), "no step")?,
    )
}

#[test]
fn settled_books_have_room(rt: HostRuntime) -> Result<(), Fail> {
    let mut book = book_over(rt.alloc(), "[]")?;
    let started = starts_more(&rt, rt.alloc(), &mut book);
    drop(book);
    assert!(rt; started?);
    Ok(())
}
