//! Orders in which steps are undone, and linearizations in which they are taken again.
use crate::acts::{
    Act, Row, TWO_BRANCHES, book_over, expect, is_answered, listed, rerun_of, shown, world,
};
use rollback_book::Book;
use std::alloc::Global;
use std::process::Abort;
use std::test::Fail;

const FORK_AND_BRANCHES: &[Row] = &[
    (Act::Define("q", TWO_BRANCHES), "ok"),
    (Act::Start("e", "q", "{}"), "ok"),
    (Act::Step("e"), "ok"),
    (Act::Step("e/1.0"), "ok"),
    (Act::Step("e/1.0"), "ok"),
    (Act::Step("e/1.1"), "ok"),
    (Act::Step("e/1.1"), "ok"),
];

/// Those in which each step is free at its turn.
const ALLOWED: &[&[&str]] = &[
    &["e/1.0#2", "e/1.0#1", "e/1.1#2", "e/1.1#1", "e#1"],
    &["e/1.0#2", "e/1.1#2", "e/1.0#1", "e/1.1#1", "e#1"],
    &["e/1.0#2", "e/1.1#2", "e/1.1#1", "e/1.0#1", "e#1"],
    &["e/1.1#2", "e/1.0#2", "e/1.0#1", "e/1.1#1", "e#1"],
    &["e/1.1#2", "e/1.0#2", "e/1.1#1", "e/1.0#1", "e#1"],
    &["e/1.1#2", "e/1.1#1", "e/1.0#2", "e/1.0#1", "e#1"],
];

/// Those that keep each step behind the ones on which it depends.
const ARRANGEMENTS: &[&[&str]] = &[
    &["e#0", "e#1", "e/1.0#1", "e/1.0#2", "e/1.1#1", "e/1.1#2"],
    &["e#0", "e#1", "e/1.0#1", "e/1.1#1", "e/1.0#2", "e/1.1#2"],
    &["e#0", "e#1", "e/1.0#1", "e/1.1#1", "e/1.1#2", "e/1.0#2"],
    &["e#0", "e#1", "e/1.1#1", "e/1.0#1", "e/1.0#2", "e/1.1#2"],
    &["e#0", "e#1", "e/1.1#1", "e/1.0#1", "e/1.1#2", "e/1.0#2"],
    &["e#0", "e#1", "e/1.1#1", "e/1.1#2", "e/1.0#1", "e/1.0#2"],
];

/// An order is undone whole or not at all.
const REFUSED_ORDERS: &[Row] = &[
    (Act::UndoOrder(&["e/1.0#1"]), "needed by e/1.0#2"),
    (Act::UndoOrder(&["e/1.0#2", "z#1"]), "no step"),
    (Act::UndoOrder(&["e/1.0#2", "e/1.0#2"]), "no step"),
    (Act::UndoOrder(&["e/1.0#2", "e#1"]), "needed by e/1.0#1"),
    (
        Act::UndoOrder(&["e/1.0#2", "e/1.0#1", "e#1", "z#1"]),
        "needed by e/1.1#1",
    ),
    (Act::UndoOrder(&[]), "ok"),
];

/// What the book shows when its execution has begun.
fn begin(rt: &impl Abort, alloc: Global, book: &mut Book) -> Result<String, Fail> {
    expect(rt, alloc, book, &FORK_AND_BRANCHES[..2])?;
    shown(alloc, book)
}

/// Whether a book in which this order was undone shows what it showed when its execution began.
fn undoes_in(
    rt: &impl Abort,
    alloc: Global,
    book: &mut Book,
    order: &'static [&'static str],
) -> Result<bool, Fail> {
    let begun = begin(rt, alloc, book)?;
    expect(rt, alloc, book, &FORK_AND_BRANCHES[2..])?;
    expect(rt, alloc, book, REFUSED_ORDERS)?;
    Ok(is_answered(alloc, book, Act::UndoOrder(order), "ok")? && shown(alloc, book)? == begun)
}

fn undoes(rt: &impl Abort, alloc: Global, order: &'static [&'static str]) -> Result<bool, Fail> {
    let mut book = book_over(alloc, "[]")?;
    let undone = undoes_in(rt, alloc, &mut book, order);
    drop(book);
    undone
}

#[test]
fn six_undo_orders(rt: HostRuntime) -> Result<(), Fail> {
    for order in ALLOWED {
        assert!(rt; undoes(&rt, rt.alloc(), order)?);
    }
    Ok(())
}

/// Whether these steps remain, in this order.
fn has_names(alloc: Global, book: &Book, names: &[&str]) -> Result<bool, Fail> {
    let mut wanted = String::new(alloc);
    for name in names {
        wanted.push_str(name)?;
        wanted.push(' ')?;
    }
    Ok(listed(alloc, book)? == wanted)
}

/// Whether a book has this linearization by seven entries, and the items and frames of the first.
fn is_arranged(alloc: Global, again: &Book, names: &[&str], world_of: &str) -> Result<bool, Fail> {
    let (_begin, log) = again.entries();
    Ok(
        log.len() == 7
            && has_names(alloc, again, names)?
            && world(alloc, again)?.as_str() == world_of,
    )
}

/// Whether a rerun of this linearization has it, and gives what the book has.
fn agrees(alloc: Global, book: &Book, names: &[&str], world_of: &str) -> Result<bool, Fail> {
    match rerun_of(alloc, book, names) {
        Ok(again) => {
            let is_arranged = is_arranged(alloc, &again, names, world_of);
            drop(again);
            is_arranged
        }
        Err(refusal) => Err(refusal.into()),
    }
}

fn all_agree(rt: &impl Abort, alloc: Global, book: &mut Book) -> Result<(), Fail> {
    expect(rt, alloc, book, FORK_AND_BRANCHES)?;
    let world = world(alloc, book)?;
    for names in ARRANGEMENTS {
        assert!(rt; agrees(alloc, book, names, world.as_str())?);
    }
    Ok(())
}

#[test]
fn six_linearizations(rt: HostRuntime) -> Result<(), Fail> {
    let mut book = book_over(rt.alloc(), "[]")?;
    let agreed = all_agree(&rt, rt.alloc(), &mut book);
    drop(book);
    agreed
}
