//! Receipts of two passes, of which another thread has one, and what a close makes of them.
ghost use Rattle.std.specs.Prelude.{◌≡◌};

use crate::beside::{Undone, undo_beside};
use crate::calls::{Act, PASS, Seats, book_with, is_told, seats_of};
use rollback_book::Book;
use rollback_book::turns::{Frame, Phase};
use shared_book::{CloseFault, CloseRefusal, PARTS, Pass, Shared, Sharing, close, known};
use std::alloc::{AllocError, Global};
use std::marker::Brand;
use std::sync::Wait;
use std::sync::ledger::Blank;
use std::test::Fail;
use std::thread::Threads;
use step_names::ThreadName;

// ---- what a close tells

fn missing(reason: CloseFault) -> Result<usize, Fail> {
    match reason {
        CloseFault::Missing { number } => Ok(number),
        CloseFault::ForeignPass { .. } => Err("a foreign pass".into()),
        CloseFault::Memory => Err(AllocError.into()),
    }
}

/// The book can't be closed by the first pass alone, where an entry of this number lacks a receipt, and then it is closed by both
/// passes. How many entries it has.
fn close_twice<L: Sharing>(alloc: Global, seats: Seats<L>) -> Result<(usize, usize), Fail> {
    let Seats {
        shared,
        first,
        second,
    } = seats;
    let mut passes = Vec::new(alloc);
    if passes.push(first).is_err() {
        return Err(AllocError.into());
    }
    let (reason, shared, passes) = match close(alloc, shared, passes) {
        Ok(book) => {
            drop(book);
            return Err("a pass was lost, and the book is closed".into());
        }
        Err(
            CloseRefusal {
                reason,
                shared,
                passes,
            },
        ) => (reason, shared, passes),
    };
    let mut passes = passes;
    if passes.push(second).is_err() {
        return Err(AllocError.into());
    }
    let number = missing(reason)?;
    match close(alloc, shared, passes) {
        Ok(book) => {
            let entries = entries_of(&book);
            drop(book);
            Ok((number, entries))
        }
        Err(refusal) => {
            let number = missing(refusal.reason)?;
            Ok((number, 0))
        }
    }
}

fn entries_of(book: &Book) -> usize {
    book.entries().1.len()
}

// ---- a start that one thread sees and the other takes back

fn is_seen<L: Sharing>(
    rt: &impl Wait,
    alloc: Global,
    seats: &mut Seats<L>,
    entries: usize,
) -> Result<bool, Fail> {
    let thread = ThreadName::read(alloc, "a")?;
    let shown = seats.shared.show(rt, &mut seats.first, &thread)?;
    let is_so = is_unmoved(&shown.frame) && shown.entries == entries;
    drop(shown);
    Ok(is_so && seats.first.seen() == entries)
}

fn is_unmoved(frame: &Frame) -> bool {
    frame.count == 0 && matches!(&frame.phase, Phase::Ready)
}

/// A log without entries can't be the one of which the pass has this receipt, or has seen so many entries.
fn is_foreign<L: Sharing>(pass: &Pass<L>) -> bool {
    let Some(receipt) = pass.receipts().last() else {
        return false;
    };
    let by_receipt = match known(&[], 0, Some(receipt)) {
        Ok(()) => false,
        Err(foreign) => foreign.number == receipt.number && foreign.there.is_none(),
    };
    let by_seen = match known(&[], pass.seen(), None) {
        Ok(()) => false,
        Err(foreign) => foreign.number == pass.seen() && foreign.there.is_none(),
    };
    by_receipt && by_seen
}

fn start_first<L: Sharing>(
    rt: &impl Wait,
    alloc: Global,
    seats: &mut Seats<L>,
) -> Result<bool, Fail> {
    let start = Act::Start("a", "{}");
    let is_started = is_told(
        rt,
        alloc,
        &seats.shared,
        &mut seats.first,
        start,
        "2 start a",
    )?;
    Ok(is_started && is_seen(rt, alloc, seats, 2)? && is_foreign(&seats.first))
}

/// Closes the book by both passes, if the other thread has undone the start.
fn close_undone<L: Sharing>(
    alloc: Global,
    shared: Shared<Book, L>,
    first: Pass<L>,
    undone: Undone<L>,
) -> Result<(usize, usize), Fail> {
    let Undone { pass, is_undone } = undone;
    let seats = Seats {
        shared,
        first,
        second: pass,
    };
    if !is_undone {
        drop(seats);
        return Ok((0, 0));
    }
    close_twice(alloc, seats)
}

fn one_of_each<L: Sharing + Send + Sync, R: Threads + Wait + Sync>(
    rt: &R,
    alloc: Global,
    blank: Blank,
    book: Book,
) -> Result<(usize, usize), Fail>
    requires { (blank.name ≡ L.name) × (blank.parts ≡ L.parts) × (L.parts ≡ PARTS) × (book.log ≡ L.begun) }
{
    let mut seats = seats_of::<L>(alloc, blank, book);
    match start_first(rt, alloc, &mut seats) {
        Ok(true) => {}
        Ok(false) => {
            drop(seats);
            return Ok((0, 0));
        }
        Err(fail) => {
            drop(seats);
            return Err(fail);
        }
    }
    let Seats {
        shared,
        first,
        second,
    } = seats;
    let undone = undo_beside(rt, alloc, &shared, second);
    close_undone(alloc, shared, first, undone)
}

#[test]
fn receipts(rt: HostRuntime) -> Result<(), Fail> {
    let book = book_with(rt.alloc(), PASS)?;
    let told = one_of_each::<Brand, _>(&rt, rt.alloc(), Blank::new(PARTS), book)?;
    assert_eq!(rt; told, (3, 3));
    Ok(())
}

// ---- calls by turns

/// Whether the first pass calls it, what is called, and what is answered.
const ROWS: &[(bool, Act, &str)] = &[
    (true, Act::Start("a", "{}"), "2 start a"),
    (false, Act::Start("b", "{}"), "3 start b"),
    (false, Act::Step("a"), "4 step a#1"),
    (true, Act::Step("a"), "not ready"),
    (true, Act::Undo("a#0"), "has dependents"),
    (true, Act::Step("b"), "5 step b#1"),
    (false, Act::Undo("b#1"), "6 undo b#1"),
    (true, Act::Rollback("a#0"), "7 rollback a#0 of 2"),
    (false, Act::Step("a"), "no thread"),
    (true, Act::Undo("a#1"), "no step"),
];

/// The first row that is answered otherwise.
fn odd_row<L: Sharing>(
    rt: &impl Wait,
    alloc: Global,
    seats: &mut Seats<L>,
) -> Result<Option<usize>, Fail> {
    for (i, &(is_first, act, want)) in ROWS.iter().enumerate() {
        let is_so = if is_first {
            is_told(rt, alloc, &seats.shared, &mut seats.first, act, want)?
        } else {
            is_told(rt, alloc, &seats.shared, &mut seats.second, act, want)?
        };
        if !is_so {
            return Ok(Some(i));
        }
    }
    Ok(None)
}

fn all_rows<L: Sharing, R: Wait>(
    rt: &R,
    alloc: Global,
    blank: Blank,
    book: Book,
) -> Result<(Option<usize>, usize, usize), Fail>
    requires { (blank.name ≡ L.name) × (blank.parts ≡ L.parts) × (L.parts ≡ PARTS) × (book.log ≡ L.begun) }
{
    let mut seats = seats_of::<L>(alloc, blank, book);
    let odd = match odd_row(rt, alloc, &mut seats) {
        Ok(odd) => odd,
        Err(fail) => {
            drop(seats);
            return Err(fail);
        }
    };
    let (number, entries) = close_twice(alloc, seats)?;
    Ok((odd, number, entries))
}

#[test]
fn calls_of_two_passes(rt: HostRuntime) -> Result<(), Fail> {
    let book = book_with(rt.alloc(), PASS)?;
    let told = all_rows::<Brand, _>(&rt, rt.alloc(), Blank::new(PARTS), book)?;
    assert_eq!(rt; told, (None, 3, 7));
    Ok(())
}
