//! Turns that are prepared of tickets: taken where nothing changed that they were prepared of, and else handed back with the reason.
ghost use Rattle.std.specs.Prelude.{◌≡◌};

use crate::calls::{Act, PASS, Seats, begin, book_with, is_spelled, is_told, seats_of};
use asl_forward::{Phase, Prepared, prepare};
use rollback_book::{Book, Readiness, Staleness, Ticket};
use shared_book::{Offer, PARTS, SharedCommitRefusal, Sharing};
use std::alloc::Global;
use std::marker::Brand;
use std::sync::Wait;
use std::sync::ledger::Blank;
use std::test::Fail;
use step_names::ThreadName;

/// Its frames are those of `PASS`.
const OTHER_PASS: &str = r#"{"StartAt":"P","States":{"P":{"Type":"Pass","Result":8,"End":true}}}"#;

const TWO_PASSES: &str =
    r#"{"StartAt":"P","States":{"P":{"Type":"Pass","Next":"Q"},"Q":{"Type":"Pass","End":true}}}"#;

// ---- turns

fn prepare_by(alloc: Global, ticket: &Ticket) -> Result<Prepared, Fail> {
    let frame = ticket.frame();
    match &frame.phase {
        Phase::Ready => Ok(prepare(alloc, ticket.machine(), frame)?),
        _ => Err("a thread that isn't ready".into()),
    }
}

fn is_stale(why: &Staleness, want: &str) -> bool {
    match why {
        Staleness::Gone => want == "gone",
        Staleness::NotReady(Readiness::Done) => want == "done",
        Staleness::NotReady(_) => want == "not ready",
        Staleness::Moved(1) => want == "moved 1",
        Staleness::Moved(_) => want == "moved",
        Staleness::Other => want == "other",
    }
}

/// Whether the first pass is answered so.
fn is_committed<L: Sharing>(
    rt: &impl Wait,
    alloc: Global,
    seats: &mut Seats<L>,
    ticket: Ticket,
    prepared: Prepared,
    want: &str,
) -> Result<bool, Fail> {
    match seats
        .shared
        .commit(rt, alloc, &mut seats.first, ticket, prepared)
    {
        Ok(receipt) => is_spelled(alloc, receipt, want),
        Err(SharedCommitRefusal::Stale(why, prepared)) => {
            drop(prepared);
            Ok(is_stale(&why, want))
        }
        Err(SharedCommitRefusal::Held(step, prepared)) => {
            drop(step);
            drop(prepared);
            Ok(want == "held")
        }
        Err(SharedCommitRefusal::Refused(refusal)) => Err(refusal.into()),
    }
}

// ---- offers

/// What the second pass is offered: a ticket, which is given back; how many claims are out; or nothing.
fn offered<L: Sharing>(
    rt: &impl Wait,
    alloc: Global,
    seats: &mut Seats<L>,
) -> Result<&'static str, Fail> {
    match seats.shared.offer(rt, alloc, &mut seats.second)? {
        Offer::Ticket(ticket) => {
            seats.shared.give_back(rt, ticket);
            Ok("ticket")
        }
        Offer::Busy(1) => Ok("busy 1"),
        Offer::Busy(_) => Ok("busy"),
        Offer::Idle => Ok("idle"),
    }
}

fn claimed<L: Sharing>(
    rt: &impl Wait,
    alloc: Global,
    seats: &mut Seats<L>,
) -> Result<Ticket, Fail> {
    match seats.shared.claim(rt, alloc, &mut seats.first)? {
        Some(ticket) => Ok(ticket),
        None => Err("nothing to claim".into()),
    }
}

// ---- what changes between a ticket and its commit

#[derive(Clone, Copy)]
struct Case {
    machine: &'static str,
    between: &'static [(Act, &'static str)],
    want: &'static str,
    /// What is offered afterwards.
    then: &'static str,
}

const CASES: &[Case] = &[
    Case {
        machine: PASS,
        between: &[],
        want: "3 step a#1",
        then: "idle",
    },
    Case {
        machine: TWO_PASSES,
        between: &[],
        want: "3 step a#1",
        then: "ticket",
    },
    // what other threads do is no change
    Case {
        machine: PASS,
        between: &[
            (Act::Start("b", "{}"), "3 start b"),
            (Act::Step("b"), "4 step b#1"),
        ],
        want: "5 step a#1",
        then: "idle",
    },
    Case {
        machine: PASS,
        between: &[(Act::Undo("a#0"), "3 undo a#0")],
        want: "gone",
        then: "idle",
    },
    Case {
        machine: PASS,
        between: &[(Act::Step("a"), "3 step a#1")],
        want: "done",
        then: "idle",
    },
    Case {
        machine: TWO_PASSES,
        between: &[(Act::Step("a"), "3 step a#1")],
        want: "moved 1",
        then: "ticket",
    },
    Case {
        machine: PASS,
        between: &[
            (Act::Rollback("a#0"), "3 rollback a#0 of 1"),
            (Act::Start("a", "1"), "4 start a"),
        ],
        want: "other",
        then: "ticket",
    },
    // a thread whose move a hold keeps back is passed by
    Case {
        machine: PASS,
        between: &[(Act::Hold("a#0"), "3 hold a#0 of 1")],
        want: "held",
        then: "idle",
    },
    Case {
        machine: PASS,
        between: &[
            (Act::Hold("a#0"), "3 hold a#0 of 1"),
            (Act::Start("b", "{}"), "4 start b"),
            (Act::Hold("b#0"), "held"),
        ],
        want: "held",
        then: "ticket",
    },
];

/// Whether the second pass is answered so.
fn goes_on<L: Sharing>(
    rt: &impl Wait,
    alloc: Global,
    seats: &mut Seats<L>,
    rows: &[(Act, &str)],
) -> Result<bool, Fail> {
    for &(act, want) in rows {
        if !is_told(rt, alloc, &seats.shared, &mut seats.second, act, want)? {
            return Ok(false);
        }
    }
    Ok(true)
}

/// A turn of the ticket, where the second pass was offered this and went on so.
fn prepared_before<L: Sharing>(
    rt: &impl Wait,
    alloc: Global,
    seats: &mut Seats<L>,
    ticket: &Ticket,
    case: Case,
) -> Result<Prepared, Fail> {
    if offered(rt, alloc, seats)? != "busy 1" {
        return Err("a thread is offered twice".into());
    }
    if !goes_on(rt, alloc, seats, case.between)? {
        return Err("an odd answer to the second pass".into());
    }
    prepare_by(alloc, ticket)
}

fn answers<L: Sharing>(
    rt: &impl Wait,
    alloc: Global,
    seats: &mut Seats<L>,
    case: Case,
) -> Result<bool, Fail> {
    let start = Act::Start("a", "{}");
    let is_started = is_told(
        rt,
        alloc,
        &seats.shared,
        &mut seats.first,
        start,
        "2 start a",
    )?;
    let ticket = claimed(rt, alloc, seats)?;
    let prepared = match prepared_before(rt, alloc, seats, &ticket, case) {
        Ok(prepared) => prepared,
        Err(fail) => {
            drop(ticket);
            return Err(fail);
        }
    };
    let is_answered = is_committed(rt, alloc, seats, ticket, prepared, case.want)?;
    let then = offered(rt, alloc, seats)?;
    Ok(is_started && is_answered && then == case.then)
}

fn case_in<L: Sharing, R: Wait>(
    rt: &R,
    alloc: Global,
    blank: Blank,
    book: Book,
    case: Case,
) -> Result<bool, Fail>
    requires { (blank.name ≡ L.name) × (blank.parts ≡ L.parts) × (L.parts ≡ PARTS) × (book.log ≡ L.begun) }
{
    let mut seats = seats_of::<L>(alloc, blank, book);
    let is_so = answers(rt, alloc, &mut seats, case);
    drop(seats);
    is_so
}

fn is_so<R: Wait>(rt: &R, alloc: Global, case: Case) -> Result<bool, Fail> {
    let book = book_with(alloc, case.machine)?;
    case_in::<Brand, R>(rt, alloc, Blank::new(PARTS), book, case)
}

#[test]
fn stale_turns(rt: HostRuntime) -> Result<(), Fail> {
    for (i, &case) in CASES.iter().enumerate() {
        assert!(rt; is_so(&rt, rt.alloc(), case)?, "case {i}");
    }
    Ok(())
}

// ---- an equal frame of another book's machine

fn turn_of(alloc: Global, book: &Book) -> Result<Prepared, Fail> {
    let thread = ThreadName::read(alloc, "a")?;
    let ticket = book.ticket(&thread)?;
    prepare_by(alloc, &ticket)
}

/// A turn of thread a in another book, whose machine p is another.
fn other_turn(alloc: Global) -> Result<Prepared, Fail> {
    let mut book = book_with(alloc, OTHER_PASS)?;
    let turn = match begin(alloc, &mut book) {
        Ok(()) => turn_of(alloc, &book),
        Err(fail) => Err(fail),
    };
    drop(book);
    turn
}

fn refuses<L: Sharing>(rt: &impl Wait, alloc: Global, seats: &mut Seats<L>) -> Result<bool, Fail> {
    let start = Act::Start("a", "{}");
    let is_started = is_told(
        rt,
        alloc,
        &seats.shared,
        &mut seats.first,
        start,
        "2 start a",
    )?;
    let turn = other_turn(alloc)?;
    let ticket = match claimed(rt, alloc, seats) {
        Ok(ticket) => ticket,
        Err(fail) => {
            drop(turn);
            return Err(fail);
        }
    };
    Ok(is_committed(rt, alloc, seats, ticket, turn, "other")? && is_started)
}

fn refuses_the_machine<L: Sharing, R: Wait>(
    rt: &R,
    alloc: Global,
    blank: Blank,
    book: Book,
) -> Result<bool, Fail>
    requires { (blank.name ≡ L.name) × (blank.parts ≡ L.parts) × (L.parts ≡ PARTS) × (book.log ≡ L.begun) }
{
    let mut seats = seats_of::<L>(alloc, blank, book);
    let is_so = refuses(rt, alloc, &mut seats);
    drop(seats);
    is_so
}

#[test]
fn turns_of_another_machine(rt: HostRuntime) -> Result<(), Fail> {
    let book = book_with(rt.alloc(), PASS)?;
    let is_so = refuses_the_machine::<Brand, _>(&rt, rt.alloc(), Blank::new(PARTS), book);
    assert!(rt; is_so?);
    Ok(())
}
