//! Turns that are prepared apart from the book: taken where nothing changed that they were prepared of, and else handed back with
//! the reason.
use crate::acts::{Act, Row, TWO_BRANCHES, book_over, expect};
use asl_forward::{Phase, Prepared, prepare};
use rollback_book::{Book, CommitRefusal, Kind, Moved, Readiness, Staleness, Ticket};
use std::alloc::Global;
use std::process::Abort;
use std::test::Fail;
use step_names::{StepName, ThreadName};

const PASS: &str = r#"{"StartAt":"P","States":{"P":{"Type":"Pass","Result":7,"End":true}}}"#;

/// Its frames are those of `PASS`.
const OTHER_PASS: &str = r#"{"StartAt":"P","States":{"P":{"Type":"Pass","Result":8,"End":true}}}"#;

const TWO_PASSES: &str =
    r#"{"StartAt":"P","States":{"P":{"Type":"Pass","Next":"Q"},"Q":{"Type":"Pass","End":true}}}"#;

const PUT: &str =
    r#"{"StartAt":"W","States":{"W":{"Type":"Task","Resource":"arn:aws:states:::dynamodb:putItem","Parameters":{"TableName":"items","Item":{"id":{"S":"k"}}},"End":true}}}"#;

// ---- tickets

fn thread(alloc: Global) -> Result<ThreadName, Fail> {
    Ok(ThreadName::read(alloc, "a")?)
}

fn prepare_by(alloc: Global, ticket: &Ticket) -> Result<Prepared, Fail> {
    let frame = ticket.frame();
    match &frame.phase {
        Phase::Ready => Ok(prepare(alloc, ticket.machine(), frame)?),
        _ => Err("a thread that isn't ready".into()),
    }
}

/// The turn of thread a.
fn prepared(alloc: Global, book: &Book) -> Result<Prepared, Fail> {
    let thread = thread(alloc)?;
    let ticket = book.ticket(&thread)?;
    prepare_by(alloc, &ticket)
}

// ---- commits

fn kind_name(kind: Kind) -> &'static str {
    match kind {
        Kind::Start => "start",
        Kind::Plain => "plain",
        Kind::Call => "call",
        Kind::Fork => "fork",
        Kind::Join => "join",
        Kind::Terminate => "terminate",
    }
}

fn is_moved(alloc: Global, moved: &Moved, want: &str) -> Result<bool, Fail> {
    let name = moved.name.write_text(alloc)?;
    let kind = kind_name(moved.kind);
    Ok(format!(in alloc; "{name} {kind}")?.as_str() == want)
}

fn is_stale(why: &Staleness, want: &str) -> bool {
    match why {
        Staleness::Gone => want == "gone",
        Staleness::NotReady(Readiness::Done) => want == "done",
        Staleness::NotReady(Readiness::Waiting) => want == "waiting",
        Staleness::NotReady(_) => want == "not ready",
        Staleness::Moved(1) => want == "moved 1",
        Staleness::Moved(_) => want == "moved",
        Staleness::Other => want == "other",
    }
}

fn is_held(alloc: Global, step: &StepName, want: &str) -> Result<bool, Fail> {
    let name = step.write_text(alloc)?;
    Ok(format!(in alloc; "held {name}")?.as_str() == want)
}

/// Whether it is answered so, with the turn where it is handed back.
fn commit(
    alloc: Global,
    book: &mut Book,
    prepared: Prepared,
    want: &str,
) -> Result<(bool, Option<Prepared>), Fail> {
    let thread = match thread(alloc) {
        Ok(thread) => thread,
        Err(fail) => {
            drop(prepared);
            return Err(fail);
        }
    };
    match book.commit(alloc, &thread, prepared) {
        Ok(moved) => Ok((is_moved(alloc, &moved, want)?, None)),
        Err(CommitRefusal::Stale(why, prepared)) => Ok((is_stale(&why, want), Some(prepared))),
        Err(CommitRefusal::Held(step, prepared)) => Ok((
            is_held(alloc, &step, want)?,
            Some(prepared),
        )),
        Err(CommitRefusal::Refused(refusal)) => Err(refusal.into()),
    }
}

/// The same after some rows.
fn commit_after(
    rt: &impl Abort,
    alloc: Global,
    book: &mut Book,
    rows: &[Row],
    prepared: Prepared,
    want: &str,
) -> Result<(bool, Option<Prepared>), Fail> {
    match expect(rt, alloc, book, rows) {
        Ok(()) => commit(alloc, book, prepared, want),
        Err(fail) => {
            drop(prepared);
            Err(fail)
        }
    }
}

// ---- what changes between a ticket and its commit

struct Case {
    machine: &'static str,
    between: &'static [Row],
    want: &'static str,
}

const CASES: &[Case] = &[
    Case {
        machine: PASS,
        between: &[],
        want: "a#1 plain",
    },
    Case {
        machine: PUT,
        between: &[],
        want: "a#1 call",
    },
    Case {
        machine: TWO_BRANCHES,
        between: &[],
        want: "a#1 fork",
    },
    // what other threads do is no change
    Case {
        machine: PUT,
        between: &[(Act::Start("b", "p", "{}"), "ok"), (Act::Step("b"), "ok")],
        want: "a#1 call",
    },
    // nor is a step that was taken and undone
    Case {
        machine: PASS,
        between: &[(Act::Step("a"), "ok"), (Act::Undo("a#1"), "ok")],
        want: "a#1 plain",
    },
    Case {
        machine: PASS,
        between: &[(Act::Undo("a#0"), "ok")],
        want: "gone",
    },
    Case {
        machine: PASS,
        between: &[(Act::Step("a"), "ok")],
        want: "done",
    },
    Case {
        machine: TWO_BRANCHES,
        between: &[(Act::Step("a"), "ok")],
        want: "waiting",
    },
    Case {
        machine: TWO_PASSES,
        between: &[(Act::Step("a"), "ok")],
        want: "moved 1",
    },
    Case {
        machine: PASS,
        between: &[(Act::Undo("a#0"), "ok"), (Act::Start("a", "p", "1"), "ok")],
        want: "other",
    },
    // it would depend on what is left of a hold; that it is stale is told before
    Case {
        machine: PASS,
        between: &[(Act::Hold("a#0"), "ok")],
        want: "held a#0",
    },
    Case {
        machine: PASS,
        between: &[(Act::Step("a"), "ok"), (Act::Hold("a#0"), "ok")],
        want: "done",
    },
    // a hold of others keeps nothing back
    Case {
        machine: PUT,
        between: &[(Act::Start("b", "p", "{}"), "ok"), (Act::Hold("b#0"), "ok")],
        want: "a#1 call",
    },
];

fn begin(
    rt: &impl Abort,
    alloc: Global,
    book: &mut Book,
    machine: &'static str,
) -> Result<Prepared, Fail> {
    let rows: &[Row] = &[
        (Act::Define("p", machine), "ok"),
        (Act::Start("a", "p", "{}"), "ok"),
    ];
    expect(rt, alloc, book, rows)?;
    prepared(alloc, book)
}

fn answers(rt: &impl Abort, alloc: Global, book: &mut Book, case: &Case) -> Result<bool, Fail> {
    let prepared = begin(rt, alloc, book, case.machine)?;
    let (is_so, back) = commit_after(rt, alloc, book, case.between, prepared, case.want)?;
    drop(back);
    Ok(is_so)
}

#[test]
fn stale_commits(rt: HostRuntime) -> Result<(), Fail> {
    for (i, case) in CASES.iter().enumerate() {
        let mut book = book_over(rt.alloc(), "[]")?;
        let is_so = answers(&rt, rt.alloc(), &mut book, case);
        drop(book);
        assert!(rt; is_so?, "case {i}");
    }
    Ok(())
}

// ---- a turn that is handed back

fn commits_again(rt: &impl Abort, alloc: Global, book: &mut Book) -> Result<bool, Fail> {
    let prepared = begin(rt, alloc, book, PASS)?;
    let undone: &[Row] = &[(Act::Undo("a#0"), "ok")];
    let (is_gone, back) = commit_after(rt, alloc, book, undone, prepared, "gone")?;
    let Some(prepared) = back else {
        return Ok(false);
    };
    let started: &[Row] = &[(Act::Start("a", "p", "{}"), "ok")];
    let (is_taken, back) = commit_after(rt, alloc, book, started, prepared, "a#1 plain")?;
    drop(back);
    Ok(is_gone && is_taken)
}

#[test]
fn handed_back_and_taken(rt: HostRuntime) -> Result<(), Fail> {
    let mut book = book_over(rt.alloc(), "[]")?;
    let is_so = commits_again(&rt, rt.alloc(), &mut book);
    drop(book);
    assert!(rt; is_so?);
    Ok(())
}

/// The turn that a hold kept back is taken once the hold is over.
fn commits_after_a_hold(rt: &impl Abort, alloc: Global, book: &mut Book) -> Result<bool, Fail> {
    let prepared = begin(rt, alloc, book, TWO_PASSES)?;
    let (is_first, back) = commit_after(rt, alloc, book, &[], prepared, "a#1 plain")?;
    drop(back);
    let prepared = self::prepared(alloc, book)?;
    let held: &[Row] = &[(Act::Hold("a#1"), "ok")];
    let (is_held, back) = commit_after(rt, alloc, book, held, prepared, "held a#1")?;
    let Some(prepared) = back else {
        return Ok(false);
    };
    let over: &[Row] = &[(Act::Undo("a#1"), "ok"), (Act::Step("a"), "ok")];
    let (is_taken, back) = commit_after(rt, alloc, book, over, prepared, "a#2 plain")?;
    drop(back);
    Ok(is_first && is_held && is_taken)
}

#[test]
fn held_back_and_taken(rt: HostRuntime) -> Result<(), Fail> {
    let mut book = book_over(rt.alloc(), "[]")?;
    let is_so = commits_after_a_hold(&rt, rt.alloc(), &mut book);
    drop(book);
    assert!(rt; is_so?);
    Ok(())
}

// ---- an equal frame of another book's machine

/// Whether a turn of the second book is refused by the first, where the machine of that name is another.
fn refuses_the_machine(
    rt: &impl Abort,
    alloc: Global,
    book: &mut Book,
    other: &mut Book,
) -> Result<bool, Fail> {
    drop(begin(rt, alloc, book, PASS)?);
    let prepared = begin(rt, alloc, other, OTHER_PASS)?;
    let (is_so, back) = commit(alloc, book, prepared, "other")?;
    drop(back);
    Ok(is_so)
}

#[test]
fn machines_are_compared(rt: HostRuntime) -> Result<(), Fail> {
    let mut book = book_over(rt.alloc(), "[]")?;
    let mut other = book_over(rt.alloc(), "[]")?;
    let is_so = refuses_the_machine(&rt, rt.alloc(), &mut book, &mut other);
    drop(book);
    drop(other);
    assert!(rt; is_so?);
    Ok(())
}

// ---- what workers keep

fn copies(book: &Book) -> Result<bool, Fail> {
    let (_, entries) = book.entries();
    for entry in entries {
        let copy = entry.copy()?;
        if copy != *entry {
            return Ok(false);
        }
    }
    for entry in entries.iter().skip(1) {
        if *entry == entries[0] {
            return Ok(false);
        }
    }
    Ok(true)
}

fn frame_copies(alloc: Global, book: &Book) -> Result<bool, Fail> {
    let thread = thread(alloc)?;
    let frame = book.show(&thread)?;
    let copy = frame.copy()?;
    Ok(copy == *frame)
}

fn has_equal_copies(rt: &impl Abort, alloc: Global, book: &mut Book) -> Result<bool, Fail> {
    let rows: &[Row] = &[
        (Act::Define("p", PASS), "ok"),
        (Act::Start("a", "p", "{}"), "ok"),
        (Act::Step("a"), "ok"),
        (Act::Undo("a#1"), "ok"),
        (Act::Step("a"), "ok"),
    ];
    expect(rt, alloc, book, rows)?;
    Ok(copies(book)? && frame_copies(alloc, book)?)
}

#[test]
fn copies_are_equal(rt: HostRuntime) -> Result<(), Fail> {
    let mut book = book_over(rt.alloc(), "[]")?;
    let is_so = has_equal_copies(&rt, rt.alloc(), &mut book);
    drop(book);
    assert!(rt; is_so?);
    Ok(())
}
