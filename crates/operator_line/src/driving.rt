// Steps that are taken one after another.
ghost use Rattle.std.specs.Prelude.{◌≡◌, ◌+◌, ◌<◌, ◌^◌, [], false, IfOk, IfErr, IfSome, IsSome, string_bytes, string_len, OnOk, OnErr};
ghost use Rattle.book_log.specs.Legal.{IsLegal};
ghost use Rattle.journaled_book.specs.Cursors.{IsUpTo, cursor_place};
ghost use Rattle.sqlite.specs.Held.{state};
ghost use Rattle.operator_line.specs.Answers.{AnswersDrive};
ghost use Rattle.operator_line.specs.Driving.{AddsThread, GrowsPassedBy, IsFirstMoving, IsFound, LooksAtAll, PassesBy, TakenOf, TakesOneOf, passed_in};
ghost use Rattle.operator_line.specs.Sessions.{WasClean, log_in};
ghost use Rattle.reply_lines.specs.Replying.{AreLines, has_room_for_lines};

use crate::open_session::refuse_change;
use book_log::{Entry, Refusal};
use command_lines::step_line;
use journaled_book::calls::{BookCalls, Change, Cursor};
use journaled_book::{EntryFault, JournaledBook};
use reply_lines::{Lines, Reply};
use sqlite::Alter;
use std::alloc::{AllocError, Global};
use std::collections::BTreeSet;
use step_names::{StepName, ThreadName};

/// What came of one turn.
#[derive(Clone, Copy)]
pub(crate) enum Tried {
    /// A step was taken.
    Taken,
    /// A step needs what is held, so its thread is passed by.
    PassedBy,
    /// Each thread that has a move is passed by.
    NoMove,
}

/// Takes at most so many steps, each of the least thread that has a move then, and writes the reply to them. A thread whose step
/// needs what is held is passed by. Room for the reply is made before each step, and each stands in the journal by a line of its
/// own. A step takes what the book's `first_ready_from` and `step` take: a thread that is passed by is gone by once, and once more
/// after each step of its own execution.
pub(crate) fn drive<B: BookCalls, S: Alter>(
    alloc: Global,
    book: &mut JournaledBook<B, S>,
    count: u32,
    reply: &mut Reply,
) -> Result<(), AllocError>
    requires open { IsSome book.old.book }
    requires empty { string_bytes reply.old.text ≡ [] }
    ensures ok { IfSome (log_in B.log book.old) (λ log. OnOk result (AnswersDrive log count (string_bytes reply.new.text) (log_in B.log book.new))) }
    ensures err { OnErr result (log_in B.log book.new ≡ log_in B.log book.old) }
    ensures clean { WasClean (λ held. state S.Store held) book.old.journal book.new.journal }
{
    let mut lines = Lines::new(alloc);
    reply.reserve_lines(&lines)?;
    match take_steps(alloc, book, count, &mut lines, reply) {
        Some(fault) if lines.count() == 0 => refuse_change(alloc, fault, reply),
        _ => reply.accept_lines(&lines),
    }
}

/// The fault is the one at which it ended, if any.
fn take_steps<B: BookCalls, S: Alter>(
    alloc: Global,
    book: &mut JournaledBook<B, S>,
    count: u32,
    lines: &mut Lines,
    reply: &mut Reply,
) -> Option<EntryFault>
    requires open { IsSome book.old.book }
    requires empty { AreLines lines.old [] }
    requires room { has_room_for_lines reply.old.text (string_len lines.old.text) }
    ensures taken { TakenOf count (log_in B.log book.old) (log_in B.log book.new) lines.new result }
    ensures text { string_bytes reply.new.text ≡ string_bytes reply.old.text }
    ensures room { has_room_for_lines reply.new.text (string_len lines.new.text) }
    ensures clean { WasClean (λ held. state S.Store held) book.old.journal book.new.journal }
{
    let mut passed = BTreeSet::new(alloc);
    let mut cursor = Cursor::new(alloc);
    let mut left = count;
    while 0 < left {
        match take_step(alloc, book, &mut passed, &mut cursor, lines, reply) {
            Ok(Tried::Taken) => left -= 1,
            Ok(Tried::PassedBy) => {}
            Ok(Tried::NoMove) => return None,
            Err(fault) => return Some(fault),
        }
    }
    None
}

fn take_step<B: BookCalls, S: Alter>(
    alloc: Global,
    book: &mut JournaledBook<B, S>,
    passed: &mut BTreeSet<ThreadName>,
    cursor: &mut Cursor,
    lines: &mut Lines,
    reply: &mut Reply,
) -> Result<Tried, EntryFault>
    requires open { IsSome book.old.book }
    requires all { LooksAtAll (log_in B.log book.old) passed.old cursor.old }
    requires few { lines.old.count + 1 < 2 ^ 32 }
    requires room { has_room_for_lines reply.old.text (string_len lines.old.text) }
    ensures step { TakesOneOf (log_in B.log book.old) (log_in B.log book.new) passed.old passed.new lines.old lines.new result }
    ensures grows { GrowsPassedBy passed.old passed.new result }
    ensures all { OnOk result (LooksAtAll (log_in B.log book.new) passed.new cursor.new) }
    ensures open { IsSome book.new.book }
    ensures text { string_bytes reply.new.text ≡ string_bytes reply.old.text }
    ensures room { has_room_for_lines reply.new.text (string_len lines.new.text) }
    ensures clean { WasClean (λ held. state S.Store held) book.old.journal book.new.journal }
{
    lines.reserve_step()?;
    reply.reserve_lines(lines)?;
    let Some(thread) = first_ready(alloc, book, passed, cursor)? else {
        return Ok(Tried::NoMove);
    };
    let line = step_line(alloc, &thread)?;
    let made = match book.prepare(alloc, Change::Step { thread: &thread }) {
        Ok(made) => made,
        Err(refusal) => return pass_by(passed, cursor, thread, EntryFault::Book(refusal)),
    };
    let Entry::Step { name, .. } = B::entry_of(&made) else {
        unreachable!()
    };
    let no = name.no;
    if let Err(fault) = book.enter(made, line.as_str()) {
        return Err(EntryFault::Journal(fault));
    }
    cursor.go_back(thread.exec());
    let Ok(()) = lines.add_step(&StepName { thread, no }) else {
        unreachable!()
    };
    Ok(Tried::Taken)
}

/// The least thread that has a move and isn't passed by, if there is one. No look is made before the cursor.
#[tactic(auto, using(crate::proofs::Taken::first_found, crate::proofs::Taken::first_is_free))]
fn first_ready<B: BookCalls, S: Alter>(
    alloc: Global,
    book: &JournaledBook<B, S>,
    passed: &BTreeSet<ThreadName>,
    cursor: &Cursor,
) -> Result<Option<ThreadName>, Refusal>
    requires open { IsSome book.now.book }
    requires all { LooksAtAll (log_in B.log book.now) passed.now cursor.now }
    ensures first { IfSome (log_in B.log book.now) (λ log. IfOk result (IsFirstMoving (passed_in passed.now) log)) }
    ensures found { IfSome (log_in B.log book.now) (λ log. IfOk result (IsFound (passed_in passed.now) log)) }
    ensures legal { IfSome (log_in B.log book.now) IsLegal }
    ensures free { IfOk result (λ found. IfSome found (λ thread. passed_in passed.now thread ≡ false)) }
    ensures memory { IfErr result (λ e. e ≡ Refusal.Memory) }
{
    let Some(book) = book.book() else {
        unreachable!()
    };
    // promises that the book's log is legal
    let _ = book.entries();
    book.first_ready_from(alloc, &cursor.exec, &cursor.path, passed)
}

/// What comes of a refused step: if it needs what is held, its thread is passed by; else the refusal is answered.
#[tactic(auto, using(crate::proofs::Taken::not_held))]
fn pass_by(
    passed: &mut BTreeSet<ThreadName>,
    cursor: &mut Cursor,
    thread: ThreadName,
    fault: EntryFault,
) -> Result<Tried, EntryFault>
    requires { passed_in passed.old thread ≡ false }
    ensures passes { PassesBy thread fault passed.old passed.new result }
    ensures grows { GrowsPassedBy passed.old passed.new result }
    ensures cursor { OnOk result (IsUpTo thread (cursor_place cursor.new)) }
{
    match fault {
        EntryFault::Book(Refusal::Held(_)) => {
            cursor.go_on(&thread);
            add_thread(passed, thread)?;
            Ok(Tried::PassedBy)
        }
        fault => {
            drop(thread);
            Err(fault)
        }
    }
}

#[tactic(auto, using(crate::proofs::Taken::one_passed))]
fn add_thread(passed: &mut BTreeSet<ThreadName>, thread: ThreadName) -> Result<(), AllocError>
    requires { passed_in passed.old thread ≡ false }
    ensures { OnOk result (AddsThread thread passed.old passed.new) }
{
    prove!(passed.len() < usize::MAX);
    passed.insert(thread)?;
    Ok(())
}
