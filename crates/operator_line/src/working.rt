// A round of workers on a session's book.
ghost use Rattle.std.specs.Prelude.{◌≡◌, ◌+◌, ◌<◌, ◌≤◌, ◌^◌, ◌++◌, ◌∷◌, [], List, ℕ, Some, false, length, map, string_bytes, IfOk, IfErr, OnOk};
ghost use Rattle.step_names.specs.Written.{step_text};
ghost use Rattle.sqlite.specs.Held.{state};
ghost use Rattle.book_journal.specs.Entries.{texts};
ghost use Rattle.book_log.specs.declared.entry.Entry.{Entry as LogEntry};
ghost use Rattle.book_rounds.specs.Rounds.{AreSteps};
ghost use Rattle.book_rounds.specs.Work.{IsStepEntry};
ghost use Rattle.journaled_book.specs.Journaled.{GoesOnBy, journal_of, log_of};
ghost use Rattle.journaled_book.specs.Lines.{AreEntryLines};
ghost use Rattle.operator_line.specs.Answering.{GoesOnFrom, IsToldOr, SettlesWork, Stays, TellsNone, WorksBy, is_gone, since, stepped_names};
ghost use Rattle.operator_line.specs.Sessions.{WasClean, session_log, sitting_of};
ghost use Rattle.reply_lines.specs.Replies.{names_reply, no_table, refused};
ghost use Rattle.reply_lines.specs.Replying.{AreLines};

use crate::open_session::{NO_TABLE, OpenSession};
use crate::session::Hand;
use book_log::{Entry, Refusal};
use book_rounds::{Round, RoundFault, is_full_for_step, run_round};
use command_lines::step_line;
use journaled_book::calls::BookCalls;
use journaled_book::{AwayBook, JournaledBook};
use reply_lines::{Lines, Reply};
use sqlite::Alter;
use std::alloc::{AllocError, Global};
use std::sync::Wait;
use std::thread::Threads;

/// What came of a round.
#[derive(Drop)]
pub(crate) enum Worked {
    /// This is answered.
    Told(Reply),
    /// Memory was refused before any step was taken.
    NoMemory,
    /// The steps couldn't be written down, and the book is gone.
    Lost,
}

/// Takes the book out, has a round of workers on it, writes their steps into the journal in one transaction, and puts the book back.
/// The reply is made before they are written, since they can't be taken out of the journal again.
#[tactic(auto, using(crate::proofs::Settling::round_goes, crate::proofs::Settling::round_few, crate::proofs::Settling::round_still, crate::proofs::Settling::settled_works, crate::proofs::Settling::stayed_works))]
pub(crate) fn work_on<B: BookCalls + Send, S: Alter, R: Threads + Wait + Sync>(
    rt: &R,
    hand: Hand<B, S>,
    workers: u32,
    moves: u32,
) -> (Hand<B, S>, Worked)
    requires here { (sitting_of hand).is_failed ≡ false }
    requires few { (1 ≤ workers) × (workers ≤ 8) }
    ensures worked { WorksBy result.1 (session_log B.log (sitting_of hand)) workers moves (session_log B.log (sitting_of result.0)) }
    ensures failed { (sitting_of result.0).is_failed ≡ is_gone result.1 }
    ensures clean { WasClean (λ held. state S.Store held) (sitting_of hand).journal (sitting_of result.0).journal }
{
    let Hand::Open(open) = hand else {
        unreachable!()
    };
    let OpenSession { alloc, book } = open;
    if !book.is_open() {
        let worked = no_table(alloc);
        return (Hand::Open(OpenSession { alloc, book }), worked);
    }
    let (book, away) = book.take_out();
    let begun = entry_count(&book);
    match run_round(rt, alloc, book, workers, moves) {
        Ok(Round { book, is_refused }) => {
            if entry_count(&book) == begun {
                let worked = stay(alloc, &book, is_refused);
                (open_again(alloc, away, book), worked)
            } else {
                settle(alloc, away, book, begun)
            }
        }
        Err(RoundFault::NotBegun(book)) => {
            let worked = stay(alloc, &book, true);
            (open_again(alloc, away, book), worked)
        }
        Err(RoundFault::Lost) => (Hand::Failed(away), Worked::Lost),
    }
}

fn no_table(alloc: Global) -> Worked
    ensures { IsToldOr (refused no_table) result }
{
    let mut reply = Reply::new(alloc);
    match reply.refuse(NO_TABLE) {
        Ok(()) => Worked::Told(reply),
        Err(AllocError) => Worked::NoMemory,
    }
}

fn entry_count<B: BookCalls>(book: &B) -> usize
    ensures { result ≡ length (B.log book.now).entries }
{
    book.entries().1.len()
}

/// A book that has the log from before.
fn open_again<B: BookCalls, S: Alter>(alloc: Global, away: AwayBook<B, S>, book: B) -> Hand<B, S>
    requires { log_of B.log away.book ≡ Some (B.log book) }
    ensures same { session_log B.log (sitting_of result) ≡ log_of B.log away.book }
    ensures here { (sitting_of result).is_failed ≡ false }
    ensures journal { (sitting_of result).journal ≡ away.journal }
{
    Hand::Open(OpenSession {
        alloc,
        book: away.put_back(book),
    })
}

/// Tells that no step was taken: there was none to take, or the workers were refused.
fn stay<B: BookCalls>(alloc: Global, book: &B, is_refused: bool) -> Worked
    ensures { Stays result (B.log book.now) }
{
    let mut reply = Reply::new(alloc);
    match tell_none(alloc, book, is_refused, &mut reply) {
        Ok(()) => Worked::Told(reply),
        Err(AllocError) => Worked::NoMemory,
    }
}

fn tell_none<B: BookCalls>(
    alloc: Global,
    book: &B,
    is_refused: bool,
    reply: &mut Reply,
) -> Result<(), AllocError>
    requires { string_bytes reply.old.text ≡ [] }
    ensures { OnOk result (TellsNone (B.log book.now) (string_bytes reply.new.text)) }
{
    if !is_refused {
        return tell_no_steps(alloc, reply);
    }
    if is_full_for_step(book) {
        return reply.refuse_command(alloc, Refusal::Full);
    }
    Err(AllocError)
}

pub(crate) fn tell_no_steps(alloc: Global, reply: &mut Reply) -> Result<(), AllocError>
    requires { string_bytes reply.old.text ≡ [] }
    ensures { OnOk result (string_bytes reply.new.text ≡ names_reply []) }
{
    reply.accept_lines(&Lines::new(alloc))
}

/// Writes the steps since so many entries into the journal, and puts the book back.
#[tactic(auto, using(crate::proofs::Settling::goes_by))]
fn settle<B: BookCalls, S: Alter>(
    alloc: Global,
    away: AwayBook<B, S>,
    book: B,
    begun: usize,
) -> (Hand<B, S>, Worked)
    requires goes { GoesOnFrom begun (log_of B.log away.book) (B.log book) }
    requires few { length (since begun (B.log book)) < 2 ^ 32 }
    ensures settled { SettlesWork result.1 begun (log_of B.log away.book) (B.log book) (session_log B.log (sitting_of result.0)) }
    ensures failed { (sitting_of result.0).is_failed ≡ is_gone result.1 }
    ensures clean { WasClean (λ held. state S.Store held) away.journal (sitting_of result.0).journal }
{
    let Ok((reply, lines)) = tell(alloc, &book.entries().1[begun..]) else {
        drop(book);
        return (Hand::Failed(away), Worked::Lost);
    };
    match append(alloc, away, book, lines.as_slice()) {
        Ok(book) => (Hand::Open(OpenSession { alloc, book }), Worked::Told(reply)),
        Err(away) => (Hand::Failed(away), Worked::Lost),
    }
}

/// Appends the lines of a book that went on by what they say.
#[tactic(auto, using(crate::proofs::Sessions::appended_clean))]
fn append<B: BookCalls, S: Alter>(
    alloc: Global,
    away: AwayBook<B, S>,
    book: B,
    lines: &[String],
) -> Result<JournaledBook<B, S>, AwayBook<B, S>>
    requires { GoesOnBy (map string_bytes lines.now) (log_of B.log away.book) (B.log book) }
    ensures ok { IfOk result (λ back. back.book ≡ Some book) }
    ensures err { IfErr result (λ left. left.book ≡ away.book) }
    ensures clean { WasClean (λ held. state S.Store held) away.journal (journal_of result) }
{
    match texts_of(alloc, lines) {
        Ok(texts) => away.append(book, texts.as_slice()),
        Err(AllocError) => {
            drop(book);
            Err(away)
        }
    }
}

fn texts_of(alloc: Global, lines: &[String]) -> Result<Vec<&str>, AllocError>
    ensures { IfOk result (λ refs. texts refs.items ≡ map string_bytes lines.now) }
{
    let mut refs = Vec::with_capacity(alloc, lines.len())?;
    for line in lines {
        refs.push_reserved(line.as_str());
    }
    Ok(refs)
}

/// The reply that lists these steps, and their lines in the journal.
#[tactic(auto, using(crate::proofs::Settling::names_more, crate::proofs::Settling::step_there))]
fn tell(alloc: Global, entries: &[Entry]) -> Result<(Reply, Vec<String>), AllocError>
    requires steps { AreSteps entries.now }
    requires few { length entries.now < 2 ^ 32 }
    ensures reply { IfOk result (λ r. string_bytes r.0.text ≡ names_reply (stepped_names entries.now)) }
    ensures lines { IfOk result (λ r. AreEntryLines (map string_bytes r.1.items) entries.now) }
{
    let mut told = Lines::new(alloc);
    let mut lines = Vec::new(alloc);
    for entry in entries {
        tell_step(alloc, entry, &mut told, &mut lines)?;
    }
    let mut reply = Reply::new(alloc);
    reply.accept_lines(&told)?;
    Ok((reply, lines))
}

#[tactic(auto, using(crate::proofs::Settling::one_line_more))]
fn tell_step(
    alloc: Global,
    entry: &Entry,
    told: &mut Lines,
    lines: &mut Vec<String>,
) -> Result<(), AllocError>
    requires step { IsStepEntry entry.now }
    requires few { told.old.count + 1 < 2 ^ 32 }
    ensures told { OnOk result ((names : List (List ℕ)) → AreLines told.old names → AreLines told.new (names ++ map step_text (stepped_names (entry.now ∷ [])))) }
    ensures count { OnOk result (told.new.count ≡ told.old.count + 1) }
    ensures lines { OnOk result ((es : List LogEntry) → AreEntryLines (map string_bytes lines.old.items) es → AreEntryLines (map string_bytes lines.new.items) (es ++ entry.now ∷ [])) }
{
    let Entry::Step { name, kind: _ } = entry else {
        unreachable!()
    };
    let line = step_line(alloc, &name.thread)?;
    lines.push(line)?;
    told.add_step(name)
}
