// Running in a mode, over any streams and any store.
ghost use Rattle.std.specs.Prelude.{◌≡◌, true, false, Err, option_map, IfOk, IfErr, IfSome};
ghost use Rattle.sqlite.specs.Held.{state};
ghost use Rattle.sqlite.specs.State.{HasCleanDisk};
ghost use Rattle.book_journal.specs.Faults.{journal_fault_of};
ghost use Rattle.journaled_book.specs.Journaled.{IsJournalOf};
ghost use Rattle.operator_line.specs.Handing.{Hands};
ghost use Rattle.operator_line.specs.Serving.{WritesReply};
ghost use Rattle.operator_line.specs.Sessions.{KeepsOne, session_log};
ghost use Rattle.operator_line.specs.Texts.{lines_of};
ghost use Rattle.rollback_run.specs.Faults.{of_journal};
ghost use Rattle.rollback_run.specs.Status.{GivesNoJournal, GivesJournal, HasOutcome, IsDone, IsPrinted, IsModeRefusal, IsProgramRun, IsServed, IsStatus, OpensJournal, OpensNoJournal, after_closing, has_to_close, is_check, sizes_of, sizes_text};

use crate::fault::{ENDED, ExitFault, FAILED, USAGE, end};
use crate::mode::{Mode, ModeRefusal};
use crate::writing::write_number;
use book_journal::Journal;
use operator_line::calls::BookCalls;
use operator_line::{ServeFault, Session, flush, serve, write_all};
use sqlite::{Alter, Connection, Error};
use std::alloc::Global;
use std::io::{Read, Write};
use std::sync::Wait;
use std::thread::Threads;

const USAGE_TEXT: &[u8] = b"usage: rollback [--journal FILE | --check FILE]\n";

/// Does what the mode asks for on the journal of this connection, and answers how that ended.
///
/// The connection is handed out again, however the run ended, so that it can be said what the journal holds then. If [`has_to_close`] says
/// so, it has to be closed, and [`finish`] is given what that answers.
pub fn run<T: Threads + Wait + Sync, B: BookCalls + Send, S: Alter + Drop, R: Read, W: Write>(
    rt: &T,
    alloc: Global,
    mode: &Mode,
    connection: Result<Connection<S>, Error>,
    reader: &mut R,
    writer: &mut W,
) -> (Result<(), ExitFault>, Option<Connection<S>>)
    ensures { HasOutcome (λ held. state S.Store held) mode.now connection result.0 result.1 (R.remaining reader.old) (R.remaining reader.new) (W.contents writer.old) (W.contents writer.new) }
{
    match open::<B, S>(alloc, connection) {
        Ok(session) => {
            let (outcome, left) = run_owned(rt, alloc, mode, session, reader, writer);
            (outcome, Some(left))
        }
        Err((fault, left)) => (Err(fault), left),
    }
}

/// Whether the connection has to be closed after a run that ended so: if an input was served to its end on a file's journal. The file alone
/// has all lines then.
pub fn has_to_close(mode: &Mode, outcome: Result<(), ExitFault>) -> bool
    ensures { result ≡ has_to_close mode.now outcome }
{
    matches!((mode, outcome), (Mode::Journal(_), Ok(())))
}

/// The program's status for a run that ended so, and for what closing its file answered. A fault is told on `faults`.
pub fn finish<W: Write>(
    outcome: Result<(), ExitFault>,
    closed: Result<(), Error>,
    faults: &mut W,
) -> u8
    ensures { IsStatus outcome closed result (W.contents faults.old) (W.contents faults.new) }
{
    end(after_closing(outcome, closed), faults)
}

/// Where all went well, what comes of closing the file.
fn after_closing(outcome: Result<(), ExitFault>, closed: Result<(), Error>) -> Result<(), ExitFault>
    ensures { result ≡ after_closing outcome closed }
{
    match (outcome, closed) {
        (Ok(()), Err(cause)) => Err(ExitFault::of_connection(cause)),
        (outcome, _) => outcome,
    }
}

/// Tells why the words name no mode, and answers the program's status.
pub fn refuse<W: Write, E: Write>(refusal: ModeRefusal, writer: &mut W, faults: &mut E) -> u8
    ensures { IsModeRefusal refusal result (W.contents writer.old) (W.contents writer.new) (E.contents faults.old) (E.contents faults.new) }
{
    match refusal {
        ModeRefusal::Shown(text) => match show(writer, text.as_bytes()) {
            Ok(()) => ENDED,
            Err(_) => end(Err(ExitFault::Output), faults),
        },
        ModeRefusal::Usage => {
            let _ = write_all(faults, USAGE_TEXT);
            USAGE
        }
        ModeRefusal::Memory => end(Err(ExitFault::Memory), faults),
    }
}

/// Shows a text, which is at its place only once it is flushed.
fn show<W: Write>(writer: &mut W, text: &[u8]) -> Result<(), ServeFault>
    ensures { WritesReply result text.now (W.contents writer.old) (W.contents writer.new) }
{
    write_all(writer, text)?;
    flush(writer)
}

// ---- the book

fn open<B: BookCalls, S: Alter + Drop>(
    alloc: Global,
    connection: Result<Connection<S>, Error>,
) -> Result<Session<B, S>, (ExitFault, Option<Connection<S>>)>
    ensures here { IfOk result (λ s. s.is_failed ≡ false) }
    ensures ok { IfOk result (λ s. OpensJournal (λ held. state S.Store held) connection s.journal (session_log B.log s)) }
    ensures err { IfErr result (λ e. OpensNoJournal (λ held. state S.Store held) connection e.1 e.0) }
{
    match connection {
        Ok(connection) => match open_connected(alloc, connection) {
            Ok(session) => Ok(session),
            Err((fault, left)) => Err((fault, Some(left))),
        },
        Err(cause) => Err((ExitFault::of_connection(cause), None)),
    }
}

/// The session of a connection's journal, or the connection as it is left if there is none.
fn open_connected<B: BookCalls, S: Alter + Drop>(
    alloc: Global,
    connection: Connection<S>,
) -> Result<Session<B, S>, (ExitFault, Connection<S>)>
    ensures here { IfOk result (λ s. s.is_failed ≡ false) }
    ensures ok { IfOk result (λ s. GivesJournal (λ held. state S.Store held) connection s.journal (session_log B.log s)) }
    ensures err { IfErr result (λ e. GivesNoJournal (λ held. state S.Store held) connection e.1 e.0) }
{
    match Journal::open(connection) {
        Ok(journal) => match Session::open(alloc, journal) {
            Ok(session) => Ok(session),
            Err((fault, journal)) => Err((ExitFault::of_open(fault), journal.into_connection())),
        },
        Err((fault, left)) => Err((ExitFault::of_journal(fault), left)),
    }
}

// ---- what is done with the book

/// Runs a session, and lets it go.
fn run_owned<T: Threads + Wait + Sync, B: BookCalls + Send, S: Alter + Drop, R: Read, W: Write>(
    rt: &T,
    alloc: Global,
    mode: &Mode,
    session: Session<B, S>,
    reader: &mut R,
    writer: &mut W,
) -> (Result<(), ExitFault>, Connection<S>)
    requires here { session.is_failed ≡ false }
    ensures { IsProgramRun (λ held. state S.Store held) mode.now result.0 (session_log B.log session) session.journal result.1 (R.remaining reader.old) (R.remaining reader.new) (W.contents writer.old) (W.contents writer.new) }
{
    let mut session = session;
    let outcome = run_session(rt, alloc, mode, &mut session, reader, writer);
    (outcome, let_go(session))
}

/// The connection of a session, with its journal as it is.
fn let_go<B: BookCalls, S: Alter + Drop>(session: Session<B, S>) -> Connection<S>
    ensures same { result ≡ session.journal }
    ensures holds { IsJournalOf (state S.Store result) (session_log B.log session) }
{
    session.into_journal().into_connection()
}

/// Does what the mode asks for on a session: serves the reader's lines, or tells the sizes of its journal and its book, for which nothing is
/// read and the session stays as it is.
///
/// # Errors
///
/// As `serve`; `Output` where the sizes can't be written or flushed; `Store` of a session that has failed, before anything is done.
pub fn run_session<T: Threads + Wait + Sync, B: BookCalls + Send, S: Alter, R: Read, W: Write>(
    rt: &T,
    alloc: Global,
    mode: &Mode,
    session: &mut Session<B, S>,
    reader: &mut R,
    writer: &mut W,
) -> Result<(), ExitFault>
    ensures done { session.old.is_failed ≡ false → IsDone mode.now result (session_log B.log session.old) (session_log B.log session.new)
        (R.remaining reader.old) (R.remaining reader.new) (W.contents writer.old) (W.contents writer.new) }
    ensures check { is_check mode.now ≡ true → session.new ≡ session.old }
    ensures failed { session.old.is_failed ≡ true → (result ≡ Err ExitFault.Store) × (session.new ≡ session.old)
        × (R.remaining reader.new ≡ R.remaining reader.old) × (W.contents writer.new ≡ W.contents writer.old) }
    ensures handed { is_check mode.now ≡ false → IfSome (R.remaining reader.old) (λ input.
        Hands (KeepsOne (λ held. state S.Store held)) result (lines_of input) session.old.journal session.new.journal) }
{
    if session.is_failed() {
        return Err(ExitFault::Store);
    }
    match mode {
        Mode::InMemory | Mode::Journal(_) => serve_book(rt, alloc, session, reader, writer),
        Mode::Check(_) => print_sizes(writer, sizes(session.book())),
    }
}

fn serve_book<T: Threads + Wait + Sync, B: BookCalls + Send, S: Alter, R: Read, W: Write>(
    rt: &T,
    alloc: Global,
    session: &mut Session<B, S>,
    reader: &mut R,
    writer: &mut W,
) -> Result<(), ExitFault>
    requires here { session.old.is_failed ≡ false }
    ensures served { IsServed result (session_log B.log session.old) (session_log B.log session.new) (R.remaining reader.old) (W.contents writer.old) (W.contents writer.new) }
    ensures handed { IfSome (R.remaining reader.old) (λ input. Hands (KeepsOne (λ held. state S.Store held)) result (lines_of input) session.old.journal session.new.journal) }
{
    match serve(rt, alloc, reader, writer, session) {
        Ok(()) => Ok(()),
        Err(fault) => Err(ExitFault::of_serve(fault)),
    }
}

/// How many lines the journal of a book has, and how many steps remain.
fn sizes<B: BookCalls>(book: Option<&B>) -> (usize, usize)
    ensures { result ≡ sizes_of (option_map (λ b. B.log b.now) book.entry) }
{
    match book {
        Some(book) => {
            let (_begin, entries) = book.entries();
            (entries.len() + 1, book.history().len())
        }
        None => (0, 0),
    }
}

fn print_sizes<W: Write>(writer: &mut W, sizes: (usize, usize)) -> Result<(), ExitFault>
    ensures { IsPrinted result (sizes_text sizes) (W.contents writer.old) (W.contents writer.new) }
{
    match print(writer, sizes) {
        Ok(()) => Ok(()),
        Err(_) => Err(ExitFault::Output),
    }
}

fn print<W: Write>(writer: &mut W, sizes: (usize, usize)) -> Result<(), ServeFault>
    ensures { WritesReply result (sizes_text sizes) (W.contents writer.old) (W.contents writer.new) }
{
    let (lines, steps) = sizes;
    write_number(writer, b"ok ", lines, b" ")?;
    write_number(writer, b"", steps, b"\n")?;
    flush(writer)
}
