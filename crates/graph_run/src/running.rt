// Answering a question from a journal, over any streams and any store.
ghost use Rattle.std.specs.Prelude.{◌≡◌, IfOk, IfErr};
ghost use Rattle.sqlite.specs.Held.{state};
ghost use Rattle.journaled_book.specs.Journaled.{log_of};
ghost use Rattle.rollback_run.specs.Serving.{WritesReply};
ghost use Rattle.rollback_run.specs.Faults.{of_journal, of_open};
ghost use Rattle.graph_run.specs.Answering.{AnswersQuestion, GivesFile, GivesNoFile, HasAnswer, IsQuestionAnswered, IsAskRefusal, IsAnswerWritten, OpensFile, OpensNoFile};
ghost use Rattle.graph_run.specs.Status.{IsAskFaultSaid, status_of};

use crate::asked::AskRefusal;
use book_journal::{Journal, JournalFault};
use graph_follower::Book;
use graph_text::{Answer, Question, ask};
use journaled_book::{JournaledBook, OpenFault};
use rollback_run::lines::{ServeFault, flush, write_all};
use rollback_run::{ExitFault, ModeRefusal, USAGE, finish};
use sqlite::{Alter, Connection, Error};
use std::alloc::{AllocError, Global};
use std::io::Write;

/// There is no answer: a sentence was written that says why.
pub const ABSENT: u8 = 1;

const USAGE_TEXT: &[u8] =
    b"usage: rollback_graph FILE QUESTION [--json], or rollback_graph [FILE] --serve; rollback_graph --help lists the questions\n";

/// Answers a question from the journal of this connection, and tells whether there was what was asked. The journal's lines stay as they are.
/// Takes what opening it takes, and what [`ask`] takes.
pub fn run<S: Alter + Drop, W: Write>(
    alloc: Global,
    question: &Question,
    connection: Result<Connection<S>, Error>,
    writer: &mut W,
) -> Result<bool, ExitFault>
    ensures { HasAnswer (λ held. state S.Store held) connection result (W.contents writer.old) (W.contents writer.new) }
{
    match open(alloc, connection) {
        Ok(book) => answer_from(alloc, question, book, writer),
        Err(cause) => Err(cause),
    }
}

/// Answers a question of a book, and lets the book go.
fn answer_from<S: Alter + Drop, W: Write>(
    alloc: Global,
    question: &Question,
    book: JournaledBook<Book, S>,
    writer: &mut W,
) -> Result<bool, ExitFault>
    ensures { AnswersQuestion result (W.contents writer.old) (W.contents writer.new) }
{
    let answered = ask(alloc, book.book(), question);
    drop(book);
    tell(answered, writer)
}

/// Writes what was answered.
fn tell<W: Write>(answered: Result<Answer, AllocError>, writer: &mut W) -> Result<bool, ExitFault>
    ensures { IsQuestionAnswered answered result (W.contents writer.old) (W.contents writer.new) }
{
    match answered {
        Ok(answer) => show_answer(answer, writer),
        Err(AllocError) => Err(ExitFault::Memory),
    }
}

/// Writes an answer, and tells whether it is what was asked.
fn show_answer<W: Write>(answer: Answer, writer: &mut W) -> Result<bool, ExitFault>
    ensures { IsAnswerWritten answer result (W.contents writer.old) (W.contents writer.new) }
{
    match show(writer, answer.page.as_bytes()) {
        Ok(()) => Ok(answer.is_found),
        Err(_) => Err(ExitFault::Output),
    }
}

/// The program's status for a run that ended so. A fault is told on `faults`.
pub fn status_of<W: Write>(outcome: Result<bool, ExitFault>, faults: &mut W) -> u8
    ensures status { result ≡ status_of outcome }
    ensures told { IsAskFaultSaid outcome (W.contents faults.old) (W.contents faults.new) }
{
    match outcome {
        Ok(true) => finish(Ok(()), Ok(()), faults),
        Ok(false) => ABSENT,
        Err(fault) => finish(Err(fault), Ok(()), faults),
    }
}

/// Tells why the words ask for nothing, and answers the program's status.
pub fn refuse<W: Write, E: Write>(refusal: AskRefusal, writer: &mut W, faults: &mut E) -> u8
    ensures { IsAskRefusal refusal result (W.contents writer.old) (W.contents writer.new) (E.contents faults.old) (E.contents faults.new) }
{
    match refusal {
        AskRefusal::Shown(text) => rollback_run::refuse(ModeRefusal::Shown(text), writer, faults),
        AskRefusal::Usage => {
            let _ = write_all(faults, USAGE_TEXT);
            USAGE
        }
        AskRefusal::Memory => rollback_run::refuse(ModeRefusal::Memory, writer, faults),
    }
}

/// Writes texts of the program's own, one behind the other, and says that they are there.
///
/// # Errors
///
/// `Output` if they can't be written.
pub fn show_parts<W: Write>(parts: &[&'static str], writer: &mut W) -> Result<bool, ExitFault> {
    for part in parts {
        if write_all(writer, part.as_bytes()).is_err() {
            return Err(ExitFault::Output);
        }
    }
    show_bytes(b"", b"", writer)?;
    Ok(true)
}

/// Writes a text and its end.
pub(crate) fn show_bytes<W: Write>(
    text: &[u8],
    end: &[u8],
    writer: &mut W,
) -> Result<(), ExitFault> {
    if write_all(writer, text).is_ok() && show(writer, end).is_ok() {
        Ok(())
    } else {
        Err(ExitFault::Output)
    }
}

/// Writes a text, which is at its place only once it is flushed.
fn show<W: Write>(writer: &mut W, text: &[u8]) -> Result<(), ServeFault>
    ensures { WritesReply result text.now (W.contents writer.old) (W.contents writer.new) }
{
    write_all(writer, text)?;
    flush(writer)
}

// ---- the book

fn open<S: Alter + Drop>(
    alloc: Global,
    connection: Result<Connection<S>, Error>,
) -> Result<JournaledBook<Book, S>, ExitFault>
    ensures ok { IfOk result (λ j. OpensFile (λ held. state S.Store held) connection (log_of (λ b. b.log) j.book)) }
    ensures err { IfErr result (OpensNoFile (λ held. state S.Store held) connection) }
{
    match connection {
        Ok(connection) => open_connected(alloc, connection),
        Err(cause) => Err(of_journal(JournalFault::from(cause))),
    }
}

fn open_connected<S: Alter + Drop>(
    alloc: Global,
    connection: Connection<S>,
) -> Result<JournaledBook<Book, S>, ExitFault>
    ensures ok { IfOk result (λ j. GivesFile (λ held. state S.Store held) connection (log_of (λ b. b.log) j.book)) }
    ensures err { IfErr result (GivesNoFile (λ held. state S.Store held) connection) }
{
    match Journal::open(connection) {
        Ok(journal) => match JournaledBook::open(alloc, journal) {
            Ok(book) => Ok(book),
            Err((fault, _)) => Err(of_open(fault)),
        },
        Err((fault, _)) => Err(of_journal(fault)),
    }
}

/// How a refusal of the journal is told.
pub(crate) fn of_journal(fault: JournalFault) -> ExitFault
    ensures { result ≡ of_journal fault }
{
    match fault {
        JournalFault::Store(_) => ExitFault::Store,
        JournalFault::Gap(position) => ExitFault::Gap(position),
        JournalFault::Memory => ExitFault::Memory,
    }
}

/// How a journal is told that gives no book.
pub(crate) fn of_open(fault: OpenFault) -> ExitFault
    ensures { result ≡ of_open fault }
{
    match fault {
        OpenFault::Damaged(line) => ExitFault::Damaged(line),
        OpenFault::Journal(fault) => of_journal(fault),
        OpenFault::Memory => ExitFault::Memory,
    }
}
