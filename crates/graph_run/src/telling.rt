// Answering a question in words, by a follower behind the lines of a journal.
use crate::following::of_follow;
use crate::lines::{lines_of, session_of};
use crate::running::show_bytes;
use crate::spoken::Spoken;
use graph_follower::questions::Answer;
use graph_follower::{Form, ask_behind, written};
use rollback_run::ExitFault;
use sqlite::{Alter, Connection, Error};
use std::alloc::{AllocError, Global};
use std::io::Write;
use std::sync::Wait;
use std::thread::Threads;

/// Answers a question of the book of a journal, and says whether there is what was asked. The journal's lines stay as they are. Takes what
/// each of its lines takes, and the question.
///
/// # Errors
///
/// As the journal gives no book, and if the output can't be written or memory is refused.
pub fn tell<T: Threads + Wait + Sync, S: Alter + Drop, M: Alter + Drop, W: Write>(
    rt: &T,
    alloc: Global,
    spoken: &Spoken,
    file: Result<Connection<S>, Error>,
    memory: Result<Connection<M>, Error>,
    writer: &mut W,
) -> Result<bool, ExitFault> {
    match answers_behind(rt, alloc, &[spoken.question.as_str()], file, memory) {
        Ok(answers) => {
            let mut answers = answers;
            match answers.pop() {
                Some(answer) => show_answer(alloc, spoken, answer, writer),
                None => Ok(false),
            }
        }
        Err(cause) => Err(cause),
    }
}

/// The answers to questions of the book of a journal.
pub(crate) fn answers_behind<T: Threads + Wait + Sync, S: Alter + Drop, M: Alter + Drop>(
    rt: &T,
    alloc: Global,
    questions: &[&str],
    file: Result<Connection<S>, Error>,
    memory: Result<Connection<M>, Error>,
) -> Result<Vec<Answer>, ExitFault> {
    match lines_of(alloc, file) {
        Ok(lines) => answers_of(rt, alloc, questions, lines.as_slice(), memory),
        Err(cause) => {
            drop(memory);
            Err(cause)
        }
    }
}

fn answers_of<T: Threads + Wait + Sync, M: Alter + Drop>(
    rt: &T,
    alloc: Global,
    questions: &[&str],
    lines: &[String],
    memory: Result<Connection<M>, Error>,
) -> Result<Vec<Answer>, ExitFault> {
    match session_of(alloc, memory) {
        Ok(session) => match ask_behind(rt, alloc, session, lines, questions) {
            Ok(answers) => Ok(answers),
            Err(fault) => Err(of_follow(fault)),
        },
        Err(cause) => Err(cause),
    }
}

/// Writes an answer, a line of JSON or lines of text.
fn show_answer<W: Write>(
    alloc: Global,
    spoken: &Spoken,
    answer: Answer,
    writer: &mut W,
) -> Result<bool, ExitFault> {
    let form = if spoken.is_json {
        Form::Json
    } else {
        Form::Text
    };
    match written(alloc, spoken.question.as_str(), answer, form) {
        Ok(answered) => {
            let end: &[u8] = if spoken.is_json { b"\n" } else { b"" };
            show_bytes(answered.bytes.as_slice(), end, writer)?;
            Ok(answered.is_found)
        }
        Err(AllocError) => Err(ExitFault::Memory),
    }
}
