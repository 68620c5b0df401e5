// A book with what questions need beside it.
ghost use Rattle.std.specs.Prelude.{◌≡◌, false};
ghost use Rattle.graph_follower.specs.Following.{Feeds, FollowsFedLine, IsGiven};

use crate::giving::give_line;
use command_lines::{Command, CommandFault};
use json_tree::{Json, JsonFields, Text, write_text};
use operator_line::{ServeFault, Session};
use question_answers::{Answer, Question, QuestionFault, ask};
use question_index::{Index, Touched};
use question_text::text_of;
use sqlite::Alter;
use std::alloc::{AllocError, Global};
use std::marker::Model;
use std::sync::Wait;
use std::thread::Threads;
use threaded_book::Book;

/// What is answered to a line that is none of a journal's.
const NO_LINE: &[u8] = b"no 20";

/// The reply to a line for which memory is refused.
const MEMORY: &[u8] = b"no 11";

/// A question that is none.
const NO_QUESTION: &[u8] = b"{\"error\":\"no question\",\"rollback_graph\":1}";

/// The answer to a question for which memory is refused.
const NO_MEMORY: &[u8] = b"{\"error\":\"out of memory\",\"rollback_graph\":1}";

/// A book that follows another one: it is given the lines that the other accepted, and is asked questions. Contracts see its session.
#[derive(Drop)]
pub struct Follower<S: Alter> {
    alloc: Global,
    session: Session<Book, S>,
    index: Index,
}

impl<S: Alter> Model for Follower<S> {
    ghost use Rattle.std.specs.Coded.{coded_option};
    ghost use Rattle.threaded_book.specs.Book.{BookView};
    ghost use Rattle.threaded_book.specs.BookContract as book_row;
    ghost use Rattle.journaled_book.specs.Journaled.{journaled_code};
    ghost use Rattle.operator_line.specs.Sessions.{Sitting, sitting_code};

    ghost Value = { Sitting BookView S };

    ghost coded = { sitting_code (journaled_code (coded_option book_row.the_row.coded) S.code) };

    ghost view = { λ f. f.session };
}

/// How an answer is written.
#[derive(Clone, Copy, Debug, PartialEq, Eq)]
pub enum Form {
    /// As one line of JSON, without its end.
    Json,
    /// As lines of text.
    Text,
}

/// An answer as it is written, and whether there is what was asked for. If not, it says why.
#[derive(Debug, Drop)]
pub struct Answered {
    pub bytes: Vec<u8>,
    pub is_found: bool,
}

/// Why a follower can't go on.
#[derive(Clone, Copy, Debug, PartialEq, Eq)]
pub enum Followed {
    /// The line was accepted, and memory to note it was refused: answers would not speak of it.
    Lost,
    /// The session has failed.
    Failed(ServeFault),
}

impl<S: Alter> Follower<S> {
    /// A follower of no lines, over a session of none.
    pub fn new(alloc: Global, session: Session<Book, S>) -> Follower<S>
        ensures { result ≡ session }
    {
        Follower {
            alloc,
            session,
            index: Index::new(alloc),
        }
    }

    /// The answer to a line without its end: to `= LINE` what the book answers, shortly, and to `? QUESTION` one line of JSON. Another
    /// line is `no 20`.
    pub fn answer<T: Threads + Wait + Sync>(
        &mut self,
        rt: &T,
        line: &[u8],
    ) -> Result<Vec<u8>, Followed>
        ensures { self.old.is_failed ≡ false → FollowsFedLine line.now self.old self.new }
    {
        if let Some(line) = line.strip_prefix(b"= ".as_slice()) {
            return self.feed(rt, line);
        }
        if let Some(question) = line.strip_prefix(b"? ".as_slice()) {
            return self.answer_to(question);
        }
        told(self.alloc, NO_LINE)
    }

    /// Whether the book accepts a line that is given so.
    pub fn is_accepted<T: Threads + Wait + Sync>(
        &mut self,
        rt: &T,
        line: &[u8],
    ) -> Result<bool, Followed>
        ensures { self.old.is_failed ≡ false → Feeds line.now self.old self.new }
    {
        match self.feed(rt, line) {
            Ok(reply) => Ok(reply.as_slice() == b"ok".as_slice()),
            Err(fault) => Err(fault),
        }
    }

    /// Gives the book an accepted line. A line that isn't one of a journal isn't given.
    pub fn feed<T: Threads + Wait + Sync>(
        &mut self,
        rt: &T,
        line: &[u8],
    ) -> Result<Vec<u8>, Followed>
        ensures { self.old.is_failed ≡ false → Feeds line.now self.old self.new }
    {
        let Ok(text) = str::from_utf8(line) else {
            return told(self.alloc, NO_LINE);
        };
        match self.touched_by(text) {
            Ok(Some(touched)) => self.give(rt, text, touched),
            Ok(None) => told(self.alloc, NO_LINE),
            Err(AllocError) => told(self.alloc, MEMORY),
        }
    }

    /// The threads that a line is about to touch; nothing if it isn't one of a journal.
    fn touched_by(&self, line: &str) -> Result<Option<Touched>, AllocError> {
        let command = match Command::read_text(self.alloc, line) {
            Ok(command) => command,
            Err(CommandFault::BadLine) => return Ok(None),
            Err(CommandFault::Memory) => return Err(AllocError),
        };
        if !is_kept(&command) {
            drop(command);
            return Ok(None);
        }
        match self.session.book() {
            Some(book) => Ok(Some(Touched::before(self.alloc, book, &command)?)),
            None => Ok(Some(Touched::none(self.alloc))),
        }
    }

    fn give<T: Threads + Wait + Sync>(
        &mut self,
        rt: &T,
        line: &str,
        touched: Touched,
    ) -> Result<Vec<u8>, Followed>
        ensures { self.old.is_failed ≡ false → IsGiven line.now self.old self.new }
    {
        let (outcome, reply) = give_line(rt, self.alloc, &mut self.session, line.as_bytes());
        if let Err(fault) = outcome {
            drop(touched);
            drop(reply);
            return Err(Followed::Failed(fault));
        }
        if !reply.as_slice().starts_with(b"ok") {
            drop(touched);
            return told(self.alloc, two_words(reply.as_slice()));
        }
        drop(reply);
        let noted = match self.session.book() {
            Some(book) => self.index.enter(self.alloc, book, line, touched),
            None => {
                drop(touched);
                Ok(())
            }
        };
        match noted {
            Ok(()) => told(self.alloc, b"ok"),
            Err(AllocError) => Err(Followed::Lost),
        }
    }

    // ---- questions

    /// The answer to a question, in one line of JSON without its end. With `text` before it, the answer's text is in a field.
    fn answer_to(&self, question: &[u8]) -> Result<Vec<u8>, Followed> {
        let Some(question) = question.strip_prefix(b"text ".as_slice()) else {
            return in_bytes(self.ask(question, Form::Json));
        };
        match self.ask(question, Form::Text) {
            Ok(answer) if answer.is_found => {
                match in_field(self.alloc, self.index.lines(), answer.bytes.as_slice()) {
                    Ok(line) => Ok(line),
                    Err(AllocError) => told(self.alloc, NO_MEMORY),
                }
            }
            Ok(answer) => {
                drop(answer);
                in_bytes(self.ask(question, Form::Json))
            }
            Err(fault) => Err(fault),
        }
    }

    /// The answer to a question, as it is written. Nothing is changed.
    fn ask(&self, question: &[u8], form: Form) -> Result<Answered, Followed> {
        let Ok(text) = str::from_utf8(question) else {
            return absent(self.alloc, NO_QUESTION);
        };
        match self.value_of(text) {
            Ok(answer) => match written(self.alloc, text, answer, form) {
                Ok(answered) => Ok(answered),
                Err(AllocError) => absent(self.alloc, NO_MEMORY),
            },
            Err(QuestionFault::NoQuestion) => absent(self.alloc, NO_QUESTION),
            Err(QuestionFault::Memory) => absent(self.alloc, NO_MEMORY),
        }
    }

    /// The answer to a question, as a value. Nothing is changed.
    ///
    /// # Errors
    ///
    /// `NoQuestion` if the text is none, and `Memory`.
    pub fn value_of(&self, question: &str) -> Result<Answer, QuestionFault> {
        let question = Question::read(self.alloc, question)?;
        match ask(self.alloc, self.session.book(), &self.index, &question) {
            Ok(answer) => Ok(answer),
            Err(AllocError) => Err(QuestionFault::Memory),
        }
    }
}

/// An answer as it is written in a form.
pub fn written(
    alloc: Global,
    question: &str,
    answer: Answer,
    form: Form,
) -> Result<Answered, AllocError> {
    let Answer { json, is_found } = answer;
    let bytes = match form {
        Form::Json => {
            let line = write_text(alloc, &json)?;
            Vec::from_slice(alloc, line.as_bytes())?
        }
        Form::Text => {
            let lines = text_of(alloc, question, &json)?;
            Vec::from_slice(alloc, lines.as_bytes())?
        }
    };
    drop(json);
    Ok(Answered { bytes, is_found })
}

/// An object with lines of text in a field, beside of how many accepted lines it speaks.
fn in_field(alloc: Global, lines: usize, text: &[u8]) -> Result<Vec<u8>, AllocError> {
    let text = match str::from_utf8(text) {
        Ok(text) => Text::new(alloc, text)?,
        Err(_) => Text::new(alloc, "")?,
    };
    let lines = match i64::try_from(lines) {
        Ok(lines) => lines,
        Err(_) => i64::MAX,
    };
    let mut fields = JsonFields::new(alloc);
    drop(fields.insert(Text::new(alloc, "entries")?, Json::Whole(lines))?);
    drop(fields.insert(Text::new(alloc, "rollback_graph")?, Json::Whole(1))?);
    drop(fields.insert(Text::new(alloc, "text")?, Json::Text(text))?);
    let line = write_text(alloc, &Json::Fields(fields))?;
    Vec::from_slice(alloc, line.as_bytes())
}

fn in_bytes(answer: Result<Answered, Followed>) -> Result<Vec<u8>, Followed> {
    match answer {
        Ok(Answered { bytes, is_found: _ }) => Ok(bytes),
        Err(fault) => Err(fault),
    }
}

/// That there is no answer.
fn absent(alloc: Global, text: &[u8]) -> Result<Answered, Followed> {
    Ok(Answered {
        bytes: told(alloc, text)?,
        is_found: false,
    })
}

/// Whether a command's line is kept in a journal.
fn is_kept(command: &Command<'_>) -> bool {
    matches!(
        command,
        Command::Table { .. }
            | Command::Define { .. }
            | Command::Start { .. }
            | Command::Step(_)
            | Command::Undo(_)
            | Command::Rollback(_)
            | Command::Settle
            | Command::Hold(_)
    )
}

/// The first two words of a refusal: `no` and its number.
fn two_words(reply: &[u8]) -> &[u8] {
    let mut has_blank = false;
    for at in 0..reply.len() {
        match reply[at] {
            b' ' if has_blank => return &reply[..at],
            b' ' => has_blank = true,
            b'\n' => return &reply[..at],
            _ => {}
        }
    }
    reply
}

/// A text that is answered. If memory for it is refused, nothing is.
fn told(alloc: Global, text: &[u8]) -> Result<Vec<u8>, Followed> {
    match Vec::from_slice(alloc, text) {
        Ok(text) => Ok(text),
        Err(AllocError) => Err(Followed::Lost),
    }
}
