// A follower behind the lines of a journal, from its beginning to its end.
use crate::follower::{Followed, Follower};
use crate::following::{FollowFault, follow};
use operator_line::Session;
use question_answers::{Answer, QuestionFault};
use sqlite::Alter;
use std::alloc::Global;
use std::io::{BufRead, Write};
use std::sync::Wait;
use std::thread::Threads;
use threaded_book::Book;

/// Follows the lines of a reader behind those of a journal, by a session of none, which is let go then. Takes what each line takes, and what
/// [`follow`] takes.
///
/// # Errors
///
/// As [`follow`]; `Refused` if a line of the journal isn't accepted.
pub fn follow_behind<T: Threads + Wait + Sync, S: Alter + Drop, R: BufRead, W: Write>(
    rt: &T,
    alloc: Global,
    session: Session<Book, S>,
    lines: &[String],
    reader: &mut R,
    writer: &mut W,
) -> Result<(), FollowFault> {
    let mut follower = Follower::new(alloc, session);
    let outcome = follow_fed(rt, alloc, &mut follower, lines, reader, writer);
    drop(follower);
    outcome
}

fn follow_fed<T: Threads + Wait + Sync, S: Alter, R: BufRead, W: Write>(
    rt: &T,
    alloc: Global,
    follower: &mut Follower<S>,
    lines: &[String],
    reader: &mut R,
    writer: &mut W,
) -> Result<(), FollowFault> {
    feed_all(rt, follower, lines)?;
    follow(rt, alloc, reader, writer, follower)
}

/// The answers to some questions about the book of a journal's lines, by a session of none, which is let go then. Takes what each line and
/// each question takes.
///
/// # Errors
///
/// `Refused` if a line of the journal isn't accepted, `NoQuestion` if a text is none, and `Followed`.
pub fn ask_behind<T: Threads + Wait + Sync, S: Alter + Drop>(
    rt: &T,
    alloc: Global,
    session: Session<Book, S>,
    lines: &[String],
    questions: &[&str],
) -> Result<Vec<Answer>, FollowFault> {
    let mut follower = Follower::new(alloc, session);
    let answers = ask_fed(rt, alloc, &mut follower, lines, questions);
    drop(follower);
    answers
}

fn ask_fed<T: Threads + Wait + Sync, S: Alter>(
    rt: &T,
    alloc: Global,
    follower: &mut Follower<S>,
    lines: &[String],
    questions: &[&str],
) -> Result<Vec<Answer>, FollowFault> {
    feed_all(rt, follower, lines)?;
    ask_all(alloc, follower, questions)
}

fn ask_all<S: Alter>(
    alloc: Global,
    follower: &Follower<S>,
    questions: &[&str],
) -> Result<Vec<Answer>, FollowFault> {
    let mut answers = Vec::new(alloc);
    for question in questions {
        match follower.value_of(question) {
            Ok(answer) => {
                if let Err(refused) = answers.push(answer) {
                    drop(refused);
                    return Err(FollowFault::Followed(Followed::Lost));
                }
            }
            Err(QuestionFault::NoQuestion) => return Err(FollowFault::NoQuestion),
            Err(QuestionFault::Memory) => return Err(FollowFault::Followed(Followed::Lost)),
        }
    }
    Ok(answers)
}

/// Gives a follower the lines of a journal.
fn feed_all<T: Threads + Wait + Sync, S: Alter>(
    rt: &T,
    follower: &mut Follower<S>,
    lines: &[String],
) -> Result<(), FollowFault> {
    for (place, line) in lines.iter().enumerate() {
        match follower.is_accepted(rt, line.as_str().as_bytes()) {
            Ok(true) => {}
            Ok(false) => return Err(FollowFault::Refused(place)),
            Err(fault) => return Err(FollowFault::Followed(fault)),
        }
    }
    Ok(())
}
