// Following an input: each line is answered, and flushed, before the next is read.
use crate::follower::{Followed, Follower};
use sqlite::Alter;
use std::alloc::Global;
use std::io::{BufRead, Write};
use std::sync::Wait;
use std::thread::Threads;

/// Why following ended before the input did.
#[derive(Clone, Copy, Debug, PartialEq, Eq)]
pub enum FollowFault {
    /// The reader refused.
    Read,
    /// The writer refused, or took nothing.
    Write,
    /// The line at this place of a journal isn't accepted.
    Refused(usize),
    /// A text that was asked is no question.
    NoQuestion,
    /// The follower can't go on.
    Followed(Followed),
}

/// Answers each line of the reader. An empty line isn't answered. Takes the room of the longest line and of the longest answer.
pub fn follow<T: Threads + Wait + Sync, R: BufRead, W: Write, S: Alter>(
    rt: &T,
    alloc: Global,
    reader: &mut R,
    writer: &mut W,
    follower: &mut Follower<S>,
) -> Result<(), FollowFault> {
    let mut line = Vec::new(alloc);
    for _ in 0..u64::MAX {
        line.clear();
        match reader.read_until(b'\n', &mut line) {
            Ok(0) => return Ok(()),
            Ok(_) => answer_line(rt, writer, follower, without_end(line.as_slice()))?,
            Err(_) => return Err(FollowFault::Read),
        }
    }
    Err(FollowFault::Read)
}

fn answer_line<T: Threads + Wait + Sync, W: Write, S: Alter>(
    rt: &T,
    writer: &mut W,
    follower: &mut Follower<S>,
    line: &[u8],
) -> Result<(), FollowFault> {
    if line.is_empty() {
        return Ok(());
    }
    let answer = match follower.answer(rt, line) {
        Ok(answer) => answer,
        Err(fault) => return Err(FollowFault::Followed(fault)),
    };
    let is_written = write_line(writer, answer.as_slice());
    drop(answer);
    if is_written {
        Ok(())
    } else {
        Err(FollowFault::Write)
    }
}

/// Whether a line was written and flushed.
fn write_line<W: Write>(writer: &mut W, line: &[u8]) -> bool {
    writer.write_all(line).is_ok() && writer.write_all(b"\n").is_ok() && writer.flush().is_ok()
}

/// A line without its line feed, and one carriage return before that.
fn without_end(line: &[u8]) -> &[u8] {
    let Some(line) = line.strip_suffix(b"\n".as_slice()) else {
        return line;
    };
    match line.strip_suffix(b"\r".as_slice()) {
        Some(front) => front,
        None => line,
    }
}
