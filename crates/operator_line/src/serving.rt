// Serving an input: line after line, its reply is written before the next is read.
ghost use Rattle.std.specs.Prelude.{◌≡◌, ◌⊎◌, ◌<◌, ◌≤◌, ℕ, List, ◌∷◌, ◌++◌, [], true, false, Some, None, Ok, Err, IfSome, IfErr, IsTrue, length, slice_index, take, MatchOption, OnOk, OnErr};
ghost use Rattle.std.specs.Io.KnownBytes.{Keeps};
ghost use Rattle.operator_line.specs.Lines.{grown, ended_line, last_line, bytes_of, kept_front};
ghost use Rattle.operator_line.specs.Serving.{AnswersRead, IsGone, serving_failed, lost_reply, ServesLast, ServesLine, ServesPiece, ServesRead, Serves, WritesPart, WritesReply};
ghost use Rattle.operator_line.specs.Handing.{Hands, HandsLast, HandsPiece, HandsRead};
ghost use Rattle.operator_line.specs.Sessions.{KeepsOne, session_log};
ghost use Rattle.operator_line.specs.Texts.{has_no_feed, lines_of};
ghost use Rattle.sqlite.specs.Held.{state};

use crate::line::{Line, LineBuffer};
use crate::session::{Answered, Session};
use journaled_book::calls::BookCalls;
use memchr::memchr;
use reply_lines::Reply;
use sqlite::Alter;
use std::alloc::{AllocError, Global};
use std::io::{ErrorKind, Read, Write};
use std::sync::Wait;
use std::thread::Threads;
use thiserror::Error;

/// How many bytes the reader is asked for at once.
const PIECE: usize = 65_536;

/// How often `serve` asks the reader at most.
pub const MOST_READS: u32 = 4_294_967_295;

/// What a refused growth is answered, from no memory.
const MEMORY: &[u8] = b"no 11\n";

/// What a round is answered whose steps couldn't be written down, from no memory.
const LOST: &[u8] = b"no 24\n";

/// Why serving ended before the input did.
#[derive(Clone, Copy, Debug, PartialEq, Eq, Error)]
pub enum ServeFault {
    /// The reader refused, or the bound on its calls was reached.
    #[error("the input can't be read")]
    Read,
    /// The writer refused, or took nothing.
    #[error("the output can't be written")]
    Write,
    /// The steps of a round couldn't be written down, now or in an earlier call: the session has failed.
    #[error("the journal can't be written")]
    Journal,
    /// Memory for a line was refused.
    #[error("out of memory for a line")]
    Memory,
}

/// What is between the reader and the writer: the line that is being read, and the reply that is being written.
#[derive(Drop)]
struct Buffers {
    line: LineBuffer,
    reply: Reply,
}

/// Answers each line of the reader, and writes the replies.
///
/// Nothing of a line is applied before the whole line was read. Where a reply can't be written, the command stands. Where
/// the reader fails, would be asked more than [`MOST_READS`] times, or memory for a line is refused, nothing of that line
/// is applied.
///
/// Where the steps of a round can't be written into the journal, serving ends with `Journal`, whether or not that reply could be
/// written. The session has failed then: each later call reads nothing and answers `Journal`.
///
/// Takes a block of 65,536 bytes and the room of the longest line and of the longest reply. The replies to the lines of
/// one piece of the input are flushed together.
pub fn serve<T: Threads + Wait + Sync, R: Read, W: Write, B: BookCalls + Send, S: Alter>(
    rt: &T,
    alloc: Global,
    reader: &mut R,
    writer: &mut W,
    session: &mut Session<B, S>,
) -> Result<(), ServeFault>
    ensures answers { session.old.is_failed ≡ false → IfSome (R.remaining reader.old) (λ input.
        Serves result input (session_log B.log session.old) (session_log B.log session.new) (W.contents writer.old) (W.contents writer.new)) }
    ensures read { result ≡ Err ServeFault.Read → IfSome (R.remaining reader.old) (λ input.
        AnswersRead input (R.remaining reader.new) (session_log B.log session.old) (session_log B.log session.new) (W.contents writer.old) (W.contents writer.new)) }
    ensures whole { IfSome (R.remaining reader.old) (λ _. OnOk result (R.remaining reader.new ≡ Some [])) }
    ensures failed { session.old.is_failed ≡ false → session.new.is_failed ≡ serving_failed result }
    ensures gone { session.old.is_failed ≡ true → IsGone result session.old session.new (R.remaining reader.old) (R.remaining reader.new) (W.contents writer.old) (W.contents writer.new) }
    ensures handed { IfSome (R.remaining reader.old) (λ input. Hands (KeepsOne (λ held. state S.Store held)) result (lines_of input) session.old.journal session.new.journal) }
{
    serve_at_most(rt, alloc, MOST_READS, reader, writer, session)
}

/// As [`serve`], but asks the reader at most so many times.
pub fn serve_at_most<T: Threads + Wait + Sync, R: Read, W: Write, B: BookCalls + Send, S: Alter>(
    rt: &T,
    alloc: Global,
    most: u32,
    reader: &mut R,
    writer: &mut W,
    session: &mut Session<B, S>,
) -> Result<(), ServeFault>
    ensures answers { session.old.is_failed ≡ false → IfSome (R.remaining reader.old) (λ input.
        Serves result input (session_log B.log session.old) (session_log B.log session.new) (W.contents writer.old) (W.contents writer.new)) }
    ensures read { result ≡ Err ServeFault.Read → IfSome (R.remaining reader.old) (λ input.
        AnswersRead input (R.remaining reader.new) (session_log B.log session.old) (session_log B.log session.new) (W.contents writer.old) (W.contents writer.new)) }
    ensures whole { IfSome (R.remaining reader.old) (λ _. OnOk result (R.remaining reader.new ≡ Some [])) }
    ensures failed { session.old.is_failed ≡ false → session.new.is_failed ≡ serving_failed result }
    ensures gone { session.old.is_failed ≡ true → IsGone result session.old session.new (R.remaining reader.old) (R.remaining reader.new) (W.contents writer.old) (W.contents writer.new) }
    ensures handed { IfSome (R.remaining reader.old) (λ input. Hands (KeepsOne (λ held. state S.Store held)) result (lines_of input) session.old.journal session.new.journal) }
{
    if session.is_failed() {
        return Err(ServeFault::Journal);
    }
    serve_all(rt, alloc, most, reader, writer, session)
}

/// As `serve`, of a session that hasn't failed.
fn serve_all<T: Threads + Wait + Sync, R: Read, W: Write, B: BookCalls + Send, S: Alter>(
    rt: &T,
    alloc: Global,
    most: u32,
    reader: &mut R,
    writer: &mut W,
    session: &mut Session<B, S>,
) -> Result<(), ServeFault>
    requires here { session.old.is_failed ≡ false }
    ensures answers { IfSome (R.remaining reader.old) (λ input.
        Serves result input (session_log B.log session.old) (session_log B.log session.new) (W.contents writer.old) (W.contents writer.new)) }
    ensures read { result ≡ Err ServeFault.Read → IfSome (R.remaining reader.old) (λ input.
        AnswersRead input (R.remaining reader.new) (session_log B.log session.old) (session_log B.log session.new) (W.contents writer.old) (W.contents writer.new)) }
    ensures whole { IfSome (R.remaining reader.old) (λ _. OnOk result (R.remaining reader.new ≡ Some [])) }
    ensures failed { session.new.is_failed ≡ serving_failed result }
    ensures handed { IfSome (R.remaining reader.old) (λ input. Hands (KeepsOne (λ held. state S.Store held)) result (lines_of input) session.old.journal session.new.journal) }
{
    let Ok(mut piece) = vec![in alloc; 0u8; PIECE] else {
        return Err(ServeFault::Memory);
    };
    let mut buffers = Buffers {
        line: LineBuffer::new(alloc),
        reply: Reply::new(alloc),
    };
    for _ in 0..most {
        if !serve_read(rt, reader, &mut piece, &mut buffers, writer, session)? {
            return serve_last(rt, &mut buffers, writer, session);
        }
    }
    Err(ServeFault::Read)
}

/// Asks the reader once and answers the lines that end in what it gives. Answers whether there may be more.
fn serve_read<T: Threads + Wait + Sync, R: Read, W: Write, B: BookCalls + Send, S: Alter>(
    rt: &T,
    reader: &mut R,
    piece: &mut [u8],
    buffers: &mut Buffers,
    writer: &mut W,
    session: &mut Session<B, S>,
) -> Result<bool, ServeFault>
    requires some { 0 < length piece.old }
    requires here { session.old.is_failed ≡ false }
    ensures failed { session.new.is_failed ≡ serving_failed result }
    ensures read { (front : List ℕ) (text : List ℕ) → buffers.old.line ≡ kept_front front → R.remaining reader.old ≡ Some text
        → ServesRead result front text (R.remaining reader.new) buffers.new.line (session_log B.log session.old) (session_log B.log session.new) (W.contents writer.old) (W.contents writer.new) }
    ensures handed { (front : List ℕ) (text : List ℕ) → buffers.old.line ≡ kept_front front → R.remaining reader.old ≡ Some text
        → HandsRead (KeepsOne (λ held. state S.Store held)) result front text (R.remaining reader.new) buffers.new.line session.old.journal session.new.journal }
{
    match reader.read(piece) {
        Ok(0) => Ok(false),
        Ok(count) => {
            serve_piece(rt, &piece[..count], buffers, writer, session)?;
            Ok(true)
        }
        Err(error) => {
            if error.kind() == ErrorKind::Interrupted {
                Ok(true)
            } else {
                Err(ServeFault::Read)
            }
        }
    }
}

/// Answers the lines that end in a piece of the input, and keeps what comes after them.
#[tactic(auto, using(crate::proofs::Served::flush_keeps, crate::proofs::Served::add_keeps))]
fn serve_piece<T: Threads + Wait + Sync, W: Write, B: BookCalls + Send, S: Alter>(
    rt: &T,
    piece: &[u8],
    buffers: &mut Buffers,
    writer: &mut W,
    session: &mut Session<B, S>,
) -> Result<(), ServeFault>
    requires here { session.old.is_failed ≡ false }
    ensures failed { session.new.is_failed ≡ serving_failed result }
    ensures piece { (front : List ℕ) → buffers.old.line ≡ kept_front front
        → ServesPiece result front piece.now buffers.new.line (session_log B.log session.old) (session_log B.log session.new) (W.contents writer.old) (W.contents writer.new) }
    ensures handed { (front : List ℕ) → buffers.old.line ≡ kept_front front → HandsPiece (KeepsOne (λ held. state S.Store held)) result front piece.now buffers.new.line session.old.journal session.new.journal }
{
    let mut rest = piece;
    let mut has_line = false;
    while let Some((front, after)) = cut_line(rest) {
        serve_line(rt, front, buffers, writer, session)?;
        has_line = true;
        rest = after;
    }
    add(&mut buffers.line, rest)?;
    if has_line { flush(writer) } else { Ok(()) }
}

/// What stands before the first line feed, and what after it.
fn cut_line(bytes: &[u8]) -> Option<(&[u8], &[u8])>
    ensures { MatchOption result (IsTrue (has_no_feed bytes.now)) (λ parts. IsTrue (has_no_feed parts.0.now) × (bytes.now ≡ parts.0.now ++ 10 ∷ parts.1.now)) }
{
    let end = line_len(bytes);
    if end < bytes.len() {
        Some((&bytes[..end], &bytes[end + 1..]))
    } else {
        None
    }
}

/// How many bytes stand before the first line feed.
fn line_len(bytes: &[u8]) -> usize
    ensures within { result ≤ length bytes.now }
    ensures before { IsTrue (has_no_feed (take result bytes.now)) }
    ensures feed { result < length bytes.now → slice_index bytes.now result ≡ 10 }
{
    match memchr(b'\n', bytes) {
        Some(end) => end,
        None => bytes.len(),
    }
}

/// Answers the line that these bytes end, before a line feed.
#[tactic(auto, using(crate::proofs::Served::add_keeps))]
fn serve_line<T: Threads + Wait + Sync, W: Write, B: BookCalls + Send, S: Alter>(
    rt: &T,
    front: &[u8],
    buffers: &mut Buffers,
    writer: &mut W,
    session: &mut Session<B, S>,
) -> Result<(), ServeFault>
    requires here { session.old.is_failed ≡ false }
    ensures failed { session.new.is_failed ≡ serving_failed result }
    ensures answers { ServesLine result (ended_line (grown front.now buffers.old.line)) (session_log B.log session.old) (session_log B.log session.new) (W.contents writer.old) (W.contents writer.new) }
    ensures begun { OnOk result (buffers.new.line ≡ Some []) }
    ensures handed { OnOk result (KeepsOne (λ held. state S.Store held) (ended_line (grown front.now buffers.old.line)) session.old.journal session.new.journal) }
    ensures perhaps { OnErr result ((session.new.journal ≡ session.old.journal) ⊎ KeepsOne (λ held. state S.Store held) (ended_line (grown front.now buffers.old.line)) session.old.journal session.new.journal) }
{
    add(&mut buffers.line, front)?;
    write_answer(
        rt,
        buffers.line.ended(),
        &mut buffers.reply,
        writer,
        session,
    )?;
    buffers.line.clear();
    Ok(())
}

/// Answers what stands after the last line feed, if anything does.
#[tactic(auto, using(crate::proofs::Served::flush_keeps, crate::proofs::Served::add_keeps))]
fn serve_last<T: Threads + Wait + Sync, W: Write, B: BookCalls + Send, S: Alter>(
    rt: &T,
    buffers: &mut Buffers,
    writer: &mut W,
    session: &mut Session<B, S>,
) -> Result<(), ServeFault>
    requires here { session.old.is_failed ≡ false }
    ensures failed { session.new.is_failed ≡ serving_failed result }
    ensures last { ServesLast result (last_line buffers.old.line) (session_log B.log session.old) (session_log B.log session.new) (W.contents writer.old) (W.contents writer.new) }
    ensures handed { HandsLast (KeepsOne (λ held. state S.Store held)) (last_line buffers.old.line) session.old.journal session.new.journal }
{
    let Some(last) = buffers.line.last() else {
        return Ok(());
    };
    write_answer(rt, last, &mut buffers.reply, writer, session)?;
    flush(writer)
}

fn add(line: &mut LineBuffer, bytes: &[u8]) -> Result<(), ServeFault>
    ensures ok { OnOk result (line.new ≡ grown bytes.now line.old) }
    ensures err { IfErr result (λ e. e ≡ ServeFault.Memory) }
{
    match line.add(bytes) {
        Ok(()) => Ok(()),
        Err(AllocError) => Err(ServeFault::Memory),
    }
}

/// Answers a line, and writes its reply.
#[tactic(auto, using(crate::proofs::Served::write_keeps, crate::proofs::Sessions::kept_one))]
fn write_answer<T: Threads + Wait + Sync, W: Write, B: BookCalls + Send, S: Alter>(
    rt: &T,
    line: Line<'_>,
    reply: &mut Reply,
    writer: &mut W,
    session: &mut Session<B, S>,
) -> Result<(), ServeFault>
    requires here { session.old.is_failed ≡ false }
    ensures failed { session.new.is_failed ≡ serving_failed result }
    ensures answers { ServesLine result (bytes_of line.entry) (session_log B.log session.old) (session_log B.log session.new) (W.contents writer.old) (W.contents writer.new) }
    ensures no_memory { result ≡ Err ServeFault.Memory → ⊥ }
    ensures handed { KeepsOne (λ held. state S.Store held) (bytes_of line.entry) session.old.journal session.new.journal }
{
    match session.answer(rt, line, reply) {
        Ok(Answered::Told) => write_all(writer, reply.as_bytes()),
        Ok(Answered::Lost) => {
            tell_lost(writer);
            Err(ServeFault::Journal)
        }
        Err(AllocError) => write_all(writer, MEMORY),
    }
}

/// Answers that the steps of a round couldn't be written down. What the writer refuses then, nobody learns.
#[tactic(auto, using(crate::proofs::Served::part_kept))]
fn tell_lost<W: Write>(writer: &mut W)
    ensures { WritesPart lost_reply (W.contents writer.old) (W.contents writer.new) }
{
    let _ = write_all(writer, LOST);
    let _ = flush(writer);
}

/// Writes all of a reply, in as many calls as the writer needs. Takes no memory, and doesn't flush.
///
/// # Errors
///
/// `Write` where the writer refuses, for another cause than an interruption, or takes nothing: a beginning of the reply is written.
pub fn write_all<W: Write>(writer: &mut W, reply: &[u8]) -> Result<(), ServeFault>
    ensures { WritesReply result reply.now (W.contents writer.old) (W.contents writer.new) }
{
    let mut rest = reply;
    for _ in 0..u64::MAX {
        if rest.is_empty() {
            return Ok(());
        }
        match writer.write(rest) {
            Ok(0) => return Err(ServeFault::Write),
            Ok(count) => rest = &rest[count..],
            Err(error) => {
                if error.kind() != ErrorKind::Interrupted {
                    return Err(ServeFault::Write);
                }
            }
        }
    }
    Err(ServeFault::Write)
}

/// Flushes the writer.
///
/// # Errors
///
/// `Write` where the writer refuses.
pub fn flush<W: Write>(writer: &mut W) -> Result<(), ServeFault>
    ensures kept { Keeps (W.contents writer.old) (W.contents writer.new) }
    ensures err { IfErr result (λ e. e ≡ ServeFault.Write) }
{
    match writer.flush() {
        Ok(()) => Ok(()),
        Err(_) => Err(ServeFault::Write),
    }
}
