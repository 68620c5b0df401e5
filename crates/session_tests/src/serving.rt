//! How serving ends at a round whose lines the store refuses, at a writer that takes nothing, at a flush that fails, and if the reader would
//! be asked too often.
use crate::files::{FOREVER, Stopping, new_journal, new_journal_over};
use crate::streams::{Sink, Source};
use book_journal::Journal;
use operator_line::calls::BookCalls;
use operator_line::{MOST_READS, ServeFault, Session, serve, serve_at_most};
use std::alloc::Global;
use std::sync::Wait;
use std::thread::Threads;
use threaded_book::Book;

/// Serves with no promise, so that none need be read at each call.
fn run<T: Threads + Wait + Sync, B: BookCalls + Send>(
    rt: &T,
    alloc: Global,
    source: &mut Source<'_>,
    sink: &mut Sink,
    session: &mut Session<B, Stopping>,
) -> Result<(), ServeFault> {
    serve(rt, alloc, source, sink, session)
}

fn new_session<B: BookCalls>(alloc: Global, calls: u64) -> Option<Session<B, Stopping>> {
    session_of(alloc, new_journal(alloc, calls))
}

fn session_of<B: BookCalls>(
    alloc: Global,
    journal: Option<Journal<Stopping>>,
) -> Option<Session<B, Stopping>> {
    match journal {
        Some(journal) => Session::open(alloc, journal).ok(),
        None => None,
    }
}

fn entries_of<B: BookCalls>(session: &Session<B, Stopping>) -> Option<usize> {
    match session.book() {
        Some(book) => Some(book.entries().1.len()),
        None => None,
    }
}

const BEFORE: &[u8] =
    b"table items id:S []\ndefine t {\"StartAt\":\"P\",\"States\":{\"P\":{\"Type\":\"Pass\",\"Next\":\"Q\"},\"Q\":{\"Type\":\"Pass\",\"End\":true}}}\nstart a t {}\nstart b t {}\nstart c t {}\n";

const BEFORE_REPLIES: &[u8] = b"ok\nok\nok a#0\nok b#0\nok c#0\n";

const ROUND: &[u8] = b"work 2 100\nhistory\n";

/// How a round ended.
#[derive(Clone, Copy, Debug, PartialEq, Eq)]
enum Ending {
    /// The store stopped before it.
    NotBegun,
    Told,
    /// Its lines were refused.
    Lost,
}

fn is_begun<T: Threads + Wait + Sync, B: BookCalls + Send>(
    rt: &T,
    alloc: Global,
    session: &mut Session<B, Stopping>,
) -> bool {
    let mut source = Source { rest: BEFORE };
    let mut sink = Sink::new(alloc);
    let end = run(rt, alloc, &mut source, &mut sink, session);
    end == Ok(()) && sink.taken.as_slice() == BEFORE_REPLIES
}

/// Whether a session has failed, and reads and writes nothing.
fn is_gone<T: Threads + Wait + Sync, B: BookCalls + Send>(
    rt: &T,
    alloc: Global,
    session: &mut Session<B, Stopping>,
) -> bool {
    let mut source = Source { rest: ROUND };
    let mut sink = Sink::new(alloc);
    let end = run(rt, alloc, &mut source, &mut sink, session);
    end == Err(ServeFault::Journal)
        && source.rest.len() == ROUND.len()
        && sink.calls == 0
        && sink.flushes == 0
        && session.is_failed()
        && entries_of(session).is_none()
}

/// How a round ends; none if a promise is broken.
fn ended<T: Threads + Wait + Sync, B: BookCalls + Send>(
    rt: &T,
    alloc: Global,
    session: &mut Session<B, Stopping>,
) -> Option<Ending> {
    let mut source = Source { rest: ROUND };
    let mut sink = Sink::new(alloc);
    let end = run(rt, alloc, &mut source, &mut sink, session);
    let told = sink.taken.as_slice();
    if end == Ok(()) && told.starts_with(b"ok 6\n") && entries_of(session) == Some(10) {
        Some(Ending::Told)
    } else if end == Err(ServeFault::Journal)
        && told == b"no 24\n".as_slice()
        && is_gone(rt, alloc, session)
    {
        Some(Ending::Lost)
    } else {
        None
    }
}

/// The two files of a journal.
#[derive(Clone, Copy)]
enum Of {
    Log,
    Database,
}

/// How a round ends on a store of which one file stops; none if a promise is broken.
fn ended_on<T: Threads + Wait + Sync, B: BookCalls + Send>(
    rt: &T,
    alloc: Global,
    file: Of,
    calls: u64,
) -> Option<Ending> {
    let journal = match file {
        Of::Log => new_journal_over(alloc, calls, FOREVER),
        Of::Database => new_journal_over(alloc, FOREVER, calls),
    };
    match session_of::<B>(alloc, journal) {
        Some(mut session) => {
            let ending = if is_begun(rt, alloc, &mut session) {
                ended(rt, alloc, &mut session)
            } else {
                Some(Ending::NotBegun)
            };
            drop(session);
            ending
        }
        None => Some(Ending::NotBegun),
    }
}

/// At how many calls of a file a round is lost, until one is told.
fn losses<T: Threads + Wait + Sync, B: BookCalls + Send>(
    rt: &T,
    alloc: Global,
    file: Of,
) -> Option<usize> {
    let mut lost = 0usize;
    for calls in 0..1_000u64 {
        match ended_on::<T, B>(rt, alloc, file, calls)? {
            Ending::NotBegun => {}
            Ending::Told => return Some(lost),
            Ending::Lost => lost = lost.saturating_add(1),
        }
    }
    None
}

#[test]
fn a_lost_round_fails_the_session(rt: HostRuntime) {
    let lost = losses::<HostRuntime, Book>(&rt, rt.alloc(), Of::Log);
    assert!(rt; matches!(lost, Some(count) if 0 < count));
}

/// A round's lines are in the log by then, or all of them are refused.
#[test]
fn a_round_on_a_database_that_stops(rt: HostRuntime) {
    let lost = losses::<HostRuntime, Book>(&rt, rt.alloc(), Of::Database);
    assert!(rt; lost.is_some());
}

/// How serving ends, how many entries the log has then, and how often the writer was asked.
type Ended = (Result<(), ServeFault>, Option<usize>, usize);

fn ended_over<T: Threads + Wait + Sync, B: BookCalls + Send>(
    rt: &T,
    alloc: Global,
    session: &mut Session<B, Stopping>,
    takes: bool,
) -> Ended {
    let mut source = Source {
        rest: b"table items id:S []\nitems\n",
    };
    let mut sink = Sink::new(alloc);
    sink.takes = takes;
    sink.can_flush = false;
    let end = run(rt, alloc, &mut source, &mut sink, session);
    (end, entries_of(session), sink.calls)
}

/// The same of a new session, and a writer that takes all or nothing and can't be flushed.
fn ended_new<T: Threads + Wait + Sync, B: BookCalls + Send>(
    rt: &T,
    alloc: Global,
    takes: bool,
) -> Option<Ended> {
    match new_session::<B>(alloc, FOREVER) {
        Some(mut session) => {
            let ended = ended_over(rt, alloc, &mut session, takes);
            drop(session);
            Some(ended)
        }
        None => None,
    }
}

/// The command whose reply can't be written is kept, and the writer isn't asked again.
#[test]
fn a_writer_that_takes_nothing(rt: HostRuntime) {
    let ended = ended_new::<HostRuntime, Book>(&rt, rt.alloc(), false);
    assert!(rt; ended == Some((Err(ServeFault::Write), Some(0), 1)));
}

/// The commands before a flush that fails are kept.
#[test]
fn a_flush_that_fails(rt: HostRuntime) {
    let ended = ended_new::<HostRuntime, Book>(&rt, rt.alloc(), true);
    assert!(rt; matches!(ended, Some((Err(ServeFault::Write), Some(0), _))));
}

/// How serving ends that asks the reader at most so many times, and how many entries the log has then.
fn ended_within<T: Threads + Wait + Sync, B: BookCalls + Send>(
    rt: &T,
    alloc: Global,
    most: u32,
) -> Option<(Result<(), ServeFault>, Option<usize>)> {
    match new_session::<B>(alloc, FOREVER) {
        Some(mut session) => {
            let mut source = Source {
                rest: b"table items id:S []\nitems",
            };
            let mut sink = Sink::new(alloc);
            let end = serve_at_most(rt, alloc, most, &mut source, &mut sink, &mut session);
            let ended = (end, entries_of(&session));
            drop(session);
            Some(ended)
        }
        None => None,
    }
}

/// The reader is asked once more than there is input. With fewer calls the lines are kept that had ended.
#[test]
fn a_reader_that_is_asked_too_often(rt: HostRuntime) {
    let alloc = rt.alloc();
    assert!(rt; MOST_READS == u32::MAX);
    assert!(rt;
        ended_within::<HostRuntime, Book>(&rt, alloc, 0) == Some((Err(ServeFault::Read), None))
    );
    assert!(rt;
        ended_within::<HostRuntime, Book>(&rt, alloc, 1) == Some((Err(ServeFault::Read), Some(0)))
    );
    assert!(rt; ended_within::<HostRuntime, Book>(&rt, alloc, 2) == Some((Ok(()), Some(0))));
}
