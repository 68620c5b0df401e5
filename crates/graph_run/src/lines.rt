// The lines of a journal, and a session of none.
ghost use Rattle.std.specs.Prelude.{IfOk, IfErr, map, string_bytes};
ghost use Rattle.sqlite.specs.Held.{state};
ghost use Rattle.graph_run.specs.Reading.{GivesLines, GivesNoLines, Reads, ReadsNone};

use crate::running::{of_journal, of_open};
use book_journal::{Journal, JournalFault};
use graph_follower::Book;
use rollback_run::ExitFault;
use rollback_run::lines::Session;
use sqlite::{Alter, Connection, Error};
use std::alloc::Global;

/// The lines of a journal, which is let go. They stay as they are.
pub(crate) fn lines_of<S: Alter + Drop>(
    alloc: Global,
    connection: Result<Connection<S>, Error>,
) -> Result<Vec<String>, ExitFault>
    ensures ok { IfOk result (λ lines. Reads (λ held. state S.Store held) connection (map string_bytes lines.items)) }
    ensures err { IfErr result (ReadsNone (λ held. state S.Store held) connection) }
{
    match connection {
        Ok(connection) => lines_in(alloc, connection),
        Err(cause) => Err(of_journal(JournalFault::from(cause))),
    }
}

fn lines_in<S: Alter + Drop>(
    alloc: Global,
    connection: Connection<S>,
) -> Result<Vec<String>, ExitFault>
    ensures ok { IfOk result (λ lines. GivesLines (λ held. state S.Store held) connection (map string_bytes lines.items)) }
    ensures err { IfErr result (GivesNoLines (λ held. state S.Store held) connection) }
{
    let mut journal = match Journal::open(connection) {
        Ok(journal) => journal,
        Err((fault, _)) => return Err(of_journal(fault)),
    };
    let lines = journal.load(alloc);
    drop(journal);
    match lines {
        Ok(lines) => Ok(lines),
        Err(fault) => Err(of_journal(fault)),
    }
}

/// A session of no lines.
pub(crate) fn session_of<M: Alter + Drop>(
    alloc: Global,
    connection: Result<Connection<M>, Error>,
) -> Result<Session<Book, M>, ExitFault> {
    let connection = match connection {
        Ok(connection) => connection,
        Err(cause) => return Err(of_journal(JournalFault::from(cause))),
    };
    match Journal::open(connection) {
        Ok(journal) => match Session::open(alloc, journal) {
            Ok(session) => Ok(session),
            Err((fault, _)) => Err(of_open(fault)),
        },
        Err((fault, _)) => Err(of_journal(fault)),
    }
}
