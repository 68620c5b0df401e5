// Following the lines of an input, behind those of a file, over any streams and any stores.
use crate::lines::{lines_of, session_of};
use graph_follower::{FollowFault, Followed, follow_behind};
use rollback_run::ExitFault;
use rollback_run::lines::ServeFault;
use sqlite::{Alter, Connection, Error};
use std::alloc::Global;
use std::io::{BufRead, Write};
use std::sync::Wait;
use std::thread::Threads;

/// Follows the lines of a reader, behind those of a journal if there is one, and answers the questions there. The journal is read once,
/// and its lines stay as they are; the book has one of its own, in memory. Takes what each line takes, and what [`follow_behind`] takes.
///
/// # Errors
///
/// As the journal gives no book, and if the input can't be read, the output can't be written or memory is refused.
pub fn serve<T: Threads + Wait + Sync, S: Alter + Drop, M: Alter + Drop, R: BufRead, W: Write>(
    rt: &T,
    alloc: Global,
    file: Option<Result<Connection<S>, Error>>,
    memory: Result<Connection<M>, Error>,
    reader: &mut R,
    writer: &mut W,
) -> Result<(), ExitFault> {
    match lines_at(alloc, file) {
        Ok(lines) => serve_behind(rt, alloc, lines.as_slice(), memory, reader, writer),
        Err(cause) => {
            drop(memory);
            Err(cause)
        }
    }
}

/// The lines of a file's journal; none if no file is named.
fn lines_at<S: Alter + Drop>(
    alloc: Global,
    file: Option<Result<Connection<S>, Error>>,
) -> Result<Vec<String>, ExitFault> {
    match file {
        Some(connection) => lines_of(alloc, connection),
        None => Ok(Vec::new(alloc)),
    }
}

fn serve_behind<T: Threads + Wait + Sync, M: Alter + Drop, R: BufRead, W: Write>(
    rt: &T,
    alloc: Global,
    lines: &[String],
    memory: Result<Connection<M>, Error>,
    reader: &mut R,
    writer: &mut W,
) -> Result<(), ExitFault> {
    match session_of(alloc, memory) {
        Ok(session) => match follow_behind(rt, alloc, session, lines, reader, writer) {
            Ok(()) => Ok(()),
            Err(fault) => Err(of_follow(fault)),
        },
        Err(cause) => Err(cause),
    }
}

pub(crate) fn of_follow(fault: FollowFault) -> ExitFault {
    match fault {
        FollowFault::Read => ExitFault::Input,
        FollowFault::Write => ExitFault::Output,
        FollowFault::Refused(place) => ExitFault::Damaged(place),
        FollowFault::NoQuestion => ExitFault::Memory,
        FollowFault::Followed(fault) => of_followed(fault),
    }
}

fn of_followed(fault: Followed) -> ExitFault {
    match fault {
        Followed::Lost | Followed::Failed(ServeFault::Memory) => ExitFault::Memory,
        Followed::Failed(ServeFault::Read) => ExitFault::Input,
        Followed::Failed(ServeFault::Write) => ExitFault::Output,
        Followed::Failed(ServeFault::Journal) => ExitFault::Store,
    }
}
