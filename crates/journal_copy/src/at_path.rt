// A journal's files on the disk.
use crate::copied::{Copied, open_copy};
use crate::reading::{CopyFault, JournalFiles, read_still};
use sqlite::{Error, ErrorCode};
use std::alloc::{AllocError, Global};
use std::fs::{self, File};
use std::io::{self, Read};

/// A file and its log, by their names.
#[derive(Drop)]
struct FilesAt<'a> {
    rt: &'a HostRuntime,
    file: &'a str,
    log: &'a str,
}

impl JournalFiles for FilesAt<'_> {
    fn file(&mut self) -> io::Result<Vec<u8>> {
        fs::read(self.rt, self.file)
    }

    fn log(&mut self) -> io::Result<Vec<u8>> {
        none_if_absent(self.rt.alloc(), fs::read(self.rt, self.log))
    }

    fn log_head(&mut self, most: usize) -> io::Result<Vec<u8>> {
        none_if_absent(self.rt.alloc(), beginning_of(self.rt, self.log, most))
    }
}

/// Opens a copy in memory of the journal of a file that is there, and of its log. Reads both, and changes neither.
///
/// # Errors
///
/// `CannotOpen` if the file can't be read, `DatabaseBusy` if a session empties its log at each of a hundred tries, `OutOfMemory`, and as
/// the database answers the bytes.
pub fn open_at(rt: &HostRuntime, path: &str) -> Result<Copied, Error> {
    let log = match log_of(rt.alloc(), path) {
        Ok(log) => log,
        Err(AllocError) => return Err(Error::SqliteFailure(ErrorCode::OutOfMemory)),
    };
    let mut files = FilesAt {
        rt,
        file: path,
        log: log.as_str(),
    };
    match read_still(&mut files) {
        Ok(bytes) => open_copy(rt.alloc(), bytes),
        Err(CopyFault::Unread) => Err(Error::SqliteFailure(ErrorCode::CannotOpen)),
        Err(CopyFault::Moving) => Err(Error::SqliteFailure(ErrorCode::DatabaseBusy)),
        Err(CopyFault::Memory) => Err(Error::SqliteFailure(ErrorCode::OutOfMemory)),
    }
}

/// The name of a file's log.
fn log_of(alloc: Global, file: &str) -> Result<String, AllocError> {
    let mut log = String::from_str(alloc, file)?;
    log.push_str("-wal")?;
    Ok(log)
}

/// The first bytes of a file, up to so many.
fn beginning_of(rt: &HostRuntime, path: &str, most: usize) -> io::Result<Vec<u8>> {
    let file = File::open(rt, path)?;
    let mut bytes = Vec::new(rt.alloc());
    file.take(most as u64).read_to_end(&mut bytes)?;
    Ok(bytes)
}

fn none_if_absent(alloc: Global, bytes: io::Result<Vec<u8>>) -> io::Result<Vec<u8>> {
    match bytes {
        Ok(bytes) => Ok(bytes),
        Err(error) => match error.kind() {
            io::ErrorKind::NotFound => Ok(Vec::new(alloc)),
            _ => Err(error),
        },
    }
}
