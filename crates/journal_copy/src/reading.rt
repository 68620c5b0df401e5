// Reading a file and its log so that they are of one moment.
ghost use Rattle.std.specs.Prelude.{◌≡◌, take, if◌then◌else◌, Some, None};
ghost use Rattle.journal_copy.specs.Moment.{is_still};

use std::io;

/// How often reading begins anew at most, if the log is emptied meanwhile.
const TRIES: u32 = 100;

/// The bytes of a log's header (SQLite, file format, section 4.1): with two salts, which change when the log is emptied.
const HEADER: usize = 32;

/// Where a journal's bytes come from.
pub trait JournalFiles {
    /// All bytes of the file.
    fn file(&mut self) -> io::Result<Vec<u8>>;

    /// All bytes of its log; none if there is no log.
    fn log(&mut self) -> io::Result<Vec<u8>>;

    /// The first bytes of the log, up to so many.
    fn log_head(&mut self, most: usize) -> io::Result<Vec<u8>>;
}

/// The bytes of a journal's file and of its log.
#[derive(Debug, Drop)]
pub struct JournalBytes {
    pub file: Vec<u8>,
    pub log: Vec<u8>,
}

impl JournalBytes {
    /// The bytes of a file and then of its log, if these are of one moment: the header of the log was the same before and after, and it is that
    /// of the log that was read. A log that is shorter than a header is all of it. Takes no memory.
    pub fn of_moment(
        before: &[u8],
        file: Vec<u8>,
        log: Vec<u8>,
        after: &[u8],
    ) -> Option<JournalBytes>
        ensures { result ≡ (if is_still before.now log.items after.now then Some (record { file = file; log = log }) else None) }
    {
        if before == after && before == head_of(log.as_slice()) {
            Some(JournalBytes { file, log })
        } else {
            None
        }
    }
}

/// Why there are none.
#[derive(Clone, Copy, Debug, PartialEq, Eq)]
pub enum CopyFault {
    /// A file can't be read.
    Unread,
    /// The log was emptied at each try, while it was read.
    Moving,
    /// Memory was refused.
    Memory,
}

/// Reads a file and its log as they are at one moment, also while a session appends to the log. Reads both once, and again if the log was
/// emptied meanwhile.
///
/// A session only appends to its log, and empties it after it has copied all of it into the file. So if the log has the same header before
/// and after, the pages that the file lacked, or had half, are in the log that was read.
///
/// # Errors
///
/// `Unread`; `Moving` after 100 tries; `Memory`.
pub fn read_still<F: JournalFiles>(files: &mut F) -> Result<JournalBytes, CopyFault> {
    for _ in 0..TRIES {
        if let Some(bytes) = read_once(files)? {
            return Ok(bytes);
        }
    }
    Err(CopyFault::Moving)
}

/// The bytes, if the log wasn't emptied while they were read.
fn read_once<F: JournalFiles>(files: &mut F) -> Result<Option<JournalBytes>, CopyFault> {
    let before = of_read(files.log_head(HEADER))?;
    let file = of_read(files.file())?;
    let log = of_read(files.log())?;
    let after = of_read(files.log_head(HEADER))?;
    Ok(JournalBytes::of_moment(before.as_slice(), file, log, after.as_slice()))
}

fn head_of(log: &[u8]) -> &[u8]
    ensures { result.now ≡ take 32 log.now }
{
    if log.len() < HEADER {
        log
    } else {
        &log[..HEADER]
    }
}

fn of_read(bytes: io::Result<Vec<u8>>) -> Result<Vec<u8>, CopyFault> {
    match bytes {
        Ok(bytes) => Ok(bytes),
        Err(error) => match error.kind() {
            io::ErrorKind::OutOfMemory => Err(CopyFault::Memory),
            _ => Err(CopyFault::Unread),
        },
    }
}
