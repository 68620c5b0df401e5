// A connection over files in memory.
ghost use Rattle.std.specs.Prelude.{IfOk, IsTrue};
ghost use Rattle.sqlite_disk.specs.Memory.{memory_is_usable};

use crate::reading::JournalBytes;
use sqlite::{Connection, Error, ErrorCode, FileStore, Files, Options};
use sqlite_disk::{Disk, Memory};
use std::alloc::Global;

/// A connection over files in memory.
pub type Copied = Connection<FileStore<Memory>>;

/// Any seed serves: who reads the files in memory can't foresee their bytes any less.
const SEED: u64 = 1;

/// Opens a journal's bytes as a file and its log in memory.
///
/// # Errors
///
/// As the database answers them, and `OutOfMemory`.
pub fn open_copy(alloc: Global, bytes: JournalBytes) -> Result<Copied, Error> {
    let JournalBytes { file, log } = bytes;
    let db = memory_of(alloc, file.as_slice())?;
    let log = memory_of(alloc, log.as_slice())?;
    match Connection::open_files(alloc, Files { log, db }, Options::new(SEED)) {
        Ok(connection) => Ok(connection),
        Err((error, left)) => {
            drop(left);
            Err(error)
        }
    }
}

/// A file in memory with these bytes.
fn memory_of(alloc: Global, bytes: &[u8]) -> Result<Memory, Error>
    ensures usable { IfOk result (λ m. IsTrue (memory_is_usable m)) }
{
    let mut memory = Memory::new(alloc);
    match memory.write_at(0, bytes) {
        Ok(()) => Ok(memory),
        Err(_) => Err(Error::SqliteFailure(ErrorCode::OutOfMemory)),
    }
}
