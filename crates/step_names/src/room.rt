ghost use Rattle.std.specs.Prelude.{◌≡◌, ◌≤◌, string_len, vec_len, vec_capacity};
ghost use Rattle.std.specs.String.{string_capacity};

use crate::exec_name::ExecName;
use crate::path_buffer::MOST_BRANCHES;
use crate::step::StepName;
use crate::thread::{LONGEST_EXEC, ThreadName};
use std::alloc::{AllocError, Global};

/// Room for any name, asked for beforehand: a name is copied into it with no memory.
#[derive(Debug, Drop)]
pub struct NameRoom {
    exec: String,
    path: Vec<(u32, u32)>,
    ghost exec_room: { 64 ≤ string_capacity exec },
    ghost exec_empty: { string_len exec ≡ 0 },
    ghost path_room: { 31 ≤ vec_capacity path },
    ghost path_empty: { vec_len path ≡ 0 },
}

impl NameRoom {
    /// Takes two blocks of memory, of 64 bytes and of 31 pairs.
    pub fn new(alloc: Global) -> Result<NameRoom, AllocError> {
        let exec = String::with_capacity(alloc, LONGEST_EXEC)?;
        let path = Vec::with_capacity(alloc, MOST_BRANCHES)?;
        Ok(NameRoom { exec, path })
    }

    /// A copy of a thread's name, in this room. Takes no memory.
    pub fn thread(self, name: &ThreadName) -> ThreadName
        ensures { result ≡ name.now }
    {
        let NameRoom { mut exec, mut path } = self;
        let _ = exec.push_str(name.exec());
        let _ = path.extend_from_slice(name.path());
        ThreadName::from_parts(ExecName::roomed(exec), path)
    }

    /// A copy of a step's name, in this room. Takes no memory.
    pub fn step(self, name: &StepName) -> StepName
        ensures { result ≡ name.now }
    {
        StepName {
            thread: self.thread(&name.thread),
            no: name.no,
        }
    }
}
