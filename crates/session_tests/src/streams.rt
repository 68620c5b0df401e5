//! A reader and a writer that show what was asked of them.
use std::alloc::Global;
use std::io;
use std::io::{ErrorKind, Read, Write};

/// A reader of these bytes.
#[derive(Drop)]
pub(crate) struct Source<'a> {
    pub(crate) rest: &'a [u8],
}

impl Read for Source<'_> {
    fn read(&mut self, buf: &mut [u8]) -> io::Result<usize> {
        let count = buf.len().min(self.rest.len());
        let (given, rest) = self.rest.split_at(count);
        buf[..count].copy_from_slice(given);
        self.rest = rest;
        Ok(count)
    }
}

/// A writer that keeps what it takes, or takes nothing, counts the calls, and may fail at a flush.
#[derive(Drop)]
pub(crate) struct Sink {
    pub(crate) taken: Vec<u8>,
    pub(crate) calls: usize,
    pub(crate) flushes: usize,
    pub(crate) takes: bool,
    pub(crate) can_flush: bool,
}

impl Sink {
    pub(crate) fn new(alloc: Global) -> Sink {
        Sink {
            taken: Vec::new(alloc),
            calls: 0,
            flushes: 0,
            takes: true,
            can_flush: true,
        }
    }
}

impl Write for Sink {
    fn write(&mut self, buf: &[u8]) -> io::Result<usize> {
        self.calls = self.calls.saturating_add(1);
        if !self.takes {
            return Ok(0);
        }
        match self.taken.extend_from_slice(buf) {
            Ok(()) => Ok(buf.len()),
            Err(_) => Err(io::Error::from(ErrorKind::OutOfMemory)),
        }
    }

    fn flush(&mut self) -> io::Result<()> {
        self.flushes = self.flushes.saturating_add(1);
        if self.can_flush {
            Ok(())
        } else {
            Err(io::Error::from(ErrorKind::Other))
        }
    }
}
