// Lines, put together from the pieces in which they come.
ghost use Rattle.std.specs.Prelude.{◌≡◌, [], Some, OnOk, OnErr, option_map};
ghost use Rattle.operator_line.specs.Lines.{grown, within_limit, without_return, ended_line, last_line, bytes_of};

use std::alloc::{AllocError, Global};
use std::marker::Model;

/// The most bytes of a line without its end.
pub const LONGEST_LINE: usize = 1_048_576;

/// A line without its end.
#[derive(Clone, Copy, Debug)]
pub enum Line<'a> {
    /// All its bytes.
    Whole(&'a [u8]),
    /// It has more than [`LONGEST_LINE`] bytes, which weren't kept.
    TooLong,
}

/// What has come of a line so far. A line that is too long isn't kept.
#[derive(Drop)]
pub struct LineBuffer {
    bytes: Vec<u8>,
    is_too_long: bool,
}

impl Model for LineBuffer {
    ghost use Rattle.std.specs.Prelude.{ℕ, ◌≤◌, List, Option, None, Some, if◌then◌else◌, length};

    ghost Value = { Option (List ℕ) };

    ghost view = { λ a. if a.is_too_long then None else Some a.bytes.items };

    ghost invariant = { λ a. length a.bytes.items ≤ 1048577 };
}

impl LineBuffer {
    /// Nothing yet. Takes no memory.
    pub fn new(alloc: Global) -> LineBuffer
        ensures { result ≡ Some [] }
    {
        LineBuffer {
            bytes: Vec::new(alloc),
            is_too_long: false,
        }
    }

    /// Adds bytes of the line. Takes memory for them, and none for a line that is too long.
    pub fn add(&mut self, bytes: &[u8]) -> Result<(), AllocError>
        ensures ok { OnOk result (self.new ≡ grown bytes.now self.old) }
        ensures err { OnErr result (self.new ≡ self.old) }
    {
        if self.is_too_long {
            return Ok(());
        }
        if LONGEST_LINE + 1 - self.bytes.len() < bytes.len() {
            self.is_too_long = true;
            self.bytes.clear();
            return Ok(());
        }
        self.bytes.extend_from_slice(bytes)?;
        Ok(())
    }

    /// The line that a line feed ends: one carriage return before it is dropped.
    pub fn ended(&self) -> Line<'_>
        ensures { bytes_of result ≡ ended_line self.now }
    {
        if self.is_too_long {
            return Line::TooLong;
        }
        within_limit(without_return(self.bytes.as_slice()))
    }

    /// The line that the end of the input ends, if anything came of it.
    pub fn last(&self) -> Option<Line<'_>>
        ensures { option_map bytes_of result ≡ last_line self.now }
    {
        if self.is_too_long {
            Some(Line::TooLong)
        } else if self.bytes.is_empty() {
            None
        } else {
            Some(within_limit(self.bytes.as_slice()))
        }
    }

    /// Begins the next line.
    pub fn clear(&mut self)
        ensures { self.new ≡ Some [] }
    {
        self.bytes.clear();
        self.is_too_long = false;
    }
}

/// The bytes without one carriage return at their end.
fn without_return(bytes: &[u8]) -> &[u8]
    ensures { result.now ≡ without_return bytes.now }
{
    match bytes.strip_suffix(b"\r".as_slice()) {
        Some(front) => front,
        None => bytes,
    }
}

fn within_limit(line: &[u8]) -> Line<'_>
    ensures { bytes_of result ≡ within_limit line.now }
{
    if line.len() <= LONGEST_LINE {
        Line::Whole(line)
    } else {
        Line::TooLong
    }
}
