//! Reading a path's text.

ghost use Rattle.std.specs.Prelude.{◌≡◌, ◌≢◌, ◌<◌, ◌≤◌, ◌∷◌, ◌++◌, [], true, false, length, take, slice_index, None, Some, Err, IsTrue, MatchOption, IfOk, IfErr};
ghost use Rattle.std.specs.List.{list_all};
ghost use Rattle.ref_paths.specs.Faults.{FaultStands, StepFaultStands};
ghost use Rattle.ref_paths.specs.Grammar.{is_path_name_byte, is_quotable, SpellsPath};
ghost use Rattle.ref_paths.specs.Scanner.{ReadsStep, IsIndexSoFar, extended};

use crate::path::{PathStep, RefPath};
use json_tree::Text;
use std::alloc::{AllocError, AllocFailed, Global};
use thiserror::Error;

/// Why a text is read as no path.
#[derive(Clone, Copy, Debug, Drop, PartialEq, Eq, Error)]
pub enum PathFault {
    /// It is no path. The number is the length in bytes of the longest beginning of the text that also begins some path.
    #[error("no path from byte {0} on")]
    BadPath(usize),
    /// An allocation was refused.
    #[error("out of memory")]
    Memory,
}

impl From<AllocError> for PathFault {
    ghost use Rattle.std.specs.Prelude.{◌≡◌};
    ghost use Rattle.ref_paths.specs.declared.reading.PathFault.TheVariants.{Memory};

    ghost from_gives = { λ _ e. e ≡ Memory };

    fn from(_refused: AllocError) -> PathFault {
        PathFault::Memory
    }
}

impl<T: Drop> From<AllocFailed<T>> for PathFault {
    ghost use Rattle.std.specs.Prelude.{◌≡◌};
    ghost use Rattle.ref_paths.specs.declared.reading.PathFault.TheVariants.{Memory};

    ghost from_gives = { λ _ e. e ≡ Memory };

    fn from(_refused: AllocFailed<T>) -> PathFault {
        PathFault::from(AllocError)
    }
}

impl RefPath {
    /// Reads a path: `$`, then `.name`, `['name']` or `[n]` any number of times. A name after a point is one or more of
    /// ASCII letters, digits, `_`, `-` and characters past ASCII; a quoted one is any characters but `'`, with no
    /// escapes; an index is `0`, or digits that don't begin with `0`, and at most 4,294,967,295. Goes over the text
    /// once, and takes memory for the list of steps and for each name.
    pub fn read(alloc: Global, text: &str) -> Result<RefPath, PathFault>
        ensures ok { IfOk result (λ p. SpellsPath p text.now) }
        ensures err { IfErr result (FaultStands text.now) }
        ensures memory { result ≡ Err PathFault.Memory → (0 < length text.now) × (slice_index text.now 0 ≡ 36) }
    {
        if !begins_with(text.as_bytes(), b'$') {
            return Err(PathFault::BadPath(0));
        }
        read_steps(alloc, &text[1..])
    }
}

/// The path whose text is `$` and then this one. A refusal counts from that `$`.
pub(crate) fn read_steps(alloc: Global, text: &str) -> Result<RefPath, PathFault>
    ensures ok { IfOk result (λ p. SpellsPath p (36 ∷ text.now)) }
    ensures err { IfErr result (FaultStands (36 ∷ text.now)) }
{
    let mut rest = text;
    let mut steps = Vec::new(alloc);
    while !rest.is_empty() {
        match read_step(alloc, rest) {
            Ok((step, after)) => {
                steps.push(step)?;
                rest = after;
            }
            Err(PathFault::BadPath(at)) => {
                return Err(PathFault::BadPath(text.len() - rest.len() + 1 + at));
            }
            Err(PathFault::Memory) => return Err(PathFault::Memory),
        }
    }
    Ok(RefPath { steps })
}

/// The first step of a text, and what follows it. A refusal counts from the text's begin.
fn read_step(alloc: Global, text: &str) -> Result<(PathStep, &str), PathFault>
    requires { 0 < length text.now }
    ensures ok { IfOk result (λ r. ReadsStep text.now r.0 r.1.now) }
    ensures err { IfErr result (StepFaultStands text.now) }
{
    if begins_with(text.as_bytes(), b'.') {
        return read_name(alloc, &text[1..]);
    }
    if !begins_with(text.as_bytes(), b'[') {
        return Err(PathFault::BadPath(0));
    }
    let inside = &text[1..];
    if begins_with(inside.as_bytes(), b'\'') {
        return read_quoted_name(alloc, &inside[1..]);
    }
    read_index(inside)
}

fn begins_with(bytes: &[u8], first: u8) -> bool
    ensures yes { IsTrue result → (0 < length bytes.now) × (slice_index bytes.now 0 ≡ first) }
    ensures no { result ≡ false → 0 < length bytes.now → slice_index bytes.now 0 ≢ first }
{
    !bytes.is_empty() && bytes[0] == first
}

/// A name that comes after a point.
fn read_name(alloc: Global, text: &str) -> Result<(PathStep, &str), PathFault>
    ensures ok { IfOk result (λ r. ReadsStep (46 ∷ text.now) r.0 r.1.now) }
    ensures err { IfErr result (StepFaultStands (46 ∷ text.now)) }
{
    let end = name_len(text.as_bytes());
    if end == 0 {
        return Err(PathFault::BadPath(1));
    }
    let name = Text::new(alloc, &text[..end])?;
    Ok((PathStep::Name(name), &text[end..]))
}

/// How many bytes of a name the bytes begin with.
fn name_len(bytes: &[u8]) -> usize
    ensures within { result ≤ length bytes.now }
    ensures names { list_all is_path_name_byte (take result bytes.now) ≡ true }
    ensures stops { result < length bytes.now → is_path_name_byte (slice_index bytes.now result) ≡ false }
{
    for (i, byte) in bytes.iter().enumerate() {
        if !is_name_byte(*byte) {
            return i;
        }
    }
    bytes.len()
}

fn is_name_byte(byte: u8) -> bool
    ensures { result ≡ is_path_name_byte byte }
{
    byte.is_ascii_alphanumeric() || byte == b'_' || byte == b'-' || byte >= 128
}

/// A name that comes after `['`.
fn read_quoted_name(alloc: Global, text: &str) -> Result<(PathStep, &str), PathFault>
    ensures ok { IfOk result (λ r. ReadsStep (91 ∷ 39 ∷ text.now) r.0 r.1.now) }
    ensures err { IfErr result (StepFaultStands (91 ∷ 39 ∷ text.now)) }
{
    let Some((name, rest)) = cut_at_quote(text) else {
        return Err(PathFault::BadPath(text.len() + 2));
    };
    if !begins_with(rest.as_bytes(), b']') {
        return Err(PathFault::BadPath(name.len() + 3));
    }
    let name = Text::new(alloc, name)?;
    Ok((PathStep::Name(name), &rest[1..]))
}

/// What stands before the first `'`, and what after it.
fn cut_at_quote(text: &str) -> Option<(&str, &str)>
    ensures { MatchOption result (list_all is_quotable text.now ≡ true) (λ x. (text.now ≡ x.0.now ++ 39 ∷ x.1.now) × (list_all is_quotable x.0.now ≡ true)) }
{
    text.split_once('\'')
}

/// An index that comes after `[`.
fn read_index(text: &str) -> Result<(PathStep, &str), PathFault>
    requires { 0 < length text.now → slice_index text.now 0 ≢ 39 }
    ensures ok { IfOk result (λ r. ReadsStep (91 ∷ text.now) r.0 r.1.now) }
    ensures err { IfErr result (StepFaultStands (91 ∷ text.now)) }
{
    let bytes = text.as_bytes();
    let (index, end) = read_digits(bytes);
    match index {
        Some(index) if end < bytes.len() && bytes[end] == b']' => {
            Ok((PathStep::Index(index), &text[end + 1..]))
        }
        _ => Err(PathFault::BadPath(end + 1)),
    }
}

/// The index that the bytes begin with, and how many digits it has.
fn read_digits(bytes: &[u8]) -> (Option<u32>, usize)
    ensures within { result.1 ≤ length bytes.now }
    ensures numeral { IsIndexSoFar result.0 (take result.1 bytes.now) }
    ensures stops { result.1 < length bytes.now → extended result.0 (slice_index bytes.now result.1) ≡ None }
{
    let mut index = None;
    for (end, byte) in bytes.iter().enumerate() {
        match with_digit(index, *byte) {
            Some(longer) => index = Some(longer),
            None => return (index, end),
        }
    }
    (index, bytes.len())
}

/// The index with one digit more. `None` also where it began with 0 or grows too large.
fn with_digit(index: Option<u32>, byte: u8) -> Option<u32>
    ensures { result ≡ extended index byte }
{
    if !byte.is_ascii_digit() {
        return None;
    }
    let digit = u32::from(byte - b'0');
    match index {
        None => Some(digit),
        Some(0) => None,
        Some(index) => index.checked_mul(10)?.checked_add(digit),
    }
}
