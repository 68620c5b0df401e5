//! The parts of a name's text, read from the front.

ghost use Rattle.std.specs.Prelude.{◌≡◌, ℕ, ◌<◌, ◌≤◌, ◌==◌, [], ◌∷◌, length, None, Some, MatchOption, IfSome};
ghost use Rattle.std.specs.List.{slice_split, list_all};
ghost use Rattle.step_names.specs.Thread.{is_name, is_name_byte};
ghost use Rattle.step_names.specs.Grammar.{read_step_number, read_branch, read_path, read_thread};

use crate::path_buffer::PathBuffer;
use crate::thread::LONGEST_EXEC;

/// Whether the text is a NAME: 1 to 64 ASCII letters, digits, `_` and `-`. Takes time linear in it.
pub fn is_name(text: &str) -> bool
    ensures { result ≡ is_name text.now }
{
    let bytes = text.as_bytes();
    !bytes.is_empty() && bytes.len() <= LONGEST_EXEC && all_name_bytes(bytes)
}

fn all_name_bytes(bytes: &[u8]) -> bool
    ensures { result ≡ list_all is_name_byte bytes.now }
{
    bytes.iter().all(|c| is_name_byte(*c))
}

/// Whether a NAME may have the byte: an ASCII letter or digit, `_` or `-`.
pub fn is_name_byte(c: u8) -> bool
    ensures { result ≡ is_name_byte c }
{
    c.is_ascii_alphanumeric() || c == b'_' || c == b'-'
}

/// What stands before the first separator, and what after it.
pub fn cut(text: &str, separator: char) -> Option<(&str, &str)>
    requires { separator < 128 }
    ensures parts { MatchOption result (slice_split (λ b. b == separator) text.now ≡ text.now ∷ [])
        (λ x. slice_split (λ b. b == separator) text.now ≡ x.0.now ∷ slice_split (λ b. b == separator) x.1.now) }
    ensures shorter { IfSome result (λ x. length x.1.now < length text.now) }
{
    text.split_once(separator)
}

/// A number with no sign and no leading zero.
pub fn read_number(text: &str) -> Option<u32>
    ensures { result ≡ read_step_number text.now }
{
    let first = *text.as_bytes().first()?;
    if first == b'0' {
        return if text.len() == 1 { Some(0) } else { None };
    }
    if first == b'+' {
        return None;
    }
    text.parse::<u32>().ok()
}

/// A fork's number, a point and a branch's index.
fn read_branch(text: &str) -> Option<(u32, u32)>
    ensures { result ≡ read_branch text.now }
{
    let (fork, branch) = cut(text, '.')?;
    let fork = read_number(fork)?;
    let branch = read_number(branch)?;
    if fork == 0 {
        return None;
    }
    Some((fork, branch))
}

/// The branches of a name, parted by `/`. `None` also where they are too many.
fn read_path(text: &str) -> Option<PathBuffer>
    ensures { result ≡ read_path (slice_split (λ b. b == 47) text.now) }
{
    let mut path = PathBuffer::new();
    let mut rest = text;
    while let Some((branch, more)) = cut(rest, '/') {
        path.push(read_branch(branch)?)?;
        rest = more;
    }
    path.push(read_branch(rest)?)?;
    Some(path)
}

/// The execution's name and the branches, where the text names a thread.
pub fn read_parts(text: &str) -> Option<(&str, PathBuffer)>
    ensures { MatchOption result (read_thread text.now ≡ None) (λ p. read_thread text.now ≡ Some (record { exec = p.0.now; path = p.1 })) }
{
    let Some((exec, branches)) = cut(text, '/') else {
        return if is_name(text) {
            Some((text, PathBuffer::new()))
        } else {
            None
        };
    };
    let path = read_path(branches)?;
    if !is_name(exec) {
        return None;
    }
    Some((exec, path))
}
