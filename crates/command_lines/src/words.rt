// The words of a line.
ghost use Rattle.std.specs.Prelude.{◌≡◌, ◌<◌, ◌==◌, not, None, Some, MatchOption, option_map};
ghost use Rattle.std.specs.List.{list_all};
ghost use Rattle.command_lines.specs.Grammar.{is_one_line, is_table_name, is_table_name_byte, cut_at, first_word, key_attribute_in, attribute_of};

use attr_values::KeyType;
use step_names::is_name_byte;

/// The most bytes of a line without its end.
pub const LONGEST_LINE: usize = 1_048_576;

/// Whether a text is short enough for a line, and no line feed ends one in it.
pub(crate) fn is_one_line(bytes: &[u8]) -> bool
    ensures { result ≡ is_one_line bytes.now }
{
    bytes.len() <= LONGEST_LINE && has_no_feed(bytes)
}

fn has_no_feed(bytes: &[u8]) -> bool
    ensures { result ≡ list_all (λ b. not (b == 10)) bytes.now }
{
    bytes.iter().all(|b| *b != b'\n')
}

/// A key's name and type.
#[derive(Clone, Copy)]
pub(crate) struct KeyWord<'a> {
    pub(crate) name: &'a str,
    pub(crate) kind: KeyType,
}

/// TABLE_NAME: bytes of a NAME and points, at least one and at most 255.
pub(crate) fn is_table_name(word: &str) -> bool
    ensures { result ≡ is_table_name word.now }
{
    let bytes = word.as_bytes();
    !bytes.is_empty() && bytes.len() <= 255 && all_table_name_bytes(bytes)
}

fn all_table_name_bytes(bytes: &[u8]) -> bool
    ensures { result ≡ list_all is_table_name_byte bytes.now }
{
    bytes.iter().all(|b| is_name_byte(*b) || *b == b'.')
}

/// What stands before the first separator, and what after it.
pub(crate) fn cut(text: &str, separator: char) -> Option<(&str, &str)>
    requires { separator < 128 }
    ensures { MatchOption result (cut_at separator text.now ≡ None) (λ x. cut_at separator text.now ≡ Some (x.0.now, x.1.now)) }
{
    text.split_once(separator)
}

/// The first word, which is all of a text that has no space.
pub(crate) fn first_word(text: &str) -> &str
    ensures { result.now ≡ first_word text.now }
{
    match cut(text, ' ') {
        Some((word, _)) => word,
        None => text,
    }
}

/// A key, where a word is a name, a colon and `S` or `N`. The name isn't empty, and has no `[` in front.
pub(crate) fn read_key(word: &str) -> Option<KeyWord<'_>>
    ensures { option_map attribute_of result ≡ key_attribute_in word.now }
{
    let (name, kind) = cut(word, ':')?;
    if name.is_empty() || name.starts_with('[') {
        return None;
    }
    let kind = match kind {
        "S" => KeyType::S,
        "N" => KeyType::N,
        _ => return None,
    };
    Some(KeyWord { name, kind })
}
