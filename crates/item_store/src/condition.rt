//! Reading a condition's text.

ghost use Rattle.std.specs.Prelude.{◌≡◌, ◌<◌, false, length, slice_index, IsTrue, option_map, MatchOption, None, Some};
ghost use Rattle.std.specs.List.{list_all};
ghost use Rattle.item_store.specs.Condition.{after_spaces, condition_attribute, condition_of, cut_at_byte, is_attribute_name, is_condition_name_byte, is_space, condition_kind_of};
ghost use Rattle.item_store.specs.Lent.{condition_seen};

use crate::call::ConditionKind;

/// A condition that is read and not copied: its function, and the attribute's name.
#[derive(Clone, Copy, Drop)]
pub(crate) struct LentCondition<'a> {
    pub kind: ConditionKind,
    pub attribute: &'a str,
}

/// The condition that a text writes, if any. Goes over the text at most three times, and takes no memory.
pub(crate) fn read_condition(text: &str) -> Option<LentCondition<'_>>
    ensures { option_map condition_seen result ≡ condition_of text.now }
{
    let (function, rest) = cut(text, '(')?;
    let (inside, tail) = cut(rest, ')')?;
    let kind = kind_of(after_spaces(function))?;
    if !all_spaces(tail) {
        return None;
    }
    let attribute = attribute_of(inside)?;
    Some(LentCondition { kind, attribute })
}

fn kind_of(name: &str) -> Option<ConditionKind>
    ensures { result ≡ condition_kind_of name.now }
{
    match name {
        "attribute_exists" => Some(ConditionKind::Exists),
        "attribute_not_exists" => Some(ConditionKind::NotExists),
        _ => None,
    }
}

/// A name with spaces round it.
fn attribute_of(text: &str) -> Option<&str>
    ensures { option_map (λ s. s.now) result ≡ condition_attribute text.now }
{
    let text = after_spaces(text);
    match cut(text, ' ') {
        None if is_attribute_name(text) => Some(text),
        Some((name, tail)) if is_attribute_name(name) && all_spaces(tail) => Some(name),
        _ => None,
    }
}

/// What stands before the first separator, and what after it.
fn cut(text: &str, separator: char) -> Option<(&str, &str)>
    requires { separator < 128 }
    ensures { MatchOption result (cut_at_byte separator text.now ≡ None) (λ x. cut_at_byte separator text.now ≡ Some (x.0.now, x.1.now)) }
{
    text.split_once(separator)
}

/// A text after its first spaces.
fn after_spaces(text: &str) -> &str
    ensures { result.now ≡ after_spaces text.now }
{
    let mut rest = text;
    while begins_with_space(rest) {
        rest = &rest[1..];
    }
    rest
}

fn begins_with_space(text: &str) -> bool
    ensures yes { IsTrue result → (0 < length text.now) × (slice_index text.now 0 ≡ 32) }
    ensures no { result ≡ false → after_spaces text.now ≡ text.now }
{
    let bytes = text.as_bytes();
    !bytes.is_empty() && bytes[0] == b' '
}

fn all_spaces(text: &str) -> bool
    ensures { result ≡ list_all is_space text.now }
{
    text.as_bytes().iter().all(|c| *c == b' ')
}

/// A letter, and then letters, digits and `_`.
fn is_attribute_name(text: &str) -> bool
    ensures { result ≡ is_attribute_name text.now }
{
    match text.as_bytes() {
        [first, rest @ ..] => first.is_ascii_alphabetic() && all_name_bytes(rest),
        [] => false,
    }
}

fn all_name_bytes(bytes: &[u8]) -> bool
    ensures { result ≡ list_all is_condition_name_byte bytes.now }
{
    bytes.iter().all(|c| is_name_byte(*c))
}

fn is_name_byte(c: u8) -> bool
    ensures { result ≡ is_condition_name_byte c }
{
    c.is_ascii_alphanumeric() || c == b'_'
}
