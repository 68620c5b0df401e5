// The commonest short texts, which are read without `serde_json`: it clears a window of 16 KB for each text.
ghost use Rattle.std.specs.Prelude.{[], ◌≡◌, ◌≤◌, IfSome, Some};
ghost use Rattle.std.specs.Fmt.{signed_decimal};
ghost use Rattle.json_tree.specs.Data.{depth, most_levels};
ghost use Rattle.json_tree.specs.Reading.{read_json};
ghost use Rattle.json_tree.specs.View.{data_of};

use crate::text::Text;
use crate::tree::{Json, JsonFields, JsonList};
use std::alloc::Global;
use std::str;

/// A whole number of more digits is left to `serde_json`.
const MOST_DIGITS: usize = 18;

/// What is read of `{}`, `[]`, `""`, `null`, `true`, `false`, or of a whole number of at most 18 digits with no sign. Of any
/// other text nothing is known after a few steps. Takes no memory.
pub(crate) fn read_common(alloc: Global, bytes: &[u8]) -> Option<Json>
    ensures value { IfSome result (λ j. read_json bytes.now ≡ Some (data_of j)) }
    ensures nests { IfSome result (λ j. depth (data_of j) ≤ most_levels) }
{
    match bytes {
        b"{}" => Some(Json::Fields(JsonFields::new(alloc))),
        b"[]" => Some(Json::List(JsonList::new(alloc))),
        b"\"\"" => empty_text(alloc),
        b"null" => Some(Json::Null),
        b"true" => Some(Json::Bool(true)),
        b"false" => Some(Json::Bool(false)),
        _ => match whole_number(bytes) {
            Some(number) => Some(Json::Whole(number)),
            None => None,
        },
    }
}

fn empty_text(alloc: Global) -> Option<Json>
    ensures { IfSome result (λ j. j ≡ Json.Text []) }
{
    match Text::new(alloc, "") {
        Ok(text) => Some(Json::Text(text)),
        Err(_) => None,
    }
}

/// The number whose digits these are: they do not begin with a zero that says nothing.
fn whole_number(bytes: &[u8]) -> Option<i64>
    ensures { IfSome result (λ n. bytes.now ≡ signed_decimal n) }
{
    let [first, ..] = bytes else {
        return None;
    };
    if !first.is_ascii_digit() || bytes.len() > MOST_DIGITS {
        return None;
    }
    if *first == b'0' && bytes.len() > 1 {
        return None;
    }
    let Ok(text) = str::from_utf8(bytes) else {
        return None;
    };
    text.parse::<i64>().ok()
}
