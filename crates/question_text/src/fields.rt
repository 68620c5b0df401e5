// The fields of an answer.
use json_tree::Json;

/// A field of an object that is not `null`.
pub(crate) fn field<'a>(json: &'a Json, name: &str) -> Option<&'a Json> {
    let Json::Fields(fields) = json else {
        return None;
    };
    match fields.get(name) {
        Some(Json::Null) | None => None,
        Some(value) => Some(value),
    }
}

/// The text of a field; an empty one if there is none.
pub(crate) fn text_in<'a>(json: &'a Json, name: &str) -> &'a str {
    match field(json, name) {
        Some(Json::Text(text)) => text.as_str(),
        _ => "",
    }
}

/// The number of a field; 0 if there is none.
pub(crate) fn number_in(json: &Json, name: &str) -> i64 {
    match field(json, name) {
        Some(Json::Whole(number)) => *number,
        _ => 0,
    }
}

pub(crate) fn is_true(json: &Json, name: &str) -> bool {
    matches!(field(json, name), Some(Json::Bool(true)))
}

/// The values of a field's list; none if there is none.
pub(crate) fn list_in<'a>(json: &'a Json, name: &str) -> &'a [Json] {
    match field(json, name) {
        Some(Json::List(list)) => list.as_slice(),
        _ => &[],
    }
}
