// What a book begins with.
use attr_values::KeySchema;
use json_tree::{JsonList, Text};

/// What a book begins with: the table's name, the attributes of its keys, and its items as they were given, one object an
/// item. A later item of a key replaces an earlier one.
#[derive(Debug, Drop)]
pub struct Begin {
    pub table: Text,
    pub schema: KeySchema,
    pub items: JsonList,
}
