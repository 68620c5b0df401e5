// The definitions of machines, as their lines gave them.
use json_tree::Text;
use serde_json::Value;
use std::alloc::{AllocError, Global};
use std::collections::BTreeMap;

/// The definition of a machine: its text as the line gave it, and the value that this is.
#[derive(Drop)]
pub struct Definition {
    /// The number of its line.
    pub line: usize,
    pub text: String,
    pub value: Value,
}

/// The definitions of machines, by their names.
pub(crate) type Definitions = BTreeMap<Text, Definition>;

/// Keeps a definition. Takes memory for its text and its value; of a text that is no JSON nothing is kept.
pub(crate) fn keep(
    alloc: Global,
    definitions: &mut Definitions,
    name: &Text,
    text: &str,
    line: usize,
) -> Result<(), AllocError> {
    match Value::from_str(alloc, text) {
        Ok(value) => keep_value(alloc, definitions, name, text, line, value),
        Err(fault) => if fault.is_memory() {
            Err(AllocError)
        } else {
            Ok(())
        },
    }
}

fn keep_value(
    alloc: Global,
    definitions: &mut Definitions,
    name: &Text,
    text: &str,
    line: usize,
    value: Value,
) -> Result<(), AllocError> {
    let Ok((name, text)) = copies_of(alloc, name, text) else {
        drop(value);
        return Err(AllocError);
    };
    drop(definitions.insert(name, Definition { line, text, value })?);
    Ok(())
}

fn copies_of(alloc: Global, name: &Text, text: &str) -> Result<(Text, String), AllocError> {
    let name = name.copy()?;
    match String::from_str(alloc, text) {
        Ok(text) => Ok((name, text)),
        Err(AllocError) => {
            drop(name);
            Err(AllocError)
        }
    }
}
