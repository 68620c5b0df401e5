// The commands that add an entry to a book.
use json_tree::{Json, Text};
use serde_json::Value;
use step_names::{StepName, ThreadName};

/// A command that adds an entry to a book.
#[derive(Drop)]
pub enum Change<'a> {
    Define {
        name: &'a Text,
        definition: &'a Value,
    },
    Start {
        exec: &'a ThreadName,
        machine: &'a Text,
        input: Json,
    },
    Step {
        thread: &'a ThreadName,
    },
    Undo {
        step: &'a StepName,
    },
    Rollback {
        step: &'a StepName,
    },
    Settle,
    Hold {
        step: &'a StepName,
    },
}
