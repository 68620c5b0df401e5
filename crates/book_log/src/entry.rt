// The commands that were accepted.
use crate::step_names_list::StepNames;
use asl_machine::machine_tree::SharedMachine;
use depends::steps::Kind;
use json_tree::{Json, Text};
use step_names::{StepName, ThreadName};

/// A command that was accepted, with its reply: a start's is the name `E#0`, a step's its name and kind, a rollback's the
/// names of the steps that it took back, the latest first, a hold's how many steps it holds. The others have none. After a
/// settlement none of the steps before it can be taken back.
#[derive(Debug, Drop)]
pub enum Entry {
    Define {
        name: Text,
        machine: SharedMachine,
    },
    Start {
        exec: ThreadName,
        machine: Text,
        input: Json,
    },
    Step {
        name: StepName,
        kind: Kind,
    },
    Undo {
        step: StepName,
    },
    Rollback {
        step: StepName,
        undone: StepNames,
    },
    Settle,
    Hold {
        step: StepName,
        count: usize,
    },
}
