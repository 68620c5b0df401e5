// Commands for which everything is made, so that to enter them takes no memory.
ghost use Rattle.std.specs.Prelude.{◌≡◌, IfOk};

use crate::hold::Hold;
use asl_machine::{Machine, SharedMachine};
use book_log::Entry;
use depends::Plan;
use json_tree::{Json, Text};
use std::alloc::{AllocError, Global};
use step_names::{StepName, ThreadName};

/// What a command does to a book beside its entry.
#[derive(Drop)]
pub enum MadeChange {
    Define { name: Text, machine: SharedMachine },
    Step(saved_steps::Made),
    Undo(usize),
    Rollback(Plan),
    Settle,
    Hold(Hold),
}

/// A command for which everything is made.
#[derive(Drop)]
pub struct Made {
    pub(crate) entry: Entry,
    pub(crate) change: MadeChange,
}

impl Made {
    /// The entry that the command will be, which holds its reply. Takes no memory.
    pub fn entry(&self) -> &Entry
        ensures { result.now ≡ self.now.entry }
    {
        &self.entry
    }
}

/// Makes all that a definition needs.
pub fn make_define(alloc: Global, name: &Text, machine: Machine) -> Result<Made, AllocError>
    ensures { IfOk result (λ m. m ≡ record { entry = Entry.Define name.now machine; change = MadeChange.Define name.now machine }) }
{
    let machine = SharedMachine::new(alloc, machine)?;
    let entry = Entry::Define {
        name: name.copy()?,
        machine: machine.share()?,
    };
    let name = name.copy()?;
    Ok(Made {
        entry,
        change: MadeChange::Define { name, machine },
    })
}

/// The entry of a start, and its name.
pub fn start_entry(
    exec: &ThreadName,
    machine: &Text,
    input: Json,
) -> Result<(Entry, StepName), AllocError>
    ensures { IfOk result (λ p. (p.0 ≡ Entry.Start exec.now machine.now input) × (p.1 ≡ record { thread = exec.now; no = 0 })) }
{
    let name = StepName {
        thread: exec.copy()?,
        no: 0,
    };
    let entry = Entry::Start {
        exec: exec.copy()?,
        machine: machine.copy()?,
        input,
    };
    Ok((entry, name))
}
