// Copies of entries, which share their machines, their inputs and the names of a rollback.
ghost use Rattle.std.specs.Prelude.{◌≡◌, IfOk};

use crate::entry::Entry;
use crate::step_names_list::StepNames;
use asl_machine::machine_tree::SharedMachine;
use depends::steps::Kind;
use json_tree::{Json, Text};
use std::alloc::AllocError;
use step_names::{StepName, ThreadName};

impl Entry {
    /// An equal entry, which shares its machine, its input and the names that a rollback undid. Takes memory for other names.
    pub fn copy(&self) -> Result<Entry, AllocError>
        ensures { IfOk result (λ e. e ≡ self.now) }
    {
        match self {
            Entry::Define { name, machine } => copy_define(name, machine),
            Entry::Start {
                exec,
                machine,
                input,
            } => copy_start(exec, machine, input),
            Entry::Step { name, kind } => copy_step(name, *kind),
            Entry::Undo { step } => Ok(Entry::Undo { step: step.copy()? }),
            Entry::Rollback { step, undone } => copy_rollback(step, undone),
            Entry::Settle => Ok(Entry::Settle),
            Entry::Hold { step, count } => copy_hold(step, *count),
        }
    }
}

fn copy_define(name: &Text, machine: &SharedMachine) -> Result<Entry, AllocError>
    ensures { IfOk result (λ e. e ≡ Entry.Define name.now machine.now) }
{
    let name = name.copy()?;
    let machine = machine.share()?;
    Ok(Entry::Define { name, machine })
}

fn copy_start(exec: &ThreadName, machine: &Text, input: &Json) -> Result<Entry, AllocError>
    ensures { IfOk result (λ e. e ≡ Entry.Start exec.now machine.now input.now) }
{
    let exec = exec.copy()?;
    let machine = machine.copy()?;
    let input = input.copy()?;
    Ok(Entry::Start {
        exec,
        machine,
        input,
    })
}

fn copy_step(name: &StepName, kind: Kind) -> Result<Entry, AllocError>
    ensures { IfOk result (λ e. e ≡ Entry.Step name.now kind) }
{
    let name = name.copy()?;
    Ok(Entry::Step { name, kind })
}

fn copy_hold(step: &StepName, count: usize) -> Result<Entry, AllocError>
    ensures { IfOk result (λ e. e ≡ Entry.Hold step.now count) }
{
    let step = step.copy()?;
    Ok(Entry::Hold { step, count })
}

fn copy_rollback(step: &StepName, undone: &StepNames) -> Result<Entry, AllocError>
    ensures { IfOk result (λ e. e ≡ Entry.Rollback step.now undone.now) }
{
    let undone = undone.copy()?;
    let Ok(step) = step.copy() else {
        drop(undone);
        return Err(AllocError);
    };
    Ok(Entry::Rollback { step, undone })
}
