// Why a command that adds to a book may be refused.
ghost use Rattle.std.specs.Prelude.{◌≡◌, ◌+◌, ◌≤◌, ◌||◌, nat_le, nat_lt, IfOk, IfErr};
ghost use Rattle.serde_json.specs.View.{view};
ghost use Rattle.asl_machine.specs.Profile.{Defines};
ghost use Rattle.book_log.specs.Answers.{IsReadRefusal, most_steps, most_places, most_before_a_step};

use asl_machine::{Machine, MachineFault, ReadMachine};
use book_log::Refusal;
use serde_json::Value;
use std::alloc::Global;

/// So many steps may remain.
pub const MOST_STEPS: usize = 65_536;

/// So many may entries and remaining steps be together.
pub const MOST_PLACES: usize = 1_000_000;

/// Whether no step can be taken more: the most remain, or its entry and that of its undoing would take more places than there
/// are.
pub fn is_full_for_step(entries: usize, steps: usize) -> bool
    requires { entries + steps ≤ most_places }
    ensures { result ≡ (nat_le most_steps steps || nat_lt most_before_a_step (entries + steps)) }
{
    MOST_STEPS <= steps || MOST_PLACES - 2 < entries + steps
}

/// Whether no machine can be defined more.
pub fn is_full_for_define(entries: usize, steps: usize) -> bool
    requires { entries + steps ≤ most_places }
    ensures { result ≡ nat_le most_places (entries + steps) }
{
    MOST_PLACES <= entries + steps
}

/// The machine of a definition.
pub fn read_machine(alloc: Global, definition: &Value) -> Result<Machine, Refusal>
    ensures read { IfOk result (Defines (view definition.now)) }
    ensures refused { IfErr result (IsReadRefusal (view definition.now)) }
{
    match Machine::read(alloc, definition) {
        Ok(machine) => Ok(machine),
        Err(MachineFault::Memory) => Err(Refusal::Memory),
        Err(fault) => Err(Refusal::BadMachine(fault)),
    }
}
