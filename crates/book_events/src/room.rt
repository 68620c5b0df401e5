// What an undoing and a rollback need beforehand.
ghost use Rattle.std.specs.Prelude.{◌≡◌, IfOk};

use book_log::StepNames;
use depends::Plan;
use std::alloc::{AllocError, Global};
use step_names::{NameRoom, StepName};

/// The name of a step to be undone, and space for the name that a refusal tells. It is spent by the undoing, which then takes no
/// memory.
#[derive(Drop)]
pub struct Room {
    pub step: StepName,
    pub spare: NameRoom,
}

impl Room {
    /// Takes memory for a copy of the name and for the longest name.
    pub fn new(alloc: Global, step: &StepName) -> Result<Room, AllocError>
        ensures { IfOk result (λ r. r.step ≡ step.now) }
    {
        let step = step.copy()?;
        let spare = NameRoom::new(alloc)?;
        Ok(Room { step, spare })
    }
}

/// A step to be rolled back, with the names and the places of it and its consequences, the latest first, the number of the log's
/// entries at the time, and how many records were looked at to plan it. It is spent by the rollback, which then takes no memory.
#[derive(Drop)]
pub struct PlanRoom {
    pub step: StepName,
    pub names: StepNames,
    pub undone: StepNames,
    pub places: Plan,
    pub entries: usize,
    pub looks: u64,
}

impl PlanRoom {
    /// The names of the step and its consequences, the latest first.
    pub fn names(&self) -> &[StepName]
        ensures { result.now ≡ self.now.names }
    {
        self.names.names()
    }

    /// How many entries the log had when the plan was made. The plan is stale where it has more or fewer.
    pub fn entries(&self) -> usize
        ensures { result ≡ self.now.entries }
    {
        self.entries
    }

    /// How many records were looked at to make the plan.
    pub fn looks(&self) -> u64
        ensures { result ≡ self.now.looks }
    {
        self.looks
    }
}
