// Steps that can't be taken back any more.
ghost use Rattle.std.specs.Prelude.{◌≡◌, [], ◌++◌, List, length, map};
ghost use Rattle.saved_steps.specs.Held.{world_view};
ghost use Rattle.saved_steps.specs.World.{Setting, World};
ghost use Rattle.step_history.specs.SettledNames.{HasRoomFor};
ghost use Rattle.step_history.specs.History.{TakenStep, IsHistory};

use crate::history::History;
use crate::settled_names::SettledNames;
use saved_steps::{Fact, StepRecord};
use step_index::StepRecords;
use step_names::StepName;

impl History {
    /// Settles all steps: the world is as it was, and no step remains. Their names go behind those that are there, in their order.
    /// Takes no memory, and gives back what was kept of each step.
    pub fn settle(&mut self, names: &mut SettledNames)
        requires { HasRoomFor names.old (length self.old.records.items) }
        ensures names { names.new.items ≡ names.old.items ++ map (λ r. r.fact.name) self.old.records.items }
        ensures records { self.new.records.items ≡ [] }
        ensures world { self.new.world ≡ self.old.world }
        ensures history { (s : Setting) (base : World) (ts : List TakenStep) → IsHistory s base ts self.old → IsHistory s (world_view self.old.world) [] self.new }
    {
        let taken = self.records.take_all();
        push_names(names, taken);
    }
}

/// Adds the names of steps in their order.
fn push_names(names: &mut SettledNames, taken: StepRecords)
    requires { HasRoomFor names.old (length taken.items) }
    ensures { names.new.items ≡ names.old.items ++ map (λ r. r.fact.name) taken.items }
{
    let mut left = taken;
    while !left.is_empty() {
        names.push(name_of(left.take_first()));
    }
}

/// The name of a step; the rest of what is kept of it is given back.
fn name_of(taken: StepRecord) -> StepName
    ensures { result ≡ taken.fact.name }
{
    let StepRecord { fact, saved } = taken;
    drop(saved);
    let Fact {
        name,
        kind: _,
        access,
        bound: _,
    } = fact;
    drop(access);
    name
}
