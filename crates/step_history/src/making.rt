// Steps that are made ready, and then taken.
ghost use Rattle.std.specs.Prelude.{◌≡◌, [], ◌∷◌, ◌++◌, List, Some, IfOk, OnOk};
ghost use Rattle.saved_steps.specs.Effects.{Effect, effect_of};
ghost use Rattle.saved_steps.specs.Held.{world_view};
ghost use Rattle.saved_steps.specs.Made.{CanApply, IsMadeFor, IsMadeOf, CanMake};
ghost use Rattle.saved_steps.specs.Steps.{Step};
ghost use Rattle.saved_steps.specs.World.{Setting, World};
ghost use Rattle.step_history.specs.History.{TakenStep, IsHistory, HasRoom, taken_in};

use crate::history::History;
use saved_steps::{Made, Next};
use std::alloc::{AllocError, Global};
use step_names::StepName;

impl History {
    /// Makes everything that a step needs, and room for its record. The history is the same then, also where memory is
    /// refused.
    pub fn make(&mut self, alloc: Global, name: &StepName, next: Next) -> Result<Made, AllocError>
        requires { CanMake self.old.world name.now next }
        ensures made { IfOk result (λ m. IsMadeOf self.old.world self.new.world name.now next m) }
        ensures room { OnOk result (HasRoom self.new) }
        ensures world { world_view self.new.world ≡ world_view self.old.world }
        ensures history { (s : Setting) (base : World) (ts : List TakenStep) → IsHistory s base ts self.old → IsHistory s base ts self.new }
    {
        if self.records.reserve().is_err() {
            drop(next);
            return Err(AllocError);
        }
        self.world.make(alloc, name, next)
    }

    /// Takes a step that `make` made, where the world is as that left it. Takes no memory.
    pub fn apply(&mut self, made: Made)
        requires ready { CanApply self.old.world made }
        requires room { HasRoom self.old }
        ensures { (s : Setting) (base : World) (ts : List TakenStep) (step : Step) (d : Effect)
            → IsHistory s base ts self.old → effect_of s (world_view self.old.world) step ≡ Some d → IsMadeFor made d
            → IsHistory s base (ts ++ taken_in (world_view self.old.world) step d.fact ∷ []) self.new }
    {
        let record = self.world.apply(made);
        self.records.push(record);
    }
}
