// Steps that are taken back, and the histories that are left.
ghost use Rattle.std.specs.Prelude.{◌≡◌, ◌<◌, ◌≤◌, ◌+◌, ◌-◌, ℕ, [], ◌∷◌, List, None, Some, IfOk, length, map, slice_get};
ghost use Rattle.depends.specs.Instance.{steps};
ghost use Rattle.depends.specs.Laws.{facts_of};
ghost use Rattle.depends.specs.Plans as plans;
ghost use Rattle.saved_steps.specs.World.{Setting, World};
ghost use Rattle.step_history.specs.History.{TakenStep, IsHistory, IsSomeHistory, IsPlanOf};
ghost use Rattle.step_index.specs.Near.{near_behind};
ghost use Rattle.trace_theory.specs.Traces.{without, consequences};

use crate::history::History;
use depends::Plan;
use std::alloc::{AllocError, Global};
use step_index::Looks;

impl History {
    /// The place of the earliest step that depends directly on the one at a place. Takes no memory, and the looks of
    /// `StepRecords::first_dependent`.
    pub fn first_dependent(&self, at: usize) -> Option<usize>
        requires { at < length self.now.records.items }
        ensures { result ≡ plans.first_dependent (map (λ r. r.fact) self.now.records.items) at }
    {
        self.records.first_dependent(at)
    }

    /// Undoes the step at a place, on which no other depends: the steps that are left stay in their order. Takes no memory, and
    /// the time of `StepRecords::remove`; no other step is looked at.
    pub fn undo(&mut self, at: usize)
        requires there { at < length self.old.records.items }
        requires history { IsSomeHistory self.old }
        requires free { plans.first_dependent (map (λ r. r.fact) self.old.records.items) at ≡ None }
        ensures { (s : Setting) (base : World) (ts : List TakenStep) (t : TakenStep) → IsHistory s base ts self.old
            → slice_get ts at ≡ Some t → IsHistory s base (without (steps s) (t ∷ []) ts) self.new }
    {
        let record = self.records.remove(at);
        self.world.undo(record);
    }

    /// The step at a place and all its consequences, the latest first. Takes the memory and the looks of `StepRecords::plan`.
    pub fn plan(&self, alloc: Global, at: usize) -> Result<Plan, AllocError>
        requires { at < length self.now.records.items }
        ensures { IfOk result (λ p. p ≡ plans.plan (map (λ r. r.fact) self.now.records.items) at) }
    {
        self.records.plan(alloc, at)
    }

    /// The same, with its looks at records counted: at each step of the plan one, and besides the first one only at later steps that
    /// are in a class of one of them.
    pub fn plan_with_looks(
        &self,
        alloc: Global,
        at: usize,
        looks: &mut Looks,
    ) -> Result<Plan, AllocError>
        requires there { at < length self.now.records.items }
        requires none { looks.old.count ≡ 0 }
        ensures plan { IfOk result (λ p. p ≡ plans.plan (map (λ r. r.fact) self.now.records.items) at) }
        ensures looks { looks.new.count ≤ length self.now.records.items - at }
        ensures members { IfOk result (λ p. length p ≤ looks.new.count) }
        ensures near { IfOk result (λ p. looks.new.count ≤ 1 + near_behind (map (λ r. r.fact) self.now.records.items) p at) }
    {
        let count = self.records.len();
        prove!(at < count);
        self.records.plan_with_looks(alloc, at, looks)
    }

    /// Undoes the steps of a plan of this history, the latest first: the steps that are left stay in their order. Takes no
    /// memory, and for each step of the plan the time of `undo`.
    pub fn rollback(&mut self, plan: &Plan)
        requires history { IsSomeHistory self.old }
        requires plan { IsPlanOf self.old plan.now }
        ensures { (s : Setting) (base : World) (ts : List TakenStep) (at : ℕ) (t : TakenStep)
            → IsHistory s base ts self.old → slice_get ts at ≡ Some t → plan.now ≡ plans.plan (facts_of ts) at
            → IsHistory s base (without (steps s) (consequences (steps s) ts t.step) ts) self.new }
    {
        for place in plan.places() {
            self.undo(*place);
        }
    }
}
