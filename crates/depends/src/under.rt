// Marks of the forks above steps.
ghost use Rattle.std.specs.Prelude.{◌≡◌, ◌∷◌, ◌++◌, ◌||◌, ◌+◌, nat_le, [], List, Bool, ℕ, IfOk, OnOk};
ghost use Rattle.std.specs.BTreeMap.{get};
ghost use Rattle.std.specs.List.{list_any};
ghost use Rattle.depends.specs.Dependence.{awaits};
ghost use Rattle.saved_steps.specs.Steps.{closes, is_close};
ghost use Rattle.saved_steps.specs.declared.fact.Fact.{Fact as Step};
ghost use Rattle.step_names.specs.Order.{step_cmp};
ghost use Rattle.step_names.specs.declared.step.StepName.{StepName as Name};
ghost use Rattle.depends.specs.Above.{IsDownward, forks_above, goes_by, passes};
ghost use Rattle.depends.specs.Kinds.{AreUnder};

use crate::above::{Above, forks_above};
use saved_steps::{Fact, Kind};
use std::alloc::{AllocError, Global};
use std::collections::BTreeMap;
use step_names::StepName;

/// The forks under which some steps lie: of each the least index of a branch by which one does.
#[derive(Drop)]
pub(crate) struct UnderMarks {
    least: BTreeMap<StepName, u32>,
}

impl UnderMarks {
    pub(crate) fn new(alloc: Global) -> UnderMarks
        ensures { AreUnder [] result }
    {
        UnderMarks {
            least: BTreeMap::new(alloc),
        }
    }

    pub(crate) fn add(&mut self, alloc: Global, fact: &Fact) -> Result<(), AllocError>
        ensures { OnOk result ((facts : List Step) → AreUnder facts self.old → AreUnder (facts ++ fact.now ∷ []) self.new) }
    {
        let forks = forks_above(alloc, &fact.name.thread)?;
        self.put_all(forks)
    }

    /// Keeps some forks.
    fn put_all(&mut self, forks: Vec<Above>) -> Result<(), AllocError>
        ensures { OnOk result ((s : Name) (test : ℕ → Bool) → IsDownward test
            → passes test (get step_cmp self.new.least s) ≡ (passes test (get step_cmp self.old.least s) || list_any (goes_by s test) forks.items)) }
    {
        for above in forks {
            self.put(above)?;
        }
        Ok(())
    }

    /// Keeps a fork, and the branch's index where it is less than the one that is kept.
    fn put(&mut self, above: Above) -> Result<(), AllocError>
        ensures { OnOk result ((s : Name) (test : ℕ → Bool) → IsDownward test
            → passes test (get step_cmp self.new.least s) ≡ (passes test (get step_cmp self.old.least s) || goes_by s test above)) }
    {
        if self.has_before(&above.fork, 0, above.branch) {
            return Ok(());
        }
        self.least.insert(above.fork, above.branch)?;
        Ok(())
    }

    /// Whether a step lies under a fork by a branch that stands so far before one.
    fn has_before(&self, fork: &StepName, bound: u32, branch: u32) -> bool
        ensures { result ≡ passes (λ i. nat_le (i + bound) branch) (get step_cmp self.now.least fork.now) }
    {
        match self.least.get(fork) {
            Some(least) => *least as u64 + bound as u64 <= branch as u64,
            None => false,
        }
    }

    /// Whether a later step closes a fork under which a step lies.
    pub(crate) fn has_closed(&self, later: &Fact) -> Result<bool, AllocError>
        ensures { IfOk result (λ b. (facts : List Step) → AreUnder facts self.now → b ≡ list_any (λ g. closes later.now g.name.thread) facts) }
    {
        if !is_close(later.kind) {
            return Ok(false);
        }
        // the fork is the step before
        let fork = StepName {
            thread: later.name.thread.copy()?,
            no: later.name.no.saturating_sub(1),
        };
        Ok(self.least.contains_key(&fork))
    }

    /// Whether a later step waited for a branch under which a step lies. The forks are those above it.
    pub(crate) fn has_awaited(&self, later: &Fact, above: &[Above]) -> bool
        requires { above.now ≡ forks_above later.now.name.thread }
        ensures { (facts : List Step) → AreUnder facts self.now → result ≡ list_any (λ g. awaits later.now g.name.thread) facts }
    {
        if later.bound == 0 {
            return false;
        }
        let Some(own) = above.last() else {
            return false;
        };
        self.has_before(&own.fork, later.bound, own.branch)
    }
}

fn is_close(kind: Kind) -> bool
    ensures { result ≡ is_close kind }
{
    matches!(kind, Kind::Join | Kind::Terminate)
}
