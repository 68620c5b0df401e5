// Marks of forks.
ghost use Rattle.std.specs.Prelude.{◌≡◌, ◌∷◌, ◌++◌, [], List, OnOk};
ghost use Rattle.std.specs.BTreeSet.{contains};
ghost use Rattle.std.specs.List.{list_any};
ghost use Rattle.saved_steps.specs.Steps.{is_fork, makes};
ghost use Rattle.saved_steps.specs.declared.fact.Fact.{Fact as Step};
ghost use Rattle.step_names.specs.Order.{step_cmp};
ghost use Rattle.step_names.specs.Thread.{Thread};
ghost use Rattle.depends.specs.Above.{forks_above};
ghost use Rattle.depends.specs.Kinds.{AreForks};

use crate::above::Above;
use saved_steps::{Fact, Kind};
use std::alloc::{AllocError, Global};
use std::collections::BTreeSet;
use step_names::StepName;

/// The forks among some steps.
#[derive(Drop)]
pub(crate) struct ForkMarks {
    names: BTreeSet<StepName>,
}

impl ForkMarks {
    pub(crate) fn new(alloc: Global) -> ForkMarks
        ensures { AreForks [] result }
    {
        ForkMarks {
            names: BTreeSet::new(alloc),
        }
    }

    pub(crate) fn add(&mut self, fact: &Fact) -> Result<(), AllocError>
        ensures { OnOk result ((facts : List Step) → AreForks facts self.old → AreForks (facts ++ fact.now ∷ []) self.new) }
    {
        if !is_fork(fact.kind) {
            return Ok(());
        }
        self.names.insert(fact.name.copy()?)?;
        Ok(())
    }

    /// Whether a step is one of the forks above a thread.
    pub(crate) fn has_above(&self, above: &[Above]) -> bool
        ensures { (facts : List Step) (t : Thread) → AreForks facts self.now → above.now ≡ forks_above t → result ≡ list_any (λ g. makes g t) facts }
    {
        self.has_one(above)
    }

    fn has_one(&self, above: &[Above]) -> bool
        ensures { result ≡ list_any (λ x. contains step_cmp self.now.names x.fork) above.now }
    {
        above.iter().any(|x| self.names.contains(&x.fork))
    }
}

fn is_fork(kind: Kind) -> bool
    ensures { result ≡ is_fork kind }
{
    matches!(kind, Kind::Fork)
}
