// Marks of starts.
ghost use Rattle.std.specs.Prelude.{◌≡◌, ◌∷◌, ◌++◌, [], List, OnOk};
ghost use Rattle.std.specs.List.{list_any};
ghost use Rattle.saved_steps.specs.declared.fact.Fact.{Fact as Step};
ghost use Rattle.depends.specs.Dependence.{is_start};
ghost use Rattle.depends.specs.Kinds.{AreStartMarks, starts};

use json_tree::Text;
use saved_steps::{Fact, Kind};
use std::alloc::{AllocError, Global};
use std::collections::BTreeSet;

/// The executions of which the start is among some steps.
#[derive(Drop)]
pub(crate) struct StartMarks {
    execs: BTreeSet<Text>,
}

impl StartMarks {
    pub(crate) fn new(alloc: Global) -> StartMarks
        ensures { AreStartMarks [] result }
    {
        StartMarks {
            execs: BTreeSet::new(alloc),
        }
    }

    pub(crate) fn add(&mut self, fact: &Fact) -> Result<(), AllocError>
        ensures { OnOk result ((facts : List Step) → AreStartMarks facts self.old → AreStartMarks (facts ++ fact.now ∷ []) self.new) }
    {
        if !is_start(fact.kind) {
            return Ok(());
        }
        self.execs.insert(fact.name.thread.exec_text()?)?;
        Ok(())
    }

    /// Whether a step is the start of this execution.
    pub(crate) fn has(&self, exec: &Text) -> bool
        ensures { (facts : List Step) → AreStartMarks facts self.now → result ≡ list_any (starts exec.now) facts }
    {
        self.execs.contains(exec)
    }
}

fn is_start(kind: Kind) -> bool
    ensures { result ≡ is_start kind }
{
    matches!(kind, Kind::Start)
}
