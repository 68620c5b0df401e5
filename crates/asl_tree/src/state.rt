// The states of a machine (Amazon States Language, "States"), and the machine that holds them.
ghost use Rattle.std.specs.Prelude.{◌≡◌, length, option_copied, slice_get};

use asl_states::error_handling::ErrorHandling;
use asl_states::paths::{RefPath, Template};
use asl_states::{Choice, Fail, Pass, Processing, Succeed, Task, Transition, Wait};
use json_tree::Text;
use std::collections::BTreeMap;
use std::marker::Model;

/// A state of a machine ("State Types").
#[cycle(machine)]
#[derive(Debug, Drop)]
pub enum State {
    Pass(Pass),
    Task(Task),
    Choice(Choice),
    Wait(Wait),
    Succeed(Succeed),
    Fail(Fail),
    Parallel(Parallel),
    Map(Map),
}

/// A Parallel state, each of whose branches is a machine of its own ("Parallel State").
#[cycle(machine)]
#[derive(Debug, Drop)]
pub struct Parallel {
    pub branches: Branches,
    pub processing: Processing,
    pub errors: ErrorHandling,
    pub transition: Transition,
}

/// A Map state, whose processor, a machine of its own, runs once for each element ("Map State").
#[cycle(machine)]
#[derive(Debug, Drop)]
pub struct Map {
    pub processor: Machine,
    /// It leads to the elements.
    pub items_path: RefPath,
    /// What an element's input is made of, where it isn't the element.
    pub item_selector: Option<Template>,
    /// How many branches may run at a time; 0 is no bound (`MaxConcurrency`).
    pub max_concurrency: u32,
    pub processing: Processing,
    pub errors: ErrorHandling,
    pub transition: Transition,
}

/// A machine that was accepted, or a branch or a processor of one: it starts at a state that it has, and each of its
/// transitions leads to one.
#[cycle(machine)]
#[derive(Debug, Drop)]
pub struct Machine {
    pub(crate) start: Text,
    pub(crate) states: States,
}

impl Model for Machine {
    ghost use Rattle.asl_tree.specs.Definition.{Definition, definition_depth};
    ghost use Rattle.asl_tree.specs.TreeCode.{definition_code};

    ghost Value = { Definition };

    ghost coded = { definition_code };

    ghost use Rattle.asl_tree.specs.Complete.{IsWellFormed};

    ghost view = { λ a. record { start = a.start; states = a.states } };

    ghost invariant = { λ a. IsWellFormed (record { start = a.start; states = a.states }) };

    ghost size = { definition_depth };

    ghost use Rattle.std.proofs.Common.{arith};

    ghost size_decreases = { λ a h. omega arith };
}

/// The branches of a Parallel state, in order. Contracts see the list of their definitions.
#[cycle(machine)]
#[derive(Debug, Drop)]
pub struct Branches {
    pub(crate) inner: Vec<Machine>,
}

impl Model for Branches {
    ghost use Rattle.std.specs.Prelude.{List};
    ghost use Rattle.asl_tree.specs.Definition.{Definition, branches_depth};
    ghost use Rattle.asl_tree.specs.TreeCode.{branches_code};

    ghost Value = { List Definition };

    ghost coded = { branches_code };

    ghost view = { λ a. a.inner.items };

    ghost size = { branches_depth };

    ghost use Rattle.asl_tree.specs.TreeFalls.{branches_fall};

    ghost size_decreases = { λ a h. branches_fall a.inner.items };
}

impl Branches {
    /// These machines, in their order. Takes no memory.
    pub fn new(machines: Vec<Machine>) -> Branches
        ensures { result ≡ machines.items }
    {
        Branches { inner: machines }
    }

    /// How many there are.
    pub fn len(&self) -> usize
        ensures { result ≡ length self.now }
    {
        self.inner.len()
    }

    /// The branch of this number, from 0.
    pub fn get(&self, number: u32) -> Option<&Machine>
        ensures { option_copied result ≡ slice_get self.now number }
    {
        self.inner.get(number as usize)
    }

    /// The branches, in their order, lent.
    pub fn as_slice(&self) -> &[Machine]
        ensures { result.now ≡ self.now }
    {
        self.inner.as_slice()
    }
}

/// The states of one `States` object. Contracts see the list of names and trees of states, in the order of the names'
/// bytes.
#[cycle(machine)]
#[derive(Debug, Drop)]
pub struct States {
    pub(crate) inner: BTreeMap<Text, State>,
}

impl Model for States {
    ghost use Rattle.std.specs.Prelude.{List, ℕ};
    ghost use Rattle.asl_tree.specs.Definition.{StateTree, states_depth};
    ghost use Rattle.asl_tree.specs.TreeCode.{states_code};

    ghost Value = { List (List ℕ × StateTree) };

    ghost coded = { states_code };

    ghost use Rattle.asl_tree.specs.TreeView.{states_of};

    ghost view = { λ a. states_of a.inner.entries };

    ghost size = { states_depth };

    ghost use Rattle.asl_tree.specs.TreeFalls.{states_fall};

    ghost size_decreases = { λ a h. states_fall a.inner.entries };
}
