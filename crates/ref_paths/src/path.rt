//! Paths and their steps.

ghost use Rattle.std.specs.Prelude.{◌≡◌, [], IfOk};

use json_tree::Text;
use std::alloc::{AllocError, Global};
use std::marker::Model;

/// One step of a path: a field's name, or an index of a list from 0.
#[derive(Debug, Drop)]
pub enum PathStep {
    Name(Text),
    Index(u32),
}

/// A path: its steps from the root on. Contracts see the list of steps.
#[derive(Debug, Drop)]
pub struct RefPath {
    pub(crate) steps: Vec<PathStep>,
}

impl Model for RefPath {
    ghost use Rattle.std.specs.Prelude.{List};
    ghost use Rattle.std.specs.Coded.{codes};
    ghost use Rattle.ref_paths.specs.declared.path.PathStep.{PathStep};
    ghost use Rattle.ref_paths.specs.contracts.path.PathStep as path_step;

    ghost Value = { List PathStep };

    ghost coded = { Prim.hlevel (codes, path_step.the_row.coded) };

    ghost view = { λ a. a.steps.items };
}

impl PartialEq for PathStep {
    ghost use Rattle.std.specs.Cmp.{partial_equiv_from_equiv};
    ghost use Rattle.ref_paths.specs.Same.{same_path_step, exact_equiv, path_step_exact};

    ghost eq = { same_path_step };

    ghost laws = { partial_equiv_from_equiv (exact_equiv same_path_step path_step_exact) };

    fn eq(&self, other: &PathStep) -> bool {
        match (self, other) {
            (PathStep::Name(name), PathStep::Name(other)) => name == other,
            (PathStep::Index(index), PathStep::Index(other)) => index == other,
            _ => false,
        }
    }
}

impl Eq for PathStep {
    ghost use Rattle.ref_paths.specs.Same.{same_path_step, exact_equiv, path_step_exact};

    ghost laws = { exact_equiv same_path_step path_step_exact };
}

impl PartialEq for RefPath {
    ghost use Rattle.std.specs.Cmp.{partial_equiv_from_equiv};
    ghost use Rattle.ref_paths.specs.Same.{same_payload_path, exact_equiv, path_exact};

    ghost eq = { same_payload_path };

    ghost laws = { partial_equiv_from_equiv (exact_equiv same_payload_path path_exact) };

    fn eq(&self, other: &RefPath) -> bool {
        self.steps == other.steps
    }
}

impl Eq for RefPath {
    ghost use Rattle.ref_paths.specs.Same.{same_payload_path, exact_equiv, path_exact};

    ghost laws = { exact_equiv same_payload_path path_exact };
}

impl PathStep {
    /// An equal step. Takes memory for a name.
    pub fn copy(&self) -> Result<PathStep, AllocError>
        ensures { IfOk result (λ s. s ≡ self.now) }
    {
        match self {
            PathStep::Name(name) => Ok(PathStep::Name(name.copy()?)),
            PathStep::Index(index) => Ok(PathStep::Index(*index)),
        }
    }
}

impl RefPath {
    /// The path `$`, which leads to the root. Takes no memory.
    pub fn root(alloc: Global) -> RefPath
        ensures { result ≡ [] }
    {
        RefPath {
            steps: Vec::new(alloc),
        }
    }

    /// An equal path. Takes memory for the list of steps and for each name.
    pub fn copy(&self) -> Result<RefPath, AllocError>
        ensures { IfOk result (λ p. p ≡ self.now) }
    {
        let mut steps = Vec::with_capacity(*self.steps.allocator(), self.steps.len())?;
        for step in &self.steps {
            steps.push(step.copy()?)?;
        }
        Ok(RefPath { steps })
    }
}
