// Where a `States` object stands in its machine.
ghost use Rattle.std.specs.Prelude.{◌≡◌, [], ◌∷◌, ◌++◌, IfOk, length, ◌==◌};

use json_tree::Text;
use std::alloc::{AllocError, Global};
use std::marker::Model;

/// One step inwards: into a branch of a state. A Map's one processor is branch 0.
#[derive(Debug, Drop)]
pub struct LevelStep {
    pub state: Text,
    pub branch: u32,
}

impl LevelStep {
    /// An equal step. Takes memory for the state's name.
    pub fn copy(&self) -> Result<LevelStep, AllocError>
        ensures { IfOk result (λ s. s ≡ self.now) }
    {
        let state = self.state.copy()?;
        Ok(LevelStep {
            state,
            branch: self.branch,
        })
    }
}

/// The steps inwards, outermost first. Contracts see their list.
#[derive(Debug, Drop)]
pub struct LevelPath {
    inner: Vec<LevelStep>,
}

impl Model for LevelPath {
    ghost use Rattle.std.specs.Prelude.{List};
    ghost use Rattle.asl_tree.specs.declared.level.LevelStep.{LevelStep};

    ghost Value = { List LevelStep };

    ghost view = { λ a. a.inner.items };
}

impl LevelPath {
    /// The way to the outermost `States` object. Takes no memory.
    pub fn outermost(alloc: Global) -> LevelPath
        ensures { result ≡ [] }
    {
        LevelPath {
            inner: Vec::new(alloc),
        }
    }

    /// Whether it leads to the outermost `States` object.
    pub fn is_outermost(&self) -> bool
        ensures { result ≡ (length self.now == 0) }
    {
        self.inner.is_empty()
    }

    /// The steps, outermost first, lent.
    pub fn as_slice(&self) -> &[LevelStep]
        ensures { result.now ≡ self.now }
    {
        self.inner.as_slice()
    }

    /// The path one step further inwards, into this branch of a state that stands where this path leads. Takes memory for
    /// each step.
    pub fn inward(&self, state: &Text, branch: u32) -> Result<LevelPath, AllocError>
        ensures { IfOk result (λ p. p ≡ self.now ++ record { state = state.now; branch = branch } ∷ []) }
    {
        let state = state.copy()?;
        let mut path = self.copy()?;
        path.inner.push(LevelStep { state, branch })?;
        Ok(path)
    }

    /// An equal path. Takes memory for each step.
    pub fn copy(&self) -> Result<LevelPath, AllocError>
        ensures { IfOk result (λ p. p ≡ self.now) }
    {
        let mut inner = Vec::with_capacity(*self.inner.allocator(), self.inner.len())?;
        for step in &self.inner {
            inner.push(step.copy()?)?;
        }
        Ok(LevelPath { inner })
    }
}

/// A `States` object of a machine: the machine's name, and the way from its outermost `States` object to this one.
#[derive(Debug, Drop)]
pub struct Level {
    pub machine: Text,
    pub path: LevelPath,
}

impl Level {
    /// An equal level. Takes memory for the names.
    pub fn copy(&self) -> Result<Level, AllocError>
        ensures { IfOk result (λ l. l ≡ self.now) }
    {
        let machine = self.machine.copy()?;
        let path = self.path.copy()?;
        Ok(Level { machine, path })
    }
}
