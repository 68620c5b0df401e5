// A machine that many owners share.
ghost use Rattle.std.specs.Prelude.{◌≡◌, IfOk};

use crate::state::Machine;
use std::alloc::{AllocError, Global};
use std::marker::Model;
use std::sync::Arc;

/// A machine behind an `Arc`. Contracts see the machine and not the place where it lies, so two of equal machines are
/// equal.
#[derive(Debug, Drop)]
pub struct SharedMachine {
    inner: Arc<Machine>,
}

impl Model for SharedMachine {
    ghost use Rattle.std.specs.Arc.{arc_value};
    ghost use Rattle.asl_tree.specs.Definition.{Definition};
    ghost use Rattle.asl_tree.specs.TreeCode.{definition_code};

    ghost Value = { Definition };

    ghost coded = { definition_code };

    ghost view = { λ a. arc_value a.inner };
}

impl SharedMachine {
    /// Takes memory for the machine's place.
    pub fn new(alloc: Global, machine: Machine) -> Result<SharedMachine, AllocError>
        ensures { IfOk result (λ s. s ≡ machine) }
    {
        Ok(SharedMachine {
            inner: Arc::new(alloc, machine)?,
        })
    }

    /// One more owner of the same machine, which is not copied.
    pub fn share(&self) -> Result<SharedMachine, AllocError>
        ensures { IfOk result (λ s. s ≡ self.now) }
    {
        Ok(SharedMachine {
            inner: Arc::try_clone(&self.inner)?,
        })
    }

    pub fn machine(&self) -> &Machine
        ensures { result.now ≡ self.now }
    {
        &self.inner
    }
}

impl PartialEq for SharedMachine {
    ghost use Rattle.std.specs.Cmp.{partial_equiv_from_equiv};
    ghost use Rattle.asl_states.specs.PathSame.{exact_equiv};
    ghost use Rattle.asl_tree.specs.Same.{same_definition, definition_exact};

    ghost eq = { same_definition };

    ghost laws = { partial_equiv_from_equiv (exact_equiv same_definition definition_exact) };

    fn eq(&self, other: &SharedMachine) -> bool {
        self.machine() == other.machine()
    }
}

impl Eq for SharedMachine {
    ghost use Rattle.asl_states.specs.PathSame.{exact_equiv};
    ghost use Rattle.asl_tree.specs.Same.{same_definition, definition_exact};

    ghost laws = { exact_equiv same_definition definition_exact };
}
