// Names of steps, in a list.
ghost use Rattle.std.specs.Prelude.{◌≡◌, IfOk};

use std::alloc::AllocError;
use std::marker::Model;
use std::sync::Arc;
use step_names::StepName;

/// Names of steps, in the order of an answer, which owners share: a log's entry and the answer of its command. Contracts see their list.
#[derive(Debug, Drop)]
pub struct StepNames {
    inner: Arc<Vec<StepName>>,
}

impl Model for StepNames {
    ghost use Rattle.std.specs.Prelude.{List};
    ghost use Rattle.step_names.specs.declared.step.StepName.{StepName};
    ghost use Rattle.step_names.specs.contracts.step.StepName as name_row;
    ghost use Rattle.std.specs.Coded.{codes};

    ghost Value = { List StepName };

    ghost coded = { Prim.hlevel (codes, name_row.the_row.coded) };

    ghost use Rattle.std.specs.Arc.{arc_value};

    ghost view = { λ a. (arc_value a.inner).items };
}

impl StepNames {
    /// The names of a vector, in the memory that they have. Takes memory for a node.
    pub fn new(names: Vec<StepName>) -> Result<StepNames, AllocError>
        ensures { IfOk result (λ n. n ≡ names.items) }
    {
        let inner = Arc::new(*names.allocator(), names)?;
        Ok(StepNames { inner })
    }

    /// The names. Takes no memory.
    pub fn names(&self) -> &[StepName]
        ensures { result.now ≡ self.now }
    {
        self.inner.as_slice()
    }

    /// The same names, shared, in one step. Takes no memory, and is refused only where their owners cannot be counted.
    pub fn copy(&self) -> Result<StepNames, AllocError>
        ensures { IfOk result (λ n. n ≡ self.now) }
    {
        let inner = Arc::try_clone(&self.inner)?;
        Ok(StepNames { inner })
    }
}
