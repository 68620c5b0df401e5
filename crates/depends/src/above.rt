//! The forks above a thread.

ghost use Rattle.std.specs.Prelude.{◌≡◌, IfOk};
ghost use Rattle.step_names.specs.Thread.{child_of, execution};
ghost use Rattle.depends.specs.Above.{forks_above};

use std::alloc::{AllocError, Global};
use step_names::{NameFault, StepName, ThreadName};

/// A fork above a thread: one under which it lies.
#[derive(Drop)]
pub(crate) struct Above {
    pub fork: StepName,
    /// The index of the branch by which it does.
    pub branch: u32,
}

/// The forks above a thread, outermost first: one for each branch of its name, at most 31. Takes memory for their names; none
/// for an execution's own thread.
pub(crate) fn forks_above(alloc: Global, thread: &ThreadName) -> Result<Vec<Above>, AllocError>
    ensures { IfOk result (λ forks. forks.items ≡ forks_above thread.now) }
{
    let mut forks = Vec::new(alloc);
    if thread.is_execution() {
        return Ok(forks);
    }
    let mut over = execution(alloc, thread)?;
    for branch in thread.path() {
        let next = child(alloc, &over, *branch)?;
        let fork = StepName {
            thread: over,
            no: branch.0,
        };
        forks.push(Above {
            fork,
            branch: branch.1,
        })?;
        over = next;
    }
    Ok(forks)
}

/// An execution's own thread. (Its name is one.)
fn execution(alloc: Global, thread: &ThreadName) -> Result<ThreadName, AllocError>
    ensures { IfOk result (λ t. t ≡ execution thread.now.exec) }
{
    match ThreadName::new(alloc, thread.exec_text()?) {
        Some(name) => Ok(name),
        None => Err(AllocError),
    }
}

/// A branch of a fork of a thread. (No branch of a name is refused.)
fn child(alloc: Global, thread: &ThreadName, branch: (u32, u32)) -> Result<ThreadName, AllocError>
    ensures { IfOk result (λ t. t ≡ child_of thread.now branch.0 branch.1) }
{
    match thread.child(alloc, branch.0, branch.1) {
        Ok(name) => Ok(name),
        Err(NameFault::BadName | NameFault::Memory) => Err(AllocError),
    }
}
