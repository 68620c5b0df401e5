// Copies of what a caller is told, and of what its pass keeps.
ghost use Rattle.std.specs.Prelude.{◌≡◌, IfOk};
ghost use Rattle.std.specs.Option.{option_copied};

use book_log::{Entry, StepNames};
use std::alloc::{AllocError, Global};
use step_names::StepName;

/// A copy of an entry, if there is one.
pub(crate) fn copied(entry: Option<&Entry>) -> Result<Option<Entry>, AllocError>
    ensures { IfOk result (λ copy. copy ≡ option_copied entry.entry) }
{
    match entry {
        Some(entry) => Ok(Some(entry.copy()?)),
        None => Ok(None),
    }
}

/// A copy of names.
pub(crate) fn copy_names(alloc: Global, names: &[StepName]) -> Result<StepNames, AllocError>
    ensures { IfOk result (λ copy. copy ≡ names.now) }
{
    let mut copies = Vec::new(alloc);
    for name in names {
        copies.push(name.copy()?)?;
    }
    StepNames::new(copies)
}
