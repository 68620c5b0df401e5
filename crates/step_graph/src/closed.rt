// The threads that a join or a terminate took away.
use crate::latest::branch_of;
use saved_steps::branches::Branch;
use saved_steps::turns::Frame;
use saved_steps::{Saved, StepRecord};
use std::alloc::{AllocError, Global};
use step_names::ThreadName;

/// The threads that the undoing of a join or a terminate gives back, at any depth, each with its frame; of another step none. Takes
/// memory for each and for its name, and time in their number.
pub fn closed_threads(
    alloc: Global,
    kept: &StepRecord,
) -> Result<Vec<(ThreadName, &Frame)>, AllocError> {
    let mut found = Vec::new(alloc);
    let Saved::Closed { frame: _, kids } = &kept.saved else {
        return Ok(found);
    };
    let name = &kept.fact.name;
    let mut left = Vec::new(alloc);
    // the fork is the step before
    add_branches(
        alloc,
        &mut left,
        &name.thread,
        name.no.saturating_sub(1),
        kids.as_slice(),
    )?;
    // each branch comes once
    for _ in 0..u64::MAX {
        let Some((thread, branch)) = left.pop() else {
            break;
        };
        let frame = branch.frame();
        add_branches(alloc, &mut left, &thread, frame.count, branch.branches())?;
        found.push((thread, frame))?;
    }
    Ok(found)
}

/// Adds the branches of a fork with their names.
fn add_branches<'a>(
    alloc: Global,
    left: &mut Vec<(ThreadName, &'a Branch)>,
    thread: &ThreadName,
    fork: u32,
    branches: &'a [Branch],
) -> Result<(), AllocError> {
    let mut index: u32 = 0;
    for branch in branches {
        if let Some(name) = branch_of(alloc, thread, fork, index)? {
            left.push((name, branch))?;
        }
        index = index.saturating_add(1);
    }
    Ok(())
}
