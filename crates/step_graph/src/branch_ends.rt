// Of a fork's branches, the latest step under the first so many.
use std::alloc::{AllocError, Global};

/// A step under a branch: later than all that are kept under lower branches.
#[derive(Clone, Copy)]
struct BranchEnd {
    branch: u32,
    place: usize,
}

/// The latest steps under the branches of one fork. Of two steps only the later one is kept, unless it is under a higher branch.
#[derive(Drop)]
pub(crate) struct BranchEnds {
    fork: u32,
    /// Both branches and places ascend.
    ends: Vec<BranchEnd>,
}

impl BranchEnds {
    /// No steps. Takes no memory.
    pub(crate) fn new(alloc: Global) -> BranchEnds {
        BranchEnds {
            fork: 0,
            ends: Vec::new(alloc),
        }
    }

    /// Notes a step under a branch, later than those noted before. Those of another fork are forgotten: a thread has one fork at a time. Takes
    /// constant time, amortized over all notes.
    pub(crate) fn note(&mut self, fork: u32, branch: u32, place: usize) -> Result<(), AllocError> {
        if self.fork != fork {
            self.fork = fork;
            self.ends.clear();
        }
        for _ in 0..self.ends.len() {
            match self.ends.last() {
                Some(end) if end.branch >= branch => drop(self.ends.pop()),
                _ => break,
            }
        }
        self.ends.push(BranchEnd { branch, place })?;
        Ok(())
    }

    /// The latest step under a fork's branches up to one. Takes logarithmic time in the number of branches.
    pub(crate) fn latest(&self, fork: u32, branch: u32) -> Option<usize> {
        if self.fork != fork {
            return None;
        }
        let mut found = None;
        let mut from = 0usize;
        let mut left = self.ends.len();
        // each turn halves what is left
        for _ in 0..usize::BITS {
            let half = left / 2;
            let at = from.saturating_add(half);
            match self.ends.get(at) {
                Some(end) if end.branch <= branch => {
                    found = Some(end.place);
                    from = at.saturating_add(1);
                    left = left.saturating_sub(half).saturating_sub(1);
                }
                _ => left = half,
            }
            if left == 0 {
                break;
            }
        }
        found
    }
}
