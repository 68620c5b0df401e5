// The first thread that has a move.
ghost use Rattle.std.specs.Prelude.{◌≡◌, ◌^◌, ◌<◌, ◌≤◌, ◌⊎◌, ℕ, Bool, [], None, Some, if◌then◌else◌, IfOk, MatchOption, IsSomeAnd};
ghost use Rattle.std.specs.Bool.{OnTrue};
ghost use Rattle.std.specs.BTreeSet.{contains};
ghost use Rattle.step_names.specs.Order.{thread_cmp};
ghost use Rattle.step_names.specs.Thread.{Thread, IsThread, child_of};
ghost use Rattle.branch_tree.specs.First.{IsFirstFree, NoneBeforePath, branch_from, thread_under};
ghost use Rattle.branch_tree.specs.Paths.{Path};
ghost use Rattle.branch_tree.specs.Tree.{frame_at};

use crate::branch::Branch;
use crate::counts::is_in_turn;
use asl_frames::Phase;
use std::alloc::{AllocError, Global};
use std::collections::BTreeSet;
use step_names::{NameFault, ThreadName};

/// The name of a branch, where there is such a name.
fn child_name(
    alloc: Global,
    parent: &ThreadName,
    fork: u32,
    index: usize,
) -> Result<Option<ThreadName>, AllocError>
    requires { index < 2 ^ 32 }
    ensures { IfOk result (λ name. MatchOption name ((q : Path) → IsThread (thread_under (child_of parent.now fork index) q) → ⊥) (λ t. t ≡ child_of parent.now fork index)) }
{
    match parent.child(alloc, fork, index as u32) {
        Ok(name) => Ok(Some(name)),
        Err(NameFault::BadName) => Ok(None),
        Err(NameFault::Memory) => Err(AllocError),
    }
}

/// Where a search from a path on begins among the branches of a fork: the index of a branch, and the path under that one.
fn beginning(fork: u32, from: &[(u32, u32)]) -> (usize, &[(u32, u32)])
    ensures { branch_from fork from.now ≡ (result.0, result.1.now) }
{
    match from.split_first() {
        Some((branch, under)) if branch.0 == fork => (branch.1 as usize, under),
        _ => (0, &[]),
    }
}

/// What is left of the path in a branch: all that is under the first one, and nothing in the others.
fn path_in(index: usize, first: usize, under: &[(u32, u32)]) -> &[(u32, u32)]
    ensures { ((index ≡ first) × (result.now ≡ under.now)) ⊎ (result.now ≡ []) }
{
    if index == first { under } else { &[] }
}

/// The greater of two indexes.
fn greater(one: usize, other: usize) -> usize
    ensures is { (result ≡ one) ⊎ (result ≡ other) }
    ensures least { one ≤ result }
{
    if one < other { other } else { one }
}

impl Branch {
    /// Whether the thread ended, so that it has no move and nothing is under it.
    fn has_ended(&self) -> bool
        ensures { OnTrue result ((begins : Bool) (base : Thread) (passed : Thread → Bool) → IsFirstFree begins (frame_at self.now) base passed None) }
    {
        matches!(&self.frame.phase, Phase::Done(_) | Phase::Failed(_))
    }

    /// The first thread at or under this one, whose name is given and which may begin or not, that has a move and is not
    /// passed by. If none before a path is such a thread, the branches before it need no look.
    #[cycle(first)]
    pub(crate) fn first_ready(
        &self,
        alloc: Global,
        begins: bool,
        name: &ThreadName,
        from: &[(u32, u32)],
        passed: &BTreeSet<ThreadName>,
    ) -> Result<Option<ThreadName>, AllocError>
        ensures { NoneBeforePath begins (frame_at self.now) name.now (contains thread_cmp passed.now) from.now
            → IfOk result (λ found. IsFirstFree begins (frame_at self.now) name.now (contains thread_cmp passed.now) found) }
    {
        match &self.frame.phase {
            Phase::Ready => {
                let waits = (self.frame.count == 0) & !begins;
                if waits | passed.contains(name) {
                    return Ok(None);
                }
                Ok(Some(name.copy()?))
            }
            Phase::Parked(branches, bound) => {
                self.first_at_fork(alloc, name, *branches, *bound, from, passed)
            }
            Phase::Done(_) => Ok(None),
            Phase::Failed(_) => Ok(None),
        }
    }

    /// The same of a thread that is parked. Looks at none of the branches that are done before the first that is not, at none
    /// before the path, and at none after the one found.
    #[cycle(first)]
    fn first_at_fork(
        &self,
        alloc: Global,
        name: &ThreadName,
        branches: u32,
        bound: u32,
        from: &[(u32, u32)],
        passed: &BTreeSet<ThreadName>,
    ) -> Result<Option<ThreadName>, AllocError>
        requires { IsSomeAnd (frame_at self.now []) (λ f. f.phase ≡ Phase.Parked branches bound) }
        ensures { (begins : Bool) → NoneBeforePath begins (frame_at self.now) name.now (contains thread_cmp passed.now) from.now
            → IfOk result (λ found. IsFirstFree begins (frame_at self.now) name.now (contains thread_cmp passed.now) found) }
    {
        let leading = self.counts.leading;
        let moves = (self.counts.failed != 0) | (leading == self.kids.len());
        if moves & !passed.contains(name) {
            return Ok(Some(name.copy()?));
        }
        let (first, under) = beginning(self.frame.count, from);
        for index in greater(leading, first)..self.kids.len() {
            let in_turn = is_in_turn(bound, leading, index);
            let kid = &self.kids[index];
            let left = path_in(index, first, under);
            let fork = self.frame.count;
            let found = kid.first_as_branch(alloc, in_turn, name, fork, index, left, passed)?;
            if found.is_some() {
                return Ok(found);
            }
        }
        Ok(None)
    }

    /// The same of a branch, told by its fork.
    #[cycle(first)]
    fn first_as_branch(
        &self,
        alloc: Global,
        begins: bool,
        parent: &ThreadName,
        fork: u32,
        index: usize,
        from: &[(u32, u32)],
        passed: &BTreeSet<ThreadName>,
    ) -> Result<Option<ThreadName>, AllocError>
        requires { index < 2 ^ 32 }
        ensures { NoneBeforePath begins (frame_at self.now) (child_of parent.now fork index) (contains thread_cmp passed.now) from.now
            → IfOk result (λ found. IsFirstFree begins (frame_at self.now) (child_of parent.now fork index) (contains thread_cmp passed.now) found) }
    {
        if self.has_ended() {
            return Ok(None);
        }
        match child_name(alloc, parent, fork, index)? {
            Some(name) => self.first_ready(alloc, begins, &name, from, passed),
            None => Ok(None),
        }
    }
}
