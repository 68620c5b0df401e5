// A frame and the branches under it.
ghost use Rattle.std.specs.List.{All};
ghost use Rattle.std.specs.Prelude.{◌≡◌, [], ◌∷◌, ◌++◌, None, Some, true, false, MatchOption, IsSome, IsSomeAnd, IfOk, map};
ghost use Rattle.branch_tree.specs.Paths.{Path, same_path};
ghost use Rattle.branch_tree.specs.FlatMap.{IsTree, is_parked, with_frame, grafted, alone};
ghost use Rattle.branch_tree.specs.Bounds.{bound_in};
ghost use Rattle.branch_tree.specs.Leading.{IsFork};
ghost use Rattle.branch_tree.specs.Ready.{frame_is, is_done, has_failed, is_unmoved, may_begin, progress, root_readiness};
ghost use Rattle.branch_tree.specs.Tree.{leaf, flat, frame_at, node_at, IsNode};

use crate::counts::{Counts, NONE, count, counts_after, is_in_turn};
use crate::readiness::Readiness;
use asl_frames::{Frame, Phase};
use std::alloc::{AllocError, Global};
use std::marker::Model;
use std::mem;

/// A frame, and the branches of the fork that it is parked over, which are counted so that no look at each is needed. Contracts
/// see the paths under it with their frames.
#[derive(Drop)]
pub struct Branch {
    pub(crate) frame: Frame,
    pub(crate) kids: Vec<Branch>,
    pub(crate) counts: Counts,
}

impl Model for Branch {
    ghost use Rattle.std.specs.Prelude.{length};
    ghost use Rattle.branch_tree.specs.Leading.{IsFork};
    ghost use Rattle.branch_tree.specs.Tree.{Rows, flat, rows_code};
    ghost use Rattle.std.proofs.Common.{arith};
    ghost use Rattle.branch_tree.specs.Falls.{most_le};

    ghost Value = { Rows };

    ghost coded = { rows_code };

    ghost view = { λ a. flat a.frame a.kids.items };

    ghost invariant = { λ a. IsFork a.frame a.kids.items a.counts.leading a.counts.failed };

    ghost size = { length };

    ghost size_decreases = { λ a h. omega (arith, most_le a.frame.count 0 a.kids.items) };
}

impl Branch {
    /// A branch with no branches under it. Takes no memory.
    pub fn new(alloc: Global, frame: Frame) -> Branch
        requires { is_parked frame.phase ≡ false }
        ensures rows { result ≡ leaf frame }
        ensures tree { IsTree (frame_at result) }
    {
        Branch {
            frame,
            kids: Vec::new(alloc),
            counts: NONE,
        }
    }

    /// A branch for each frame, in order. Takes one block of memory, unless there is no frame.
    pub fn leaves(alloc: Global, frames: Vec<Frame>) -> Result<Vec<Branch>, AllocError>
        requires { All (λ f. is_parked f.phase ≡ false) frames.items }
        ensures rows { IfOk result (λ kids. kids.items ≡ map leaf frames.items) }
        ensures trees { IfOk result (λ kids. All (λ kid. IsTree (frame_at kid)) kids.items) }
    {
        let mut kids = Vec::with_capacity(alloc, frames.len())?;
        for frame in frames {
            kids.push(Branch::new(alloc, frame))?;
        }
        Ok(kids)
    }

    /// The frame.
    pub fn frame(&self) -> &Frame
        ensures { frame_at self.now [] ≡ Some result.now }
    {
        &self.frame
    }

    /// The branches of the fork that it is parked over, in their order; none where it isn't parked. Takes no memory.
    pub fn branches(&self) -> &[Branch]
        ensures rows { IsSomeAnd (frame_at self.now []) (λ f. self.now ≡ flat f result.now) }
        ensures node { IsSomeAnd (frame_at self.now []) (λ f. IsNode f result.now) }
    {
        self.kids.as_slice()
    }

    /// The frame, without the branches under it.
    pub fn into_frame(self) -> Frame
        ensures { frame_at self [] ≡ Some result }
    {
        self.frame
    }

    /// How many of its branches may run at a time; 0 is no bound.
    pub(crate) fn bound(&self) -> u32
        ensures { result ≡ bound_in (frame_at self.now []) }
    {
        match &self.frame.phase {
            Phase::Parked(_, bound) => *bound,
            _ => 0,
        }
    }

    pub(crate) fn is_done(&self) -> bool
        ensures { result ≡ frame_is is_done (frame_at self.now []) }
    {
        matches!(&self.frame.phase, Phase::Done(_))
    }

    pub(crate) fn has_failed(&self) -> bool
        ensures { result ≡ frame_is has_failed (frame_at self.now []) }
    {
        matches!(&self.frame.phase, Phase::Failed(_))
    }

    /// Whether its thread is ready and has made no move.
    pub(crate) fn is_unmoved(&self) -> bool
        ensures { result ≡ is_unmoved (frame_at self.now []) }
    {
        matches!(&self.frame.phase, Phase::Ready) && self.frame.count == 0
    }

    /// What the thread of this branch can do next, where it may begin.
    pub(crate) fn readiness(&self) -> Readiness
        ensures { result ≡ root_readiness true (frame_at self.now) }
    {
        match &self.frame.phase {
            Phase::Ready => Readiness::Ready,
            Phase::Parked(_, _) => progress(
                self.counts.failed != 0,
                self.counts.leading == self.kids.len(),
            ),
            Phase::Done(_) => Readiness::Done,
            Phase::Failed(_) => Readiness::Failed,
        }
    }

    /// Whether a branch that is there may begin.
    pub(crate) fn lets_begin(&self, branch: (u32, u32)) -> bool
        requires { IsSome (frame_at self.now (branch ∷ [])) }
        ensures { result ≡ may_begin (frame_at self.now) ([], branch) }
    {
        let index = branch.1 as usize;
        let leading = self.counts.leading;
        index <= leading || is_in_turn(self.bound(), leading, index)
    }

    /// What stands at the path, with all under it.
    pub(crate) fn at(&self, path: &[(u32, u32)]) -> Option<&Branch>
        ensures { MatchOption
            result
            ((q : Path) → frame_at self.now (path.now ++ q) ≡ None)
            (λ b. (q : Path) → frame_at self.now (path.now ++ q) ≡ frame_at b.now q) }
    {
        match path {
            [] => Some(self),
            [first, rest @ ..] => {
                if first.0 != self.frame.count {
                    return None;
                }
                let kid = self.kids.get(first.1 as usize)?;
                kid.at(rest)
            }
        }
    }

    /// Puts a frame in the place of another.
    pub(crate) fn replace(&mut self, path: &[(u32, u32)], frame: Frame) -> Frame
        requires open { IsSomeAnd (frame_at self.old path.now) (λ f. is_parked f.phase ≡ false) }
        requires next { is_parked frame.phase ≡ false }
        ensures before { frame_at self.old path.now ≡ Some result }
        ensures frames { (q : Path) → frame_at self.new q ≡ with_frame (frame_at self.old) path.now frame q }
        ensures tree { IsTree (frame_at self.new) }
    {
        match path {
            [] => mem::replace(&mut self.frame, frame),
            [first, rest @ ..] => {
                let index = first.1 as usize;
                let kid = &mut self.kids[index];
                let failed = kid.has_failed();
                let before = kid.replace(rest, frame);
                self.counts = counts_after(&self.kids, self.counts, index, failed);
                before
            }
        }
    }

    /// Puts a frame with branches in the place of one that has none.
    pub(crate) fn give(&mut self, path: &[(u32, u32)], frame: Frame, kids: Vec<Branch>) -> Frame
        requires open { IsSomeAnd (frame_at self.old path.now) (λ f. is_parked f.phase ≡ false) }
        requires node { IsNode frame kids.items }
        ensures before { frame_at self.old path.now ≡ Some result }
        ensures frames { (q : Path) → frame_at self.new q ≡ grafted (frame_at self.old) path.now (node_at frame kids.items) q }
        ensures tree { IsTree (frame_at self.new) }
    {
        match path {
            [] => {
                self.counts = count(&kids);
                self.kids = kids;
                mem::replace(&mut self.frame, frame)
            }
            [first, rest @ ..] => {
                let index = first.1 as usize;
                let kid = &mut self.kids[index];
                let failed = kid.has_failed();
                let before = kid.give(rest, frame, kids);
                self.counts = counts_after(&self.kids, self.counts, index, failed);
                before
            }
        }
    }

    /// Takes out the branches under a frame, and puts another in its place.
    pub(crate) fn take(&mut self, path: &[(u32, u32)], frame: Frame) -> (Frame, Vec<Branch>)
        requires there { IsSomeAnd (frame_at self.old path.now) (λ f. is_parked f.phase ≡ true) }
        requires next { is_parked frame.phase ≡ false }
        ensures before { (q : Path) → frame_at self.old (path.now ++ q) ≡ node_at result.0 result.1.items q }
        ensures node { IsNode result.0 result.1.items }
        ensures frames { (q : Path) → frame_at self.new q ≡ grafted (frame_at self.old) path.now (alone frame) q }
        ensures tree { IsTree (frame_at self.new) }
    {
        match path {
            [] => {
                let alloc = *self.kids.allocator();
                let kids = mem::replace(&mut self.kids, Vec::new(alloc));
                self.counts = NONE;
                (mem::replace(&mut self.frame, frame), kids)
            }
            [first, rest @ ..] => {
                let index = first.1 as usize;
                let kid = &mut self.kids[index];
                let failed = kid.has_failed();
                let before = kid.take(rest, frame);
                self.counts = counts_after(&self.kids, self.counts, index, failed);
                before
            }
        }
    }
}

/// What a thread can do next that is parked over branches, of which one has failed or all are done.
fn progress(failed: bool, done: bool) -> Readiness
    ensures { result ≡ progress failed done }
{
    if failed {
        Readiness::Terminate
    } else if done {
        Readiness::Join
    } else {
        Readiness::Waiting
    }
}
