// The frames of an execution.
ghost use Rattle.std.specs.Prelude.{◌≡◌, [], ◌++◌, Some, true, false, IfOk, IsSome, IsSomeAnd, option_copied};
ghost use Rattle.std.specs.BTreeSet.{contains};
ghost use Rattle.step_names.specs.Order.{thread_cmp};
ghost use Rattle.branch_tree.specs.First.{IsFirstFree, NoneBeforePath};
ghost use Rattle.branch_tree.specs.Paths.{Path};
ghost use Rattle.branch_tree.specs.FlatMap.{IsTree, is_parked, with_frame, grafted, alone};
ghost use Rattle.branch_tree.specs.Bounds.{place_of};
ghost use Rattle.branch_tree.specs.Ready.{begins_under, bound_over, readiness_at};
ghost use Rattle.branch_tree.specs.Tree.{frame_at, node_at, IsNode};

use crate::branch::Branch;
use crate::readiness::Readiness;
use asl_frames::Frame;
use std::alloc::{AllocError, Global};
use std::collections::BTreeSet;
use std::marker::Model;
use step_names::ThreadName;

/// The frames of an execution's threads. Contracts see the paths that have a frame, and `frame_at` as the flat map from
/// path to frame. A frame that is parked over n branches has those of its own last move, 0 to n - 1, and no other frame
/// has branches (`IsTree`).
#[derive(Drop)]
pub struct Tree {
    root: Branch,
}

impl Model for Tree {
    ghost use Rattle.branch_tree.specs.FlatMap.{IsTree};
    ghost use Rattle.branch_tree.specs.Tree.{Rows, frame_at, rows_code};

    ghost Value = { Rows };

    ghost coded = { rows_code };

    ghost view = { λ a. a.root };

    ghost invariant = { λ a. IsTree (frame_at a.root) };
}

impl Tree {
    /// A tree of one frame. Takes no memory.
    pub fn new(alloc: Global, frame: Frame) -> Tree
        requires { is_parked frame.phase ≡ false }
        ensures frames { (q : Path) → frame_at result q ≡ alone frame q }
        ensures tree { IsTree (frame_at result) }
    {
        Tree {
            root: Branch::new(alloc, frame),
        }
    }

    /// The frame of the execution's own thread. Drops what is under it.
    pub fn into_frame(self) -> Frame
        ensures { frame_at self [] ≡ Some result }
    {
        self.root.into_frame()
    }

    /// The frame at a path. Time of the path's length.
    pub fn find(&self, path: &[(u32, u32)]) -> Option<&Frame>
        ensures value { option_copied result ≡ frame_at self.now path.now }
        ensures tree { IsTree (frame_at self.now) }
    {
        let branch = self.root.at(path)?;
        Some(branch.frame())
    }

    /// What the thread at a path can do next. Time of the path's length.
    pub fn ready(&self, path: &[(u32, u32)]) -> Readiness
        ensures { result ≡ readiness_at (frame_at self.now) path.now }
    {
        let Some(branch) = self.root.at(path) else {
            return Readiness::NoThread;
        };
        if branch.is_unmoved() && !self.lets_begin(path) {
            Readiness::Waiting
        } else {
            branch.readiness()
        }
    }

    /// Whether the thread at a path may begin.
    fn lets_begin(&self, path: &[(u32, u32)]) -> bool
        requires { IsSome (frame_at self.now path.now) }
        ensures { result ≡ begins_under true (frame_at self.now) (place_of path.now) }
    {
        let Some((branch, above)) = path.split_last() else {
            return true;
        };
        match self.root.at(above) {
            Some(over) => over.lets_begin(*branch),
            None => true,
        }
    }

    /// How many branches may run at a time of the fork that the thread at a path is a branch of; 0 is no bound. Time of the
    /// path's length.
    pub fn bound_over(&self, path: &[(u32, u32)]) -> u32
        ensures { result ≡ bound_over (frame_at self.now) (place_of path.now) }
    {
        let Some((_, above)) = path.split_last() else {
            return 0;
        };
        match self.root.at(above) {
            Some(over) => over.bound(),
            None => 0,
        }
    }

    /// The least name among those that go on from this one, which is the execution's, whose thread moves (it is `Ready`, or
    /// can `Join` or `Terminate`) and is not passed by. None before the path `from` is such a thread; an empty one leaves none out.
    ///
    /// Looks at no branch before that path, at none that is done before the first of its fork that is not, nor at one after the
    /// thread found: if nothing is passed by, at one thread for each fork above it. Names share the execution's, and each of a
    /// branch takes a block: of the threads that are looked at and have not ended, and two for the one found.
    pub fn first_ready(
        &self,
        alloc: Global,
        execution: &ThreadName,
        from: &[(u32, u32)],
        passed: &BTreeSet<ThreadName>,
    ) -> Result<Option<ThreadName>, AllocError>
        requires { NoneBeforePath true (frame_at self.now) execution.now (contains thread_cmp passed.now) from.now }
        ensures { IfOk result (λ found. IsFirstFree true (frame_at self.now) execution.now (contains thread_cmp passed.now) found) }
    {
        self.root.first_ready(alloc, true, execution, from, passed)
    }

    /// Puts a frame in the place of the one at a path, which comes back. Takes no memory, in time of the path's length; where it
    /// is the first of its fork that isn't done, and is done now, of those that lead by it too, each of which is looked at once.
    pub fn replace(&mut self, path: &[(u32, u32)], frame: Frame) -> Frame
        requires open { IsSomeAnd (frame_at self.old path.now) (λ f. is_parked f.phase ≡ false) }
        requires next { is_parked frame.phase ≡ false }
        ensures before { frame_at self.old path.now ≡ Some result }
        ensures frames { (q : Path) → frame_at self.new q ≡ with_frame (frame_at self.old) path.now frame q }
        ensures tree { IsTree (frame_at self.new) }
    {
        self.root.replace(path, frame)
    }

    /// Puts a frame that is parked over these branches in the place of the one at a path, which comes back. The branches
    /// are moved. Takes no memory, in time of the path's length and one look at each branch.
    pub fn fork(&mut self, path: &[(u32, u32)], frame: Frame, branches: Vec<Branch>) -> Frame
        requires open { IsSomeAnd (frame_at self.old path.now) (λ f. is_parked f.phase ≡ false) }
        requires node { IsNode frame branches.items }
        ensures before { frame_at self.old path.now ≡ Some result }
        ensures frames { (q : Path) → frame_at self.new q ≡ grafted (frame_at self.old) path.now (node_at frame branches.items) q }
        ensures tree { IsTree (frame_at self.new) }
    {
        self.give_kids(path, frame, branches)
    }

    /// Takes out the branches of the frame at a path, with all under them, and puts a frame without branches in its place.
    /// Both come back, the branches moved as they are. Takes no memory, in time of the path's length.
    pub fn take_kids(&mut self, path: &[(u32, u32)], frame: Frame) -> (Frame, Vec<Branch>)
        requires there { IsSomeAnd (frame_at self.old path.now) (λ f. is_parked f.phase ≡ true) }
        requires next { is_parked frame.phase ≡ false }
        ensures before { (q : Path) → frame_at self.old (path.now ++ q) ≡ node_at result.0 result.1.items q }
        ensures node { IsNode result.0 result.1.items }
        ensures frames { (q : Path) → frame_at self.new q ≡ grafted (frame_at self.old) path.now (alone frame) q }
        ensures tree { IsTree (frame_at self.new) }
    {
        self.root.take(path, frame)
    }

    /// Gives branches back that were taken out, under the frame that stood over them. The frame in whose place it comes
    /// comes back. Takes no memory, in time of the path's length and one look at each branch.
    pub fn give_kids(&mut self, path: &[(u32, u32)], frame: Frame, kids: Vec<Branch>) -> Frame
        requires open { IsSomeAnd (frame_at self.old path.now) (λ f. is_parked f.phase ≡ false) }
        requires node { IsNode frame kids.items }
        ensures before { frame_at self.old path.now ≡ Some result }
        ensures frames { (q : Path) → frame_at self.new q ≡ grafted (frame_at self.old) path.now (node_at frame kids.items) q }
        ensures tree { IsTree (frame_at self.new) }
    {
        self.root.give(path, frame, kids)
    }
}
