// The trees of executions, and up to which of them none has a move.
ghost use Rattle.std.specs.Prelude.{◌≡◌, ◌⊎◌, ℕ, List, [], ◌++◌, None, Some, true, false, IfOk, IsSomeAnd, OnOk, if◌then◌else◌};
ghost use Rattle.std.specs.BTreeMap.{get_by_text};
ghost use Rattle.std.specs.BTreeSet.{contains};
ghost use Rattle.std.specs.Str.{bytes_eq};
ghost use Rattle.std.specs.String.{string_bytes};
ghost use Rattle.branch_tree.specs.FlatMap.{IsTree, is_parked, alone};
ghost use Rattle.branch_tree.specs.Paths.{Path};
ghost use Rattle.branch_tree.specs.Tree.{node_at, IsNode};
ghost use Rattle.step_names.specs.Order.{thread_cmp};
ghost use Rattle.step_names.specs.Thread.{Thread};
ghost use Rattle.saved_steps.specs.First.{IsFirstReady, NoneBeforeThread};
ghost use Rattle.saved_steps.specs.Places.{tree_in, rows_at, frames_in, paths_of, put_at, with_thread};

use crate::first::{first_among, go_on, wake};
use crate::places;
use crate::places::{Places, Trees};
use crate::quiet::Quiet;
use asl_forward::Frame;
use branch_tree::{Branch, Tree};
use std::alloc::{AllocError, Global};
use std::collections::{BTreeMap, BTreeSet};
use std::marker::Model;
use step_names::ThreadName;

/// A place for each execution that has one, with its tree, or empty. Contracts see these.
///
/// What has ended is gone by once, however often a thread with a move is looked for. An undoing or a start wakes its execution; the
/// memory for that was taken before.
#[derive(Drop)]
pub(crate) struct Executions {
    places: Places,
    quiet: Quiet,
}

impl Model for Executions {
    ghost use Rattle.std.specs.String.{string_bytes};
    ghost use Rattle.saved_steps.specs.First.{AreQuiet};
    ghost use Rattle.saved_steps.specs.declared.places.Places.{Places};
    ghost use Rattle.saved_steps.specs.contracts.places.Places as places_row;

    ghost Value = { Places };

    ghost coded = { places_row.the_row.coded };

    ghost view = { λ e. e.places };

    ghost invariant = { λ e. AreQuiet e.places.trees (string_bytes e.quiet.name) (string_bytes e.quiet.awake) };
}

impl Executions {
    pub(crate) fn new(alloc: Global) -> Executions
        ensures { (e : List ℕ) → tree_in result.trees e ≡ None }
    {
        Executions {
            places: Places {
                trees: BTreeMap::new(alloc),
            },
            quiet: Quiet::new(alloc),
        }
    }

    /// Their trees, by their names.
    pub(crate) fn trees(&self) -> &Trees
        ensures { result.now ≡ self.now.trees }
    {
        &self.places.trees
    }

    /// Makes an empty place for an execution that has no tree. Takes memory for a copy of the name, where there is no place.
    pub(crate) fn make_place(&mut self, alloc: Global, exec: &str) -> Result<(), AllocError>
        requires { tree_in self.old.trees exec.now ≡ None }
        ensures trees { (e : List ℕ) → tree_in self.new.trees e ≡ tree_in self.old.trees e }
        ensures place { OnOk result (get_by_text self.new.trees exec.now ≡ Some None) }
    {
        places::make_place(&mut self.places.trees, alloc, exec)
    }

    /// Puts a tree into its execution's place. Takes no memory.
    pub(crate) fn put_tree(&mut self, exec: &str, tree: Tree)
        requires { get_by_text self.old.trees exec.now ≡ Some None }
        ensures { (e : List ℕ) → tree_in self.new.trees e ≡ (if bytes_eq exec.now e then Some tree else tree_in self.old.trees e) }
    {
        wake(&self.places.trees, &mut self.quiet, exec);
        self.quiet.stays = false;
        places::put_tree(&mut self.places.trees, exec, tree);
    }

    /// Takes an execution's tree away, and its place. Takes no memory.
    pub(crate) fn remove_tree(&mut self, exec: &str)
        ensures { (e : List ℕ) → tree_in self.new.trees e ≡ (if bytes_eq exec.now e then None else tree_in self.old.trees e) }
    {
        wake(&self.places.trees, &mut self.quiet, exec);
        self.quiet.stays = false;
        places::remove_tree(&mut self.places.trees, exec);
    }

    /// Puts a frame in the place of a thread's, which comes back. Takes no memory.
    pub(crate) fn replace(&mut self, thread: &ThreadName, frame: Frame) -> Frame
        requires open { IsSomeAnd (frames_in self.old.trees thread.now) (λ f. is_parked f.phase ≡ false) }
        requires next { is_parked frame.phase ≡ false }
        ensures was { frames_in self.old.trees thread.now ≡ Some result }
        ensures frames { (t : Thread) → frames_in self.new.trees t ≡ with_thread (frames_in self.old.trees) thread.now frame t }
    {
        wake(&self.places.trees, &mut self.quiet, thread.exec());
        places::replace(&mut self.places.trees, thread, frame)
    }

    /// Puts a frame and branches under it in the place of a thread's frame, which comes back. Takes no memory.
    pub(crate) fn give(&mut self, thread: &ThreadName, frame: Frame, kids: Vec<Branch>) -> Frame
        requires open { IsSomeAnd (frames_in self.old.trees thread.now) (λ f. is_parked f.phase ≡ false) }
        requires node { IsNode frame kids.items }
        ensures was { frames_in self.old.trees thread.now ≡ Some result }
        ensures frames { (t : Thread) → frames_in self.new.trees t ≡ put_at (frames_in self.old.trees) thread.now (node_at frame kids.items) t }
        ensures tree { IsTree (paths_of (frames_in self.old.trees) thread.now.exec) }
    {
        wake(&self.places.trees, &mut self.quiet, thread.exec());
        places::give(&mut self.places.trees, thread, frame, kids)
    }

    /// Takes a thread's branches out, and puts a frame in the place of its own. Both come back. Takes no memory.
    pub(crate) fn take(&mut self, thread: &ThreadName, frame: Frame) -> (Frame, Vec<Branch>)
        requires there { IsSomeAnd (frames_in self.old.trees thread.now) (λ f. is_parked f.phase ≡ true) }
        requires next { is_parked frame.phase ≡ false }
        ensures was { (q : Path) → paths_of (frames_in self.old.trees) thread.now.exec (thread.now.path ++ q) ≡ node_at result.0 result.1.items q }
        ensures node { IsNode result.0 result.1.items }
        ensures frames { (t : Thread) → frames_in self.new.trees t ≡ put_at (frames_in self.old.trees) thread.now (alone frame) t }
        ensures tree { IsTree (paths_of (frames_in self.old.trees) thread.now.exec) }
    {
        wake(&self.places.trees, &mut self.quiet, thread.exec());
        places::take(&mut self.places.trees, thread, frame)
    }

    /// Notes up to which execution none has a move, going by those that have ended since it was noted last. Takes the memory of
    /// two names once; where that is refused nothing is noted.
    pub(crate) fn go_by(&mut self)
        ensures { self.new ≡ self.old }
    {
        go_on(&self.places.trees, &mut self.quiet);
    }

    /// The least name of a thread that moves and is not passed by, none being free before one that is given as its execution and its
    /// path.
    pub(crate) fn first_ready(
        &self,
        alloc: Global,
        from: &String,
        path: &[(u32, u32)],
        passed: &BTreeSet<ThreadName>,
    ) -> Result<Option<ThreadName>, AllocError>
        requires { NoneBeforeThread (frames_in self.now.trees) (contains thread_cmp passed.now) (string_bytes from.now) path.now }
        ensures { IfOk result (λ found. IsFirstReady (frames_in self.now.trees) (contains thread_cmp passed.now) found) }
    {
        first_among(alloc, &self.places.trees, &self.quiet, from, path, passed)
    }
}
