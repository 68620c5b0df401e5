// The executions and the items that steps change.
ghost use Rattle.std.specs.Prelude.{◌≡◌, None, option_copied, option_map, IfOk, IfSome};
ghost use Rattle.std.specs.BTreeSet.{contains};
ghost use Rattle.std.specs.String.{string_bytes};
ghost use Rattle.branch_tree.specs.FlatMap.{IsTree};
ghost use Rattle.branch_tree.specs.Ready.{readiness_at};
ghost use Rattle.step_names.specs.Order.{thread_cmp};
ghost use Rattle.step_names.specs.Thread.{Thread};
ghost use Rattle.saved_steps.specs.First.{IsFirstReady, NoneBeforeThread};
ghost use Rattle.saved_steps.specs.Held.{frames_of, paths_of};

use crate::executions::Executions;
use crate::places::{frame_in, look_up};
use asl_forward::Frame;
use branch_tree::Readiness;
use item_store::ItemStore;
use std::alloc::{AllocError, Global};
use std::collections::BTreeSet;
use step_names::ThreadName;

/// The frames of all executions, and the items of the table. Contracts see its `frames_of`, and the store.
#[derive(Drop)]
pub struct World {
    pub(crate) alloc: Global,
    pub(crate) executions: Executions,
    pub(crate) items: ItemStore,
}

impl World {
    /// A world without executions, over these items. Takes no memory.
    pub fn new(alloc: Global, items: ItemStore) -> World
        ensures frames { (t : Thread) → frames_of result t ≡ None }
        ensures items { result.items ≡ items }
    {
        World {
            alloc,
            executions: Executions::new(alloc),
            items,
        }
    }

    /// The frame of a thread. Takes no memory, in time logarithmic in the number of executions, and of the path's length.
    pub fn frame(&self, thread: &ThreadName) -> Option<&Frame>
        ensures value { option_copied result ≡ frames_of self.now thread.now }
        ensures tree { IfSome result (λ f. IsTree (paths_of (frames_of self.now) thread.now.exec)) }
    {
        frame_in(self.executions.trees(), thread)
    }

    /// The frame of a thread, and what it can do next. Takes no memory, in the time of `frame` and of the number of the thread's
    /// branches; the execution is looked up once.
    pub fn look_up(&self, thread: &ThreadName) -> Option<(&Frame, Readiness)>
        ensures frame { option_map (λ p. p.0.now) result ≡ frames_of self.now thread.now }
        ensures ready { IfSome result (λ p. p.1 ≡ readiness_at (paths_of (frames_of self.now) thread.now.exec) thread.now.path) }
    {
        look_up(self.executions.trees(), thread)
    }

    /// The least name of a thread that moves (it is `Ready`, or can `Join` or `Terminate`) and is not passed by. No such thread is
    /// before the one at `path` in the execution `from`; two empty ones leave none out.
    ///
    /// Goes through the executions in the order of their names, up to that of the thread that it finds: from `from` on, or from the
    /// first that hadn't ended when a step was last made, and by one besides that was started or undone since. One that is done or
    /// has failed costs a step and no memory; of the others it takes the time and the blocks of `Tree::first_ready`, and two for the
    /// name of the execution if that has more than 22 bytes.
    pub fn first_ready(
        &self,
        alloc: Global,
        from: &String,
        path: &[(u32, u32)],
        passed: &BTreeSet<ThreadName>,
    ) -> Result<Option<ThreadName>, AllocError>
        requires { NoneBeforeThread (frames_of self.now) (contains thread_cmp passed.now) (string_bytes from.now) path.now }
        ensures { IfOk result (λ found. IsFirstReady (frames_of self.now) (contains thread_cmp passed.now) found) }
    {
        self.executions.first_ready(alloc, from, path, passed)
    }

    /// The items of the table.
    pub fn items(&self) -> &ItemStore
        ensures { result.now ≡ self.now.items }
    {
        &self.items
    }
}
