// The steps that remain, and the world that they give.
ghost use Rattle.std.specs.Prelude.{◌≡◌, [], None, IfOk, IfSome, length, position, option_copied, option_map};
ghost use Rattle.std.specs.BTreeSet.{contains};
ghost use Rattle.std.specs.String.{string_bytes};
ghost use Rattle.saved_steps.specs.Ready.{readiness_at};
ghost use Rattle.depends.specs.Plans as plans;
ghost use Rattle.item_store.specs.Store.{stored_items};
ghost use Rattle.saved_steps.specs.First.{IsFirstReady, NoneBeforeThread};
ghost use Rattle.saved_steps.specs.Held.{frames_of, paths_of, store_of};
ghost use Rattle.saved_steps.specs.World.{Setting, is_same_step};
ghost use Rattle.step_names.specs.Order.{thread_cmp};
ghost use Rattle.step_history.specs.History.{IsHistory, IsSomeHistory, nothing_over};

use asl_forward::Frame;
use item_store::ItemStore;
use saved_steps::World;
use saved_steps::branches::Readiness;
use std::alloc::{AllocError, Global};
use std::collections::BTreeSet;
use step_index::StepRecords;
use step_names::{StepName, ThreadName};

/// The steps that were taken and remain, in their order, with the executions and items that they give.
#[derive(Drop)]
pub struct History {
    pub(crate) world: World,
    pub(crate) records: StepRecords,
}

impl History {
    /// No steps, over these items. Takes no memory.
    pub fn new(alloc: Global, items: ItemStore) -> History
        ensures { (s : Setting) → s.table ≡ items.table → s.schema ≡ items.schema → IsHistory s (nothing_over items) [] result }
    {
        History {
            world: World::new(alloc, items),
            records: StepRecords::new(alloc),
        }
    }

    /// The frame of a thread. Takes no memory.
    pub fn frame(&self, thread: &ThreadName) -> Option<&Frame>
        ensures { option_copied result ≡ frames_of self.now.world thread.now }
    {
        self.world.frame(thread)
    }

    /// The frame of a thread, and what it can do next: its execution is looked up once. Takes no memory.
    pub fn look_up(&self, thread: &ThreadName) -> Option<(&Frame, Readiness)>
        ensures frame { option_map (λ p. p.0.now) result ≡ frames_of self.now.world thread.now }
        ensures ready { IfSome result (λ p. p.1 ≡ readiness_at (paths_of (frames_of self.now.world) thread.now.exec) thread.now.path) }
    {
        self.world.look_up(thread)
    }

    /// The least name of a thread that has a move and is not passed by, if there is none before the one at `path` in the execution
    /// `from`. Takes the memory and the time of `World::first_ready`: executions that are done or have failed cost a step each and no
    /// memory.
    pub fn first_ready(
        &self,
        alloc: Global,
        from: &String,
        path: &[(u32, u32)],
        passed: &BTreeSet<ThreadName>,
    ) -> Result<Option<ThreadName>, AllocError>
        requires { NoneBeforeThread (frames_of self.now.world) (contains thread_cmp passed.now) (string_bytes from.now) path.now }
        ensures { IfOk result (λ found. IsFirstReady (frames_of self.now.world) (contains thread_cmp passed.now) found) }
    {
        self.world.first_ready(alloc, from, path, passed)
    }

    /// The items of the table.
    pub fn items(&self) -> &ItemStore
        ensures { result.now ≡ (store_of self.now.world) }
    {
        self.world.items()
    }

    /// What is kept of each step, in order.
    pub fn records(&self) -> &StepRecords
        ensures { result.now.items ≡ self.now.records.items }
    {
        &self.records
    }

    /// How many steps remain.
    pub fn len(&self) -> usize
        ensures { result ≡ length self.now.records.items }
    {
        self.records.len()
    }

    /// The place of the step of a name. Takes no memory; looks at the steps whose names have its hash.
    pub fn find(&self, name: &StepName) -> Option<usize>
        requires { IsSomeHistory self.now }
        ensures { result ≡ position (λ r. is_same_step r.fact.name name.now) self.now.records.items }
    {
        self.records.find(name)
    }
}
