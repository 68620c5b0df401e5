// The calls of a book that many callers may share.
ghost use Rattle.std.specs.Prelude.{◌≡◌, ◌≤◌, [], length, option_copied};
ghost use Rattle.std.specs.BTreeSet.{contains};
ghost use Rattle.std.specs.String.{string_bytes};
ghost use Rattle.json_tree.specs.Data.{depth, most_levels};
ghost use Rattle.json_tree.specs.View.{data_of};
ghost use Rattle.step_names.specs.Order.{thread_cmp};
ghost use Rattle.saved_steps.specs.First.{NoneBeforeThread};
ghost use Rattle.book_log.specs.Log.{Log, step_on_hold, left_of, world_of};
ghost use Rattle.book_events.specs.Calls.{FindsFirst, Holds, IsLatestLeft, IsLogOf, MakesRoom, PlansRollback, RollsBack, Shows, Starts, Steps, Undoes};
ghost use Rattle.book_events.specs.Commits.{AnswersCommit, Commits};
ghost use Rattle.book_events.specs.Planned.{WasPlanned};
ghost use Rattle.book_events.specs.Tickets.{AnswersTicket};

use crate::commits::CommitRefusal;
use crate::room::{PlanRoom, Room};
use crate::ticket::Ticket;
use book_log::{Begin, Entry, Moved, Refusal, StepNames};
use json_tree::{Json, Text};
use std::alloc::Global;
use std::collections::BTreeSet;
use step_history::turns::{Frame, Prepared};
use step_names::{StepName, ThreadName};

/// What executes commands one after another and keeps each accepted one as the next entry of its log, as `Book` does; its calls
/// promise what `Book`'s do. Code over any such type can add entries by these calls alone: it can neither make a book nor take one
/// out, so what is in a log stays there.
pub trait Events {
    /// What it began with, and the commands that it accepted.
    ghost log: { Self → Log };

    /// As `Book::start`.
    fn start(
        &mut self,
        alloc: Global,
        exec: &ThreadName,
        machine: &Text,
        input: Json,
    ) -> Result<StepName, Refusal>
        requires execution { exec.now.path ≡ [] }
        requires shallow { depth (data_of input) ≤ most_levels }
        ensures { Starts (log self.old) (log self.new) exec.now machine.now input result };

    /// As `Book::step`.
    fn step(&mut self, alloc: Global, thread: &ThreadName) -> Result<Moved, Refusal>
        ensures { Steps (log self.old) (log self.new) thread.now result };

    /// As `Book::commit`.
    fn commit(
        &mut self,
        alloc: Global,
        thread: &ThreadName,
        prepared: Prepared,
    ) -> Result<Moved, CommitRefusal>
        ensures answer { AnswersCommit (log self.old) thread.now prepared result }
        ensures log { Commits (log self.old) result (log self.new) };

    /// As `Book::hold`.
    fn hold(&mut self, alloc: Global, step: &StepName) -> Result<usize, Refusal>
        ensures { Holds (log self.old) (log self.new) step.now result };

    /// As `Book::held`.
    fn held(&self) -> Option<&StepName>
        ensures { option_copied result ≡ step_on_hold (log self.now) };

    /// As `Book::held_left`.
    fn held_left(&self) -> usize
        ensures { result ≡ length (left_of (log self.now)) };

    /// As `Book::last_left`.
    fn last_left(&self) -> Option<&StepName>
        ensures { IsLatestLeft (log self.now) (option_copied result) };

    /// As `Book::room`.
    fn room(&self, alloc: Global, step: &StepName) -> Result<Room, Refusal>
        ensures { MakesRoom step.now result };

    /// As `Book::undo`.
    fn undo(&mut self, room: Room) -> Result<StepName, Refusal>
        ensures { Undoes (log self.old) (log self.new) room.step result };

    /// As `Book::plan_room`.
    fn plan_room(&self, alloc: Global, step: &StepName) -> Result<PlanRoom, Refusal>
        ensures { PlansRollback (log self.now) step.now result };

    /// As `Book::rollback`.
    fn rollback(&mut self, room: PlanRoom) -> Result<StepNames, Refusal>
        requires { WasPlanned (log self.old) room }
        ensures { RollsBack (log self.old) (log self.new) room result };

    /// As `Book::first_ready`.
    fn first_ready(
        &self,
        alloc: Global,
        outside: &BTreeSet<ThreadName>,
    ) -> Result<Option<ThreadName>, Refusal>
        ensures { FindsFirst (log self.now) (contains thread_cmp outside.now) result };

    /// As `Book::first_ready_from`.
    fn first_ready_from(
        &self,
        alloc: Global,
        from: &String,
        path: &[(u32, u32)],
        outside: &BTreeSet<ThreadName>,
    ) -> Result<Option<ThreadName>, Refusal>
        requires { NoneBeforeThread (world_of (log self.now)).frames (contains thread_cmp outside.now) (string_bytes from.now) path.now }
        ensures { FindsFirst (log self.now) (contains thread_cmp outside.now) result };

    /// As `Book::ticket`.
    fn ticket(&self, thread: &ThreadName) -> Result<Ticket, Refusal>
        ensures { AnswersTicket (log self.now) thread.now result };

    /// As `Book::show`.
    fn show(&self, thread: &ThreadName) -> Result<&Frame, Refusal>
        ensures { Shows (log self.now) thread.now result };

    /// As `Book::entries`.
    fn entries(&self) -> (&Begin, &[Entry])
        ensures { IsLogOf (log self.now) result.0.now result.1.now };
}
