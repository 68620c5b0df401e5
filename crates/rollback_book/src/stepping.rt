// Steps of threads: what is next is worked out and made, and then it is entered.
ghost use Rattle.std.specs.Prelude.{◌≡◌, ◌+◌, ◌<◌, ◌^◌, true, IfOk, IfErr, IsSome, MatchResult, Err, OnErr};
ghost use Rattle.std.specs.BTreeSet.{contains};
ghost use Rattle.std.specs.String.{string_bytes};
ghost use Rattle.branch_tree.specs.First.{is_free_to_move};
ghost use Rattle.step_names.specs.Order.{thread_cmp};
ghost use Rattle.saved_steps.specs.Effects.{next_step};
ghost use Rattle.saved_steps.specs.First.{NoneBeforeThread};
ghost use Rattle.saved_steps.specs.Made.{fact_made};
ghost use Rattle.book_log.specs.Answers.{step_answer};
ghost use Rattle.book_log.specs.Log.{appended, step_on_hold, world_of};
ghost use Rattle.book_events.specs.Calls.{FindsFirst, Steps};
ghost use Rattle.book_events.specs.Commits.{tells_hold};
ghost use Rattle.book_events.specs.Answered.{IsEntryOfStep, IsStepAnswered};
ghost use Rattle.rollback_book.specs.Making.{CanEnter, made_entry};
ghost use Rattle.book_events.specs.Planned.{IsMoveRefusal};
ghost use Rattle.rollback_book.specs.Ready.{HasRoomUnlessHeld, IsHeldBack, IsNextOf, IsReadyTo, MayEnter};

use crate::book::Book;
use crate::hold::{first_needed, is_full_unheld};
use crate::machines::machine_in;
use crate::making::{Made, MadeChange};
use asl_machine::SharedMachine;
use book_log::{Entry, Moved, Refusal};
use branch_tree::Readiness;
use saved_steps::Next;
use std::alloc::{AllocError, Global};
use std::collections::BTreeSet;
use step_history::turns::Frame;
use step_names::{StepName, ThreadName};

/// Whether a thread has a move.
pub(crate) fn is_enabled(readiness: Readiness) -> bool
    ensures { result ≡ is_free_to_move readiness }
{
    matches!(
        readiness,
        Readiness::Ready | Readiness::Join | Readiness::Terminate
    )
}

/// The name of a thread's next step.
pub(crate) fn next_name(thread: &ThreadName, frame: &Frame) -> Result<StepName, AllocError>
    requires { frame.now.count + 1 < 2 ^ 32 }
    ensures { IfOk result (λ n. n ≡ next_step thread.now frame.now) }
{
    let thread = thread.copy()?;
    Ok(StepName {
        thread,
        no: frame.count + 1,
    })
}

/// The command that a step is, with everything that is made for it.
fn step_made(name: StepName, step: saved_steps::Made) -> Made
    ensures entry { result.entry ≡ Entry.Step name (fact_made step).kind }
    ensures change { result.change ≡ MadeChange.Step step }
{
    let kind = step.kind();
    Made {
        entry: Entry::Step { name, kind },
        change: MadeChange::Step(step),
    }
}

/// The name and kind of a step, by its entry.
fn moved_of(entry: &Entry) -> Result<Moved, AllocError>
    requires { IsEntryOfStep entry.now }
    ensures { IfOk result (λ m. entry.now ≡ Entry.Step m.name m.kind) }
{
    let Entry::Step { name, kind } = entry else {
        unreachable!()
    };
    Ok(Moved {
        name: name.copy()?,
        kind: *kind,
    })
}

impl Book {
    /// Takes the next step of a thread, and answers its name and kind. Takes what the step takes: see `History::next_of` and
    /// `History::make`.
    ///
    /// # Errors
    ///
    /// `NoThread`, `NotReady`, `Held`, `Full` and `Memory`, in this order; while something is held `Memory` may stand for the two before it.
    pub fn step(&mut self, alloc: Global, thread: &ThreadName) -> Result<Moved, Refusal>
        ensures { Steps self.old.log self.new.log thread.now result }
    {
        let made = self.ready_step(alloc, thread)?;
        self.enter_moved(made)
    }

    /// Enters a step for which everything is made, and answers its name and kind. Takes memory for a copy of the name.
    pub(crate) fn enter_moved(&mut self, made: Made) -> Result<Moved, Refusal>
        requires ready { CanEnter self.old made }
        requires step { IsEntryOfStep made.entry }
        ensures ok { IfOk result (λ m. (made.entry ≡ Entry.Step m.name m.kind) × (self.new.log ≡ appended self.old.log made.entry)) }
        ensures memory { IfErr result (λ e. e ≡ Refusal.Memory) }
        ensures err { OnErr result (self.new.log ≡ self.old.log) }
    {
        let Ok(moved) = moved_of(made.entry()) else {
            drop(made);
            return Err(Refusal::Memory);
        };
        self.enter(made);
        Ok(moved)
    }

    /// Makes everything that the next step of a thread needs.
    pub(crate) fn ready_step(&mut self, alloc: Global, thread: &ThreadName) -> Result<Made, Refusal>
        ensures answer { IsStepAnswered self.old.log thread.now (made_entry result) }
        ensures ready { IfOk result (λ m. CanEnter self.new m) }
        ensures log { self.new.log ≡ self.old.log }
    {
        let (name, next) = self.next_of(alloc, thread)?;
        self.ready_next(alloc, name, next)
    }

    /// Makes everything that a step needs which was worked out.
    pub(crate) fn ready_next(
        &mut self,
        alloc: Global,
        name: StepName,
        next: Next,
    ) -> Result<Made, Refusal>
        requires { IsNextOf self.old name.thread name next }
        ensures answer { IsStepAnswered self.old.log name.thread (made_entry result) }
        ensures ready { IfOk result (λ m. CanEnter self.new m) }
        ensures held { IfErr result (λ e. tells_hold e ≡ true → IsSome (step_on_hold self.old.log)) }
        ensures log { self.new.log ≡ self.old.log }
    {
        let Ok(step) = self.make_step(alloc, &name, next) else {
            drop(name);
            return Err(Refusal::Memory);
        };
        if let Err(refusal) = self.check_made(&step) {
            drop(name);
            drop(step);
            return Err(refusal);
        }
        Ok(step_made(name, step))
    }

    /// Whether a step that is made may be entered: where something is held, it must not depend directly on what is left, and there
    /// must be room. Where nothing is held that there is room is known. Takes memory for what is known of the step, while something
    /// is held.
    fn check_made(&self, step: &saved_steps::Made) -> Result<(), Refusal>
        requires { HasRoomUnlessHeld self.now.log }
        ensures answer { MatchResult result
            (λ _. MayEnter self.now.log (fact_made step.now))
            (IsHeldBack self.now.log (fact_made step.now)) }
        ensures held { IfErr result (λ _. IsSome (step_on_hold self.now.log)) }
    {
        let Some(hold) = &self.held else {
            return Ok(());
        };
        if let Some(place) = first_needed(hold, self.history.records(), step)? {
            let needed = self.history.records().get(place);
            return Err(Refusal::Held(needed.fact.name.copy()?));
        }
        if self.is_full() {
            return Err(Refusal::Full);
        }
        Ok(())
    }

    /// The least thread outside a set, by the order of names, that has a move. Takes the memory and the time of
    /// `History::first_ready`: executions that are done or have failed are gone by without memory, and not again by later calls.
    ///
    /// # Errors
    ///
    /// `Memory`.
    pub fn first_ready(
        &self,
        alloc: Global,
        outside: &BTreeSet<ThreadName>,
    ) -> Result<Option<ThreadName>, Refusal>
        ensures { FindsFirst self.now.log (contains thread_cmp outside.now) result }
    {
        self.first_ready_from(alloc, &String::new(alloc), &[], outside)
    }

    /// The same, if no thread before the one at `path` in the execution `from` has a move and is outside the set: none of these is
    /// looked at.
    ///
    /// # Errors
    ///
    /// `Memory`.
    pub fn first_ready_from(
        &self,
        alloc: Global,
        from: &String,
        path: &[(u32, u32)],
        outside: &BTreeSet<ThreadName>,
    ) -> Result<Option<ThreadName>, Refusal>
        requires { NoneBeforeThread (world_of self.now.log).frames (contains thread_cmp outside.now) (string_bytes from.now) path.now }
        ensures { FindsFirst self.now.log (contains thread_cmp outside.now) result }
    {
        match self.history.first_ready(alloc, from, path, outside) {
            Ok(found) => Ok(found),
            Err(AllocError) => Err(Refusal::Memory),
        }
    }

    /// The name of the next step of a thread, and what it is to do.
    fn next_of(&self, alloc: Global, thread: &ThreadName) -> Result<(StepName, Next), Refusal>
        ensures { MatchResult result
            (λ p. IsNextOf self.now thread.now p.0 p.1)
            (IsMoveRefusal self.now.log thread.now) }
    {
        let (machine, frame) = self.check_step(thread)?;
        let Ok(name) = next_name(thread, frame) else {
            return Err(Refusal::Memory);
        };
        match self.history.next_of(alloc, machine, thread, frame) {
            Ok(Some(next)) => Ok((name, next)),
            Ok(None) => unreachable!(),
            Err(AllocError) => {
                drop(name);
                Err(Refusal::Memory)
            }
        }
    }

    /// The machine and the frame of a thread that may move, as far as its own state and the room tell it: where something is held, the room
    /// is looked at later.
    fn check_step(&self, thread: &ThreadName) -> Result<(&SharedMachine, &Frame), Refusal>
        ensures { MatchResult result
            (λ p. IsReadyTo self.now thread.now p.0.now p.1.now)
            (λ e. step_answer self.now.log thread.now ≡ Err e) }
    {
        let Some((frame, readiness)) = self.history.look_up(thread) else {
            return Err(Refusal::NoThread);
        };
        if !is_enabled(readiness) {
            return Err(Refusal::NotReady(readiness));
        }
        if is_full_unheld(&self.held, self.entries.len(), self.history.len()) {
            return Err(Refusal::Full);
        }
        let Some(machine) = machine_in(&self.machines, &frame.level.machine) else {
            unreachable!()
        };
        Ok((machine, frame))
    }
}
