// Turns that were prepared apart from the book, and are taken where they are still their threads'.
ghost use Rattle.std.specs.Prelude.{◌≡◌, true, false, IfOk, IfErr, IsSome, MatchResult};
ghost use Rattle.book_events.specs.Commits.{AnswersCommit, Commits, IsFresh, IsSource, IsStaleness, is_phase_ready, tells_hold, turn_refused};
ghost use Rattle.book_log.specs.Log.{step_on_hold};
ghost use Rattle.book_events.specs.Answered.{IsStepAnswered};
ghost use Rattle.rollback_book.specs.Making.{CanEnter, made_entry};

use crate::book::Book;
use crate::hold::is_full_unheld;
use crate::machines::machine_in;
use crate::making::Made;
use crate::stepping::{is_enabled, next_name};
use book_events::{CommitRefusal, Staleness};
use book_log::{Moved, Refusal};
use branch_tree::Readiness;
use saved_steps::Next;
use std::alloc::Global;
use step_history::turns::{Frame, Phase, Prepared};
use step_names::ThreadName;

/// Whether a thread stands before its state.
fn is_ready(phase: &Phase) -> bool
    ensures { result ≡ is_phase_ready phase.now }
{
    matches!(phase, Phase::Ready)
}

/// How a turn is refused: one that is held back comes back.
fn turn_refused(refusal: Refusal, prepared: Prepared) -> CommitRefusal
    ensures { result ≡ turn_refused refusal prepared }
{
    match refusal {
        Refusal::Held(step) => CommitRefusal::Held(step, prepared),
        refusal => {
            drop(prepared);
            CommitRefusal::Refused(refusal)
        }
    }
}

impl Book {
    /// Takes a turn that was prepared of a thread's frame, where the thread still has that frame and the book that machine, and
    /// answers the step's name and kind. Both are compared whole, which takes no memory, and time linear in what they hold at
    /// most. Takes what `History::make` takes: the turn isn't prepared again, unless something is held.
    ///
    /// # Errors
    ///
    /// `Stale` and `Held`, which hand the turn back, and `Refused` with `Full` or `Memory`, in this order; while something is held
    /// `Memory` may stand for the two before it.
    #[tactic(auto, using(crate::proofs::Ticketed::unheld_answer))]
    pub fn commit(
        &mut self,
        alloc: Global,
        thread: &ThreadName,
        prepared: Prepared,
    ) -> Result<Moved, CommitRefusal>
        ensures answer { AnswersCommit self.old.log thread.now prepared result }
        ensures log { Commits self.old.log result self.new.log }
    {
        if let Some(why) = self.staleness(thread, &prepared) {
            return Err(CommitRefusal::Stale(why, prepared));
        }
        if self.held().is_some() {
            return self.commit_beside_hold(alloc, thread, prepared);
        }
        match self.ready_commit(alloc, thread, prepared) {
            Ok(made) => match self.enter_moved(made) {
                Ok(moved) => Ok(moved),
                Err(refusal) => Err(CommitRefusal::Refused(refusal)),
            },
            Err(refusal) => Err(CommitRefusal::Refused(refusal)),
        }
    }

    /// The same of a turn that is its thread's next, while something is held. Only a step that is made tells on what it depends, and
    /// making it spends its turn: so it is worked out once more, and this one can be handed back.
    #[tactic(auto, using(crate::proofs::Ticketed::turn_answer))]
    fn commit_beside_hold(
        &mut self,
        alloc: Global,
        thread: &ThreadName,
        prepared: Prepared,
    ) -> Result<Moved, CommitRefusal>
        requires { IsFresh self.old.log thread.now prepared }
        ensures answer { AnswersCommit self.old.log thread.now prepared result }
        ensures log { Commits self.old.log result self.new.log }
    {
        match self.ready_step(alloc, thread) {
            Ok(made) => {
                drop(prepared);
                match self.enter_moved(made) {
                    Ok(moved) => Ok(moved),
                    Err(refusal) => Err(CommitRefusal::Refused(refusal)),
                }
            }
            Err(refusal) => Err(turn_refused(refusal, prepared)),
        }
    }

    /// Why a turn isn't the thread's next, if it isn't.
    fn staleness(&self, thread: &ThreadName, prepared: &Prepared) -> Option<Staleness>
        ensures { IsStaleness self.now.log thread.now prepared.now result }
    {
        let Some((frame, readiness)) = self.history.look_up(thread) else {
            return Some(Staleness::Gone);
        };
        if !is_ready(&frame.phase) {
            return Some(Staleness::NotReady(readiness));
        }
        if frame.count != prepared.frame().count {
            return Some(Staleness::Moved(frame.count));
        }
        if !self.is_source(prepared, frame) {
            return Some(Staleness::Other);
        }
        if !is_enabled(readiness) {
            return Some(Staleness::NotReady(readiness));
        }
        None
    }

    /// Whether a turn was prepared of this frame, in the book's machine of its level.
    fn is_source(&self, prepared: &Prepared, frame: &Frame) -> bool
        ensures same { result ≡ true → IsSource self.now.log prepared.now frame.now }
        ensures other { result ≡ false → IsSource self.now.log prepared.now frame.now → ⊥ }
    {
        if frame != prepared.frame() {
            return false;
        }
        match machine_in(&self.machines, &frame.level.machine) {
            Some(machine) => machine == prepared.machine(),
            None => false,
        }
    }

    /// Makes everything that a turn needs which is still its thread's.
    fn ready_commit(
        &mut self,
        alloc: Global,
        thread: &ThreadName,
        prepared: Prepared,
    ) -> Result<Made, Refusal>
        requires { IsFresh self.old.log thread.now prepared }
        ensures answer { IsStepAnswered self.old.log thread.now (made_entry result) }
        ensures ready { IfOk result (λ m. CanEnter self.new m) }
        ensures held { IfErr result (λ e. tells_hold e ≡ true → IsSome (step_on_hold self.old.log)) }
        ensures log { self.new.log ≡ self.old.log }
    {
        if is_full_unheld(&self.held, self.entries.len(), self.history.len()) {
            drop(prepared);
            return Err(Refusal::Full);
        }
        let Ok(name) = next_name(thread, prepared.frame()) else {
            drop(prepared);
            return Err(Refusal::Memory);
        };
        self.ready_next(alloc, name, Next::Work(prepared))
    }
}
