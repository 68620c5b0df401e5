// A step and its consequences that are held: what is left of them is taken back, by many undoings, while the rest goes on.
ghost use Rattle.std.specs.List.{All};
ghost use Rattle.std.specs.Prelude.{◌≡◌, ◌<◌, IfOk, MatchResult, None, OnOk, length, option_copied};
ghost use Rattle.book_log.specs.Answers.{is_full_for_step};
ghost use Rattle.book_log.specs.Legal.{IsAccepted};
ghost use Rattle.book_log.specs.Log.{appended, step_on_hold, left_of};
ghost use Rattle.rollback_book.specs.Book.{IsStepAt};
ghost use Rattle.book_events.specs.Calls.{Holds, IsLatestLeft};
ghost use Rattle.rollback_book.specs.Holding.{IsHoldRefusal};
ghost use Rattle.book_events.specs.Answered.{HoldsSoMany, IsEntryOfHold, IsHoldAnswered};
ghost use Rattle.rollback_book.specs.Making.{CanEnter, CanEnterChange, HasLogRoom, IsMadeHold, MakesHold, made_entry};
ghost use Rattle.rollback_book.specs.declared.making.MadeChange.TheVariants as made;
ghost use Rattle.step_history.specs.History.{history_records};

use crate::book::Book;
use crate::checks::{is_full_for_define, is_full_for_step};
use crate::hold::Hold;
use crate::lists::{push_with_room, reserve_entries};
use crate::making::{Made, MadeChange};
use book_log::{Entry, Refusal};
use depends::Plan;
use std::alloc::{AllocError, Global};
use step_index::{HeldSteps, StepRecords};
use step_names::StepName;

impl Book {
    /// Holds a step and its consequences, and answers how many they are: until they are taken back, no step is taken that would
    /// depend directly on what is left of them. Takes memory for marks of the remaining steps, and for what `plan_room` plans; one
    /// pass over the remaining steps.
    ///
    /// # Errors
    ///
    /// `NoStep` and `Settled`, `Held`, `Full` and `Memory`, in this order; `Memory` may stand for `Held`, since the name that it
    /// tells is a copy.
    pub fn hold(&mut self, alloc: Global, step: &StepName) -> Result<usize, Refusal>
        ensures { Holds self.old.log self.new.log step.now result }
    {
        let made = self.ready_hold(alloc, step)?;
        let count = held_count(made.entry());
        self.enter(made);
        Ok(count)
    }

    /// The step of the hold that stands, if one does. Takes no memory.
    pub fn held(&self) -> Option<&StepName>
        ensures { option_copied result ≡ step_on_hold self.now.log }
    {
        match &self.held {
            Some(hold) => Some(&hold.step),
            None => None,
        }
    }

    /// How many steps are left of a hold: none without one. Takes no memory.
    pub fn held_left(&self) -> usize
        ensures { result ≡ length (left_of self.now.log) }
    {
        match &self.held {
            Some(hold) => hold.left.len(),
            None => 0,
        }
    }

    /// The latest step that is left of a hold: none without one. It can be undone. Takes no memory.
    pub fn last_left(&self) -> Option<&StepName>
        ensures { IsLatestLeft self.now.log (option_copied result) }
    {
        let Some(hold) = &self.held else {
            return None;
        };
        match hold.left.last() {
            Some(place) => Some(&self.history.records().get(place).fact.name),
            None => None,
        }
    }

    /// Whether no step can be taken more.
    pub(crate) fn is_full(&self) -> bool
        ensures { result ≡ is_full_for_step self.now.log }
    {
        is_full_for_step(self.entries.len(), self.history.len())
    }

    /// Refuses where something is held.
    pub(crate) fn check_unheld(&self) -> Result<(), Refusal>
        ensures { MatchResult result (λ _. step_on_hold self.now.log ≡ None) (IsHoldRefusal self.now.log) }
    {
        match self.held() {
            Some(name) => Err(Refusal::Held(name.copy()?)),
            None => Ok(()),
        }
    }

    /// Makes everything that a hold needs.
    pub(crate) fn ready_hold(&mut self, alloc: Global, step: &StepName) -> Result<Made, Refusal>
        ensures answer { IsHoldAnswered self.old.log step.now (made_entry result) }
        ensures ready { IfOk result (λ m. CanEnter self.new m) }
        ensures log { self.new.log ≡ self.old.log }
    {
        let Some(at) = self.history.find(step) else {
            return Err(self.absent(step));
        };
        if let Err(refusal) = self.check_unheld() {
            return Err(refusal);
        }
        if is_full_for_define(self.entries.len(), self.history.len()) {
            return Err(Refusal::Full);
        }
        match self.make_hold(alloc, step, at) {
            Ok(made) => Ok(made),
            Err(AllocError) => Err(Refusal::Memory),
        }
    }

    /// Makes what the hold of the step at a place needs, and room for its entry and that of an undoing.
    fn make_hold(&mut self, alloc: Global, step: &StepName, at: usize) -> Result<Made, AllocError>
        requires { IsStepAt self.old step.now at }
        ensures made { IfOk result (MakesHold self.old.log (history_records self.new.history) step.now) }
        ensures room { OnOk result (HasLogRoom self.new) }
        ensures log { self.new.log ≡ self.old.log }
    {
        reserve_entries(&mut self.entries, self.history.len())?;
        let plan = self.history.plan(alloc, at)?;
        match made_of_plan(alloc, step, self.history.records(), &plan) {
            Ok(made) => Ok(made),
            Err(AllocError) => Err(AllocError),
        }
    }

    pub(crate) fn enter_hold(&mut self, entry: Entry, hold: Hold)
        requires is_accepted { IsAccepted self.old.log entry }
        requires fits { CanEnterChange self.old entry (made.Hold hold) }
        requires room { HasLogRoom self.old }
        ensures { self.new.log ≡ appended self.old.log entry }
    {
        self.held = Some(hold);
        push_with_room(&mut self.entries, entry);
    }
}

/// How many steps a hold holds, by its entry.
fn held_count(entry: &Entry) -> usize
    requires { IsEntryOfHold entry.now }
    ensures { HoldsSoMany entry.now result }
{
    let Entry::Hold { step: _, count } = entry else {
        unreachable!()
    };
    *count
}

/// The hold of a step with this plan.
fn made_of_plan(
    alloc: Global,
    step: &StepName,
    records: &StepRecords,
    plan: &Plan,
) -> Result<Made, AllocError>
    requires { All (λ place. place < length records.now.items) plan.now }
    ensures { IfOk result (IsMadeHold step.now records.now.items plan.now) }
{
    let left = HeldSteps::of_plan(alloc, records, plan)?;
    match hold_made(step, plan.places().len(), left) {
        Ok(made) => Ok(made),
        Err(AllocError) => Err(AllocError),
    }
}

/// The command that a hold is, with what is left of it.
fn hold_made(step: &StepName, count: usize, left: HeldSteps) -> Result<Made, AllocError>
    ensures { IfOk result (λ m. m ≡ record { entry = Entry.Hold step.now count; change = MadeChange.Hold (record { step = step.now; left = left }) }) }
{
    let Ok((told, step)) = two_copies(step) else {
        drop(left);
        return Err(AllocError);
    };
    Ok(Made {
        entry: Entry::Hold { step: told, count },
        change: MadeChange::Hold(Hold { step, left }),
    })
}

fn two_copies(step: &StepName) -> Result<(StepName, StepName), AllocError>
    ensures { IfOk result (λ p. (p.0 ≡ step.now) × (p.1 ≡ step.now)) }
{
    Ok((step.copy()?, step.copy()?))
}
