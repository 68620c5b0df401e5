// Commands that take steps back: what they need is made, and then they are entered.
ghost use Rattle.std.specs.Prelude.{◌≡◌, ◌⊎◌, true, Err, IfOk, MatchResult};
ghost use Rattle.book_log.specs.Answers.{remains, undo_answer};
ghost use Rattle.book_log.specs.Log.{appended};
ghost use Rattle.rollback_book.specs.Book.{IsMaximalPlace, IsStepAt};
ghost use Rattle.book_events.specs.Answered.{IsRollbackAnswered, IsUndoAnswered};
ghost use Rattle.rollback_book.specs.Making.{ArePlacesOf, CanEnter, CanEnterChange, IsMadeRollback, made_entry};
ghost use Rattle.rollback_book.specs.declared.making.MadeChange.TheVariants as made;

use crate::book::Book;
use crate::hold::take_out;
use crate::lists::{names_at, push_with_room};
use crate::making::{Made, MadeChange};
use book_log::{Entry, Refusal, StepNames};
use depends::Plan;
use std::alloc::{AllocError, Global};
use step_names::StepName;

impl Book {
    /// Makes everything that an undoing needs: the step was found, and no step depends on it. Takes memory for a copy of a name.
    pub(crate) fn ready_undo(&self, step: &StepName) -> Result<Made, Refusal>
        ensures answer { IsUndoAnswered self.now.log step.now (made_entry result) }
        ensures ready { IfOk result (λ m. CanEnter self.now m) }
    {
        let at = self.free_place(step)?;
        match step.copy() {
            Ok(step) => Ok(Made {
                entry: Entry::Undo { step },
                change: MadeChange::Undo(at),
            }),
            Err(AllocError) => Err(Refusal::Memory),
        }
    }

    /// The place of a step that may be undone. Takes memory for the name that a refusal tells.
    fn free_place(&self, step: &StepName) -> Result<usize, Refusal>
        ensures { MatchResult result
            (λ at. IsMaximalPlace self.now step.now at × (remains self.now.log step.now ≡ true))
            (λ e. ((e ≡ Refusal.Memory) × (remains self.now.log step.now ≡ true)) ⊎ (undo_answer self.now.log step.now ≡ Err e)) }
    {
        let Some(at) = self.history.find(step) else {
            return Err(self.absent(step));
        };
        let Some(dependent) = self.history.first_dependent(at) else {
            return Ok(at);
        };
        let needing = self.history.records().get(dependent);
        match needing.fact.name.copy() {
            Ok(name) => Err(Refusal::HasDependents(name)),
            Err(AllocError) => Err(Refusal::Memory),
        }
    }

    pub(crate) fn enter_undo(&mut self, entry: Entry, at: usize)
        requires { CanEnterChange self.old entry (made.Undo at) }
        ensures { self.new.log ≡ appended self.old.log entry }
    {
        let Entry::Undo { step } = entry else {
            unreachable!()
        };
        self.take_back(at, step);
    }

    /// Takes back the step at a place.
    pub(crate) fn take_back(&mut self, at: usize, step: StepName)
        requires { IsMaximalPlace self.old step at }
        ensures { self.new.log ≡ appended self.old.log (Entry.Undo step) }
    {
        self.history.undo(at);
        take_out(&mut self.held, &[at]);
        push_with_room(&mut self.entries, Entry::Undo { step });
    }

    /// Makes everything that a rollback needs: it is planned. Takes memory for the names and places of the step and its consequences.
    pub(crate) fn ready_rollback(&self, alloc: Global, step: &StepName) -> Result<Made, Refusal>
        ensures answer { IsRollbackAnswered self.now.log step.now (made_entry result) }
        ensures ready { IfOk result (λ m. CanEnter self.now m) }
    {
        let Some(at) = self.history.find(step) else {
            return Err(self.absent(step));
        };
        match self.make_rollback(alloc, step, at) {
            Ok(made) => Ok(made),
            Err(AllocError) => Err(Refusal::Memory),
        }
    }

    /// Plans the rollback of the step at a place.
    fn make_rollback(&self, alloc: Global, step: &StepName, at: usize) -> Result<Made, AllocError>
        requires { IsStepAt self.now step.now at }
        ensures { IfOk result (IsMadeRollback self.now.log step.now) }
    {
        let places = self.history.plan(alloc, at)?;
        let undone = names_at(alloc, self.history.records(), places.places())?;
        let step = step.copy()?;
        Ok(Made {
            entry: Entry::Rollback { step, undone },
            change: MadeChange::Rollback(places),
        })
    }

    pub(crate) fn enter_rollback(&mut self, entry: Entry, plan: Plan)
        requires { CanEnterChange self.old entry (made.Rollback plan) }
        ensures { self.new.log ≡ appended self.old.log entry }
    {
        let Entry::Rollback { step, undone } = entry else {
            unreachable!()
        };
        self.take_back_all(step, undone, plan);
    }

    /// Takes back the steps at the places of a plan, which have these names.
    pub(crate) fn take_back_all(&mut self, step: StepName, undone: StepNames, plan: Plan)
        requires { ArePlacesOf self.old.log step undone plan }
        ensures { self.new.log ≡ appended self.old.log (Entry.Rollback step undone) }
    {
        self.history.rollback(&plan);
        take_out(&mut self.held, plan.places());
        push_with_room(&mut self.entries, Entry::Rollback { step, undone });
    }
}
