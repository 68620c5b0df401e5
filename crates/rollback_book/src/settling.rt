// Steps that can't be taken back any more, and commands of a log that are entered once more.
ghost use Rattle.std.specs.Prelude.{◌≡◌, ℕ, List, length, IfErr, IfOk, OnOk};
ghost use Rattle.step_history.specs.SettledNames.{HasRoomFor};
ghost use Rattle.saved_steps.specs.declared.fact.Kind.{Kind};
ghost use Rattle.step_names.specs.declared.step.StepName.{StepName};
ghost use Rattle.book_log.specs.Legal.{IsAccepted};
ghost use Rattle.book_log.specs.Log.{appended};
ghost use Rattle.book_events.specs.Calls.{Settles};
ghost use Rattle.book_events.specs.Answered.{IsSettleAnswered};
ghost use Rattle.rollback_book.specs.Making.{made_entry, CanEnter, CanEnterChange, HasLogRoom};
ghost use Rattle.step_history.specs.History.{history_records};

use crate::book::Book;
use crate::checks::is_full_for_define;
use crate::lists::{push_with_room, reserve_entries};
use crate::making::{Made, MadeChange};
use book_log::{Entry, Refusal};
use json_tree::{Json, Text};
use std::alloc::{AllocError, Global};
use step_names::{StepName, ThreadName};

impl Book {
    /// Settles the remaining steps: executions and items are as they were, none of these steps can be taken back any more, and what was
    /// kept for that is given back. Their names stay taken. Takes memory for a place for each name.
    ///
    /// # Errors
    ///
    /// `Held`, `Full` and `Memory`, in this order; `Memory` may stand for `Held`, since the name that it tells is a copy.
    pub fn settle(&mut self, _alloc: Global) -> Result<(), Refusal>
        ensures { Settles self.old.log self.new.log result }
    {
        let made = self.ready_settle()?;
        self.enter(made);
        Ok(())
    }

    /// Makes everything that a settlement needs.
    pub(crate) fn ready_settle(&mut self) -> Result<Made, Refusal>
        ensures answer { IsSettleAnswered self.old.log (made_entry result) }
        ensures ready { IfOk result (λ m. CanEnter self.new m) }
        ensures log { self.new.log ≡ self.old.log }
    {
        if let Err(refusal) = self.check_unheld() {
            return Err(refusal);
        }
        if is_full_for_define(self.entries.len(), self.history.len()) {
            return Err(Refusal::Full);
        }
        if self.make_settling().is_err() {
            return Err(Refusal::Memory);
        }
        Ok(Made {
            entry: Entry::Settle,
            change: MadeChange::Settle,
        })
    }

    /// Makes room for the names of the remaining steps, for an entry and for that of an undoing.
    fn make_settling(&mut self) -> Result<(), AllocError>
        ensures names { OnOk result (HasRoomFor self.new.settled (length (history_records self.new.history))) }
        ensures room { OnOk result (HasLogRoom self.new) }
        ensures log { self.new.log ≡ self.old.log }
    {
        let steps = self.history.len();
        reserve_entries(&mut self.entries, steps)?;
        self.settled.reserve(steps)
    }

    pub(crate) fn enter_settle(&mut self, entry: Entry)
        requires is_accepted { IsAccepted self.old.log entry }
        requires fits { CanEnterChange self.old entry MadeChange.Settle }
        requires room { HasLogRoom self.old }
        ensures { self.new.log ≡ appended self.old.log entry }
    {
        self.history.settle(&mut self.settled);
        push_with_room(&mut self.entries, entry);
    }

    // ---- commands of a log

    /// Enters a command as an entry has it, where it is accepted.
    pub(crate) fn enter_again(&mut self, alloc: Global, entry: &Entry) -> Result<(), Refusal>
        requires { IsAccepted self.old.log entry.now }
        ensures ok { OnOk result (self.new.log ≡ appended self.old.log entry.now) }
        ensures err { IfErr result (λ e. e ≡ Refusal.Memory) }
    {
        match entry {
            Entry::Define { name, machine } => Ok(self.share_machine(name, machine)?),
            Entry::Start {
                exec,
                machine,
                input,
            } => self.start_as(alloc, exec, machine, input),
            Entry::Step { name, kind: _ } => self.step_as(alloc, name),
            Entry::Undo { step } => self.undo_as(alloc, step),
            Entry::Rollback { step, undone: _ } => self.roll_back_as(alloc, step),
            Entry::Settle => self.settle(alloc),
            Entry::Hold { step, count: _ } => self.hold_as(alloc, step),
        }
    }

    /// Starts an execution that can be started.
    fn start_as(
        &mut self,
        alloc: Global,
        exec: &ThreadName,
        machine: &Text,
        input: &Json,
    ) -> Result<(), Refusal>
        requires { IsAccepted self.old.log (Entry.Start exec.now machine.now input.now) }
        ensures ok { OnOk result (self.new.log ≡ appended self.old.log (Entry.Start exec.now machine.now input.now)) }
        ensures err { IfErr result (λ e. e ≡ Refusal.Memory) }
    {
        let input = input.copy()?;
        drop(self.start(alloc, exec, machine, input)?);
        Ok(())
    }

    /// Takes a step that can be taken.
    fn step_as(&mut self, alloc: Global, name: &StepName) -> Result<(), Refusal>
        requires { (kind : Kind) × IsAccepted self.old.log (Entry.Step name.now kind) }
        ensures ok { (kind : Kind) → IsAccepted self.old.log (Entry.Step name.now kind) → OnOk result (self.new.log ≡ appended self.old.log (Entry.Step name.now kind)) }
        ensures err { IfErr result (λ e. e ≡ Refusal.Memory) }
    {
        drop(self.step(alloc, &name.thread)?);
        Ok(())
    }

    /// Takes back a step that can be taken back.
    fn undo_as(&mut self, alloc: Global, step: &StepName) -> Result<(), Refusal>
        requires { IsAccepted self.old.log (Entry.Undo step.now) }
        ensures ok { OnOk result (self.new.log ≡ appended self.old.log (Entry.Undo step.now)) }
        ensures err { IfErr result (λ e. e ≡ Refusal.Memory) }
    {
        let room = self.room(alloc, step)?;
        drop(self.undo(room)?);
        Ok(())
    }

    /// Holds a step that remains, with its consequences.
    fn hold_as(&mut self, alloc: Global, step: &StepName) -> Result<(), Refusal>
        requires { (count : ℕ) × IsAccepted self.old.log (Entry.Hold step.now count) }
        ensures ok { (count : ℕ) → IsAccepted self.old.log (Entry.Hold step.now count) → OnOk result (self.new.log ≡ appended self.old.log (Entry.Hold step.now count)) }
        ensures err { IfErr result (λ e. e ≡ Refusal.Memory) }
    {
        self.hold(alloc, step)?;
        Ok(())
    }

    /// Takes back a step that remains, with its consequences.
    fn roll_back_as(&mut self, alloc: Global, step: &StepName) -> Result<(), Refusal>
        requires { (undone : List StepName) × IsAccepted self.old.log (Entry.Rollback step.now undone) }
        ensures ok { (undone : List StepName) → IsAccepted self.old.log (Entry.Rollback step.now undone) → OnOk result (self.new.log ≡ appended self.old.log (Entry.Rollback step.now undone)) }
        ensures err { IfErr result (λ e. e ≡ Refusal.Memory) }
    {
        let room = self.plan_room(alloc, step)?;
        drop(self.rollback(room)?);
        Ok(())
    }
}
