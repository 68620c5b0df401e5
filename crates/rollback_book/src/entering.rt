// Commands that add to a book: everything is made for one, and then it is entered.
ghost use Rattle.std.specs.Prelude.{◌≡◌, ◌≤◌, ◌⊎◌, [], IfOk, IfErr, IsTrue, false, OnOk, OnErr, MatchResult, Some, None, Ok, Err, is_some};
ghost use Rattle.json_tree.specs.Data.{depth, most_levels};
ghost use Rattle.json_tree.specs.View.{data_of};
ghost use Rattle.serde_json.specs.View.{view};
ghost use Rattle.asl_tree.specs.Definition.{Definition};
ghost use Rattle.asl_tree.specs.Levels.{IsWellFormedThroughout};
ghost use Rattle.asl_machine.specs.Profile.{Defines};
ghost use Rattle.saved_steps.specs.Held.{frames_of, world_view};
ghost use Rattle.saved_steps.specs.Made.{CanMake};
ghost use Rattle.saved_steps.specs.Steps.{start_name};
ghost use Rattle.book_log.specs.Answers.{IsDefineRefusal, is_full_for_define, start_answer};
ghost use Rattle.book_log.specs.Legal.{IsAccepted};
ghost use Rattle.book_log.specs.Log.{appended, machine_of, world_of};
ghost use Rattle.rollback_book.specs.Book.{machine_place};
ghost use Rattle.book_events.specs.Calls.{Starts};
ghost use Rattle.book_events.specs.Answered.{IsCommandAnswered, IsDefineAnswered, IsProperChange, IsStartAnswered};
ghost use Rattle.rollback_book.specs.Making.{CanEnter, CanEnterChange, HasLogRoom, made_entry};
ghost use Rattle.book_events.specs.Planned.{OrMemory};
ghost use Rattle.rollback_book.specs.Ready.{IsMadeIn, IsStartOf};
ghost use Rattle.step_history.specs.History.{history_world};

use crate::book::Book;
use crate::checks::{is_full_for_define, is_full_for_step, read_machine};
use crate::hold::{add_unheld, reserve_held};
use crate::lists::{push_with_room, reserve_entries};
use crate::machines::{fill_place, machine_in, make_place};
use crate::making::{Made, MadeChange, make_define, start_entry};
use asl_machine::{Machine, SharedMachine};
use book_events::Change;
use book_log::{Entry, Refusal};
use json_tree::{Json, Text};
use saved_steps::Next;
use serde_json::Value;
use std::alloc::{AllocError, Global};
use step_history::turns::{Frame, first_frame};
use step_names::{StepName, ThreadName};

impl Book {
    /// Defines a machine. Takes time linear in the definition and logarithmic in the number of machines.
    ///
    /// # Errors
    ///
    /// `MachineTaken`, `BadMachine`, `Full` and `Memory`, in this order.
    pub fn define(&mut self, alloc: Global, name: &Text, definition: &Value) -> Result<(), Refusal>
        ensures ok { OnOk result ((machine : Definition) × Defines (view definition.now) machine
            × (self.new.log ≡ appended self.old.log (Entry.Define name.now machine))) }
        ensures refused { IfErr result (IsDefineRefusal self.old.log name.now (view definition.now)) }
        ensures err { OnErr result (self.new.log ≡ self.old.log) }
    {
        let made = self.ready_define(alloc, name, definition)?;
        self.enter(made);
        Ok(())
    }

    /// Starts an execution of a machine, and answers its start's name. Takes time logarithmic in the numbers of machines and of
    /// executions; the input is shared.
    ///
    /// # Errors
    ///
    /// `NoMachine`, `ExecTaken`, `Full` and `Memory`, in this order.
    pub fn start(
        &mut self,
        alloc: Global,
        exec: &ThreadName,
        machine: &Text,
        input: Json,
    ) -> Result<StepName, Refusal>
        requires execution { exec.now.path ≡ [] }
        requires shallow { depth (data_of input) ≤ most_levels }
        ensures { Starts self.old.log self.new.log exec.now machine.now input result }
    {
        let made = self.ready_start(alloc, exec, machine, input)?;
        let Ok(thread) = exec.copy() else {
            drop(made);
            return Err(Refusal::Memory);
        };
        self.enter(made);
        Ok(StepName { thread, no: 0 })
    }

    /// Makes everything that a command needs, so that to enter it takes no memory and is not refused. The log is the same
    /// then.
    ///
    /// # Errors
    ///
    /// Those of the call of the same name: `define`, `start`, `step`, `undo_room` and `undo`, `plan_room`, `settle`, `hold`.
    pub fn ready_entry(&mut self, alloc: Global, change: Change<'_>) -> Result<Made, Refusal>
        requires { IsProperChange change }
        ensures answer { IsCommandAnswered self.old.log change.entry (made_entry result) }
        ensures ready { IfOk result (λ m. CanEnter self.new m) }
        ensures log { self.new.log ≡ self.old.log }
    {
        match change {
            Change::Define { name, definition } => self.ready_define(alloc, name, definition),
            Change::Start {
                exec,
                machine,
                input,
            } => self.ready_start(alloc, exec, machine, input),
            Change::Step { thread } => self.ready_step(alloc, thread),
            Change::Undo { step } => self.ready_undo(step),
            Change::Rollback { step } => self.ready_rollback(alloc, step),
            Change::Settle => self.ready_settle(),
            Change::Hold { step } => self.ready_hold(alloc, step),
        }
    }

    /// Enters a command for which everything is made, where the book is as that left it. Takes no memory.
    pub fn enter(&mut self, made: Made)
        requires { CanEnter self.old made }
        ensures { self.new.log ≡ appended self.old.log made.entry }
    {
        let Made { entry, change } = made;
        match change {
            MadeChange::Define { name, machine } => self.enter_define(entry, name, machine),
            MadeChange::Step(step) => self.enter_step(entry, step),
            MadeChange::Undo(at) => self.enter_undo(entry, at),
            MadeChange::Rollback(plan) => self.enter_rollback(entry, plan),
            MadeChange::Settle => self.enter_settle(entry),
            MadeChange::Hold(held) => self.enter_hold(entry, held),
        }
    }

    fn enter_define(&mut self, entry: Entry, name: Text, machine: SharedMachine)
        requires is_accepted { IsAccepted self.old.log entry }
        requires fits { CanEnterChange self.old entry (MadeChange.Define name machine) }
        requires room { HasLogRoom self.old }
        ensures { self.new.log ≡ appended self.old.log entry }
    {
        fill_place(&mut self.machines, &name, machine);
        push_with_room(&mut self.entries, entry);
    }

    fn enter_step(&mut self, entry: Entry, step: saved_steps::Made)
        requires is_accepted { IsAccepted self.old.log entry }
        requires fits { CanEnterChange self.old entry (MadeChange.Step step) }
        requires room { HasLogRoom self.old }
        ensures { self.new.log ≡ appended self.old.log entry }
    {
        self.history.apply(step);
        add_unheld(&mut self.held);
        push_with_room(&mut self.entries, entry);
    }

    // ---- definitions

    fn ready_define(
        &mut self,
        alloc: Global,
        name: &Text,
        definition: &Value,
    ) -> Result<Made, Refusal>
        ensures answer { IsDefineAnswered self.old.log name.now (view definition.now) (made_entry result) }
        ensures ready { IfOk result (λ m. CanEnter self.new m) }
        ensures log { self.new.log ≡ self.old.log }
    {
        if self.has_machine(name) {
            return Err(Refusal::MachineTaken);
        }
        let machine = read_machine(alloc, definition)?;
        self.ready_machine(alloc, name, machine)
    }

    /// Whether a machine is defined under a name.
    fn has_machine(&self, name: &Text) -> bool
        ensures { result ≡ is_some (machine_of self.now.log name.now) }
    {
        machine_in(&self.machines, name).is_some()
    }

    fn ready_machine(
        &mut self,
        alloc: Global,
        name: &Text,
        machine: Machine,
    ) -> Result<Made, Refusal>
        requires free { machine_of self.old.log name.now ≡ None }
        requires whole { IsWellFormedThroughout machine }
        ensures made { IfOk result (λ m. m.entry ≡ Entry.Define name.now machine) }
        ensures refused { IfErr result (λ e. ((e ≡ Refusal.Full) × IsTrue (is_full_for_define self.old.log)) ⊎ ((e ≡ Refusal.Memory) × (is_full_for_define self.old.log ≡ false))) }
        ensures ready { IfOk result (λ m. CanEnter self.new m) }
        ensures log { self.new.log ≡ self.old.log }
    {
        if is_full_for_define(self.entries.len(), self.history.len()) {
            drop(machine);
            return Err(Refusal::Full);
        }
        let Ok(made) = make_define(alloc, name, machine) else {
            return Err(Refusal::Memory);
        };
        if self.make_place(name).is_err() {
            drop(made);
            return Err(Refusal::Memory);
        }
        Ok(made)
    }

    /// Makes a place for a machine, and room for its entry and that of its undoing.
    pub(crate) fn make_place(&mut self, name: &Text) -> Result<(), AllocError>
        requires { machine_of self.old.log name.now ≡ None }
        ensures place { OnOk result (machine_place self.new.places name.now ≡ Some None) }
        ensures room { OnOk result (HasLogRoom self.new) }
        ensures log { self.new.log ≡ self.old.log }
    {
        reserve_entries(&mut self.entries, self.history.len())?;
        make_place(&mut self.machines, name)
    }

    // ---- starts

    fn ready_start(
        &mut self,
        alloc: Global,
        exec: &ThreadName,
        machine: &Text,
        input: Json,
    ) -> Result<Made, Refusal>
        requires execution { exec.now.path ≡ [] }
        requires shallow { depth (data_of input) ≤ most_levels }
        ensures answer { IsStartAnswered self.old.log exec.now machine.now input (made_entry result) }
        ensures ready { IfOk result (λ m. CanEnter self.new m) }
        ensures log { self.new.log ≡ self.old.log }
    {
        let frame = match self.start_frame(alloc, exec, machine, &input) {
            Ok(frame) => frame,
            Err(refusal) => {
                drop(input);
                return Err(refusal);
            }
        };
        let Ok((entry, name)) = start_entry(exec, machine, input) else {
            drop(frame);
            return Err(Refusal::Memory);
        };
        let Ok(step) = self.make_step(alloc, &name, Next::Begin(frame)) else {
            drop(entry);
            drop(name);
            return Err(Refusal::Memory);
        };
        drop(name);
        Ok(Made {
            entry,
            change: MadeChange::Step(step),
        })
    }

    /// The frame with which an execution begins, where it may.
    fn start_frame(
        &self,
        alloc: Global,
        exec: &ThreadName,
        machine: &Text,
        input: &Json,
    ) -> Result<Frame, Refusal>
        requires { exec.now.path ≡ [] }
        ensures answer { MatchResult result
            (λ f. IsStartOf self.now exec.now machine.now input.now f)
            (λ e. OrMemory (start_answer self.now.log exec.now machine.now) e) }
    {
        let shared = self.check_start(exec, machine)?;
        match first_frame(alloc, machine, shared.machine(), input) {
            Ok(frame) => Ok(frame),
            Err(AllocError) => Err(Refusal::Memory),
        }
    }

    /// The machine of a start that may be taken.
    fn check_start(&self, exec: &ThreadName, machine: &Text) -> Result<&SharedMachine, Refusal>
        ensures answer { MatchResult result
            (λ _. start_answer self.now.log exec.now machine.now ≡ Ok (start_name exec.now.exec))
            (λ e. start_answer self.now.log exec.now machine.now ≡ Err e) }
        ensures machine { IfOk result (λ m. machine_of self.now.log machine.now ≡ Some m.now) }
        ensures absent { OnOk result (frames_of (history_world self.now.history) exec.now ≡ None) }
        ensures world { OnOk result (world_of self.now.log ≡ world_view (history_world self.now.history)) }
    {
        let Some(shared) = machine_in(&self.machines, machine) else {
            return Err(Refusal::NoMachine);
        };
        if self.has_frame(exec) {
            return Err(Refusal::ExecTaken);
        }
        if is_full_for_step(self.entries.len(), self.history.len()) {
            return Err(Refusal::Full);
        }
        Ok(shared)
    }

    /// Whether a thread has a frame.
    fn has_frame(&self, thread: &ThreadName) -> bool
        ensures { result ≡ is_some (frames_of (history_world self.now.history) thread.now) }
    {
        self.history.frame(thread).is_some()
    }

    /// Makes a step, and room for its entry and that of its undoing.
    pub(crate) fn make_step(
        &mut self,
        alloc: Global,
        name: &StepName,
        next: Next,
    ) -> Result<saved_steps::Made, AllocError>
        requires { CanMake (history_world self.old.history) name.now next }
        ensures step { IfOk result (λ m. IsMadeIn self.old self.new name.now next m) }
        ensures room { OnOk result (HasLogRoom self.new) }
        ensures log { self.new.log ≡ self.old.log }
    {
        if reserve_entries(&mut self.entries, self.history.len()).is_err() {
            drop(next);
            return Err(AllocError);
        }
        if reserve_held(&mut self.held).is_err() {
            drop(next);
            return Err(AllocError);
        }
        self.history.make(alloc, name, next)
    }
}
