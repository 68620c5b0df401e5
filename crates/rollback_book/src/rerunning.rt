// A book whose steps are taken again in another order.
ghost use Rattle.std.specs.Prelude.{◌≡◌, ◌⊎◌, ◌≤◌, ◌++◌, ◌∷◌, [], Some, Ok, Err, IfOk, IfErr, IsSome, MatchResult, OnOk, drop, false, true, length, option_map, option_copied, take};
ghost use Rattle.std.specs.List.{list_any};
ghost use Rattle.json_tree.specs.Data.{depth, most_levels};
ghost use Rattle.json_tree.specs.View.{data_of};
ghost use Rattle.saved_steps.specs.Held.{frames_of, world_view};
ghost use Rattle.saved_steps.specs.Steps.{started, moved};
ghost use Rattle.book_log.specs.Answers.{defines, is_settlement, outline, rerun_answer, step_named};
ghost use Rattle.book_log.specs.Legal.{IsAccepted, IsLegal};
ghost use Rattle.book_log.specs.Log.{appended, remaining, world_of};
ghost use Rattle.rollback_book.specs.Commuting.{CannotRun, IsRerunOf};
ghost use Rattle.rollback_book.specs.Rerunning.{MayDefine, Retakes, all_remain, is_numbered, last_start, start_in};
ghost use Rattle.step_history.specs.History.{history_world};

use crate::book::Book;
use crate::making::{Made, MadeChange};
use asl_machine::SharedMachine;
use book_log::{Begin, Entry, Refusal};
use json_tree::{Json, Text};
use std::alloc::{AllocError, Global};
use step_history::turns::Frame;
use step_names::{StepName, ThreadName};

impl Book {
    /// A new book from the same beginning and the same machines, in which these steps were taken in this order; each start has
    /// the machine and the input that it has here. Its log has what this one's has up to its last settlement, the definitions after
    /// that, and then an entry for each step. Takes what `open` takes, a share of each machine, what the commands up to the last
    /// settlement took, and what the steps take; for each name it looks through the remaining steps, and for a start through the
    /// log, from their ends.
    ///
    /// # Errors
    ///
    /// `NoStep` where a name doesn't remain, isn't the next of its thread at its turn, or has no move then; and `Memory`, but not where a
    /// name doesn't remain.
    pub fn rerun(&self, alloc: Global, steps: &[StepName]) -> Result<Book, Refusal>
        ensures answer { MatchResult result
            (λ b. rerun_answer self.now.log steps.now ≡ Ok b.log)
            (λ e. (e ≡ Refusal.Memory) ⊎ (rerun_answer self.now.log steps.now ≡ Err e)) }
        ensures ok { IfOk result (λ b. IsRerunOf self.now.log steps.now b.log) }
        ensures err { IfErr result (λ e. (e ≡ Refusal.Memory) ⊎ ((e ≡ Refusal.NoStep) × CannotRun self.now.log steps.now)) }
        ensures known { result ≡ Err Refusal.Memory → all_remain self.now.log steps.now ≡ true }
    {
        match self.check_all(steps) {
            Ok(()) => self.rerun_remaining(alloc, steps),
            Err(gone) => Err(gone),
        }
    }

    /// Refuses names among which one doesn't remain. Takes no memory.
    fn check_all(&self, steps: &[StepName]) -> Result<(), Refusal>
        ensures ok { OnOk result (all_remain self.now.log steps.now ≡ true) }
        ensures err { IfErr result (λ gone. (gone ≡ Refusal.NoStep) × (rerun_answer self.now.log steps.now ≡ Err gone)) }
        ensures legal { IsLegal self.now.log }
    {
        for name in steps {
            if self.history.find(name).is_none() {
                return Err(Refusal::NoStep);
            }
        }
        Ok(())
    }

    fn rerun_remaining(&self, alloc: Global, steps: &[StepName]) -> Result<Book, Refusal>
        ensures answer { MatchResult result
            (λ b. rerun_answer self.now.log steps.now ≡ Ok b.log)
            (λ e. (e ≡ Refusal.Memory) ⊎ (rerun_answer self.now.log steps.now ≡ Err e)) }
        ensures ok { IfOk result (λ b. IsRerunOf self.now.log steps.now b.log) }
        ensures err { IfErr result (λ e. (e ≡ Refusal.Memory) ⊎ ((e ≡ Refusal.NoStep) × CannotRun self.now.log steps.now)) }
    {
        let mut again = Book::outlining(alloc, &self.begin, self.entries.as_slice())?;
        for name in steps {
            match self.take_again(alloc, &mut again, name) {
                Ok(()) => {}
                Err(refusal) => return Err(refusal),
            }
        }
        Ok(again)
    }

    /// A book with a copy of a beginning, what a log has up to its last settlement, and the machines that it defines after that.
    fn outlining(alloc: Global, begin: &Begin, entries: &[Entry]) -> Result<Book, Refusal>
        requires { IsLegal (record { begin = begin.now; entries = entries.now }) }
        ensures ok { IfOk result (λ b. b.log ≡ record { begin = begin.now; entries = outline entries.now }) }
        ensures err { IfErr result (λ e. e ≡ Refusal.Memory) }
    {
        let begin = copy_begin(begin)?;
        let Ok(mut book) = Book::open(alloc, begin) else {
            return Err(Refusal::Memory);
        };
        match book.outline(alloc, entries) {
            Ok(()) => Ok(book),
            Err(refusal) => {
                drop(book);
                Err(refusal)
            }
        }
    }

    /// Enters what a log has up to its last settlement, and defines the machines that it defines after that.
    fn outline(&mut self, alloc: Global, entries: &[Entry]) -> Result<(), Refusal>
        requires empty { self.old.log.entries ≡ [] }
        requires legal { IsLegal (record { begin = self.old.log.begin; entries = entries.now }) }
        ensures ok { OnOk result (self.new.log ≡ record { begin = self.old.log.begin; entries = outline entries.now }) }
        ensures err { IfErr result (λ e. e ≡ Refusal.Memory) }
    {
        let settled = settled_end(entries);
        self.enter_each(alloc, entries, settled)?;
        self.define_each(entries, settled)?;
        Ok(())
    }

    /// Enters the first entries of a log, so many, as they stand there.
    fn enter_each(&mut self, alloc: Global, entries: &[Entry], end: usize) -> Result<(), Refusal>
        requires empty { self.old.log.entries ≡ [] }
        requires legal { IsLegal (record { begin = self.old.log.begin; entries = entries.now }) }
        requires end { end ≤ length entries.now }
        ensures ok { OnOk result (self.new.log ≡ record { begin = self.old.log.begin; entries = take end entries.now }) }
        ensures err { IfErr result (λ e. e ≡ Refusal.Memory) }
    {
        for entry in &entries[..end] {
            self.enter_again(alloc, entry)?;
        }
        Ok(())
    }

    /// Defines the machines of a log from an entry on, in a book that has the outline up to it.
    fn define_each(&mut self, entries: &[Entry], from: usize) -> Result<(), AllocError>
        requires from { from ≤ length entries.now }
        requires outlined { self.old.log.entries ≡ outline (take from entries.now) }
        requires legal { IsLegal (record { begin = self.old.log.begin; entries = entries.now }) }
        requires unsettled { list_any is_settlement (drop from entries.now) ≡ false }
        ensures { OnOk result (self.new.log ≡ record { begin = self.old.log.begin; entries = outline entries.now }) }
    {
        for entry in &entries[from..] {
            self.define_again(entry)?;
        }
        Ok(())
    }

    /// Defines the machine of an entry, where it defines one.
    fn define_again(&mut self, entry: &Entry) -> Result<(), AllocError>
        requires { MayDefine self.old.log entry.now }
        ensures { OnOk result (self.new.log ≡ record { begin = self.old.log.begin; entries = self.old.log.entries ++ defines (entry.now ∷ []) }) }
    {
        match entry {
            Entry::Define { name, machine } => self.share_machine(name, machine),
            _ => Ok(()),
        }
    }

    /// Defines a machine of another book.
    pub(crate) fn share_machine(
        &mut self,
        name: &Text,
        machine: &SharedMachine,
    ) -> Result<(), AllocError>
        requires { IsAccepted self.old.log (Entry.Define name.now machine.now) }
        ensures { OnOk result (self.new.log ≡ appended self.old.log (Entry.Define name.now machine.now)) }
    {
        let made = share_define(name, machine)?;
        if self.make_place(name).is_err() {
            drop(made);
            return Err(AllocError);
        }
        self.enter(made);
        Ok(())
    }

    /// Takes the remaining step of a name in another book.
    fn take_again(&self, alloc: Global, again: &mut Book, name: &StepName) -> Result<(), Refusal>
        ensures { Retakes again.old.log (step_named name.now (remaining self.now.log)) result again.new.log }
    {
        let Some(_) = self.history.find(name) else {
            return Err(Refusal::NoStep);
        };
        if name.no == 0 {
            return self.start_again(alloc, again, name);
        }
        again.step_to(alloc, name)
    }

    /// Starts an execution in another book as it was started here.
    fn start_again(&self, alloc: Global, again: &mut Book, name: &StepName) -> Result<(), Refusal>
        requires start { name.now.no ≡ 0 }
        requires remains { IsSome (step_named name.now (remaining self.now.log)) }
        ensures { Retakes again.old.log (step_named name.now (remaining self.now.log)) result again.new.log }
    {
        let Some((machine, input)) = last_start(self.entries.as_slice(), &name.thread) else {
            unreachable!()
        };
        let Ok(input) = input.copy() else {
            return Err(Refusal::Memory);
        };
        again.start_with(alloc, &name.thread, machine, input)
    }

    /// Starts an execution, where it can be started.
    fn start_with(
        &mut self,
        alloc: Global,
        exec: &ThreadName,
        machine: &Text,
        input: Json,
    ) -> Result<(), Refusal>
        requires execution { exec.now.path ≡ [] }
        requires shallow { depth (data_of input) ≤ most_levels }
        ensures { Retakes self.old.log (Some (started exec.now.exec machine.now input)) result self.new.log }
    {
        match self.start(alloc, exec, machine, input) {
            Ok(name) => {
                drop(name);
                Ok(())
            }
            Err(refusal) => Err(or_no_step(refusal)),
        }
    }

    /// Takes the next step of a thread, where this is its name.
    fn step_to(&mut self, alloc: Global, name: &StepName) -> Result<(), Refusal>
        requires { 1 ≤ name.now.no }
        ensures { Retakes self.old.log (Some (moved name.now)) result self.new.log }
    {
        if !self.is_next(name) {
            return Err(Refusal::NoStep);
        }
        match self.step(alloc, &name.thread) {
            Ok(moved) => {
                drop(moved);
                Ok(())
            }
            Err(refusal) => Err(or_no_step(refusal)),
        }
    }

    /// Whether the next move of a step's thread would have its number.
    fn is_next(&self, name: &StepName) -> bool
        requires { 1 ≤ name.now.no }
        ensures number { result ≡ is_numbered (frames_of (history_world self.now.history) name.now.thread) name.now.no }
        ensures world { world_of self.now.log ≡ world_view (history_world self.now.history) }
    {
        is_numbered(self.history.frame(&name.thread), name.no)
    }
}

/// Whether the next move after a frame would have this number.
fn is_numbered(frame: Option<&Frame>, number: u32) -> bool
    requires { 1 ≤ number }
    ensures { result ≡ is_numbered (option_copied frame.entry) number }
{
    match frame {
        Some(frame) => frame.count == number - 1,
        None => false,
    }
}

/// Out of memory stays that; any other refusal is that there is no such step.
fn or_no_step(refusal: Refusal) -> Refusal
    ensures { ((refusal ≡ Refusal.Memory) × (result ≡ Refusal.Memory)) ⊎ ((refusal ≡ Refusal.Memory → ⊥) × (result ≡ Refusal.NoStep)) }
{
    match refusal {
        Refusal::Memory => Refusal::Memory,
        other => {
            drop(other);
            Refusal::NoStep
        }
    }
}

/// How many entries there are up to the last settlement, with it.
fn settled_end(entries: &[Entry]) -> usize
    ensures within { result ≤ length entries.now }
    ensures whole { outline (take result entries.now) ≡ take result entries.now }
    ensures last { list_any is_settlement (drop result entries.now) ≡ false }
{
    let mut end = entries.len();
    while 0 < end {
        if is_settlement(&entries[end - 1]) {
            return end;
        }
        end -= 1;
    }
    0
}

fn is_settlement(entry: &Entry) -> bool
    ensures { result ≡ is_settlement entry.now }
{
    matches!(entry, Entry::Settle)
}

/// With what the last start of an execution started it.
fn last_start<'a>(entries: &'a [Entry], exec: &ThreadName) -> Option<(&'a Text, &'a Json)>
    ensures { option_map (λ p. (p.0.now, p.1.now)) result ≡ last_start exec.now entries.now }
{
    let mut later = entries.len();
    while 0 < later {
        let at = later - 1;
        if let Some(origin) = start_in(&entries[at], exec) {
            return Some(origin);
        }
        later = at;
    }
    None
}

/// With what an entry starts an execution.
fn start_in<'a>(entry: &'a Entry, thread: &ThreadName) -> Option<(&'a Text, &'a Json)>
    ensures { option_map (λ p. (p.0.now, p.1.now)) result ≡ start_in thread.now entry.now }
{
    match entry {
        Entry::Start {
            exec,
            machine,
            input,
        } if thread == exec => Some((machine, input)),
        _ => None,
    }
}

/// All that a definition by a machine of another book needs.
fn share_define(name: &Text, machine: &SharedMachine) -> Result<Made, AllocError>
    ensures { IfOk result (λ m. m ≡ record { entry = Entry.Define name.now machine.now; change = MadeChange.Define name.now machine.now }) }
{
    let (told, shared) = named_machine(name, machine)?;
    let Ok((name, machine)) = named_machine(name, machine) else {
        drop(told);
        drop(shared);
        return Err(AllocError);
    };
    let entry = Entry::Define {
        name: told,
        machine: shared,
    };
    Ok(Made {
        entry,
        change: MadeChange::Define { name, machine },
    })
}

/// A name and a machine, shared once more.
fn named_machine(name: &Text, machine: &SharedMachine) -> Result<(Text, SharedMachine), AllocError>
    ensures { IfOk result (λ p. (p.0 ≡ name.now) × (p.1 ≡ machine.now)) }
{
    Ok((name.copy()?, machine.share()?))
}

/// A copy of a beginning, whose items are shared.
fn copy_begin(begin: &Begin) -> Result<Begin, AllocError>
    ensures { IfOk result (λ b. b ≡ begin.now) }
{
    Ok(Begin {
        table: begin.table.copy()?,
        schema: begin.schema.copy()?,
        items: begin.items.copy()?,
    })
}
