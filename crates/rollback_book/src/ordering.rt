// Steps taken back one by one in an order, or none of them: the order is looked at whole before anything is changed.
ghost use Rattle.std.specs.Prelude.{◌≡◌, ◌⊎◌, ◌∷◌, ◌++◌, [], map, reverse, None, Some, Ok, Err, IfOk, IfErr, MatchResult, OnOk, OnErr};
ghost use Rattle.book_log.specs.Answers.{from_step, found_answer, order_answer, undo_answer};
ghost use Rattle.book_log.specs.Legal.{IsLegal};
ghost use Rattle.book_log.specs.Log.{Log, appended};
ghost use Rattle.rollback_book.specs.Commuting.{HasConsequences, IsOnlyResult, UndoesBackward};
ghost use Rattle.rollback_book.specs.Ordering.{FirstRemains, facts_without, order_refusal};
ghost use Rattle.rollback_book.specs.Settling.{absent_in};

use crate::book::Book;
use crate::lists::absent_in;
use book_log::{Entry, Refusal};
use saved_steps::{Access, Fact, Saved, StepRecord};
use std::alloc::{AllocError, Global};
use step_history::SettledNames;
use step_index::StepRecords;
use step_names::StepName;

impl Book {
    /// Takes back steps one by one in this order, or none of them. Takes memory for a copy of what is known of each remaining step
    /// and its classes, for a copy of each name and the name that a refusal tells. One pass over the remaining steps; then each
    /// step is found, looked at and taken out as `undo` does it.
    ///
    /// # Errors
    ///
    /// That of the first name that can't be undone at its turn, `NoStep`, `Settled` or `HasDependents`; and `Memory`, but not where the
    /// first step doesn't remain.
    pub fn undo_order(&mut self, alloc: Global, steps: &[StepName]) -> Result<(), Refusal>
        ensures answer { MatchResult result
            (λ _. order_answer self.old.log steps.now ≡ Ok self.new.log)
            (λ e. (e ≡ Refusal.Memory) ⊎ (order_answer self.old.log steps.now ≡ Err e)) }
        ensures allowed { UndoesBackward self.old.log steps.now result self.new.log }
        ensures whole { OnOk result (HasConsequences self.old.log steps.now) }
        ensures one { OnOk result (IsOnlyResult self.old.log steps.now self.new.log) }
        ensures err { OnErr result (self.new.log ≡ self.old.log) }
        ensures known { result ≡ Err Refusal.Memory → FirstRemains self.old.log steps.now }
    {
        match self.check_first(steps) {
            Ok(()) => self.undo_in_order(alloc, steps),
            Err(gone) => Err(gone),
        }
    }

    /// Refuses an order whose first step doesn't remain. Takes no memory.
    fn check_first(&self, steps: &[StepName]) -> Result<(), Refusal>
        ensures ok { OnOk result (FirstRemains self.now.log steps.now) }
        ensures err { IfErr result (λ gone. order_answer self.now.log steps.now ≡ Err gone) }
        ensures known { ¬ (result ≡ Err Refusal.Memory) }
        ensures legal { OnErr result (IsLegal self.now.log) }
    {
        match steps {
            [first, ..] => self.check_remains(first),
            [] => Ok(()),
        }
    }

    fn undo_in_order(&mut self, alloc: Global, steps: &[StepName]) -> Result<(), Refusal>
        ensures answer { MatchResult result
            (λ _. order_answer self.old.log steps.now ≡ Ok self.new.log)
            (λ e. (e ≡ Refusal.Memory) ⊎ (order_answer self.old.log steps.now ≡ Err e)) }
        ensures allowed { UndoesBackward self.old.log steps.now result self.new.log }
        ensures whole { OnOk result (HasConsequences self.old.log steps.now) }
        ensures one { OnOk result (IsOnlyResult self.old.log steps.now self.new.log) }
        ensures err { OnErr result (self.new.log ≡ self.old.log) }
    {
        match look_at_order(alloc, &self.settled, self.history.records(), steps) {
            Ok(()) => self.take_back_in_order(alloc, steps),
            Err(refusal) => Err(refusal),
        }
    }

    /// Takes back steps that can be undone one by one in this order.
    fn take_back_in_order(&mut self, alloc: Global, steps: &[StepName]) -> Result<(), Refusal>
        requires { (after : Log) × (order_answer self.old.log steps.now ≡ Ok after) }
        ensures ok { OnOk result (order_answer self.old.log steps.now ≡ Ok self.new.log) }
        ensures memory { IfErr result (λ e. e ≡ Refusal.Memory) }
        ensures err { OnErr result (self.new.log ≡ self.old.log) }
    {
        let Ok(names) = last_first(alloc, steps) else {
            return Err(Refusal::Memory);
        };
        self.take_back_each(names);
        Ok(())
    }

    /// Takes back the steps of these names, the last of them first.
    fn take_back_each(&mut self, names: Vec<StepName>)
        requires { (after : Log) × (order_answer self.old.log (reverse names.items) ≡ Ok after) }
        ensures { order_answer self.old.log (reverse names.items) ≡ Ok self.new.log }
    {
        let mut names = names;
        while let Some(step) = names.pop() {
            self.take_back_named(step);
        }
    }

    /// Takes back the step of a name.
    fn take_back_named(&mut self, step: StepName)
        requires { undo_answer self.old.log step ≡ Ok step }
        ensures { self.new.log ≡ appended self.old.log (Entry.Undo step) }
    {
        let Some(at) = self.history.find(&step) else {
            unreachable!()
        };
        self.take_back(at, step);
    }
}

/// Copies of names, the last first.
fn last_first(alloc: Global, names: &[StepName]) -> Result<Vec<StepName>, AllocError>
    ensures { IfOk result (λ copies. copies.items ≡ reverse names.now) }
{
    let mut copies = Vec::new(alloc);
    for name in names {
        copies.push(name.copy()?)?;
    }
    copies.reverse();
    Ok(copies)
}

/// Whether the steps of these names can be undone one by one in this order.
fn look_at_order(
    alloc: Global,
    settled: &SettledNames,
    records: &StepRecords,
    steps: &[StepName],
) -> Result<(), Refusal>
    ensures { MatchResult result
        (λ _. order_refusal (absent_in settled.now.items) (map (λ r. r.fact) records.now.items) steps.now ≡ None)
        (λ e. (e ≡ Refusal.Memory) ⊎ (order_refusal (absent_in settled.now.items) (map (λ r. r.fact) records.now.items) steps.now ≡ Some e)) }
{
    let mut left = outline(alloc, records)?;
    let answer = take_out_each(settled, &mut left, steps);
    drop(left);
    answer
}

/// Takes the steps of these names out of those that are left, as far as each may be undone among them.
fn take_out_each(
    settled: &SettledNames,
    left: &mut StepRecords,
    steps: &[StepName],
) -> Result<(), Refusal>
    ensures { MatchResult result
        (λ _. order_refusal (absent_in settled.now.items) (map (λ r. r.fact) left.old.items) steps.now ≡ None)
        (λ e. (e ≡ Refusal.Memory) ⊎ (order_refusal (absent_in settled.now.items) (map (λ r. r.fact) left.old.items) steps.now ≡ Some e)) }
{
    for name in steps {
        take_out(settled, left, name)?;
    }
    Ok(())
}

/// Records of the same facts, without what undoing them would give back.
fn outline(alloc: Global, records: &StepRecords) -> Result<StepRecords, AllocError>
    ensures { IfOk result (λ left. map (λ r. r.fact) left.items ≡ map (λ r. r.fact) records.now.items) }
{
    let mut left = StepRecords::new(alloc);
    for place in 0..records.len() {
        let fact = copy_of(&records.get(place).fact)?;
        add_outline(&mut left, fact)?;
    }
    Ok(left)
}

/// Makes room for the record of a fact, and adds it at the end.
fn add_outline(left: &mut StepRecords, fact: Fact) -> Result<(), AllocError>
    ensures { OnOk result (left.new.items ≡ left.old.items ++ record { fact = fact; saved = Saved.Started } ∷ []) }
{
    if left.reserve().is_err() {
        drop(fact);
        return Err(AllocError);
    }
    left.push(StepRecord {
        fact,
        saved: Saved::Started,
    });
    Ok(())
}

fn copy_of(fact: &Fact) -> Result<Fact, AllocError>
    ensures { IfOk result (λ f. f ≡ fact.now) }
{
    let access = copy_of_access(&fact.access)?;
    let Ok(name) = fact.name.copy() else {
        drop(access);
        return Err(AllocError);
    };
    Ok(Fact {
        name,
        kind: fact.kind,
        access,
        bound: fact.bound,
    })
}

fn copy_of_access(access: &Option<Access>) -> Result<Option<Access>, AllocError>
    ensures { IfOk result (λ a. a ≡ access.now) }
{
    match access {
        Some(access) => Ok(Some(Access {
            key: access.key.copy()?,
            mode: access.mode,
        })),
        None => Ok(None),
    }
}

/// Takes the step of a name out of those that are left, where it may be undone among them.
fn take_out(settled: &SettledNames, left: &mut StepRecords, name: &StepName) -> Result<(), Refusal>
    ensures { MatchResult result
        (λ _. (found_answer (absent_in settled.now.items name.now) name.now (from_step name.now (map (λ r. r.fact) left.old.items)) ≡ Ok name.now)
        × (map (λ r. r.fact) left.new.items ≡ facts_without name.now (map (λ r. r.fact) left.old.items)))
        (λ e. (e ≡ Refusal.Memory) ⊎ (found_answer (absent_in settled.now.items name.now) name.now (from_step name.now (map (λ r. r.fact) left.old.items)) ≡ Err e)) }
{
    let Some(at) = left.find(name) else {
        return Err(absent_in(settled, name));
    };
    if let Some(dependent) = left.first_dependent(at) {
        return Err(Refusal::HasDependents(left.get(dependent).fact.name.copy()?));
    }
    drop(left.remove(at));
    Ok(())
}
