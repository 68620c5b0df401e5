// The calls that add an entry. Each first sees whether the pass is of this book and makes all memory that the receipt takes, and then
// calls the book, so that an entry never lacks its receipt.
ghost use Rattle.std.specs.Prelude.{◌≡◌, ◌+◌, ◌<◌, ◌≤◌, ◌∷◌, ◌++◌, [], true, vec_len, vec_capacity, IfOk, IfErr};
ghost use Rattle.json_tree.specs.Data.{depth, most_levels};
ghost use Rattle.json_tree.specs.View.{data_of};
ghost use Rattle.book_events.specs.Cursors.{cursor_place};
ghost use Rattle.book_log.specs.Answers.{hold_answer, plan_answer, start_answer, step_answer, undo_answer};
ghost use Rattle.shared_book.specs.Away.{WasRefused};
ghost use Rattle.shared_book.specs.Calls.{GivesAfter, GivesLatestAt, IsCauseAt, IsHoldEntryOf, IsLatestCause, IsLatestCauseAt, IsRefused, IsRefusedAt, IsRefusedFor, IsRollbackOf, IsStepOf, after_refusal, is_held};
ghost use Rattle.shared_book.specs.Entering.{GoesBackFor, claims_after, desk_after};

use crate::copies::copy_names;
use crate::desk::{Desk, Side};
use crate::pass::{Kept, Pass};
use crate::receipt::{Receipt, Twice};
use crate::refusal::SharedRefusal;
use crate::sharing::Sharing;
use book_events::Events;
use book_log::{Entry, Moved, Refusal};
use json_tree::{Json, Text};
use std::alloc::{AllocError, Global};
use step_names::{StepName, ThreadName};

impl<B: Events, L: Sharing> Desk<B, L> {
    pub(crate) fn start(
        &mut self,
        alloc: Global,
        pass: &mut Pass<L>,
        exec: &ThreadName,
        machine: &Text,
        input: Json,
    ) -> Result<Receipt, SharedRefusal>
        requires execution { exec.now.path ≡ [] }
        requires shallow { depth (data_of input) ≤ most_levels }
        ensures after { IfOk result (GivesAfter L.begun self.old.log pass.old pass.new) }
        ensures entry { IfOk result (λ r. r.entry ≡ Entry.Start exec.now machine.now input) }
        ensures entries { IfOk result (λ r. self.new ≡ desk_after self.old r.entry) }
        ensures err { IfErr result (λ e. IsRefused L.begun (λ at. start_answer at exec.now machine.now) pass.old e × (pass.new ≡ pass.old) × (self.new ≡ self.old)) }
        ensures cause { IfErr result (IsRefusedAt self.old.log pass.old (IsCauseAt (start_answer self.old.log exec.now machine.now))) }
    {
        let number = match self.admit(&mut pass.kept) {
            Ok(number) => number,
            Err(refusal) => {
                drop(input);
                return Err(refusal);
            }
        };
        let Ok(entry) = start_entry(exec, machine, &input) else {
            drop(input);
            return Err(SharedRefusal::Refused(Refusal::Memory));
        };
        if let Err(refusal) = self.book.start(alloc, exec, machine, input) {
            drop(entry);
            return Err(SharedRefusal::Refused(refusal));
        }
        Ok(finish(&mut self.side, &mut pass.kept, number, entry))
    }

    pub(crate) fn step(
        &mut self,
        alloc: Global,
        pass: &mut Pass<L>,
        thread: &ThreadName,
    ) -> Result<Receipt, SharedRefusal>
        ensures after { IfOk result (GivesAfter L.begun self.old.log pass.old pass.new) }
        ensures entry { IfOk result (λ r. IsStepOf thread.now r.entry) }
        ensures entries { IfOk result (λ r. self.new ≡ desk_after self.old r.entry) }
        ensures err { IfErr result (λ e. IsRefused L.begun (λ at. step_answer at thread.now) pass.old e × (pass.new ≡ pass.old) × (self.new ≡ after_refusal self.old thread.now e)) }
        ensures cause { IfErr result (IsRefusedAt self.old.log pass.old (IsCauseAt (step_answer self.old.log thread.now))) }
    {
        let answer = self.take_step(alloc, pass, thread);
        if let Err(refusal) = &answer {
            self.note_refusal(thread, refusal);
        }
        answer
    }

    fn take_step(
        &mut self,
        alloc: Global,
        pass: &mut Pass<L>,
        thread: &ThreadName,
    ) -> Result<Receipt, SharedRefusal>
        ensures after { IfOk result (GivesAfter L.begun self.old.log pass.old pass.new) }
        ensures entry { IfOk result (λ r. IsStepOf thread.now r.entry) }
        ensures entries { IfOk result (λ r. self.new ≡ desk_after self.old r.entry) }
        ensures err { IfErr result (λ e. IsRefused L.begun (λ at. step_answer at thread.now) pass.old e × (pass.new ≡ pass.old) × (self.new ≡ self.old)) }
        ensures cause { IfErr result (IsRefusedAt self.old.log pass.old (IsCauseAt (step_answer self.old.log thread.now))) }
        ensures held { IfErr result (λ e. is_held e ≡ true → WasRefused self.old.log thread.now) }
    {
        let number = self.admit(&mut pass.kept)?;
        let copy = thread.copy()?;
        let moved = match self.book.step(alloc, thread) {
            Ok(moved) => moved,
            Err(refusal) => {
                drop(copy);
                return Err(SharedRefusal::Refused(refusal));
            }
        };
        let entry = step_entry(copy, moved);
        Ok(finish(&mut self.side, &mut pass.kept, number, entry))
    }

    pub(crate) fn undo(
        &mut self,
        alloc: Global,
        pass: &mut Pass<L>,
        step: &StepName,
    ) -> Result<Receipt, SharedRefusal>
        ensures after { IfOk result (GivesAfter L.begun self.old.log pass.old pass.new) }
        ensures entry { IfOk result (λ r. r.entry ≡ Entry.Undo step.now) }
        ensures entries { IfOk result (λ r. self.new ≡ desk_after self.old r.entry) }
        ensures err { IfErr result (λ e. IsRefused L.begun (λ at. undo_answer at step.now) pass.old e × (pass.new ≡ pass.old) × (self.new ≡ self.old)) }
        ensures cause { IfErr result (IsRefusedAt self.old.log pass.old (IsCauseAt (undo_answer self.old.log step.now))) }
    {
        let number = self.admit(&mut pass.kept)?;
        let entry = Twice::of(Entry::Undo { step: step.copy()? })?;
        let Ok(room) = self.book.room(alloc, step) else {
            drop(entry);
            return Err(SharedRefusal::Refused(Refusal::Memory));
        };
        if let Err(refusal) = self.book.undo(room) {
            drop(entry);
            return Err(SharedRefusal::Refused(refusal));
        }
        Ok(finish(&mut self.side, &mut pass.kept, number, entry))
    }

    pub(crate) fn undo_held(
        &mut self,
        alloc: Global,
        pass: &mut Pass<L>,
    ) -> Result<Receipt, SharedRefusal>
        ensures after { IfOk result (GivesLatestAt L.begun self.old.log pass.old pass.new) }
        ensures entries { IfOk result (λ r. self.new ≡ desk_after self.old r.entry) }
        ensures err { IfErr result (λ e. IsRefusedFor L.begun pass.old (IsLatestCause L.begun pass.old) e × (pass.new ≡ pass.old) × (self.new ≡ self.old)) }
        ensures cause { IfErr result (IsRefusedAt self.old.log pass.old (IsLatestCauseAt self.old.log)) }
    {
        let _ = self.know(pass)?;
        let Some(last) = self.book.last_left() else {
            return Err(SharedRefusal::Refused(Refusal::NoStep));
        };
        let step = last.copy()?;
        let answer = self.undo(alloc, pass, &step);
        drop(step);
        answer
    }

    pub(crate) fn rollback(
        &mut self,
        alloc: Global,
        pass: &mut Pass<L>,
        step: &StepName,
    ) -> Result<Receipt, SharedRefusal>
        ensures after { IfOk result (GivesAfter L.begun self.old.log pass.old pass.new) }
        ensures entry { IfOk result (λ r. IsRollbackOf step.now r.entry) }
        ensures entries { IfOk result (λ r. self.new ≡ desk_after self.old r.entry) }
        ensures err { IfErr result (λ e. IsRefused L.begun (λ at. plan_answer at step.now) pass.old e × (pass.new ≡ pass.old) × (self.new ≡ self.old)) }
        ensures cause { IfErr result (IsRefusedAt self.old.log pass.old (IsCauseAt (plan_answer self.old.log step.now))) }
    {
        let number = self.admit(&mut pass.kept)?;
        let room = self.book.plan_room(alloc, step)?;
        let Ok(entry) = rollback_entry(alloc, step, room.names()) else {
            drop(room);
            return Err(SharedRefusal::Refused(Refusal::Memory));
        };
        match self.book.rollback(room) {
            Ok(names) => drop(names),
            Err(_) => unreachable!(),
        }
        Ok(finish(&mut self.side, &mut pass.kept, number, entry))
    }

    pub(crate) fn hold(
        &mut self,
        alloc: Global,
        pass: &mut Pass<L>,
        step: &StepName,
    ) -> Result<Receipt, SharedRefusal>
        ensures after { IfOk result (GivesAfter L.begun self.old.log pass.old pass.new) }
        ensures entry { IfOk result (λ r. IsHoldEntryOf step.now r.entry) }
        ensures entries { IfOk result (λ r. self.new ≡ desk_after self.old r.entry) }
        ensures err { IfErr result (λ e. IsRefused L.begun (λ at. hold_answer at step.now) pass.old e × (pass.new ≡ pass.old) × (self.new ≡ self.old)) }
        ensures cause { IfErr result (IsRefusedAt self.old.log pass.old (IsCauseAt (hold_answer self.old.log step.now))) }
    {
        let number = self.admit(&mut pass.kept)?;
        let one = step.copy()?;
        let other = step.copy()?;
        let count = match self.book.hold(alloc, step) {
            Ok(count) => count,
            Err(refusal) => {
                drop(one);
                drop(other);
                return Err(SharedRefusal::Refused(refusal));
            }
        };
        let entry = Twice {
            one: Entry::Hold { step: one, count },
            other: Entry::Hold { step: other, count },
        };
        Ok(finish(&mut self.side, &mut pass.kept, number, entry))
    }
}

/// Counts the receipt of an entry that the book has, and puts it into a pass that has room for it; answers the caller's. After a start or
/// a step a search for a thread begins at its execution again; after any other entry before all threads, and none is passed by.
pub(crate) fn finish<L: Sharing>(
    side: &mut Side<L>,
    kept: &mut Kept<L>,
    number: usize,
    entry: Twice,
) -> Receipt
    requires part { 0 < kept.old.share.parts }
    requires room { vec_len kept.old.receipts < vec_capacity kept.old.receipts }
    ensures total { side.new.calls.total ≡ side.old.calls.total + 1 }
    ensures spare { side.new.spare.amount ≡ side.old.spare.amount }
    ensures claims { side.new.claims ≡ claims_after side.old.claims entry.one }
    ensures back { GoesBackFor entry.one (cursor_place side.old.cursor) (cursor_place side.new.cursor) }
    ensures amount { kept.new.share.amount ≡ kept.old.share.amount + 1 }
    ensures parts { kept.new.share.parts ≡ kept.old.share.parts }
    ensures items { kept.new.receipts.items ≡ kept.old.receipts.items ++ result ∷ [] }
    ensures seen { (kept.new.seen ≡ number) × (kept.new.parts ≡ kept.old.parts) }
    ensures receipt { result ≡ record { number = number; entry = entry.one } }
{
    let Twice { one, other } = entry;
    match &one {
        Entry::Start { exec, .. } => side.cursor.go_back(exec.exec()),
        Entry::Step { name, .. } => side.cursor.go_back(name.thread.exec()),
        _ => {
            side.claims.forget_passed();
            side.cursor.reset();
        }
    }
    side.calls.add(&mut kept.share, 1);
    kept.receipts.push_reserved(Receipt { number, entry: one });
    kept.seen = number;
    Receipt {
        number,
        entry: other,
    }
}

fn start_entry(exec: &ThreadName, machine: &Text, input: &Json) -> Result<Twice, AllocError>
    ensures { IfOk result (λ entry. entry.one ≡ Entry.Start exec.now machine.now input.now) }
{
    let input = input.copy()?;
    let machine = machine.copy()?;
    let exec = exec.copy()?;
    Twice::of(Entry::Start {
        exec,
        machine,
        input,
    })
}

/// The entry of a step, of whose thread's name there is a copy.
pub(crate) fn step_entry(thread: ThreadName, moved: Moved) -> Twice
    requires { moved.name.thread ≡ thread }
    ensures { result.one ≡ Entry.Step moved.name moved.kind }
{
    let Moved { name, kind } = moved;
    let told = StepName {
        thread,
        no: name.no,
    };
    Twice {
        one: Entry::Step { name, kind },
        other: Entry::Step { name: told, kind },
    }
}

fn rollback_entry(alloc: Global, step: &StepName, names: &[StepName]) -> Result<Twice, AllocError>
    ensures { IfOk result (λ entry. entry.one ≡ Entry.Rollback step.now names.now) }
{
    let undone = copy_names(alloc, names)?;
    let step = step.copy()?;
    Twice::of(Entry::Rollback { step, undone })
}
