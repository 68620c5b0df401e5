// A step that is held, and what is left of it and its consequences.
ghost use Rattle.std.specs.Prelude.{◌≡◌, ◌+◌, ◌≤◌, ◌||◌, nat_le, nat_lt, List, IfOk, OnOk, length};
ghost use Rattle.saved_steps.specs.Made.{fact_made};
ghost use Rattle.saved_steps.specs.declared.record.StepRecord.{StepRecord as Kept};
ghost use Rattle.step_index.specs.Held.{AreLeft};
ghost use Rattle.book_log.specs.Answers.{most_before_a_step, most_places, most_steps};
ghost use Rattle.rollback_book.specs.Holding.{AddsUnheld, AreWithin, CanTakeOut, HasHeldRoom, IsFirstNeeded, KeepsHold, TakesOut, full_unheld, removed_each};

use crate::checks::is_full_for_step;
use saved_steps::Made;
use std::alloc::AllocError;
use step_index::{HeldSteps, StepRecords};
use step_names::StepName;

/// The step of a hold, and which of the remaining steps are left to be taken back.
#[derive(Drop)]
pub struct Hold {
    pub(crate) step: StepName,
    pub(crate) left: HeldSteps,
}

/// Whether nothing is held and no step can be taken more: while something is held, a step is first looked at for what it depends on.
pub fn is_full_unheld(held: &Option<Hold>, entries: usize, steps: usize) -> bool
    requires { entries + steps ≤ most_places }
    ensures { result ≡ full_unheld held.now (nat_le most_steps steps || nat_lt most_before_a_step (entries + steps)) }
{
    match held {
        Some(_) => false,
        None => is_full_for_step(entries, steps),
    }
}

/// Makes room for one more step beside what is held.
pub fn reserve_held(held: &mut Option<Hold>) -> Result<(), AllocError>
    ensures kept { KeepsHold held.old held.new }
    ensures room { OnOk result (HasHeldRoom held.new) }
{
    match held {
        Some(hold) => hold.left.reserve(),
        None => Ok(()),
    }
}

/// Adds a step that isn't held beside what is. Takes no memory.
pub fn add_unheld(held: &mut Option<Hold>)
    requires { HasHeldRoom held.old }
    ensures { AddsUnheld held.old held.new }
{
    if let Some(hold) = held {
        hold.left.push();
    }
}

/// Takes the steps at some places, one after another, out of what is left: where nothing is left then, the hold is over. Takes no
/// memory.
pub fn take_out(held: &mut Option<Hold>, places: &[usize])
    requires { CanTakeOut held.old places.now }
    ensures { TakesOut held.old places.now held.new }
{
    let Some(hold) = held else {
        return;
    };
    remove_each(&mut hold.left, places);
    if hold.left.is_empty() {
        *held = None;
    }
}

/// The place of the earliest step that is left and on which a step that is made would depend directly. Takes memory for what is
/// known of that step.
pub fn first_needed(
    hold: &Hold,
    records: &StepRecords,
    step: &Made,
) -> Result<Option<usize>, AllocError>
    requires { AreLeft records.now.items hold.now.left }
    ensures { IfOk result (IsFirstNeeded records.now.items hold.now.left (fact_made step.now)) }
{
    let fact = step.fact()?;
    let found = hold.left.first_needed(records, &fact);
    drop(fact);
    Ok(found)
}

fn remove_each(left: &mut HeldSteps, places: &[usize])
    requires { AreWithin (length left.old.marks) places.now }
    ensures marks { left.new.marks ≡ removed_each left.old.marks places.now }
    ensures left { (rs : List Kept) → AreLeft rs left.old → AreLeft (removed_each rs places.now) left.new }
{
    for place in places {
        left.remove(*place);
    }
}
