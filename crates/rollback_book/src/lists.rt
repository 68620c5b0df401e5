// What the book does to the lists that it keeps.
ghost use Rattle.std.specs.Prelude.{◌≡◌, ◌+◌, ◌<◌, ◌≤◌, ◌∷◌, ◌++◌, [], Some, IfOk, OnOk, map, length, option_map, slice_get, vec_len, vec_capacity};
ghost use Rattle.std.specs.List.{All};
ghost use Rattle.book_log.specs.Answers.{most_steps};
ghost use Rattle.rollback_book.specs.Settling.{absent_in};

use book_log::{Entry, Refusal, StepNames};
use std::alloc::{AllocError, Global};
use step_history::SettledNames;
use step_index::StepRecords;
use step_names::StepName;

/// Makes room for one more entry, and for those of the undoing of it and of so many steps.
pub fn reserve_entries(entries: &mut Vec<Entry>, steps: usize) -> Result<(), AllocError>
    requires { steps ≤ most_steps }
    ensures items { entries.new.items ≡ entries.old.items }
    ensures kept { vec_capacity entries.old ≤ vec_capacity entries.new }
    ensures room { OnOk result (length entries.new.items + steps + 2 ≤ vec_capacity entries.new) }
{
    entries.reserve(steps + 2)
}

/// Adds an element where there is room for it. Takes no memory.
pub fn push_with_room<T: Drop>(list: &mut Vec<T>, item: T)
    requires { vec_len list.old < vec_capacity list.old }
    ensures items { list.new.items ≡ list.old.items ++ item ∷ [] }
    ensures kept { vec_capacity list.old ≤ vec_capacity list.new }
{
    let _ = list.push(item);
}

/// Why a step that doesn't remain can't be taken back, where the steps of these names were settled. Takes no memory.
#[tactic(auto, unfolding(crate::specs::Settling::absent_in))]
pub fn absent_in(settled: &SettledNames, name: &StepName) -> Refusal
    ensures { result ≡ absent_in settled.now.items name.now }
{
    if settled.contains(name) {
        Refusal::Settled
    } else {
        Refusal::NoStep
    }
}

/// The names of the steps at some places.
pub fn names_at(
    alloc: Global,
    records: &StepRecords,
    places: &[usize],
) -> Result<StepNames, AllocError>
    requires { All (λ place. place < length records.now.items) places.now }
    ensures { IfOk result (λ names. map Some names ≡ map (λ place. option_map (λ r. r.fact.name) (slice_get records.now.items place)) places.now) }
{
    let mut names = Vec::new(alloc);
    for place in places {
        names.push(records.get(*place).fact.name.copy()?)?;
    }
    StepNames::new(names)
}
