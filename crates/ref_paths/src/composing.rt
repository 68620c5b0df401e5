//! What one path picks after another has placed a value, without placing it.

ghost use Rattle.std.specs.Prelude.{◌≡◌, ◌↔◌, [], None, Some, Err, IsTrue, IsSome, is_some, IfOk, IfErr, option_map};
ghost use Rattle.json_tree.specs.Data.{Data};
ghost use Rattle.json_tree.specs.View.{data_of};
ghost use Rattle.ref_paths.specs.Composition.{NestsWithin, PicksDeeper, pick_placed_at, data_or_made, told_depth};
ghost use Rattle.ref_paths.specs.Laws.{Part};
ghost use Rattle.ref_paths.specs.Placing.{opened_at, place_at};

use crate::path::{PathStep, RefPath};
use crate::picking::pick_steps;
use crate::placing::{can_place, place_steps};
use json_tree::{Json, JsonFields, depth};
use std::alloc::{AllocError, Global};

/// Why nothing was picked after a value would have been placed.
#[derive(Clone, Copy, Debug, Drop, PartialEq, Eq)]
pub enum PickRefusal {
    /// The value cannot be placed there.
    CannotPlace,
    /// What is picked would nest deeper than was asked for.
    TooDeep,
    /// An allocation was refused.
    Memory,
}

impl From<AllocError> for PickRefusal {
    ghost use Rattle.std.specs.Prelude.{◌≡◌};
    ghost use Rattle.ref_paths.specs.declared.composing.PickRefusal.TheVariants.{Memory};

    ghost from_gives = { λ _ e. e ≡ Memory };

    fn from(_refused: AllocError) -> PickRefusal {
        PickRefusal::Memory
    }
}

/// A copy of what `picking` picks after the value was placed at `placing`, and nothing where it picks nothing. The root
/// and the value are only lent. That the value can be placed, and that what is picked nests no deeper than `levels`, is
/// seen before anything deeper than the root or `levels` is made. Goes over both paths by loops, but calls itself once for
/// each level of the part of the root that is both picked and placed in. Takes the time of `json_tree::depth` of what is picked.
pub fn pick_placed(
    alloc: Global,
    root: &Json,
    placing: &RefPath,
    value: &Json,
    picking: &RefPath,
    levels: u32,
) -> Result<Option<Json>, PickRefusal>
    ensures ok { IfOk result (λ r. pick_placed_at placing.now picking.now (data_of value.now) (data_of root.now) ≡ Some (option_map data_of r)) }
    ensures shallow { IfOk result (λ r. NestsWithin levels (option_map data_of r)) }
    ensures cannot { (result ≡ Err PickRefusal.CannotPlace) ↔ (place_at placing.now (data_of value.now) (data_of root.now) ≡ None) }
    ensures deep { result ≡ Err PickRefusal.TooDeep → PicksDeeper levels (pick_placed_at placing.now picking.now (data_of value.now) (data_of root.now)) }
{
    let mut current = Some(root);
    let mut to_place = placing.steps.as_slice();
    let mut to_pick = picking.steps.as_slice();
    while let Some((step, rest)) = to_place.split_first() {
        let Some((other, others)) = to_pick.split_first() else {
            return pick_whole(alloc, current, to_place, value, levels);
        };
        if !step.is_same(other) {
            return pick_apart(current, to_place, to_pick, levels);
        }
        let Some(child) = step.open(current) else {
            return Err(PickRefusal::CannotPlace);
        };
        current = child;
        to_place = rest;
        to_pick = others;
    }
    copy_picked(pick_steps(to_pick, value), levels)
}

impl RefPath {
    /// How deep a value nests where it is placed by this path: a level for each step, and those that it has. 4,294,967,295
    /// stands for that depth and every greater one. A root that nests no deeper than some levels nests no deeper than
    /// these with the value in it just where this is no more, whatever the root; so no root is looked at. Looks at each
    /// value inside of the one that is placed, and takes no memory.
    pub fn placed_depth(&self, value: &Json) -> u32
        ensures { result ≡ told_depth self.now (data_of value.now) }
    {
        placed_depth(self.steps.as_slice(), value)
    }

    /// Whether some value can be placed where the path leads. Takes no memory, and a look-up for each step.
    pub fn can_place(&self, root: &Json) -> bool
        ensures { (value : Data) → result ≡ is_some (place_at self.now value (data_of root.now)) }
    {
        can_place(Some(root), self.steps.as_slice())
    }
}

fn placed_depth(steps: &[PathStep], value: &Json) -> u32
    ensures { result ≡ told_depth steps.now (data_of value.now) }
{
    let steps = u32::try_from(steps.len()).unwrap_or(u32::MAX);
    depth(value).saturating_add(steps)
}

impl PathStep {
    fn is_same(&self, other: &PathStep) -> bool
        ensures { IsTrue result ↔ (self.now ≡ other.now) }
    {
        match (self, other) {
            (PathStep::Name(name), PathStep::Name(same)) => name.as_str() == same.as_str(),
            (PathStep::Index(index), PathStep::Index(same)) => *index == *same,
            _ => false,
        }
    }

    /// What the step leads to for a value that is to be placed below: `Some(None)` is an object that is made.
    #[tactic(auto, using(crate::proofs::Shapes::values_again, crate::proofs::Shapes::pairs_again))]
    pub(crate) fn open<'a>(&self, parent: Option<&'a Json>) -> Option<Option<&'a Json>>
        ensures { option_map data_or_made result ≡ opened_at self.now (data_or_made parent.entry) }
    {
        match (self, parent) {
            (PathStep::Name(name), Some(Json::Fields(fields))) => Some(fields.get(name.as_str())),
            (PathStep::Name(_), None) => Some(None),
            (PathStep::Index(index), Some(Json::List(list))) => match list.get(*index as usize) {
                Some(child) => Some(Some(child)),
                None => None,
            },
            _ => None,
        }
    }
}

/// All that is there, with the value placed in it.
fn pick_whole(
    alloc: Global,
    root: Option<&Json>,
    to_place: &[PathStep],
    value: &Json,
    levels: u32,
) -> Result<Option<Json>, PickRefusal>
    ensures ok { IfOk result (λ r. pick_placed_at to_place.now [] (data_of value.now) (data_or_made root.entry) ≡ Some (option_map data_of r)) }
    ensures shallow { IfOk result (λ r. NestsWithin levels (option_map data_of r)) }
    ensures cannot { (result ≡ Err PickRefusal.CannotPlace) ↔ (place_at to_place.now (data_of value.now) (data_or_made root.entry) ≡ None) }
    ensures deep { result ≡ Err PickRefusal.TooDeep → PicksDeeper levels (pick_placed_at to_place.now [] (data_of value.now) (data_or_made root.entry)) }
{
    if !can_place(root, to_place) {
        return Err(PickRefusal::CannotPlace);
    }
    if placed_depth(to_place, value) > levels {
        return Err(PickRefusal::TooDeep);
    }
    let placed = place_on(alloc, root, to_place, value)?;
    if depth(&placed) > levels {
        drop(placed);
        return Err(PickRefusal::TooDeep);
    }
    Ok(Some(placed))
}

/// A copy of the root with the value placed in it.
fn place_on(
    alloc: Global,
    root: Option<&Json>,
    to_place: &[PathStep],
    value: &Json,
) -> Result<Json, PickRefusal>
    requires { IsSome (place_at to_place.now (data_of value.now) (data_or_made root)) }
    ensures ok { IfOk result (λ j. place_at to_place.now (data_of value.now) (data_or_made root.entry) ≡ Some (data_of j)) }
    ensures refused { IfErr result (λ e. e ≡ PickRefusal.Memory) }
{
    let copy = match root {
        Some(json) => json.copy()?,
        None => Json::Fields(JsonFields::new(alloc)),
    };
    let Ok(value) = value.copy() else {
        drop(copy);
        return Err(PickRefusal::Memory);
    };
    match place_steps(alloc, copy, to_place, value) {
        Ok(placed) => Ok(placed),
        Err(fault) => {
            drop(fault);
            Err(PickRefusal::Memory)
        }
    }
}

/// What the value is not placed in.
fn pick_apart(
    root: Option<&Json>,
    to_place: &[PathStep],
    to_pick: &[PathStep],
    levels: u32,
) -> Result<Option<Json>, PickRefusal>
    requires { Part to_place.now to_pick.now }
    ensures ok { (value : Data) → IfOk result (λ r. pick_placed_at to_place.now to_pick.now value (data_or_made root.entry) ≡ Some (option_map data_of r)) }
    ensures shallow { IfOk result (λ r. NestsWithin levels (option_map data_of r)) }
    ensures cannot { (value : Data) → (result ≡ Err PickRefusal.CannotPlace) ↔ (place_at to_place.now value (data_or_made root.entry) ≡ None) }
    ensures deep { (value : Data) → result ≡ Err PickRefusal.TooDeep → PicksDeeper levels (pick_placed_at to_place.now to_pick.now value (data_or_made root.entry)) }
{
    if !can_place(root, to_place) {
        return Err(PickRefusal::CannotPlace);
    }
    match root {
        Some(json) => copy_picked(pick_steps(to_pick, json), levels),
        None => Ok(None),
    }
}

fn copy_picked(picked: Option<&Json>, levels: u32) -> Result<Option<Json>, PickRefusal>
    ensures ok { IfOk result (λ r. option_map data_of r ≡ option_map (λ j. data_of j.now) picked.entry) }
    ensures shallow { IfOk result (λ r. NestsWithin levels (option_map data_of r)) }
    ensures cannot { result ≡ Err PickRefusal.CannotPlace → ⊥ }
    ensures deep { result ≡ Err PickRefusal.TooDeep → PicksDeeper levels (Some (option_map (λ j. data_of j.now) picked.entry)) }
{
    let Some(json) = picked else {
        return Ok(None);
    };
    if depth(json) > levels {
        return Err(PickRefusal::TooDeep);
    }
    Ok(Some(json.copy()?))
}
