//! Placing a value where a path leads.

ghost use Rattle.std.specs.Prelude.{◌≡◌, ◌↔◌, ◌∷◌, Some, None, IsSome, is_some, option_map, slice_get, IfOk, IfErr, OnOk, OnErr};
ghost use Rattle.json_tree.specs.Data.{Data, fields, list, items_of, members_of};
ghost use Rattle.json_tree.specs.Fields.{get_field};
ghost use Rattle.json_tree.specs.View.{data_of};
ghost use Rattle.ref_paths.specs.Composition.{data_or_made};
ghost use Rattle.ref_paths.specs.Placing.{place_at};
ghost use Rattle.ref_paths.specs.declared.path.PathStep.TheVariants.{Name, Index};

use crate::nesting::{insert_nested, put_field, put_item};
use crate::path::{PathStep, RefPath};
use json_tree::{Json, JsonFields, JsonList, Text};
use std::alloc::{AllocError, Global};

/// Why a value was not placed.
#[derive(Clone, Copy, Debug, Drop, PartialEq, Eq)]
pub enum PlaceRefusal {
    /// Some step names a field of what is no object, or an element that is not there.
    CannotPlace,
    /// An allocation was refused.
    Memory,
}

impl From<AllocError> for PlaceRefusal {
    ghost use Rattle.std.specs.Prelude.{◌≡◌};
    ghost use Rattle.ref_paths.specs.declared.placing.PlaceRefusal.TheVariants.{Memory};

    ghost from_gives = { λ _ e. e ≡ Memory };

    fn from(_refused: AllocError) -> PlaceRefusal {
        PlaceRefusal::Memory
    }
}

/// A value that was not placed, and what it was to be placed in, both as they were.
#[derive(Debug, Drop)]
pub struct PlaceFault {
    pub refusal: PlaceRefusal,
    pub root: Json,
    pub value: Json,
}

/// The root with the value where the path leads: a name replaces or adds that field of an object, and fields on the
/// way that are absent are made as objects; an index replaces that element of a list. Of the root one level is copied for
/// each step that leads to what is there, and everything else stays shared with the other owners; the first level is not
/// copied where nobody shares it. Other memory is taken for the fields that it adds. It is looked at first whether the
/// value can be placed, with one look-up for each step, and then there are two for each. Each level stays told how deep it
/// nests; where its deepest value gives way to one less deep, its values are asked for their depths. What the value
/// replaces is dropped. Calls itself once for each level of the root that the path goes down, and for no step below these.
/// A value that is placed below `n` steps makes a value of `n` levels more than it has, and to drop that one takes as many
/// calls inside each other: `placed_depth` tells how deep it comes to be.
pub fn place(alloc: Global, root: Json, path: &RefPath, value: Json) -> Result<Json, PlaceFault>
    ensures ok { IfOk result (λ j. place_at path.now (data_of value) (data_of root) ≡ Some (data_of j)) }
    ensures cannot { IfErr result (λ e. (e.refusal ≡ PlaceRefusal.CannotPlace) ↔ (place_at path.now (data_of value) (data_of root) ≡ None)) }
    ensures root_returned { IfErr result (λ e. e.root ≡ root) }
    ensures value_returned { IfErr result (λ e. e.value ≡ value) }
{
    place_steps(alloc, root, path.steps.as_slice(), value)
}

/// The same by a part of a path.
pub(crate) fn place_steps(
    alloc: Global,
    mut root: Json,
    steps: &[PathStep],
    value: Json,
) -> Result<Json, PlaceFault>
    ensures ok { IfOk result (λ j. place_at steps.now (data_of value) (data_of root) ≡ Some (data_of j)) }
    ensures cannot { IfErr result (λ e. (e.refusal ≡ PlaceRefusal.CannotPlace) ↔ (place_at steps.now (data_of value) (data_of root) ≡ None)) }
    ensures root_returned { IfErr result (λ e. e.root ≡ root) }
    ensures value_returned { IfErr result (λ e. e.value ≡ value) }
{
    if !can_place(Some(&root), steps) {
        return Err(PlaceFault {
            refusal: PlaceRefusal::CannotPlace,
            root,
            value,
        });
    }
    match place_copy(alloc, &mut root, steps, &value) {
        Ok(()) => Ok(root),
        Err(_refused) => Err(PlaceFault {
            refusal: PlaceRefusal::Memory,
            root,
            value,
        }),
    }
}

/// Whether some value can be placed there.
pub(crate) fn can_place(root: Option<&Json>, steps: &[PathStep]) -> bool
    ensures { (value : Data) → result ≡ is_some (place_at steps.now value (data_or_made root.entry)) }
{
    let mut current = root;
    for step in steps {
        match step.open(current) {
            Some(child) => current = child,
            None => return false,
        }
    }
    true
}

fn place_copy(
    alloc: Global,
    root: &mut Json,
    steps: &[PathStep],
    value: &Json,
) -> Result<(), AllocError>
    requires { IsSome (place_at steps.now (data_of value.now) (data_of root.old)) }
    ensures ok { OnOk result (place_at steps.now (data_of value.now) (data_of root.old) ≡ Some (data_of root.new)) }
    ensures root_stays { OnErr result (root.new ≡ root.old) }
{
    let copy = value.copy()?;
    place_in(alloc, root, steps, copy)
}

#[cycle(place)]
fn place_in(
    alloc: Global,
    root: &mut Json,
    steps: &[PathStep],
    value: Json,
) -> Result<(), AllocError>
    requires { IsSome (place_at steps.now (data_of value) (data_of root.old)) }
    ensures ok { OnOk result (place_at steps.now (data_of value) (data_of root.old) ≡ Some (data_of root.new)) }
    ensures root_stays { OnErr result (root.new ≡ root.old) }
{
    let Some((step, rest)) = steps.split_first() else {
        *root = value;
        return Ok(());
    };
    match (step, root) {
        (PathStep::Name(name), Json::Fields(fields)) => {
            place_in_field(alloc, fields, name, rest, value)
        }
        (PathStep::Index(index), Json::List(list)) => {
            place_in_item(alloc, list, *index, rest, value)
        }
        _ => Err(AllocError),
    }
}

#[cycle(place)]
fn place_in_item(
    alloc: Global,
    items: &mut JsonList,
    index: u32,
    rest: &[PathStep],
    value: Json,
) -> Result<(), AllocError>
    requires { IsSome (place_at (Index index ∷ rest.now) (data_of value) (list (items_of items.old))) }
    ensures ok { OnOk result (place_at (Index index ∷ rest.now) (data_of value) (list (items_of items.old)) ≡ Some (list (items_of items.new))) }
    ensures root_stays { OnErr result (items.new ≡ items.old) }
{
    let Some(mut child) = copy_item(items, index)? else {
        return Err(AllocError);
    };
    place_in(alloc, &mut child, rest, value)?;
    put_item(items, index, child, rest)
}

#[cycle(place)]
fn place_in_field(
    alloc: Global,
    members: &mut JsonFields,
    name: &Text,
    rest: &[PathStep],
    value: Json,
) -> Result<(), AllocError>
    requires { IsSome (place_at (Name name.now ∷ rest.now) (data_of value) (fields (members_of members.old))) }
    ensures ok { OnOk result (place_at (Name name.now ∷ rest.now) (data_of value) (fields (members_of members.old)) ≡ Some (fields (members_of members.new))) }
    ensures root_stays { OnErr result (members.new ≡ members.old) }
{
    let Some(mut child) = copy_field(members, name.as_str())? else {
        return add_field(alloc, members, name, rest, value);
    };
    let name = name.copy()?;
    place_in(alloc, &mut child, rest, value)?;
    put_field(members, name, child, rest)
}

fn copy_item(items: &JsonList, index: u32) -> Result<Option<Json>, AllocError>
    ensures { IfOk result (λ r. option_map data_of r ≡ slice_get items.now index) }
{
    match items.get(index as usize) {
        Some(item) => Ok(Some(item.copy()?)),
        None => Ok(None),
    }
}

fn copy_field(members: &JsonFields, name: &str) -> Result<Option<Json>, AllocError>
    ensures { IfOk result (λ r. option_map data_of r ≡ get_field name.now members.now) }
{
    match members.get(name) {
        Some(value) => Ok(Some(value.copy()?)),
        None => Ok(None),
    }
}

/// Adds a field that is absent, with the objects in it that the rest of the path names.
fn add_field(
    alloc: Global,
    members: &mut JsonFields,
    name: &Text,
    rest: &[PathStep],
    value: Json,
) -> Result<(), AllocError>
    requires absent { get_field name.now members.old ≡ None }
    requires placed { IsSome (place_at (Name name.now ∷ rest.now) (data_of value) (fields (members_of members.old))) }
    ensures ok { OnOk result (place_at (Name name.now ∷ rest.now) (data_of value) (fields (members_of members.old)) ≡ Some (fields (members_of members.new))) }
    ensures root_stays { OnErr result (members.new ≡ members.old) }
{
    insert_nested(alloc, members, name, rest, value)
}
