//! Reference paths: what they pick, and what is placed where they lead.
use crate::fault::RowFault;
use crate::json::{put, value_of};
use crate::parts::{cut, ensure, number_in, put_number, put_yes};
use crate::templates;
use json_tree::{Json, JsonFields};
use ref_paths::{
    PathFault, PickRefusal, PlaceFault, PlaceRefusal, RefPath, depth_is_told, elsewhere_stays,
    pick_placed, place, placed_at_root, placed_is_picked, texts_spell_one_path,
};
use std::alloc::Global;

pub(crate) fn answer(
    alloc: Global,
    out: &mut String,
    word: &str,
    rest: &str,
) -> Result<(), RowFault> {
    match word {
        "path" => put_path(alloc, out, rest),
        "pick" => put_picked(alloc, out, rest),
        "place" => put_placed(alloc, out, rest),
        "pick_placed" => put_pick_placed(alloc, out, rest),
        "can_place" => put_can_place(alloc, out, rest),
        "placed_depth" => put_placed_depth(alloc, out, rest),
        "apart" => put_apart(alloc, out, rest),
        _ => templates::answer(alloc, out, word, rest),
    }
}

fn path(alloc: Global, text: &str) -> Result<RefPath, RowFault> {
    match RefPath::read(alloc, text) {
        Ok(path) => Ok(path),
        Err(PathFault::BadPath(_)) => Err(RowFault::Said("no path")),
        Err(PathFault::Memory) => Err(RowFault::Memory),
    }
}

/// `path P`: whether it is one, and else at which byte the fault is.
fn put_path(alloc: Global, out: &mut String, text: &str) -> Result<(), RowFault> {
    match RefPath::read(alloc, text) {
        Ok(path) => {
            drop(path);
            put_yes(out, true)
        }
        Err(PathFault::BadPath(byte)) => {
            out.push_str("bad at ")?;
            put_number(out, byte)
        }
        Err(PathFault::Memory) => Err(RowFault::Memory),
    }
}

fn put_found(alloc: Global, out: &mut String, found: Option<&Json>) -> Result<(), RowFault> {
    match found {
        Some(json) => put(alloc, out, json),
        None => {
            out.push_str("none")?;
            Ok(())
        }
    }
}

/// `pick P J`
fn put_picked(alloc: Global, out: &mut String, rest: &str) -> Result<(), RowFault> {
    let (text, rest) = cut(rest);
    let path = path(alloc, text)?;
    put_picked_by(alloc, out, &path, rest)
}

fn put_picked_by(
    alloc: Global,
    out: &mut String,
    path: &RefPath,
    text: &str,
) -> Result<(), RowFault> {
    let root = value_of(alloc, text)?;
    put_found(alloc, out, path.pick(&root))
}

/// `place P VALUE ROOT`: what the root becomes, or the value and the root that are handed back. Another owner of the root keeps its own.
fn put_placed(alloc: Global, out: &mut String, rest: &str) -> Result<(), RowFault> {
    let (text, rest) = cut(rest);
    let path = path(alloc, text)?;
    put_placed_at(alloc, out, &path, rest)
}

fn put_placed_at(
    alloc: Global,
    out: &mut String,
    path: &RefPath,
    rest: &str,
) -> Result<(), RowFault> {
    let (value, root) = cut(rest);
    let kept = value_of(alloc, root)?;
    put_placed_beside(alloc, out, path, value, &kept)?;
    ensure(is_still(alloc, &kept, root)?, "another owner's was changed")
}

fn is_still(alloc: Global, kept: &Json, text: &str) -> Result<bool, RowFault> {
    let before = value_of(alloc, text)?;
    Ok(before == *kept)
}

fn put_placed_beside(
    alloc: Global,
    out: &mut String,
    path: &RefPath,
    text: &str,
    kept: &Json,
) -> Result<(), RowFault> {
    let value = value_of(alloc, text)?;
    let Ok(root) = kept.copy() else {
        drop(value);
        return Err(RowFault::Memory);
    };
    match place(alloc, root, path, value) {
        Ok(placed) => put(alloc, out, &placed),
        Err(fault) => put_returned(alloc, out, &fault, text, kept),
    }
}

/// Also where memory is refused the value and the root come back as they were.
fn put_returned(
    alloc: Global,
    out: &mut String,
    fault: &PlaceFault,
    text: &str,
    kept: &Json,
) -> Result<(), RowFault> {
    ensure(
        fault.root == *kept && is_still(alloc, &fault.value, text)?,
        "not as it was",
    )?;
    match fault.refusal {
        PlaceRefusal::Memory => Err(RowFault::Memory),
        PlaceRefusal::CannotPlace => {
            out.push_str("cannot place ")?;
            put(alloc, out, &fault.value)?;
            out.push_str(" in ")?;
            put(alloc, out, &fault.root)
        }
    }
}

fn refused(refusal: PickRefusal) -> RowFault {
    match refusal {
        PickRefusal::CannotPlace => RowFault::Said("cannot place"),
        PickRefusal::TooDeep => RowFault::Said("too deep"),
        PickRefusal::Memory => RowFault::Memory,
    }
}

/// `pick_placed P VALUE Q LEVELS ROOT`: what `Q` picks after the value was placed at `P`, where it has no more levels than that.
fn put_pick_placed(alloc: Global, out: &mut String, rest: &str) -> Result<(), RowFault> {
    let (placing, rest) = cut(rest);
    let path = path(alloc, placing)?;
    put_picked_after(alloc, out, &path, rest)
}

fn put_picked_after(
    alloc: Global,
    out: &mut String,
    placing: &RefPath,
    rest: &str,
) -> Result<(), RowFault> {
    let (value, rest) = cut(rest);
    let value = value_of(alloc, value)?;
    put_picked_with(alloc, out, placing, &value, rest)
}

fn put_picked_with(
    alloc: Global,
    out: &mut String,
    placing: &RefPath,
    value: &Json,
    rest: &str,
) -> Result<(), RowFault> {
    let (picking, rest) = cut(rest);
    let picking = path(alloc, picking)?;
    put_picked_from(alloc, out, placing, value, &picking, rest)
}

fn put_picked_from(
    alloc: Global,
    out: &mut String,
    placing: &RefPath,
    value: &Json,
    picking: &RefPath,
    rest: &str,
) -> Result<(), RowFault> {
    let (levels, root) = cut(rest);
    let levels = number_in(levels)?;
    let root = value_of(alloc, root)?;
    match pick_placed(alloc, &root, placing, value, picking, levels) {
        Ok(picked) => put_found(alloc, out, picked.as_ref()),
        Err(refusal) => Err(refused(refusal)),
    }
}

/// `can_place P ROOT`
fn put_can_place(alloc: Global, out: &mut String, rest: &str) -> Result<(), RowFault> {
    let (text, root) = cut(rest);
    let path = path(alloc, text)?;
    put_yes(out, can_place(alloc, &path, root)?)
}

fn can_place(alloc: Global, path: &RefPath, root: &str) -> Result<bool, RowFault> {
    let root = value_of(alloc, root)?;
    Ok(path.can_place(&root))
}

/// `placed_depth P VALUE`: how deep the value nests once it is placed.
fn put_placed_depth(alloc: Global, out: &mut String, rest: &str) -> Result<(), RowFault> {
    let (text, value) = cut(rest);
    let path = path(alloc, text)?;
    put_number(out, placed_depth(alloc, &path, value)? as usize)
}

fn placed_depth(alloc: Global, path: &RefPath, value: &str) -> Result<u32, RowFault> {
    let value = value_of(alloc, value)?;
    Ok(path.placed_depth(&value))
}

/// `apart P VALUE Q`: what each of the paths picks of an object without fields in which the value was placed, how many levels of fields `a` are
/// round it, and what is in the innermost. So deep a value may not be dropped as it is: its drop calls itself for each level.
fn put_apart(alloc: Global, out: &mut String, rest: &str) -> Result<(), RowFault> {
    let (placing, rest) = cut(rest);
    let path = path(alloc, placing)?;
    put_apart_at(alloc, out, &path, rest)
}

fn put_apart_at(
    alloc: Global,
    out: &mut String,
    placing: &RefPath,
    rest: &str,
) -> Result<(), RowFault> {
    let (value, beyond) = cut(rest);
    let beyond = path(alloc, beyond)?;
    put_apart_beside(alloc, out, placing, value, &beyond)
}

fn put_apart_beside(
    alloc: Global,
    out: &mut String,
    placing: &RefPath,
    value: &str,
    beyond: &RefPath,
) -> Result<(), RowFault> {
    let value = value_of(alloc, value)?;
    let empty = Json::Fields(JsonFields::new(alloc));
    match place(alloc, empty, placing, value) {
        Ok(placed) => put_taken(alloc, out, placed, placing, beyond),
        Err(fault) => match fault.refusal {
            PlaceRefusal::Memory => Err(RowFault::Memory),
            PlaceRefusal::CannotPlace => Err(RowFault::Said("cannot place")),
        },
    }
}

fn put_taken(
    alloc: Global,
    out: &mut String,
    placed: Json,
    placing: &RefPath,
    beyond: &RefPath,
) -> Result<(), RowFault> {
    let picks = put_both(alloc, out, &placed, placing, beyond);
    let (count, innermost) = take_apart(placed);
    picks?;
    put_number(out, count as usize)?;
    out.push(' ')?;
    put(alloc, out, &innermost)
}

fn put_both(
    alloc: Global,
    out: &mut String,
    placed: &Json,
    placing: &RefPath,
    beyond: &RefPath,
) -> Result<(), RowFault> {
    put_found(alloc, out, placing.pick(placed))?;
    out.push(' ')?;
    put_found(alloc, out, beyond.pick(placed))?;
    out.push(' ')?;
    Ok(())
}

fn take_apart(value: Json) -> (u32, Json) {
    let mut inner = value;
    for count in 0..1_000_000 {
        match inner {
            Json::Fields(mut fields) => match fields.remove("a") {
                Ok(Some(child)) => inner = child,
                _ => return (count, Json::Null),
            },
            other => return (count, other),
        }
    }
    (1_000_000, inner)
}

pub(crate) fn state_laws() {
    placed_is_picked();
    elsewhere_stays();
    placed_at_root();
    texts_spell_one_path();
    depth_is_told();
}
