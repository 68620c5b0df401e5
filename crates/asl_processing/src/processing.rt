// What a state makes of its input and its result ("Input and Output Processing").
ghost use Rattle.std.specs.Prelude.{◌≡◌, Some, Ok, Err, IfOk, IfErr};
ghost use Rattle.json_tree.specs.Data.{Data};
ghost use Rattle.json_tree.specs.View.{data_of};
ghost use Rattle.asl_processing.specs.Errors.{NamesError};
ghost use Rattle.asl_processing.specs.Processing.{and_then, picked_by_path, filled_from, placed_in, within_levels, effective, passed_on};

use crate::error::{OwnFault, TurnFault};
use asl_states::Processing;
use asl_states::paths::{FillFault, PickRefusal, RefPath, Template, pick_placed};
use json_tree::{Json, JsonFields, depth};
use std::alloc::Global;

/// The levels that a value in a frame may have.
pub const MOST_LEVELS: u32 = 127;

/// What a state works on. A value that is picked is shared; a template takes memory for what it makes.
pub fn effective_input(
    alloc: Global,
    processing: &Processing,
    raw: &Json,
) -> Result<Json, TurnFault>
    ensures ok { IfOk result (λ j. effective processing.now (data_of raw.now) ≡ Ok (data_of j)) }
    ensures fault { IfErr result (λ e. NamesError e (effective processing.now (data_of raw.now))) }
{
    let input = pick(alloc, &processing.input_path, raw)?;
    fill(alloc, &processing.parameters, input)
}

/// What a state passes on of its result. The result is placed in the raw input only where it is picked again, and only one
/// level of the raw input is copied for each step of the path; what the path leads past is shared.
pub fn output_of(
    alloc: Global,
    processing: &Processing,
    raw: &Json,
    made: Json,
) -> Result<Json, TurnFault>
    ensures ok { IfOk result (λ j. passed_on processing.now (data_of raw.now) (data_of made) ≡ Ok (data_of j)) }
    ensures fault { IfErr result (λ e. NamesError e (passed_on processing.now (data_of raw.now) (data_of made))) }
{
    let selected = fill(alloc, &processing.result_selector, made)?;
    pick_output(alloc, processing, raw, &selected)
}

fn pick_output(
    alloc: Global,
    processing: &Processing,
    raw: &Json,
    selected: &Json,
) -> Result<Json, TurnFault>
    ensures ok { IfOk result (λ j. and_then within_levels (and_then (picked_by_path processing.now.output_path) (placed_in processing.now.result_path (data_of raw.now) (data_of selected.now))) ≡ Ok (data_of j)) }
    ensures fault { IfErr result (λ e. NamesError e (and_then within_levels (and_then (picked_by_path processing.now.output_path) (placed_in processing.now.result_path (data_of raw.now) (data_of selected.now))))) }
{
    let Some(placing) = &processing.result_path else {
        return pick_held(alloc, &processing.output_path, raw);
    };
    let Some(picking) = &processing.output_path else {
        return nothing_of(alloc, placing, raw);
    };
    pick_of_placed(alloc, raw, placing, selected, picking)
}

/// What one path picks after another has placed the value.
fn pick_of_placed(
    alloc: Global,
    raw: &Json,
    placing: &RefPath,
    selected: &Json,
    picking: &RefPath,
) -> Result<Json, TurnFault>
    ensures ok { IfOk result (λ j. and_then within_levels (and_then (picked_by_path (Some picking.now)) (placed_in (Some placing.now) (data_of raw.now) (data_of selected.now))) ≡ Ok (data_of j)) }
    ensures fault { IfErr result (λ e. NamesError e (and_then within_levels (and_then (picked_by_path (Some picking.now)) (placed_in (Some placing.now) (data_of raw.now) (data_of selected.now))))) }
{
    match pick_placed(alloc, raw, placing, selected, picking, MOST_LEVELS) {
        Ok(Some(json)) => Ok(json),
        Ok(None) => Err(TurnFault::Error(OwnFault::Runtime)),
        Err(PickRefusal::TooDeep) => Err(TurnFault::Error(OwnFault::Runtime)),
        Err(PickRefusal::CannotPlace) => { Err(TurnFault::Error(OwnFault::ResultPathMatchFailure)) }
        Err(PickRefusal::Memory) => Err(TurnFault::Memory),
    }
}

/// An empty object, where a value can be placed.
fn nothing_of(alloc: Global, placing: &RefPath, raw: &Json) -> Result<Json, TurnFault>
    ensures ok { IfOk result (λ j. (value : Data) → and_then within_levels (and_then (picked_by_path None) (placed_in (Some placing.now) (data_of raw.now) value)) ≡ Ok (data_of j)) }
    ensures fault { IfErr result (λ e. (value : Data) → NamesError e (and_then within_levels (and_then (picked_by_path None) (placed_in (Some placing.now) (data_of raw.now) value)))) }
{
    if placing.can_place(raw) {
        Ok(Json::Fields(JsonFields::new(alloc)))
    } else {
        Err(TurnFault::Error(OwnFault::ResultPathMatchFailure))
    }
}

/// What a path picks, if a frame may hold it.
fn pick_held(alloc: Global, path: &Option<RefPath>, json: &Json) -> Result<Json, TurnFault>
    ensures ok { IfOk result (λ j. and_then within_levels (picked_by_path path.now (data_of json.now)) ≡ Ok (data_of j)) }
    ensures fault { IfErr result (λ e. NamesError e (and_then within_levels (picked_by_path path.now (data_of json.now)))) }
{
    let picked = pick(alloc, path, json)?;
    held(picked)
}

/// The value, if a frame may hold it. Takes the time of `json_tree::depth`.
pub fn held(json: Json) -> Result<Json, TurnFault>
    ensures ok { IfOk result (λ j. within_levels (data_of json) ≡ Ok (data_of j)) }
    ensures fault { IfErr result (λ e. NamesError e (within_levels (data_of json))) }
    ensures memory { ¬ (result ≡ Err TurnFault.Memory) }
{
    if depth(&json) > MOST_LEVELS {
        drop(json);
        return Err(TurnFault::Error(OwnFault::Runtime));
    }
    Ok(json)
}

/// The raw input with a value placed in it, if a frame may hold it; where `null` stands for the path, without it. One
/// level of the raw input is copied for each step of the path, and nothing is made that is deeper than a frame may hold.
#[tactic(auto, using(crate::proofs::Again::picked_root))]
pub fn place_held(
    alloc: Global,
    path: &Option<RefPath>,
    raw: &Json,
    value: Json,
) -> Result<Json, TurnFault>
    ensures ok { IfOk result (λ j. and_then within_levels (placed_in path.now (data_of raw.now) (data_of value)) ≡ Ok (data_of j)) }
    ensures fault { IfErr result (λ e. NamesError e (and_then within_levels (placed_in path.now (data_of raw.now) (data_of value)))) }
{
    let Some(placing) = path else {
        drop(value);
        return held(raw.copy()?);
    };
    let root = RefPath::root(alloc);
    let placed = pick_of_placed(alloc, raw, placing, &value, &root);
    drop(root);
    drop(value);
    placed
}

/// What a path picks, shared; an empty object, where `null` stands for it.
fn pick(alloc: Global, path: &Option<RefPath>, json: &Json) -> Result<Json, TurnFault>
    ensures ok { IfOk result (λ j. picked_by_path path.now (data_of json.now) ≡ Ok (data_of j)) }
    ensures fault { IfErr result (λ e. NamesError e (picked_by_path path.now (data_of json.now))) }
{
    let Some(path) = path else {
        return Ok(Json::Fields(JsonFields::new(alloc)));
    };
    match path.pick(json) {
        Some(picked) => Ok(picked.copy()?),
        None => Err(TurnFault::Error(OwnFault::Runtime)),
    }
}

/// What a template is filled to; the value itself, where there is none.
fn fill(alloc: Global, template: &Option<Template>, input: Json) -> Result<Json, TurnFault>
    ensures ok { IfOk result (λ j. filled_from template.now (data_of input) ≡ Ok (data_of j)) }
    ensures fault { IfErr result (λ e. NamesError e (filled_from template.now (data_of input))) }
{
    let Some(template) = template else {
        return Ok(input);
    };
    let filled = template.fill(alloc, &input, None);
    drop(input);
    match filled {
        Ok(json) => Ok(json),
        Err(FillFault::NoSuchNode) => Err(TurnFault::Error(OwnFault::ParameterPathFailure)),
        Err(FillFault::Memory) => Err(TurnFault::Memory),
    }
}
