// Why a turn, a join or a terminate fails.
ghost use Rattle.std.specs.Prelude.{◌≡◌, Some, IfOk, IfSome, option_map, option_copied};
ghost use Rattle.explain.specs.Ends.{failed_with, frame_after, frame_joined, frame_terminated};
ghost use Rattle.explain.specs.declared.why.Why.{Why};

use crate::catchers::{caught_by, in_catcher};
use crate::choices::{goes_on, in_rules};
use crate::definition::fields_of;
use crate::details::Case;
use crate::elements::in_elements;
use crate::ends::{branch_fault, join_fault, turn_fault};
use crate::results::{in_input, in_result, too_deep};
use crate::tasks::{in_no_input, in_task, in_work};
use crate::why::{Detail, Way, Why};
use asl_forward::frame_turns::state_parts::{Choice, Pass, Processing};
use asl_forward::frame_turns::{TurnFault, effective_input};
use asl_forward::machine_tree::{Map, Parallel, SharedMachine, State};
use asl_forward::{Fault, Frame, Origin, Prepared, located, work_of};
use attr_values::Item;
use item_store::ItemStore;
use json_tree::{Json, JsonList, Text};
use serde_json::Value;
use std::alloc::{AllocError, Global};

/// The explanation of a thread's failure, by what was found on this way.
fn explained(
    alloc: Global,
    state: Text,
    fault: Fault,
    way: Way,
    found: Result<Option<Case>, AllocError>,
) -> Result<Option<Why>, AllocError>
    ensures fault { IfOk result (λ o. option_map (λ (w : Why). w.fault) o ≡ Some fault) }
    ensures state { IfOk result (λ o. IfSome o (λ w. w.state ≡ state)) }
{
    let detail = match found {
        Ok(Some(case)) => Detail {
            place: way.into_steps(),
            case,
        },
        Ok(None) => {
            drop(way);
            Detail {
                place: Vec::new(alloc),
                case: Case::Unexplained,
            }
        }
        Err(refused) => {
            drop(way);
            drop(state);
            drop(fault);
            return Err(refused);
        }
    };
    Ok(Some(Why {
        state,
        fault,
        detail,
    }))
}

/// Why a prepared turn fails, if this item has the key that its call asks: none if it doesn't fail, as where a retrier or a
/// catcher takes the error up. Of the table only its name and its keys' schema are looked at. `definition` is the machine's
/// text: without it nothing is explained. Takes the turn's time and memory three times at most, and goes over the definition.
pub fn explain_turn(
    alloc: Global,
    prepared: &Prepared,
    definition: &Value,
    table: &ItemStore,
    item: Option<&Item>,
) -> Result<Option<Why>, AllocError>
    ensures fails { IfOk result (λ o. option_map (λ (w : Why). w.fault) o ≡ failed_with (frame_after prepared.now.machine prepared.now.frame table.now (option_copied item.entry) prepared.now.outcome)) }
    ensures state { IfOk result (λ o. IfSome o (λ w. w.state ≡ prepared.now.frame.state)) }
{
    let state = prepared.frame().state.copy()?;
    let Some(fault) = turn_fault(alloc, prepared, table, item)? else {
        return Ok(None);
    };
    let mut way = Way::new(alloc);
    let found = in_turn(alloc, &mut way, prepared, definition, table, item);
    explained(alloc, state, fault, way, found)
}

/// Why a join with these outputs fails: none if it doesn't, or if the frame's state forks into nothing.
pub fn explain_join(
    alloc: Global,
    machine: &SharedMachine,
    frame: &Frame,
    definition: &Value,
    outputs: JsonList,
) -> Result<Option<Why>, AllocError>
    ensures fails { IfOk result (λ o. option_map (λ (w : Why). w.fault) o ≡ failed_with (frame_joined machine.now frame.now outputs)) }
    ensures state { IfOk result (λ o. IfSome o (λ w. w.state ≡ frame.now.state)) }
{
    let state = frame.state.copy()?;
    let Some(fault) = join_fault(alloc, machine, frame, outputs.copy()?)? else {
        return Ok(None);
    };
    let mut way = Way::new(alloc);
    let found = in_join(alloc, &mut way, machine, frame, definition, outputs);
    explained(alloc, state, fault, way, found)
}

/// Why a terminate fails, after which the state takes this error from its branch of this number: none if a retrier or a
/// catcher takes it up.
pub fn explain_branch(
    alloc: Global,
    machine: &SharedMachine,
    frame: &Frame,
    definition: &Value,
    branch: u32,
    fault: &Fault,
) -> Result<Option<Why>, AllocError>
    ensures fails { IfOk result (λ o. option_map (λ (w : Why). w.fault) o ≡ failed_with (frame_terminated machine.now frame.now fault.now)) }
    ensures state { IfOk result (λ o. IfSome o (λ w. w.state ≡ frame.now.state)) }
{
    let state = frame.state.copy()?;
    let Some(failure) = branch_fault(alloc, machine, frame, fault)? else {
        return Ok(None);
    };
    let mut way = Way::new(alloc);
    let found = in_branch(alloc, &mut way, machine, frame, definition, branch, fault);
    explained(alloc, state, failure, way, found)
}

/// What is wrong with a turn that failed.
fn in_turn(
    alloc: Global,
    way: &mut Way,
    prepared: &Prepared,
    definition: &Value,
    table: &ItemStore,
    item: Option<&Item>,
) -> Result<Option<Case>, AllocError> {
    let frame = prepared.frame();
    let Some((_level, state)) = located(prepared.machine().machine(), frame) else {
        return Ok(None);
    };
    let fields = fields_of(alloc, definition, frame)?;
    match state {
        State::Task(task) => in_task(alloc, way, &fields, task, prepared, table, item),
        _ => in_state(alloc, way, &fields, state, &frame.raw),
    }
}

/// The same of a state that asks the table nothing.
fn in_state(
    alloc: Global,
    way: &mut Way,
    fields: &Json,
    state: &State,
    raw: &Json,
) -> Result<Option<Case>, AllocError> {
    match state {
        State::Pass(pass) => in_pass(alloc, way, fields, pass, raw),
        State::Choice(choice) => in_choice(alloc, way, fields, choice, raw),
        State::Wait(wait) => in_idle(alloc, way, fields, &wait.processing, raw),
        State::Succeed(succeed) => in_idle(alloc, way, fields, &succeed.processing, raw),
        State::Fail(_) => Ok(Some(Case::Declared)),
        State::Parallel(parallel) => in_parallel(alloc, way, fields, parallel, raw),
        State::Map(map) => in_map(alloc, way, fields, map, raw),
        State::Task(_) => Ok(None),
    }
}

fn in_pass(
    alloc: Global,
    way: &mut Way,
    fields: &Json,
    pass: &Pass,
    raw: &Json,
) -> Result<Option<Case>, AllocError> {
    let input = match effective_input(alloc, &pass.processing, raw) {
        Ok(input) => input,
        Err(TurnFault::Error(_)) => return in_input(alloc, way, fields, &pass.processing, raw),
        Err(TurnFault::Memory) => return Err(AllocError),
    };
    match &pass.result {
        Some(made) => in_result(alloc, way, fields, &pass.processing, raw, made),
        None => in_result(alloc, way, fields, &pass.processing, raw, &input),
    }
}

fn in_idle(
    alloc: Global,
    way: &mut Way,
    fields: &Json,
    processing: &Processing,
    raw: &Json,
) -> Result<Option<Case>, AllocError> {
    match effective_input(alloc, processing, raw) {
        Ok(input) => in_result(alloc, way, fields, processing, raw, &input),
        Err(TurnFault::Error(_)) => in_input(alloc, way, fields, processing, raw),
        Err(TurnFault::Memory) => Err(AllocError),
    }
}

fn in_choice(
    alloc: Global,
    way: &mut Way,
    fields: &Json,
    choice: &Choice,
    raw: &Json,
) -> Result<Option<Case>, AllocError> {
    let input = match effective_input(alloc, &choice.processing, raw) {
        Ok(input) => input,
        Err(TurnFault::Error(_)) => return in_input(alloc, way, fields, &choice.processing, raw),
        Err(TurnFault::Memory) => return Err(AllocError),
    };
    if goes_on(choice, &input) {
        in_result(alloc, way, fields, &choice.processing, raw, &input)
    } else {
        in_rules(alloc, way, fields, &choice.rules, &input)
    }
}

fn in_parallel(
    alloc: Global,
    way: &mut Way,
    fields: &Json,
    parallel: &Parallel,
    raw: &Json,
) -> Result<Option<Case>, AllocError> {
    match effective_input(alloc, &parallel.processing, raw) {
        Ok(input) => too_deep(&input),
        Err(fault) => {
            in_no_input(
                alloc,
                way,
                fields,
                &parallel.processing,
                &parallel.errors,
                raw,
                fault,
            )
        }
    }
}

fn in_map(
    alloc: Global,
    way: &mut Way,
    fields: &Json,
    map: &Map,
    raw: &Json,
) -> Result<Option<Case>, AllocError> {
    match effective_input(alloc, &map.processing, raw) {
        Ok(input) => in_elements(alloc, way, fields, map, raw, &input),
        Err(fault) => in_no_input(alloc, way, fields, &map.processing, &map.errors, raw, fault),
    }
}

/// What is wrong with a join that failed.
fn in_join(
    alloc: Global,
    way: &mut Way,
    machine: &SharedMachine,
    frame: &Frame,
    definition: &Value,
    outputs: JsonList,
) -> Result<Option<Case>, AllocError> {
    let made = Json::List(outputs);
    let Some((_level, state)) = located(machine.machine(), frame) else {
        return Ok(None);
    };
    let Some((processing, errors, _transition)) = work_of(state) else {
        return Ok(None);
    };
    let fields = fields_of(alloc, definition, frame)?;
    in_work(alloc, way, &fields, processing, errors, &frame.raw, &made)
}

/// What is wrong with a state that takes this error from its branch of this number.
fn in_branch(
    alloc: Global,
    way: &mut Way,
    machine: &SharedMachine,
    frame: &Frame,
    definition: &Value,
    branch: u32,
    fault: &Fault,
) -> Result<Option<Case>, AllocError> {
    let Some((_level, state)) = located(machine.machine(), frame) else {
        return Ok(None);
    };
    let Some((_processing, errors, _transition)) = work_of(state) else {
        return Ok(None);
    };
    let taken = taken_by(state, fault)?;
    let Some(index) = caught_by(errors, &taken) else {
        return Ok(Some(Case::Branch(branch)));
    };
    let fields = fields_of(alloc, definition, frame)?;
    in_catcher(alloc, way, &fields, index, &frame.raw)
}

/// The error that a state takes from a branch.
fn taken_by(state: &State, fault: &Fault) -> Result<Fault, AllocError> {
    let mut taken = fault.copy()?;
    taken.origin = match state {
        State::Parallel(_) => Origin::Branch,
        _ => Origin::Other,
    };
    Ok(taken)
}
