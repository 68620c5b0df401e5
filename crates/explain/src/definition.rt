// The state's own fields, as the text of the definition has them.
use asl_forward::frame_turns::Frame;
use json_tree::{Json, JsonFault, JsonFields, Text, from_value};
use serde_json::Value;
use std::alloc::{AllocError, Global};

/// The fields of a state that have its paths, its templates, its rules and its catchers.
const KEPT: [&str; 9] = [
    "InputPath",
    "Parameters",
    "ItemsPath",
    "ItemSelector",
    "ResultSelector",
    "ResultPath",
    "OutputPath",
    "Choices",
    "Catch",
];

/// These fields of the state before which a frame stands; no field if the definition has no such state. Takes memory for
/// what they hold.
pub(crate) fn fields_of(
    alloc: Global,
    definition: &Value,
    frame: &Frame,
) -> Result<Json, AllocError> {
    match state_of(definition, frame) {
        Some(state) => kept_fields(alloc, state),
        None => Ok(Json::Fields(JsonFields::new(alloc))),
    }
}

fn state_of<'a>(definition: &'a Value, frame: &Frame) -> Option<&'a Value> {
    let mut machine = definition;
    for step in frame.level.path.as_slice() {
        machine = branch_in(state_in(machine, &step.state)?, step.branch)?;
    }
    state_in(machine, &frame.state)
}

fn state_in<'a>(machine: &'a Value, name: &Text) -> Option<&'a Value> {
    machine.get("States")?.get(name.as_str())
}

fn branch_in(state: &Value, branch: u32) -> Option<&Value> {
    if let Some(branches) = state.get("Branches") {
        return branches.get(branch as usize);
    }
    match state.get("ItemProcessor") {
        Some(processor) => Some(processor),
        None => state.get("Iterator"),
    }
}

fn kept_fields(alloc: Global, state: &Value) -> Result<Json, AllocError> {
    let mut fields = JsonFields::new(alloc);
    for name in &KEPT {
        if let Some(value) = state.get(*name) {
            keep(alloc, &mut fields, name, value)?;
        }
    }
    Ok(Json::Fields(fields))
}

/// Adds a field. One with a number that isn't whole is left out: it is none that the machine reads.
fn keep(
    alloc: Global,
    fields: &mut JsonFields,
    name: &str,
    value: &Value,
) -> Result<(), AllocError> {
    match from_value(alloc, value) {
        Ok(json) => {
            let name = Text::new(alloc, name)?;
            drop(fields.insert(name, json)?);
            Ok(())
        }
        Err(JsonFault::Memory) => Err(AllocError),
        Err(_) => Ok(()),
    }
}
