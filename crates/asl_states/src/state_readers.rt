// Reading the states that hold no machines, and what those that do have like these.
ghost use Rattle.std.specs.Prelude.{◌≡◌, IfOk, IfErr, OnErr, Some, None, true, false, codes};
ghost use Rattle.serde_json.specs.Find.{get, as_object};
ghost use Rattle.serde_json.specs.View.{view, members_view};
ghost use Rattle.asl_fields.specs.FieldFaults.{optional_text_fault};
ghost use Rattle.asl_fields.specs.Refusal.{RefusesForFault};
ghost use Rattle.asl_states.specs.Faults.{PassFault, WaitFault, SucceedFault, FailFault, TaskFault, ChoiceFault, WorkFault, ResourceFault, ProcessingFault, result_fault, transition_fault};
ghost use Rattle.asl_states.specs.Profile.{IsPass, IsWait, IsSucceed, IsFail, IsTask, IsChoice, HasWork, IsProcessing};
ghost use Rattle.asl_states.specs.Reading.{result_of, transition_of, end_of_state, default_of, resource_of, resource_named};

use crate::rule_readers::read_rules;
use crate::state::{Choice, Fail, Pass, Processing, Resource, Succeed, Task, Transition, Wait};
use asl_errors::{ErrorHandling, read_error_handling};
use asl_fields::paths::Template;
use asl_fields::{
    MachineFault, Place, check_fields, optional_text, read_path, read_template, required, text_of,
};
use json_tree::{Json, JsonFault, Text, from_value};
use serde_json::{Map, Value};
use std::alloc::Global;

/// What a Task, a Parallel and a Map have alike.
#[derive(Drop)]
pub struct Work {
    pub processing: Processing,
    pub errors: ErrorHandling,
    pub transition: Transition,
}

/// What the state of this name has of that. Its parameters are read by the caller.
pub fn read_work(
    alloc: Global,
    name: &str,
    object: &Value,
    parameters: Option<Template>,
) -> Result<Work, MachineFault>
    ensures parameters { IfOk result (λ w. w.processing.parameters ≡ parameters) }
    ensures ok { IfOk result (λ w. HasWork (view object.now) w.processing w.errors w.transition) }
    ensures fault { IfErr result (λ e. RefusesForFault e (WorkFault name.now (view object.now) e)) }
{
    let transition = match read_transition(alloc, name, object) {
        Ok(transition) => transition,
        Err(fault) => {
            drop(parameters);
            return Err(fault);
        }
    };
    let processing = match read_processing(alloc, object, parameters) {
        Ok(processing) => processing,
        Err(fault) => {
            drop(transition);
            return Err(fault);
        }
    };
    match read_error_handling(alloc, object) {
        Ok(errors) => Ok(Work {
            processing,
            errors,
            transition,
        }),
        Err(fault) => {
            drop(processing);
            drop(transition);
            Err(fault)
        }
    }
}

/// The call of this name.
fn resource_named(name: &str) -> Option<Resource>
    ensures { result ≡ resource_named name.now }
{
    match name {
        "arn:aws:states:::dynamodb:getItem" => Some(Resource::GetItem),
        "arn:aws:states:::dynamodb:putItem" => Some(Resource::PutItem),
        "arn:aws:states:::dynamodb:deleteItem" => Some(Resource::DeleteItem),
        _ => None,
    }
}

/// The call that a Task makes.
fn read_resource(alloc: Global, object: &Value) -> Result<Resource, MachineFault>
    ensures ok { IfOk result (λ r. resource_of (get (codes "Resource") (view object.now)) ≡ Some r) }
    ensures fault { IfErr result
        (λ e. RefusesForFault e (ResourceFault (get (codes "Resource") (view object.now)) e)) }
{
    let value = required(alloc, object, "Resource")?;
    let Some(name) = value.as_str() else {
        return Err(MachineFault::BadField(Text::new(alloc, "Resource")?));
    };
    match resource_named(name) {
        Some(resource) => Ok(resource),
        None => Err(MachineFault::Unsupported(Text::new(alloc, "Resource")?)),
    }
}

pub fn read_task(
    alloc: Global,
    name: &str,
    object: &Value,
    fields: &Map<String, Value>,
) -> Result<Task, MachineFault>
    requires { as_object (view object.now) ≡ Some (members_view fields.now.entries) }
    ensures ok { IfOk result (IsTask (view object.now)) }
    ensures fault { IfErr result (λ e. RefusesForFault e (TaskFault name.now (view object.now) e)) }
{
    check_fields(alloc, Place::Task, object, fields)?;
    let resource = read_resource(alloc, object)?;
    let parameters = read_template(alloc, object, "Parameters", false)?;
    let work = read_work(alloc, name, object, parameters)?;
    Ok(Task {
        resource,
        processing: work.processing,
        errors: work.errors,
        transition: work.transition,
    })
}

/// Where a Choice goes by default, if it says so.
fn read_default(alloc: Global, object: &Value) -> Result<Option<Text>, MachineFault>
    ensures ok { IfOk result (λ o. default_of (get (codes "Default") (view object.now)) ≡ Some o) }
    ensures fault { IfErr result
        (λ e. RefusesForFault e (optional_text_fault (codes "Default") (get (codes "Default") (view object.now)) ≡ Some e)) }
{
    match object.get("Default") {
        Some(value) => Ok(Some(text_of(alloc, value, "Default")?)),
        None => Ok(None),
    }
}

pub fn read_choice(
    alloc: Global,
    object: &Value,
    fields: &Map<String, Value>,
) -> Result<Choice, MachineFault>
    requires { as_object (view object.now) ≡ Some (members_view fields.now.entries) }
    ensures ok { IfOk result (IsChoice (view object.now)) }
    ensures fault { IfErr result (λ e. RefusesForFault e (ChoiceFault (view object.now) e)) }
{
    check_fields(alloc, Place::Choice, object, fields)?;
    let default = read_default(alloc, object)?;
    let processing = match read_processing(alloc, object, None) {
        Ok(processing) => processing,
        Err(fault) => {
            drop(default);
            return Err(fault);
        }
    };
    match read_rules(alloc, object) {
        Ok(rules) => Ok(Choice {
            processing,
            rules,
            default,
        }),
        Err(fault) => {
            drop(processing);
            drop(default);
            Err(fault)
        }
    }
}

pub fn read_pass(
    alloc: Global,
    name: &str,
    object: &Value,
    fields: &Map<String, Value>,
) -> Result<Pass, MachineFault>
    requires { as_object (view object.now) ≡ Some (members_view fields.now.entries) }
    ensures ok { IfOk result (IsPass (view object.now)) }
    ensures fault { IfErr result (λ e. RefusesForFault e (PassFault name.now (view object.now) e)) }
{
    check_fields(alloc, Place::Pass, object, fields)?;
    let transition = read_transition(alloc, name, object)?;
    let result = read_result(alloc, object)?;
    let parameters = read_template(alloc, object, "Parameters", false)?;
    let processing = read_processing(alloc, object, parameters)?;
    Ok(Pass {
        processing,
        result,
        transition,
    })
}

pub fn read_succeed(
    alloc: Global,
    object: &Value,
    fields: &Map<String, Value>,
) -> Result<Succeed, MachineFault>
    requires { as_object (view object.now) ≡ Some (members_view fields.now.entries) }
    ensures ok { IfOk result (IsSucceed (view object.now)) }
    ensures fault { IfErr result (λ e. RefusesForFault e (SucceedFault (view object.now) e)) }
{
    check_fields(alloc, Place::Succeed, object, fields)?;
    let processing = read_processing(alloc, object, None)?;
    Ok(Succeed { processing })
}

pub fn read_wait(
    alloc: Global,
    name: &str,
    object: &Value,
    fields: &Map<String, Value>,
) -> Result<Wait, MachineFault>
    requires { as_object (view object.now) ≡ Some (members_view fields.now.entries) }
    ensures ok { IfOk result (IsWait (view object.now)) }
    ensures fault { IfErr result (λ e. RefusesForFault e (WaitFault name.now (view object.now) e)) }
{
    check_fields(alloc, Place::Wait, object, fields)?;
    let transition = read_transition(alloc, name, object)?;
    let processing = read_processing(alloc, object, None)?;
    Ok(Wait {
        processing,
        transition,
    })
}

pub fn read_fail(
    alloc: Global,
    object: &Value,
    fields: &Map<String, Value>,
) -> Result<Fail, MachineFault>
    requires { as_object (view object.now) ≡ Some (members_view fields.now.entries) }
    ensures ok { IfOk result (IsFail (view object.now)) }
    ensures fault { IfErr result (λ e. RefusesForFault e (FailFault (view object.now) e)) }
{
    check_fields(alloc, Place::Fail, object, fields)?;
    let error = optional_text(alloc, object, "Error")?;
    let cause = optional_text(alloc, object, "Cause")?;
    Ok(Fail { error, cause })
}

/// The `Result` of a Pass state, if it has one.
fn read_result(alloc: Global, object: &Value) -> Result<Option<Json>, MachineFault>
    ensures ok { IfOk result (λ r. result_of (get (codes "Result") (view object.now)) ≡ Some r) }
    ensures refused { IfErr result
        (λ e. RefusesForFault e (result_of (get (codes "Result") (view object.now)) ≡ None)) }
    ensures fault { IfErr result
        (λ e. RefusesForFault e (result_fault (get (codes "Result") (view object.now)) ≡ Some e)) }
{
    let Some(value) = object.get("Result") else {
        return Ok(None);
    };
    match from_value(alloc, value) {
        Ok(json) => Ok(Some(json)),
        Err(JsonFault::Memory) => Err(MachineFault::Memory),
        Err(_) => Err(MachineFault::BadField(Text::new(alloc, "Result")?)),
    }
}

/// Where the state of this name goes: it has exactly one of `Next` and `End: true`, `End: false` being none.
fn read_transition(alloc: Global, name: &str, object: &Value) -> Result<Transition, MachineFault>
    ensures ok { IfOk result (λ transition. transition_of (view object.now) ≡ Some transition) }
    ensures refused { IfErr result (λ e. RefusesForFault e (transition_of (view object.now) ≡ None)) }
    ensures fault { IfErr result
        (λ e. RefusesForFault e
        (transition_fault name.now (end_of_state (get (codes "End") (view object.now)))
        (get (codes "Next") (view object.now)) ≡ Some e)) }
{
    let ends = read_end(alloc, object)?;
    match object.get("Next") {
        None if ends => Ok(Transition::End),
        None => Err(MachineFault::Missing(Text::new(alloc, "Next")?)),
        Some(_) if ends => Err(MachineFault::NextAndEnd(Text::new(alloc, name)?)),
        Some(next) => Ok(Transition::Next(text_of(alloc, next, "Next")?)),
    }
}

/// Whether `End: true` stands.
fn read_end(alloc: Global, object: &Value) -> Result<bool, MachineFault>
    ensures ok { IfOk result (λ ends. end_of_state (get (codes "End") (view object.now)) ≡ Some ends) }
    ensures refused { IfErr result
        (λ e. RefusesForFault e (end_of_state (get (codes "End") (view object.now)) ≡ None)) }
    ensures fault { IfErr result (λ e. RefusesForFault e (e ≡ MachineFault.BadField (codes "End"))) }
{
    let Some(end) = object.get("End") else {
        return Ok(false);
    };
    match end.as_bool() {
        Some(ends) => Ok(ends),
        None => Err(MachineFault::BadField(Text::new(alloc, "End")?)),
    }
}

/// What a state makes of its input and its result. Its parameters are read by the caller, since their field's name and
/// its paths depend on the state's type.
fn read_processing(
    alloc: Global,
    object: &Value,
    parameters: Option<Template>,
) -> Result<Processing, MachineFault>
    ensures parameters { IfOk result (λ p. p.parameters ≡ parameters) }
    ensures ok { IfOk result (IsProcessing (view object.now)) }
    ensures fault { IfErr result (λ e. RefusesForFault e (ProcessingFault (view object.now) e)) }
{
    let input_path = read_path(alloc, object, "InputPath")?;
    let result_selector = read_template(alloc, object, "ResultSelector", false)?;
    let result_path = read_path(alloc, object, "ResultPath")?;
    let output_path = read_path(alloc, object, "OutputPath")?;
    Ok(Processing {
        input_path,
        parameters,
        result_selector,
        result_path,
        output_path,
    })
}
