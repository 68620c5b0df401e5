// Reading a definition.
ghost use Rattle.std.specs.Prelude.{◌≡◌, IfOk, IfErr, [], Some, None, option_and_then, codes};
ghost use Rattle.serde_json.specs.Find.{get, as_array, as_object};
ghost use Rattle.serde_json.specs.View.{view, items_view, members_view};
ghost use Rattle.asl_fields.specs.Refusal.{RefusesForFault};
ghost use Rattle.asl_machine.specs.Faults.{DefinitionFault, LevelFault, StatesFaultWithin, StatesFault, StateFault, KindFault, ParallelFault, BranchesFault, BranchesFieldFault, MapFault, HasProcessorFault};
ghost use Rattle.asl_states.specs.Profile.{kind_named};
ghost use Rattle.asl_machine.specs.Profile.{Defines, DefinesNone, IsMachine, StatesWithin, StatesAre, IsStateText, IsOfKind, IsParallel, BranchesAre, ListedBranches, IsMap, HasProcessor};

use asl_fields::{MachineFault, Place, check_fields, read_template, required, text_of};
use asl_states::{
    StateKind, check_config, kind_named, name_of_two, read_choice, read_concurrency, read_elements,
    read_fail, read_pass, read_succeed, read_task, read_wait, read_work,
};
use asl_tree::{Branches, Machine, Map, Parallel, State, States};
use json_tree::Text;
use serde_json::{Map as Object, Value};
use std::alloc::Global;

/// How many levels deep `States` objects may nest.
const MOST_LEVELS: u32 = 32;

/// How many branches a Parallel may have.
const MOST_BRANCHES: usize = 4096;

/// What is read from a definition.
pub trait ReadMachine {
    /// Reads a definition.
    fn read(alloc: Global, definition: &Value) -> Result<Self, MachineFault>;
}

impl ReadMachine for Machine {
    /// The machine of a definition ("State Machine Structure"). Takes time linear in the definition, and memory for what
    /// the machine holds.
    ///
    /// Where a definition has several faults, which of them is answered is left open.
    fn read(alloc: Global, definition: &Value) -> Result<Machine, MachineFault>
        ensures ok { IfOk result (Defines (view definition.now)) }
        ensures refused { IfErr result (λ e. RefusesForFault e (DefinesNone (view definition.now))) }
        ensures fault { IfErr result (λ e. RefusesForFault e (DefinitionFault (view definition.now) e)) }
    {
        read_definition(alloc, definition)
    }
}

fn read_definition(alloc: Global, definition: &Value) -> Result<Machine, MachineFault>
    ensures ok { IfOk result (Defines (view definition.now)) }
    ensures fault { IfErr result (λ e. RefusesForFault e (DefinitionFault (view definition.now) e)) }
{
    let Some(fields) = definition.as_object() else {
        return Err(MachineFault::Missing(Text::new(alloc, "StartAt")?));
    };
    read_machine(alloc, Place::Top, MOST_LEVELS, definition, fields)
}

/// The machine of an object at this place, whose fields are `fields` too, where `States` objects may nest so many levels
/// deep.
#[cycle(read)]
fn read_machine(
    alloc: Global,
    place: Place,
    levels: u32,
    object: &Value,
    fields: &Object<String, Value>,
) -> Result<Machine, MachineFault>
    requires { as_object (view object.now) ≡ Some (members_view fields.now.entries) }
    ensures ok { IfOk result (IsMachine levels place (view object.now)) }
    ensures fault { IfErr result (λ e. RefusesForFault e (LevelFault levels place (view object.now) e)) }
{
    check_fields(alloc, place, object, fields)?;
    let start = required(alloc, object, "StartAt")?;
    let start = text_of(alloc, start, "StartAt")?;
    let states = required(alloc, object, "States")?;
    let Some(states) = states.as_object() else {
        return Err(MachineFault::BadField(Text::new(alloc, "States")?));
    };
    let states = read_states(alloc, levels, states)?;
    Machine::new(start, states)
}

/// The states of a `States` object, where such objects may nest so many levels deep from this one on.
#[cycle(read)]
fn read_states(
    alloc: Global,
    levels: u32,
    states: &Object<String, Value>,
) -> Result<States, MachineFault>
    ensures ok { IfOk result (StatesWithin levels (members_view states.now.entries)) }
    ensures fault { IfErr result
        (λ e. RefusesForFault e (StatesFaultWithin levels (members_view states.now.entries) e)) }
{
    if levels > 0 {
        read_each_state(alloc, levels - 1, states)
    } else {
        Err(MachineFault::TooDeep)
    }
}

#[cycle(read)]
fn read_each_state(
    alloc: Global,
    levels: u32,
    states: &Object<String, Value>,
) -> Result<States, MachineFault>
    ensures ok { IfOk result (StatesAre (IsMachine levels) (members_view states.now.entries) []) }
    ensures fault { IfErr result
        (λ e. RefusesForFault e (StatesFault (LevelFault levels) (members_view states.now.entries) e)) }
{
    let mut read = States::new(alloc);
    for (name, value) in states {
        let key = Text::new(alloc, name.as_str())?;
        match read_state(alloc, levels, name.as_str(), value) {
            Ok(state) => read.insert(key, state)?,
            Err(fault) => {
                drop(key);
                return Err(fault);
            }
        }
    }
    Ok(read)
}

#[cycle(read)]
fn read_state(alloc: Global, levels: u32, name: &str, value: &Value) -> Result<State, MachineFault>
    ensures ok { IfOk result (IsStateText (IsMachine levels) (view value.now)) }
    ensures fault { IfErr result
        (λ e. RefusesForFault e (StateFault (LevelFault levels) name.now (view value.now) e)) }
{
    let Some(fields) = value.as_object() else {
        return Err(MachineFault::BadField(Text::new(alloc, "States")?));
    };
    let kind = required(alloc, value, "Type")?;
    let Some(kind) = kind.as_str() else {
        return Err(MachineFault::BadField(Text::new(alloc, "Type")?));
    };
    read_kind(alloc, levels, name, kind, value, fields)
}

/// The state of an object of this type, whose fields are `fields` too.
#[cycle(read)]
fn read_kind(
    alloc: Global,
    levels: u32,
    name: &str,
    kind: &str,
    object: &Value,
    fields: &Object<String, Value>,
) -> Result<State, MachineFault>
    requires { as_object (view object.now) ≡ Some (members_view fields.now.entries) }
    ensures ok { IfOk result (IsOfKind (IsMachine levels) (kind_named kind.now) (view object.now)) }
    ensures fault { IfErr result
        (λ e. RefusesForFault e (KindFault (LevelFault levels) name.now (kind_named kind.now) (view object.now) e)) }
{
    match kind_named(kind) {
        Some(StateKind::Pass) => Ok(State::Pass(read_pass(alloc, name, object, fields)?)),
        Some(StateKind::Task) => Ok(State::Task(read_task(alloc, name, object, fields)?)),
        Some(StateKind::Wait) => Ok(State::Wait(read_wait(alloc, name, object, fields)?)),
        Some(StateKind::Fail) => Ok(State::Fail(read_fail(alloc, object, fields)?)),
        Some(StateKind::Succeed) => Ok(State::Succeed(read_succeed(alloc, object, fields)?)),
        Some(StateKind::Parallel) => {
            Ok(State::Parallel(read_parallel(alloc, levels, name, object, fields)?))
        }
        Some(StateKind::Map) => Ok(State::Map(read_map(alloc, levels, name, object, fields)?)),
        Some(StateKind::Choice) => Ok(State::Choice(read_choice(alloc, object, fields)?)),
        None => Err(MachineFault::BadField(Text::new(alloc, "Type")?)),
    }
}

#[cycle(read)]
fn read_parallel(
    alloc: Global,
    levels: u32,
    name: &str,
    object: &Value,
    fields: &Object<String, Value>,
) -> Result<Parallel, MachineFault>
    requires { as_object (view object.now) ≡ Some (members_view fields.now.entries) }
    ensures ok { IfOk result (IsParallel (IsMachine levels) (view object.now)) }
    ensures fault { IfErr result
        (λ e. RefusesForFault e (ParallelFault (LevelFault levels) name.now (view object.now) e)) }
{
    check_fields(alloc, Place::Parallel, object, fields)?;
    let parameters = read_template(alloc, object, "Parameters", false)?;
    let work = read_work(alloc, name, object, parameters)?;
    match read_branches(alloc, levels, object) {
        Ok(branches) => Ok(Parallel {
            branches,
            processing: work.processing,
            errors: work.errors,
            transition: work.transition,
        }),
        Err(fault) => {
            drop(work);
            Err(fault)
        }
    }
}

#[cycle(read)]
fn read_branches(alloc: Global, levels: u32, object: &Value) -> Result<Branches, MachineFault>
    ensures ok { IfOk result (ListedBranches (IsMachine levels) (option_and_then as_array (get (codes "Branches") (view object.now)))) }
    ensures fault { IfErr result
        (λ e. RefusesForFault e (BranchesFieldFault (LevelFault levels) (get (codes "Branches") (view object.now)) e)) }
{
    let value = required(alloc, object, "Branches")?;
    let Some(items) = value.as_array() else {
        return Err(MachineFault::BadField(Text::new(alloc, "Branches")?));
    };
    if items.len() > MOST_BRANCHES {
        return Err(MachineFault::BadField(Text::new(alloc, "Branches")?));
    }
    read_each_branch(alloc, levels, items)
}

#[cycle(read)]
fn read_each_branch(
    alloc: Global,
    levels: u32,
    items: &Vec<Value>,
) -> Result<Branches, MachineFault>
    ensures ok { IfOk result (BranchesAre (IsMachine levels) (items_view items.now.items) []) }
    ensures fault { IfErr result
        (λ e. RefusesForFault e (BranchesFault (LevelFault levels) (items_view items.now.items) e)) }
{
    let mut inner = Vec::new(alloc);
    for item in items {
        let Some(fields) = item.as_object() else {
            return Err(MachineFault::BadField(Text::new(alloc, "Branches")?));
        };
        match read_machine(alloc, Place::Branch, levels, item, fields) {
            Ok(machine) => inner.push(machine)?,
            Err(fault) => {
                drop(inner);
                return Err(fault);
            }
        }
    }
    Ok(Branches::new(inner))
}

#[cycle(read)]
fn read_map(
    alloc: Global,
    levels: u32,
    name: &str,
    object: &Value,
    fields: &Object<String, Value>,
) -> Result<Map, MachineFault>
    requires { as_object (view object.now) ≡ Some (members_view fields.now.entries) }
    ensures ok { IfOk result (IsMap (IsMachine levels) (view object.now)) }
    ensures fault { IfErr result
        (λ e. RefusesForFault e (MapFault (LevelFault levels) name.now (view object.now) e)) }
{
    check_fields(alloc, Place::Map, object, fields)?;
    let max_concurrency = read_concurrency(alloc, object)?;
    let elements = read_elements(alloc, object)?;
    let work = match read_work(alloc, name, object, None) {
        Ok(work) => work,
        Err(fault) => {
            drop(elements);
            return Err(fault);
        }
    };
    match read_processor(alloc, levels, object) {
        Ok(processor) => Ok(Map {
            processor,
            items_path: elements.items_path,
            item_selector: elements.item_selector,
            max_concurrency,
            processing: work.processing,
            errors: work.errors,
            transition: work.transition,
        }),
        Err(fault) => {
            drop(elements);
            drop(work);
            Err(fault)
        }
    }
}

/// The processor of a Map.
#[cycle(read)]
fn read_processor(alloc: Global, levels: u32, object: &Value) -> Result<Machine, MachineFault>
    ensures ok { IfOk result (HasProcessor (IsMachine levels) (view object.now)) }
    ensures fault { IfErr result
        (λ e. RefusesForFault e (HasProcessorFault (LevelFault levels) (view object.now) e)) }
{
    let name = name_of_two(alloc, object, "ItemProcessor", "Iterator")?;
    let processor = required(alloc, object, name)?;
    let Some(fields) = processor.as_object() else {
        return Err(MachineFault::BadField(Text::new(alloc, name)?));
    };
    check_config(alloc, processor)?;
    read_machine(alloc, Place::Processor, levels, processor, fields)
}
