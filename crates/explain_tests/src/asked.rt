//! A machine of one state that is asked why it fails, and the answer as a text.
use asl_forward::{Frame, Prepared, first_frame};
use asl_machine::{Machine, ReadMachine, SharedMachine};
use attr_values::{Item, KeyAttribute, KeySchema, KeyType, read_item, write_item};
use explain::{Case, Flaw, Why, explain_turn, ready_turn};
use item_store::ItemStore;
use json_tree::{Json, JsonList, Text, read, write_text};
use ref_paths::PathStep;
use serde_json::Value;
use std::alloc::{AllocError, Global};
use std::test::Fail;

/// The machine that begins with this state, which may go on to the state T.
pub(crate) fn define(alloc: Global, state: &str) -> Result<Value, Fail> {
    let text = format!(in alloc;
        "{{\"StartAt\":\"S\",\"States\":{{\"S\":{state},\"T\":{{\"Type\":\"Succeed\"}}}}}}"
    )?;
    Ok(Value::from_str(alloc, text.as_str())?)
}

pub(crate) fn machine_of(alloc: Global, value: &Value) -> Result<SharedMachine, Fail> {
    let machine = Machine::read(alloc, value)?;
    Ok(SharedMachine::new(alloc, machine)?)
}

/// The frame before the machine's first state.
pub(crate) fn frame_of(alloc: Global, machine: &SharedMachine, input: &str) -> Result<Frame, Fail> {
    let name = Text::new(alloc, "m")?;
    let input = read(alloc, input.as_bytes())?;
    Ok(first_frame(alloc, &name, machine.machine(), &input)?)
}

/// The table `items`, whose key is the text `id`.
fn table(alloc: Global) -> Result<ItemStore, AllocError> {
    let name = Text::new(alloc, "items")?;
    let partition = KeyAttribute {
        name: Text::new(alloc, "id")?,
        kind: KeyType::S,
    };
    let schema = KeySchema {
        partition,
        sort: None,
    };
    Ok(ItemStore::new(alloc, name, schema))
}

fn item_of(alloc: Global, text: &str) -> Result<Option<Item>, Fail> {
    if text.is_empty() {
        return Ok(None);
    }
    let json = read(alloc, text.as_bytes())?;
    Ok(Some(read_item(alloc, &json)?))
}

/// Why the turn of a state fails with this input, if the item of the key is this one; an empty text is none.
pub(crate) fn asked(alloc: Global, state: &str, input: &str, item: &str) -> Result<String, Fail> {
    let value = define(alloc, state)?;
    let machine = machine_of(alloc, &value)?;
    let frame = frame_of(alloc, &machine, input)?;
    let item = item_of(alloc, item)?;
    turn_of(alloc, &value, &machine, &frame, item.as_ref())
}

fn turn_of(
    alloc: Global,
    value: &Value,
    machine: &SharedMachine,
    frame: &Frame,
    item: Option<&Item>,
) -> Result<String, Fail> {
    match ready_turn(alloc, machine, frame) {
        Ok(Some(prepared)) => prepared_text(alloc, &prepared, value, item),
        Ok(None) => Err("no turn".into()),
        Err(refused) => Err(refused.into()),
    }
}

/// In a function of its own, which owns no turn.
fn prepared_text(
    alloc: Global,
    prepared: &Prepared,
    value: &Value,
    item: Option<&Item>,
) -> Result<String, Fail> {
    let table = table(alloc)?;
    let why = explain_turn(alloc, prepared, value, &table, item)?;
    text_of(alloc, &why)
}

/// The explanation as a text: `-` if there is none.
pub(crate) fn text_of(alloc: Global, why: &Option<Why>) -> Result<String, Fail> {
    let Some(why) = why else {
        return Ok(String::from_str(alloc, "-")?);
    };
    let place = place_text(alloc, why.detail.place.as_slice())?;
    let case = case_text(alloc, &why.detail.case)?;
    let error = why.fault.error.as_str();
    Ok(format!(in alloc; "{error} {place} {case}")?)
}

fn place_text(alloc: Global, place: &[PathStep]) -> Result<String, Fail> {
    let mut steps = JsonList::new(alloc);
    for step in place {
        let json = match step {
            PathStep::Name(name) => Json::Text(name.copy()?),
            PathStep::Index(index) => Json::Whole(i64::from(*index)),
        };
        steps.push(json)?;
    }
    Ok(write_text(alloc, &Json::List(steps))?)
}

fn case_text(alloc: Global, case: &Case) -> Result<String, Fail> {
    match case {
        Case::PicksNothing(it) => about(alloc, "picks nothing", &it.path, &it.of),
        Case::CannotPlace(it) => about(alloc, "can't place", &it.path, &it.of),
        Case::TooDeep(_) => Ok(String::from_str(alloc, "too deep")?),
        Case::NoList(it) => json_text(alloc, "no list", &it.of),
        Case::TooMany(it) => {
            let count = it.elements.len();
            Ok(format!(in alloc; "too many {count}")?)
        }
        Case::NoRuleHolds(it) => json_text(alloc, "no rule", &it.of),
        Case::Malformed(it) => flaw_text(alloc, &it.flaw),
        Case::OtherTable(it) => {
            let (named, table) = (it.named.as_str(), it.table.as_str());
            Ok(format!(in alloc; "{named} for {table}")?)
        }
        Case::NoKey(it) => {
            let (name, fault) = (it.attribute.name.as_str(), &it.fault);
            Ok(format!(in alloc; "{name}: {fault}")?)
        }
        Case::OtherAttribute(it) => name_text(alloc, "no key's", &it.name),
        Case::FailedCondition(it) => condition_text(alloc, &it.condition.attribute, &it.item),
        Case::Declared => Ok(String::from_str(alloc, "declared")?),
        Case::Branch(number) => Ok(format!(in alloc; "branch {number}")?),
        Case::Unexplained => Ok(String::from_str(alloc, "unexplained")?),
    }
}

fn about(alloc: Global, what: &str, path: &Text, of: &Json) -> Result<String, Fail> {
    let path = path.as_str();
    let of = write_text(alloc, of)?;
    Ok(format!(in alloc; "{what} {path} {of}")?)
}

fn json_text(alloc: Global, what: &str, of: &Json) -> Result<String, Fail> {
    let of = write_text(alloc, of)?;
    Ok(format!(in alloc; "{what} {of}")?)
}

fn name_text(alloc: Global, what: &str, name: &Text) -> Result<String, Fail> {
    let name = name.as_str();
    Ok(format!(in alloc; "{what} {name}")?)
}

fn condition_text(alloc: Global, name: &Text, item: &Option<Item>) -> Result<String, Fail> {
    match item {
        Some(item) => about(alloc, "condition", name, &write_item(item)?),
        None => name_text(alloc, "condition without item", name),
    }
}

fn flaw_text(alloc: Global, flaw: &Flaw) -> Result<String, Fail> {
    match flaw {
        Flaw::NoObject => Ok(String::from_str(alloc, "no object")?),
        Flaw::UnknownField(name) => name_text(alloc, "unknown", name),
        Flaw::MissingField(name) => name_text(alloc, "missing", name),
        Flaw::BadTableName => Ok(String::from_str(alloc, "bad table")?),
        Flaw::BadItem => Ok(String::from_str(alloc, "bad item")?),
        Flaw::BadAttribute(name, fault) => {
            let name = name.as_str();
            Ok(format!(in alloc; "{name}: {fault}")?)
        }
        Flaw::BadCondition => Ok(String::from_str(alloc, "bad condition")?),
        Flaw::BadReturnValues => Ok(String::from_str(alloc, "bad return values")?),
    }
}
