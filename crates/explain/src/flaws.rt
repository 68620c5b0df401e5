// What is wrong with a value that is to be a call.
ghost use Rattle.std.specs.Prelude.{◌≡◌, IfOk, IfSome, None, Some, Err, true, is_some, option_map};
ghost use Rattle.json_tree.specs.Data.{Data};
ghost use Rattle.json_tree.specs.View.{data_of};
ghost use Rattle.attr_values.specs.Reading.{read_datum};
ghost use Rattle.item_store.specs.Calls.{call_of, condition_in, item_field, may_have, returns_of, text_of};
ghost use Rattle.explain.specs.Details.{HasFlaw, conditioned, field_in};

use crate::details::{Case, Flaw, Malformed};
use crate::keys::enter_source;
use crate::why::{Way, field};
use attr_values::{ItemFault, read_value};
use item_store::{Action, Call, CallFault};
use json_tree::{Json, JsonFields, Text};
use std::alloc::{AllocError, Global};

const GET_FIELDS: [&str; 5] = [
    "TableName",
    "Key",
    "ConsistentRead",
    "ReturnConsumedCapacity",
    "ReturnItemCollectionMetrics",
];

const PUT_FIELDS: [&str; 6] = [
    "TableName",
    "Item",
    "ConditionExpression",
    "ReturnValues",
    "ReturnConsumedCapacity",
    "ReturnItemCollectionMetrics",
];

const DELETE_FIELDS: [&str; 6] = [
    "TableName",
    "Key",
    "ConditionExpression",
    "ReturnValues",
    "ReturnConsumedCapacity",
    "ReturnItemCollectionMetrics",
];

fn may_have(action: Action, name: &str) -> bool
    ensures { result ≡ may_have action name.now }
{
    let names = match action {
        Action::GetItem => GET_FIELDS.as_slice(),
        Action::PutItem => PUT_FIELDS.as_slice(),
        Action::DeleteItem => DELETE_FIELDS.as_slice(),
    };
    names.contains(&name)
}

/// The field of a call that has its item or its key.
pub(crate) fn item_field(action: Action) -> &'static str
    ensures { result.now ≡ item_field action }
{
    match action {
        Action::GetItem | Action::DeleteItem => "Key",
        Action::PutItem => "Item",
    }
}

/// The first flaw of a value that is to be the call of an action.
fn flaw_of(alloc: Global, action: Action, of: &Json) -> Result<Option<Flaw>, AllocError>
    ensures { IfOk result (λ o. IfSome o (HasFlaw action (data_of of.now))) }
{
    let Json::Fields(fields) = of else {
        return Ok(Some(Flaw::NoObject));
    };
    if let Some(name) = unknown_field(alloc, action, fields, of)? {
        return Ok(Some(Flaw::UnknownField(name)));
    }
    if let Some(flaw) = table_flaw(alloc, action, of)? {
        return Ok(Some(flaw));
    }
    if let Some(flaw) = item_flaw(alloc, action, of)? {
        return Ok(Some(flaw));
    }
    term_flaw(alloc, action, of)
}

/// The name of a field that the action hasn't.
fn unknown_field(
    alloc: Global,
    action: Action,
    fields: &JsonFields,
    of: &Json,
) -> Result<Option<Text>, AllocError>
    ensures { IfOk result (λ o. IfSome o (λ name. HasFlaw action (data_of of.now) (Flaw.UnknownField name))) }
{
    for member in fields.as_slice() {
        let name = member.name.as_str();
        if !may_have(action, name) && field(of, name).is_some() {
            return Ok(Some(member.name.copy()?));
        }
    }
    Ok(None)
}

/// What is wrong with `TableName`.
fn table_flaw(alloc: Global, action: Action, of: &Json) -> Result<Option<Flaw>, AllocError>
    ensures { IfOk result (λ o. IfSome o (HasFlaw action (data_of of.now))) }
{
    match field(of, "TableName") {
        None => Ok(Some(Flaw::MissingField(Text::new(alloc, "TableName")?))),
        Some(table) => if is_text(table) {
            Ok(None)
        } else {
            Ok(Some(Flaw::BadTableName))
        },
    }
}

fn is_text(json: &Json) -> bool
    ensures { result ≡ is_some (text_of (data_of json.now)) }
{
    match json {
        Json::Text(_) => true,
        _ => false,
    }
}

/// What is wrong with `Item` or `Key`.
fn item_flaw(alloc: Global, action: Action, of: &Json) -> Result<Option<Flaw>, AllocError>
    ensures { IfOk result (λ o. IfSome o (HasFlaw action (data_of of.now))) }
{
    let name = item_field(action);
    let Some(item) = field(of, name) else {
        return Ok(Some(Flaw::MissingField(Text::new(alloc, name)?)));
    };
    let Json::Fields(attributes) = item else {
        return Ok(Some(Flaw::BadItem));
    };
    for attribute in attributes.as_slice() {
        let name = attribute.name.as_str();
        if let Some(fault) = attribute_fault(alloc, name, item)? {
            return Ok(Some(Flaw::BadAttribute(attribute.name.copy()?, fault)));
        }
    }
    Ok(None)
}

/// Why the value of this attribute is none.
fn attribute_fault(alloc: Global, name: &str, item: &Json) -> Result<Option<ItemFault>, AllocError>
    ensures { IfOk result (λ o. IfSome o (λ fault. (value : Data) × (field_in name.now (data_of item.now) ≡ Some value) × (read_datum 32 value ≡ Err fault))) }
{
    let Some(value) = field(item, name) else {
        return Ok(None);
    };
    match read_value(alloc, value) {
        Ok(value) => {
            drop(value);
            Ok(None)
        }
        Err(ItemFault::Memory) => Err(AllocError),
        Err(fault) => Ok(Some(fault)),
    }
}

/// What is wrong with `ReturnValues` or `ConditionExpression`.
fn term_flaw(alloc: Global, action: Action, of: &Json) -> Result<Option<Flaw>, AllocError>
    ensures { IfOk result (λ o. IfSome o (HasFlaw action (data_of of.now))) }
{
    if !has_returns(field(of, "ReturnValues")) {
        return Ok(Some(Flaw::BadReturnValues));
    }
    match field(of, "ConditionExpression") {
        Some(condition) => if is_no_condition(alloc, condition)? {
            Ok(Some(Flaw::BadCondition))
        } else {
            Ok(None)
        },
        None => Ok(None),
    }
}

/// Whether a value is no condition: whether a delete is none in which nothing else may be wrong.
#[tactic(auto, using(crate::proofs::Conditions::no_condition))]
fn is_no_condition(alloc: Global, json: &Json) -> Result<bool, AllocError>
    ensures { IfOk result (λ b. b ≡ true → condition_in (Some (data_of json.now)) ≡ None) }
{
    let delete = conditioned(alloc, json)?;
    let refused = is_malformed(alloc, Action::DeleteItem, &delete);
    drop(delete);
    refused
}

fn conditioned(alloc: Global, json: &Json) -> Result<Json, AllocError>
    ensures { IfOk result (λ j. data_of j ≡ conditioned (data_of json.now)) }
{
    let mut fields = JsonFields::new(alloc);
    let table = Json::Text(Text::new(alloc, "")?);
    drop(fields.insert(Text::new(alloc, "TableName")?, table)?);
    let key = Json::Fields(JsonFields::new(alloc));
    drop(fields.insert(Text::new(alloc, "Key")?, key)?);
    let condition = json.copy()?;
    drop(fields.insert(Text::new(alloc, "ConditionExpression")?, condition)?);
    Ok(Json::Fields(fields))
}

fn has_returns(json: Option<&Json>) -> bool
    ensures { result ≡ is_some (returns_of (option_map (λ j. data_of j.now) json.entry)) }
{
    match json {
        None => true,
        Some(Json::Text(text)) => text.as_str() == "NONE" || text.as_str() == "ALL_OLD",
        Some(_) => false,
    }
}

/// Whether a value is no call of the action.
fn is_malformed(alloc: Global, action: Action, of: &Json) -> Result<bool, AllocError>
    ensures { IfOk result (λ b. b ≡ true → call_of action (data_of of.now) ≡ None) }
{
    match Call::read(alloc, action, of) {
        Ok(call) => {
            drop(call);
            Ok(false)
        }
        Err(CallFault::Malformed) => Ok(true),
        Err(CallFault::Memory) => Err(AllocError),
        Err(_) => Ok(false),
    }
}

/// What is wrong with a value that is to be the call of an action, if it is none.
pub(crate) fn in_call(
    alloc: Global,
    way: &mut Way,
    fields: &Json,
    action: Action,
    of: &Json,
) -> Result<Option<Case>, AllocError> {
    if !is_malformed(alloc, action, of)? {
        return Ok(None);
    }
    let of = of.copy()?;
    let Some(flaw) = flaw_of(alloc, action, &of)? else {
        return Ok(None);
    };
    enter_flaw(alloc, way, fields, action, &flaw)?;
    Ok(Some(Case::Malformed(Malformed { action, of, flaw })))
}

/// Goes to the field of Parameters that a flaw is about.
fn enter_flaw(
    alloc: Global,
    way: &mut Way,
    fields: &Json,
    action: Action,
    flaw: &Flaw,
) -> Result<(), AllocError> {
    let item = item_field(action);
    match flaw {
        Flaw::NoObject | Flaw::MissingField(_) => enter_source(alloc, way, fields, "", ""),
        Flaw::UnknownField(name) => enter_source(alloc, way, fields, name.as_str(), ""),
        Flaw::BadTableName => enter_source(alloc, way, fields, "TableName", ""),
        Flaw::BadItem => enter_source(alloc, way, fields, item, ""),
        Flaw::BadAttribute(name, _) => enter_source(alloc, way, fields, item, name.as_str()),
        Flaw::BadCondition => enter_source(alloc, way, fields, "ConditionExpression", ""),
        Flaw::BadReturnValues => enter_source(alloc, way, fields, "ReturnValues", ""),
    }
}
