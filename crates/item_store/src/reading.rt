//! Reading a call.

ghost use Rattle.std.specs.Prelude.{◌≡◌, ◌⊎◌, Some, None, Err, IsTrue, IfOk, MatchResult, option_map};
ghost use Rattle.json_tree.specs.Fields.{get_field};
ghost use Rattle.json_tree.specs.View.{data_of};
ghost use Rattle.item_store.specs.Calls.{call_of, condition_in, form_in, form_of, has_form, has_its_fields, item_field, item_pairs, may_have, request_of, returns_of, terms_of, text_of};
ghost use Rattle.attr_values.specs.Reading.{is_object, read_item};
ghost use Rattle.item_store.specs.Lent.{condition_seen, form_seen, terms_seen};

use crate::call::{Action, Call, Condition, Request, ReturnValues, Terms};
use crate::condition::{LentCondition, read_condition};
use crate::fault::CallFault;
use attr_values::{Item, ItemFault, read_item};
use json_tree::{Json, JsonFields, Text};
use std::alloc::{AllocError, Global};

const GET_FIELDS: [&str; 5] = [
    "TableName",
    "Key",
    "ConsistentRead",
    "ReturnConsumedCapacity",
    "ReturnItemCollectionMetrics",
];

const PUT_FIELDS: [&str; 6] = [
    "TableName",
    "Item",
    "ConditionExpression",
    "ReturnValues",
    "ReturnConsumedCapacity",
    "ReturnItemCollectionMetrics",
];

const DELETE_FIELDS: [&str; 6] = [
    "TableName",
    "Key",
    "ConditionExpression",
    "ReturnValues",
    "ReturnConsumedCapacity",
    "ReturnItemCollectionMetrics",
];

/// What a put or a delete asks beside its item, not copied yet.
#[derive(Clone, Copy, Drop)]
pub(crate) struct LentTerms<'a> {
    pub condition: Option<LentCondition<'a>>,
    pub returns: ReturnValues,
}

/// A call but for the values of its item or key, not copied yet.
#[derive(Clone, Copy, Drop)]
pub(crate) struct LentForm<'a> {
    pub table: &'a str,
    pub item: &'a Json,
    pub terms: LentTerms<'a>,
}

impl Call {
    /// Reads the call of an action (the request syntax of GetItem, PutItem and DeleteItem): an object with `TableName`, with
    /// `Key`, or `Item` in a put, and perhaps, in a put or a delete, `ConditionExpression` and `ReturnValues`. Whether it
    /// asks a table that there is, and has a key of it, is no part of its form. Goes over the value once, and takes memory
    /// for the item and for the names of the table and of the condition's attribute.
    pub fn read(alloc: Global, action: Action, json: &Json) -> Result<Call, CallFault>
        ensures read { MatchResult result (λ c. call_of action (data_of json.now) ≡ Some c)
            (λ e. (e ≡ CallFault.Memory) ⊎ ((e ≡ CallFault.Malformed) × (call_of action (data_of json.now) ≡ None))) }
        ensures memory { result ≡ Err CallFault.Memory → IsTrue (has_form action (data_of json.now)) }
    {
        let Some(form) = form_of(action, json) else {
            return Err(CallFault::Malformed);
        };
        let item = read_values(alloc, form.item)?;
        let table = Text::new(alloc, form.table)?;
        let terms = copy_terms(alloc, form.terms)?;
        Ok(Call {
            table,
            request: request_of(action, item, terms),
        })
    }
}

/// The form of a call, if it is one of the action. Takes no memory.
#[tactic(auto, using(crate::proofs::Shapes::pairs_again))]
fn form_of(action: Action, json: &Json) -> Option<LentForm<'_>>
    ensures { option_map form_seen result ≡ form_of action (data_of json.now) }
{
    match json {
        Json::Fields(fields) => form_in(action, fields),
        _ => None,
    }
}

fn form_in(action: Action, fields: &JsonFields) -> Option<LentForm<'_>>
    ensures { option_map form_seen result ≡ form_in action fields.now }
{
    if !has_its_fields(action, fields) {
        return None;
    }
    let table = text_of(fields.get("TableName")?)?;
    let item = fields.get(item_field(action))?;
    let terms = terms_of(fields)?;
    Some(LentForm { table, item, terms })
}

/// Whether the action may have each of the fields.
fn has_its_fields(action: Action, fields: &JsonFields) -> bool
    ensures { result ≡ has_its_fields action fields.now }
{
    for field in fields.as_slice() {
        if !may_have(action, field.name.as_str()) {
            return false;
        }
    }
    true
}

fn may_have(action: Action, name: &str) -> bool
    ensures { result ≡ may_have action name.now }
{
    let names = match action {
        Action::GetItem => GET_FIELDS.as_slice(),
        Action::PutItem => PUT_FIELDS.as_slice(),
        Action::DeleteItem => DELETE_FIELDS.as_slice(),
    };
    names.contains(&name)
}

fn item_field(action: Action) -> &'static str
    ensures { result.now ≡ item_field action }
{
    match action {
        Action::GetItem | Action::DeleteItem => "Key",
        Action::PutItem => "Item",
    }
}

fn text_of(json: &Json) -> Option<&str>
    ensures { option_map (λ s. s.now) result ≡ text_of (data_of json.now) }
{
    match json {
        Json::Text(text) => Some(text.as_str()),
        _ => None,
    }
}

fn terms_of(fields: &JsonFields) -> Option<LentTerms<'_>>
    ensures { option_map terms_seen result ≡ terms_of fields.now }
{
    let condition = condition_in(fields.get("ConditionExpression"))?;
    let returns = returns_of(fields.get("ReturnValues"))?;
    Some(LentTerms { condition, returns })
}

fn condition_in(json: Option<&Json>) -> Option<Option<LentCondition<'_>>>
    ensures { option_map (option_map condition_seen) result ≡ condition_in (option_map (λ j. data_of j.now) json.entry) }
{
    match json {
        None => Some(None),
        Some(Json::Text(text)) => Some(Some(read_condition(text.as_str())?)),
        Some(_) => None,
    }
}

fn returns_of(json: Option<&Json>) -> Option<ReturnValues>
    ensures { result ≡ returns_of (option_map (λ j. data_of j.now) json.entry) }
{
    match json {
        None => Some(ReturnValues::Nothing),
        Some(Json::Text(text)) => match text.as_str() {
            "NONE" => Some(ReturnValues::Nothing),
            "ALL_OLD" => Some(ReturnValues::AllOld),
            _ => None,
        },
        Some(_) => None,
    }
}

/// Reads an item or a key, whose faults are all of the call's form.
#[tactic(auto, using(crate::proofs::Shapes::attributes_again))]
fn read_values(alloc: Global, json: &Json) -> Result<Item, CallFault>
    ensures read { MatchResult result (λ i. item_pairs (read_item (data_of json.now)) ≡ Some i)
        (λ e. (e ≡ CallFault.Memory) ⊎ ((e ≡ CallFault.Malformed) × (item_pairs (read_item (data_of json.now)) ≡ None))) }
    ensures memory { result ≡ Err CallFault.Memory → IsTrue (is_object (data_of json.now)) }
{
    match read_item(alloc, json) {
        Ok(item) => Ok(item),
        Err(ItemFault::Memory) => Err(CallFault::Memory),
        Err(_) => Err(CallFault::Malformed),
    }
}

fn copy_terms(alloc: Global, terms: LentTerms<'_>) -> Result<Terms, AllocError>
    ensures { IfOk result (λ t. t ≡ terms_seen terms.entry) }
{
    let condition = match terms.condition {
        Some(condition) => Some(Condition {
            kind: condition.kind,
            attribute: Text::new(alloc, condition.attribute)?,
        }),
        None => None,
    };
    Ok(Terms {
        condition,
        returns: terms.returns,
    })
}

fn request_of(action: Action, item: Item, terms: Terms) -> Request
    ensures { result ≡ request_of action item terms }
{
    match action {
        Action::GetItem => Request::Get(item),
        Action::PutItem => Request::Put(item, terms),
        Action::DeleteItem => Request::Delete(item, terms),
    }
}
