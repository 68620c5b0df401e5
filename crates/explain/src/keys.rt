// What is wrong with a call that the table refuses.
ghost use Rattle.std.specs.Prelude.{◌≡◌, IfSome, Err, Some, not, option_copied};
ghost use Rattle.attr_values.specs.Key.{part_of};
ghost use Rattle.item_store.specs.Condition.{holds};
ghost use Rattle.explain.specs.Details.{is_part};

use crate::calls::copy_condition;
use crate::details::{Case, FailedCondition, NoKey, OtherAttribute, OtherTable};
use crate::why::{Way, field};
use attr_values::{Item, ItemFault, KeyAttribute, KeySchema, KeyType, Value, write_item};
use item_store::{Call, CallFault, Condition, ConditionKind, ItemStore, Request};
use json_tree::{Field, Json, Text};
use std::alloc::{AllocError, Global};

/// Goes to the field of Parameters from which a field of a call comes, and there to the one from which a part of it comes. An
/// empty name is no field.
pub(crate) fn enter_source(
    alloc: Global,
    way: &mut Way,
    fields: &Json,
    outer: &str,
    inner: &str,
) -> Result<(), AllocError> {
    let Some(template) = field(fields, "Parameters") else {
        return Ok(());
    };
    way.enter(alloc, "Parameters")?;
    let Some(source) = source_of(template, outer) else {
        return Ok(());
    };
    way.enter(alloc, source.name.as_str())?;
    match source_of(&source.value, inner) {
        Some(part) => way.enter(alloc, part.name.as_str()),
        None => Ok(()),
    }
}

/// The field of a template that becomes one of this name.
fn source_of<'a>(template: &'a Json, name: &str) -> Option<&'a Field> {
    let Json::Fields(fields) = template else {
        return None;
    };
    if name.is_empty() {
        return None;
    }
    for field in fields.as_slice() {
        let marked = field.name.as_str();
        if marked == name || marked.strip_suffix(".$") == Some(name) {
            return Some(field);
        }
    }
    None
}

/// What is wrong with a call of a table, if this item has the call's key.
pub(crate) fn in_refusal(
    alloc: Global,
    way: &mut Way,
    fields: &Json,
    table: &ItemStore,
    call: &Call,
    item: Option<&Item>,
) -> Result<Option<Case>, AllocError> {
    match table.key(call) {
        Ok(key) => {
            drop(key);
            enter_source(alloc, way, fields, "ConditionExpression", "")?;
            in_condition(call, item)
        }
        Err(CallFault::WrongTable) => {
            enter_source(alloc, way, fields, "TableName", "")?;
            in_table_name(call, table.table())
        }
        Err(CallFault::BadKey) => in_key(alloc, way, fields, table.schema(), call),
        Err(CallFault::Memory) => Err(AllocError),
        Err(CallFault::Malformed) => Ok(None),
    }
}

fn in_table_name(call: &Call, table: &Text) -> Result<Option<Case>, AllocError> {
    if call.table == *table {
        return Ok(None);
    }
    let named = call.table.copy()?;
    let table = table.copy()?;
    Ok(Some(Case::OtherTable(OtherTable { named, table })))
}

/// The condition of a call, if it doesn't hold of the item.
fn in_condition(call: &Call, item: Option<&Item>) -> Result<Option<Case>, AllocError> {
    let terms = match &call.request {
        Request::Get(_) => return Ok(None),
        Request::Put(_, terms) => terms,
        Request::Delete(_, terms) => terms,
    };
    let Some(condition) = &terms.condition else {
        return Ok(None);
    };
    if !fails(condition, item) {
        return Ok(None);
    }
    let condition = copy_condition(condition)?;
    let item = match item {
        Some(item) => Some(item.copy()?),
        None => None,
    };
    Ok(Some(Case::FailedCondition(FailedCondition { condition, item })))
}

fn fails(condition: &Condition, item: Option<&Item>) -> bool
    ensures { result ≡ not (holds (Some condition.now) (option_copied item.entry)) }
{
    let there = match item {
        Some(item) => item.contains(condition.attribute.as_str()),
        None => false,
    };
    match condition.kind {
        ConditionKind::Exists => !there,
        ConditionKind::NotExists => there,
    }
}

/// What is wrong with the key of a call.
fn in_key(
    alloc: Global,
    way: &mut Way,
    fields: &Json,
    schema: &KeySchema,
    call: &Call,
) -> Result<Option<Case>, AllocError> {
    let (name, item) = match &call.request {
        Request::Get(key) => ("Key", key),
        Request::Put(item, _) => ("Item", item),
        Request::Delete(key, _) => ("Key", key),
    };
    if part_fault(&schema.partition, item).is_some() {
        return in_part(alloc, way, fields, name, &schema.partition, item);
    }
    if let Some(sort) = &schema.sort {
        if part_fault(sort, item).is_some() {
            return in_part(alloc, way, fields, name, sort, item);
        }
    }
    in_others(alloc, way, fields, name, schema, item)
}

/// An attribute of the key that isn't as the table asks.
fn in_part(
    alloc: Global,
    way: &mut Way,
    fields: &Json,
    name: &str,
    attribute: &KeyAttribute,
    item: &Item,
) -> Result<Option<Case>, AllocError> {
    let Some(fault) = part_fault(attribute, item) else {
        return Ok(None);
    };
    enter_source(alloc, way, fields, name, attribute.name.as_str())?;
    let attribute = attribute.copy()?;
    let of = item.copy()?;
    Ok(Some(Case::NoKey(NoKey {
        attribute,
        fault,
        of,
    })))
}

/// Why an item has no such part of a key.
fn part_fault(attribute: &KeyAttribute, item: &Item) -> Option<ItemFault>
    ensures { IfSome result (λ e. part_of attribute.now item.now ≡ Err e) }
{
    let Some(value) = item.get(attribute.name.as_str()) else {
        return Some(ItemFault::NoKey);
    };
    match (attribute.kind, value) {
        (KeyType::S, Value::S(text)) => if text.as_str().is_empty() {
            Some(ItemFault::EmptyKey)
        } else {
            None
        },
        (KeyType::N, Value::N(_)) => None,
        _ => Some(ItemFault::KeyType),
    }
}

/// An attribute of a `Key` that is none of the table's key.
fn in_others(
    alloc: Global,
    way: &mut Way,
    fields: &Json,
    name: &str,
    schema: &KeySchema,
    item: &Item,
) -> Result<Option<Case>, AllocError> {
    let Json::Fields(attributes) = write_item(item)? else {
        return Ok(None);
    };
    for attribute in attributes.as_slice() {
        if !is_part(schema, &attribute.name) {
            enter_source(alloc, way, fields, name, attribute.name.as_str())?;
            return other_attribute(schema, &attribute.name, item);
        }
    }
    Ok(None)
}

fn other_attribute(
    schema: &KeySchema,
    name: &Text,
    item: &Item,
) -> Result<Option<Case>, AllocError> {
    if is_part(schema, name) || !item.contains(name.as_str()) {
        return Ok(None);
    }
    let name = name.copy()?;
    let of = item.copy()?;
    let schema = schema.copy()?;
    Ok(Some(Case::OtherAttribute(OtherAttribute { name, of, schema })))
}

fn is_part(schema: &KeySchema, name: &Text) -> bool
    ensures { result ≡ is_part schema.now name.now }
{
    if *name == schema.partition.name {
        return true;
    }
    match &schema.sort {
        Some(sort) => *name == sort.name,
        None => false,
    }
}
