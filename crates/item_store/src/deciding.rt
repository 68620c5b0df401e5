//! What a call does with the item of its key.

ghost use Rattle.std.specs.Prelude.{◌≡◌, IsTrue, IfOk, OnErr};
ghost use Rattle.std.specs.Option.{option_copied};
ghost use Rattle.json_tree.specs.View.{data_of};
ghost use Rattle.item_store.specs.Condition.{has_attribute, holds};
ghost use Rattle.item_store.specs.Deciding.{decision, decision_of, given, object_with, read_only, refused, reply_takes_memory, write};
ghost use Rattle.item_store.specs.Faults.{check_failed};

use crate::access::AccessMode;
use crate::call::{Call, Condition, ConditionKind, Request, ReturnValues, Terms};
use attr_values::{Item, write_item};
use json_tree::{Json, JsonFields, Text};
use std::alloc::{AllocError, Global};

/// What a caller is told.
#[derive(Debug, Drop)]
pub enum Answer {
    /// The call's output.
    Given(Json),
    /// The name of the error.
    Refused(Text),
}

/// What a call does with the item of its key.
#[derive(Debug, Drop)]
pub struct Decided {
    pub access: AccessMode,
    /// Where the access is a write, the item that stands afterwards, if any. Else nothing.
    pub new: Option<Item>,
    pub answer: Answer,
}

/// What a call does with the item of its key, by the item that is there. Nothing of the item is changed. Takes memory for
/// the answer, where that has an item or an error's name; an item that is put is moved.
pub fn decide(alloc: Global, call: Call, old: Option<&Item>) -> Result<Decided, AllocError>
    ensures decision { IfOk result (λ d. decision_of d ≡ decision call.request (option_copied old.entry)) }
    ensures memory { OnErr result (IsTrue (reply_takes_memory (decision call.request (option_copied old.entry)).answer)) }
{
    let Call { table: _, request } = call;
    match request {
        Request::Get(_) => Ok(Decided {
            access: AccessMode::Read,
            new: None,
            answer: Answer::Given(object_with(alloc, "Item", old)?),
        }),
        Request::Put(item, terms) => decide_write(alloc, Some(item), terms, old),
        Request::Delete(_, terms) => decide_write(alloc, None, terms, old),
    }
}

/// A put or a delete, which leaves this item where its condition holds of the old one.
fn decide_write(
    alloc: Global,
    new: Option<Item>,
    terms: Terms,
    old: Option<&Item>,
) -> Result<Decided, AllocError>
    ensures decision { IfOk result (λ d. decision_of d ≡ write terms new (option_copied old.entry)) }
    ensures memory { OnErr result (IsTrue (reply_takes_memory (write terms new (option_copied old.entry)).answer)) }
{
    if !holds(&terms.condition, old) {
        return refused_write(alloc);
    }
    let shown = match terms.returns {
        ReturnValues::Nothing => None,
        ReturnValues::AllOld => old,
    };
    Ok(Decided {
        access: AccessMode::Write,
        new,
        answer: Answer::Given(object_with(alloc, "Attributes", shown)?),
    })
}

fn refused_write(alloc: Global) -> Result<Decided, AllocError>
    ensures { IfOk result (λ d. decision_of d ≡ read_only (refused check_failed)) }
{
    let name = Text::new(alloc, "DynamoDB.ConditionalCheckFailedException")?;
    Ok(Decided {
        access: AccessMode::Read,
        new: None,
        answer: Answer::Refused(name),
    })
}

fn holds(condition: &Option<Condition>, old: Option<&Item>) -> bool
    ensures { result ≡ holds condition.now (option_copied old.entry) }
{
    let Some(condition) = condition else {
        return true;
    };
    let there = has_attribute(condition.attribute.as_str(), old);
    match condition.kind {
        ConditionKind::Exists => there,
        ConditionKind::NotExists => !there,
    }
}

fn has_attribute(name: &str, old: Option<&Item>) -> bool
    ensures { result ≡ has_attribute name.now (option_copied old.entry) }
{
    match old {
        Some(item) => item.contains(name),
        None => false,
    }
}

/// An object with an item in its one field, or with no field where there is none.
fn object_with(alloc: Global, name: &str, item: Option<&Item>) -> Result<Json, AllocError>
    ensures json { IfOk result (λ j. data_of j ≡ object_with name.now (option_copied item.entry)) }
    ensures memory { OnErr result (IsTrue (reply_takes_memory (given (object_with name.now (option_copied item.entry))))) }
{
    let mut fields = JsonFields::new(alloc);
    if let Some(item) = item {
        let name = Text::new(alloc, name)?;
        drop(fields.insert(name, write_item(item)?)?);
    }
    Ok(Json::Fields(fields))
}
