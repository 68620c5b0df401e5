//! Calls, once they are read.

use attr_values::Item;
use json_tree::Text;

/// The API's actions on one item.
#[derive(Clone, Copy, Debug, PartialEq, Eq, PartialOrd, Ord)]
pub enum Action {
    GetItem,
    PutItem,
    DeleteItem,
}

/// What a condition asks of an attribute.
#[derive(Clone, Copy, Debug, PartialEq, Eq, PartialOrd, Ord)]
pub enum ConditionKind {
    /// `attribute_exists`
    Exists,
    /// `attribute_not_exists`
    NotExists,
}

/// A condition on the item that is there (ConditionExpression): one function of one attribute. An absent item has no
/// attributes.
#[derive(Debug, Drop)]
pub struct Condition {
    pub kind: ConditionKind,
    pub attribute: Text,
}

/// What a put or a delete answers (ReturnValues).
#[derive(Clone, Copy, Debug, PartialEq, Eq, PartialOrd, Ord)]
pub enum ReturnValues {
    /// `NONE`, the default.
    Nothing,
    /// `ALL_OLD`: the attributes of the item that was there.
    AllOld,
}

/// What a put or a delete asks beside its item.
#[derive(Debug, Drop)]
pub struct Terms {
    pub condition: Option<Condition>,
    pub returns: ReturnValues,
}

/// What a call asks for.
#[derive(Debug, Drop)]
pub enum Request {
    /// The item of this key (GetItem).
    Get(Item),
    /// That this item stands in place of the one of its key (PutItem).
    Put(Item, Terms),
    /// That no item of this key stands (DeleteItem).
    Delete(Item, Terms),
}

/// A call: the name of the table that it asks, and what it asks for. It owns what it has, so a worker can keep it.
#[derive(Debug, Drop)]
pub struct Call {
    pub table: Text,
    pub request: Request,
}
