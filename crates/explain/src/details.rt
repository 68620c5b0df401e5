// What is wrong, each with what makes it true.
ghost use Rattle.std.specs.Prelude.{◌≡◌, ◌<◌, ◌≢◌, true, false, length, Err, Some, None, is_some};
ghost use Rattle.json_tree.specs.Data.{depth as nesting, most_levels};
ghost use Rattle.json_tree.specs.View.{data_of};
ghost use Rattle.attr_values.specs.Item.{get_attribute};
ghost use Rattle.attr_values.specs.Key.{part_of};
ghost use Rattle.item_store.specs.Calls.{call_of};
ghost use Rattle.item_store.specs.Condition.{holds};
ghost use Rattle.explain.specs.Details.{PicksNothing, PlacesNothing, HasFlaw, is_list, is_part};

use attr_values::{Item, ItemFault, KeyAttribute, KeySchema};
use item_store::{Action, Condition};
use json_tree::{Json, JsonList, Text};

/// A path that picks nothing of a value: one of InputPath, OutputPath, ItemsPath, a template or a Choice's `Variable`.
#[derive(Drop)]
pub struct Absent {
    /// The path, as it stands in the definition.
    pub path: Text,
    /// The value of which it picks nothing, shared.
    pub of: Json,
    pub ghost picks_nothing: { ∥ PicksNothing path (data_of of) ∥₁ },
}

/// A path by which nothing can be placed in a value.
#[derive(Drop)]
pub struct NoPlace {
    /// The path, as it stands in the definition.
    pub path: Text,
    /// The value in which nothing can be placed by it, shared.
    pub of: Json,
    pub ghost places_nothing: { ∥ PlacesNothing path (data_of of) ∥₁ },
}

/// A value that nests deeper than a frame may hold.
#[derive(Drop)]
pub struct TooDeep {
    pub of: Json,
    pub ghost deep: { most_levels < nesting (data_of of) },
}

/// A value that is no list, where a Map asks for its elements.
#[derive(Drop)]
pub struct NoList {
    pub of: Json,
    pub ghost no_list: { ∥ is_list (data_of of) ≡ false ∥₁ },
}

/// More elements than a Map may have.
#[derive(Drop)]
pub struct TooMany {
    pub elements: JsonList,
    pub ghost many: { 4096 < length elements },
}

/// An input with which no rule of a Choice holds.
#[derive(Drop)]
pub struct NoRule {
    pub of: Json,
}

/// What is wrong with a value that is to be a call.
#[derive(Drop)]
pub enum Flaw {
    NoObject,
    /// The action has no field of this name.
    UnknownField(Text),
    /// `TableName`, `Key` or `Item` is absent.
    MissingField(Text),
    /// `TableName` is no text.
    BadTableName,
    /// `Key` or `Item` is no object.
    BadItem,
    /// This attribute of `Key` or `Item` is no attribute value.
    BadAttribute(Text, ItemFault),
    /// `ConditionExpression` is no condition.
    BadCondition,
    /// `ReturnValues` is neither `NONE` nor `ALL_OLD`.
    BadReturnValues,
}

/// A value that is no call of its action.
#[derive(Drop)]
pub struct Malformed {
    pub action: Action,
    /// The value that is to be the call.
    pub of: Json,
    pub flaw: Flaw,
    pub ghost malformed: { ∥ call_of action (data_of of) ≡ None ∥₁ },
    pub ghost flawed: { ∥ HasFlaw action (data_of of) flaw ∥₁ },
}

/// A call's table that is not the book's.
#[derive(Drop)]
pub struct OtherTable {
    /// The table that the call names.
    pub named: Text,
    /// The book's.
    pub table: Text,
    pub ghost differs: { named ≢ table },
}

/// A key attribute that a call's `Key` or `Item` lacks, or has of another type or as an empty text.
#[derive(Drop)]
pub struct NoKey {
    pub attribute: KeyAttribute,
    /// `NoKey` where it is absent, `KeyType` and `EmptyKey`.
    pub fault: ItemFault,
    /// The `Key` or the `Item`.
    pub of: Item,
    pub ghost no_part: { ∥ part_of attribute of ≡ Err fault ∥₁ },
}

/// An attribute of a call's `Key` that is none of the table's key.
#[derive(Drop)]
pub struct OtherAttribute {
    pub name: Text,
    /// The `Key`.
    pub of: Item,
    pub schema: KeySchema,
    pub ghost there: { ∥ is_some (get_attribute name of) ≡ true ∥₁ },
    pub ghost other: { ∥ is_part schema name ≡ false ∥₁ },
}

/// A condition that doesn't hold.
#[derive(Drop)]
pub struct FailedCondition {
    pub condition: Condition,
    /// The item that it met, if there is one.
    pub item: Option<Item>,
    pub ghost fails: { ∥ holds (Some condition) item ≡ false ∥₁ },
}

/// What is wrong.
#[derive(Drop)]
pub enum Case {
    PicksNothing(Absent),
    CannotPlace(NoPlace),
    TooDeep(TooDeep),
    NoList(NoList),
    TooMany(TooMany),
    NoRuleHolds(NoRule),
    Malformed(Malformed),
    OtherTable(OtherTable),
    NoKey(NoKey),
    OtherAttribute(OtherAttribute),
    FailedCondition(FailedCondition),
    /// A Fail state, whose error and cause the fault has.
    Declared,
    /// The error is taken from the branch of this number.
    Branch(u32),
    /// No detail was found.
    Unexplained,
}
