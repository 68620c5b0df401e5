//! Attribute values, and the lists, maps and sets that hold them.

ghost use Rattle.std.specs.Prelude.{◌≡◌, ◌↔◌, [], length, option_map, IsTrue, IfOk};
ghost use Rattle.attr_values.specs.Item.{get_attribute};
ghost use Rattle.attr_values.specs.View.{datum_of, datum_list_of};
ghost use Rattle.json_tree.specs.Fields.{text_cmp};

use crate::number::Number;
use json_tree::Text;
use std::alloc::{AllocError, Global};
use std::cmp::Ordering;
use std::collections::BTreeSet;
use std::marker::Model;
use std::sync::Arc;

/// An attribute value (AttributeValue of the DynamoDB API), under the API's names of its types.
/// `≡` is equality of values: what a list or a text has room for is no part of it.
#[cycle(value)]
#[derive(Debug, Drop)]
pub enum Value {
    S(Text),
    N(Number),
    Bool(bool),
    Null,
    L(ValueList),
    M(ValueMap),
    Ss(TextSet),
    Ns(NumberSet),
}

/// The values of a list, in order. Contracts see a list of data. Owners share one node.
#[cycle(value)]
#[derive(Debug, Drop)]
pub struct ValueList {
    pub(crate) inner: Arc<Vec<Value>>,
}

impl Model for ValueList {
    ghost use Rattle.std.specs.Prelude.{List};
    ghost use Rattle.attr_values.specs.Datum.{Datum, datum_list_depth};
    ghost use Rattle.attr_values.specs.DatumCode.{datum_list_code};

    ghost Value = { List Datum };

    ghost coded = { datum_list_code };

    ghost use Rattle.std.specs.Arc.{arc_value};
    ghost use Rattle.attr_values.specs.View.{datum_list_of};

    ghost view = { λ a. datum_list_of (arc_value a.inner).items };

    ghost size = { datum_list_depth };

    ghost use Rattle.attr_values.specs.Falls.{datum_list_falls};

    ghost size_decreases = { λ a h. datum_list_falls a };
}

/// An attribute: its name and its value.
#[cycle(value)]
#[derive(Debug, Drop)]
pub(crate) struct Attribute {
    pub name: Text,
    pub value: Value,
}

/// Attributes, each name once and in the order of the names' bytes. Contracts see a list of pairs. Owners share one node.
#[cycle(value)]
#[derive(Debug, Drop)]
pub struct ValueMap {
    pub(crate) inner: Arc<Vec<Attribute>>,
}

impl Model for ValueMap {
    ghost use Rattle.std.specs.Prelude.{List, ℕ};
    ghost use Rattle.attr_values.specs.Datum.{Datum, entries_depth};
    ghost use Rattle.attr_values.specs.DatumCode.{entries_code};

    ghost Value = { List (List ℕ × Datum) };

    ghost coded = { entries_code };

    ghost use Rattle.std.specs.Arc.{arc_value};
    ghost use Rattle.attr_values.specs.Item.{IsItemInNameOrder};
    ghost use Rattle.attr_values.specs.View.{entries_of};

    ghost view = { λ a. entries_of (arc_value a.inner).items };

    ghost invariant = { λ a. IsItemInNameOrder (entries_of (arc_value a.inner).items) };

    ghost size = { entries_depth };

    ghost use Rattle.attr_values.specs.Falls.{entries_fall};

    ghost size_decreases = { λ a h. entries_fall a };
}

impl Value {
    /// The same value, in one step. Takes no memory: what it holds is shared. It is refused only where the owners of a long
    /// text, a list, a map or a set cannot be counted.
    pub fn copy(&self) -> Result<Value, AllocError>
        ensures { IfOk result (λ v. v ≡ self.now) }
    {
        match self {
            Value::S(text) => Ok(Value::S(text.copy()?)),
            Value::N(number) => Ok(Value::N(*number)),
            Value::Bool(b) => Ok(Value::Bool(*b)),
            Value::Null => Ok(Value::Null),
            Value::L(list) => Ok(Value::L(list.copy()?)),
            Value::M(map) => Ok(Value::M(map.copy()?)),
            Value::Ss(set) => Ok(Value::Ss(set.copy()?)),
            Value::Ns(set) => Ok(Value::Ns(set.copy()?)),
        }
    }
}

impl ValueList {
    pub fn as_slice(&self) -> &[Value]
        ensures { datum_list_of result.now ≡ self.now }
    {
        self.inner.as_slice()
    }

    /// The same list, shared, in one step. Takes no memory, and is refused only where its owners cannot be counted.
    pub fn copy(&self) -> Result<ValueList, AllocError>
        ensures { IfOk result (λ l. l ≡ self.now) }
    {
        let node = Arc::try_clone(&self.inner)?;
        Ok(ValueList { inner: node })
    }
}

impl ValueMap {
    /// The same attributes, shared, in one step. Takes no memory, and is refused only where their owners cannot be counted.
    pub fn copy(&self) -> Result<ValueMap, AllocError>
        ensures { IfOk result (λ m. m ≡ self.now) }
    {
        let node = Arc::try_clone(&self.inner)?;
        Ok(ValueMap { inner: node })
    }

    pub fn len(&self) -> usize
        ensures { result ≡ length self.now }
    {
        self.inner.len()
    }

    pub fn is_empty(&self) -> bool
        ensures { IsTrue result ↔ (self.now ≡ []) }
    {
        self.inner.is_empty()
    }

    /// The value of a name. Takes time by the logarithm of the number of attributes.
    pub fn get(&self, name: &str) -> Option<&Value>
        ensures { option_map (λ v. datum_of v.now) result ≡ get_attribute name.now self.now }
    {
        let attributes: &Vec<Attribute> = &self.inner;
        match attributes.binary_search_by(|attribute| compare_name(attribute, name)) {
            Ok(at) => Some(&attributes[at].value),
            Err(_gap) => None,
        }
    }
}

fn compare_name(attribute: &Attribute, name: &str) -> Ordering
    ensures { result ≡ text_cmp attribute.now.name name.now }
{
    attribute.name.as_str().cmp(name)
}

/// Texts without repeats, in the order of their bytes. Owners share one node.
#[derive(Debug, Drop)]
pub struct TextSet {
    pub(crate) inner: Arc<BTreeSet<Text>>,
}

impl Model for TextSet {
    ghost use Rattle.std.specs.Prelude.{List, ℕ};
    ghost use Rattle.std.specs.Arc.{arc_value};

    ghost Value = { List (List ℕ) };

    ghost view = { λ a. (arc_value a.inner).keys };
}

impl TextSet {
    /// The same set, shared, in one step. Takes no memory, and is refused only where its owners cannot be counted.
    pub fn copy(&self) -> Result<TextSet, AllocError>
        ensures { IfOk result (λ s. s ≡ self.now) }
    {
        let node = Arc::try_clone(&self.inner)?;
        Ok(TextSet { inner: node })
    }
}

/// Numbers without repeats, in their order. Owners share one node.
#[derive(Debug, Drop)]
pub struct NumberSet {
    pub(crate) inner: Arc<BTreeSet<Number>>,
}

impl Model for NumberSet {
    ghost use Rattle.std.specs.Prelude.{List};
    ghost use Rattle.attr_values.specs.Decimal.{Decimal};
    ghost use Rattle.std.specs.Arc.{arc_value};

    ghost Value = { List Decimal };

    ghost view = { λ a. (arc_value a.inner).keys };
}

impl NumberSet {
    /// The same set, shared, in one step. Takes no memory, and is refused only where its owners cannot be counted.
    pub fn copy(&self) -> Result<NumberSet, AllocError>
        ensures { IfOk result (λ s. s ≡ self.now) }
    {
        let node = Arc::try_clone(&self.inner)?;
        Ok(NumberSet { inner: node })
    }
}
