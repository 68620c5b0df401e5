//! Items.

ghost use Rattle.std.specs.Prelude.{◌≡◌, ◌↔◌, [], Ok, Err, length, option_map, IsTrue, IfOk, is_some};
ghost use Rattle.json_tree.specs.View.{data_of};
ghost use Rattle.attr_values.specs.Datum.{attributes_of};
ghost use Rattle.attr_values.specs.Faults.{AnswersAs};
ghost use Rattle.attr_values.specs.Item.{get_attribute};
ghost use Rattle.attr_values.specs.Proper.{IsItem};
ghost use Rattle.attr_values.specs.Reading as spec;
ghost use Rattle.attr_values.specs.View.{datum_of};
ghost use Rattle.attr_values.specs.Writing.{item_json, json_entries};

use crate::fault::ItemFault;
use crate::order::compare_maps;
use crate::reading::{MOST_LEVELS, read_attributes};
use crate::spelling::is_map_spelled;
use crate::value::{Value, ValueMap};
use crate::writing::write_map;
use json_tree::{Json, JsonFields};
use std::alloc::{AllocError, Global};
use std::cmp::Ordering;
use std::marker::Model;

/// An item (PutItem of the DynamoDB API): attributes, each name once and in the order of the names' bytes. Owners share them.
/// Contracts see a list of pairs. Items are made by `read_item` alone, so what `IsItem` says holds of each. An item keeps the
/// fields that are written for it, so that to write it takes no memory: those that it was read from, where they are spelled so.
#[derive(Debug, Drop)]
pub struct Item {
    attributes: ValueMap,
    written: JsonFields,
}

impl Model for Item {
    ghost use Rattle.std.specs.Prelude.{List, ℕ};
    ghost use Rattle.attr_values.specs.Datum.{Datum};
    ghost use Rattle.attr_values.specs.DatumCode.{entries_code};
    ghost use Rattle.attr_values.specs.Writing.{KeepsJson};

    ghost Value = { List (List ℕ × Datum) };

    ghost coded = { entries_code };

    ghost view = { λ a. a.attributes };

    ghost invariant = { λ a. KeepsJson a.attributes a.written };
}

impl Item {
    pub fn len(&self) -> usize
        ensures { result ≡ length self.now }
    {
        self.attributes.len()
    }

    pub fn is_empty(&self) -> bool
        ensures { IsTrue result ↔ (self.now ≡ []) }
    {
        self.attributes.is_empty()
    }

    /// The value of a name. Takes time by the logarithm of the number of attributes.
    pub fn get(&self, name: &str) -> Option<&Value>
        ensures { option_map (λ v. datum_of v.now) result ≡ get_attribute name.now self.now }
    {
        self.attributes.get(name)
    }

    /// The same item, in one step: its attributes and its JSON are shared. Takes no memory, and is refused only where their
    /// owners cannot be counted.
    pub fn copy(&self) -> Result<Item, AllocError>
        ensures { IfOk result (λ i. i ≡ self.now) }
    {
        let written = self.written.copy()?;
        let attributes = self.attributes.copy()?;
        Ok(Item {
            attributes,
            written,
        })
    }

    pub fn contains(&self, name: &str) -> bool
        ensures { result ≡ is_some (get_attribute name.now self.now) }
    {
        self.get(name).is_some()
    }
}

impl PartialEq for Item {
    ghost use Rattle.std.specs.Cmp.{eq_by_cmp_equiv, on_total, partial_equiv_from_equiv};
    ghost use Rattle.std.specs.Ordering.{eq_by_cmp, on};
    ghost use Rattle.attr_values.specs.Datum.{attributes_of};
    ghost use Rattle.attr_values.specs.Order.{attributes_cmp, attributes_cmp_total};

    ghost eq = { eq_by_cmp (on attributes_of attributes_cmp) };

    ghost laws = { partial_equiv_from_equiv (eq_by_cmp_equiv (on_total attributes_of attributes_cmp_total)) };

    fn eq(&self, other: &Item) -> bool {
        self.cmp(other).is_eq()
    }
}

impl Eq for Item {
    ghost use Rattle.std.specs.Cmp.{eq_by_cmp_equiv, on_total};
    ghost use Rattle.attr_values.specs.Datum.{attributes_of};
    ghost use Rattle.attr_values.specs.Order.{attributes_cmp_total};

    ghost laws = { eq_by_cmp_equiv (on_total attributes_of attributes_cmp_total) };
}

impl PartialOrd for Item {
    ghost use Rattle.std.specs.Cmp.{on_total, partial_order_from_agreeing_total};
    ghost use Rattle.std.specs.Ordering.{as_partial_cmp, on};
    ghost use Rattle.std.specs.Prelude.{refl};
    ghost use Rattle.attr_values.specs.Datum.{attributes_of};
    ghost use Rattle.attr_values.specs.Order.{attributes_cmp, attributes_cmp_total};

    ghost partial_cmp = { as_partial_cmp (on attributes_of attributes_cmp) };

    ghost laws = { partial_order_from_agreeing_total (on attributes_of attributes_cmp) (on_total attributes_of attributes_cmp_total) (λ _ _. refl) (λ _ _. refl) };

    fn partial_cmp(&self, other: &Item) -> Option<Ordering> {
        Some(self.cmp(other))
    }
}

impl Ord for Item {
    ghost use Rattle.std.specs.Cmp.{on_total};
    ghost use Rattle.std.specs.Ordering.{on};
    ghost use Rattle.std.specs.Prelude.{refl};
    ghost use Rattle.attr_values.specs.Datum.{attributes_of};
    ghost use Rattle.attr_values.specs.Order.{attributes_cmp, attributes_cmp_total};

    ghost cmp = { on attributes_of attributes_cmp };

    ghost total = { on_total attributes_of attributes_cmp_total };

    ghost matches_partial_cmp = { λ _ _. refl };

    ghost matches_eq = { λ _ _. refl };

    fn cmp(&self, other: &Item) -> Ordering {
        compare_maps(&self.attributes, &other.attributes)
    }
}

/// Reads an item: an object whose fields are attributes. Takes memory for the attributes, and for each list, map and set
/// among them; names and texts are shared. So are the fields that are read, where they are spelled as they would be written.
/// Where they are not, as with a number `1.0`, it takes memory for the JSON of each value too.
pub fn read_item(alloc: Global, json: &Json) -> Result<Item, ItemFault>
    ensures read { AnswersAs attributes_of (spec.read_item (data_of json.now)) result }
    ensures kept { IfOk result IsItem }
    ensures memory { result ≡ Err ItemFault.Memory → IsTrue (spec.is_object (data_of json.now)) }
{
    let Json::Fields(fields) = json else {
        return Err(ItemFault::BadValue);
    };
    let attributes = match read_attributes(alloc, fields, MOST_LEVELS) {
        Ok(attributes) => attributes,
        Err(fault) => return Err(fault),
    };
    let written = written_of(alloc, &attributes, fields)?;
    Ok(Item {
        attributes,
        written,
    })
}

/// What is written for attributes: the fields that they were read from, where these are spelled so, and else new ones.
fn written_of(
    alloc: Global,
    attributes: &ValueMap,
    fields: &JsonFields,
) -> Result<JsonFields, AllocError>
    ensures { IfOk result (λ written. written ≡ json_entries attributes.now) }
{
    if is_map_spelled(attributes, fields) {
        return fields.copy();
    }
    write_map(alloc, attributes)
}

/// Writes an item as an object, its attributes in the order of their names' bytes. In one step: the object is shared. Takes no
/// memory, and is refused only where its owners cannot be counted.
pub fn write_item(item: &Item) -> Result<Json, AllocError>
    ensures json { IfOk result (λ j. data_of j ≡ item_json item.now) }
    ensures reads_back { IfOk result (λ j. spec.read_item (data_of j) ≡ Ok (attributes_of item.now)) }
{
    Ok(Json::Fields(item.written.copy()?))
}
