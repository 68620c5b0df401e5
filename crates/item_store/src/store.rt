//! The items of one table.

ghost use Rattle.std.specs.Prelude.{◌≡◌, ◌⊎◌, ◌<◌, ◌^◌, [], length, Some, Ok, Err, IsOk, IsSome, IsTrue, IfOk, OnOk, OnErr, MatchResult, false, is_some};
ghost use Rattle.std.specs.Option.{option_copied};
ghost use Rattle.attr_values.specs.Key.{has_text};
ghost use Rattle.attr_values.specs.declared.key.Key.{Key};
ghost use Rattle.item_store.specs.Store.{stored_items, slot_keys, slot_key, has_slot_of, with_slot};
ghost use Rattle.item_store.specs.Listing.{items_left, IsListing};
ghost use Rattle.item_store.specs.Table.{key_asked, with_item};
ghost use Rattle.item_store.specs.declared.slot.SlotNo.{SlotNo};

use crate::call::Call;
use crate::fault::CallFault;
use crate::keying::key_in;
use crate::listing::Items;
use crate::slot::SlotNo;
use attr_values::{Item, Key, KeySchema};
use indexmap::IndexMap;
use json_tree::Text;
use std::alloc::{AllocError, Global};
use std::collections::BTreeMap;
use std::marker::Model;
use std::mem;

/// The items of one table by their keys. Each key that was asked for has a slot, in which an item stands or none, and which
/// is never removed: what a slot's number leads to is found in one step, and takes no memory.
///
/// Contracts see the table's name, its keys' schema, and the slots in the order of their making.
#[derive(Drop)]
pub struct ItemStore {
    table: Text,
    schema: KeySchema,
    slots: IndexMap<Key, Option<Item>>,
    order: BTreeMap<Key, SlotNo>,
}

impl Model for ItemStore {
    ghost use Rattle.attr_values.specs.contracts.key.Key as key_row;
    ghost use Rattle.attr_values.specs.contracts.key.KeySchema as schema_row;
    ghost use Rattle.attr_values.specs.DatumCode.{entries_code};
    ghost use Rattle.std.specs.Coded.{codes};
    ghost use Rattle.item_store.specs.Store.{Store, IsIndexed};

    ghost Value = { Store };

    ghost coded = { Prim.hlevel (codes, key_row.the_row.coded, schema_row.the_row.coded, entries_code) };

    ghost view = { λ s. record { table = s.table; schema = s.schema; slots = s.slots.entries } };

    ghost invariant = { λ s. IsIndexed s.slots.entries s.order.entries };
}

impl ItemStore {
    /// A store without slots, for the table of this name and the keys of this schema. Takes no memory.
    pub fn new(alloc: Global, table: Text, schema: KeySchema) -> ItemStore
        ensures { result ≡ record { table = table; schema = schema; slots = [] } }
    {
        ItemStore {
            table,
            schema,
            slots: IndexMap::new(alloc),
            order: BTreeMap::new(alloc),
        }
    }

    /// The table's name.
    pub fn table(&self) -> &Text
        ensures { result.now ≡ self.now.table }
    {
        &self.table
    }

    /// The attributes that the table's keys have.
    pub fn schema(&self) -> &KeySchema
        ensures { result.now ≡ self.now.schema }
    {
        &self.schema
    }

    /// The key that a call asks. `WrongTable` where it asks a table of another name, and then `BadKey` where its item has
    /// no key of this table, or its key lacks an attribute, has one too many, or one of another type, or an empty text.
    /// Takes memory for each text of the key.
    pub fn key(&self, call: &Call) -> Result<Key, CallFault>
        ensures key { MatchResult result (λ k. key_asked self.now.table self.now.schema call.now ≡ Ok k)
            (λ e. (e ≡ CallFault.Memory) ⊎ (key_asked self.now.table self.now.schema call.now ≡ Err e)) }
        ensures memory { result ≡ Err CallFault.Memory → IsOk (key_asked self.now.table self.now.schema call.now) × IsTrue (has_text self.now.schema) }
    {
        if call.table != self.table {
            return Err(CallFault::WrongTable);
        }
        key_in(&self.schema, &call.request)
    }

    /// The slot of a key: the one that there is, or a new one in which no item stands. Looks a key up by its hash; a new one
    /// also by its order, in time logarithmic in the number of slots. Memory is taken for a new slot, and for a copy of
    /// its key.
    pub fn slot(&mut self, key: Key) -> Result<SlotNo, AllocError>
        ensures slots { OnOk result (self.new ≡ with_slot self.old key) }
        ensures found { IfOk result (λ n. slot_key self.new n ≡ Some key) }
        ensures items { stored_items self.new ≡ stored_items self.old }
        ensures kept { OnOk result ((n : SlotNo) (q : Key) → slot_key self.old n ≡ Some q → slot_key self.new n ≡ Some q) }
        ensures err { OnErr result (self.new ≡ self.old) }
        ensures absent { OnErr result (has_slot_of self.old key ≡ false) }
        ensures one { IfOk result (λ n. (m : SlotNo) → slot_key self.new m ≡ Some key → m ≡ n) }
    {
        match self.slots.get_index_of(&key) {
            Some(index) => Ok(SlotNo { index }),
            None => self.add(key),
        }
    }

    /// A new slot, of a key that has none.
    fn add(&mut self, key: Key) -> Result<SlotNo, AllocError>
        requires { has_slot_of self.old key ≡ false }
        ensures slots { OnOk result (self.new ≡ with_slot self.old key) }
        ensures found { IfOk result (λ n. slot_key self.new n ≡ Some key) }
        ensures items { stored_items self.new ≡ stored_items self.old }
        ensures kept { OnOk result ((n : SlotNo) (q : Key) → slot_key self.old n ≡ Some q → slot_key self.new n ≡ Some q) }
        ensures err { OnErr result (self.new ≡ self.old) }
        ensures one { IfOk result (λ n. (m : SlotNo) → slot_key self.new m ≡ Some key → m ≡ n) }
    {
        let slot = SlotNo {
            index: self.slots.len(),
        };
        self.slots.reserve(1)?;
        self.order.insert(key.copy()?, slot)?;
        let _ = self.slots.insert(key, None);
        Ok(slot)
    }

    /// Whether the store has a slot of this number, as it has of each number that it made. One step.
    pub fn has_slot(&self, slot: SlotNo) -> bool
        ensures { result ≡ is_some (slot_key self.now slot) }
    {
        self.slots.get_index(slot.index).is_some()
    }

    /// The item that stands in a slot, if any. One step, and no memory.
    pub fn look(&self, slot: SlotNo) -> Option<&Item>
        requires { IsSome (slot_key self.now slot) }
        ensures { (key : Key) → slot_key self.now slot ≡ Some key → option_copied result ≡ stored_items self.now key }
    {
        self.slots[slot.index].as_ref()
    }

    /// Puts an item, or none, into a slot, and hands out what stood there. One step, and no memory.
    pub fn swap(&mut self, slot: SlotNo, item: Option<Item>) -> Option<Item>
        requires { IsSome (slot_key self.old slot) }
        ensures old { (key : Key) → slot_key self.old slot ≡ Some key → result ≡ stored_items self.old key }
        ensures items { (key : Key) → slot_key self.old slot ≡ Some key → stored_items self.new ≡ with_item (stored_items self.old) key item }
        ensures slots { slot_keys self.new ≡ slot_keys self.old }
        ensures table { self.new.table ≡ self.old.table }
        ensures schema { self.new.schema ≡ self.old.schema }
    {
        mem::replace(&mut self.slots[slot.index], item)
    }

    /// The items in the order of their keys, lent. Takes no memory; each item takes a step, and so does each slot in which
    /// none stands.
    pub fn items(&self) -> Items<'_>
        ensures items { IsListing (stored_items self.now) (items_left result) }
        ensures fits { length (items_left result) < 2 ^ 63 }
    {
        Items::new(self.order.iter(), &self.slots)
    }
}
