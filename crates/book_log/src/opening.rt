// The items with which a book begins.
ghost use Rattle.std.specs.Prelude.{◌≡◌, ◌⊎◌, Some, Ok, Err, IfOk, MatchResult};
ghost use Rattle.json_tree.specs.View.{data_of};
ghost use Rattle.attr_values.specs.declared.key.Key.{Key};
ghost use Rattle.item_store.specs.Deciding.{ItemAttributes};
ghost use Rattle.item_store.specs.Store.{stored_items};
ghost use Rattle.item_store.specs.Table.{with_item};
ghost use Rattle.book_log.specs.Beginning.{keyed_item, begun_table};

use crate::begin::Begin;
use attr_values::{Item, ItemFault, Key, KeySchema, key_of, read_item};
use item_store::ItemStore;
use json_tree::Json;
use std::alloc::{AllocError, Global};

/// The items of a beginning, in a store of its table. Takes memory for each item and its key.
pub fn first_store(alloc: Global, begin: &Begin) -> Result<ItemStore, ItemFault>
    ensures items { MatchResult result (λ s. begun_table begin.now ≡ Ok (stored_items s))
        (λ e. (e ≡ ItemFault.Memory) ⊎ (begun_table begin.now ≡ Err e)) }
    ensures table { IfOk result (λ s. s.table ≡ begin.now.table) }
    ensures schema { IfOk result (λ s. s.schema ≡ begin.now.schema) }
{
    let schema = begin.schema.copy()?;
    let mut store = ItemStore::new(alloc, begin.table.copy()?, schema);
    for object in begin.items.as_slice() {
        put(alloc, &mut store, object)?;
    }
    Ok(store)
}

/// Puts the item of an object at its key.
fn put(alloc: Global, store: &mut ItemStore, object: &Json) -> Result<(), ItemFault>
    ensures item { MatchResult result
        (λ _. (e : Key × ItemAttributes) × (keyed_item store.old.schema (data_of object.now) ≡ Ok e) × (stored_items store.new ≡ with_item (stored_items store.old) e.0 (Some e.1)))
        (λ f. (f ≡ ItemFault.Memory) ⊎ (keyed_item store.old.schema (data_of object.now) ≡ Err f)) }
    ensures table { store.new.table ≡ store.old.table }
    ensures schema { store.new.schema ≡ store.old.schema }
{
    let (key, item) = keyed_item(alloc, store.schema(), object)?;
    let slot = store.slot(key)?;
    drop(store.swap(slot, Some(item)));
    Ok(())
}

/// The item of an object, with its key.
fn keyed_item(alloc: Global, schema: &KeySchema, object: &Json) -> Result<(Key, Item), ItemFault>
    ensures { MatchResult result (λ p. keyed_item schema.now (data_of object.now) ≡ Ok p)
        (λ f. (f ≡ ItemFault.Memory) ⊎ (keyed_item schema.now (data_of object.now) ≡ Err f)) }
{
    let item = read_item(alloc, object)?;
    match key_of(schema, &item) {
        Ok(key) => Ok((key, item)),
        Err(fault) => Err(fault),
    }
}
