//! A store of items, and calls that read and write one item. The rows of one run are answered by one store, until another begins.
use crate::attrs::{item_in, put_item};
use crate::fault::RowFault;
use crate::json::{put, value_of};
use crate::keys::schema;
use crate::parts::{cut, put_yes};
use crate::paths;
use attr_values::Item;
use item_store::Action::{DeleteItem, GetItem, PutItem};
use item_store::{
    AccessMode, Action, Answer, Call, Decided, ItemStore, SlotNo, calls_touch_one_item,
    conditions_are_spelled, decide, swaps_are_undone,
};
use json_tree::Text;
use std::alloc::Global;

pub(crate) fn answer(
    alloc: Global,
    out: &mut String,
    store: &mut Option<ItemStore>,
    word: &str,
    rest: &str,
) -> Result<(), RowFault> {
    match word {
        "store" => begin(alloc, out, store, rest),
        "get" | "put" | "delete" | "items" | "slots" | "swap" => match store {
            Some(store) => answer_in(alloc, out, store, word, rest),
            None => Err(RowFault::Said("no row")),
        },
        _ => paths::answer(alloc, out, word, rest),
    }
}

fn answer_in(
    alloc: Global,
    out: &mut String,
    store: &mut ItemStore,
    word: &str,
    rest: &str,
) -> Result<(), RowFault> {
    match word {
        "get" => put_call(alloc, out, store, GetItem, rest),
        "put" => put_call(alloc, out, store, PutItem, rest),
        "delete" => put_call(alloc, out, store, DeleteItem, rest),
        "items" => put_items(alloc, out, store),
        "slots" => put_slots(alloc, out, store, rest),
        _ => put_swapped(alloc, out, store, rest),
    }
}

/// A worker can keep it.
fn sent<T: Send>(value: T) -> T {
    value
}

/// `store TABLE SCHEMA`: begins a store without items.
fn begin(
    alloc: Global,
    out: &mut String,
    store: &mut Option<ItemStore>,
    rest: &str,
) -> Result<(), RowFault> {
    let (table, words) = cut(rest);
    *store = Some(sent(new_store(alloc, table, words)?));
    out.push_str("ok")?;
    Ok(())
}

fn new_store(alloc: Global, table: &str, words: &str) -> Result<ItemStore, RowFault> {
    let schema = schema(alloc, words)?;
    match Text::new(alloc, table) {
        Ok(table) => Ok(ItemStore::new(alloc, table, schema)),
        Err(refused) => {
            drop(schema);
            Err(refused.into())
        }
    }
}

fn call_in(alloc: Global, action: Action, text: &str) -> Result<Call, RowFault> {
    let json = value_of(alloc, text)?;
    let call = Call::read(alloc, action, &json);
    drop(json);
    Ok(sent(call?))
}

/// `get J`, `put J` and `delete J`: how a call touched its item and what it is answered, or the error of one that touched none.
fn put_call(
    alloc: Global,
    out: &mut String,
    store: &mut ItemStore,
    action: Action,
    text: &str,
) -> Result<(), RowFault> {
    let call = call_in(alloc, action, text)?;
    let (slot, decided) = decided_in(alloc, store, call)?;
    let Decided {
        access,
        new,
        answer,
    } = decided;
    let told = put_answer(alloc, out, access, &answer);
    drop(answer);
    if told.is_ok() && access == AccessMode::Write && store.has_slot(slot) {
        drop(store.swap(slot, new));
    } else {
        drop(new);
    }
    told
}

/// What a call comes to, and its slot, in which nothing is changed: the answer is written first, since that may want memory.
fn decided_in(
    alloc: Global,
    store: &mut ItemStore,
    call: Call,
) -> Result<(SlotNo, Decided), RowFault> {
    let slot = match slot_of(store, &call) {
        Ok(slot) => slot,
        Err(fault) => {
            drop(call);
            return Err(fault);
        }
    };
    if !store.has_slot(slot) {
        drop(call);
        return Err(RowFault::Said("no slot"));
    }
    match decide(alloc, call, store.look(slot)) {
        Ok(decided) => Ok((slot, decided)),
        Err(refused) => Err(refused.into()),
    }
}

fn slot_of(store: &mut ItemStore, call: &Call) -> Result<SlotNo, RowFault> {
    let key = store.key(call)?;
    Ok(store.slot(key)?)
}

fn put_answer(
    alloc: Global,
    out: &mut String,
    access: AccessMode,
    answer: &Answer,
) -> Result<(), RowFault> {
    out.push_str(match access {
        AccessMode::Read => "read ",
        AccessMode::Write => "write ",
    })?;
    match answer {
        Answer::Given(json) => put(alloc, out, json),
        Answer::Refused(name) => {
            out.push_str(name.as_str())?;
            Ok(())
        }
    }
}

/// `items`: the items in the order of their keys, with a space between them.
fn put_items(alloc: Global, out: &mut String, store: &ItemStore) -> Result<(), RowFault> {
    for item in store.items() {
        if !out.is_empty() {
            out.push(' ')?;
        }
        put_item(alloc, out, item)?;
    }
    Ok(())
}

/// `slots CALL OTHER`: whether two gets ask one slot, which is asked again by the first.
fn put_slots(
    alloc: Global,
    out: &mut String,
    store: &mut ItemStore,
    rest: &str,
) -> Result<(), RowFault> {
    let (first, second) = cut(rest);
    let slot = slot_in(alloc, store, first)?;
    let other = slot_in(alloc, store, second)?;
    let again = slot_in(alloc, store, first)?;
    put_yes(out, slot == other)?;
    out.push(' ')?;
    put_yes(out, slot == again)
}

fn slot_in(alloc: Global, store: &mut ItemStore, text: &str) -> Result<SlotNo, RowFault> {
    let call = call_in(alloc, GetItem, text)?;
    slot_of(store, &call)
}

/// `swap CALL ITEM`: swaps an item into the slot of a get, and then what that gave: whether an item was there, and is there again.
fn put_swapped(
    alloc: Global,
    out: &mut String,
    store: &mut ItemStore,
    rest: &str,
) -> Result<(), RowFault> {
    let (call, item) = cut(rest);
    let slot = slot_in(alloc, store, call)?;
    let item = item_in(alloc, item)?;
    let (before, after) = swap_twice(store, slot, item);
    put_yes(out, before)?;
    out.push(' ')?;
    put_yes(out, after)
}

fn swap_twice(store: &mut ItemStore, slot: SlotNo, item: Item) -> (bool, bool) {
    if !store.has_slot(slot) {
        drop(item);
        return (false, false);
    }
    let old = store.swap(slot, Some(item));
    let before = old.is_some();
    drop(store.swap(slot, old));
    (before, store.look(slot).is_some())
}

pub(crate) fn state_laws() {
    calls_touch_one_item();
    conditions_are_spelled();
    swaps_are_undone();
}
