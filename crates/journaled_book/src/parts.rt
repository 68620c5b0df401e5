// What stands in a line beside its names.
ghost use Rattle.std.specs.Prelude.{◌≡◌, ◌≤◌, List, [], Err, IfOk, IsOk, None, Some};
ghost use Rattle.serde_json.specs.Read as source_text;
ghost use Rattle.serde_json.specs.View.{view};
ghost use Rattle.json_tree.specs.Data.{depth, list, items_of, most_levels};
ghost use Rattle.json_tree.specs.Reading.{read_json};
ghost use Rattle.json_tree.specs.View.{data_of};
ghost use Rattle.json_tree.specs.Data.{Data};
ghost use Rattle.book_log.specs.Beginning.{begun_table};

use crate::fault::LineFault;
use attr_values::ItemFault;
use book_events::BookCalls;
use book_log::Begin;
use json_tree::{Json, JsonFault, JsonList, read};
use serde_json::Value;
use std::alloc::Global;

/// A value whose numbers are whole.
pub(crate) fn read_value(alloc: Global, text: &str) -> Result<Json, LineFault>
    ensures ok { IfOk result (λ json. read_json text.now ≡ Some (data_of json)) }
    ensures shallow { IfOk result (λ json. depth (data_of json) ≤ most_levels) }
    ensures damaged { result ≡ Err LineFault.Damaged → read_json text.now ≡ None }
{
    match read(alloc, text.as_bytes()) {
        Ok(json) => Ok(json),
        Err(JsonFault::NotJson | JsonFault::NotWhole) => Err(LineFault::Damaged),
        Err(JsonFault::Memory) => Err(LineFault::Memory),
    }
}

/// The items with which a table begins.
pub(crate) fn read_items(alloc: Global, text: &str) -> Result<JsonList, LineFault>
    ensures ok { IfOk result (λ items. read_json text.now ≡ Some (list (items_of items))) }
    ensures damaged { result ≡ Err LineFault.Damaged → (ds : List Data) → ¬ (read_json text.now ≡ Some (list (items_of ds))) }
{
    match read_value(alloc, text)? {
        Json::List(items) => Ok(items),
        other => {
            drop(other);
            Err(LineFault::Damaged)
        }
    }
}

/// The JSON of a definition.
pub(crate) fn read_definition(alloc: Global, text: &str) -> Result<Value, LineFault>
    ensures ok { IfOk result (λ value. source_text.read text.now ≡ Some (view value)) }
    ensures damaged { result ≡ Err LineFault.Damaged → source_text.read text.now ≡ None }
{
    match Value::from_str(alloc, text) {
        Ok(value) => Ok(value),
        Err(fault) => if fault.is_memory() {
            Err(LineFault::Memory)
        } else {
            Err(LineFault::Damaged)
        },
    }
}

/// A book without entries.
pub(crate) fn open_book<B: BookCalls>(alloc: Global, begin: Begin) -> Result<B, LineFault>
    ensures ok { IfOk result (λ book. (B.log book ≡ record { begin = begin; entries = [] }) × IsOk (begun_table begin)) }
    ensures damaged { result ≡ Err LineFault.Damaged → ¬ (IsOk (begun_table begin)) }
{
    match B::open(alloc, begin) {
        Ok(book) => Ok(book),
        Err(ItemFault::Memory) => Err(LineFault::Memory),
        Err(_) => Err(LineFault::Damaged),
    }
}
