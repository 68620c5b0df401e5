// How deep a value nests.
ghost use Rattle.std.specs.Prelude.{◌≡◌, ◌^◌, ◌-◌, min};
ghost use Rattle.json_tree.specs.Data.{depth as nesting, list_depth, fields_depth};
ghost use Rattle.json_tree.specs.View.{data_of, list_of, fields_of};

use crate::tree::{Field, Json, JsonFields, JsonList};

/// How deep lists and fields nest: 0 for what is neither, and 4,294,967,295 for that depth and every greater one. Takes no
/// memory. It is told at once, except of a list or an object of which `get_mut` lent a value: each value of that one is
/// asked for its depth.
#[cycle(depth)]
pub fn depth(json: &Json) -> u32
    ensures { result ≡ min (nesting (data_of json.now)) (2 ^ 32 - 1) }
{
    match json {
        Json::Null | Json::Bool(_) | Json::Whole(_) | Json::Text(_) => 0,
        Json::List(list) => depth_of_list(list).saturating_add(1),
        Json::Fields(fields) => depth_of_fields(fields).saturating_add(1),
    }
}

#[cycle(depth)]
fn depth_of_list(list: &JsonList) -> u32
    ensures { result ≡ min (list_depth list.now) (2 ^ 32 - 1) }
{
    if let Some(levels) = list.told.levels() {
        return levels;
    }
    let Some(items) = &list.inner else {
        return 0;
    };
    let items: &Vec<Json> = items;
    let mut deepest = 0u32;
    for item in items {
        deepest = deepest.max(depth(item));
    }
    deepest
}

#[cycle(depth)]
fn depth_of_fields(fields: &JsonFields) -> u32
    ensures { result ≡ min (fields_depth fields.now) (2 ^ 32 - 1) }
{
    if let Some(levels) = fields.told.levels() {
        return levels;
    }
    let Some(fields) = &fields.inner else {
        return 0;
    };
    let fields: &Vec<Field> = fields;
    let mut deepest = 0u32;
    for field in fields {
        deepest = deepest.max(depth(&field.value));
    }
    deepest
}

/// How deep the deepest of some values nests.
pub(crate) fn levels_of_items(items: &[Json]) -> u32
    ensures { result ≡ min (list_depth (list_of items.now)) (2 ^ 32 - 1) }
{
    let mut deepest = 0u32;
    for item in items {
        deepest = deepest.max(depth(item));
    }
    deepest
}

/// How deep the deepest value of some fields nests.
pub(crate) fn levels_of_fields(fields: &[Field]) -> u32
    ensures { result ≡ min (fields_depth (fields_of fields.now)) (2 ^ 32 - 1) }
{
    let mut deepest = 0u32;
    for field in fields {
        deepest = deepest.max(depth(&field.value));
    }
    deepest
}
