//! What a template gives.

ghost use Rattle.std.specs.Prelude.{◌≡◌, ◌↔◌, [], None, Some, Err, IsTrue, is_some, option_map, IfOk};
ghost use Rattle.json_tree.specs.Data.{Data, has_room};
ghost use Rattle.json_tree.specs.View.{data_of};
ghost use Rattle.ref_paths.specs.Filling.{filled, filled_items, filled_fields, fields_with, item_lent};
ghost use Rattle.ref_paths.specs.PayloadView.{payload_of};
ghost use Rattle.ref_paths.specs.Templates.{payloads_of, named_of};

use crate::template::{Node, NodeFields, NodeList, Template};
use json_tree::{Json, JsonFields, JsonList};
use std::alloc::{AllocError, AllocFailed, Global};
use thiserror::Error;

/// Why a template was not filled.
#[derive(Clone, Copy, Debug, Drop, PartialEq, Eq, Error)]
pub enum FillFault {
    /// Some path picks nothing.
    #[error("a path of the template picks nothing")]
    NoSuchNode,
    /// An allocation was refused.
    #[error("out of memory")]
    Memory,
}

impl From<AllocError> for FillFault {
    ghost use Rattle.std.specs.Prelude.{◌≡◌};
    ghost use Rattle.ref_paths.specs.declared.filling.FillFault.TheVariants.{Memory};

    ghost from_gives = { λ _ e. e ≡ Memory };

    fn from(_refused: AllocError) -> FillFault {
        FillFault::Memory
    }
}

impl<T: Drop> From<AllocFailed<T>> for FillFault {
    ghost use Rattle.std.specs.Prelude.{◌≡◌};
    ghost use Rattle.ref_paths.specs.declared.filling.FillFault.TheVariants.{Memory};

    ghost from_gives = { λ _ e. e ≡ Memory };

    fn from(_refused: AllocFailed<T>) -> FillFault {
        FillFault::from(AllocError)
    }
}

impl Template {
    /// The template's value, with a copy of what each path picks in its place: of the input, or of the item, whose index
    /// from 0 comes first. Without an item a path into it picks nothing, and there is no index. Parses nothing, and makes
    /// one copy of what each path picks, after all of them were seen to pick something. Calls itself once for each level
    /// of the template.
    pub fn fill(
        &self,
        alloc: Global,
        input: &Json,
        item: Option<(u32, &Json)>,
    ) -> Result<Json, FillFault>
        ensures ok { IfOk result (λ j. filled (data_of input.now) (item_lent item.entry) self.now ≡ Some (data_of j)) }
        ensures no_such_node { (result ≡ Err FillFault.NoSuchNode) ↔ (filled (data_of input.now) (item_lent item.entry) self.now ≡ None) }
        ensures memory { result ≡ Err FillFault.Memory → (d : Data) → filled (data_of input.now) (item_lent item.entry) self.now ≡ Some d → IsTrue (has_room d) }
    {
        if !can_fill(&self.root, input, item) {
            return Err(FillFault::NoSuchNode);
        }
        fill_node(alloc, &self.root, input, item)
    }
}

/// Whether every path picks something.
#[cycle(can_fill)]
fn can_fill(node: &Node, input: &Json, item: Option<(u32, &Json)>) -> bool
    ensures { result ≡ is_some (filled (data_of input.now) (item_lent item.entry) (payload_of node.now)) }
{
    match node {
        Node::Literal(_) => true,
        Node::Input(path) => path.pick(input).is_some(),
        Node::ItemIndex => item.is_some(),
        Node::Item(path) => match item {
            Some((_, value)) => path.pick(value).is_some(),
            None => false,
        },
        Node::List(nodes) => can_fill_list(nodes, input, item),
        Node::Fields(fields) => can_fill_fields(fields, input, item),
    }
}

#[cycle(can_fill)]
fn can_fill_list(nodes: &NodeList, input: &Json, item: Option<(u32, &Json)>) -> bool
    ensures { result ≡ is_some (filled_items (data_of input.now) (item_lent item.entry) (payloads_of nodes.now)) }
{
    for node in &nodes.inner {
        if !can_fill(node, input, item) {
            return false;
        }
    }
    true
}

#[cycle(can_fill)]
fn can_fill_fields(nodes: &NodeFields, input: &Json, item: Option<(u32, &Json)>) -> bool
    ensures { result ≡ is_some (filled_fields (data_of input.now) (item_lent item.entry) (named_of nodes.now)) }
{
    for field in &nodes.inner {
        if !can_fill(&field.value, input, item) {
            return false;
        }
    }
    true
}

#[cycle(fill)]
fn fill_node(
    alloc: Global,
    node: &Node,
    input: &Json,
    item: Option<(u32, &Json)>,
) -> Result<Json, FillFault>
    ensures ok { IfOk result (λ j. filled (data_of input.now) (item_lent item.entry) (payload_of node.now) ≡ Some (data_of j)) }
    ensures no_such_node { result ≡ Err FillFault.NoSuchNode → filled (data_of input.now) (item_lent item.entry) (payload_of node.now) ≡ None }
    ensures memory { result ≡ Err FillFault.Memory → (d : Data) → filled (data_of input.now) (item_lent item.entry) (payload_of node.now) ≡ Some d → IsTrue (has_room d) }
{
    match node {
        Node::Literal(json) => Ok(json.copy()?),
        Node::Input(path) => copy_picked(path.pick(input)),
        Node::ItemIndex => match item {
            Some((index, _)) => Ok(Json::Whole(i64::from(index))),
            None => Err(FillFault::NoSuchNode),
        },
        Node::Item(path) => match item {
            Some((_, value)) => copy_picked(path.pick(value)),
            None => Err(FillFault::NoSuchNode),
        },
        Node::List(nodes) => Ok(Json::List(fill_list(alloc, nodes, input, item)?)),
        Node::Fields(fields) => Ok(Json::Fields(fill_fields(alloc, fields, input, item)?)),
    }
}

fn copy_picked(picked: Option<&Json>) -> Result<Json, FillFault>
    ensures ok { IfOk result (λ j. option_map (λ p. data_of p.now) picked.entry ≡ Some (data_of j)) }
    ensures no_such_node { result ≡ Err FillFault.NoSuchNode → option_map (λ p. data_of p.now) picked.entry ≡ None }
    ensures memory { result ≡ Err FillFault.Memory → (d : Data) → option_map (λ p. data_of p.now) picked.entry ≡ Some d → IsTrue (has_room d) }
{
    match picked {
        Some(json) => Ok(json.copy()?),
        None => Err(FillFault::NoSuchNode),
    }
}

#[cycle(fill)]
fn fill_list(
    alloc: Global,
    nodes: &NodeList,
    input: &Json,
    item: Option<(u32, &Json)>,
) -> Result<JsonList, FillFault>
    ensures ok { IfOk result (λ l. filled_items (data_of input.now) (item_lent item.entry) (payloads_of nodes.now) ≡ Some l) }
    ensures no_such_node { result ≡ Err FillFault.NoSuchNode → filled_items (data_of input.now) (item_lent item.entry) (payloads_of nodes.now) ≡ None }
{
    let mut items = Vec::with_capacity(alloc, nodes.inner.len())?;
    for node in &nodes.inner {
        items.push(fill_node(alloc, node, input, item)?)?;
    }
    Ok(JsonList::from_vec(items)?)
}

#[cycle(fill)]
fn fill_fields(
    alloc: Global,
    nodes: &NodeFields,
    input: &Json,
    item: Option<(u32, &Json)>,
) -> Result<JsonFields, FillFault>
    ensures ok { IfOk result (λ ms. option_map (fields_with []) (filled_fields (data_of input.now) (item_lent item.entry) (named_of nodes.now)) ≡ Some ms) }
    ensures no_such_node { result ≡ Err FillFault.NoSuchNode → filled_fields (data_of input.now) (item_lent item.entry) (named_of nodes.now) ≡ None }
{
    let mut fields = JsonFields::new(alloc);
    for field in &nodes.inner {
        let value = fill_node(alloc, &field.value, input, item)?;
        drop(fields.insert(field.name.copy()?, value)?);
    }
    Ok(fields)
}
