//! Reading a template from a JSON value.

ghost use Rattle.std.specs.Prelude.{◌≡◌, ◌⊎◌, ◌++◌, true, None, Some, Err, IsTrue, MatchOption, codes, option_map, IfOk, IfErr};
ghost use Rattle.json_tree.specs.Data.{has_room, items_of, members_of};
ghost use Rattle.json_tree.specs.View.{data_of};
ghost use Rattle.ref_paths.specs.PayloadView.{payload_of, payload_field_of};
ghost use Rattle.ref_paths.specs.TemplateFaults.{HasFault, ItemsHaveFault, FieldsHaveFault, FieldHasFault, SourceFaultStands, SpellsNoItemSource, IsItemSource, OnNamed, IsNoTemplate, is_intrinsic_or_context};
ghost use Rattle.ref_paths.specs.Templates.{IsTemplate, ItemsAreTemplates, FieldsAreTemplates, FieldIs, StandsFor, SpellsSource, unmarked};

use crate::path::RefPath;
use crate::reading::{PathFault, read_steps};
use crate::template::{Node, NodeField, NodeFields, NodeList, Template, TemplateFault};
use json_tree::{Json, JsonFields, JsonList, Text};
use std::alloc::Global;

/// Why the text of a marked field stands for nothing.
#[derive(Clone, Copy, Drop)]
pub(crate) enum SourceFault {
    NoSource,
    /// An intrinsic function, or a part of the context object.
    LeftOut,
    Memory,
}

/// What a marked field's text says of the item.
#[derive(Clone, Copy, Drop)]
pub(crate) enum ItemSource<'a> {
    Index,
    /// The steps of a path into the item, not read yet.
    Value(&'a str),
}

impl Template {
    /// Reads a template. In each object at any depth, also in lists, a field whose name ends with `.$` stands for one whose
    /// name is what comes before, and its value is a path's text: `$` and steps into the input, or, with `item_paths`,
    /// `$$.Map.Item.Index` or `$$.Map.Item.Value` and steps into the item. All else stands for itself. Takes memory for
    /// each text, path, list and field, and goes over the value once.
    pub fn read(alloc: Global, json: &Json, item_paths: bool) -> Result<Template, TemplateFault>
        ensures ok { IfOk result (IsTemplate item_paths (data_of json.now)) }
        ensures fault { IfErr result (λ e. OnNamed e (HasFault item_paths (data_of json.now) e)) }
        ensures no_template { IfErr result (λ e. OnNamed e (IsNoTemplate item_paths (data_of json.now))) }
        ensures memory { result ≡ Err TemplateFault.Memory → IsTrue (has_room (data_of json.now)) }
    {
        let root = read_node(alloc, json, item_paths)?;
        Ok(Template { root })
    }
}

#[cycle(read_node)]
fn read_node(alloc: Global, json: &Json, item_paths: bool) -> Result<Node, TemplateFault>
    ensures ok { IfOk result (λ n. IsTemplate item_paths (data_of json.now) (payload_of n)) }
    ensures fault { IfErr result (λ e. OnNamed e (HasFault item_paths (data_of json.now) e)) }
    ensures memory { result ≡ Err TemplateFault.Memory → IsTrue (has_room (data_of json.now)) }
{
    match json {
        Json::Null | Json::Bool(_) | Json::Whole(_) | Json::Text(_) => {
            Ok(Node::Literal(json.copy()?))
        }
        Json::List(list) => Ok(Node::List(read_list(alloc, list, item_paths)?)),
        Json::Fields(fields) => Ok(Node::Fields(read_fields(alloc, fields, item_paths)?)),
    }
}

#[cycle(read_node)]
fn read_list(alloc: Global, list: &JsonList, item_paths: bool) -> Result<NodeList, TemplateFault>
    ensures ok { IfOk result (ItemsAreTemplates item_paths (items_of list.now)) }
    ensures fault { IfErr result (λ e. OnNamed e (ItemsHaveFault item_paths (items_of list.now) e)) }
{
    let mut inner = Vec::with_capacity(alloc, list.len())?;
    for json in list.as_slice() {
        inner.push(read_node(alloc, json, item_paths)?)?;
    }
    Ok(NodeList { inner })
}

#[cycle(read_node)]
fn read_fields(
    alloc: Global,
    fields: &JsonFields,
    item_paths: bool,
) -> Result<NodeFields, TemplateFault>
    ensures ok { IfOk result (FieldsAreTemplates item_paths fields.now (members_of fields.now)) }
    ensures fault { IfErr result (λ e. OnNamed e (FieldsHaveFault item_paths fields.now (members_of fields.now) e)) }
{
    let mut inner = Vec::with_capacity(alloc, fields.len())?;
    for field in fields.as_slice() {
        inner.push(read_field(alloc, fields, field.name.as_str(), &field.value, item_paths)?)?;
    }
    Ok(NodeFields { inner })
}

/// One of the fields.
#[cycle(read_node)]
fn read_field(
    alloc: Global,
    fields: &JsonFields,
    name: &str,
    value: &Json,
    item_paths: bool,
) -> Result<NodeField, TemplateFault>
    ensures ok { IfOk result (λ f. FieldIs item_paths fields.now name.now (data_of value.now) (payload_field_of f) (IsTemplate item_paths (data_of value.now) (payload_of f.value))) }
    ensures fault { IfErr result (λ e. OnNamed e (FieldHasFault item_paths fields.now name.now (data_of value.now) e ⊎ ((unmarked name.now ≡ None) × HasFault item_paths (data_of value.now) e))) }
{
    match cut_mark(name) {
        Some(target) => read_marked(alloc, fields, name, target, value, item_paths),
        None => {
            let value = read_node(alloc, value, item_paths)?;
            let name = Text::new(alloc, name)?;
            Ok(NodeField { name, value })
        }
    }
}

/// What comes before `.$` at a name's end.
fn cut_mark(name: &str) -> Option<&str>
    ensures { option_map (λ t. t.now) result ≡ unmarked name.now }
{
    name.strip_suffix(".$")
}

/// The field that a marked one stands for.
fn read_marked(
    alloc: Global,
    fields: &JsonFields,
    name: &str,
    target: &str,
    value: &Json,
    item_paths: bool,
) -> Result<NodeField, TemplateFault>
    requires { unmarked name.now ≡ Some target.now }
    ensures ok { IfOk result (λ f. StandsFor item_paths fields.now target.now (data_of value.now) (payload_field_of f)) }
    ensures fault { IfErr result (λ e. OnNamed e (FieldHasFault item_paths fields.now name.now (data_of value.now) e)) }
{
    if fields.get(target).is_some() {
        return Err(bad_template(alloc, name));
    }
    let Json::Text(text) = value else {
        return Err(bad_template(alloc, name));
    };
    match read_source(alloc, text.as_str(), item_paths) {
        Ok(value) => {
            let name = Text::new(alloc, target)?;
            Ok(NodeField { name, value })
        }
        Err(SourceFault::NoSource) => Err(bad_template(alloc, name)),
        Err(SourceFault::LeftOut) => Err(unsupported(alloc, name)),
        Err(SourceFault::Memory) => Err(TemplateFault::Memory),
    }
}

fn bad_template(alloc: Global, name: &str) -> TemplateFault
    ensures { (result ≡ TemplateFault.BadTemplate name.now) ⊎ (result ≡ TemplateFault.Memory) }
{
    match Text::new(alloc, name) {
        Ok(name) => TemplateFault::BadTemplate(name),
        Err(_refused) => TemplateFault::Memory,
    }
}

fn unsupported(alloc: Global, name: &str) -> TemplateFault
    ensures { (result ≡ TemplateFault.Unsupported name.now) ⊎ (result ≡ TemplateFault.Memory) }
{
    match Text::new(alloc, name) {
        Ok(name) => TemplateFault::Unsupported(name),
        Err(_refused) => TemplateFault::Memory,
    }
}

/// What the text of a marked field stands for.
fn read_source(alloc: Global, text: &str, item_paths: bool) -> Result<Node, SourceFault>
    ensures ok { IfOk result (λ n. SpellsSource item_paths (payload_of n) text.now) }
    ensures fault { IfErr result (SourceFaultStands item_paths text.now) }
{
    match item_source(text, item_paths) {
        Some(ItemSource::Index) => Ok(Node::ItemIndex),
        Some(ItemSource::Value(steps)) => read_item_steps(alloc, steps),
        None => match RefPath::read(alloc, text) {
            Ok(path) => Ok(Node::Input(path)),
            Err(PathFault::BadPath(_)) if is_left_out(text) => Err(SourceFault::LeftOut),
            Err(PathFault::BadPath(_)) => Err(SourceFault::NoSource),
            Err(PathFault::Memory) => Err(SourceFault::Memory),
        },
    }
}

fn item_source(text: &str, item_paths: bool) -> Option<ItemSource<'_>>
    ensures { MatchOption result (SpellsNoItemSource item_paths text.now) (IsItemSource item_paths text.now) }
{
    if !item_paths {
        return None;
    }
    if text == "$$.Map.Item.Index" {
        return Some(ItemSource::Index);
    }
    match text.strip_prefix("$$.Map.Item.Value") {
        Some(steps) => Some(ItemSource::Value(steps)),
        None => None,
    }
}

fn read_item_steps(alloc: Global, steps: &str) -> Result<Node, SourceFault>
    ensures ok { IfOk result (λ n. SpellsSource true (payload_of n) (codes "$$.Map.Item.Value" ++ steps.now)) }
    ensures fault { IfErr result (SourceFaultStands true (codes "$$.Map.Item.Value" ++ steps.now)) }
{
    match read_steps(alloc, steps) {
        Ok(path) => Ok(Node::Item(path)),
        Err(PathFault::BadPath(_)) => Err(SourceFault::LeftOut),
        Err(PathFault::Memory) => Err(SourceFault::Memory),
    }
}

fn is_left_out(text: &str) -> bool
    ensures { result ≡ is_intrinsic_or_context text.now }
{
    text.starts_with("States.") || text.starts_with("$$")
}
