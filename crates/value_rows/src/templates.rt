//! Templates, which are filled with what paths pick.
use crate::fault::RowFault;
use crate::json::{put, value_of};
use crate::order;
use crate::parts::{cut, number_in};
use json_tree::Json;
use ref_paths::{
    Template, TemplateFault, fields_are_filled, unmarked_stays, values_are_one_template,
};
use std::alloc::Global;

pub(crate) fn answer(
    alloc: Global,
    out: &mut String,
    word: &str,
    rest: &str,
) -> Result<(), RowFault> {
    match word {
        "template" => put_template(alloc, out, rest, false),
        "item_template" => put_template(alloc, out, rest, true),
        "fill" => put_filled(alloc, out, rest, false),
        "item_fill" => put_filled(alloc, out, rest, true),
        _ => order::answer(alloc, out, word, rest),
    }
}

fn template(alloc: Global, text: &str, item_paths: bool) -> Result<Template, TemplateFault> {
    match value_of(alloc, text) {
        Ok(json) => {
            let read = Template::read(alloc, &json, item_paths);
            drop(json);
            read
        }
        Err(_) => Err(TemplateFault::Memory),
    }
}

/// `template J` and, where paths into an item may stand, `item_template J`: whether it is one, and else at which field the fault is, or what
/// is left out of templates.
fn put_template(
    alloc: Global,
    out: &mut String,
    text: &str,
    item_paths: bool,
) -> Result<(), RowFault> {
    match template(alloc, text, item_paths) {
        Ok(template) => {
            drop(template);
            out.push_str("yes")?;
            Ok(())
        }
        Err(fault) => put_fault(out, &fault),
    }
}

fn put_fault(out: &mut String, fault: &TemplateFault) -> Result<(), RowFault> {
    let (said, name) = match fault {
        TemplateFault::BadTemplate(name) => ("bad ", name),
        TemplateFault::Unsupported(name) => ("unsupported ", name),
        TemplateFault::Memory => return Err(RowFault::Memory),
    };
    out.push_str(said)?;
    out.push_str(name.as_str())?;
    Ok(())
}

/// `fill J INPUT` and `item_fill J INPUT`, with an item `item_fill J INPUT INDEX ITEM`
fn put_filled(
    alloc: Global,
    out: &mut String,
    rest: &str,
    item_paths: bool,
) -> Result<(), RowFault> {
    let (text, rest) = cut(rest);
    match template(alloc, text, item_paths) {
        Ok(template) => put_filled_by(alloc, out, &template, rest),
        Err(fault) => put_fault(out, &fault),
    }
}

fn put_filled_by(
    alloc: Global,
    out: &mut String,
    template: &Template,
    rest: &str,
) -> Result<(), RowFault> {
    let (input, rest) = cut(rest);
    let input = value_of(alloc, input)?;
    let (index, item) = cut(rest);
    if index.is_empty() {
        put_filled_with(alloc, out, template, &input, None)
    } else {
        put_filled_of(alloc, out, template, &input, index, item)
    }
}

fn put_filled_of(
    alloc: Global,
    out: &mut String,
    template: &Template,
    input: &Json,
    index: &str,
    item: &str,
) -> Result<(), RowFault> {
    let index = number_in(index)?;
    let item = value_of(alloc, item)?;
    put_filled_with(alloc, out, template, input, Some((index, &item)))
}

fn put_filled_with(
    alloc: Global,
    out: &mut String,
    template: &Template,
    input: &Json,
    item: Option<(u32, &Json)>,
) -> Result<(), RowFault> {
    let filled = template.fill(alloc, input, item)?;
    put(alloc, out, &filled)
}

pub(crate) fn state_laws() {
    fields_are_filled();
    unmarked_stays();
    values_are_one_template();
}
