//! Changes of a JSON value that another owner has too.
use crate::fault::RowFault;
use crate::json::{put, value_of};
use crate::parts::{PART_END, cut, put_number, put_yes};
use json_tree::{ChangeFault, Json, JsonFields, JsonList, Text, depth};
use std::alloc::Global;

/// `change J STEP..`: what each step answers, then the changed value and its depth, and then the value that another owner kept.
pub(crate) fn put_changed(alloc: Global, out: &mut String, rest: &str) -> Result<(), RowFault> {
    let (text, steps) = cut(rest);
    let kept = value_of(alloc, text)?;
    put_steps(alloc, out, &kept, steps)?;
    out.push_str(" beside ")?;
    put(alloc, out, &kept)
}

fn put_steps(alloc: Global, out: &mut String, kept: &Json, steps: &str) -> Result<(), RowFault> {
    let mut changed = kept.copy()?;
    put_all(alloc, out, &mut changed, steps)?;
    put(alloc, out, &changed)?;
    out.push(' ')?;
    put_number(out, depth(&changed) as usize)
}

fn put_all(
    alloc: Global,
    out: &mut String,
    changed: &mut Json,
    steps: &str,
) -> Result<(), RowFault> {
    for step in steps.split(PART_END) {
        put_step(alloc, out, changed, step)?;
        out.push(' ')?;
    }
    Ok(())
}

/// A step of the value, or of its field `NAME` where it begins with `in NAME`.
fn put_step(
    alloc: Global,
    out: &mut String,
    changed: &mut Json,
    step: &str,
) -> Result<(), RowFault> {
    match step.strip_prefix("in ") {
        Some(rest) => {
            let (name, step) = word(rest);
            match changed {
                Json::Fields(fields) => match fields.get_mut(name) {
                    Ok(inner) => put_change(alloc, out, inner, step),
                    Err(fault) => put_fault(out, fault),
                },
                _ => Err(RowFault::Said("no row")),
            }
        }
        None => put_change(alloc, out, changed, step),
    }
}

/// The first word and the rest.
fn word(text: &str) -> (&str, &str) {
    match text.split_once(' ') {
        Some((word, rest)) => (word, rest),
        None => (text, ""),
    }
}

fn put_change(
    alloc: Global,
    out: &mut String,
    changed: &mut Json,
    step: &str,
) -> Result<(), RowFault> {
    let (name, rest) = word(step);
    match changed {
        Json::List(list) => put_list_change(alloc, out, list, name, rest),
        Json::Fields(fields) => put_fields_change(alloc, out, fields, name, rest),
        _ => Err(RowFault::Said("no row")),
    }
}

fn put_fault(out: &mut String, fault: ChangeFault) -> Result<(), RowFault> {
    match fault {
        ChangeFault::Absent => {
            out.push_str("absent")?;
            Ok(())
        }
        ChangeFault::Memory => Err(RowFault::Memory),
    }
}

fn put_list_change(
    alloc: Global,
    out: &mut String,
    list: &mut JsonList,
    name: &str,
    rest: &str,
) -> Result<(), RowFault> {
    match name {
        "push" => {
            list.push(value_of(alloc, rest)?)?;
            put_number(out, list.len())
        }
        "set" => {
            let (index, text) = word(rest);
            set_item(alloc, out, list, index, text)
        }
        "replace" => replace_item(alloc, out, list, rest),
        "get" => put_item(alloc, out, list, rest),
        "again" => put_again(out, list),
        _ => Err(RowFault::Said("no row")),
    }
}

fn index_in(text: &str) -> Result<usize, RowFault> {
    match text.parse::<usize>() {
        Ok(index) => Ok(index),
        Err(_) => Err(RowFault::Said("no row")),
    }
}

fn set_item(
    alloc: Global,
    out: &mut String,
    list: &mut JsonList,
    index: &str,
    text: &str,
) -> Result<(), RowFault> {
    let index = index_in(index)?;
    let value = value_of(alloc, text)?;
    match list.get_mut(index) {
        Ok(item) => {
            *item = value;
            out.push_str("set")?;
            Ok(())
        }
        Err(fault) => {
            drop(value);
            put_fault(out, fault)
        }
    }
}

/// What stood at an index, in whose place the value comes.
fn replace_item(
    alloc: Global,
    out: &mut String,
    list: &mut JsonList,
    rest: &str,
) -> Result<(), RowFault> {
    let (index, text) = word(rest);
    let index = index_in(index)?;
    let value = value_of(alloc, text)?;
    if index >= list.len() {
        drop(value);
        return put_fault(out, ChangeFault::Absent);
    }
    let replaced = list.replace(index, value)?;
    put(alloc, out, &replaced)
}

fn put_item(alloc: Global, out: &mut String, list: &JsonList, index: &str) -> Result<(), RowFault> {
    match list.get(index_in(index)?) {
        Some(item) => put(alloc, out, item),
        None => put_fault(out, ChangeFault::Absent),
    }
}

/// A list that is made of the list's items, and whether it is empty.
fn put_again(out: &mut String, list: &JsonList) -> Result<(), RowFault> {
    let items = list.copy()?.into_vec()?;
    let again = JsonList::from_vec(items)?;
    let is_one = again.as_slice() == list.as_slice();
    drop(again);
    put_yes(out, is_one && list.is_empty() == list.as_slice().is_empty())
}

fn put_fields_change(
    alloc: Global,
    out: &mut String,
    fields: &mut JsonFields,
    name: &str,
    rest: &str,
) -> Result<(), RowFault> {
    match name {
        "insert" => {
            let (name, text) = word(rest);
            insert(alloc, out, fields, name, text)
        }
        "set" => {
            let (name, text) = word(rest);
            set_field(alloc, out, fields, name, text)
        }
        "remove" => put_old(alloc, out, fields.remove(rest)?),
        "get" => put_field(alloc, out, fields, rest),
        "each" => put_yes(out, finds_each(fields)),
        _ => Err(RowFault::Said("no row")),
    }
}

/// The value that stood there, if any.
fn put_old(alloc: Global, out: &mut String, old: Option<Json>) -> Result<(), RowFault> {
    match old {
        Some(old) => put(alloc, out, &old),
        None => put_fault(out, ChangeFault::Absent),
    }
}

fn insert(
    alloc: Global,
    out: &mut String,
    fields: &mut JsonFields,
    name: &str,
    text: &str,
) -> Result<(), RowFault> {
    let value = value_of(alloc, text)?;
    let Ok(name) = Text::new(alloc, name) else {
        drop(value);
        return Err(RowFault::Memory);
    };
    let old = fields.insert(name, value)?;
    put_old(alloc, out, old)
}

fn set_field(
    alloc: Global,
    out: &mut String,
    fields: &mut JsonFields,
    name: &str,
    text: &str,
) -> Result<(), RowFault> {
    let value = value_of(alloc, text)?;
    match fields.get_mut(name) {
        Ok(field) => {
            *field = value;
            out.push_str("set")?;
            Ok(())
        }
        Err(fault) => {
            drop(value);
            put_fault(out, fault)
        }
    }
}

fn put_field(
    alloc: Global,
    out: &mut String,
    fields: &JsonFields,
    name: &str,
) -> Result<(), RowFault> {
    match fields.get(name) {
        Some(value) => put(alloc, out, value),
        None => put_fault(out, ChangeFault::Absent),
    }
}

/// Each field is looked up by its name, and there are as many as there are.
fn finds_each(fields: &JsonFields) -> bool {
    for field in fields.as_slice() {
        if fields.get(field.name.as_str()) != Some(&field.value) {
            return false;
        }
    }
    fields.len() == fields.as_slice().len() && fields.is_empty() == fields.as_slice().is_empty()
}
