//! How values of one kind are ordered.
use crate::fault::RowFault;
use crate::json::value_of;
use crate::keys::{self, key_in};
use crate::parts::{PART_END, cut, ensure, put_number};
use attr_values::{Item, Key, Number, Value, read_item, read_value};
use json_tree::{Json, Text};
use std::alloc::{AllocError, Global};
use step_names::{StepName, ThreadName};

pub(crate) fn answer(
    alloc: Global,
    out: &mut String,
    word: &str,
    rest: &str,
) -> Result<(), RowFault> {
    match word {
        "order" => put_order(alloc, out, rest),
        _ => keys::answer(alloc, out, word, rest),
    }
}

/// A kind of value, read of a text.
trait Spelled: Ord + Drop {
    fn read(alloc: Global, text: &str) -> Result<Self, RowFault>;
}

impl Spelled for Json {
    fn read(alloc: Global, text: &str) -> Result<Json, RowFault> {
        value_of(alloc, text)
    }
}

impl Spelled for Text {
    fn read(alloc: Global, text: &str) -> Result<Text, RowFault> {
        Ok(Text::new(alloc, text)?)
    }
}

impl Spelled for ThreadName {
    fn read(alloc: Global, text: &str) -> Result<ThreadName, RowFault> {
        Ok(ThreadName::read(alloc, text)?)
    }
}

impl Spelled for StepName {
    fn read(alloc: Global, text: &str) -> Result<StepName, RowFault> {
        Ok(StepName::read(alloc, text)?)
    }
}

impl Spelled for Number {
    fn read(_alloc: Global, text: &str) -> Result<Number, RowFault> {
        Ok(Number::read(text)?)
    }
}

impl Spelled for Value {
    fn read(alloc: Global, text: &str) -> Result<Value, RowFault> {
        let json = value_of(alloc, text)?;
        Ok(read_value(alloc, &json)?)
    }
}

impl Spelled for Item {
    fn read(alloc: Global, text: &str) -> Result<Item, RowFault> {
        let json = value_of(alloc, text)?;
        Ok(read_item(alloc, &json)?)
    }
}

impl Spelled for Key {
    fn read(alloc: Global, text: &str) -> Result<Key, RowFault> {
        key_in(alloc, text)
    }
}

/// `order KIND TEXT..`: for each of the values how many of them are less. All comparisons of any two of them agree.
fn put_order(alloc: Global, out: &mut String, rest: &str) -> Result<(), RowFault> {
    let (kind, texts) = cut(rest);
    match kind {
        "json" => put_order_of::<Json>(alloc, out, texts),
        "text" => put_order_of::<Text>(alloc, out, texts),
        "thread" => put_order_of::<ThreadName>(alloc, out, texts),
        "step" => put_order_of::<StepName>(alloc, out, texts),
        "number" => put_order_of::<Number>(alloc, out, texts),
        "value" => put_order_of::<Value>(alloc, out, texts),
        "item" => put_order_of::<Item>(alloc, out, texts),
        "key" => put_order_of::<Key>(alloc, out, texts),
        _ => Err(RowFault::Said("no row")),
    }
}

fn put_order_of<T: Spelled>(alloc: Global, out: &mut String, texts: &str) -> Result<(), RowFault> {
    let mut values = Vec::new(alloc);
    read_all::<T>(alloc, &mut values, texts)?;
    put_ranks(alloc, out, values.as_slice())
}

fn read_all<T: Spelled>(alloc: Global, values: &mut Vec<T>, texts: &str) -> Result<(), RowFault> {
    for text in texts.split(PART_END) {
        values.push(T::read(alloc, text)?)?;
    }
    Ok(())
}

fn put_ranks<T: Ord>(alloc: Global, out: &mut String, values: &[T]) -> Result<(), RowFault> {
    let ranks = ranks(alloc, values)?;
    ensure(all_agree(values, ranks.as_slice()), "no order")?;
    for (i, rank) in ranks.iter().enumerate() {
        if i > 0 {
            out.push(' ')?;
        }
        put_number(out, *rank)?;
    }
    Ok(())
}

fn ranks<T: Ord>(alloc: Global, values: &[T]) -> Result<Vec<usize>, AllocError> {
    let mut ranks = Vec::new(alloc);
    for value in values {
        ranks.push(rank(values, value))?;
    }
    Ok(ranks)
}

/// How many values are less.
fn rank<T: Ord>(values: &[T], value: &T) -> usize {
    let mut count = 0usize;
    for other in values {
        if other < value {
            count = count.saturating_add(1);
        }
    }
    count
}

/// Whether any two values are compared as their ranks are.
fn all_agree<T: Ord>(values: &[T], ranks: &[usize]) -> bool {
    for (value, rank) in values.iter().zip(ranks) {
        if !agrees(values, ranks, value, *rank) {
            return false;
        }
    }
    true
}

fn agrees<T: Ord>(values: &[T], ranks: &[usize], value: &T, rank: usize) -> bool {
    for (other, other_rank) in values.iter().zip(ranks) {
        let order = rank.cmp(other_rank);
        let is_so = value.cmp(other) == order
            && value.partial_cmp(other) == Some(order)
            && (value == other) == order.is_eq();
        if !is_so {
            return false;
        }
    }
    true
}
