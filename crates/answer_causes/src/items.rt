// Items: who accessed each, and who wrote it last.
use answer_parts::books::{BookCalls, StepRecord};
use answer_parts::graph::record_at;
use answer_parts::{
    Asked, Object, Page, Rows, access_word, before_access, item_now, item_value, key_value,
    step_value,
};
use attr_values::{Item, Key, KeySchema, key_of};
use item_store::AccessMode;
use json_tree::Json;
use std::alloc::AllocError;
use std::cmp::Ordering;
use step_names::StepName;

/// The steps that accessed a key, in order, with the item before and after each, and the item now; nothing if there is no such item
/// and no step accessed it. Takes time in the number of the accesses, and without any in that of the items.
pub fn item_of<B: BookCalls>(
    asked: &Asked<'_, B>,
    key: &Key,
    page: &Page<StepName>,
) -> Result<Option<Json>, AllocError> {
    let accesses = asked.book.history().accesses(asked.alloc, key)?;
    let answer = item_with(asked, key, page, accesses.as_slice());
    drop(accesses);
    answer
}

fn item_with<B: BookCalls>(
    asked: &Asked<'_, B>,
    key: &Key,
    page: &Page<StepName>,
    accesses: &[usize],
) -> Result<Option<Json>, AllocError> {
    let now = current(asked, key, accesses);
    if now.is_none() && accesses.is_empty() {
        return Ok(None);
    }
    let mut rows = Rows::new(asked.alloc);
    let more = push_accesses(asked, page, accesses, now, &mut rows);
    let mut answer = asked.answer();
    answer.put("key", key_value(asked, key));
    answer.put_list("accesses", rows);
    answer.put_whether("more", more);
    answer.put("now", item_value(now));
    Ok(Some(answer.done()?))
}

/// The accesses of a page, and whether more follow.
fn push_accesses<B: BookCalls>(
    asked: &Asked<'_, B>,
    page: &Page<StepName>,
    accesses: &[usize],
    now: Option<&Item>,
    rows: &mut Rows,
) -> Result<bool, AllocError> {
    let mut afters = afters_of(asked, accesses, now)?;
    let more = push_with(asked, page, accesses, &mut afters, rows);
    drop(afters);
    Ok(more)
}

fn push_with<B: BookCalls>(
    asked: &Asked<'_, B>,
    page: &Page<StepName>,
    accesses: &[usize],
    afters: &mut Vec<Option<&Item>>,
    rows: &mut Rows,
) -> bool {
    let first = first_behind(asked, page);
    for place in accesses {
        let after = afters.pop().flatten();
        let Some(kept) = record_at(asked.book.history(), *place) else {
            continue;
        };
        if *place < first {
            continue;
        }
        if page.is_full(rows.len()) {
            return true;
        }
        rows.push(access_row(asked, kept, after));
    }
    false
}

/// The item after each access of a key, the last access first: what the next write replaced, or the item now.
fn afters_of<'a, B: BookCalls>(
    asked: &Asked<'a, B>,
    accesses: &[usize],
    now: Option<&'a Item>,
) -> Result<Vec<Option<&'a Item>>, AllocError> {
    let records = asked.book.history();
    let mut after = now;
    let mut found = Vec::new(asked.alloc);
    for place in accesses.iter().rev() {
        found.push(after)?;
        if let Some(kept) = record_at(records, *place) {
            after = before_access(kept, after);
        }
    }
    Ok(found)
}

/// A step that accessed a key, and the item before and after it.
fn access_row<B: BookCalls>(
    asked: &Asked<'_, B>,
    kept: &StepRecord,
    after: Option<&Item>,
) -> Result<Json, AllocError> {
    let mut row = Object::new(asked.alloc);
    row.put_step("step", &kept.fact.name);
    if let Some(access) = &kept.fact.access {
        row.put_text("access", access_word(asked, kept, access));
    }
    row.put("before", item_value(before_access(kept, after)));
    row.put("after", item_value(after));
    row.done()
}

/// The first place behind the step after which the rows of a page begin.
fn first_behind<B: BookCalls>(asked: &Asked<'_, B>, page: &Page<StepName>) -> usize {
    match &page.after {
        Some(after) => match asked.book.history().find(after) {
            Some(place) => place.saturating_add(1),
            None => 0,
        },
        None => 0,
    }
}

/// The item of a key now. If no remaining step accessed it, the items are gone through.
fn current<'a, B: BookCalls>(
    asked: &Asked<'a, B>,
    key: &Key,
    accesses: &[usize],
) -> Option<&'a Item> {
    if let Some(place) = accesses.first() {
        return item_now(asked, record_at(asked.book.history(), *place)?);
    }
    let (begin, _) = asked.book.entries();
    for item in asked.book.items() {
        if has_key(&begin.schema, item, key) {
            return Some(item);
        }
    }
    None
}

fn has_key(schema: &KeySchema, item: &Item, key: &Key) -> bool {
    match key_of(schema, item) {
        Ok(own) => own == *key,
        Err(_) => false,
    }
}

/// The item of a key now.
pub(crate) fn current_item<'a, B: BookCalls>(
    asked: &Asked<'a, B>,
    key: &Key,
) -> Result<Option<&'a Item>, AllocError> {
    let accesses = asked.book.history().accesses(asked.alloc, key)?;
    let item = current(asked, key, accesses.as_slice());
    drop(accesses);
    Ok(item)
}

/// The items in the order of their keys, each with the step that wrote it last, if that remains. Takes time in the number of
/// the items, and for each that is told in that of its accesses.
pub fn items_of<B: BookCalls>(asked: &Asked<'_, B>, page: &Page<Key>) -> Result<Json, AllocError> {
    let mut rows = Rows::new(asked.alloc);
    let more = push_items(asked, page, &mut rows);
    let mut answer = asked.answer();
    answer.put_whether("more", Ok(more));
    answer.put_list("items", rows);
    answer.done()
}

/// The items of a page, and whether more follow.
fn push_items<B: BookCalls>(asked: &Asked<'_, B>, page: &Page<Key>, rows: &mut Rows) -> bool {
    let (begin, _) = asked.book.entries();
    for item in asked.book.items() {
        let Ok(key) = key_of(&begin.schema, item) else {
            continue;
        };
        if is_left_out(asked, page, rows, item, key) {
            return true;
        }
    }
    false
}

/// Adds an item, if it is in the page. Whether the page is full before it.
fn is_left_out<B: BookCalls>(
    asked: &Asked<'_, B>,
    page: &Page<Key>,
    rows: &mut Rows,
    item: &Item,
    key: Key,
) -> bool {
    let mut is_left_out = false;
    if !is_up_to(&key, &page.after) {
        if page.is_full(rows.len()) {
            is_left_out = true;
        } else {
            rows.push(item_row(asked, item, &key));
        }
    }
    drop(key);
    is_left_out
}

fn item_row<B: BookCalls>(
    asked: &Asked<'_, B>,
    item: &Item,
    key: &Key,
) -> Result<Json, AllocError> {
    let mut row = Object::new(asked.alloc);
    row.put("key", key_value(asked, key));
    row.put("item", item_value(Some(item)));
    row.put("writer", writer_of(asked, key));
    row.done()
}

/// Whether a key comes before another, or is that one.
fn is_up_to(key: &Key, after: &Option<Key>) -> bool {
    match after {
        Some(after) => !matches!(key.cmp(after), Ordering::Greater),
        None => false,
    }
}

/// The step that wrote a key last; `null` if it was settled, or if the table began with the item.
fn writer_of<B: BookCalls>(asked: &Asked<'_, B>, key: &Key) -> Result<Json, AllocError> {
    let accesses = asked.book.history().accesses(asked.alloc, key)?;
    let writer = last_writer(asked, accesses.as_slice());
    drop(accesses);
    writer
}

fn last_writer<B: BookCalls>(asked: &Asked<'_, B>, accesses: &[usize]) -> Result<Json, AllocError> {
    for place in accesses.iter().rev() {
        let Some(kept) = record_at(asked.book.history(), *place) else {
            continue;
        };
        if let Some(access) = &kept.fact.access {
            if matches!(access.mode, AccessMode::Write) {
                return step_value(asked.alloc, &kept.fact.name);
            }
        }
    }
    Ok(Json::Null)
}
