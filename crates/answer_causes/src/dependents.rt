// Which later steps depend directly on one.
use answer_parts::books::{BookCalls, StepRecords};
use answer_parts::graph::{Reason, reason_at, record_at};
use answer_parts::{Asked, Rows, near_of, reason_row, record_in};
use json_tree::Json;
use std::alloc::AllocError;
use std::collections::BTreeMap;

type Later = BTreeMap<usize, ()>;

/// The later steps that depend directly on the one at a place, as a picture has them: a list of names, each with the reason. Takes time in the
/// number of the later steps of its execution and of the later accesses of its key, and for each of them what [`near_of`] takes.
pub fn dependents_of<B: BookCalls>(asked: &Asked<'_, B>, place: usize) -> Result<Json, AllocError> {
    let mut later = BTreeMap::new(asked.alloc);
    let rows = match add_later(asked, place, &mut later) {
        Ok(()) => dependent_rows(asked, place, &later),
        Err(AllocError) => Err(AllocError),
    };
    drop(later);
    rows
}

fn dependent_rows<B: BookCalls>(
    asked: &Asked<'_, B>,
    place: usize,
    later: &Later,
) -> Result<Json, AllocError> {
    let mut rows = Rows::new(asked.alloc);
    if push_dependents(asked, place, later, &mut rows).is_err() {
        rows.refuse();
    }
    rows.done()
}

fn push_dependents<B: BookCalls>(
    asked: &Asked<'_, B>,
    place: usize,
    later: &Later,
    rows: &mut Rows,
) -> Result<(), AllocError> {
    let records = asked.book.history();
    let behind = first_behind(asked, place, later)?;
    for (other, ()) in later.iter() {
        let (Some(kept), Some(reason)) = (
            record_at(records, *other),
            reason_at(records, place, *other),
        ) else {
            continue;
        };
        if behind == Some(*other) || is_near(asked, place, *other)? {
            rows.push(reason_row(asked.alloc, &kept.fact.name, reason));
        }
    }
    Ok(())
}

/// Whether a place is among the nearest on which the step at a later one depends.
fn is_near<B: BookCalls>(
    asked: &Asked<'_, B>,
    place: usize,
    later: usize,
) -> Result<bool, AllocError> {
    let near = near_of(asked, later)?;
    let is_among = has_place(near.as_slice(), place);
    drop(near);
    Ok(is_among)
}

fn has_place(near: &[(usize, Reason)], place: usize) -> bool {
    for (earlier, _) in near {
        if *earlier == place {
            return true;
        }
    }
    false
}

/// Adds the later steps that may depend on the one at a place: those of its execution, and those that accessed its key.
fn add_later<B: BookCalls>(
    asked: &Asked<'_, B>,
    place: usize,
    later: &mut Later,
) -> Result<(), AllocError> {
    let records = asked.book.history();
    let Some(kept) = record_at(records, place) else {
        return Ok(());
    };
    let exec = kept.fact.name.thread.exec();
    add_behind(later, records.of_execution(asked.alloc, exec), place)?;
    match &kept.fact.access {
        Some(access) => add_behind(later, records.accesses(asked.alloc, &access.key), place),
        None => Ok(()),
    }
}

fn add_behind(
    later: &mut Later,
    places: Result<Vec<usize>, AllocError>,
    place: usize,
) -> Result<(), AllocError> {
    let places = places?;
    let added = add_places(later, places.as_slice(), place);
    drop(places);
    added
}

fn add_places(later: &mut Later, places: &[usize], place: usize) -> Result<(), AllocError> {
    for other in places {
        if *other > place {
            later.insert(*other, ())?;
        }
    }
    Ok(())
}

/// Of a branch's last step, the first move behind the first barrier that stands for the branch: of those that waited for it, the one that waited
/// for the fewest branches.
fn first_behind<B: BookCalls>(
    asked: &Asked<'_, B>,
    place: usize,
    later: &Later,
) -> Result<Option<usize>, AllocError> {
    let records = asked.book.history();
    let Some(kept) = record_at(records, place) else {
        return Ok(None);
    };
    let name = &kept.fact.name;
    if record_in(asked, name.thread.copy()?, name.no.saturating_add(1)).is_some() {
        return Ok(None);
    }
    let depth = name.thread.path().len();
    let mut least: Option<(u32, usize)> = None;
    for (other, ()) in later.iter() {
        if let Some(last) = waited_under(records, place, *other, depth) {
            if !matches!(least, Some((fewest, _)) if fewest <= last) {
                least = Some((last, *other));
            }
        }
    }
    Ok(match least {
        Some((_, first)) => Some(first),
        None => None,
    })
}

/// The last branch for which a first move waited, if it is of the fork of so deep a branch, and waited for the step at a place.
fn waited_under(records: &StepRecords, place: usize, later: usize, depth: usize) -> Option<u32> {
    let kept = record_at(records, later)?;
    let path = kept.fact.name.thread.path();
    if path.len() != depth || !matches!(reason_at(records, place, later), Some(Reason::Bound)) {
        return None;
    }
    let ((_, index), _) = path.split_last()?;
    index.checked_sub(kept.fact.bound)
}
