// Barriers: each stands for the branches of a Map up to one, for which first moves waited under its bound.
use crate::page::Page;
use crate::picture::Picture;
use book_events::StepRecords;
use std::alloc::{AllocError, Global};
use std::collections::BTreeMap;
use step_graph::{awaited_branch, record_at, thread_above};
use step_names::{StepName, ThreadName};

/// The barriers of each fork: of each the index of its last branch, which ascend.
type Barriers = BTreeMap<StepName, BTreeMap<u32, ()>>;

/// The barriers of a picture, the arrows to them from the last step of each branch and from the barrier before, and those from them to first moves.
/// Takes time in what is shown and, logarithms aside, no more.
pub(crate) fn write_barriers(
    page: &mut Page,
    alloc: Global,
    records: &StepRecords,
    picture: &Picture,
) -> Result<(), AllocError> {
    let firsts = first_moves(alloc, records, picture)?;
    let mut barriers = BTreeMap::new(alloc);
    for first in &firsts {
        add_barrier(alloc, &mut barriers, &first.fork, first.branch)?;
    }
    for (fork, branches) in barriers.iter() {
        write_chain(page, alloc, fork, branches)?;
    }
    for (thread, places) in picture.threads.iter() {
        if let Some(last) = places.last() {
            write_end(page, alloc, records, &barriers, thread, *last)?;
        }
    }
    for first in &firsts {
        write_first_move(page, alloc, records, first)?;
    }
    Ok(())
}

/// A first move that waited: its place, the fork, and the last branch for which it waited.
#[derive(Drop)]
struct FirstMove {
    place: usize,
    fork: StepName,
    branch: u32,
}

/// The first moves whose dependences are shown, and which waited for a branch that is shown.
fn first_moves(
    alloc: Global,
    records: &StepRecords,
    picture: &Picture,
) -> Result<Vec<FirstMove>, AllocError> {
    let mut lowest = BTreeMap::new(alloc);
    let mut found = Vec::new(alloc);
    // an execution's threads come by their paths: lower branches before higher ones
    for (thread, places) in picture.threads.iter() {
        if let Some((fork, branch)) = branch_under(alloc, thread)? {
            if lowest.get(&fork).is_none() {
                lowest.insert(fork, branch)?;
            }
        }
        let Some(first) = places.first() else {
            continue;
        };
        if let Some(waited) = waited_at(alloc, records, picture, *first)? {
            if matches!(lowest.get(&waited.fork), Some(branch) if *branch <= waited.branch) {
                found.push(waited)?;
            }
        }
    }
    Ok(found)
}

/// The step at a place, if it is a first move that waited and its dependences are shown.
fn waited_at(
    alloc: Global,
    records: &StepRecords,
    picture: &Picture,
    place: usize,
) -> Result<Option<FirstMove>, AllocError> {
    let Some(kept) = record_at(records, place) else {
        return Ok(None);
    };
    let Some((_, branch)) = awaited_branch(&kept.fact) else {
        return Ok(None);
    };
    if !picture.is_explained(place) {
        return Ok(None);
    }
    let Some((fork, _)) = branch_under(alloc, &kept.fact.name.thread)? else {
        return Ok(None);
    };
    Ok(Some(FirstMove {
        place,
        fork,
        branch,
    }))
}

/// The fork that made a thread, and which of its branches the thread is; nothing of an execution's own thread.
fn branch_under(alloc: Global, thread: &ThreadName) -> Result<Option<(StepName, u32)>, AllocError> {
    let Some(((fork, branch), above)) = thread.path().split_last() else {
        return Ok(None);
    };
    let fork = StepName {
        thread: thread_above(alloc, thread, above.len())?,
        no: *fork,
    };
    Ok(Some((fork, *branch)))
}

fn add_barrier(
    alloc: Global,
    barriers: &mut Barriers,
    fork: &StepName,
    branch: u32,
) -> Result<(), AllocError> {
    if let Some(branches) = barriers.get_mut(fork) {
        branches.insert(branch, ())?;
        return Ok(());
    }
    let mut branches = BTreeMap::new(alloc);
    branches.insert(branch, ())?;
    barriers.insert(fork.copy()?, branches)?;
    Ok(())
}

// ---- what is written

/// The barriers of one fork, each behind the one before.
fn write_chain(
    page: &mut Page,
    alloc: Global,
    fork: &StepName,
    branches: &BTreeMap<u32, ()>,
) -> Result<(), AllocError> {
    let mut before = None;
    for (branch, ()) in branches.iter() {
        page.word("  ")?;
        write_barrier(page, alloc, fork, *branch)?;
        page.word(" [shape=point, tooltip=\"branches up to ")?;
        page.number(u64::from(*branch))?;
        page.word(" of ")?;
        page.step(alloc, fork)?;
        page.word("\"];\n")?;
        if let Some(before) = before {
            page.word("  ")?;
            write_barrier(page, alloc, fork, before)?;
            page.word(" -> ")?;
            write_barrier(page, alloc, fork, *branch)?;
            page.word(" [label=\"bound\"];\n")?;
        }
        before = Some(*branch);
    }
    Ok(())
}

/// The arrow from a branch's last step to the first barrier that stands for the branch.
fn write_end(
    page: &mut Page,
    alloc: Global,
    records: &StepRecords,
    barriers: &Barriers,
    thread: &ThreadName,
    last: usize,
) -> Result<(), AllocError> {
    let Some((fork, branch)) = branch_under(alloc, thread)? else {
        return Ok(());
    };
    let Some(branches) = barriers.get(&fork) else {
        return Ok(());
    };
    let Some((barrier, ())) = branches.range(branch..).next() else {
        return Ok(());
    };
    let Some(kept) = record_at(records, last) else {
        return Ok(());
    };
    page.word("  \"")?;
    page.step(alloc, &kept.fact.name)?;
    page.word("\" -> ")?;
    write_barrier(page, alloc, &fork, *barrier)?;
    page.word(" [label=\"bound\"];\n")
}

/// The arrow from a barrier to a first move that waited for its branches.
fn write_first_move(
    page: &mut Page,
    alloc: Global,
    records: &StepRecords,
    first: &FirstMove,
) -> Result<(), AllocError> {
    let Some(kept) = record_at(records, first.place) else {
        return Ok(());
    };
    page.word("  ")?;
    write_barrier(page, alloc, &first.fork, first.branch)?;
    page.word(" -> \"")?;
    page.step(alloc, &kept.fact.name)?;
    page.word("\" [label=\"bound\"];\n")
}

/// A barrier's name, in its quotes.
fn write_barrier(
    page: &mut Page,
    alloc: Global,
    fork: &StepName,
    branch: u32,
) -> Result<(), AllocError> {
    page.word("\"barrier ")?;
    page.step(alloc, fork)?;
    page.word(" ")?;
    page.number(u64::from(branch))?;
    page.word("\"")
}
