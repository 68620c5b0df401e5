// The nearest steps on which one depends: of each thread and each item the last.
use crate::asked::Asked;
use crate::steps::{closed_frame, place_of_step};
use book_events::turns::Frame;
use book_events::{BookCalls, Fact, Kind, StepRecord};
use item_store::AccessMode;
use question_index::frame_of;
use std::alloc::AllocError;
use std::collections::BTreeMap;
use step_graph::{
    Reason, awaited_branch, branch_of, closed_threads, reason_at, record_at, thread_above,
};
use step_names::{StepName, ThreadName};

/// The places of the nearest steps on which the one at a place depends directly, ascending, each with the reason: the step before in its
/// thread, or else the fork or the start above it; of a join or a terminate the last step of each branch; of a first move that waited that of
/// the last branch that it waited for, so that it depends on the branches before, too; and of a call the last write of its key, of a write the
/// reads since, too. Takes time in their number, and in that of the key's accesses; of a first move, if the branch for which it waited is
/// settled, also in its Map's bound.
pub fn near_of<B: BookCalls>(
    asked: &Asked<'_, B>,
    place: usize,
) -> Result<Vec<(usize, Reason)>, AllocError> {
    let mut near = BTreeMap::new(asked.alloc);
    let found = match add_near(asked, &mut near, place) {
        Ok(()) => with_reasons(asked, &near, place),
        Err(AllocError) => Err(AllocError),
    };
    drop(near);
    found
}

type Near = BTreeMap<usize, ()>;

/// The places before one, each with the reason why the step at that one depends on it.
fn with_reasons<B: BookCalls>(
    asked: &Asked<'_, B>,
    near: &Near,
    place: usize,
) -> Result<Vec<(usize, Reason)>, AllocError> {
    let mut found = Vec::new(asked.alloc);
    for (earlier, ()) in near.iter() {
        if *earlier < place {
            if let Some(reason) = reason_at(asked.book.history(), *earlier, place) {
                found.push((*earlier, reason))?;
            }
        }
    }
    Ok(found)
}

fn add_near<B: BookCalls>(
    asked: &Asked<'_, B>,
    near: &mut Near,
    place: usize,
) -> Result<(), AllocError> {
    let Some(kept) = record_at(asked.book.history(), place) else {
        return Ok(());
    };
    add_before(asked, near, &kept.fact.name)?;
    if matches!(kept.fact.kind, Kind::Join | Kind::Terminate) {
        add_closed(asked, near, kept)?;
    }
    add_awaited(asked, near, &kept.fact, place)?;
    add_touched(asked, near, &kept.fact, place)
}

/// The step before in the thread; of the first one that remains the fork above, or the start.
fn add_before<B: BookCalls>(
    asked: &Asked<'_, B>,
    near: &mut Near,
    name: &StepName,
) -> Result<(), AllocError> {
    if let Some(before) = name.no.checked_sub(1) {
        if add_step(asked, near, name.thread.copy()?, before)? {
            return Ok(());
        }
    }
    let Some(((fork, _), above)) = name.thread.path().split_last() else {
        return Ok(());
    };
    let over = thread_above(asked.alloc, &name.thread, above.len())?;
    add_step(asked, near, over, *fork)?;
    Ok(())
}

/// Adds a thread's step of this number, if it remains. Whether it does.
fn add_step<B: BookCalls>(
    asked: &Asked<'_, B>,
    near: &mut Near,
    thread: ThreadName,
    no: u32,
) -> Result<bool, AllocError> {
    match place_of_step(asked, thread, no) {
        Some(place) => {
            near.insert(place, ())?;
            Ok(true)
        }
        None => Ok(false),
    }
}

/// The last step of each branch that a join or a terminate took away.
fn add_closed<B: BookCalls>(
    asked: &Asked<'_, B>,
    near: &mut Near,
    kept: &StepRecord,
) -> Result<(), AllocError> {
    let closed = closed_threads(asked.alloc, kept)?;
    let added = add_last_steps(asked, near, closed.as_slice());
    drop(closed);
    added
}

fn add_last_steps<B: BookCalls>(
    asked: &Asked<'_, B>,
    near: &mut Near,
    closed: &[(ThreadName, &Frame)],
) -> Result<(), AllocError> {
    for (thread, frame) in closed {
        add_step(asked, near, thread.copy()?, frame.count)?;
    }
    Ok(())
}

/// The last step of the last branch for which a first move waited; if it is settled, that of the one before that, and so on. A branch further
/// back than the bound isn't looked at: the last one waited for it. Nor is a step added that is needed for its item, too: the nearest of those are
/// added as such.
fn add_awaited<B: BookCalls>(
    asked: &Asked<'_, B>,
    near: &mut Near,
    fact: &Fact,
    place: usize,
) -> Result<(), AllocError> {
    let Some((fork, last)) = awaited_branch(fact) else {
        return Ok(());
    };
    let depth = fact.name.thread.path().len().saturating_sub(1);
    let over = thread_above(asked.alloc, &fact.name.thread, depth)?;
    let awaited = last_awaited(asked, &over, fork, last, fact.bound);
    drop(over);
    if let Some(last) = awaited? {
        if matches!(
            reason_at(asked.book.history(), last, place),
            Some(Reason::Bound)
        ) {
            near.insert(last, ())?;
        }
    }
    Ok(())
}

/// The place of the last step of a branch up to this one, of the last such step that remains.
fn last_awaited<B: BookCalls>(
    asked: &Asked<'_, B>,
    over: &ThreadName,
    fork: u32,
    last: u32,
    bound: u32,
) -> Result<Option<usize>, AllocError> {
    for back in 0..bound {
        let Some(branch) = last.checked_sub(back) else {
            break;
        };
        let Some(name) = branch_of(asked.alloc, over, fork, branch)? else {
            break;
        };
        if let Some(place) = last_of(asked, name)? {
            return Ok(Some(place));
        }
    }
    Ok(None)
}

/// The place of the last step of a branch that has ended, if it remains.
fn last_of<B: BookCalls>(
    asked: &Asked<'_, B>,
    thread: ThreadName,
) -> Result<Option<usize>, AllocError> {
    match moves_of(asked, &thread) {
        Ok(Some(no)) => Ok(place_of_step(asked, thread, no)),
        Ok(None) => {
            drop(thread);
            Ok(None)
        }
        Err(AllocError) => {
            drop(thread);
            Err(AllocError)
        }
    }
}

/// How many moves a thread has made, or had made when its branch went.
fn moves_of<B: BookCalls>(
    asked: &Asked<'_, B>,
    thread: &ThreadName,
) -> Result<Option<u32>, AllocError> {
    if let Some(frame) = frame_of(asked.book, thread) {
        return Ok(Some(frame.count));
    }
    match closed_frame(asked, thread)? {
        Some(frame) => Ok(Some(frame.count)),
        None => Ok(None),
    }
}

/// The last write of a call's key before it; of a write the reads since, too.
fn add_touched<B: BookCalls>(
    asked: &Asked<'_, B>,
    near: &mut Near,
    fact: &Fact,
    place: usize,
) -> Result<(), AllocError> {
    let Some(own) = &fact.access else {
        return Ok(());
    };
    let accesses = asked.book.history().accesses(asked.alloc, &own.key)?;
    let added = add_accesses(asked, near, fact, own.mode, accesses.as_slice(), place);
    drop(accesses);
    added
}

fn add_accesses<B: BookCalls>(
    asked: &Asked<'_, B>,
    near: &mut Near,
    fact: &Fact,
    own: AccessMode,
    accesses: &[usize],
    place: usize,
) -> Result<(), AllocError> {
    for earlier in accesses.iter().rev() {
        if *earlier >= place {
            continue;
        }
        let Some(kept) = record_at(asked.book.history(), *earlier) else {
            continue;
        };
        let Some(access) = &kept.fact.access else {
            continue;
        };
        let is_own = kept.fact.name.thread == fact.name.thread;
        match access.mode {
            AccessMode::Write => {
                if !is_own {
                    near.insert(*earlier, ())?;
                }
                break;
            }
            AccessMode::Read => {
                if !is_own && matches!(own, AccessMode::Write) {
                    near.insert(*earlier, ())?;
                }
            }
        }
    }
    Ok(())
}
