//! Names of threads and steps.
ghost use Rattle.std.specs.Prelude.{◌≡◌, ◌≢◌, IfOk, OnOk, OnErr, Some};
ghost use Rattle.std.specs.BTreeMap.{get, IsUnchanged};
ghost use Rattle.step_names.specs.Thread.{Thread};
ghost use Rattle.step_names.specs.Order.{thread_cmp};

use crate::fault::RowFault;
use crate::parts::{PART_END, cut, ensure, number_in, put_number, put_yes};
use json_tree::Text;
use std::alloc::{AllocError, Global};
use std::collections::BTreeMap;
use step_names::{
    LONGEST_STEP, LONGEST_THREAD, NameFault, NameRoom, StepName, ThreadName, forks_nest,
    names_in_order, step_spelling, thread_spelling,
};

pub(crate) fn answer(
    alloc: Global,
    out: &mut String,
    word: &str,
    rest: &str,
) -> Result<(), RowFault> {
    match word {
        "thread" => put_thread(alloc, out, rest),
        "step" => put_step(alloc, out, rest),
        "execution" => put_execution(alloc, out, rest),
        "own" => put_own(alloc, out, rest),
        "child" => put_child(alloc, out, rest),
        "under" => put_under(alloc, out, rest),
        "after" => put_after(alloc, out, rest),
        "room" => put_in_room(alloc, out, rest),
        "count" => put_count(alloc, out, rest),
        "longest" => put_longest(out),
        "faults" => put_faults(alloc, out),
        _ => Err(RowFault::Said("no row")),
    }
}

pub(crate) fn thread(alloc: Global, text: &str) -> Result<ThreadName, RowFault> {
    Ok(ThreadName::read(alloc, text)?)
}

pub(crate) fn step(alloc: Global, text: &str) -> Result<StepName, RowFault> {
    Ok(StepName::read(alloc, text)?)
}

fn is_written(alloc: Global, name: &ThreadName, text: &str) -> Result<bool, AllocError> {
    Ok(name.write_text(alloc)?.as_str() == text)
}

/// `thread T`: how many bytes the name has, its execution and its branches. It is written as it was read.
fn put_thread(alloc: Global, out: &mut String, text: &str) -> Result<(), RowFault> {
    let name = thread(alloc, text)?;
    ensure(is_written(alloc, &name, text)?, "another spelling")?;
    put_parts(out, &name, name.text_len())
}

fn put_parts(out: &mut String, name: &ThreadName, len: usize) -> Result<(), RowFault> {
    ensure(
        name.is_execution() == name.path().is_empty(),
        "another execution",
    )?;
    put_number(out, len)?;
    out.push(' ')?;
    out.push_str(name.exec())?;
    for &(fork, branch) in name.path() {
        out.push(' ')?;
        put_number(out, fork as usize)?;
        out.push('.')?;
        put_number(out, branch as usize)?;
    }
    Ok(())
}

fn is_step_written(alloc: Global, name: &StepName, text: &str) -> Result<bool, AllocError> {
    let is_copied = name.copy()? == *name;
    Ok(is_copied && name.write_text(alloc)?.as_str() == text)
}

/// `step S`: the same of the step's thread, and the step's number. A copy of it is equal.
fn put_step(alloc: Global, out: &mut String, text: &str) -> Result<(), RowFault> {
    let name = step(alloc, text)?;
    ensure(is_step_written(alloc, &name, text)?, "another spelling")?;
    put_parts(out, &name.thread, name.text_len())?;
    out.push_str(" #")?;
    put_number(out, name.no as usize)
}

/// `execution NAME`: whether an execution may have that name.
fn put_execution(alloc: Global, out: &mut String, text: &str) -> Result<(), RowFault> {
    let text = Text::new(alloc, text)?;
    put_yes(out, ThreadName::new(alloc, text).is_some())
}

/// `own T`: the own thread of the thread's execution, which shares its name.
fn put_own(alloc: Global, out: &mut String, text: &str) -> Result<(), RowFault> {
    let name = thread(alloc, text)?;
    match ThreadName::new(alloc, name.exec_text()?) {
        Some(own) => put_name(alloc, out, &own),
        None => Err(RowFault::Said("no name")),
    }
}

fn put_name(alloc: Global, out: &mut String, name: &ThreadName) -> Result<(), RowFault> {
    let text = name.write_text(alloc)?;
    out.push_str(text.as_str())?;
    Ok(())
}

/// `child T FORK BRANCH`: the thread of a branch, and a copy of it is equal.
fn put_child(alloc: Global, out: &mut String, rest: &str) -> Result<(), RowFault> {
    let (text, rest) = cut(rest);
    let (fork, branch) = cut(rest);
    let (fork, branch) = (number_in(fork)?, number_in(branch)?);
    let child = child_of(alloc, text, fork, branch)?;
    ensure(child.copy()? == child, "another copy")?;
    put_name(alloc, out, &child)
}

fn child_of(alloc: Global, text: &str, fork: u32, branch: u32) -> Result<ThreadName, RowFault> {
    let name = thread(alloc, text)?;
    let child = name.child(alloc, fork, branch);
    drop(name);
    Ok(child?)
}

/// `under T HIGH FORK`: whether a thread lies under a fork of another.
fn put_under(alloc: Global, out: &mut String, rest: &str) -> Result<(), RowFault> {
    let (text, rest) = cut(rest);
    let (high, fork) = cut(rest);
    let fork = number_in(fork)?;
    let name = thread(alloc, text)?;
    put_yes(out, is_under(alloc, &name, high, fork)?)
}

fn is_under(alloc: Global, name: &ThreadName, high: &str, fork: u32) -> Result<bool, RowFault> {
    let high = thread(alloc, high)?;
    Ok(name.is_under(&high, fork))
}

/// `after TEXT S`: a step and its thread, written behind a text.
fn put_after(alloc: Global, out: &mut String, rest: &str) -> Result<(), RowFault> {
    let (front, text) = cut(rest);
    let name = step(alloc, text)?;
    out.push_str(front)?;
    name.write_to(out)?;
    name.thread.write_to(out)?;
    Ok(())
}

/// `room S`: a step in room that was made for any name, copied from there, and its execution's name.
fn put_in_room(alloc: Global, out: &mut String, text: &str) -> Result<(), RowFault> {
    let name = step(alloc, text)?;
    put_moved(alloc, out, &name)
}

fn put_moved(alloc: Global, out: &mut String, name: &StepName) -> Result<(), RowFault> {
    ensure(is_thread_moved(alloc, name)?, "another thread")?;
    let moved = NameRoom::new(alloc)?.step(name);
    put_in(alloc, out, &moved, name)
}

fn is_thread_moved(alloc: Global, name: &StepName) -> Result<bool, AllocError> {
    Ok(NameRoom::new(alloc)?.thread(&name.thread) == name.thread)
}

fn put_in(
    alloc: Global,
    out: &mut String,
    moved: &StepName,
    name: &StepName,
) -> Result<(), RowFault> {
    ensure(*moved == *name && moved.copy()? == *name, "another copy")?;
    let text = moved.write_text(alloc)?;
    out.push_str(text.as_str())?;
    out.push_str(" of ")?;
    put_exec(out, &moved.thread)
}

fn put_exec(out: &mut String, name: &ThreadName) -> Result<(), RowFault> {
    let exec = name.exec_text()?;
    out.push_str(exec.as_str())?;
    Ok(())
}

/// A map by names is one by their values.
#[tactic(auto, using(step_names::proofs::OrderLaws::thread_itself, step_names::proofs::OrderLaws::thread_apart))]
fn note(counts: &mut BTreeMap<ThreadName, u32>, name: ThreadName) -> Result<u32, AllocError>
    ensures there { IfOk result (λ count. get thread_cmp counts.new name ≡ Some count) }
    ensures others { OnOk result ((q : Thread) → q ≢ name → get thread_cmp counts.new q ≡ get thread_cmp counts.old q) }
    ensures err { OnErr result (IsUnchanged counts.old counts.new) }
{
    let count = counts.get(&name).copied().unwrap_or(0).saturating_add(1);
    counts.insert(name, count)?;
    Ok(count)
}

fn note_all(
    alloc: Global,
    counts: &mut BTreeMap<ThreadName, u32>,
    names: &str,
) -> Result<(), RowFault> {
    for text in names.split(PART_END) {
        let _count = note(counts, thread(alloc, text)?)?;
    }
    Ok(())
}

/// `count T NAME..`: how many of the names are the thread's, as a map by names counts them.
fn put_count(alloc: Global, out: &mut String, rest: &str) -> Result<(), RowFault> {
    let (text, names) = cut(rest);
    let mut counts = BTreeMap::new(alloc);
    note_all(alloc, &mut counts, names)?;
    put_noted(alloc, out, &counts, text)
}

fn put_noted(
    alloc: Global,
    out: &mut String,
    counts: &BTreeMap<ThreadName, u32>,
    text: &str,
) -> Result<(), RowFault> {
    let name = thread(alloc, text)?;
    match counts.get(&name) {
        Some(count) => put_number(out, *count as usize),
        None => {
            out.push_str("none")?;
            Ok(())
        }
    }
}

/// `longest`: how many bytes the longest names of a thread and of a step have.
fn put_longest(out: &mut String) -> Result<(), RowFault> {
    put_number(out, LONGEST_THREAD)?;
    out.push(' ')?;
    put_number(out, LONGEST_STEP)
}

/// `faults`: what the two faults of names say.
fn put_faults(alloc: Global, out: &mut String) -> Result<(), RowFault> {
    put_fault(alloc, out, NameFault::BadName)?;
    out.push_str(", ")?;
    put_fault(alloc, out, NameFault::Memory)
}

fn put_fault(alloc: Global, out: &mut String, fault: NameFault) -> Result<(), RowFault> {
    let text = fault.to_string(alloc)?;
    out.push_str(text.as_str())?;
    Ok(())
}

pub(crate) fn state_laws() {
    thread_spelling();
    step_spelling();
    forks_nest();
    names_in_order();
}
