// Edges among steps, by their places.
ghost use Rattle.std.specs.Prelude.{◌≡◌, ◌<◌, length, All, IfOk, OnOk};
ghost use Rattle.step_graph.specs.Edges.{IsEdge, reason_at};

use crate::latest::Latest;
use crate::marks::Marks;
use depends::{Reason, reason_of};
use std::alloc::{AllocError, Global};
use step_index::StepRecords;

/// A direct dependence: the places of two steps among the records, and why the later one depends on the earlier one.
#[derive(Clone, Copy, Debug, PartialEq, Eq)]
pub struct Edge {
    pub earlier: usize,
    pub later: usize,
    pub reason: Reason,
}

/// Why the step at a later place depends directly on the one at an earlier place; nothing if it doesn't, or if there is no such
/// place. Takes no memory, and time in the lengths of the names and keys.
pub fn reason_at(records: &StepRecords, earlier: usize, later: usize) -> Option<Reason>
    ensures { result ≡ reason_at records.now.items earlier later }
{
    let count = records.len();
    if earlier >= count {
        return None;
    }
    if later >= count {
        return None;
    }
    reason_of(&records.get(earlier).fact, &records.get(later).fact)
}

/// The nearest direct dependences of each step, or of those at marked places alone, by the later step and then by the earlier one. All others
/// follow from them, if who reads them knows one thing: a first move that waited for a branch also waited for those before it.
///
/// A step depends on the step before it in its thread, and a branch's first step on its fork. A join or a terminate depends on the last step of
/// each thread that is still open under its fork. A read depends on the last write of its key, and a write on that one and on the reads since. A
/// first move that waited depends on the latest step of the branches that it waited for, which comes last. Of two steps of one thread only
/// neighbours have one.
///
/// Takes time in the number of records and of these dependences, logarithms aside, and memory for each thread, each key and each dependence.
pub fn edges(
    alloc: Global,
    records: &StepRecords,
    into: Option<&Marks>,
) -> Result<Vec<Edge>, AllocError>
    ensures { IfOk result (λ es. All (IsEdge records.now.items) es.items) }
{
    let mut latest = Latest::new(alloc);
    let mut near = Vec::new(alloc);
    let mut edges = Vec::new(alloc);
    for at in 0..records.len() {
        near.clear();
        let mut awaited = latest.add(alloc, &records.get(at).fact, at, &mut near)?;
        if !is_told(into, at) {
            near.clear();
            awaited = None;
        }
        link_step(&mut edges, records, near.as_slice(), awaited, at)?;
    }
    Ok(edges)
}

/// Whether the dependences of the step at a place are asked for.
fn is_told(into: Option<&Marks>, at: usize) -> bool {
    match into {
        Some(marks) => marks.has(at),
        None => true,
    }
}

/// Adds the dependences of the step at a place on those at earlier ones, which ascend, and on the one for which it waited.
fn link_step(
    edges: &mut Vec<Edge>,
    records: &StepRecords,
    near: &[usize],
    awaited: Option<usize>,
    later: usize,
) -> Result<(), AllocError>
    requires { later < length records.now.items }
    ensures { OnOk result (All (IsEdge records.now.items) edges.old.items → All (IsEdge records.now.items) edges.new.items) }
{
    link_all(edges, records, near, later)?;
    link_awaited(edges, records, awaited, later)?;
    Ok(())
}

/// Adds the dependences of the step at a place on those at earlier ones, which ascend. One that comes twice is added once.
fn link_all(
    edges: &mut Vec<Edge>,
    records: &StepRecords,
    near: &[usize],
    later: usize,
) -> Result<(), AllocError>
    requires { later < length records.now.items }
    ensures { OnOk result (All (IsEdge records.now.items) edges.old.items → All (IsEdge records.now.items) edges.new.items) }
{
    let mut told = later;
    for place in near {
        link(edges, records, *place, later, told)?;
        told = *place;
    }
    Ok(())
}

/// Adds the dependence of a first move on a step for which it waited, if that is all by which it depends on it: other dependences are among the
/// nearest ones already, or follow from these.
fn link_awaited(
    edges: &mut Vec<Edge>,
    records: &StepRecords,
    awaited: Option<usize>,
    later: usize,
) -> Result<(), AllocError>
    requires { later < length records.now.items }
    ensures { OnOk result (All (IsEdge records.now.items) edges.old.items → All (IsEdge records.now.items) edges.new.items) }
{
    let Some(earlier) = awaited else {
        return Ok(());
    };
    match reason_at(records, earlier, later) {
        Some(Reason::Bound) => link(edges, records, earlier, later, later),
        _ => Ok(()),
    }
}

/// Adds the dependence of a step on an earlier one, if there is one and it isn't the one that was added just before.
fn link(
    edges: &mut Vec<Edge>,
    records: &StepRecords,
    earlier: usize,
    later: usize,
    told: usize,
) -> Result<(), AllocError>
    requires { later < length records.now.items }
    ensures { OnOk result (All (IsEdge records.now.items) edges.old.items → All (IsEdge records.now.items) edges.new.items) }
{
    if earlier >= later {
        return Ok(());
    }
    if earlier == told {
        return Ok(());
    }
    let Some(reason) = reason_at(records, earlier, later) else {
        return Ok(());
    };
    edges.push(Edge {
        earlier,
        later,
        reason,
    })?;
    Ok(())
}
