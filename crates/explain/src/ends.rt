// The frame that a turn, a join or a terminate comes to.
ghost use Rattle.std.specs.Prelude.{◌≡◌, ◌+◌, ◌<◌, ◌^◌, Some, IfOk, IfSome, IsSome, option_copied};
ghost use Rattle.explain.specs.Ends.{frame_after, frame_joined, frame_terminated, failed_with, phase_fault};
ghost use Rattle.asl_forward.specs.Turn.{located};

use crate::answers::answer;
use asl_forward::machine_tree::SharedMachine;
use asl_forward::{
    Fault, Frame, Outcome, Phase, Prepared, after_branch, finish, joined, located, prepare, work_of,
};
use attr_values::Item;
use item_store::ItemStore;
use json_tree::JsonList;
use std::alloc::{AllocError, Global};

/// The turn of a frame, if it is ready for one: if it waits for nothing, and its state is in the machine. Takes what
/// `asl_forward::prepare` takes.
pub fn ready_turn(
    alloc: Global,
    machine: &SharedMachine,
    frame: &Frame,
) -> Result<Option<Prepared>, AllocError>
    ensures frame { IfOk result (λ o. IfSome o (λ p. p.frame ≡ frame.now)) }
    ensures machine { IfOk result (λ o. IfSome o (λ p. p.machine ≡ machine.now)) }
    ensures ready { frame.now.phase ≡ Phase.Ready → IsSome (located machine.now frame.now) → frame.now.count + 1 < 2 ^ 32 → IfOk result (λ o. IsSome o) }
{
    if located(machine.machine(), frame).is_none() || frame.count == u32::MAX {
        return Ok(None);
    }
    match &frame.phase {
        Phase::Ready => Ok(Some(prepare(alloc, machine, frame)?)),
        _ => Ok(None),
    }
}

/// The frame that a prepared turn comes to, if this item has the key that its call asks.
fn frame_after(
    alloc: Global,
    prepared: &Prepared,
    table: &ItemStore,
    item: Option<&Item>,
) -> Result<Frame, AllocError>
    ensures { IfOk result (λ g. frame_after prepared.now.machine prepared.now.frame table.now (option_copied item.entry) prepared.now.outcome ≡ Some g) }
{
    match prepared.outcome() {
        Outcome::Next(next) => next.copy(),
        Outcome::Fork(parked, _) => parked.copy(),
        Outcome::Call(call) => {
            let answer = answer(alloc, call, table, item)?;
            finish(alloc, prepared.machine(), prepared.frame(), answer)
        }
    }
}

/// The frame after a join with these outputs.
fn frame_joined(
    alloc: Global,
    machine: &SharedMachine,
    frame: &Frame,
    outputs: JsonList,
) -> Result<Option<Frame>, AllocError>
    ensures { IfOk result (λ o. frame_joined machine.now frame.now outputs ≡ o) }
{
    let is_work = match located(machine.machine(), frame) {
        Some((_level, state)) => work_of(state).is_some(),
        None => false,
    };
    if !is_work {
        drop(outputs);
        return Ok(None);
    }
    if frame.count == u32::MAX {
        drop(outputs);
        return Err(AllocError);
    }
    Ok(Some(joined(alloc, machine.machine(), frame, outputs)?))
}

/// The frame after a branch has ended with this error.
fn frame_terminated(
    alloc: Global,
    machine: &SharedMachine,
    frame: &Frame,
    fault: &Fault,
) -> Result<Option<Frame>, AllocError>
    ensures { IfOk result (λ o. frame_terminated machine.now frame.now fault.now ≡ o) }
{
    if located(machine.machine(), frame).is_none() {
        return Ok(None);
    }
    if frame.count == u32::MAX {
        return Err(AllocError);
    }
    Ok(Some(after_branch(alloc, machine.machine(), frame, fault)?))
}

/// The error with which a thread of this frame has failed.
fn fault_in(next: &Frame) -> Result<Option<Fault>, AllocError>
    ensures { IfOk result (λ o. o ≡ phase_fault next.now.phase) }
{
    match &next.phase {
        Phase::Failed(fault) => Ok(Some(fault.copy()?)),
        _ => Ok(None),
    }
}

/// The error with which a prepared turn fails.
pub(crate) fn turn_fault(
    alloc: Global,
    prepared: &Prepared,
    table: &ItemStore,
    item: Option<&Item>,
) -> Result<Option<Fault>, AllocError>
    ensures { IfOk result (λ o. o ≡ failed_with (frame_after prepared.now.machine prepared.now.frame table.now (option_copied item.entry) prepared.now.outcome)) }
{
    let next = frame_after(alloc, prepared, table, item)?;
    let fault = fault_in(&next);
    drop(next);
    fault
}

/// The error with which a join with these outputs fails.
pub(crate) fn join_fault(
    alloc: Global,
    machine: &SharedMachine,
    frame: &Frame,
    outputs: JsonList,
) -> Result<Option<Fault>, AllocError>
    ensures { IfOk result (λ o. o ≡ failed_with (frame_joined machine.now frame.now outputs)) }
{
    match frame_joined(alloc, machine, frame, outputs)? {
        Some(next) => {
            let fault = fault_in(&next);
            drop(next);
            fault
        }
        None => Ok(None),
    }
}

/// The error with which a terminate fails.
pub(crate) fn branch_fault(
    alloc: Global,
    machine: &SharedMachine,
    frame: &Frame,
    fault: &Fault,
) -> Result<Option<Fault>, AllocError>
    ensures { IfOk result (λ o. o ≡ failed_with (frame_terminated machine.now frame.now fault.now)) }
{
    match frame_terminated(alloc, machine, frame, fault)? {
        Some(next) => {
            let failure = fault_in(&next);
            drop(next);
            failure
        }
        None => Ok(None),
    }
}
