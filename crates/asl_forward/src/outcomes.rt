// What a turn comes to, for every state ("Task State", "Parallel State", "Map State", "Errors").
ghost use Rattle.std.specs.Prelude.{◌≡◌, ◌+◌, ◌^◌, ◌<◌, List, ℕ, length, Result, IfOk, IfErr};
ghost use Rattle.json_tree.specs.View.{data_of};
ghost use Rattle.item_store.specs.Calls.{call_of};
ghost use Rattle.item_store.specs.Faults.{validation};
ghost use Rattle.asl_processing.specs.Errors.{NamesError};
ghost use Rattle.asl_forward.specs.Outcomes.{action_of, outcome_of_call, fails, forks, parks, task_turn, turn};
ghost use Rattle.asl_processing.specs.Processing.{effective};
ghost use Rattle.asl_frames.specs.declared.frame.Frame.{Frame};

use crate::forking::{count_of, fork_map, fork_parallel};
use crate::frames::Frames;
use crate::handling::handle;
use crate::prepared::Outcome;
use crate::work_results::call_fault;
use asl_frames::machine_tree::{Machine, State};
use asl_frames::{
    Fault, Frame, Phase, TurnFault, effective_input, next_frame, own_fault, with_phase,
};
use asl_processing::error_handling::ErrorHandling;
use asl_processing::state_parts::{Resource, Task};
use item_store::{Action, Call, CallFault};
use json_tree::{Json, Text};
use std::alloc::{AllocError, Global};

fn action_of(resource: Resource) -> Action
    ensures { result ≡ action_of resource }
{
    match resource {
        Resource::GetItem => Action::GetItem,
        Resource::PutItem => Action::PutItem,
        Resource::DeleteItem => Action::DeleteItem,
    }
}

/// A move to the frame after an error.
fn fails(
    alloc: Global,
    level: &Machine,
    errors: &ErrorHandling,
    frame: &Frame,
    fault: Fault,
) -> Result<Outcome, AllocError>
    requires { frame.now.count + 1 < 2 ^ 32 }
    ensures { IfOk result (λ o. o ≡ fails level.now errors.now frame.now fault) }
{
    Ok(Outcome::Next(handle(alloc, level, errors, frame, fault)?))
}

/// The error that the table tells of a call that is malformed.
fn malformed(alloc: Global) -> Result<Text, AllocError>
    ensures { IfOk result (λ error. error ≡ validation) }
{
    match CallFault::Malformed.error_name() {
        Some(name) => Text::new(alloc, name),
        None => Err(AllocError),
    }
}

/// The call that the effective input is; one that is malformed is refused at once.
fn asks(
    alloc: Global,
    level: &Machine,
    task: &Task,
    frame: &Frame,
    input: Json,
) -> Result<Outcome, AllocError>
    requires { frame.now.count + 1 < 2 ^ 32 }
    ensures { IfOk result (λ o. o ≡ outcome_of_call level.now task.now frame.now (call_of (action_of task.now.resource) (data_of input))) }
{
    let call = Call::read(alloc, action_of(task.resource), &input);
    drop(input);
    match call {
        Ok(call) => Ok(Outcome::Call(call)),
        Err(CallFault::Memory) => Err(AllocError),
        Err(_malformed) => {
            let fault = call_fault(alloc, malformed(alloc)?)?;
            fails(alloc, level, &task.errors, frame, fault)
        }
    }
}

fn task_turn(
    alloc: Global,
    level: &Machine,
    task: &Task,
    frame: &Frame,
) -> Result<Outcome, AllocError>
    requires { frame.now.count + 1 < 2 ^ 32 }
    ensures { IfOk result (λ o. o ≡ task_turn level.now task.now frame.now (effective task.now.processing (data_of frame.now.raw))) }
{
    match effective_input(alloc, &task.processing, &frame.raw) {
        Ok(input) => asks(alloc, level, task, frame, input),
        Err(TurnFault::Error(error)) => {
            let fault = own_fault(alloc, error)?;
            fails(alloc, level, &task.errors, frame, fault)
        }
        Err(TurnFault::Memory) => Err(AllocError),
    }
}

/// The frame parked over its branches with this bound, and these.
fn parks(frame: &Frame, bound: u32, frames: Frames) -> Result<Outcome, AllocError>
    requires { frame.now.count + 1 < 2 ^ 32 }
    ensures { IfOk result (λ o. o ≡ Outcome.Fork (parks frame.now (length frames) bound) frames) }
{
    let Ok(branches) = count_of(&frames) else {
        drop(frames);
        return Err(AllocError);
    };
    let Ok(parked) = with_phase(frame, Phase::Parked(branches, bound)) else {
        drop(frames);
        return Err(AllocError);
    };
    Ok(Outcome::Fork(parked, frames))
}

/// What the branches' frames, or the error in their place, come to.
fn forks(
    alloc: Global,
    level: &Machine,
    errors: &ErrorHandling,
    frame: &Frame,
    bound: u32,
    begun: Result<Frames, TurnFault>,
) -> Result<Outcome, AllocError>
    requires { frame.now.count + 1 < 2 ^ 32 }
    ensures ok { IfOk begun (λ fs. IfOk result (λ o. o ≡ Outcome.Fork (parks frame.now (length fs) bound) fs)) }
    ensures fault { IfErr begun (λ e. (worked : Result (List Frame) (List ℕ)) → NamesError e worked → IfOk result (λ o. o ≡ forks level.now errors.now frame.now bound worked)) }
{
    match begun {
        Ok(frames) => parks(frame, bound, frames),
        Err(TurnFault::Error(error)) => {
            let fault = own_fault(alloc, error)?;
            fails(alloc, level, errors, frame, fault)
        }
        Err(TurnFault::Memory) => Err(AllocError),
    }
}

/// What the turn of a frame comes to at a state of this level, the machine in whose `States` object it stands. Takes what
/// `next_frame` takes, and memory for a call's item, or for a frame of each branch, whose input is shared with the frame
/// or made by the item selector.
pub(crate) fn turn(
    alloc: Global,
    level: &Machine,
    state: &State,
    frame: &Frame,
) -> Result<Outcome, AllocError>
    requires { frame.now.count + 1 < 2 ^ 32 }
    ensures { IfOk result (λ o. o ≡ turn (level.now, state.now) frame.now) }
{
    match state {
        State::Task(task) => task_turn(alloc, level, task, frame),
        State::Parallel(parallel) => {
            let begun = fork_parallel(alloc, parallel, frame);
            forks(alloc, level, &parallel.errors, frame, 0, begun)
        }
        State::Map(map) => {
            let begun = fork_map(alloc, map, frame);
            forks(alloc, level, &map.errors, frame, map.max_concurrency, begun)
        }
        _ => Ok(Outcome::Next(next_frame(alloc, level, state, frame)?)),
    }
}
