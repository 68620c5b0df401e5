// What a state makes of a frame.
ghost use Rattle.std.specs.Prelude.{◌≡◌, ◌+◌, ◌^◌, ◌<◌, option_map, IfOk, IfErr, Ok, List, ℕ, Result};
ghost use Rattle.json_tree.specs.Data.{Data};
ghost use Rattle.json_tree.specs.View.{data_of};
ghost use Rattle.asl_tree.specs.Definition.{Definition};
ghost use Rattle.asl_processing.specs.Errors.{NamesError, error_name};
ghost use Rattle.asl_frames.specs.Turn.{retriers_of, counters_at, enters, frame_done_with, frame_failed_with, own_fault, declared_fault, go_on, ends, first_frame, pass_result, pass_output, idle_output, after_state, located, choice_frame, goes_where};
ghost use Rattle.asl_processing.specs.Choosing.{chosen};
ghost use Rattle.asl_processing.specs.Processing.{effective};

use crate::frame::{Fault, Frame, Origin, Phase, Retries};
use asl_processing::error_handling::Retrier;
use asl_processing::state_parts::{Choice, Fail, Pass, Processing, Transition};
use asl_processing::{OwnFault, TurnFault, choose, effective_input, output_of};
use asl_tree::{Level, LevelPath, Machine, State};
use json_tree::{Json, Text};
use std::alloc::{AllocError, Global};

/// Where a frame of this machine stands: the branch or the processor that its level is, and the state there. Takes, for
/// each step of the level's path, time logarithmic in the number of states.
pub fn located<'a>(machine: &'a Machine, frame: &Frame) -> Option<(&'a Machine, &'a State)>
    ensures { option_map (λ p. (p.0.now, p.1.now)) result ≡ located machine.now frame.now }
{
    let Some(level) = machine.machine_at(&frame.level.path) else {
        return None;
    };
    match level.state(&frame.state) {
        Some(state) => Some((level, state)),
        None => None,
    }
}

/// The next frame that a state of this level gives by itself: the machine in whose `States` object it stands. A Task, a
/// Parallel and a Map ask or fork first (`prepare`), and fail here. Takes memory for the names that the frame keeps, and
/// for what the state's paths and templates change and make; what they pick, the raw input and the output share their
/// values with the frame before. Takes the time of `json_tree::depth` of the output, besides.
pub fn next_frame(
    alloc: Global,
    level: &Machine,
    state: &State,
    frame: &Frame,
) -> Result<Frame, AllocError>
    requires { frame.now.count + 1 < 2 ^ 32 }
    ensures { IfOk result (λ g. g ≡ after_state (level.now, state.now) frame.now) }
{
    match state {
        State::Pass(pass) => {
            let output = pass_output(alloc, pass, &frame.raw);
            end(alloc, level, &pass.transition, frame, output)
        }
        State::Choice(choice) => choice_frame(alloc, level, choice, frame),
        State::Wait(wait) => {
            let output = idle_output(alloc, &wait.processing, &frame.raw);
            end(alloc, level, &wait.transition, frame, output)
        }
        State::Succeed(succeed) => {
            let output = idle_output(alloc, &succeed.processing, &frame.raw);
            end(alloc, level, &Transition::End, frame, output)
        }
        State::Fail(state) => failed(frame, declared_fault(state)?),
        _ => failed(frame, own_fault(alloc, OwnFault::Runtime)?),
    }
}

/// What a Pass state passes on.
fn pass_output(alloc: Global, pass: &Pass, raw: &Json) -> Result<Json, TurnFault>
    ensures ok { IfOk result (λ j. pass_output pass.now (data_of raw.now) ≡ Ok (data_of j)) }
    ensures fault { IfErr result (λ e. NamesError e (pass_output pass.now (data_of raw.now))) }
{
    let input = effective_input(alloc, &pass.processing, raw)?;
    let result = pass_result(&pass.result, input)?;
    output_of(alloc, &pass.processing, raw, result)
}

/// A Pass state's result, or its input where it has none.
fn pass_result(fixed: &Option<Json>, input: Json) -> Result<Json, AllocError>
    ensures { IfOk result (λ j. data_of j ≡ pass_result fixed.now (data_of input)) }
{
    match fixed {
        Some(fixed) => {
            drop(input);
            fixed.copy()
        }
        None => Ok(input),
    }
}

/// What a state that does no work passes on.
fn idle_output(alloc: Global, processing: &Processing, raw: &Json) -> Result<Json, TurnFault>
    ensures ok { IfOk result (λ j. idle_output processing.now (data_of raw.now) ≡ Ok (data_of j)) }
    ensures fault { IfErr result (λ e. NamesError e (idle_output processing.now (data_of raw.now))) }
{
    let input = effective_input(alloc, processing, raw)?;
    output_of(alloc, processing, raw, input)
}

/// The frame after a Choice state.
fn choice_frame(
    alloc: Global,
    level: &Machine,
    choice: &Choice,
    frame: &Frame,
) -> Result<Frame, AllocError>
    requires { frame.now.count + 1 < 2 ^ 32 }
    ensures { IfOk result (λ g. g ≡ choice_frame level.now choice.now frame.now (effective choice.now.processing (data_of frame.now.raw))) }
{
    match effective_input(alloc, &choice.processing, &frame.raw) {
        Ok(input) => go_where(alloc, level, choice, frame, input),
        Err(TurnFault::Error(error)) => failed(frame, own_fault(alloc, error)?),
        Err(TurnFault::Memory) => Err(AllocError),
    }
}

/// The frame before the state that a Choice state goes to with its effective input.
fn go_where(
    alloc: Global,
    level: &Machine,
    choice: &Choice,
    frame: &Frame,
    input: Json,
) -> Result<Frame, AllocError>
    requires { frame.now.count + 1 < 2 ^ 32 }
    ensures { IfOk result (λ g. g ≡ goes_where level.now choice.now.processing frame.now (data_of input) (chosen choice.now.rules choice.now.default (data_of input))) }
{
    let name = match choose(choice, &input) {
        Ok(name) => name,
        Err(error) => {
            drop(input);
            return failed(frame, own_fault(alloc, error)?);
        }
    };
    match output_of(alloc, &choice.processing, &frame.raw, input) {
        Ok(output) => enter(alloc, level, name, frame, output),
        Err(TurnFault::Error(error)) => failed(frame, own_fault(alloc, error)?),
        Err(TurnFault::Memory) => Err(AllocError),
    }
}

/// The frame after what its state passes on.
fn end(
    alloc: Global,
    level: &Machine,
    transition: &Transition,
    frame: &Frame,
    output: Result<Json, TurnFault>,
) -> Result<Frame, AllocError>
    requires { frame.now.count + 1 < 2 ^ 32 }
    ensures ok { IfOk output (λ j. IfOk result (λ g. g ≡ go_on level.now transition.now frame.now (data_of j))) }
    ensures fault { IfErr output (λ e. (worked : Result Data (List ℕ)) → NamesError e worked → IfOk result (λ g. g ≡ ends level.now transition.now frame.now worked)) }
{
    match output {
        Ok(output) => go_on(alloc, level, transition, frame, output),
        Err(TurnFault::Error(error)) => failed(frame, own_fault(alloc, error)?),
        Err(TurnFault::Memory) => Err(AllocError),
    }
}

/// The frame that goes on with a state's output.
#[tactic(auto, using(asl_processing::proofs::Again::json_again))]
pub fn go_on(
    alloc: Global,
    level: &Machine,
    transition: &Transition,
    frame: &Frame,
    output: Json,
) -> Result<Frame, AllocError>
    requires { frame.now.count + 1 < 2 ^ 32 }
    ensures { IfOk result (λ g. g ≡ go_on level.now transition.now frame.now (data_of output)) }
{
    match transition {
        Transition::Next(next) => enter(alloc, level, next, frame, output),
        Transition::End => with_phase(frame, Phase::Done(output)),
    }
}

/// The frame before another state of the level.
#[tactic(auto, using(asl_processing::proofs::Again::json_again))]
pub fn enter(
    alloc: Global,
    level: &Machine,
    name: &Text,
    frame: &Frame,
    raw: Json,
) -> Result<Frame, AllocError>
    requires { frame.now.count + 1 < 2 ^ 32 }
    ensures { IfOk result (λ g. g ≡ enters level.now name.now frame.now (data_of raw)) }
{
    let Ok((at, state, retries)) = place_of(alloc, level, name, frame) else {
        drop(raw);
        return Err(AllocError);
    };
    Ok(Frame {
        level: at,
        state,
        raw,
        retries,
        count: frame.count + 1,
        phase: Phase::Ready,
    })
}

/// Where a frame stands before a state of its level, with the state's counters.
fn place_of(
    alloc: Global,
    level: &Machine,
    name: &Text,
    frame: &Frame,
) -> Result<(Level, Text, Retries), AllocError>
    ensures { IfOk result (λ p. (p.0 ≡ frame.now.level) × (p.1 ≡ name.now) × (p.2 ≡ counters_at level.now name.now)) }
{
    let retries = counters_at(alloc, level, name)?;
    let state = name.copy()?;
    let level = frame.level.copy()?;
    Ok((level, state, retries))
}

/// A counter of 0 for each retrier of the state of this name.
pub fn counters_at(alloc: Global, level: &Machine, name: &Text) -> Result<Retries, AllocError>
    ensures { IfOk result (λ r. r ≡ counters_at level.now name.now) }
{
    match level.state(name) {
        Some(state) => Retries::fresh(alloc, retriers_of(state).len()),
        None => Ok(Retries::none(alloc)),
    }
}

fn retriers_of(state: &State) -> &[Retrier]
    ensures { result.now ≡ retriers_of state.now }
{
    match state {
        State::Task(task) => task.errors.retriers.as_slice(),
        State::Parallel(parallel) => parallel.errors.retriers.as_slice(),
        State::Map(map) => map.errors.retriers.as_slice(),
        _ => &[],
    }
}

/// The frame at the same place in another phase, a move later. Its raw input is shared.
pub fn with_phase(frame: &Frame, phase: Phase) -> Result<Frame, AllocError>
    requires { frame.now.count + 1 < 2 ^ 32 }
    ensures { IfOk result (λ g. g ≡ record { level = frame.now.level; state = frame.now.state; raw = frame.now.raw; retries = frame.now.retries; count = frame.now.count + 1; phase = phase }) }
{
    let Ok((level, state, raw)) = same_place(frame) else {
        drop(phase);
        return Err(AllocError);
    };
    let Ok(retries) = frame.retries.copy() else {
        drop(phase);
        return Err(AllocError);
    };
    let count = frame.count + 1;
    Ok(Frame {
        level,
        state,
        raw,
        retries,
        count,
        phase,
    })
}

/// Where a frame stands, and its raw input, shared.
pub fn same_place(frame: &Frame) -> Result<(Level, Text, Json), AllocError>
    ensures { IfOk result (λ p. (p.0 ≡ frame.now.level) × (p.1 ≡ frame.now.state) × (p.2 ≡ frame.now.raw)) }
{
    let raw = frame.raw.copy()?;
    let state = frame.state.copy()?;
    let level = frame.level.copy()?;
    Ok((level, state, raw))
}

pub fn failed(frame: &Frame, fault: Fault) -> Result<Frame, AllocError>
    requires { frame.now.count + 1 < 2 ^ 32 }
    ensures { IfOk result (λ g. g ≡ frame_failed_with frame.now fault) }
{
    with_phase(frame, Phase::Failed(fault))
}

/// An error of the state itself.
pub fn own_fault(alloc: Global, error: OwnFault) -> Result<Fault, AllocError>
    ensures { IfOk result (λ f. f ≡ own_fault (error_name error)) }
{
    let cause = Text::new(alloc, "")?;
    let error = Text::new(alloc, error.name())?;
    Ok(Fault {
        error,
        cause,
        origin: Origin::Other,
    })
}

fn declared_fault(fail: &Fail) -> Result<Fault, AllocError>
    ensures { IfOk result (λ f. f ≡ declared_fault fail.now) }
{
    let cause = fail.cause.copy()?;
    let error = fail.error.copy()?;
    Ok(Fault {
        error,
        cause,
        origin: Origin::Other,
    })
}

/// The frame with which an execution of a machine starts. It shares the input.
pub fn first_frame(
    alloc: Global,
    name: &Text,
    machine: &Machine,
    input: &Json,
) -> Result<Frame, AllocError>
    ensures { IfOk result (λ f. f ≡ first_frame name.now machine.now input.now) }
{
    let level = Level {
        machine: name.copy()?,
        path: LevelPath::outermost(alloc),
    };
    let state = machine.start().copy()?;
    let retries = counters_at(alloc, machine, machine.start())?;
    let raw = input.copy()?;
    Ok(Frame {
        level,
        state,
        raw,
        retries,
        count: 0,
        phase: Phase::Ready,
    })
}
