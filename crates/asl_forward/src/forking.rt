// The frames with which the branches of a Parallel or a Map begin ("Parallel State", "Map State").
ghost use Rattle.std.specs.Prelude.{◌≡◌, ◌≤◌, ◌++◌, ◌∷◌, [], length, Ok, IfOk, IfErr, OnOk, Some, ok_or, option_copied, codes};
ghost use Rattle.json_tree.specs.Data.{depth as nesting, most_levels};
ghost use Rattle.json_tree.specs.View.{data_of};
ghost use Rattle.asl_processing.specs.Errors.{NamesError};
ghost use Rattle.asl_forward.specs.Forks.{inward, branch_frame, frames_from, parallel_frames, elements, element_input, element_frames, map_frames};
ghost use Rattle.asl_forward.specs.Outcomes.{fork_of};
ghost use Rattle.asl_processing.specs.Processing.{within_levels, effective};
ghost use Rattle.asl_frames.specs.Turn.{counters_at};

use crate::frames::Frames;
use asl_frames::machine_tree::{Branches, Level, Machine, Map, Parallel};
use asl_frames::{
    Frame, MOST_LEVELS, OwnFault, Phase, Retries, TurnFault, counters_at, effective_input, held,
};
use asl_processing::paths::{FillFault, RefPath, Template};
use json_tree::{Json, JsonList, Text, depth};
use std::alloc::{AllocError, Global};

/// The branches that a Map may have.
const BRANCHES: usize = 4096;

/// How many frames there are. Refused where no `u32` counts them.
pub(crate) fn count_of(frames: &Frames) -> Result<u32, AllocError>
    ensures { IfOk result (λ n. n ≡ length frames.now) }
{
    match u32::try_from(frames.inner.len()) {
        Ok(count) => Ok(count),
        Err(_past) => Err(AllocError),
    }
}

/// The `States` object of a branch of the frame's state.
fn inward(frame: &Frame, branch: u32) -> Result<Level, AllocError>
    ensures { IfOk result (λ l. l ≡ inward frame.now.level frame.now.state branch) }
{
    let machine = frame.level.machine.copy()?;
    let path = frame.level.path.inward(&frame.state, branch)?;
    Ok(Level { machine, path })
}

/// The frame of a branch of this machine, before its first state.
#[tactic(auto, using(asl_processing::proofs::Again::json_again))]
fn branch_frame(
    alloc: Global,
    frame: &Frame,
    machine: &Machine,
    branch: u32,
    raw: Json,
) -> Result<Frame, AllocError>
    ensures { IfOk result (λ g. g ≡ branch_frame frame.now machine.now branch (data_of raw)) }
{
    let Ok((level, state, retries)) = start_of(alloc, frame, machine, branch) else {
        drop(raw);
        return Err(AllocError);
    };
    Ok(Frame {
        level,
        state,
        raw,
        retries,
        count: 0,
        phase: Phase::Ready,
    })
}

/// Where the frame of a branch starts, with the counters of the state there.
fn start_of(
    alloc: Global,
    frame: &Frame,
    machine: &Machine,
    branch: u32,
) -> Result<(Level, Text, Retries), AllocError>
    ensures { IfOk result (λ p. (p.0 ≡ inward frame.now.level frame.now.state branch) × (p.1 ≡ machine.now.start) × (p.2 ≡ counters_at machine.now machine.now.start)) }
{
    let retries = counters_at(alloc, machine, machine.start())?;
    let state = machine.start().copy()?;
    let level = inward(frame, branch)?;
    Ok((level, state, retries))
}

/// Adds the frame of a branch of this machine.
fn begin(
    alloc: Global,
    frames: &mut Frames,
    frame: &Frame,
    machine: &Machine,
    branch: u32,
    raw: Json,
) -> Result<(), AllocError>
    ensures { OnOk result (frames.new ≡ frames.old ++ branch_frame frame.now machine.now branch (data_of raw) ∷ []) }
{
    let next = branch_frame(alloc, frame, machine, branch, raw)?;
    frames.inner.push(next)?;
    Ok(())
}

/// The frames of branches that all begin with this input.
fn begin_branches(
    alloc: Global,
    branches: &Branches,
    frame: &Frame,
    input: &Json,
) -> Result<Frames, AllocError>
    requires { nesting (data_of input.now) ≤ most_levels }
    ensures { IfOk result (λ fs. frames_from frame.now 0 branches.now (data_of input.now) ≡ Ok fs) }
{
    let mut frames = Frames::new(alloc);
    for machine in branches.as_slice() {
        let branch = count_of(&frames)?;
        begin(alloc, &mut frames, frame, machine, branch, input.copy()?)?;
    }
    Ok(frames)
}

/// The frames of a Parallel's branches, which share its effective input. Whether a frame may hold that is seen once.
#[tactic(auto, using(crate::proofs::Begun::too_deep))]
fn parallel_frames(
    alloc: Global,
    parallel: &Parallel,
    frame: &Frame,
    input: &Json,
) -> Result<Frames, TurnFault>
    ensures ok { IfOk result (λ fs. parallel_frames parallel.now frame.now (data_of input.now) ≡ Ok fs) }
    ensures fault { IfErr result (λ e. NamesError e (parallel_frames parallel.now frame.now (data_of input.now))) }
{
    if parallel.branches.len() == 0 {
        return Ok(Frames::new(alloc));
    }
    if depth(input) > MOST_LEVELS {
        return Err(TurnFault::Error(OwnFault::Runtime));
    }
    Ok(begin_branches(alloc, &parallel.branches, frame, input)?)
}

/// The frames of a Parallel's branches, from the frame's raw input.
pub(crate) fn fork_parallel(
    alloc: Global,
    parallel: &Parallel,
    frame: &Frame,
) -> Result<Frames, TurnFault>
    ensures ok { IfOk result (λ fs. fork_of (parallel_frames parallel.now) frame.now (effective parallel.now.processing (data_of frame.now.raw)) ≡ Ok fs) }
    ensures fault { IfErr result (λ e. NamesError e (fork_of (parallel_frames parallel.now) frame.now (effective parallel.now.processing (data_of frame.now.raw)))) }
{
    let input = effective_input(alloc, &parallel.processing, &frame.raw)?;
    let frames = parallel_frames(alloc, parallel, frame, &input);
    drop(input);
    frames
}

/// What an item selector makes of the effective input and of an element.
fn selected(
    alloc: Global,
    selector: &Template,
    input: &Json,
    index: u32,
    element: &Json,
) -> Result<Json, TurnFault>
    ensures ok { IfOk result (λ j. element_input (Some selector.now) (data_of input.now) index (data_of element.now) ≡ Ok (data_of j)) }
    ensures fault { IfErr result (λ e. NamesError e (element_input (Some selector.now) (data_of input.now) index (data_of element.now))) }
{
    match selector.fill(alloc, input, Some((index, element))) {
        Ok(made) => held(made),
        Err(FillFault::NoSuchNode) => Err(TurnFault::Error(OwnFault::ParameterPathFailure)),
        Err(FillFault::Memory) => Err(TurnFault::Memory),
    }
}

/// What the branch of an element begins with.
fn element_input(
    alloc: Global,
    selector: &Option<Template>,
    input: &Json,
    index: u32,
    element: &Json,
) -> Result<Json, TurnFault>
    ensures ok { IfOk result (λ j. element_input selector.now (data_of input.now) index (data_of element.now) ≡ Ok (data_of j)) }
    ensures fault { IfErr result (λ e. NamesError e (element_input selector.now (data_of input.now) index (data_of element.now))) }
{
    match selector {
        Some(selector) => selected(alloc, selector, input, index, element),
        None => held(element.copy()?),
    }
}

/// The frames of a Map's elements.
fn element_frames(
    alloc: Global,
    map: &Map,
    frame: &Frame,
    input: &Json,
    elements: &JsonList,
) -> Result<Frames, TurnFault>
    ensures ok { IfOk result (λ fs. element_frames map.now frame.now (data_of input.now) 0 elements.now ≡ Ok fs) }
    ensures fault { IfErr result (λ e. NamesError e (element_frames map.now frame.now (data_of input.now) 0 elements.now)) }
{
    let mut frames = Frames::new(alloc);
    for element in elements.as_slice() {
        let index = count_of(&frames)?;
        let raw = element_input(alloc, &map.item_selector, input, index, element)?;
        begin(alloc, &mut frames, frame, &map.processor, 0, raw)?;
    }
    Ok(frames)
}

/// The list that the items path leads to.
#[tactic(auto, using(asl_processing::proofs::Again::items_again))]
fn elements<'a>(path: &RefPath, input: &'a Json) -> Option<&'a JsonList>
    ensures { ok_or (option_copied result) (codes "States.Runtime") ≡ elements path.now (data_of input.now) }
{
    match path.pick(input) {
        Some(Json::List(list)) => Some(list),
        _ => None,
    }
}

/// The frames of a Map's elements, which are counted before any input is made.
fn map_frames(alloc: Global, map: &Map, frame: &Frame, input: &Json) -> Result<Frames, TurnFault>
    ensures ok { IfOk result (λ fs. map_frames map.now frame.now (data_of input.now) ≡ Ok fs) }
    ensures fault { IfErr result (λ e. NamesError e (map_frames map.now frame.now (data_of input.now))) }
{
    let Some(elements) = elements(&map.items_path, input) else {
        return Err(TurnFault::Error(OwnFault::Runtime));
    };
    if elements.len() > BRANCHES {
        return Err(TurnFault::Error(OwnFault::Runtime));
    }
    element_frames(alloc, map, frame, input, elements)
}

/// The frames of a Map's elements, from the frame's raw input.
pub(crate) fn fork_map(alloc: Global, map: &Map, frame: &Frame) -> Result<Frames, TurnFault>
    ensures ok { IfOk result (λ fs. fork_of (map_frames map.now) frame.now (effective map.now.processing (data_of frame.now.raw)) ≡ Ok fs) }
    ensures fault { IfErr result (λ e. NamesError e (fork_of (map_frames map.now) frame.now (effective map.now.processing (data_of frame.now.raw)))) }
{
    let input = effective_input(alloc, &map.processing, &frame.raw)?;
    let frames = map_frames(alloc, map, frame, &input);
    drop(input);
    frames
}
