// What a state that does work makes of what the work gives ("Task State", "Parallel State", "Map State").
ghost use Rattle.std.specs.Prelude.{◌≡◌, ◌+◌, ◌^◌, ◌<◌, Some, IfOk, IsSome, option_map};
ghost use Rattle.json_tree.specs.View.{data_of};
ghost use Rattle.item_store.specs.Deciding.{reply_of};
ghost use Rattle.asl_forward.specs.Results.{Work, state_work, work_at, handled, call_fault, after_result, after_answer, after_join};
ghost use Rattle.asl_frames.specs.Turn.{Location, located};

use crate::handling::handle;
use asl_frames::error_handling::ErrorHandling;
use asl_frames::machine_tree::{Machine, State};
use asl_frames::state_parts::{Processing, Transition};
use asl_frames::{Fault, Frame, Origin, TurnFault, go_on, located, output_of, own_fault};
use item_store::Answer;
use json_tree::{Json, JsonList, Text};
use std::alloc::{AllocError, Global};

/// What a state that does work has for its result: none of a state that does none. So a caller of `joined` can see what
/// it asks for.
pub fn work_of(state: &State) -> Option<(&Processing, &ErrorHandling, &Transition)>
    ensures { option_map (λ p. (p.0.now, p.1.now, p.2.now)) result ≡ state_work state.now }
{
    match state {
        State::Task(s) => Some((&s.processing, &s.errors, &s.transition)),
        State::Parallel(s) => Some((&s.processing, &s.errors, &s.transition)),
        State::Map(s) => Some((&s.processing, &s.errors, &s.transition)),
        _ => None,
    }
}

/// An error that the state's own call of the table answers. Takes memory for no cause.
pub fn call_fault(alloc: Global, error: Text) -> Result<Fault, AllocError>
    ensures { IfOk result (λ f. f ≡ call_fault error) }
{
    let Ok(cause) = Text::new(alloc, "") else {
        drop(error);
        return Err(AllocError);
    };
    Ok(Fault {
        error,
        cause,
        origin: Origin::Call,
    })
}

/// The frame after the state's work gave this.
fn after_result(
    alloc: Global,
    level: &Machine,
    state: &State,
    frame: &Frame,
    made: Json,
) -> Result<Frame, AllocError>
    requires work { IsSome (state_work state.now) }
    requires count { frame.now.count + 1 < 2 ^ 32 }
    ensures { IfOk result (λ g. (w : Work) × (state_work state.now ≡ Some w) × (g ≡ after_result level.now w frame.now (data_of made))) }
{
    let Some((processing, errors, transition)) = work_of(state) else {
        unreachable!()
    };
    match output_of(alloc, processing, &frame.raw, made) {
        Ok(output) => go_on(alloc, level, transition, frame, output),
        Err(TurnFault::Error(error)) => {
            handle(alloc, level, errors, frame, own_fault(alloc, error)?)
        }
        Err(TurnFault::Memory) => Err(AllocError),
    }
}

/// The frame after the state's call was refused.
fn after_refusal(
    alloc: Global,
    level: &Machine,
    state: &State,
    frame: &Frame,
    error: Text,
) -> Result<Frame, AllocError>
    requires work { IsSome (state_work state.now) }
    requires count { frame.now.count + 1 < 2 ^ 32 }
    ensures { IfOk result (λ g. (w : Work) × (state_work state.now ≡ Some w) × (g ≡ handled level.now w.1 frame.now (call_fault error))) }
{
    let Some((_, errors, _)) = work_of(state) else {
        unreachable!()
    };
    handle(alloc, level, errors, frame, call_fault(alloc, error)?)
}

/// The frame after what the state's call of the table answers. Takes what `next_frame` takes, and memory for the counters
/// where a retrier takes up an error.
pub fn after_answer(
    alloc: Global,
    level: &Machine,
    state: &State,
    frame: &Frame,
    answer: Answer,
) -> Result<Frame, AllocError>
    requires work { IsSome (state_work state.now) }
    requires count { frame.now.count + 1 < 2 ^ 32 }
    ensures { IfOk result (λ g. (w : Work) × (state_work state.now ≡ Some w) × (g ≡ after_answer level.now w frame.now (reply_of answer))) }
{
    match answer {
        Answer::Given(made) => after_result(alloc, level, state, frame, made),
        Answer::Refused(error) => after_refusal(alloc, level, state, frame, error),
    }
}

/// The next frame of one whose branches are all done, with these outputs in their order. The outputs are shared, and go
/// into the frame as a call's output does.
pub fn joined(
    alloc: Global,
    machine: &Machine,
    frame: &Frame,
    outputs: JsonList,
) -> Result<Frame, AllocError>
    requires works { IsSome (work_at machine.now frame.now) }
    requires count { frame.now.count + 1 < 2 ^ 32 }
    ensures { IfOk result (λ g. (at : Location) × (w : Work) × (located machine.now frame.now ≡ Some at) × (state_work at.1 ≡ Some w) × (g ≡ after_join at.0 w frame.now outputs)) }
{
    let Some((level, state)) = located(machine, frame) else {
        unreachable!()
    };
    after_result(alloc, level, state, frame, Json::List(outputs))
}
