// What a state does with an error ("Errors").
ghost use Rattle.std.specs.Prelude.{◌≡◌, ◌+◌, ◌^◌, ◌<◌, nat_lt, true, Some, IfOk, IsSome, IfSome, option_copied};
ghost use Rattle.std.specs.List.{list_any, position};
ghost use Rattle.asl_frames.specs.Retrier.{Retrier};
ghost use Rattle.json_tree.specs.View.{data_of};
ghost use Rattle.asl_forward.specs.Handling.{is_call, is_branch_origin, means, stand_for, may_try, retried, catcher_for, error_object};
ghost use Rattle.asl_forward.specs.Results.{tries_again, on_catch, handled, after_error, taken_by, after_branch};
ghost use Rattle.asl_frames.specs.Turn.{Location, located};

use asl_frames::error_handling::{Catcher, Catchers, ErrorHandling, ErrorNames, Retrier, Retriers};
use asl_frames::machine_tree::{Machine, State};
use asl_frames::{
    Fault, Frame, Origin, Phase, Retries, TurnFault, enter, failed, located, own_fault, place_held,
    same_place,
};
use json_tree::{Json, JsonFields, Text};
use std::alloc::{AllocError, Global};

fn is_call(origin: Origin) -> bool
    ensures { result ≡ is_call origin }
{
    matches!(origin, Origin::Call)
}

fn is_branch(origin: Origin) -> bool
    ensures { result ≡ is_branch_origin origin }
{
    matches!(origin, Origin::Branch)
}

/// Whether a name of `ErrorEquals` means this error, unless that is `States.Runtime`.
fn means(fault: &Fault, name: &Text) -> bool
    ensures { result ≡ means fault.now name.now }
{
    if name.as_str() == "States.ALL" {
        return true;
    }
    if name.as_str() == "States.TaskFailed" {
        return is_call(fault.origin);
    }
    if name.as_str() == "States.BranchFailed" && is_branch(fault.origin) {
        return true;
    }
    name.as_str() == fault.error.as_str()
}

/// Whether one of the names means this error, unless that is `States.Runtime`.
fn any_means(names: &ErrorNames, fault: &Fault) -> bool
    ensures { result ≡ list_any (means fault.now) names.now }
{
    for name in names.as_slice() {
        if means(fault, name) {
            return true;
        }
    }
    false
}

/// Whether one of the names stands for this error.
fn stand_for(names: &ErrorNames, fault: &Fault) -> bool
    ensures { result ≡ stand_for names.now fault.now }
{
    fault.error.as_str() != "States.Runtime" && any_means(names, fault)
}

/// The place of the first retrier that stands for an error.
fn first_for(retriers: &Retriers, fault: &Fault) -> Option<usize>
    ensures { result ≡ position (λ (r : Retrier). stand_for r.errors fault.now) retriers.now }
{
    retriers
        .as_slice()
        .iter()
        .position(|retrier| stand_for(&retrier.errors, fault))
}

fn is_less(tries: u32, most: u32) -> bool
    ensures less { result ≡ nat_lt tries most }
    ensures room { result ≡ true → tries + 1 < 2 ^ 32 }
{
    tries < most
}

/// Whether a retrier that was used so often may be used once more.
fn may_try(retrier: Option<&Retrier>, tries: Option<u32>) -> bool
    ensures may { result ≡ may_try (option_copied retrier.entry) tries }
    ensures room { result ≡ true → IfSome tries (λ n. n + 1 < 2 ^ 32) }
{
    match (retrier, tries) {
        (Some(retrier), Some(tries)) => is_less(tries, retrier.max_attempts),
        _ => false,
    }
}

/// The counters after one more use of the first retrier that stands for an error, if it may be used.
fn retried(
    retriers: &Retriers,
    retries: &Retries,
    fault: &Fault,
) -> Result<Option<Retries>, AllocError>
    ensures { IfOk result (λ o. o ≡ retried retriers.now retries.now fault.now) }
{
    let Some(place) = first_for(retriers, fault) else {
        return Ok(None);
    };
    if !may_try(retriers.as_slice().get(place), retries.get(place)) {
        return Ok(None);
    }
    Ok(Some(retries.one_more(place)?))
}

/// The first catcher that stands for an error.
fn catcher_for<'a>(catchers: &'a Catchers, fault: &Fault) -> Option<&'a Catcher>
    ensures { option_copied result ≡ catcher_for catchers.now fault.now }
{
    catchers
        .as_slice()
        .iter()
        .find(|catcher| stand_for(&catcher.errors, fault))
}

/// What a catcher places ("Error Output").
fn error_object(alloc: Global, fault: &Fault) -> Result<Json, AllocError>
    ensures { IfOk result (λ j. data_of j ≡ error_object fault.now) }
{
    let error = Json::Text(fault.error.copy()?);
    let cause = Json::Text(fault.cause.copy()?);
    let mut fields = JsonFields::new(alloc);
    drop(fields.insert(Text::new(alloc, "Error")?, error)?);
    drop(fields.insert(Text::new(alloc, "Cause")?, cause)?);
    Ok(Json::Fields(fields))
}

/// The frame before the state that a catcher goes to.
fn caught(
    alloc: Global,
    level: &Machine,
    catcher: &Catcher,
    frame: &Frame,
    fault: &Fault,
) -> Result<Frame, AllocError>
    requires { frame.now.count + 1 < 2 ^ 32 }
    ensures { IfOk result (λ g. g ≡ on_catch level.now frame.now fault.now (Some catcher.now)) }
{
    let object = error_object(alloc, fault)?;
    match place_held(alloc, &catcher.result_path, &frame.raw, object) {
        Ok(raw) => enter(alloc, level, &catcher.next, frame, raw),
        Err(TurnFault::Error(error)) => failed(frame, own_fault(alloc, error)?),
        Err(TurnFault::Memory) => Err(AllocError),
    }
}

/// The frame after an error that no retrier takes up.
fn catch(
    alloc: Global,
    level: &Machine,
    catchers: &Catchers,
    frame: &Frame,
    fault: Fault,
) -> Result<Frame, AllocError>
    requires { frame.now.count + 1 < 2 ^ 32 }
    ensures { IfOk result (λ g. g ≡ on_catch level.now frame.now fault (catcher_for catchers.now fault)) }
{
    match catcher_for(catchers, &fault) {
        Some(catcher) => {
            let next = caught(alloc, level, catcher, frame, &fault);
            drop(fault);
            next
        }
        None => failed(frame, fault),
    }
}

/// The frame before the same state again.
fn try_again(frame: &Frame, retries: Retries) -> Result<Frame, AllocError>
    requires { frame.now.count + 1 < 2 ^ 32 }
    ensures { IfOk result (λ g. g ≡ tries_again frame.now retries) }
{
    let Ok((level, state, raw)) = same_place(frame) else {
        drop(retries);
        return Err(AllocError);
    };
    Ok(Frame {
        level,
        state,
        raw,
        retries,
        count: frame.count + 1,
        phase: Phase::Ready,
    })
}

/// The frame after an error of a state with these retriers and catchers: the state is tried again, or a catcher takes the
/// error up, or the thread fails. Takes what `after_error` takes.
pub fn handle(
    alloc: Global,
    level: &Machine,
    errors: &ErrorHandling,
    frame: &Frame,
    fault: Fault,
) -> Result<Frame, AllocError>
    requires { frame.now.count + 1 < 2 ^ 32 }
    ensures { IfOk result (λ g. g ≡ handled level.now errors.now frame.now fault) }
{
    match retried(&errors.retriers, &frame.retries, &fault) {
        Ok(Some(retries)) => {
            drop(fault);
            try_again(frame, retries)
        }
        Ok(None) => catch(alloc, level, &errors.catchers, frame, fault),
        Err(refused) => {
            drop(fault);
            Err(refused)
        }
    }
}

/// The frame after an error of this state, which may have no retriers and catchers.
fn after_error_of(
    alloc: Global,
    level: &Machine,
    state: &State,
    frame: &Frame,
    fault: Fault,
) -> Result<Frame, AllocError>
    requires { frame.now.count + 1 < 2 ^ 32 }
    ensures { IfOk result (λ g. g ≡ after_error (level.now, state.now) frame.now fault) }
{
    match state {
        State::Task(state) => handle(alloc, level, &state.errors, frame, fault),
        State::Parallel(state) => handle(alloc, level, &state.errors, frame, fault),
        State::Map(state) => handle(alloc, level, &state.errors, frame, fault),
        _ => failed(frame, fault),
    }
}

/// The next frame of one whose state met this error, which it need not have met by itself: the state is tried again, or a
/// catcher takes the error up, or the thread fails. Looks at each retrier and each catcher to the first that stands for
/// the error. Takes memory for the retriers' counters, and what `next_frame` takes where a catcher places the error.
pub fn after_error(
    alloc: Global,
    machine: &Machine,
    frame: &Frame,
    fault: Fault,
) -> Result<Frame, AllocError>
    requires stands { IsSome (located machine.now frame.now) }
    requires count { frame.now.count + 1 < 2 ^ 32 }
    ensures { IfOk result (λ g. (at : Location) × (located machine.now frame.now ≡ Some at) × (g ≡ after_error at frame.now fault)) }
{
    let Some((level, state)) = located(machine, frame) else {
        unreachable!()
    };
    after_error_of(alloc, level, state, frame, fault)
}

/// The error that a state takes from a branch of it.
fn taken_by(state: &State, fault: &Fault) -> Result<Fault, AllocError>
    ensures { IfOk result (λ f. f ≡ taken_by state.now fault.now) }
{
    let error = fault.error.copy()?;
    let cause = fault.cause.copy()?;
    let origin = match state {
        State::Parallel(_) => Origin::Branch,
        _ => Origin::Other,
    };
    Ok(Fault {
        error,
        cause,
        origin,
    })
}

/// The next frame of one whose branch ended with this error. It is as after an error, and `States.BranchFailed` stands for
/// one that a Parallel state takes from a branch.
pub fn after_branch(
    alloc: Global,
    machine: &Machine,
    frame: &Frame,
    fault: &Fault,
) -> Result<Frame, AllocError>
    requires stands { IsSome (located machine.now frame.now) }
    requires count { frame.now.count + 1 < 2 ^ 32 }
    ensures { IfOk result (λ g. (at : Location) × (located machine.now frame.now ≡ Some at) × (g ≡ after_branch at frame.now fault.now)) }
{
    let Some((level, state)) = located(machine, frame) else {
        unreachable!()
    };
    let taken = taken_by(state, fault)?;
    after_error_of(alloc, level, state, frame, taken)
}
