// What a thread's move is to do.
ghost use Rattle.std.specs.Prelude.{◌≡◌, ◌<◌, ◌≤◌, ◌+◌, ◌^◌, List, length, IfOk, IfSome, IsSome, Some, None, is_some, option_copied, option_map, false};
ghost use Rattle.json_tree.specs.View.{data_of};
ghost use Rattle.asl_forward.specs.Results.{state_work, work_at};
ghost use Rattle.asl_frames.specs.Turn.{located};
ghost use Rattle.step_names.specs.Thread.{child_of};
ghost use Rattle.saved_steps.specs.Effects.{first_fault, outputs, waits};
ghost use Rattle.saved_steps.specs.Held.{frames_of};
ghost use Rattle.saved_steps.specs.World.{Setting, World};
ghost use Rattle.step_history.specs.History.{TakenStep, IsHistory, IsSomeHistory};
ghost use Rattle.step_history.specs.Levels.{HasNamesBelow};
ghost use Rattle.step_history.specs.Moves.{IsMachineOf, IsMoveOf, IsCloseOf, branches_of, fault_in, output_in};

use crate::history::History;
use asl_forward::{Fault, Frame, Phase, after_branch, joined, located, prepare_at};
use asl_tree::{Machine, SharedMachine, State};
use json_tree::{Json, JsonList};
use saved_steps::{Next, nexts_are_moves};
use std::alloc::{AllocError, Global};
use step_names::{NameFault, ThreadName};

/// Whether a state's work has a result.
fn has_work(state: &State) -> bool
    ensures { result ≡ is_some (state_work state.now) }
{
    matches!(state, State::Task(_) | State::Parallel(_) | State::Map(_))
}

impl History {
    /// What the move of a thread with this frame, which may begin, is to do, in the machine of the frame's level; none, where it
    /// waits for its branches, is done, has failed or stands nowhere in this machine. Takes what `prepare_at`, `joined` and `after_branch` take, and memory for the
    /// name of each branch in turn; the outputs of branches are shared.
    pub fn next_of(
        &self,
        alloc: Global,
        machine: &SharedMachine,
        thread: &ThreadName,
        frame: &Frame,
    ) -> Result<Option<Next>, AllocError>
        requires history { IsSomeHistory self.now }
        requires frame { frames_of self.now.world thread.now ≡ Some frame.now }
        requires count { frame.now.count + 1 < 2 ^ 32 }
        requires depth { IfSome (frames_of self.now.world thread.now) (HasNamesBelow thread.now) }
        requires begins { frame.now.phase ≡ Phase.Ready → waits (frames_of self.now.world) thread.now frame.now ≡ false }
        ensures { IfOk result (λ next. (s : Setting) (base : World) (ts : List TakenStep) → IsHistory s base ts self.now
            → IsMachineOf s (frames_of self.now.world thread.now) machine.now → IsMoveOf s self.now.world thread.now next) }
    {
        nexts_are_moves();
        let Some((level, state)) = located(machine.machine(), frame) else {
            return Ok(None);
        };
        match &frame.phase {
            Phase::Ready => {
                let prepared = prepare_at(alloc, machine, level, state, frame)?;
                Ok(Some(Next::Work(prepared)))
            }
            Phase::Parked(branches, _) => {
                let works = has_work(state);
                self.close_of(alloc, machine.machine(), thread, frame, *branches, works)
            }
            Phase::Done(_) | Phase::Failed(_) => Ok(None),
        }
    }

    /// The frame after the fork of a parked thread is closed, where a branch has failed or all are done.
    fn close_of(
        &self,
        alloc: Global,
        machine: &Machine,
        thread: &ThreadName,
        frame: &Frame,
        branches: u32,
        works: bool,
    ) -> Result<Option<Next>, AllocError>
        requires fork { 1 ≤ frame.now.count }
        requires depth { 1 ≤ branches → length thread.now.path < 31 }
        requires count { frame.now.count + 1 < 2 ^ 32 }
        requires stands { IsSome (located machine.now frame.now) }
        requires works { works ≡ is_some (work_at machine.now frame.now) }
        ensures { IfOk result (λ next. IsCloseOf machine.now frame.now (branches_of self.now.world thread.now frame.now.count 0 branches) next) }
    {
        if let Some(fault) = self.first_fault(alloc, thread, frame.count, branches)? {
            let next = after_branch(alloc, machine, frame, fault)?;
            return Ok(Some(Next::Terminate(next)));
        }
        if !works {
            return Ok(None);
        }
        let Some(outputs) = self.outputs(alloc, thread, frame.count, branches)? else {
            return Ok(None);
        };
        let next = joined(alloc, machine, frame, outputs)?;
        Ok(Some(Next::Join(next)))
    }

    /// The frame of a branch of a thread.
    fn branch(
        &self,
        alloc: Global,
        thread: &ThreadName,
        fork: u32,
        number: u32,
    ) -> Result<Option<&Frame>, AllocError>
        requires fork { 1 ≤ fork }
        requires depth { length thread.now.path < 31 }
        ensures { IfOk result (λ f. option_copied f ≡ frames_of self.now.world (child_of thread.now fork number)) }
    {
        match thread.child(alloc, fork, number) {
            Ok(child) => Ok(self.world.frame(&child)),
            Err(NameFault::Memory) => Err(AllocError),
            Err(NameFault::BadName) => unreachable!(),
        }
    }

    /// The error of a branch that has failed.
    fn branch_fault(
        &self,
        alloc: Global,
        thread: &ThreadName,
        fork: u32,
        number: u32,
    ) -> Result<Option<&Fault>, AllocError>
        requires fork { 1 ≤ fork }
        requires depth { length thread.now.path < 31 }
        ensures { IfOk result (λ f. option_copied f ≡ fault_in (frames_of self.now.world (child_of thread.now fork number))) }
    {
        let Some(frame) = self.branch(alloc, thread, fork, number)? else {
            return Ok(None);
        };
        match &frame.phase {
            Phase::Failed(fault) => Ok(Some(fault)),
            Phase::Ready | Phase::Parked(_, _) | Phase::Done(_) => Ok(None),
        }
    }

    /// The output of a branch that is done.
    fn branch_output(
        &self,
        alloc: Global,
        thread: &ThreadName,
        fork: u32,
        number: u32,
    ) -> Result<Option<&Json>, AllocError>
        requires fork { 1 ≤ fork }
        requires depth { length thread.now.path < 31 }
        ensures { IfOk result (λ j. option_map (λ x. data_of x.now) j ≡ output_in (frames_of self.now.world (child_of thread.now fork number))) }
    {
        let Some(frame) = self.branch(alloc, thread, fork, number)? else {
            return Ok(None);
        };
        match &frame.phase {
            Phase::Done(output) => Ok(Some(output)),
            Phase::Ready | Phase::Parked(_, _) | Phase::Failed(_) => Ok(None),
        }
    }

    /// The error of the first branch that has failed.
    fn first_fault(
        &self,
        alloc: Global,
        thread: &ThreadName,
        fork: u32,
        branches: u32,
    ) -> Result<Option<&Fault>, AllocError>
        requires fork { 1 ≤ fork }
        requires depth { 1 ≤ branches → length thread.now.path < 31 }
        ensures { IfOk result (λ f. option_copied f ≡ first_fault (branches_of self.now.world thread.now fork 0 branches)) }
    {
        for number in 0..branches {
            if let Some(fault) = self.branch_fault(alloc, thread, fork, number)? {
                return Ok(Some(fault));
            }
        }
        Ok(None)
    }

    /// The outputs of all branches, in order, where all are done.
    fn outputs(
        &self,
        alloc: Global,
        thread: &ThreadName,
        fork: u32,
        branches: u32,
    ) -> Result<Option<JsonList>, AllocError>
        requires fork { 1 ≤ fork }
        requires depth { 1 ≤ branches → length thread.now.path < 31 }
        ensures { IfOk result (λ l. l ≡ outputs (branches_of self.now.world thread.now fork 0 branches)) }
    {
        let mut shared = Vec::new(alloc);
        for number in 0..branches {
            let Some(output) = self.branch_output(alloc, thread, fork, number)? else {
                return Ok(None);
            };
            shared.push(output.copy()?)?;
        }
        Ok(Some(JsonList::from_vec(shared)?))
    }
}
