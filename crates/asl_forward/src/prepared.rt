// A turn that is made ready apart from where its frame is kept.
ghost use Rattle.std.specs.Prelude.{◌≡◌, ◌+◌, ◌^◌, ◌<◌, Some, IfOk, IsSome};
ghost use Rattle.std.specs.Coded.{codes};
ghost use Rattle.std.proofs.Props.{props};
ghost use Rattle.asl_forward.specs.Planned.{turn_at};
ghost use Rattle.asl_frames.specs.Turn.{located};
ghost use Rattle.asl_frames.specs.contracts.frame.Phase as phase_contract;
ghost use Rattle.asl_forward.specs.contracts.prepared.Outcome as outcome_contract;
ghost use Rattle.asl_frames.specs.declared.frame.Phase.TheVariants.{Ready};

use crate::frames::Frames;
use crate::outcomes::turn;
use asl_frames::machine_tree::{Machine, SharedMachine, State};
use asl_frames::{Frame, Phase, located};
use item_store::Call;
use std::alloc::{AllocError, Global};

/// What a turn comes to.
#[derive(Debug, Drop)]
pub enum Outcome {
    /// The thread's next frame.
    Next(Frame),
    /// A call of the table, whose answer decides the next frame (`finish`).
    Call(Call),
    /// The thread's next frame, parked over the branches that begin with these frames, in order.
    Fork(Frame, Frames),
}

/// A turn that was prepared: the frame and the machine that it was made of, and what it comes to.
#[derive(Debug, Drop)]
pub struct Prepared {
    frame: Frame,
    machine: SharedMachine,
    outcome: Outcome,
    pub ghost ready: { frame.phase ≡ Ready } by { Prim.hlevel (props, codes, phase_contract.the_row.coded) },
    pub ghost countable: { frame.count + 1 < 2 ^ 32 },
    pub ghost turns: { turn_at machine frame ≡ Some outcome } by { Prim.hlevel (props, codes, outcome_contract.the_row.coded) },
}

impl Prepared {
    /// The frame that it was made of, which is ready.
    pub fn frame(&self) -> &Frame
        ensures { result.now ≡ self.now.frame }
    {
        &self.frame
    }

    /// The machine in which the frame stands.
    pub fn machine(&self) -> &SharedMachine
        ensures { result.now ≡ self.now.machine }
    {
        &self.machine
    }

    /// What the turn comes to.
    pub fn outcome(&self) -> &Outcome
        ensures { result.now ≡ self.now.outcome }
    {
        &self.outcome
    }

    /// The frame, the machine and what the turn comes to.
    pub fn into_parts(self) -> (Frame, SharedMachine, Outcome)
        ensures { result ≡ (self.frame, self.machine, self.outcome) }
    {
        let Prepared {
            frame,
            machine,
            outcome,
        } = self;
        (frame, machine, outcome)
    }
}

/// Prepares the turn of a frame that is ready, in its machine. Takes what `next_frame` takes, and memory for a call's item,
/// for the branches' frames of a fork, and for the names that the frame keeps once more.
pub fn prepare(
    alloc: Global,
    machine: &SharedMachine,
    frame: &Frame,
) -> Result<Prepared, AllocError>
    requires ready { frame.now.phase ≡ Phase.Ready }
    requires stands { IsSome (located machine.now frame.now) }
    requires count { frame.now.count + 1 < 2 ^ 32 }
    ensures frame { IfOk result (λ p. p.frame ≡ frame.now) }
    ensures machine { IfOk result (λ p. p.machine ≡ machine.now) }
    ensures outcome { IfOk result (λ p. turn_at machine.now frame.now ≡ Some p.outcome) }
{
    let Some((level, state)) = located(machine.machine(), frame) else {
        unreachable!()
    };
    prepare_at(alloc, machine, level, state, frame)
}

/// The same of a frame whose level and state are at hand: these are looked up once. Takes what `prepare` takes.
pub fn prepare_at(
    alloc: Global,
    machine: &SharedMachine,
    level: &Machine,
    state: &State,
    frame: &Frame,
) -> Result<Prepared, AllocError>
    requires ready { frame.now.phase ≡ Phase.Ready }
    requires stands { located machine.now frame.now ≡ Some (level.now, state.now) }
    requires count { frame.now.count + 1 < 2 ^ 32 }
    ensures frame { IfOk result (λ p. p.frame ≡ frame.now) }
    ensures machine { IfOk result (λ p. p.machine ≡ machine.now) }
    ensures outcome { IfOk result (λ p. turn_at machine.now frame.now ≡ Some p.outcome) }
{
    let outcome = turn(alloc, level, state, frame)?;
    let (Ok(kept), Ok(machine)) = (frame.copy(), machine.share()) else {
        drop(outcome);
        return Err(AllocError);
    };
    Ok(Prepared {
        frame: kept,
        machine,
        outcome,
    })
}
