// Copies of frames, which share their values.
ghost use Rattle.std.specs.Prelude.{◌≡◌, IfOk};

use crate::frame::{Fault, Frame, Phase};
use crate::turn::same_place;
use std::alloc::AllocError;

impl Fault {
    /// An equal fault. Takes memory for long texts.
    pub fn copy(&self) -> Result<Fault, AllocError>
        ensures { IfOk result (λ f. f ≡ self.now) }
    {
        let error = self.error.copy()?;
        let cause = self.cause.copy()?;
        Ok(Fault {
            error,
            cause,
            origin: self.origin,
        })
    }
}

impl Phase {
    /// An equal phase, which shares its output. Takes memory for a fault's long texts.
    pub fn copy(&self) -> Result<Phase, AllocError>
        ensures { IfOk result (λ p. p ≡ self.now) }
    {
        match self {
            Phase::Ready => Ok(Phase::Ready),
            Phase::Parked(branches, bound) => Ok(Phase::Parked(*branches, *bound)),
            Phase::Done(output) => Ok(Phase::Done(output.copy()?)),
            Phase::Failed(fault) => Ok(Phase::Failed(fault.copy()?)),
        }
    }
}

impl Frame {
    /// An equal frame, which shares its raw input and its output. Takes memory for long names and for the counters.
    pub fn copy(&self) -> Result<Frame, AllocError>
        ensures { IfOk result (λ f. f ≡ self.now) }
    {
        let phase = self.phase.copy()?;
        let Ok((level, state, raw)) = same_place(self) else {
            drop(phase);
            return Err(AllocError);
        };
        let Ok(retries) = self.retries.copy() else {
            drop(phase);
            return Err(AllocError);
        };
        Ok(Frame {
            level,
            state,
            raw,
            retries,
            count: self.count,
            phase,
        })
    }
}
