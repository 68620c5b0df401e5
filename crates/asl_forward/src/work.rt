// What comes of a turn whose call of the table was answered ("Task State").
ghost use Rattle.std.specs.Prelude.{◌≡◌, ◌+◌, ◌^◌, ◌<◌, Some, IfOk};
ghost use Rattle.item_store.specs.Deciding.{reply_of};
ghost use Rattle.asl_forward.specs.Results.{Work, state_work, after_answer};
ghost use Rattle.asl_forward.specs.Planned.{IsAsking};
ghost use Rattle.asl_frames.specs.Turn.{Location, located};

use crate::work_results::after_answer;
use asl_frames::machine_tree::SharedMachine;
use asl_frames::{Frame, located};
use item_store::Answer;
use std::alloc::{AllocError, Global};

/// The next frame of one whose turn comes to a call, of a prepared turn's parts: the call itself has gone to the table. Takes what
/// `next_frame` takes, and memory for the counters if a retrier takes up an error.
pub fn finish(
    alloc: Global,
    machine: &SharedMachine,
    frame: &Frame,
    answer: Answer,
) -> Result<Frame, AllocError>
    requires count { frame.now.count + 1 < 2 ^ 32 }
    requires asks { IsAsking machine.now frame.now }
    ensures { IfOk result (λ g. (at : Location) × (w : Work)
        × (located machine.now frame.now ≡ Some at) × (state_work at.1 ≡ Some w) × (g ≡ after_answer at.0 w frame.now (reply_of answer))) }
{
    let Some((level, state)) = located(machine.machine(), frame) else {
        unreachable!()
    };
    after_answer(alloc, level, state, frame, answer)
}
