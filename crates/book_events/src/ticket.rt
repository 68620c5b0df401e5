// A ticket: what a thread's next move is prepared of, apart from the book.
ghost use Rattle.std.specs.Prelude.{◌≡◌, ◌+◌, ◌<◌, ◌^◌, IfOk, IsSome};
ghost use Rattle.step_history.specs.Turn.{located};

use asl_machine::SharedMachine;
use std::alloc::AllocError;
use step_history::turns::Frame;
use step_names::ThreadName;

/// A thread that had a move: its name, a copy of its frame, and a share of the frame's machine. Where the frame is ready,
/// `prepare` takes both, with no hold of the book; `commit` then takes the name and what was prepared.
#[derive(Drop)]
pub struct Ticket {
    thread: ThreadName,
    frame: Frame,
    machine: SharedMachine,
    pub ghost stands: { IsSome (located machine frame) },
    pub ghost countable: { frame.count + 1 < 2 ^ 32 },
}

impl Ticket {
    /// Takes memory for the names and the counters that the frame keeps.
    pub fn new(
        thread: &ThreadName,
        frame: &Frame,
        machine: &SharedMachine,
    ) -> Result<Ticket, AllocError>
        requires stands { IsSome (located machine.now frame.now) }
        requires few { frame.now.count + 1 < 2 ^ 32 }
        ensures thread { IfOk result (λ k. k.thread ≡ thread.now) }
        ensures frame { IfOk result (λ k. k.frame ≡ frame.now) }
        ensures machine { IfOk result (λ k. k.machine ≡ machine.now) }
    {
        let thread = thread.copy()?;
        let frame = frame.copy()?;
        let Ok(machine) = machine.share() else {
            drop(frame);
            return Err(AllocError);
        };
        Ok(Ticket {
            thread,
            frame,
            machine,
        })
    }

    /// The thread's name.
    pub fn thread(&self) -> &ThreadName
        ensures { result.now ≡ self.now.thread }
    {
        &self.thread
    }

    /// The frame that the thread had.
    pub fn frame(&self) -> &Frame
        ensures { result.now ≡ self.now.frame }
    {
        &self.frame
    }

    /// The machine in which the frame stands.
    pub fn machine(&self) -> &SharedMachine
        ensures { result.now ≡ self.now.machine }
    {
        &self.machine
    }
}
