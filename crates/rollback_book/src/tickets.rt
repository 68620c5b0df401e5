// Tickets of threads that have a move.
ghost use Rattle.std.specs.Prelude.{MatchResult};
ghost use Rattle.book_events.specs.Tickets.{AnswersTicket, IsTicketRefusal, IsTicketed};

use crate::book::Book;
use crate::machines::machine_in;
use crate::stepping::is_enabled;
use asl_machine::SharedMachine;
use book_events::Ticket;
use book_log::Refusal;
use std::alloc::AllocError;
use step_history::turns::Frame;
use step_names::ThreadName;

impl Book {
    /// The ticket of a thread that has a move: its name, a copy of its frame and a share of the frame's machine. Takes memory for
    /// names and counters; values are shared.
    ///
    /// # Errors
    ///
    /// `NoThread`, `NotReady` and `Memory`, in this order.
    pub fn ticket(&self, thread: &ThreadName) -> Result<Ticket, Refusal>
        ensures { AnswersTicket self.now.log thread.now result }
    {
        let (machine, frame) = self.moving(thread)?;
        match Ticket::new(thread, frame, machine) {
            Ok(ticket) => Ok(ticket),
            Err(AllocError) => Err(Refusal::Memory),
        }
    }

    /// The machine and the frame of a thread that has a move.
    fn moving(&self, thread: &ThreadName) -> Result<(&SharedMachine, &Frame), Refusal>
        ensures { MatchResult result
            (λ p. IsTicketed self.now.log thread.now p.0.now p.1.now)
            (IsTicketRefusal self.now.log thread.now) }
    {
        let Some((frame, readiness)) = self.history.look_up(thread) else {
            return Err(Refusal::NoThread);
        };
        if !is_enabled(readiness) {
            return Err(Refusal::NotReady(readiness));
        }
        let Some(machine) = machine_in(&self.machines, &frame.level.machine) else {
            unreachable!()
        };
        Ok((machine, frame))
    }
}
