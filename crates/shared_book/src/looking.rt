// What a caller is shown. It adds no entry.
ghost use Rattle.std.specs.Prelude.{◌≡◌, length, IfOk, IfErr, Ok, OnOk};
ghost use Rattle.book_log.specs.Log.{left_of};
ghost use Rattle.book_log.specs.declared.refusal.Refusal.TheVariants.{Memory};
ghost use Rattle.shared_book.specs.Calls.{IsRefused, IsRefusedFor, Sees, frame_answer};

use crate::desk::Desk;
use crate::pass::Pass;
use crate::refusal::SharedRefusal;
use crate::sharing::Sharing;
use book_events::Events;
use book_log::turns::Frame;
use step_names::ThreadName;

/// A thread's frame, and how many entries the log had then.
#[derive(Debug, Drop)]
pub struct Shown {
    pub frame: Frame,
    pub entries: usize,
}

/// How many steps are left of a hold, none without one, and how many entries the log had then.
#[derive(Clone, Copy, Debug)]
pub struct HeldLeft {
    pub left: usize,
    pub entries: usize,
}

impl<B: Events, L: Sharing> Desk<B, L> {
    pub(crate) fn show(
        &self,
        pass: &mut Pass<L>,
        thread: &ThreadName,
    ) -> Result<Shown, SharedRefusal>
        ensures shown { IfOk result (λ s. (s.entries ≡ length self.now.log.entries) × (frame_answer self.now.log thread.now ≡ Ok s.frame)) }
        ensures seen { OnOk result (Sees L.begun pass.old pass.new self.now.log) }
        ensures err { IfErr result (λ e. IsRefused L.begun (λ at. frame_answer at thread.now) pass.old e × (pass.new ≡ pass.old)) }
    {
        let entries = self.know(pass)?;
        let frame = self.book.show(thread)?;
        let frame = frame.copy()?;
        pass.kept.seen = entries;
        Ok(Shown { frame, entries })
    }

    pub(crate) fn held_left(&self, pass: &mut Pass<L>) -> Result<HeldLeft, SharedRefusal>
        ensures left { IfOk result (λ s. (s.entries ≡ length self.now.log.entries) × (s.left ≡ length (left_of self.now.log))) }
        ensures seen { OnOk result (Sees L.begun pass.old pass.new self.now.log) }
        ensures err { IfErr result (λ e. IsRefusedFor L.begun pass.old (λ cause. cause ≡ Memory) e × (pass.new ≡ pass.old)) }
    {
        let seen = self.know(pass)?;
        pass.kept.seen = seen;
        Ok(HeldLeft {
            left: self.book.held_left(),
            entries: seen,
        })
    }
}
