// The call that takes a turn which was prepared outside of the lock.
ghost use Rattle.std.specs.Prelude.{◌≡◌, true, IfOk, IfErr};
ghost use Rattle.shared_book.specs.Calls.{IsStepOf};
ghost use Rattle.shared_book.specs.Away.{WasRefused, claim_ended};
ghost use Rattle.shared_book.specs.Commits.{GivesTurnAt, IsNotTaken, IsNotTakenAt, after_turn, is_turn_held, shared_refusal};
ghost use Rattle.shared_book.specs.Entering.{desk_after};
ghost use Rattle.shared_book.specs.Views.{with_claims};

use crate::changing::{finish, step_entry};
use crate::desk::Desk;
use crate::pass::Pass;
use crate::receipt::Receipt;
use crate::refusal::{SharedCommitRefusal, SharedRefusal};
use crate::sharing::Sharing;
use book_events::turns::Prepared;
use book_events::{CommitRefusal, Events, Ticket};
use book_log::Refusal;
use std::alloc::Global;
use step_names::ThreadName;

impl<B: Events, L: Sharing> Desk<B, L> {
    pub(crate) fn commit(
        &mut self,
        alloc: Global,
        pass: &mut Pass<L>,
        ticket: Ticket,
        prepared: Prepared,
    ) -> Result<Receipt, SharedCommitRefusal>
        ensures after { IfOk result (GivesTurnAt L.begun self.old.log ticket.thread prepared pass.old pass.new) }
        ensures entry { IfOk result (λ r. IsStepOf ticket.thread r.entry) }
        ensures entries { IfOk result (λ r. self.new ≡ with_claims (desk_after self.old r.entry) (claim_ended self.old.claims ticket.thread)) }
        ensures err { IfErr result (λ e. IsNotTaken L.begun ticket.thread prepared pass.old e × (pass.new ≡ pass.old) × (self.new ≡ after_turn self.old ticket.thread e)) }
        ensures cause { IfErr result (IsNotTakenAt self.old.log ticket.thread prepared pass.old) }
    {
        let answer = self.take_turn(alloc, pass, ticket.thread(), prepared);
        match &answer {
            Ok(_) => self.end_claim(ticket.thread()),
            Err(refusal) => self.end_refused(ticket.thread(), refusal),
        }
        answer
    }

    fn take_turn(
        &mut self,
        alloc: Global,
        pass: &mut Pass<L>,
        thread: &ThreadName,
        prepared: Prepared,
    ) -> Result<Receipt, SharedCommitRefusal>
        ensures after { IfOk result (GivesTurnAt L.begun self.old.log thread.now prepared pass.old pass.new) }
        ensures entry { IfOk result (λ r. IsStepOf thread.now r.entry) }
        ensures entries { IfOk result (λ r. self.new ≡ desk_after self.old r.entry) }
        ensures err { IfErr result (λ e. IsNotTaken L.begun thread.now prepared pass.old e × (pass.new ≡ pass.old) × (self.new ≡ self.old)) }
        ensures cause { IfErr result (IsNotTakenAt self.old.log thread.now prepared pass.old) }
        ensures held { IfErr result (λ e. is_turn_held e ≡ true → WasRefused self.old.log thread.now) }
    {
        let number = match self.admit(&mut pass.kept) {
            Ok(number) => number,
            Err(refusal) => {
                drop(prepared);
                return Err(SharedCommitRefusal::Refused(refusal));
            }
        };
        let Ok(copy) = thread.copy() else {
            drop(prepared);
            return Err(SharedCommitRefusal::Refused(SharedRefusal::Refused(Refusal::Memory)));
        };
        let moved = match self.book.commit(alloc, thread, prepared) {
            Ok(moved) => moved,
            Err(refusal) => {
                drop(copy);
                return Err(not_taken(refusal));
            }
        };
        let entry = step_entry(copy, moved);
        Ok(finish(&mut self.side, &mut pass.kept, number, entry))
    }
}

/// How the book's refusal of a turn is told.
fn not_taken(refusal: CommitRefusal) -> SharedCommitRefusal
    ensures { result ≡ shared_refusal refusal }
{
    match refusal {
        CommitRefusal::Stale(why, prepared) => SharedCommitRefusal::Stale(why, prepared),
        CommitRefusal::Held(step, prepared) => SharedCommitRefusal::Held(step, prepared),
        CommitRefusal::Refused(refusal) => {
            SharedCommitRefusal::Refused(SharedRefusal::Refused(refusal))
        }
    }
}
