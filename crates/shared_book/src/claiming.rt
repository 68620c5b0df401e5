// Which threads callers claim, as tickets, and how a claim ends.
ghost use Rattle.std.specs.Prelude.{◌≡◌, length, IfOk, IfErr, MatchResult, OnErr, OnOk, true};
ghost use Rattle.book_log.specs.declared.refusal.Refusal.TheVariants.{Memory};
ghost use Rattle.book_log.specs.Log.{world_of};
ghost use Rattle.book_events.specs.Cursors.{cursor_place};
ghost use Rattle.book_events.specs.First.{IsFirstReady};
ghost use Rattle.shared_book.specs.Away.{AreAway, AreOutside, LeavesOutMore, PassesNoOther, WasRefused, claim_ended, claimed_with, is_thread_among, passed_by};
ghost use Rattle.shared_book.specs.Calls.{IsRefusedFor, Sees, after_refusal, is_held};
ghost use Rattle.shared_book.specs.Claims.{IsClaim, IsClaimable, IsOffer, thread_of, thread_offered};
ghost use Rattle.shared_book.specs.Commits.{after_turn, is_turn_held};
ghost use Rattle.shared_book.specs.Seeking.{IsSought};
ghost use Rattle.shared_book.specs.Views.{with_claims};

use crate::claims::Claims;
use crate::desk::Desk;
use crate::pass::Pass;
use crate::refusal::{SharedCommitRefusal, SharedRefusal};
use crate::sharing::Sharing;
use book_events::{Cursor, Events, Ticket};
use book_log::Refusal;
use std::alloc::{AllocError, Global};
use step_names::ThreadName;

/// After each name of an execution.
const AFTER_ALL: &str = "~";

/// What a caller is offered: a ticket where a thread has a move that nobody has claimed and isn't passed by, and else whether others
/// are at work.
#[derive(Drop)]
pub enum Offer {
    /// The least such thread, which is claimed now.
    Ticket(Ticket),
    /// So many claims are out, at least one. A claim may end, and a move may ready other threads.
    Busy(usize),
    /// No claim is out.
    Idle,
}

impl<B: Events, L: Sharing> Desk<B, L> {
    pub(crate) fn claim(
        &mut self,
        alloc: Global,
        pass: &mut Pass<L>,
    ) -> Result<Option<Ticket>, SharedRefusal>
        ensures claim { IfOk result (IsClaim self.old.log self.old.claims) }
        ensures away { OnOk result (AreAway self.old.log self.old.claims) }
        ensures claimed { IfOk result (λ found. self.new ≡ with_claims self.old (claimed_with self.old.claims (thread_of found))) }
        ensures seen { OnOk result (Sees L.begun pass.old pass.new self.old.log) }
        ensures err { IfErr result (λ e. IsRefusedFor L.begun pass.old (λ cause. cause ≡ Memory) e × (pass.new ≡ pass.old) × (self.new ≡ self.old)) }
    {
        let seen = self.know(pass)?;
        let found = self.first_ticket(alloc)?;
        if note(&mut self.side.claims, &found).is_err() {
            drop(found);
            return Err(SharedRefusal::Refused(Refusal::Memory));
        }
        move_on(&mut self.side.cursor, &found);
        pass.kept.seen = seen;
        Ok(found)
    }

    pub(crate) fn offer(
        &mut self,
        alloc: Global,
        pass: &mut Pass<L>,
    ) -> Result<Offer, SharedRefusal>
        ensures offer { IfOk result (IsOffer self.old.log self.old.claims) }
        ensures away { OnOk result (AreAway self.old.log self.old.claims) }
        ensures claimed { IfOk result (λ offer. self.new ≡ with_claims self.old (claimed_with self.old.claims (thread_offered offer))) }
        ensures seen { OnOk result (Sees L.begun pass.old pass.new self.old.log) }
        ensures err { IfErr result (λ e. IsRefusedFor L.begun pass.old (λ cause. cause ≡ Memory) e × (pass.new ≡ pass.old) × (self.new ≡ self.old)) }
    {
        match self.claim(alloc, pass) {
            Ok(Some(ticket)) => Ok(Offer::Ticket(ticket)),
            Ok(None) => match self.claims_out() {
                0 => Ok(Offer::Idle),
                claims => Ok(Offer::Busy(claims)),
            },
            Err(refusal) => Err(refusal),
        }
    }

    pub(crate) fn give_back(&mut self, ticket: Ticket)
        ensures { self.new ≡ with_claims self.old (claim_ended self.old.claims ticket.thread) }
    {
        self.end_claim(ticket.thread());
    }

    pub(crate) fn end_claim(&mut self, thread: &ThreadName)
        ensures { self.new ≡ with_claims self.old (claim_ended self.old.claims thread.now) }
    {
        self.side.claims.end(thread);
        self.side.cursor.go_back(thread.exec());
    }

    /// Passes a claimed thread by, whose move is refused for a hold.
    fn pass_by(&mut self, thread: &ThreadName)
        requires { WasRefused self.old.log thread.now }
        ensures { self.new ≡ with_claims self.old (passed_by self.old.claims thread.now) }
    {
        self.side.claims.pass_by(thread);
    }

    /// What becomes of a thread's claim after the refusal of its step.
    pub(crate) fn note_refusal(&mut self, thread: &ThreadName, refusal: &SharedRefusal)
        requires { is_held refusal.now ≡ true → WasRefused self.old.log thread.now }
        ensures { self.new ≡ after_refusal self.old thread.now refusal.now }
    {
        if refusal.is_held() {
            self.pass_by(thread);
        }
    }

    /// What becomes of it after the refusal of its turn.
    pub(crate) fn end_refused(&mut self, thread: &ThreadName, refusal: &SharedCommitRefusal)
        requires { is_turn_held refusal.now ≡ true → WasRefused self.old.log thread.now }
        ensures { self.new ≡ after_turn self.old thread.now refusal.now }
    {
        if refusal.is_held() {
            self.pass_by(thread);
        } else {
            self.end_claim(thread);
        }
    }

    /// The ticket of the least thread that has a move, and is neither claimed nor passed by.
    fn first_ticket(&self, alloc: Global) -> Result<Option<Ticket>, Refusal>
        ensures found { MatchResult result (IsClaim self.now.log self.now.claims) (λ e. e ≡ Memory) }
        ensures claimed { AreOutside self.now.claims }
        ensures ready { IfOk result (λ found. IsFirstReady (world_of self.now.log).frames (is_thread_among self.now.claims.outside) (thread_of found)) }
    {
        let outside = self.side.claims.outside();
        let cursor = &self.side.cursor;
        match self
            .book
            .first_ready_from(alloc, &cursor.exec, &cursor.path, outside)?
        {
            Some(thread) => Ok(Some(self.book.ticket(&thread)?)),
            None => Ok(None),
        }
    }

    /// How many claims are out.
    fn claims_out(&self) -> usize
        ensures { result ≡ length self.now.claims.claimed }
    {
        self.side.claims.len()
    }
}

/// Goes on to the thread of a ticket, and by all threads if there is none.
fn move_on(cursor: &mut Cursor, found: &Option<Ticket>)
    ensures { IsSought (thread_of found.now) (cursor_place cursor.new) }
{
    match found {
        Some(ticket) => cursor.go_on(ticket.thread()),
        None => {
            cursor.path.clear();
            cursor.exec.clear();
            // (without memory all are looked at)
            let _ = cursor.exec.push_str(AFTER_ALL);
        }
    }
}

/// Puts the thread of a ticket among those that are claimed.
fn note(claims: &mut Claims, found: &Option<Ticket>) -> Result<(), AllocError>
    requires { IsClaimable claims.old (thread_of found.now) }
    ensures ok { OnOk result (claims.new ≡ claimed_with claims.old (thread_of found.now)) }
    ensures passed { OnOk result (PassesNoOther claims.old claims.new) }
    ensures more { OnOk result (LeavesOutMore claims.old claims.new) }
    ensures err { OnErr result (claims.new ≡ claims.old) }
{
    match found {
        Some(ticket) => claims.claim(ticket.thread()),
        None => Ok(()),
    }
}
