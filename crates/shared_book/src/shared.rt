// A book under one lock.
ghost use Rattle.std.specs.Prelude.{◌≡◌, ◌≤◌, ◌+◌, [], length, IfOk, IfErr, Ok};
ghost use Rattle.json_tree.specs.Data.{depth, most_levels};
ghost use Rattle.json_tree.specs.View.{data_of};
ghost use Rattle.book_log.specs.Answers.{hold_answer, plan_answer, start_answer, step_answer, undo_answer};
ghost use Rattle.book_log.specs.Log.{left_of};
ghost use Rattle.book_log.specs.declared.refusal.Refusal.TheVariants.{Memory};
ghost use Rattle.shared_book.specs.Away.{AreAway, Away};
ghost use Rattle.shared_book.specs.Calls.{GivesLatest, GivesReceipt, IsHoldEntryOf, IsLatestCause, IsRefused, IsRefusedFor, IsRollbackOf, IsShown, IsStepOf, frame_answer};
ghost use Rattle.shared_book.specs.Claims.{IsClaim, IsOffer};
ghost use Rattle.shared_book.specs.Commits.{GivesTurn, IsNotTaken};

use crate::claiming::Offer;
use crate::claims::Claims;
use crate::desk::{Desk, Side};
use crate::looking::{HeldLeft, Shown};
use crate::pass::{Kept, Pass};
use crate::receipt::Receipt;
use crate::refusal::{SharedCommitRefusal, SharedRefusal};
use crate::sharing::Sharing;
use book_events::turns::Prepared;
use book_events::{Cursor, Events, Ticket};
use book_log::Entry;
use json_tree::{Json, Text};
use std::alloc::Global;
use std::sync::ledger::Blank;
use std::sync::{Mutex, Wait};
use step_names::{StepName, ThreadName};

/// Into how many parts the right to call is cut: each pass has at least one.
pub const PARTS: u64 = 65_536;

/// A book that callers share. Each call holds the lock once, and may wait for it. A refused call leaves the log as it was; it may change
/// which threads are claimed or passed by. A contract speaks of some legal log that goes on from the book's when it was shared and that
/// the pass can have seen, since others may have called meanwhile. Under the lock nothing takes longer with the number of executions
/// than the book's own call.
#[derive(Drop)]
pub struct Shared<B: Events, L: Sharing> {
    pub(crate) desk: Mutex<Desk<B, L>>,
}

/// Shares a book. The pass has seen all its entries so far. Takes no memory.
pub fn share<B: Events, L: Sharing>(alloc: Global, blank: Blank, book: B) -> (Shared<B, L>, Pass<L>)
    requires { (blank.name ≡ L.name) × (blank.parts ≡ L.parts) × (L.parts ≡ PARTS) × (B.log book ≡ L.begun) }
    ensures { result.1 ≡ record { seen = length (B.log book).entries; receipts = []; parts = PARTS } }
{
    let (calls, mut share) = blank.open::<L>();
    let spare = share.empty();
    let seen = {
        let (_, entries) = book.entries();
        entries.len()
    };
    let desk = Desk {
        book,
        first: seen + 1,
        side: Side {
            calls,
            spare,
            claims: Claims::new(alloc),
            cursor: Cursor::new(alloc),
        },
    };
    let kept = Kept {
        seen,
        receipts: Vec::new(alloc),
        parts: PARTS,
        share,
    };
    (
        Shared {
            desk: Mutex::new(desk),
        },
        Pass { kept },
    )
}

impl<B: Events, L: Sharing> Shared<B, L> {
    /// Starts an execution. Takes what the book's call takes, and memory for two copies of the entry, which share its input.
    ///
    /// # Errors
    ///
    /// `ForeignPass`, and then those of the book's call. Memory may also be refused to the receipt, before the book is called.
    pub fn start(
        &self,
        rt: &impl Wait,
        alloc: Global,
        pass: &mut Pass<L>,
        exec: &ThreadName,
        machine: &Text,
        input: Json,
    ) -> Result<Receipt, SharedRefusal>
        requires execution { exec.now.path ≡ [] }
        requires shallow { depth (data_of input) ≤ most_levels }
        ensures receipt { IfOk result (GivesReceipt L.begun pass.old pass.new) }
        ensures entry { IfOk result (λ r. r.entry ≡ Entry.Start exec.now machine.now input) }
        ensures err { IfErr result (λ e. IsRefused L.begun (λ at. start_answer at exec.now machine.now) pass.old e × (pass.new ≡ pass.old)) }
    {
        self.desk.lock(rt).start(alloc, pass, exec, machine, input)
    }

    /// Takes the next step of a thread. One that is claimed and is refused for a hold is passed by, until steps are taken back. Takes
    /// what the book's call takes, and memory for one name.
    ///
    /// # Errors
    ///
    /// As `start`.
    pub fn step(
        &self,
        rt: &impl Wait,
        alloc: Global,
        pass: &mut Pass<L>,
        thread: &ThreadName,
    ) -> Result<Receipt, SharedRefusal>
        ensures receipt { IfOk result (GivesReceipt L.begun pass.old pass.new) }
        ensures entry { IfOk result (λ r. IsStepOf thread.now r.entry) }
        ensures err { IfErr result (λ e. IsRefused L.begun (λ at. step_answer at thread.now) pass.old e × (pass.new ≡ pass.old)) }
    {
        self.desk.lock(rt).step(alloc, pass, thread)
    }

    /// Takes a step back on which no remaining step depends directly. Takes what the book's calls take, and memory for two names.
    ///
    /// # Errors
    ///
    /// As `start`.
    pub fn undo(
        &self,
        rt: &impl Wait,
        alloc: Global,
        pass: &mut Pass<L>,
        step: &StepName,
    ) -> Result<Receipt, SharedRefusal>
        ensures receipt { IfOk result (GivesReceipt L.begun pass.old pass.new) }
        ensures entry { IfOk result (λ r. r.entry ≡ Entry.Undo step.now) }
        ensures err { IfErr result (λ e. IsRefused L.begun (λ at. undo_answer at step.now) pass.old e × (pass.new ≡ pass.old)) }
    {
        self.desk.lock(rt).undo(alloc, pass, step)
    }

    /// Takes back a step and its consequences. It is planned under the same hold of the lock, so it is never stale. Takes what the
    /// book's calls take, and memory for two copies of each name.
    ///
    /// # Errors
    ///
    /// As `start`.
    pub fn rollback(
        &self,
        rt: &impl Wait,
        alloc: Global,
        pass: &mut Pass<L>,
        step: &StepName,
    ) -> Result<Receipt, SharedRefusal>
        ensures receipt { IfOk result (GivesReceipt L.begun pass.old pass.new) }
        ensures entry { IfOk result (λ r. IsRollbackOf step.now r.entry) }
        ensures err { IfErr result (λ e. IsRefused L.begun (λ at. plan_answer at step.now) pass.old e × (pass.new ≡ pass.old)) }
    {
        self.desk.lock(rt).rollback(alloc, pass, step)
    }

    /// Holds a step and its consequences until they are taken back; the receipt's entry has their number. Takes what the book's call
    /// takes, and memory for two names.
    ///
    /// # Errors
    ///
    /// As `start`.
    pub fn hold(
        &self,
        rt: &impl Wait,
        alloc: Global,
        pass: &mut Pass<L>,
        step: &StepName,
    ) -> Result<Receipt, SharedRefusal>
        ensures receipt { IfOk result (GivesReceipt L.begun pass.old pass.new) }
        ensures entry { IfOk result (λ r. IsHoldEntryOf step.now r.entry) }
        ensures err { IfErr result (λ e. IsRefused L.begun (λ at. hold_answer at step.now) pass.old e × (pass.new ≡ pass.old)) }
    {
        self.desk.lock(rt).hold(alloc, pass, step)
    }

    /// Takes back the latest step that is left of a hold, on which none that remains depends. So callers share a long rollback: each
    /// undoing is one caller's, and the hold is over when none is left. Takes what the book's calls take, and memory for three names.
    ///
    /// # Errors
    ///
    /// `ForeignPass`; `NoStep`, where nothing is left; and `Memory`.
    pub fn undo_held(
        &self,
        rt: &impl Wait,
        alloc: Global,
        pass: &mut Pass<L>,
    ) -> Result<Receipt, SharedRefusal>
        ensures receipt { IfOk result (GivesLatest L.begun pass.old pass.new) }
        ensures err { IfErr result (λ e. IsRefusedFor L.begun pass.old (IsLatestCause L.begun pass.old) e × (pass.new ≡ pass.old)) }
    {
        self.desk.lock(rt).undo_held(alloc, pass)
    }

    /// How many steps are left of a hold, and how many entries there were, at least as many as the pass had seen.
    ///
    /// # Errors
    ///
    /// `ForeignPass`, and `Memory` for the entry that it tells.
    pub fn held_left(&self, rt: &impl Wait, pass: &mut Pass<L>) -> Result<HeldLeft, SharedRefusal>
        ensures shown { IfOk result (λ s. IsShown L.begun pass.old pass.new (λ at. (s.entries ≡ length at.entries) × (s.left ≡ length (left_of at)))) }
        ensures err { IfErr result (λ e. IsRefusedFor L.begun pass.old (λ cause. cause ≡ Memory) e × (pass.new ≡ pass.old)) }
    {
        self.desk.lock(rt).held_left(pass)
    }

    /// A copy of a thread's frame, and how many entries there were, at least as many as the pass had seen. Takes memory for what of
    /// the frame isn't shared.
    ///
    /// # Errors
    ///
    /// `ForeignPass`, `NoThread` and `Memory`, in this order.
    pub fn show(
        &self,
        rt: &impl Wait,
        pass: &mut Pass<L>,
        thread: &ThreadName,
    ) -> Result<Shown, SharedRefusal>
        ensures shown { IfOk result (λ s. IsShown L.begun pass.old pass.new (λ at. (s.entries ≡ length at.entries) × (frame_answer at thread.now ≡ Ok s.frame))) }
        ensures err { IfErr result (λ e. IsRefused L.begun (λ at. frame_answer at thread.now) pass.old e × (pass.new ≡ pass.old)) }
    {
        self.desk.lock(rt).show(pass, thread)
    }

    /// Claims the least thread that has a move, that nobody has claimed and that isn't passed by, and gives its ticket, of which its
    /// move is prepared with no hold of the lock. The claim ends by `commit` or `give_back`; a ticket that is dropped leaves it. Takes
    /// what the book's two calls take, and memory for two copies of the name.
    ///
    /// # Errors
    ///
    /// `ForeignPass` and `Memory`.
    pub fn claim(
        &self,
        rt: &impl Wait,
        alloc: Global,
        pass: &mut Pass<L>,
    ) -> Result<Option<Ticket>, SharedRefusal>
        ensures shown { IfOk result (λ found. IsShown L.begun pass.old pass.new (λ at. (away : Away) × AreAway at away × IsClaim at away found)) }
        ensures err { IfErr result (λ e. IsRefusedFor L.begun pass.old (λ cause. cause ≡ Memory) e × (pass.new ≡ pass.old)) }
    {
        self.desk.lock(rt).claim(alloc, pass)
    }

    /// As `claim`, and where there is no ticket, how many claims are out.
    ///
    /// # Errors
    ///
    /// As `claim`.
    pub fn offer(
        &self,
        rt: &impl Wait,
        alloc: Global,
        pass: &mut Pass<L>,
    ) -> Result<Offer, SharedRefusal>
        ensures shown { IfOk result (λ offer. IsShown L.begun pass.old pass.new (λ at. (away : Away) × AreAway at away × IsOffer at away offer)) }
        ensures err { IfErr result (λ e. IsRefusedFor L.begun pass.old (λ cause. cause ≡ Memory) e × (pass.new ≡ pass.old)) }
    {
        self.desk.lock(rt).offer(alloc, pass)
    }

    /// Takes a turn that was prepared of a ticket's frame, and ends the claim, also where it is refused: for a hold, the thread is
    /// passed by until steps are taken back. Takes what the book's call takes, and memory for one name.
    ///
    /// # Errors
    ///
    /// `ForeignPass`, `Stale` with the turn, `Held` and `Full`, in this order. Memory may also be refused to the receipt, before the
    /// book is called.
    pub fn commit(
        &self,
        rt: &impl Wait,
        alloc: Global,
        pass: &mut Pass<L>,
        ticket: Ticket,
        prepared: Prepared,
    ) -> Result<Receipt, SharedCommitRefusal>
        ensures receipt { IfOk result (GivesTurn L.begun ticket.thread prepared pass.old pass.new) }
        ensures entry { IfOk result (λ r. IsStepOf ticket.thread r.entry) }
        ensures err { IfErr result (λ e. IsNotTaken L.begun ticket.thread prepared pass.old e × (pass.new ≡ pass.old)) }
    {
        self.desk.lock(rt).commit(alloc, pass, ticket, prepared)
    }

    /// Ends the claim of a ticket's thread without a move, if it has one still. Takes no memory.
    pub fn give_back(&self, rt: &impl Wait, ticket: Ticket) {
        self.desk.lock(rt).give_back(ticket)
    }
}
