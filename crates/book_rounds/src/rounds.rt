// A book, and a round of workers on it.
ghost use Rattle.std.specs.Prelude.{◌≡◌, ◌≤◌, ℕ, List, IfOk, IfErr};
ghost use Rattle.std.specs.List.{list_any};
ghost use Rattle.shared_book.specs.Closed.{all_receipts};
ghost use Rattle.shared_book.specs.Views.{PassView};
ghost use Rattle.step_workers.specs.Work.{AllGoOn};
ghost use Rattle.book_log.specs.Log.{Log};
ghost use Rattle.book_rounds.specs.Rounds.{AreFresh, IsLeftBook, IsRound, is_refused_stop, is_refused};

use crate::seats::seats_of;
use book_events::BookCalls;
use shared_book::{PARTS, Pass, Shared, SharedRefusal, Sharing, close, share};
use std::alloc::Global;
use std::marker::Brand;
use std::sync::Wait;
use std::sync::ledger::Blank;
use std::thread::Threads;
use step_workers::{OpenGate, Outcome, Stopped, work};

/// The book after a round.
#[derive(Drop)]
pub struct Round<B: Drop> {
    pub book: B,
    /// Whether a worker was refused a call, or couldn't be started.
    pub is_refused: bool,
}

/// Why a round gives no book, or the one that was given.
#[derive(Drop)]
pub enum RoundFault<B: Drop> {
    /// Memory for the round was refused before any step. The log is as it was.
    NotBegun(B),
    /// The book couldn't be taken out again, out of memory. It is gone.
    Lost,
}

/// A round of so many workers on a book, each in a thread of its own, which take at most so many steps together. The log of the book
/// that comes back goes on from the one that was given by the steps that were taken, each a move where it stands. Which of the
/// steps that could be taken are, and in which order, is open. Takes memory for the passes and the queue before the first step,
/// and for a mark for each entry after the last.
///
/// # Errors
///
/// `NotBegun` and `Lost`, both if it is out of memory. No contract says that `Lost` comes for nothing else.
pub fn run_round<B: BookCalls + Send, R: Threads + Wait + Sync>(
    rt: &R,
    alloc: Global,
    book: B,
    workers: u32,
    moves: u32,
) -> Result<Round<B>, RoundFault<B>>
    requires { (1 ≤ workers) × (workers ≤ 8) }
    ensures ok { IfOk result (λ r. IsRound moves (B.log book) (B.log r.book)) }
    ensures err { IfErr result (IsLeftBook B.log (B.log book)) }
{
    share_and_work::<B, Brand, R>(rt, alloc, Blank::new(PARTS), book, workers as usize, moves)
}

/// All that can be refused before the first step comes first, so that the book can be given back as it was.
#[tactic(auto, using(crate::proofs::Receipts::round_closed))]
fn share_and_work<B: BookCalls + Send, L: Sharing + Send + Sync, R: Threads + Wait + Sync>(
    rt: &R,
    alloc: Global,
    blank: Blank,
    book: B,
    workers: usize,
    moves: u32,
) -> Result<Round<B>, RoundFault<B>>
    requires shared { (blank.name ≡ L.name) × (blank.parts ≡ L.parts) × (L.parts ≡ PARTS) × (B.log book ≡ L.begun) }
    requires few { (1 ≤ workers) × (workers ≤ 8) }
    ensures ok { IfOk result (λ r. IsRound moves L.begun (B.log r.book)) }
    ensures err { IfErr result (IsLeftBook B.log L.begun) }
{
    let Ok(passes) = Vec::with_capacity(alloc, workers) else {
        return Err(RoundFault::NotBegun(book));
    };
    let (shared, first) = share::<B, L>(alloc, blank, book);
    let passes = seats_of(first, workers, passes);
    match work(rt, alloc, &shared, passes, moves, &OpenGate) {
        Ok(outcome) => finish(alloc, shared, outcome),
        Err(passes) => Err(give_back(alloc, shared, passes)),
    }
}

/// The book of a round that is over.
#[tactic(auto, using(crate::proofs::Receipts::round_closed))]
fn finish<B: BookCalls, L: Sharing>(
    alloc: Global,
    shared: Shared<B, L>,
    outcome: Outcome<L>,
) -> Result<Round<B>, RoundFault<B>>
    ensures ok { IfOk result (λ r. (moves : ℕ) → (passes : List PassView) → AreFresh passes → AllGoOn moves passes outcome.passes.items → IsRound moves L.begun (B.log r.book)) }
    ensures refused { IfOk result (λ r. r.is_refused ≡ is_refused outcome.refused outcome.stopped.items) }
    ensures err { IfErr result (IsLeftBook B.log L.begun) }
{
    let Outcome {
        passes,
        stopped,
        taken: _,
        refused,
    } = outcome;
    let is_refused = is_any_refused(&refused, stopped.as_slice());
    match close(alloc, shared, passes) {
        Ok(book) => Ok(Round { book, is_refused }),
        Err(refusal) => {
            drop(refusal);
            Err(RoundFault::Lost)
        }
    }
}

/// The book of a round that didn't begin.
#[tactic(auto, using(crate::proofs::Receipts::same_closed))]
fn give_back<B: BookCalls, L: Sharing>(
    alloc: Global,
    shared: Shared<B, L>,
    passes: Vec<Pass<L>>,
) -> RoundFault<B>
    requires { AreFresh passes.items }
    ensures { IsLeftBook B.log L.begun result }
{
    match close(alloc, shared, passes) {
        Ok(book) => RoundFault::NotBegun(book),
        Err(refusal) => {
            drop(refusal);
            RoundFault::Lost
        }
    }
}

/// Whether something was refused to the one who handed out tickets, or to a worker.
fn is_any_refused(refused: &Option<SharedRefusal>, stopped: &[Stopped]) -> bool
    ensures { result ≡ is_refused refused.now stopped.now }
{
    match refused {
        Some(_) => true,
        None => is_any_halted(stopped),
    }
}

/// Whether a worker made no more moves since something was refused to it.
fn is_any_halted(stopped: &[Stopped]) -> bool
    ensures { result ≡ list_any is_refused_stop stopped.now }
{
    for why in stopped {
        if matches!(why, Stopped::Refused(_)) {
            return true;
        }
    }
    false
}
