// What a round of workers gives.
use shared_book::{Pass, SharedRefusal};
use std::sync::ledger::Ledger;

/// Why a worker made no more moves, or undid no more.
#[derive(Debug, Drop)]
pub enum Stopped {
    /// Its share of the budget was spent; in `take_back`, so many undoings were made.
    Budget,
    /// No more tickets were handed out: no thread could move and no worker was at work, the budget was spent, or
    /// `Outcome::refused` tells why. In `take_back`: nothing was left.
    Idle,
    /// A call was refused to it, or it couldn't be started (`Memory`).
    Refused(SharedRefusal),
}

/// For each seat, in their order: its pass, why it stopped, and the numbers of the tickets that it took. After `work` the passes end
/// with that of the one who handed out the tickets; in `take_back` nobody does.
#[derive(Drop)]
pub struct Outcome<L: Ledger> {
    pub passes: Vec<Pass<L>>,
    pub stopped: Vec<Stopped>,
    pub taken: Vec<Vec<u64>>,
    /// What was refused to the one who handed out tickets, if anything was.
    pub refused: Option<SharedRefusal>,
}
