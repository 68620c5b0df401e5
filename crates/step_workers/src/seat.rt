// A worker's place, before it begins and when it has ended.
use crate::board::BoxedTicket;
use crate::outcome::Stopped;
use shared_book::Pass;
use slip_queue::Taker;
use std::sync::ledger::Ledger;

#[derive(Drop)]
pub(crate) struct Seat<L: Ledger> {
    /// From 1 on.
    pub(crate) number: u32,
    /// How many tickets it may take.
    pub(crate) share: u32,
    pub(crate) pass: Pass<L>,
    pub(crate) taker: Taker<BoxedTicket>,
    /// Room for the numbers of so many tickets.
    pub(crate) taken: Vec<u64>,
}

#[derive(Drop)]
pub(crate) struct Served<L: Ledger> {
    pub(crate) pass: Pass<L>,
    pub(crate) taker: Taker<BoxedTicket>,
    pub(crate) taken: Vec<u64>,
    pub(crate) stopped: Stopped,
}
