// What the workers of a round share beside the book.
use book_events::Ticket;
use slip_queue::Slips;
use std::sync::atomic::AtomicU64;

/// A ticket as it lies in the queue: its address, since a ticket is large and goes through several hands.
pub(crate) type BoxedTicket = Box<Ticket>;

#[derive(Drop)]
pub(crate) struct Board {
    pub(crate) slips: Slips<BoxedTicket>,
    /// The number of the seat that can't be started, while it ends; else 0.
    pub(crate) unstarted: AtomicU64,
    /// How many of the seats that were started take no more moves.
    pub(crate) resting: AtomicU64,
}
