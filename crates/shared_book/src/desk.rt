// What lies under the lock.
use crate::claims::Claims;
use crate::sharing::Sharing;
use book_events::{Cursor, Events};
use std::marker::Model;
use std::sync::ledger::{Book, Share};

/// The book, the number of its first entry since it was shared, and what is kept beside it. The move of each thread that is passed by was
/// refused for a hold, and since then only starts and steps came.
#[derive(Drop)]
pub(crate) struct Desk<B: Events, L: Sharing> {
    pub(crate) book: B,
    pub(crate) first: usize,
    pub(crate) side: Side<L>,
}

/// The ledger of the receipts that were handed out, the threads that callers have claimed or that are passed by, and from where on a
/// thread is looked for that can be claimed.
#[derive(Drop)]
pub(crate) struct Side<L: Sharing> {
    pub(crate) calls: Book<L>,
    pub(crate) spare: Share<L>,
    pub(crate) claims: Claims,
    pub(crate) cursor: Cursor,
}

impl<B: Events, L: Sharing> Model for Desk<B, L> {
    ghost use Rattle.std.specs.Coded.{codes};
    ghost use Rattle.book_log.specs.contracts.begin.Begin as begin_row;
    ghost use Rattle.book_log.specs.contracts.entry.Entry as entry_row;
    ghost use Rattle.book_events.specs.Cursors.{cursor_place};
    ghost use Rattle.shared_book.specs.Entering.{IsDesk};
    ghost use Rattle.shared_book.specs.Views.{DeskView};

    ghost Value = { DeskView };

    ghost coded = { Prim.hlevel (codes, begin_row.the_row.coded, entry_row.the_row.coded) };

    ghost view = { λ d. record { log = B.log d.book; first = d.first; claims = d.side.claims } };

    ghost invariant = { λ d. IsDesk L.begun (B.log d.book) d.first d.side.calls.total d.side.spare.amount d.side.claims (cursor_place d.side.cursor) };
}
