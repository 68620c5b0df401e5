// What a caller holds of a call that was accepted.
ghost use Rattle.std.specs.Prelude.{◌≡◌, IfOk};

use book_log::Entry;
use std::alloc::AllocError;

/// The entry of an accepted call, which holds its reply, and its number in the log. The first entry of a log has number 1.
#[derive(Debug, Drop)]
pub struct Receipt {
    pub number: usize,
    pub entry: Entry,
}

/// An entry twice: for the receipt that a pass keeps, and for its caller's.
#[derive(Drop)]
pub(crate) struct Twice {
    pub(crate) one: Entry,
    pub(crate) other: Entry,
    ghost same: { other ≡ one },
}

impl Twice {
    /// An entry and a copy of it.
    pub(crate) fn of(one: Entry) -> Result<Twice, AllocError>
        ensures { IfOk result (λ twice. twice.one ≡ one) }
    {
        let Ok(other) = one.copy() else {
            drop(one);
            return Err(AllocError);
        };
        Ok(Twice { one, other })
    }
}
