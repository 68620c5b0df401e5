//! How a call touches its item.

/// How a call touches its item.
#[derive(Clone, Copy, Debug, PartialEq, Eq, PartialOrd, Ord)]
pub enum AccessMode {
    /// The item is looked at: a get, and a put or a delete that its condition refuses.
    Read,
    /// The item is put or deleted, also where there is none to delete.
    Write,
}
