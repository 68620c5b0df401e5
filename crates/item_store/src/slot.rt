//! Numbers of slots.

/// The number of a slot of an `ItemStore`, made by that store alone.
#[derive(Clone, Copy, Debug, PartialEq, Eq, PartialOrd, Ord)]
pub struct SlotNo {
    pub(crate) index: usize,
}
