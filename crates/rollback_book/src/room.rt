// A step that may be undone, and where it is.
use book_events::Room;

/// The room of a step that may be undone, and the place at which it stands, as `Book::can_undo` tells them for `Book::undo_found`.
#[derive(Drop)]
pub struct FreeRoom {
    pub(crate) room: Room,
    pub(crate) at: usize,
}
