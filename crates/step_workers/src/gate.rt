// Where a test may hold a worker.
/// What a worker calls beside its calls of the book, with the number of its seat, from 1 on.
pub trait Gate {
    /// Before the book is called, when the move is prepared.
    fn before_commit(&self, seat: u32);

    /// After the book was called.
    fn after_commit(&self, seat: u32);
}

/// The gate that holds nobody.
#[derive(Drop)]
pub struct OpenGate;

impl Gate for OpenGate {
    fn before_commit(&self, _seat: u32) {}

    fn after_commit(&self, _seat: u32) {}
}
