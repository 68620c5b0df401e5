/// What a thread can do next.
#[derive(Clone, Copy, Debug, PartialEq, Eq)]
pub enum Readiness {
    /// It stands before its state, and moves.
    Ready,
    /// All its branches are done, or it has none: it moves on with their outputs.
    Join,
    /// A branch of its failed: it moves on with that error.
    Terminate,
    /// It is parked over branches of which none failed and some have not ended.
    Waiting,
    /// It ended with an output.
    Done,
    /// It ended with an error.
    Failed,
    /// There is no thread.
    NoThread,
}
