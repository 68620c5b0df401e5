// What a step is to do, as it was worked out before.
use asl_forward::{Frame, Prepared};

/// What a step is to do: its thread's next frame, or what leads to it.
#[derive(Drop)]
pub enum Next {
    /// An execution begins with this frame.
    Begin(Frame),
    /// The turn of a thread that is ready.
    Work(Prepared),
    /// The branches of a thread are all done, and go. It has this frame then.
    Join(Frame),
    /// A branch of a thread has failed, and all go. It has this frame then.
    Terminate(Frame),
}
