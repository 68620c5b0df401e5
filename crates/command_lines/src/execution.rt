// The threads that commands take.
ghost use Rattle.std.specs.Prelude.{◌≡◌, []};

use step_names::ThreadName;

/// An execution's own thread.
#[derive(Debug, Drop)]
pub struct Execution {
    /// Its name, which has no branches.
    pub thread: ThreadName,
    ghost whole: { thread.path ≡ [] },
}
