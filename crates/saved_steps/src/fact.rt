// What is known of a step that was taken.
use attr_values::Key;
use item_store::AccessMode;
use step_names::StepName;

/// What a step is.
#[derive(Clone, Copy, Debug, PartialEq, Eq)]
pub enum Kind {
    /// The start of an execution.
    Start,
    /// A move that touches its own thread alone.
    Plain,
    /// A call that reads or writes an item of the table.
    Call,
    /// A Parallel or Map state that goes into its branches.
    Fork,
    /// Its branches are all done, and go.
    Join,
    /// One of its branches has failed, and all go.
    Terminate,
}

/// The item that a call touched, and how.
#[derive(Debug, Drop)]
pub struct Access {
    pub key: Key,
    pub mode: AccessMode,
}

/// What is known of a step that was taken: by these alone it depends on others.
#[derive(Debug, Drop)]
pub struct Fact {
    pub name: StepName,
    pub kind: Kind,
    pub access: Option<Access>,
    /// Of a branch's first move, how many branches of its fork may run at a time; 0 of every other step, and of a fork
    /// without a bound.
    pub bound: u32,
}
