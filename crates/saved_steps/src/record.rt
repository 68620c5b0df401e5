// What is kept of a step that was taken.
use crate::fact::Fact;
use asl_forward::Frame;
use attr_values::Item;
use branch_tree::Branch;
use item_store::SlotNo;

/// What a step's undoing gives back.
#[derive(Drop)]
pub enum Saved {
    /// Of a start: its execution goes.
    Started,
    /// Of a plain step: the frame that its thread had.
    Framed(Frame),
    /// Of a call: the frame, and of a write the item that stood in the slot of its key, if any.
    Called {
        frame: Frame,
        slot: SlotNo,
        old: Option<Item>,
    },
    /// Of a fork: the frame. Its branches go.
    Forked(Frame),
    /// Of a join or a terminate: the frame, and the branches that it was parked over, in order.
    Closed {
        frame: Frame,
        kids: Vec<Branch>,
    },
}

/// A step that was taken: what is known of it, and what its undoing gives back.
#[derive(Drop)]
pub struct StepRecord {
    pub fact: Fact,
    pub saved: Saved,
}
