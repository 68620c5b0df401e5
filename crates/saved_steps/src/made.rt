// A step for which everything is made.
ghost use Rattle.std.specs.Prelude.{◌≡◌, IfOk};
ghost use Rattle.saved_steps.specs.Made.{fact_made};

use crate::fact::{Access, Fact, Kind};
use asl_forward::Frame;
use attr_values::Item;
use branch_tree::Branch;
use item_store::SlotNo;
use std::alloc::AllocError;
use step_names::StepName;

/// What is put where, once a step is applied.
#[derive(Drop)]
pub enum Change {
    /// The frame with which an execution begins.
    Begin(Frame),
    /// The thread's frame.
    Plain(Frame),
    /// The thread's frame, and of a write the item that then stands in the slot of its key, if any.
    Call {
        frame: Frame,
        access: Access,
        slot: SlotNo,
        new: Option<Item>,
    },
    /// The thread's frame, and what it is parked over.
    Fork(Frame, Vec<Branch>),
    /// The thread's frame, once its branches are out.
    Join(Frame),
    Terminate(Frame),
}

/// A step for which everything is made: to apply it takes no memory.
#[derive(Drop)]
pub struct Made {
    pub(crate) name: StepName,
    pub(crate) bound: u32,
    pub(crate) change: Change,
}

impl Made {
    /// What the step is.
    pub fn kind(&self) -> Kind
        ensures { result ≡ (fact_made self.now).kind }
    {
        match &self.change {
            Change::Begin(_) => Kind::Start,
            Change::Plain(_) => Kind::Plain,
            Change::Call { .. } => Kind::Call,
            Change::Fork(..) => Kind::Fork,
            Change::Join(_) => Kind::Join,
            Change::Terminate(_) => Kind::Terminate,
        }
    }

    /// What is known of the step. Takes memory for a copy of its name, and of the key that it touches.
    pub fn fact(&self) -> Result<Fact, AllocError>
        ensures { IfOk result (λ f. f ≡ fact_made self.now) }
    {
        let access = self.access()?;
        let Ok(name) = self.name.copy() else {
            drop(access);
            return Err(AllocError);
        };
        Ok(Fact {
            name,
            kind: self.kind(),
            access,
            bound: self.bound,
        })
    }

    /// The item that a call touches, and how.
    fn access(&self) -> Result<Option<Access>, AllocError>
        ensures { IfOk result (λ a. a ≡ (fact_made self.now).access) }
    {
        match &self.change {
            Change::Call { access, .. } => Ok(Some(Access {
                key: access.key.copy()?,
                mode: access.mode,
            })),
            Change::Begin(_)
            | Change::Plain(_)
            | Change::Fork(..)
            | Change::Join(_)
            | Change::Terminate(_) => Ok(None),
        }
    }
}
