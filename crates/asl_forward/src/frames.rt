// The frames with which the branches of a fork begin.
ghost use Rattle.std.specs.Prelude.{◌≡◌, []};

use asl_frames::Frame;
use std::alloc::Global;
use std::marker::Model;

/// The frames of a fork's branches, in order. Contracts see their list.
#[derive(Debug, Drop)]
pub struct Frames {
    pub(crate) inner: Vec<Frame>,
}

impl Model for Frames {
    ghost use Rattle.std.specs.Prelude.{List};
    ghost use Rattle.std.specs.Coded.{codes};
    ghost use Rattle.asl_frames.specs.declared.frame.Frame.{Frame};
    ghost use Rattle.asl_frames.specs.contracts.frame.Frame as frame;

    ghost Value = { List Frame };

    ghost coded = { Prim.hlevel (codes, frame.the_row.coded) };

    ghost view = { λ a. a.inner.items };
}

impl Frames {
    /// No frames. Takes no memory.
    pub(crate) fn new(alloc: Global) -> Frames
        ensures { result ≡ [] }
    {
        let inner = Vec::new(alloc);
        Frames { inner }
    }

    /// The frames, in order, lent.
    pub fn as_slice(&self) -> &[Frame]
        ensures { result.now ≡ self.now }
    {
        self.inner.as_slice()
    }

    /// The frames themselves. Takes no memory.
    pub fn into_vec(self) -> Vec<Frame>
        ensures { result.items ≡ self }
    {
        self.inner
    }
}
