// Marks at places.
ghost use Rattle.std.specs.Prelude.{◌≡◌, true, false, replicate, slice_get, slice_set, unwrap_or, IfOk};
ghost use Rattle.step_graph.specs.Opened.{marked};

use std::alloc::{AllocError, Global};
use std::marker::Model;

/// Which places are marked. Contracts see the marks of all places.
#[derive(Drop)]
pub struct Marks {
    inner: Vec<bool>,
}

impl Model for Marks {
    ghost use Rattle.std.specs.Prelude.{Bool, List};

    ghost Value = { List Bool };

    ghost view = { λ a. a.inner.items };
}

impl Marks {
    /// So many places without a mark. Takes a byte for each.
    pub fn new(alloc: Global, count: usize) -> Result<Marks, AllocError>
        ensures { IfOk result (λ m. m ≡ replicate count false) }
    {
        Ok(Marks {
            inner: vec![in alloc; false; count]?,
        })
    }

    /// Marks a place, if it is there.
    pub fn mark(&mut self, at: usize)
        ensures { self.new ≡ slice_set self.old at true }
    {
        if at < self.inner.len() {
            self.inner[at] = true;
        }
    }

    /// Marks places, as far as they are there. Takes a step for each.
    pub(crate) fn mark_all(&mut self, places: &[usize])
        ensures { self.new ≡ marked self.old places.now }
    {
        for place in places {
            self.mark(*place);
        }
    }

    /// Whether a place is marked.
    pub fn has(&self, at: usize) -> bool
        ensures { result ≡ unwrap_or (slice_get self.now at) false }
    {
        match self.inner.get(at) {
            Some(mark) => *mark,
            None => false,
        }
    }
}
