//! Places in a history, as a plan lists them.

ghost use Rattle.std.specs.Prelude.{◌≡◌};

use std::marker::Model;

/// Places in a history, in the order in which their steps are to be undone. Contracts see their list.
#[derive(Debug, Drop)]
pub struct Plan {
    inner: Vec<usize>,
}

impl Model for Plan {
    ghost use Rattle.std.specs.Prelude.{List, ℕ};

    ghost Value = { List ℕ };

    ghost view = { λ a. a.inner.items };
}

impl Plan {
    /// A plan of these places.
    pub fn new(inner: Vec<usize>) -> Plan
        ensures { result ≡ inner.items }
    {
        Plan { inner }
    }

    /// The places.
    pub fn places(&self) -> &[usize]
        ensures { result.now ≡ self.now }
    {
        self.inner.as_slice()
    }

    /// The places themselves. Takes no memory.
    pub fn into_vec(self) -> Vec<usize>
        ensures { result.items ≡ self }
    {
        self.inner
    }
}
