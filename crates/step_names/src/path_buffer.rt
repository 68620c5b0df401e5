ghost use Rattle.std.specs.Prelude.{◌≡◌, ℕ, ◌+◌, ◌<◌, ◌≤◌, List, [], ◌∷◌, ◌++◌, length, take, OnSome, IfNone};

use std::marker::Model;

/// The most branches that a name goes through.
pub const MOST_BRANCHES: usize = 31;

/// A path that is being read: it has room for the longest one, so that a text is known to be a name before
/// any memory is asked for.
#[derive(Drop)]
pub struct PathBuffer {
    branches: [(u32, u32); MOST_BRANCHES],
    len: usize,
}

impl Model for PathBuffer {
    ghost Value = { List (ℕ × ℕ) };

    ghost view = { λ a. take a.len a.branches };

    ghost invariant = { λ a. a.len ≤ 31 };
}

impl PathBuffer {
    pub fn new() -> PathBuffer
        ensures { result ≡ [] }
    {
        PathBuffer {
            branches: [(0, 0); MOST_BRANCHES],
            len: 0,
        }
    }

    pub fn as_slice(&self) -> &[(u32, u32)]
        ensures path { result.now ≡ self.now }
        ensures bound { length self.now ≤ 31 }
    {
        &self.branches[..self.len]
    }

    /// `None` where the path is full.
    pub fn push(&mut self, branch: (u32, u32)) -> Option<()>
        ensures room { OnSome result (self.new ≡ self.old ++ branch ∷ []) }
        ensures some { OnSome result (length self.old < 31) }
        ensures full { IfNone result (length self.old ≡ 31) }
        ensures none { IfNone result (self.new ≡ self.old) }
    {
        if self.len == MOST_BRANCHES {
            return None;
        }
        self.branches[self.len] = branch;
        self.len += 1;
        Some(())
    }
}
