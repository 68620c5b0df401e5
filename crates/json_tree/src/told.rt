// How deep values nest, where that is known without a look at them.
ghost use Rattle.std.specs.Prelude.{◌≡◌, ◌^◌, ◌-◌, ◌&&◌, ℕ, min, max, None, Some, is_none, is_some};
ghost use Rattle.json_tree.specs.Told.{IsTold};

use std::fmt;

/// How deep the values of a list or of an object nest, unless it has to be looked up. It is no part of the value, and is not shown.
#[derive(Clone, Copy)]
pub(crate) struct Told {
    levels: Option<u32>,
}

impl Told {
    /// Of a list or an object without values.
    pub(crate) fn empty() -> Told
        ensures { result.levels ≡ Some 0 }
    {
        Told { levels: Some(0) }
    }

    /// Nothing is known.
    pub(crate) fn unknown() -> Told
        ensures { result.levels ≡ None }
    {
        Told { levels: None }
    }

    /// These levels, where a number of 32 bits tells them.
    pub(crate) fn exactly(levels: u32) -> Told
        ensures { (n : ℕ) → levels ≡ min n (2 ^ 32 - 1) → IsTold result n }
    {
        if levels < u32::MAX {
            Told {
                levels: Some(levels),
            }
        } else {
            Told { levels: None }
        }
    }

    /// With one more value, of so many levels.
    pub(crate) fn and(self, levels: u32) -> Told
        ensures { (n m : ℕ) → IsTold self n → levels ≡ min m (2 ^ 32 - 1) → IsTold result (max m n) }
    {
        match self.levels {
            Some(before) => {
                if levels < u32::MAX {
                    Told {
                        levels: Some(before.max(levels)),
                    }
                } else {
                    Told { levels: None }
                }
            }
            None => Told { levels: None },
        }
    }

    /// With a value of `after` levels in the place of one of `before` levels. If this one was the deepest and the other is
    /// less deep, the rest would have to be looked at.
    pub(crate) fn replaced(self, before: u32, after: u32) -> Told
        ensures { (n m k : ℕ) → IsTold self (max m n) → before ≡ min m (2 ^ 32 - 1) → after ≡ min k (2 ^ 32 - 1) → IsTold result (max k n) }
    {
        match self.levels {
            Some(levels) if after >= levels => Told::exactly(after),
            Some(levels) if before < levels => self,
            _ => Told::unknown(),
        }
    }

    /// Without a value of so many levels. If it was the deepest, the rest would have to be looked at.
    pub(crate) fn without(self, before: u32) -> Told
        ensures { (n m : ℕ) → IsTold self (max m n) → before ≡ min m (2 ^ 32 - 1) → IsTold result n }
    {
        match self.levels {
            Some(levels) if before < levels || levels == 0 => self,
            _ => Told::unknown(),
        }
    }

    /// Whether nothing is known, where something was.
    pub(crate) fn is_lost(self, before: Told) -> bool
        ensures { result ≡ (is_none self.levels && is_some before.levels) }
    {
        self.levels.is_none() && before.levels.is_some()
    }

    pub(crate) fn levels(self) -> Option<u32>
        ensures { result ≡ self.levels }
    {
        self.levels
    }
}

impl fmt::Debug for Told {
    fn fmt<W: fmt::Write>(&self, f: &mut fmt::Formatter<W>) -> fmt::Result {
        f.write_str("_")
    }
}
