// A text, seen as its bytes.
ghost use Rattle.std.specs.Prelude.{◌≡◌, ◌≤◌, length, IsOk, IfOk, IfErr, string_bytes};
ghost use Rattle.json_tree.specs.TextView.{held_bytes};

use crate::short::{ROOM, Short};
use std::alloc::{AllocError, AllocFailed, Global};
use std::cmp::Ordering;
use std::marker::Model;
use std::sync::Arc;

/// A text of UTF-8. Contracts see its bytes, and two texts of the same bytes are equal. One of at most 22 bytes takes no
/// memory; owners of a longer one share it.
#[derive(Debug, Drop)]
pub struct Text {
    inner: TextBytes,
}

#[derive(Debug, Drop)]
enum TextBytes {
    Short(Short),
    Shared(Arc<String>),
}

impl Model for Text {
    ghost use Rattle.std.specs.Prelude.{List, ℕ};
    ghost use Rattle.json_tree.specs.TextView.{held_bytes};

    ghost Value = { List ℕ };

    ghost view = { λ a. held_bytes a.inner };
}

impl Text {
    /// A copy of a text. Takes memory for a text of more than 22 bytes.
    pub fn new(alloc: Global, text: &str) -> Result<Text, AllocError>
        ensures { IfOk result (λ t. t ≡ text.now) }
    {
        if text.len() <= ROOM {
            return Ok(Text {
                inner: TextBytes::Short(Short::new(text)),
            });
        }
        let string = String::from_str(alloc, text)?;
        let node = Arc::new(alloc, string)?;
        Ok(Text {
            inner: TextBytes::Shared(node),
        })
    }

    /// The same bytes: a short text gives up its memory, and a longer one takes some to be shared. The error has the string.
    pub fn from_string(string: String) -> Result<Text, AllocFailed<String>>
        ensures ok { IfOk result (λ t. t ≡ string_bytes string) }
        ensures short { length (string_bytes string) ≤ 22 → IsOk result }
        ensures value_returned { IfErr result (λ e. e.value ≡ string) }
    {
        if string.len() <= ROOM {
            return Ok(Text {
                inner: TextBytes::Short(Short::new(string.as_str())),
            });
        }
        match Arc::new(*string.allocator(), string) {
            Ok(node) => Ok(Text {
                inner: TextBytes::Shared(node),
            }),
            Err(refused) => Err(refused),
        }
    }

    /// The text, lent.
    pub fn as_str(&self) -> &str
        ensures { result.now ≡ self.now }
    {
        match &self.inner {
            TextBytes::Short(short) => short.as_str(),
            TextBytes::Shared(node) => node.as_str(),
        }
    }

    /// The same text, in one step. Takes no memory, and is refused only where the owners of a longer one cannot be counted.
    pub fn copy(&self) -> Result<Text, AllocError>
        ensures { IfOk result (λ t. t ≡ self.now) }
    {
        let inner = match &self.inner {
            TextBytes::Short(short) => TextBytes::Short(short.copy()),
            TextBytes::Shared(node) => TextBytes::Shared(Arc::try_clone(node)?),
        };
        Ok(Text { inner })
    }
}

impl PartialEq for Text {
    ghost use Rattle.std.specs.Prelude.{◌==◌};
    ghost use Rattle.std.specs.Cmp.Rules.{comparing};
    ghost use Rattle.std.proofs.Common.{rules};
    ghost use lib.Pointwise.{pointwise};

    ghost eq = { pointwise ◌==◌ };

    ghost laws = { Prim.search (comparing, rules) };

    fn eq(&self, other: &Text) -> bool {
        self.as_str() == other.as_str()
    }
}

impl Eq for Text {
    ghost use Rattle.std.specs.Cmp.Rules.{comparing};
    ghost use Rattle.std.proofs.Common.{rules};

    ghost laws = { Prim.search (comparing, rules) };
}

impl PartialOrd for Text {
    ghost use Rattle.std.specs.Cmp.{partial_order_from_own_ties};
    ghost use Rattle.std.specs.Cmp.Lexicographic.{slice_cmp};
    ghost use Rattle.std.specs.Cmp.Rules.{comparing};
    ghost use Rattle.std.specs.Ordering.{as_partial_cmp, nat_cmp};
    ghost use Rattle.std.proofs.Common.{rules};

    ghost partial_cmp = { as_partial_cmp (slice_cmp nat_cmp) };

    ghost laws = { partial_order_from_own_ties (Prim.search (comparing, rules)) (Prim.search (comparing, rules)) };

    fn partial_cmp(&self, other: &Text) -> Option<Ordering> {
        Some(self.cmp(other))
    }
}

impl Ord for Text {
    ghost use Rattle.std.specs.Cmp.Lexicographic.{slice_cmp};
    ghost use Rattle.std.specs.Cmp.Rules.{comparing};
    ghost use Rattle.std.specs.Ordering.{nat_cmp};
    ghost use Rattle.std.proofs.Common.{rules};

    ghost cmp = { slice_cmp nat_cmp };

    ghost total = { Prim.search (comparing, rules) };

    ghost matches_partial_cmp = { Prim.search (comparing, rules) };

    ghost matches_eq = { Prim.search (comparing, rules) };

    fn cmp(&self, other: &Text) -> Ordering {
        self.as_str().cmp(other.as_str())
    }
}
