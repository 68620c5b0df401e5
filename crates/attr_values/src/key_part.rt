//! What an attribute gives to a key.

ghost use Rattle.std.specs.Prelude.{◌≡◌, ◌↔◌, [], IsNone, IfSome, IfOk};

use crate::key_order::compare_parts;
use crate::number::Number;
use json_tree::Text;
use std::alloc::AllocError;
use std::cmp::Ordering;
use std::hash::{Hash, Hasher};
use std::marker::Model;

/// A text that is not empty. Contracts see its bytes.
#[derive(Debug, Drop)]
pub struct KeyText {
    inner: Text,
}

impl Model for KeyText {
    ghost use Rattle.std.specs.Prelude.{◌≢◌, List, ℕ, []};

    ghost Value = { List ℕ };

    ghost view = { λ a. a.inner };

    ghost invariant = { λ a. a.inner ≢ [] };
}

/// What one attribute gives to a key.
#[derive(Debug, Drop)]
pub enum KeyPart {
    S(KeyText),
    N(Number),
}

impl KeyText {
    /// The same text, in the memory that it has, if it is not empty.
    pub fn new(inner: Text) -> Option<KeyText>
        ensures empty { IsNone result ↔ (inner ≡ []) }
        ensures same { IfSome result (λ t. t ≡ inner) }
    {
        if inner.as_str().is_empty() {
            None
        } else {
            Some(KeyText { inner })
        }
    }

    pub fn as_str(&self) -> &str
        ensures { result.now ≡ self.now }
    {
        self.inner.as_str()
    }

    /// The same text, in one step. Takes no memory, as it is shared.
    pub fn copy(&self) -> Result<KeyText, AllocError>
        ensures { IfOk result (λ t. t ≡ self.now) }
    {
        Ok(KeyText {
            inner: self.inner.copy()?,
        })
    }
}

impl KeyPart {
    /// The same part, in one step. Takes no memory, as a text is shared.
    pub fn copy(&self) -> Result<KeyPart, AllocError>
        ensures { IfOk result (λ p. p ≡ self.now) }
    {
        match self {
            KeyPart::S(text) => Ok(KeyPart::S(text.copy()?)),
            KeyPart::N(number) => Ok(KeyPart::N(*number)),
        }
    }
}

impl PartialEq for KeyPart {
    ghost use Rattle.std.specs.Cmp.{eq_by_cmp_equiv, partial_equiv_from_equiv};
    ghost use Rattle.std.specs.Ordering.{eq_by_cmp};
    ghost use Rattle.attr_values.specs.Key.{part_cmp};
    ghost use Rattle.attr_values.specs.KeyOrder.{part_cmp_total};

    ghost eq = { eq_by_cmp part_cmp };

    ghost laws = { partial_equiv_from_equiv (eq_by_cmp_equiv part_cmp_total) };

    fn eq(&self, other: &KeyPart) -> bool {
        self.cmp(other).is_eq()
    }
}

impl Eq for KeyPart {
    ghost use Rattle.std.specs.Cmp.{eq_by_cmp_equiv};
    ghost use Rattle.attr_values.specs.KeyOrder.{part_cmp_total};

    ghost laws = { eq_by_cmp_equiv part_cmp_total };
}

impl PartialOrd for KeyPart {
    ghost use Rattle.std.specs.Prelude.{refl};
    ghost use Rattle.std.specs.Cmp.{partial_order_from_agreeing_total};
    ghost use Rattle.std.specs.Ordering.{as_partial_cmp};
    ghost use Rattle.attr_values.specs.Key.{part_cmp};
    ghost use Rattle.attr_values.specs.KeyOrder.{part_cmp_total};

    ghost partial_cmp = { as_partial_cmp part_cmp };

    ghost laws = { partial_order_from_agreeing_total part_cmp part_cmp_total (λ _ _. refl) (λ _ _. refl) };

    fn partial_cmp(&self, other: &KeyPart) -> Option<Ordering> {
        Some(self.cmp(other))
    }
}

impl Ord for KeyPart {
    ghost use Rattle.std.specs.Prelude.{refl};
    ghost use Rattle.attr_values.specs.Key.{part_cmp};
    ghost use Rattle.attr_values.specs.KeyOrder.{part_cmp_total};

    ghost cmp = { part_cmp };

    ghost total = { part_cmp_total };

    ghost matches_partial_cmp = { λ _ _. refl };

    ghost matches_eq = { λ _ _. refl };

    fn cmp(&self, other: &KeyPart) -> Ordering {
        compare_parts(self, other)
    }
}

impl Hash for KeyPart {
    ghost use Rattle.attr_values.specs.Key.{part_input};
    ghost use Rattle.attr_values.specs.KeyOrder.{part_input_equal};

    ghost hash_input = { part_input };

    ghost respects_eq = { part_input_equal };

    fn hash<H: Hasher>(&self, state: &mut H) {
        match self {
            KeyPart::S(text) => {
                state.write_u8(0);
                text.as_str().hash(state);
            }
            KeyPart::N(number) => {
                state.write_u8(1);
                number.hash(state);
            }
        }
    }
}
