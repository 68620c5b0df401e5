//! Why a value, an item or a key is refused.

use std::alloc::{AllocError, AllocFailed};
use thiserror::Error;

/// Why a value, an item or a key is refused.
#[derive(Clone, Copy, Debug, Drop, PartialEq, Eq, Error)]
pub enum ItemFault {
    /// A value that is not of the grammar, apart from the text of a number.
    #[error("not an attribute value")]
    BadValue,
    /// The text of a number that is none, or is past its bounds.
    #[error("not a number")]
    BadNumber,
    /// An item without an attribute of its key.
    #[error("no key")]
    NoKey,
    /// A key's attribute of another type.
    #[error("a key of another type")]
    KeyType,
    /// A key's text that is empty.
    #[error("an empty key")]
    EmptyKey,
    /// A growth was refused.
    #[error("out of memory")]
    Memory,
}

impl From<AllocError> for ItemFault {
    ghost use Rattle.std.specs.Prelude.{◌≡◌};
    ghost use Rattle.attr_values.specs.declared.fault.ItemFault.TheVariants.{Memory};

    ghost from_gives = { λ _ e. e ≡ Memory };

    fn from(_refused: AllocError) -> ItemFault {
        ItemFault::Memory
    }
}

impl<T: Drop> From<AllocFailed<T>> for ItemFault {
    ghost use Rattle.std.specs.Prelude.{◌≡◌};
    ghost use Rattle.attr_values.specs.declared.fault.ItemFault.TheVariants.{Memory};

    ghost from_gives = { λ _ e. e ≡ Memory };

    fn from(_refused: AllocFailed<T>) -> ItemFault {
        ItemFault::from(AllocError)
    }
}
