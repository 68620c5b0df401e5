use std::alloc::{AllocError, AllocFailed};
use thiserror::Error;

/// Why no JSON value was read.
#[derive(Clone, Copy, Debug, Drop, PartialEq, Eq, Error)]
pub enum JsonFault {
    /// The bytes are no JSON text (RFC 8259), are not UTF-8, nest deeper than 127 levels, or hold a number too large
    /// for a double.
    #[error("not JSON")]
    NotJson,
    /// Some number is not an integer of 64 bits with a sign.
    #[error("a number is not whole")]
    NotWhole,
    /// An allocation was refused.
    #[error("out of memory")]
    Memory,
}

impl From<AllocError> for JsonFault {
    ghost use Rattle.std.specs.Prelude.{◌≡◌};
    ghost use Rattle.json_tree.specs.declared.fault.JsonFault.TheVariants.{Memory};

    ghost from_gives = { λ _ e. e ≡ Memory };

    fn from(_refused: AllocError) -> JsonFault {
        JsonFault::Memory
    }
}

impl<T: Drop> From<AllocFailed<T>> for JsonFault {
    ghost use Rattle.std.specs.Prelude.{◌≡◌};
    ghost use Rattle.json_tree.specs.declared.fault.JsonFault.TheVariants.{Memory};

    ghost from_gives = { λ _ e. e ≡ Memory };

    fn from(_refused: AllocFailed<T>) -> JsonFault {
        JsonFault::from(AllocError)
    }
}
