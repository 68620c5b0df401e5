//! Why a call touches no item.

ghost use Rattle.std.specs.Prelude.{◌≡◌, option_map};
ghost use Rattle.item_store.specs.Faults.{error_of};

use std::alloc::{AllocError, AllocFailed};
use thiserror::Error;

/// Why a call touches no item.
#[derive(Clone, Copy, Debug, Drop, PartialEq, Eq, Error)]
pub enum CallFault {
    /// It is not of the API's form.
    #[error("no call")]
    Malformed,
    /// It asks another table.
    #[error("another table")]
    WrongTable,
    /// Its item or key has no key of this table.
    #[error("no key of this table")]
    BadKey,
    /// A growth was refused.
    #[error("out of memory")]
    Memory,
}

impl CallFault {
    /// The name of the error that the caller of the API is told. None for want of memory, which is no answer of the table.
    pub fn error_name(&self) -> Option<&'static str>
        ensures { option_map (λ s. s.now) result ≡ error_of self.now }
    {
        match self {
            CallFault::Malformed | CallFault::BadKey => Some("DynamoDB.ValidationException"),
            CallFault::WrongTable => Some("DynamoDB.ResourceNotFoundException"),
            CallFault::Memory => None,
        }
    }
}

impl From<AllocError> for CallFault {
    ghost use Rattle.std.specs.Prelude.{◌≡◌};
    ghost use Rattle.item_store.specs.declared.fault.CallFault.TheVariants.{Memory};

    ghost from_gives = { λ _ e. e ≡ Memory };

    fn from(_refused: AllocError) -> CallFault {
        CallFault::Memory
    }
}
