// Why a definition is refused.
use json_tree::{JsonFault, Text};
use std::alloc::{AllocError, AllocFailed};

/// Why a definition is refused. A text is the name of the field, or of the state, that the fault is about.
#[derive(Debug, Drop)]
pub enum MachineFault {
    /// A required field is absent.
    Missing(Text),
    /// A field that the language doesn't have there.
    UnknownField(Text),
    /// A field, or a value of it, that the language has and this program leaves out.
    Unsupported(Text),
    /// A field's value is of a wrong kind.
    BadField(Text),
    /// A field names a state that isn't there.
    NoTarget(Text),
    /// A state has both `Next` and `End`.
    NextAndEnd(Text),
    /// `States.ALL` stands beside another name, or not in the last place.
    StatesAllPlace,
    /// `States` objects nest deeper than 32 levels.
    TooDeep,
    Memory,
}

impl From<AllocError> for MachineFault {
    ghost use Rattle.std.specs.Prelude.{◌≡◌};
    ghost use Rattle.asl_fields.specs.declared.fault.MachineFault.TheVariants.{Memory};

    ghost from_gives = { λ _ e. e ≡ Memory };

    fn from(_refused: AllocError) -> MachineFault {
        MachineFault::Memory
    }
}

impl<T: Drop> From<AllocFailed<T>> for MachineFault {
    ghost use Rattle.std.specs.Prelude.{◌≡◌};
    ghost use Rattle.asl_fields.specs.declared.fault.MachineFault.TheVariants.{Memory};

    ghost from_gives = { λ _ e. e ≡ Memory };

    fn from(_refused: AllocFailed<T>) -> MachineFault {
        MachineFault::Memory
    }
}
