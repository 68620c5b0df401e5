// Errors that states meet by themselves.
ghost use Rattle.std.specs.Prelude.{◌≡◌};
ghost use Rattle.asl_processing.specs.Errors.{error_name};

use std::alloc::AllocError;

/// An error of a state itself ("Errors").
#[derive(Clone, Copy, Debug, PartialEq, Eq)]
pub enum OwnFault {
    Runtime,
    ParameterPathFailure,
    ResultPathMatchFailure,
    NoChoiceMatched,
}

impl OwnFault {
    /// The error's name.
    pub fn name(self) -> &'static str
        ensures { result.now ≡ error_name self }
    {
        match self {
            OwnFault::Runtime => "States.Runtime",
            OwnFault::ParameterPathFailure => "States.ParameterPathFailure",
            OwnFault::ResultPathMatchFailure => "States.ResultPathMatchFailure",
            OwnFault::NoChoiceMatched => "States.NoChoiceMatched",
        }
    }
}

/// Why a value was not made.
#[derive(Clone, Copy, Debug, PartialEq, Eq)]
pub enum TurnFault {
    Error(OwnFault),
    /// An allocation was refused.
    Memory,
}

impl From<AllocError> for TurnFault {
    ghost use Rattle.std.specs.Prelude.{◌≡◌};
    ghost use Rattle.asl_processing.specs.declared.error.TurnFault.TheVariants.{Memory};

    ghost from_gives = { λ _ e. e ≡ Memory };

    fn from(_refused: AllocError) -> TurnFault {
        TurnFault::Memory
    }
}
