//! Why a JSON file isn't taken.

ghost use Rattle.std.specs.Prelude.{◌≡◌};
ghost use Rattle.mls_wire.specs.Names.{refusal_name};
ghost use Rattle.mls_cli_json.specs.Faults.{number_of};
ghost use Rattle.mls_cli_json.specs.declared.error.JsonError.TheVariants.{OutOfMemory};

use mls_wire::refusal_name;
use std::alloc::{AllocError, AllocFailed};
use thiserror::Error;

/// Why a JSON file isn't taken.
#[derive(Clone, Copy, Debug, PartialEq, Eq, Error)]
pub enum JsonError {
    /// A growth was refused.
    #[error("out of memory")]
    OutOfMemory,
    /// A text is no hex.
    #[error("a text that isn't hex")]
    NotHex,
    /// The file is no JSON, or not of the shape that it should have.
    #[error("no JSON of the shape that is asked for")]
    BadJson,
}

impl JsonError {
    /// The number of the refusal.
    pub fn number(self) -> u8
        ensures { result ≡ number_of self }
    {
        match self {
            JsonError::OutOfMemory => 1,
            JsonError::NotHex => 8,
            JsonError::BadJson => 9,
        }
    }

    /// The name of the refusal, as it is printed.
    pub fn name(self) -> &'static str
        ensures { result.now ≡ refusal_name (number_of self) }
    {
        refusal_name(self.number())
    }
}

impl From<AllocError> for JsonError {
    ghost from_gives = { λ _ e. e ≡ OutOfMemory };

    fn from(_error: AllocError) -> JsonError {
        JsonError::OutOfMemory
    }
}

impl<T: Drop> From<AllocFailed<T>> for JsonError {
    ghost from_gives = { λ _ e. e ≡ OutOfMemory };

    fn from(_error: AllocFailed<T>) -> JsonError {
        JsonError::OutOfMemory
    }
}
