//! What a Welcome isn't made for.

ghost use Rattle.std.specs.Prelude.{◌≡◌};
ghost use Rattle.mls_wire.specs.Names.{refusal_name};
ghost use Rattle.mls_welcome.specs.Faults.{number_of};
ghost use Rattle.mls_welcome.specs.declared.error.WelcomeError.TheVariants.{Leaf as in_leaf};
ghost use Rattle.mls_wire.specs.declared.WireError.TheVariants.{OutOfMemory};
ghost use Rattle.mls_leaf.specs.declared.error.LeafError.TheVariants.{Wire as in_wire};

use mls_leaf::LeafError;
use mls_wire::{WireError, refusal_name};
use std::alloc::{AllocError, AllocFailed};
use thiserror::Error;

/// Why a Welcome isn't made.
#[derive(Clone, Copy, Debug, PartialEq, Eq, Error)]
pub enum WelcomeError {
    /// A text is too long, or a growth was refused.
    #[error("{0}")]
    Leaf(LeafError),
    /// An init key isn't fit.
    #[error("an init key isn't fit")]
    BadKey,
}

impl From<LeafError> for WelcomeError {
    ghost from_gives = { λ e r. r ≡ in_leaf e };

    fn from(error: LeafError) -> WelcomeError {
        WelcomeError::Leaf(error)
    }
}

impl From<AllocError> for WelcomeError {
    ghost from_gives = { λ _ r. r ≡ in_leaf (in_wire OutOfMemory) };

    fn from(_error: AllocError) -> WelcomeError {
        WelcomeError::Leaf(LeafError::Wire(WireError::OutOfMemory))
    }
}

impl<T: Drop> From<AllocFailed<T>> for WelcomeError {
    ghost from_gives = { λ _ r. r ≡ in_leaf (in_wire OutOfMemory) };

    fn from(_error: AllocFailed<T>) -> WelcomeError {
        WelcomeError::Leaf(LeafError::Wire(WireError::OutOfMemory))
    }
}

impl WelcomeError {
    /// The number of the refusal.
    pub fn number(self) -> u8
        ensures { result ≡ number_of self }
    {
        match self {
            WelcomeError::Leaf(error) => error.number(),
            WelcomeError::BadKey => 36,
        }
    }

    /// The name of the refusal, as it is printed.
    pub fn name(self) -> &'static str
        ensures { result.now ≡ refusal_name (number_of self) }
    {
        refusal_name(self.number())
    }
}
