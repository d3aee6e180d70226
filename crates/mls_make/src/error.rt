//! What a commit isn't made for.

ghost use Rattle.std.specs.Prelude.{◌≡◌};
ghost use Rattle.mls_wire.specs.Names.{refusal_name};
ghost use Rattle.mls_make.specs.Faults.{number_of};
ghost use Rattle.mls_make.specs.declared.error.MakeError.TheVariants.{Leaf as in_leaf, Group as in_group, Path as in_path, Welcome as in_welcome};
ghost use Rattle.mls_wire.specs.declared.WireError.TheVariants.{OutOfMemory};
ghost use Rattle.mls_leaf.specs.declared.error.LeafError.TheVariants.{Wire as in_wire};

use mls_leaf::LeafError;
use mls_public_group::GroupError;
use mls_update_path::PathError;
use mls_welcome::WelcomeError;
use mls_wire::{WireError, refusal_name};
use std::alloc::{AllocError, AllocFailed};
use thiserror::Error;

/// Why a commit isn't made.
#[derive(Clone, Copy, Debug, PartialEq, Eq, Error)]
pub enum MakeError {
    /// A text is too long, or a growth was refused.
    #[error("{0}")]
    Leaf(LeafError),
    /// A proposal isn't applied.
    #[error("{0}")]
    Group(GroupError),
    /// The path isn't made.
    #[error("{0}")]
    Path(PathError),
    /// The Welcome isn't made.
    #[error("{0}")]
    Welcome(WelcomeError),
}

impl From<LeafError> for MakeError {
    ghost from_gives = { λ e r. r ≡ in_leaf e };

    fn from(error: LeafError) -> MakeError {
        MakeError::Leaf(error)
    }
}

impl From<GroupError> for MakeError {
    ghost from_gives = { λ e r. r ≡ in_group e };

    fn from(error: GroupError) -> MakeError {
        MakeError::Group(error)
    }
}

impl From<PathError> for MakeError {
    ghost from_gives = { λ e r. r ≡ in_path e };

    fn from(error: PathError) -> MakeError {
        MakeError::Path(error)
    }
}

impl From<WelcomeError> for MakeError {
    ghost from_gives = { λ e r. r ≡ in_welcome e };

    fn from(error: WelcomeError) -> MakeError {
        MakeError::Welcome(error)
    }
}

impl From<AllocError> for MakeError {
    ghost from_gives = { λ _ r. r ≡ in_leaf (in_wire OutOfMemory) };

    fn from(_error: AllocError) -> MakeError {
        MakeError::Leaf(LeafError::Wire(WireError::OutOfMemory))
    }
}

impl<T: Drop> From<AllocFailed<T>> for MakeError {
    ghost from_gives = { λ _ r. r ≡ in_leaf (in_wire OutOfMemory) };

    fn from(_error: AllocFailed<T>) -> MakeError {
        MakeError::Leaf(LeafError::Wire(WireError::OutOfMemory))
    }
}

impl MakeError {
    /// The number of the refusal.
    pub fn number(self) -> u8
        ensures { result ≡ number_of self }
    {
        match self {
            MakeError::Leaf(error) => error.number(),
            MakeError::Group(error) => error.number(),
            MakeError::Path(error) => error.number(),
            MakeError::Welcome(error) => error.number(),
        }
    }

    /// The name of the refusal, as it is printed.
    pub fn name(self) -> &'static str
        ensures { result.now ≡ refusal_name (number_of self) }
    {
        refusal_name(self.number())
    }
}
