//! What a candidate is refused for.

ghost use Rattle.std.specs.Prelude.{◌≡◌};
ghost use Rattle.mls_wire.specs.Names.{refusal_name};
ghost use Rattle.mls_candidate.specs.Faults.{number_of};
ghost use Rattle.mls_refusal_kind.specs.RefusalKinds.{kind_of};
ghost use Rattle.mls_candidate.specs.declared.error.CandidateError.TheVariants.{Leaf as in_leaf};
ghost use Rattle.mls_wire.specs.declared.WireError.TheVariants.{OutOfMemory};
ghost use Rattle.mls_leaf.specs.declared.error.LeafError.TheVariants.{Wire as in_wire};

use mls_leaf::LeafError;
use mls_refusal_kind::{RefusalKind, kind_of};
use mls_wire::{WireError, refusal_name};
use std::alloc::{AllocError, AllocFailed};
use thiserror::Error;

/// Why a candidate or a leaf isn't made.
#[derive(Clone, Copy, Debug, PartialEq, Eq, Error)]
pub enum CandidateError {
    /// A text is too long, or a growth was refused.
    #[error("{0}")]
    Leaf(LeafError),
    /// The init key is the leaf's key.
    #[error("the init key is the leaf's key")]
    InitKeySame,
}

impl From<LeafError> for CandidateError {
    ghost from_gives = { λ e r. r ≡ in_leaf e };

    fn from(error: LeafError) -> CandidateError {
        CandidateError::Leaf(error)
    }
}

impl From<AllocError> for CandidateError {
    ghost from_gives = { λ _ r. r ≡ in_leaf (in_wire OutOfMemory) };

    fn from(_error: AllocError) -> CandidateError {
        CandidateError::Leaf(LeafError::Wire(WireError::OutOfMemory))
    }
}

impl<T: Drop> From<AllocFailed<T>> for CandidateError {
    ghost from_gives = { λ _ r. r ≡ in_leaf (in_wire OutOfMemory) };

    fn from(_error: AllocFailed<T>) -> CandidateError {
        CandidateError::Leaf(LeafError::Wire(WireError::OutOfMemory))
    }
}

impl CandidateError {
    /// The number of the refusal.
    pub fn number(self) -> u8
        ensures { result ≡ number_of self }
    {
        match self {
            CandidateError::Leaf(error) => error.number(),
            CandidateError::InitKeySame => 57,
        }
    }

    /// The name of the refusal, as it is printed.
    pub fn name(self) -> &'static str
        ensures { result.now ≡ refusal_name (number_of self) }
    {
        refusal_name(self.number())
    }

    /// What a caller may do about it, by its number.
    pub fn kind(self) -> RefusalKind
        ensures { result ≡ kind_of (number_of self) }
    {
        kind_of(self.number())
    }
}
