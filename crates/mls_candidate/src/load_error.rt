//! What a saved candidate is refused for.

ghost use Rattle.std.specs.Prelude.{◌≡◌};
ghost use Rattle.mls_refusal_kind.specs.RefusalKinds.{kind_of};
ghost use Rattle.mls_candidate.specs.LoadFaults.{number_of, name_of};
ghost use Rattle.mls_candidate.specs.declared.load_error.CandidateLoadError.TheVariants.{Leaf as in_leaf, Check as in_check};
ghost use Rattle.mls_wire.specs.declared.WireError.TheVariants.{OutOfMemory};
ghost use Rattle.mls_leaf.specs.declared.error.LeafError.TheVariants.{Wire as in_wire};

use mls_checks::CheckError;
use mls_leaf::LeafError;
use mls_refusal_kind::{RefusalKind, kind_of};
use mls_wire::WireError;
use std::alloc::{AllocError, AllocFailed};
use thiserror::Error;

/// Why a saved candidate isn't loaded.
#[derive(Clone, Copy, Debug, PartialEq, Eq, Error)]
pub enum CandidateLoadError {
    /// The bytes are no saved candidate, or a growth was refused.
    #[error("{0}")]
    Leaf(LeafError),
    /// The KeyPackage doesn't pass its checks.
    #[error("{0}")]
    Check(CheckError),
    /// The candidate is of another suite.
    #[error("saved of another suite")]
    OtherSuite,
    /// A secret hasn't 32 bytes.
    #[error("no saved secret")]
    BadSecret,
    /// A private key isn't that of the public key that is offered.
    #[error("a wrong saved key")]
    OtherKey,
}

impl From<LeafError> for CandidateLoadError {
    ghost from_gives = { λ e r. r ≡ in_leaf e };

    fn from(error: LeafError) -> CandidateLoadError {
        CandidateLoadError::Leaf(error)
    }
}

impl From<CheckError> for CandidateLoadError {
    ghost from_gives = { λ e r. r ≡ in_check e };

    fn from(error: CheckError) -> CandidateLoadError {
        CandidateLoadError::Check(error)
    }
}

impl From<AllocError> for CandidateLoadError {
    ghost from_gives = { λ _ r. r ≡ in_leaf (in_wire OutOfMemory) };

    fn from(_error: AllocError) -> CandidateLoadError {
        CandidateLoadError::Leaf(LeafError::Wire(WireError::OutOfMemory))
    }
}

impl<T: Drop> From<AllocFailed<T>> for CandidateLoadError {
    ghost from_gives = { λ _ r. r ≡ in_leaf (in_wire OutOfMemory) };

    fn from(_error: AllocFailed<T>) -> CandidateLoadError {
        CandidateLoadError::Leaf(LeafError::Wire(WireError::OutOfMemory))
    }
}

impl CandidateLoadError {
    /// The number of the refusal.
    pub fn number(self) -> u8
        ensures { result ≡ number_of self }
    {
        match self {
            CandidateLoadError::Leaf(error) => error.number(),
            CandidateLoadError::Check(error) => error.number(),
            CandidateLoadError::OtherSuite => 100,
            CandidateLoadError::BadSecret => 101,
            CandidateLoadError::OtherKey => 104,
        }
    }

    /// The name of the refusal, as it is printed.
    pub fn name(self) -> &'static str
        ensures { result.now ≡ name_of self }
    {
        match self {
            CandidateLoadError::Leaf(error) => error.name(),
            CandidateLoadError::Check(error) => error.name(),
            CandidateLoadError::OtherSuite => "OtherSuite",
            CandidateLoadError::BadSecret => "BadSecret",
            CandidateLoadError::OtherKey => "OtherKey",
        }
    }

    /// What a caller may do about it, by its number.
    pub fn kind(self) -> RefusalKind
        ensures { result ≡ kind_of (number_of self) }
    {
        kind_of(self.number())
    }
}
