//! What a world refuses.

ghost use Rattle.std.specs.Prelude.{◌≡◌};
ghost use Rattle.mls_wire.specs.Names.{refusal_name};
ghost use Rattle.mls_world_plain.specs.Faults.{number_of};
ghost use Rattle.mls_world_plain.specs.declared.error.WorldError.TheVariants.{Leaf as in_leaf, Candidate as in_candidate, Member as in_member};
ghost use Rattle.mls_wire.specs.declared.WireError.TheVariants.{OutOfMemory};
ghost use Rattle.mls_leaf.specs.declared.error.LeafError.TheVariants.{Wire as in_wire};

use mls_candidate::CandidateError;
use mls_leaf::LeafError;
use mls_member::Refusal;
use mls_wire::{WireError, refusal_name};
use std::alloc::{AllocError, AllocFailed};
use thiserror::Error;

/// Why a world refuses.
#[derive(Clone, Copy, Debug, PartialEq, Eq, Error)]
pub enum WorldError {
    /// A source is no message, or a growth was refused.
    #[error("{0}")]
    Leaf(LeafError),
    /// A candidate isn't made.
    #[error("{0}")]
    Candidate(CandidateError),
    /// The member refuses.
    #[error("{0}")]
    Member(Refusal),
    /// No member has this number.
    #[error("no such member")]
    NoSuchMember,
    /// The candidate became a member.
    #[error("the candidate is spent")]
    CandidateSpent,
    /// No candidate has this number.
    #[error("no such candidate")]
    NoSuchCandidate,
    /// A candidate has this signature key.
    #[error("the candidate is repeated")]
    CandidateRepeated,
    /// No message has this number.
    #[error("no such message")]
    NoSuchMessage,
    /// The message is of another kind.
    #[error("another kind of message")]
    WrongMessageKind,
}

impl From<LeafError> for WorldError {
    ghost from_gives = { λ e r. r ≡ in_leaf e };

    fn from(error: LeafError) -> WorldError {
        WorldError::Leaf(error)
    }
}

impl From<CandidateError> for WorldError {
    ghost from_gives = { λ e r. r ≡ in_candidate e };

    fn from(error: CandidateError) -> WorldError {
        WorldError::Candidate(error)
    }
}

impl From<Refusal> for WorldError {
    ghost from_gives = { λ e r. r ≡ in_member e };

    fn from(error: Refusal) -> WorldError {
        WorldError::Member(error)
    }
}

impl From<AllocError> for WorldError {
    ghost from_gives = { λ _ r. r ≡ in_leaf (in_wire OutOfMemory) };

    fn from(_error: AllocError) -> WorldError {
        WorldError::Leaf(LeafError::Wire(WireError::OutOfMemory))
    }
}

impl<T: Drop> From<AllocFailed<T>> for WorldError {
    ghost from_gives = { λ _ r. r ≡ in_leaf (in_wire OutOfMemory) };

    fn from(_error: AllocFailed<T>) -> WorldError {
        WorldError::Leaf(LeafError::Wire(WireError::OutOfMemory))
    }
}

impl WorldError {
    /// The number of the refusal.
    pub fn number(self) -> u8
        ensures { result ≡ number_of self }
    {
        match self {
            WorldError::Leaf(error) => error.number(),
            WorldError::Candidate(error) => error.number(),
            WorldError::Member(error) => error.number(),
            WorldError::NoSuchMember => 90,
            WorldError::CandidateSpent => 91,
            WorldError::NoSuchCandidate => 92,
            WorldError::CandidateRepeated => 93,
            WorldError::NoSuchMessage => 94,
            WorldError::WrongMessageKind => 95,
        }
    }

    /// The name of the refusal, as it is printed.
    pub fn name(self) -> &'static str
        ensures { result.now ≡ refusal_name (number_of self) }
    {
        refusal_name(self.number())
    }
}
