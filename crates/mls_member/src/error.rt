//! What a member refuses.

ghost use Rattle.std.specs.Prelude.{◌≡◌};
ghost use Rattle.mls_refusal_kind.specs.RefusalKinds.{kind_of};
ghost use Rattle.mls_wire.specs.Names.{refusal_name};
ghost use Rattle.mls_member.specs.Faults.{number_of};
ghost use Rattle.mls_member.specs.declared.error.Refusal.TheVariants.{Leaf as in_leaf, Group as in_group, Commit as in_commit, Keys as in_keys, Candidate as in_candidate, Join as in_join, Make as in_make};
ghost use Rattle.mls_wire.specs.declared.WireError.TheVariants.{OutOfMemory};
ghost use Rattle.mls_leaf.specs.declared.error.LeafError.TheVariants.{Wire as in_wire};

use mls_candidate::CandidateError;
use mls_commit::CommitError;
use mls_join::JoinError;
use mls_leaf::LeafError;
use mls_make::MakeError;
use mls_public_group::GroupError;
use mls_refusal_kind::{RefusalKind, kind_of};
use mls_treekem::TreeKemError;
use mls_wire::{WireError, refusal_name};
use std::alloc::{AllocError, AllocFailed};
use thiserror::Error;

/// Why a member refuses.
#[derive(Clone, Copy, Debug, PartialEq, Eq, Error)]
pub enum Refusal {
    /// The bytes are no message, a text is too long, or a growth was refused.
    #[error("{0}")]
    Leaf(LeafError),
    /// A proposal fails its checks, or isn't applied.
    #[error("{0}")]
    Group(GroupError),
    /// A commit fails its checks.
    #[error("{0}")]
    Commit(CommitError),
    /// A path secret isn't opened.
    #[error("{0}")]
    Keys(TreeKemError),
    /// A candidate isn't made: for callers that make one beside a member, since no call of a member answers it.
    #[error("{0}")]
    Candidate(CandidateError),
    /// A Welcome isn't followed.
    #[error("{0}")]
    Join(JoinError),
    /// A commit isn't made.
    #[error("{0}")]
    Make(MakeError),
    /// The member was removed.
    #[error("the member was removed")]
    Gone,
    /// The message is no PublicMessage.
    #[error("no PublicMessage")]
    NotPublicMessage,
    /// The message is of another group.
    #[error("another group")]
    WrongGroup,
    /// The message is of another epoch.
    #[error("another epoch")]
    WrongEpoch,
    /// No member is at the sender's leaf.
    #[error("the sender is no member")]
    SenderNotMember,
    /// The message carries application data.
    #[error("application data")]
    NotHandshake,
    /// The membership tag isn't that of the message.
    #[error("a wrong membership tag")]
    BadMembershipTag,
    /// The sender's signature doesn't verify.
    #[error("the signature doesn't verify")]
    BadSignature,
    /// The sender is the member itself, which keeps no such proposal.
    #[error("an own message that isn't kept")]
    OwnUnknown,
    /// Another message is kept under the proposal's reference.
    #[error("the reference is taken")]
    ReferenceTaken,
    /// No proposal is kept under a reference.
    #[error("an unknown reference")]
    UnknownReference,
    /// The confirmation tag isn't that of the new epoch.
    #[error("a wrong confirmation tag")]
    BadConfirmationTag,
    /// No epoch comes after this one.
    #[error("no epoch comes after this one")]
    EpochEnd,
    /// The member has a pending commit.
    #[error("a commit is pending")]
    PendingCommit,
}

impl From<LeafError> for Refusal {
    ghost from_gives = { λ e r. r ≡ in_leaf e };

    fn from(error: LeafError) -> Refusal {
        Refusal::Leaf(error)
    }
}

impl From<GroupError> for Refusal {
    ghost from_gives = { λ e r. r ≡ in_group e };

    fn from(error: GroupError) -> Refusal {
        Refusal::Group(error)
    }
}

impl From<CommitError> for Refusal {
    ghost from_gives = { λ e r. r ≡ in_commit e };

    fn from(error: CommitError) -> Refusal {
        Refusal::Commit(error)
    }
}

impl From<TreeKemError> for Refusal {
    ghost from_gives = { λ e r. r ≡ in_keys e };

    fn from(error: TreeKemError) -> Refusal {
        Refusal::Keys(error)
    }
}

impl From<CandidateError> for Refusal {
    ghost from_gives = { λ e r. r ≡ in_candidate e };

    fn from(error: CandidateError) -> Refusal {
        Refusal::Candidate(error)
    }
}

impl From<JoinError> for Refusal {
    ghost from_gives = { λ e r. r ≡ in_join e };

    fn from(error: JoinError) -> Refusal {
        Refusal::Join(error)
    }
}

impl From<MakeError> for Refusal {
    ghost from_gives = { λ e r. r ≡ in_make e };

    fn from(error: MakeError) -> Refusal {
        Refusal::Make(error)
    }
}

impl From<AllocError> for Refusal {
    ghost from_gives = { λ _ r. r ≡ in_leaf (in_wire OutOfMemory) };

    fn from(_error: AllocError) -> Refusal {
        Refusal::Leaf(LeafError::Wire(WireError::OutOfMemory))
    }
}

impl<T: Drop> From<AllocFailed<T>> for Refusal {
    ghost from_gives = { λ _ r. r ≡ in_leaf (in_wire OutOfMemory) };

    fn from(_error: AllocFailed<T>) -> Refusal {
        Refusal::Leaf(LeafError::Wire(WireError::OutOfMemory))
    }
}

impl Refusal {
    /// The number of the refusal.
    pub fn number(self) -> u8
        ensures { result ≡ number_of self }
    {
        match self {
            Refusal::Leaf(error) => error.number(),
            Refusal::Group(error) => error.number(),
            Refusal::Commit(error) => error.number(),
            Refusal::Keys(error) => error.number(),
            Refusal::Candidate(error) => error.number(),
            Refusal::Join(error) => error.number(),
            Refusal::Make(error) => error.number(),
            Refusal::Gone => 40,
            Refusal::NotPublicMessage => 41,
            Refusal::WrongGroup => 42,
            Refusal::WrongEpoch => 43,
            Refusal::SenderNotMember => 44,
            Refusal::NotHandshake => 45,
            Refusal::BadMembershipTag => 46,
            Refusal::BadSignature => 47,
            Refusal::OwnUnknown => 48,
            Refusal::ReferenceTaken => 49,
            Refusal::UnknownReference => 60,
            Refusal::BadConfirmationTag => 65,
            Refusal::EpochEnd => 66,
            Refusal::PendingCommit => 67,
        }
    }

    /// The name of the refusal, as it is printed.
    pub fn name(self) -> &'static str
        ensures { result.now ≡ refusal_name (number_of self) }
    {
        refusal_name(self.number())
    }

    /// What a caller may do about it, by its number.
    pub fn kind(self) -> RefusalKind
        ensures { result ≡ kind_of (number_of self) }
    {
        kind_of(self.number())
    }
}
