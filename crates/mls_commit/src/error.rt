//! What a commit is refused for.

ghost use Rattle.std.specs.Prelude.{◌≡◌};
ghost use Rattle.mls_wire.specs.Names.{refusal_name};
ghost use Rattle.mls_commit.specs.Faults.{number_of};
ghost use Rattle.mls_commit.specs.declared.error.CommitError.TheVariants.{Group as in_group};
ghost use Rattle.mls_public_group.specs.declared.error.GroupError.TheVariants.{Tree as of_tree, Check as of_check};
ghost use Rattle.mls_tree.specs.declared.error.TreeError.TheVariants.{OutOfMemory};

use mls_checks::CheckError;
use mls_public_group::GroupError;
use mls_tree::TreeError;
use mls_wire::refusal_name;
use std::alloc::{AllocError, AllocFailed};
use thiserror::Error;

/// Why a commit doesn't lead to a next public state.
#[derive(Clone, Copy, Debug, PartialEq, Eq, Error)]
pub enum CommitError {
    /// The proposals aren't applied, or the path isn't merged.
    #[error("{0}")]
    Group(GroupError),
    /// A node of the path hasn't as many ciphertexts as are due.
    #[error("a number of ciphertexts is wrong")]
    CipherCount,
    /// A path is required and missing.
    #[error("a path is missing")]
    PathMissing,
}

impl From<GroupError> for CommitError {
    ghost from_gives = { λ e r. r ≡ in_group e };

    fn from(error: GroupError) -> CommitError {
        CommitError::Group(error)
    }
}

impl From<TreeError> for CommitError {
    ghost from_gives = { λ e r. r ≡ in_group (of_tree e) };

    fn from(error: TreeError) -> CommitError {
        CommitError::Group(GroupError::Tree(error))
    }
}

impl From<CheckError> for CommitError {
    ghost from_gives = { λ e r. r ≡ in_group (of_check e) };

    fn from(error: CheckError) -> CommitError {
        CommitError::Group(GroupError::Check(error))
    }
}

impl From<AllocError> for CommitError {
    ghost from_gives = { λ _ r. r ≡ in_group (of_tree OutOfMemory) };

    fn from(_error: AllocError) -> CommitError {
        CommitError::Group(GroupError::Tree(TreeError::OutOfMemory))
    }
}

impl<T: Drop> From<AllocFailed<T>> for CommitError {
    ghost from_gives = { λ _ r. r ≡ in_group (of_tree OutOfMemory) };

    fn from(_error: AllocFailed<T>) -> CommitError {
        CommitError::Group(GroupError::Tree(TreeError::OutOfMemory))
    }
}

impl CommitError {
    /// The number of the refusal.
    pub fn number(self) -> u8
        ensures { result ≡ number_of self }
    {
        match self {
            CommitError::Group(error) => error.number(),
            CommitError::CipherCount => 31,
            CommitError::PathMissing => 64,
        }
    }

    /// The name of the refusal, as it is printed.
    pub fn name(self) -> &'static str
        ensures { result.now ≡ refusal_name (number_of self) }
    {
        refusal_name(self.number())
    }
}
