//! What a group refuses.

ghost use Rattle.std.specs.Prelude.{◌≡◌};
ghost use Rattle.mls_wire.specs.Names.{refusal_name};
ghost use Rattle.mls_public_group.specs.Faults.{number_of};
ghost use Rattle.mls_public_group.specs.declared.error.GroupError.TheVariants.{Tree as in_tree, Check as in_check};
ghost use Rattle.mls_tree.specs.declared.error.TreeError.TheVariants.{OutOfMemory};

use mls_checks::CheckError;
use mls_tree::TreeError;
use mls_wire::refusal_name;
use std::alloc::{AllocError, AllocFailed};
use thiserror::Error;

/// Why proposals aren't applied.
#[derive(Clone, Copy, Debug, PartialEq, Eq, Error)]
pub enum GroupError {
    /// The tree refuses, or a growth was refused.
    #[error("{0}")]
    Tree(TreeError),
    /// A leaf or a KeyPackage fails its checks.
    #[error("{0}")]
    Check(CheckError),
    /// A commit updates its committer.
    #[error("the committer is updated")]
    CommitterUpdate,
    /// A commit removes its committer.
    #[error("the committer is removed")]
    CommitterRemoved,
    /// Two updates or removes concern one leaf.
    #[error("one leaf is changed twice")]
    SameLeafTwice,
    /// Two proposals have extensions for the group.
    #[error("two lists of extensions")]
    SecondExtensions,
}

impl From<TreeError> for GroupError {
    ghost from_gives = { λ e r. r ≡ in_tree e };

    fn from(error: TreeError) -> GroupError {
        GroupError::Tree(error)
    }
}

impl From<CheckError> for GroupError {
    ghost from_gives = { λ e r. r ≡ in_check e };

    fn from(error: CheckError) -> GroupError {
        GroupError::Check(error)
    }
}

impl From<AllocError> for GroupError {
    ghost from_gives = { λ _ r. r ≡ in_tree OutOfMemory };

    fn from(_error: AllocError) -> GroupError {
        GroupError::Tree(TreeError::OutOfMemory)
    }
}

impl<T: Drop> From<AllocFailed<T>> for GroupError {
    ghost from_gives = { λ _ r. r ≡ in_tree OutOfMemory };

    fn from(_error: AllocFailed<T>) -> GroupError {
        GroupError::Tree(TreeError::OutOfMemory)
    }
}

impl GroupError {
    /// The number of the refusal.
    pub fn number(self) -> u8
        ensures { result ≡ number_of self }
    {
        match self {
            GroupError::Tree(error) => error.number(),
            GroupError::Check(error) => error.number(),
            GroupError::CommitterUpdate => 61,
            GroupError::CommitterRemoved => 62,
            GroupError::SameLeafTwice => 63,
            GroupError::SecondExtensions => 68,
        }
    }

    /// The name of the refusal, as it is printed.
    pub fn name(self) -> &'static str
        ensures { result.now ≡ refusal_name (number_of self) }
    {
        refusal_name(self.number())
    }
}
