//! What is refused of a saved form.

ghost use Rattle.std.specs.Prelude.{◌≡◌};
ghost use Rattle.mls_refusal_kind.specs.RefusalKinds.{kind_of};
ghost use Rattle.mls_saved_state.specs.Faults.{number_of, name_of};
ghost use Rattle.mls_saved_state.specs.declared.error.LoadError.TheVariants.{Leaf as in_leaf, Tree as in_tree};
ghost use Rattle.mls_wire.specs.declared.WireError.TheVariants.{OutOfMemory};
ghost use Rattle.mls_leaf.specs.declared.error.LeafError.TheVariants.{Wire as in_wire};

use mls_leaf::LeafError;
use mls_refusal_kind::{RefusalKind, kind_of};
use mls_tree::TreeError;
use mls_wire::WireError;
use std::alloc::{AllocError, AllocFailed};
use thiserror::Error;

/// Why a saved form isn't loaded.
#[derive(Clone, Copy, Debug, PartialEq, Eq, Error)]
pub enum LoadError {
    /// The bytes are no saved form, or a growth was refused.
    #[error("{0}")]
    Leaf(LeafError),
    /// The ratchet tree isn't good.
    #[error("{0}")]
    Tree(TreeError),
    /// It is of another suite.
    #[error("saved of another suite")]
    OtherSuite,
    /// A secret hasn't 32 bytes, or there are more keys than a path has.
    #[error("no saved secret")]
    BadSecret,
    /// No member is at the saved leaf.
    #[error("no member at the saved leaf")]
    NotAMember,
    /// The tree hash isn't that of the tree.
    #[error("a wrong hash of the saved tree")]
    BadTreeHash,
    /// A private key is missing, isn't due, or isn't that of its public key.
    #[error("a wrong saved key")]
    OtherKey,
}

impl From<LeafError> for LoadError {
    ghost from_gives = { λ e r. r ≡ in_leaf e };

    fn from(error: LeafError) -> LoadError {
        LoadError::Leaf(error)
    }
}

impl From<TreeError> for LoadError {
    ghost from_gives = { λ e r. r ≡ in_tree e };

    fn from(error: TreeError) -> LoadError {
        LoadError::Tree(error)
    }
}

impl From<AllocError> for LoadError {
    ghost from_gives = { λ _ r. r ≡ in_leaf (in_wire OutOfMemory) };

    fn from(_error: AllocError) -> LoadError {
        LoadError::Leaf(LeafError::Wire(WireError::OutOfMemory))
    }
}

impl<T: Drop> From<AllocFailed<T>> for LoadError {
    ghost from_gives = { λ _ r. r ≡ in_leaf (in_wire OutOfMemory) };

    fn from(_error: AllocFailed<T>) -> LoadError {
        LoadError::Leaf(LeafError::Wire(WireError::OutOfMemory))
    }
}

impl LoadError {
    /// The number of the refusal.
    pub fn number(self) -> u8
        ensures { result ≡ number_of self }
    {
        match self {
            LoadError::Leaf(error) => error.number(),
            LoadError::Tree(error) => error.number(),
            LoadError::OtherSuite => 100,
            LoadError::BadSecret => 101,
            LoadError::NotAMember => 102,
            LoadError::BadTreeHash => 103,
            LoadError::OtherKey => 104,
        }
    }

    /// The name of the refusal, as it is printed.
    pub fn name(self) -> &'static str
        ensures { result.now ≡ name_of self }
    {
        match self {
            LoadError::Leaf(error) => error.name(),
            LoadError::Tree(error) => error.name(),
            LoadError::OtherSuite => "OtherSuite",
            LoadError::BadSecret => "BadSecret",
            LoadError::NotAMember => "NotAMember",
            LoadError::BadTreeHash => "BadTreeHash",
            LoadError::OtherKey => "OtherKey",
        }
    }

    /// What a caller may do about it, by its number.
    pub fn kind(self) -> RefusalKind
        ensures { result ≡ kind_of (number_of self) }
    {
        kind_of(self.number())
    }
}
