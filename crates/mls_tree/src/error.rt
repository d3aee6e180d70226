//! What a tree refuses.

ghost use Rattle.std.specs.Prelude.{◌≡◌};

use mls_wire::refusal_name;
use std::alloc::{AllocError, AllocFailed};
use thiserror::Error;

/// Why nodes are no tree of a group, or an edit isn't made.
#[derive(Clone, Copy, Debug, PartialEq, Eq, Error)]
pub enum TreeError {
    /// A growth was refused.
    #[error("out of memory")]
    OutOfMemory,
    /// The nodes stand for no tree: there is none, the last is blank, a leaf or a parent is out of its place, or the
    /// right half has no member.
    #[error("no tree has these nodes")]
    TreeShape,
    /// The tree would have too many leaves.
    #[error("the tree is full")]
    TreeFull,
    /// No member is at that leaf.
    #[error("no member is at that leaf")]
    NoSuchLeaf,
    /// A list of unmerged leaves names a leaf that isn't a member below its parent, or that a parent between doesn't
    /// list.
    #[error("a list of unmerged leaves is wrong")]
    UnmergedWrong,
    /// A commit's leaf hasn't the parent hash of its path, or a parent isn't parent-hash valid.
    #[error("a parent hash is wrong")]
    ParentHashWrong,
    /// Two nodes have, or would have, one encryption key.
    #[error("two nodes have one encryption key")]
    KeyRepeated,
    /// Two members have one signature key.
    #[error("two members have one signature key")]
    ClientRepeated,
    /// A path hasn't as many keys as the filtered direct path has parents.
    #[error("the path hasn't a key for each of its parents")]
    PathLength,
    /// A public key is not fit for sealing.
    #[error("a key is not fit for use")]
    BadKey,
    /// A leaf's signature is not its own.
    #[error("the leaf's signature does not verify")]
    LeafSignature,
    /// A leaf does not list the version, the suite or the credential.
    #[error("the leaf lacks a capability")]
    LeafCapability,
}

impl TreeError {
    ghost use Rattle.mls_wire.specs.Names.{refusal_name};
    ghost use Rattle.mls_tree.specs.Faults.{number_of};

    /// The number of the refusal.
    pub fn number(self) -> u8
        ensures { result ≡ number_of self }
    {
        match self {
            TreeError::OutOfMemory => 1,
            TreeError::TreeShape => 20,
            TreeError::TreeFull => 21,
            TreeError::NoSuchLeaf => 22,
            TreeError::UnmergedWrong => 23,
            TreeError::ParentHashWrong => 24,
            TreeError::KeyRepeated => 25,
            TreeError::ClientRepeated => 26,
            TreeError::PathLength => 30,
            TreeError::BadKey => 36,
            TreeError::LeafSignature => 51,
            TreeError::LeafCapability => 52,
        }
    }

    /// The name of the refusal, as it is printed.
    pub fn name(self) -> &'static str
        ensures { result.now ≡ refusal_name (number_of self) }
    {
        refusal_name(self.number())
    }
}

impl From<AllocError> for TreeError {
    ghost use Rattle.std.specs.Prelude.{◌≡◌};
    ghost use Rattle.mls_tree.specs.declared.error.TreeError.TheVariants.{OutOfMemory};

    ghost from_gives = { λ _ e. e ≡ OutOfMemory };

    fn from(_error: AllocError) -> TreeError {
        TreeError::OutOfMemory
    }
}

impl<T: Drop> From<AllocFailed<T>> for TreeError {
    ghost use Rattle.std.specs.Prelude.{◌≡◌};
    ghost use Rattle.mls_tree.specs.declared.error.TreeError.TheVariants.{OutOfMemory};

    ghost from_gives = { λ _ e. e ≡ OutOfMemory };

    fn from(_error: AllocFailed<T>) -> TreeError {
        TreeError::OutOfMemory
    }
}
