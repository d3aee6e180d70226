//! What a join is refused for.

ghost use Rattle.std.specs.Prelude.{◌≡◌};
ghost use Rattle.mls_wire.specs.Names.{refusal_name};
ghost use Rattle.mls_join.specs.Faults.{number_of};
ghost use Rattle.mls_join.specs.declared.error.JoinError.TheVariants.{Leaf as in_leaf, Tree as in_tree, Keys as in_keys};
ghost use Rattle.mls_wire.specs.declared.WireError.TheVariants.{OutOfMemory};
ghost use Rattle.mls_leaf.specs.declared.error.LeafError.TheVariants.{Wire as in_wire};

use mls_leaf::LeafError;
use mls_tree::TreeError;
use mls_treekem::TreeKemError;
use mls_wire::{WireError, refusal_name};
use std::alloc::{AllocError, AllocFailed};
use thiserror::Error;

/// Why a Welcome isn't followed.
#[derive(Clone, Copy, Debug, PartialEq, Eq, Error)]
pub enum JoinError {
    /// The bytes are no message, or a growth was refused.
    #[error("{0}")]
    Leaf(LeafError),
    /// The ratchet tree isn't good.
    #[error("{0}")]
    Tree(TreeError),
    /// The path secret isn't that of the tree, or a node has no key where there is none.
    #[error("{0}")]
    Keys(TreeKemError),
    /// The confirmation tag isn't that of the epoch.
    #[error("a wrong confirmation tag")]
    BadConfirmationTag,
    /// The message is no Welcome.
    #[error("no Welcome")]
    NotWelcome,
    /// The Welcome or its group has another suite.
    #[error("another suite")]
    WrongSuite,
    /// No entry is for the candidate.
    #[error("no entry for the candidate")]
    NotForMe,
    /// The entry doesn't open, or isn't what it has to be.
    #[error("the secrets can't be read")]
    SecretsUnreadable,
    /// A pre-shared key is asked for.
    #[error("a pre-shared key is asked for")]
    PskPresent,
    /// The GroupInfo doesn't open, or is none.
    #[error("the GroupInfo can't be read")]
    GroupInfoUnreadable,
    /// The GroupInfo has no ratchet tree.
    #[error("no ratchet tree")]
    NoTree,
    /// The tree hash isn't that of the tree.
    #[error("a wrong tree hash")]
    TreeHashWrong,
    /// The signer is no member, or the candidate itself.
    #[error("a wrong signer")]
    SignerWrong,
    /// The GroupInfo's signature doesn't verify.
    #[error("the GroupInfo's signature doesn't verify")]
    GroupInfoSignature,
    /// No leaf is the candidate's.
    #[error("the candidate isn't in the tree")]
    NotInTree,
}

impl From<LeafError> for JoinError {
    ghost from_gives = { λ e r. r ≡ in_leaf e };

    fn from(error: LeafError) -> JoinError {
        JoinError::Leaf(error)
    }
}

impl From<TreeError> for JoinError {
    ghost from_gives = { λ e r. r ≡ in_tree e };

    fn from(error: TreeError) -> JoinError {
        JoinError::Tree(error)
    }
}

impl From<TreeKemError> for JoinError {
    ghost from_gives = { λ e r. r ≡ in_keys e };

    fn from(error: TreeKemError) -> JoinError {
        JoinError::Keys(error)
    }
}

impl From<AllocError> for JoinError {
    ghost from_gives = { λ _ r. r ≡ in_leaf (in_wire OutOfMemory) };

    fn from(_error: AllocError) -> JoinError {
        JoinError::Leaf(LeafError::Wire(WireError::OutOfMemory))
    }
}

impl<T: Drop> From<AllocFailed<T>> for JoinError {
    ghost from_gives = { λ _ r. r ≡ in_leaf (in_wire OutOfMemory) };

    fn from(_error: AllocFailed<T>) -> JoinError {
        JoinError::Leaf(LeafError::Wire(WireError::OutOfMemory))
    }
}

impl JoinError {
    /// The number of the refusal.
    pub fn number(self) -> u8
        ensures { result ≡ number_of self }
    {
        match self {
            JoinError::Leaf(error) => error.number(),
            JoinError::Tree(error) => error.number(),
            JoinError::Keys(error) => error.number(),
            JoinError::BadConfirmationTag => 65,
            JoinError::NotWelcome => 70,
            JoinError::WrongSuite => 71,
            JoinError::NotForMe => 72,
            JoinError::SecretsUnreadable => 73,
            JoinError::PskPresent => 74,
            JoinError::GroupInfoUnreadable => 75,
            JoinError::NoTree => 76,
            JoinError::TreeHashWrong => 77,
            JoinError::SignerWrong => 78,
            JoinError::GroupInfoSignature => 79,
            JoinError::NotInTree => 80,
        }
    }

    /// The name of the refusal, as it is printed.
    pub fn name(self) -> &'static str
        ensures { result.now ≡ refusal_name (number_of self) }
    {
        refusal_name(self.number())
    }
}
