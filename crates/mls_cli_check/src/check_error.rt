//! What `mls check` refuses.

ghost use Rattle.std.specs.Prelude.{◌≡◌, ◌↔◌, IsTrue};

use mls_leaf::LeafError;
use mls_tree::TreeError;
use mls_wire::refusal_name;
use std::alloc::AllocError;
use thiserror::Error;

/// Why a tree's file has no lines.
#[derive(Clone, Copy, Debug, PartialEq, Eq, Error)]
pub enum CheckError {
    /// A growth was refused.
    #[error("out of memory")]
    OutOfMemory,
    /// The group's id is no hex text.
    #[error("a group's id that isn't hex")]
    NotHex,
    /// The bytes of the file are no nodes, or the group's id is too long.
    #[error("{0}")]
    Decoding(LeafError),
    /// The nodes are no tree of a group.
    #[error("{0}")]
    Tree(TreeError),
    /// The group's suite is none of those that are asked for.
    #[error("another suite")]
    WrongSuite,
    /// The GroupInfo has no ratchet tree.
    #[error("no ratchet tree")]
    NoTree,
    /// The GroupInfo's tree hash isn't that of its tree.
    #[error("a wrong tree hash")]
    TreeHashWrong,
    /// The GroupInfo's signer is no member.
    #[error("a wrong signer")]
    SignerWrong,
    /// The GroupInfo's signature doesn't verify.
    #[error("the GroupInfo's signature doesn't verify")]
    GroupInfoSignature,
    /// The message is no GroupInfo.
    #[error("another kind of message")]
    WrongMessageKind,
}

impl CheckError {
    ghost use Rattle.mls_wire.specs.Names.{refusal_name};
    ghost use Rattle.mls_cli_check.specs.CheckFaults.{number_of};

    /// The number of the refusal.
    pub fn number(self) -> u8
        ensures { result ≡ number_of self }
    {
        match self {
            CheckError::OutOfMemory => 1,
            CheckError::NotHex => 8,
            CheckError::Decoding(error) => error.number(),
            CheckError::Tree(error) => error.number(),
            CheckError::WrongSuite => 71,
            CheckError::NoTree => 76,
            CheckError::TreeHashWrong => 77,
            CheckError::SignerWrong => 78,
            CheckError::GroupInfoSignature => 79,
            CheckError::WrongMessageKind => 95,
        }
    }

    /// Whether a growth was refused.
    pub fn is_memory(self) -> bool
        ensures { IsTrue result ↔ (number_of self ≡ 1) }
    {
        self.number() == 1
    }

    /// The name of the refusal, as it is printed.
    pub fn name(self) -> &'static str
        ensures { result.now ≡ refusal_name (number_of self) }
    {
        refusal_name(self.number())
    }
}

impl From<AllocError> for CheckError {
    ghost use Rattle.mls_cli_check.specs.declared.check_error.CheckError.TheVariants.{OutOfMemory};

    ghost from_gives = { λ _ e. e ≡ OutOfMemory };

    fn from(_error: AllocError) -> CheckError {
        CheckError::OutOfMemory
    }
}

impl From<LeafError> for CheckError {
    ghost use Rattle.mls_cli_check.specs.declared.check_error.CheckError.TheVariants.{Decoding};

    ghost from_gives = { λ error e. e ≡ Decoding error };

    fn from(error: LeafError) -> CheckError {
        CheckError::Decoding(error)
    }
}

impl From<TreeError> for CheckError {
    ghost use Rattle.mls_cli_check.specs.declared.check_error.CheckError.TheVariants.{Tree};

    ghost from_gives = { λ error e. e ≡ Tree error };

    fn from(error: TreeError) -> CheckError {
        CheckError::Tree(error)
    }
}
