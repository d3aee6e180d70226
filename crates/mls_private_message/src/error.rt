//! What is refused of a private message.

ghost use Rattle.std.specs.Prelude.{◌≡◌};

use mls_leaf::LeafError;
use mls_wire::WireError;
use std::alloc::AllocError;
use thiserror::Error;

/// Why a private message isn't written or opened.
#[derive(Clone, Copy, Debug, PartialEq, Eq, Error)]
pub enum PrivateMessageError {
    /// A fault of bytes or of a value to be written, or want of memory.
    #[error("{0}")]
    Leaf(LeafError),
    /// The sender data doesn't open, or is none.
    #[error("the sender data can't be read")]
    SenderDataUnreadable,
    /// The content doesn't open.
    #[error("the content doesn't open")]
    ContentUnreadable,
    /// A byte of the padding isn't 0.
    #[error("the padding isn't zero")]
    PaddingNotZero,
}

impl PrivateMessageError {
    ghost use Rattle.mls_private_message.specs.Faults.{number_of, name_of};

    /// The number of the refusal.
    pub fn number(self) -> u8
        ensures { result ≡ number_of self }
    {
        match self {
            PrivateMessageError::Leaf(error) => error.number(),
            PrivateMessageError::SenderDataUnreadable => 113,
            PrivateMessageError::ContentUnreadable => 117,
            PrivateMessageError::PaddingNotZero => 118,
        }
    }

    /// The name of the refusal, as it is printed.
    pub fn name(self) -> &'static str
        ensures { result.now ≡ name_of self }
    {
        match self {
            PrivateMessageError::Leaf(error) => error.name(),
            PrivateMessageError::SenderDataUnreadable => "SenderDataUnreadable",
            PrivateMessageError::ContentUnreadable => "ContentUnreadable",
            PrivateMessageError::PaddingNotZero => "PaddingNotZero",
        }
    }
}

impl From<LeafError> for PrivateMessageError {
    ghost use Rattle.mls_private_message.specs.declared.error.PrivateMessageError.TheVariants.{Leaf};

    ghost from_gives = { λ e r. r ≡ Leaf e };

    fn from(error: LeafError) -> PrivateMessageError {
        PrivateMessageError::Leaf(error)
    }
}

impl From<WireError> for PrivateMessageError {
    ghost use Rattle.mls_leaf.specs.declared.error.LeafError.TheVariants.{Wire};
    ghost use Rattle.mls_private_message.specs.declared.error.PrivateMessageError.TheVariants.{Leaf};

    ghost from_gives = { λ e r. r ≡ Leaf (Wire e) };

    fn from(error: WireError) -> PrivateMessageError {
        PrivateMessageError::Leaf(LeafError::Wire(error))
    }
}

impl From<AllocError> for PrivateMessageError {
    ghost use Rattle.mls_wire.specs.declared.WireError.TheVariants.{OutOfMemory};
    ghost use Rattle.mls_leaf.specs.declared.error.LeafError.TheVariants.{Wire};
    ghost use Rattle.mls_private_message.specs.declared.error.PrivateMessageError.TheVariants.{Leaf};

    ghost from_gives = { λ _ r. r ≡ Leaf (Wire OutOfMemory) };

    fn from(_error: AllocError) -> PrivateMessageError {
        PrivateMessageError::Leaf(LeafError::Wire(WireError::OutOfMemory))
    }
}
