//! What an exchange refuses.

ghost use Rattle.std.specs.Prelude.{◌≡◌};
ghost use Rattle.mls_exchange.specs.Faults.{number_of, name_of};
ghost use Rattle.mls_refusal_kind.specs.RefusalKinds.{kind_of};
ghost use Rattle.mls_exchange.specs.declared.error.ExchangeError.TheVariants.{Message as in_message, Key as in_key};
ghost use Rattle.mls_private_message.specs.declared.error.PrivateMessageError.TheVariants.{Leaf as in_leaf};
ghost use Rattle.mls_leaf.specs.declared.error.LeafError.TheVariants.{Wire as in_wire};
ghost use Rattle.mls_wire.specs.declared.WireError.TheVariants.{OutOfMemory};

use mls_leaf::LeafError;
use mls_private_message::PrivateMessageError;
use mls_refusal_kind::{RefusalKind, kind_of};
use mls_secret_tree::SecretTreeError;
use mls_wire::WireError;
use std::alloc::AllocError;
use thiserror::Error;

/// Why a message isn't sealed or opened.
#[derive(Clone, Copy, Debug, PartialEq, Eq, Error)]
pub enum ExchangeError {
    /// A fault of the message, a text that is too long, or want of memory.
    #[error("{0}")]
    Message(PrivateMessageError),
    /// There is no key for the message.
    #[error("{0}")]
    Key(SecretTreeError),
    /// The last generation was sent.
    #[error("no generation is left")]
    RatchetSpent,
    /// The message is of another group.
    #[error("a message of another group")]
    OtherGroup,
    /// The message is of another epoch.
    #[error("a message of another epoch")]
    OtherEpoch,
    /// The sender's signature doesn't verify.
    #[error("the message's signature doesn't verify")]
    BadMessageSignature,
}

impl ExchangeError {
    /// The number of the refusal.
    pub fn number(self) -> u8
        ensures { result ≡ number_of self }
    {
        match self {
            ExchangeError::Message(error) => error.number(),
            ExchangeError::Key(error) => error.number(),
            ExchangeError::RatchetSpent => 110,
            ExchangeError::OtherGroup => 111,
            ExchangeError::OtherEpoch => 112,
            ExchangeError::BadMessageSignature => 119,
        }
    }

    /// The name of the refusal, as it is printed.
    pub fn name(self) -> &'static str
        ensures { result.now ≡ name_of self }
    {
        match self {
            ExchangeError::Message(error) => error.name(),
            ExchangeError::Key(error) => error.name(),
            ExchangeError::RatchetSpent => "RatchetSpent",
            ExchangeError::OtherGroup => "OtherGroup",
            ExchangeError::OtherEpoch => "OtherEpoch",
            ExchangeError::BadMessageSignature => "BadMessageSignature",
        }
    }

    /// What a caller may do about it, by its number.
    pub fn kind(self) -> RefusalKind
        ensures { result ≡ kind_of (number_of self) }
    {
        kind_of(self.number())
    }
}

impl From<PrivateMessageError> for ExchangeError {
    ghost from_gives = { λ e r. r ≡ in_message e };

    fn from(error: PrivateMessageError) -> ExchangeError {
        ExchangeError::Message(error)
    }
}

impl From<LeafError> for ExchangeError {
    ghost from_gives = { λ e r. r ≡ in_message (in_leaf e) };

    fn from(error: LeafError) -> ExchangeError {
        ExchangeError::Message(PrivateMessageError::Leaf(error))
    }
}

impl From<SecretTreeError> for ExchangeError {
    ghost from_gives = { λ e r. r ≡ in_key e };

    fn from(error: SecretTreeError) -> ExchangeError {
        ExchangeError::Key(error)
    }
}

impl From<AllocError> for ExchangeError {
    ghost from_gives = { λ _ r. r ≡ in_message (in_leaf (in_wire OutOfMemory)) };

    fn from(_error: AllocError) -> ExchangeError {
        ExchangeError::Message(PrivateMessageError::Leaf(LeafError::Wire(WireError::OutOfMemory)))
    }
}
