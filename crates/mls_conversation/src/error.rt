//! Why no conversation is made.

ghost use Rattle.std.specs.Prelude.{◌≡◌};
ghost use Rattle.mls_wire.specs.Names.{refusal_name};
ghost use Rattle.mls_conversation.specs.Faults.{number_of};
ghost use Rattle.mls_refusal_kind.specs.RefusalKinds.{kind_of};
ghost use Rattle.mls_conversation.specs.declared.error.ConversationError.TheVariants.{OutOfMemory};

use mls_refusal_kind::{RefusalKind, kind_of};
use mls_wire::refusal_name;
use std::alloc::AllocError;
use thiserror::Error;

/// Why a member has no conversation.
#[derive(Clone, Copy, Debug, PartialEq, Eq, Error)]
pub enum ConversationError {
    /// A growth was refused.
    #[error("out of memory")]
    OutOfMemory,
    /// The tree has no height, as no good member's has.
    #[error("no tree has these nodes")]
    TreeShape,
    /// The member was removed.
    #[error("the member was removed")]
    Gone,
}

impl ConversationError {
    /// The number of the refusal.
    pub fn number(self) -> u8
        ensures { result ≡ number_of self }
    {
        match self {
            ConversationError::OutOfMemory => 1,
            ConversationError::TreeShape => 20,
            ConversationError::Gone => 40,
        }
    }

    /// The name of the refusal, as it is printed.
    pub fn name(self) -> &'static str
        ensures { result.now ≡ refusal_name (number_of self) }
    {
        refusal_name(self.number())
    }

    /// What a caller may do about it, by its number.
    pub fn kind(self) -> RefusalKind
        ensures { result ≡ kind_of (number_of self) }
    {
        kind_of(self.number())
    }
}

impl From<AllocError> for ConversationError {
    ghost from_gives = { λ _ e. e ≡ OutOfMemory };

    fn from(_error: AllocError) -> ConversationError {
        ConversationError::OutOfMemory
    }
}
