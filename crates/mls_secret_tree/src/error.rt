//! What a secret tree refuses.

ghost use Rattle.std.specs.Prelude.{◌≡◌};

use std::alloc::{AllocError, AllocFailed};
use thiserror::Error;

/// Why a key isn't drafted.
#[derive(Clone, Copy, Debug, PartialEq, Eq, Error)]
pub enum SecretTreeError {
    /// A growth was refused.
    #[error("out of memory")]
    OutOfMemory,
    /// The tree has no such leaf.
    #[error("the sender has no leaf")]
    SenderWithoutLeaf,
    /// The generation lies more than [`WINDOW`](crate::WINDOW) after the next one.
    #[error("the generation is too far ahead")]
    GenerationTooFar,
    /// The key was used, or lay too far back to be kept.
    #[error("the key was used")]
    KeyUsed,
}

impl SecretTreeError {
    ghost use Rattle.mls_secret_tree.specs.Faults.{number_of, name_of};

    /// The number of the refusal.
    pub fn number(self) -> u8
        ensures { result ≡ number_of self }
    {
        match self {
            SecretTreeError::OutOfMemory => 1,
            SecretTreeError::SenderWithoutLeaf => 114,
            SecretTreeError::GenerationTooFar => 115,
            SecretTreeError::KeyUsed => 116,
        }
    }

    /// The name of the refusal, as it is printed.
    pub fn name(self) -> &'static str
        ensures { result.now ≡ name_of self }
    {
        match self {
            SecretTreeError::OutOfMemory => "OutOfMemory",
            SecretTreeError::SenderWithoutLeaf => "SenderWithoutLeaf",
            SecretTreeError::GenerationTooFar => "GenerationTooFar",
            SecretTreeError::KeyUsed => "KeyUsed",
        }
    }
}

impl From<AllocError> for SecretTreeError {
    ghost use Rattle.mls_secret_tree.specs.declared.error.SecretTreeError.TheVariants.{OutOfMemory};

    ghost from_gives = { λ _ e. e ≡ OutOfMemory };

    fn from(_error: AllocError) -> SecretTreeError {
        SecretTreeError::OutOfMemory
    }
}

impl<T: Drop> From<AllocFailed<T>> for SecretTreeError {
    ghost use Rattle.mls_secret_tree.specs.declared.error.SecretTreeError.TheVariants.{OutOfMemory};

    ghost from_gives = { λ _ e. e ≡ OutOfMemory };

    fn from(_error: AllocFailed<T>) -> SecretTreeError {
        SecretTreeError::OutOfMemory
    }
}
