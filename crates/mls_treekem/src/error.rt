//! What private paths refuse.

ghost use Rattle.std.specs.Prelude.{◌≡◌};

use mls_wire::refusal_name;
use std::alloc::{AllocError, AllocFailed};
use thiserror::Error;

/// Why a path isn't sealed, or isn't taken.
#[derive(Clone, Copy, Debug, PartialEq, Eq, Error)]
pub enum TreeKemError {
    /// A growth was refused.
    #[error("out of memory")]
    OutOfMemory,
    /// No ciphertext is for the member, or it doesn't open.
    #[error("the path secret doesn't open")]
    OpenFailed,
    /// A path secret hasn't 32 bytes.
    #[error("a path secret of another length")]
    SecretLength,
    /// A derived public key isn't the one that stands in the path or the tree.
    #[error("a path secret of another key")]
    PathKeyMismatch,
    /// A key that the member must have isn't there.
    #[error("a private key is missing")]
    KeyMissing,
    /// A key that a secret is sealed to isn't fit.
    #[error("a public key isn't fit")]
    BadKey,
}

impl TreeKemError {
    ghost use Rattle.mls_wire.specs.Names.{refusal_name};
    ghost use Rattle.mls_treekem.specs.Faults.{number_of};

    /// The number of the refusal.
    pub fn number(self) -> u8
        ensures { result ≡ number_of self }
    {
        match self {
            TreeKemError::OutOfMemory => 1,
            TreeKemError::OpenFailed => 32,
            TreeKemError::SecretLength => 33,
            TreeKemError::PathKeyMismatch => 34,
            TreeKemError::KeyMissing => 35,
            TreeKemError::BadKey => 36,
        }
    }

    /// The name of the refusal, as it is printed.
    pub fn name(self) -> &'static str
        ensures { result.now ≡ refusal_name (number_of self) }
    {
        refusal_name(self.number())
    }
}

impl From<AllocError> for TreeKemError {
    ghost use Rattle.mls_treekem.specs.declared.error.TreeKemError.TheVariants.{OutOfMemory};

    ghost from_gives = { λ _ e. e ≡ OutOfMemory };

    fn from(_error: AllocError) -> TreeKemError {
        TreeKemError::OutOfMemory
    }
}

impl<T: Drop> From<AllocFailed<T>> for TreeKemError {
    ghost use Rattle.mls_treekem.specs.declared.error.TreeKemError.TheVariants.{OutOfMemory};

    ghost from_gives = { λ _ e. e ≡ OutOfMemory };

    fn from(_error: AllocFailed<T>) -> TreeKemError {
        TreeKemError::OutOfMemory
    }
}
