//! Which check failed first.

ghost use Rattle.std.specs.Prelude.{◌≡◌};
ghost use Rattle.mls_checks.specs.declared.error.CheckError.TheVariants.{OutOfMemory};

use mls_wire::refusal_name;
use std::alloc::AllocError;
use thiserror::Error;

/// Why a leaf or a key package is not taken.
#[derive(Clone, Copy, Debug, PartialEq, Eq, Error)]
pub enum CheckError {
    /// A growth was refused.
    #[error("out of memory")]
    OutOfMemory,
    /// A public key is not fit for sealing.
    #[error("a key is not fit for use")]
    BadKey,
    /// The leaf was not made for this.
    #[error("the leaf has another source")]
    LeafSource,
    /// The leaf's signature is not its own.
    #[error("the leaf's signature does not verify")]
    LeafSignature,
    /// The leaf does not list the version, the suite or the credential.
    #[error("the leaf lacks a capability")]
    LeafCapability,
    /// The leaf has another signature key or credential than the one that it replaces.
    #[error("the leaf has another identity")]
    LeafIdentityChanged,
    /// The leaf has the encryption key of the one that it replaces.
    #[error("the leaf has the same key")]
    LeafKeySame,
    /// The key package is for another suite.
    #[error("the key package has another suite")]
    KeyPackageSuite,
    /// The key package's signature is not its own.
    #[error("the key package's signature does not verify")]
    KeyPackageSignature,
    /// The init key is the leaf's encryption key.
    #[error("the init key is the leaf's key")]
    InitKeySame,
}

impl From<AllocError> for CheckError {
    ghost from_gives = { λ _ r. r ≡ OutOfMemory };

    fn from(_error: AllocError) -> CheckError {
        CheckError::OutOfMemory
    }
}

impl CheckError {
    ghost use Rattle.mls_wire.specs.Names.{refusal_name};
    ghost use Rattle.mls_checks.specs.Faults.{number_of};

    /// The number of the refusal.
    pub fn number(self) -> u8
        ensures { result ≡ number_of self }
    {
        match self {
            CheckError::OutOfMemory => 1,
            CheckError::BadKey => 36,
            CheckError::LeafSource => 50,
            CheckError::LeafSignature => 51,
            CheckError::LeafCapability => 52,
            CheckError::LeafIdentityChanged => 53,
            CheckError::LeafKeySame => 54,
            CheckError::KeyPackageSuite => 55,
            CheckError::KeyPackageSignature => 56,
            CheckError::InitKeySame => 57,
        }
    }

    /// The name of the refusal, as it is printed.
    pub fn name(self) -> &'static str
        ensures { result.now ≡ refusal_name (number_of self) }
    {
        refusal_name(self.number())
    }
}
