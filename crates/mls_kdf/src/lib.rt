//! The key functions of MLS over SHA-256: HMAC (RFC 2104), HKDF (RFC 5869), and the labelled
//! functions of RFC 9420 (sections 5.2 and 8). No call takes memory: pieces are fed to the hasher.
#![tactic(auto)]

mod header;
mod hkdf;
mod hmac_key;
mod keyed_hash;
mod labels;

pub use header::content_header;
pub use hkdf::{expand, extract};
pub use hmac_key::HmacKey;
pub use keyed_hash::{KeyedHash, hash, hmac};
pub use labels::{derive_secret, expand_with_label, ref_hash};
use mls_wire::refusal_name;
use thiserror::Error;

/// A hash, or a secret of a hash's length.
pub type Secret = [u8; 32];

/// The random bytes that a call makes its keys of.
pub type Seed = [u8; 32];

/// The most bytes that a key can have: 255 blocks of 32.
pub const MAX_OUTPUT: usize = 8160;

/// Why a key is not made.
#[derive(Clone, Copy, Debug, PartialEq, Eq, Error)]
pub enum KdfError {
    /// More than 255 blocks were asked for.
    #[error("the output is too long")]
    OutputTooLong,
}

impl KdfError {
    ghost use Rattle.std.specs.Prelude.{◌≡◌};
    ghost use Rattle.mls_wire.specs.Names.{refusal_name};
    ghost use Rattle.mls_kdf.specs.Faults.{number_of};

    /// The number of the refusal.
    pub fn number(self) -> u8
        ensures { result ≡ number_of self }
    {
        match self {
            KdfError::OutputTooLong => 10,
        }
    }

    /// The name of the refusal.
    pub fn name(self) -> &'static str
        ensures { result.now ≡ refusal_name (number_of self) }
    {
        refusal_name(self.number())
    }
}
