//! HPKE in base mode, one shot (RFC 9180): DHKEM(X25519, HKDF-SHA256), HKDF-SHA256 and AES-128-GCM.
//! Only what is sealed or opened takes memory. No index and no branch depends on a secret, except the
//! refusals.
#![tactic(auto)]

mod base;
mod kem;
mod labels;
mod laws;

pub use base::{Sealed, open, seal};
pub use kem::{KeyPair, derive_key_pair, is_fit, public_key};
pub use laws::{opens_sealed, public_is_fit, public_is_short, seals_where_fit};
