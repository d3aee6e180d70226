//! Ed25519 (RFC 8032, section 5.1): public keys, signatures and their verification, on bytes.
//!
//! No call takes memory. Keys and signatures are made in the same steps for any secret: no branch
//! and no index depends on one. Verifying takes time that depends on what it is given, which is
//! public.
#![tactic(auto)]

mod base_multiple;
mod cached;
mod decoding;
mod laws;
mod multiples;
mod order;
mod point;
mod point_multiple;
mod signing;

pub use laws::{decodes_encoded, encodes_decoded, verifies_signed};
pub use signing::{public_key, sign, verify};
