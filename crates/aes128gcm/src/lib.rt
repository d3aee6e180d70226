//! AES-128-GCM (FIPS 197, SP 800-38D) with no index and no branch on secrets: four blocks at once,
//! in slices.
#![tactic(auto)]

mod blocks;
mod gcm;
mod ghash;
mod keys;
mod laws;
mod opening;
mod sbox;
mod slices;

pub use gcm::seal;
pub use keys::Aes128;
pub use laws::{inverse_inverts, opens_sealed, opens_where_tagged};
pub use opening::open;
