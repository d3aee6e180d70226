//! The secret tree (RFC 9420, 9): the keys for application data of each leaf, from the encryption secret of an epoch.
//!
//! A [`SecretTree`] holds the secrets that the keys still to be used are derived from, and no others: the secrets on
//! the way to a leaf are made when the leaf's first key is needed, and replaced by those beside the way and the leaf's
//! ratchet. A key is drafted first, which changes nothing, and the tree is changed once the draft is kept, as when a
//! message turned out to be whole. Ratchets for handshakes are not made.
#![tactic(auto)]

mod error;
mod laws;
mod node;
mod ratchet;
mod secrets;
mod sized;
mod tree;

pub use error::SecretTreeError;
pub use laws::{laws_of_generations, laws_of_keys, laws_of_used_keys};
pub use ratchet::WINDOW;
pub use secrets::MessageKey;
pub use tree::{Draft, SecretTree};
