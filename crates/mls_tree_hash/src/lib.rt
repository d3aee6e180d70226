//! The hashes of the nodes of a ratchet tree: tree hashes and parent hashes (RFC 9420, 7.8 and 7.9). The pieces
//! of an input wait side by side on the stack until the hasher takes them, so no call takes memory.
#![tactic(auto)]

mod feed;
mod hashes;
mod nodes;
mod pieces;

pub use hashes::{branch_hash, branch_hash_without, leaf_hash, leaf_hash_without, sibling_hash};

/// A hash: SHA-256.
pub type Hash = [u8; 32];
