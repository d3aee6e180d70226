//! Joining a group by a Welcome (RFC 9420, 12.4.3.1).
#![tactic(auto)]

mod entrance;
mod error;
mod few_nodes;
mod keys;
mod opening;
mod secrets;
mod signer;
mod tree;

pub use entrance::{Entrance, join};
pub use error::JoinError;
