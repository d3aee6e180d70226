//! Places of a ratchet tree that share their nodes with the copies of the tree.
#![tactic(auto)]

mod codec;
mod content;
mod node_ref;
mod shared_nodes;
mod slot;

pub use node_ref::NodeRef;
pub use shared_nodes::{SharedLeaf, SharedParent};
pub use slot::Slot;
