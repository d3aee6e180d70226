//! The public ratchet tree of a group (RFC 9420, sections 4 and 7).
//!
//! A [`PublicTree`] is one array of nodes in order. To its callers it is the tree that the array stands for, a
//! recursive term: each call answers a function of that term, or makes one of the edits of it. A leaf is named by its
//! leaf index, a node by its node index (RFC 9420, appendix C).
#![tactic(auto)]

mod checking;
mod drafts;
mod edits;
mod error;
mod key_indexes;
mod laws;
mod paths;
mod prepared;
mod tree;
mod way;

pub use drafts::PathDraft;
pub use error::TreeError;
pub use laws::{hashing_costs, laws_of_leaves};
pub use mls_tree_array::Hash;
pub use prepared::PreparedPath;
pub use tree::PublicTree;
