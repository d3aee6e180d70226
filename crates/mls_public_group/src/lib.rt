//! What all members of a group know alike: its context, its tree and its transcript, and what the proposals of a commit
//! make of the tree (RFC 9420, 12.1 to 12.3).
#![tactic(auto)]

mod bytes;
mod changed_leaves;
mod contexts;
mod distinct;
mod due_path;
mod edits;
mod error;
mod extensions;
mod group;
mod laws;
mod next_tree;
mod proposal_list;
mod proposals;
mod references;
mod shared_tree;
mod spelling;
mod used_proposal;

pub use bytes::know_bytes;
pub use contexts::{context_spelling, provisional_context};
pub use due_path::is_path_required;
pub use edits::Edits;
pub use error::GroupError;
pub use extensions::know_short_list;
pub use group::PublicGroup;
pub use laws::short_leaves_after_path;
pub use next_tree::NextTree;
pub use shared_tree::SharedTree;
pub use used_proposal::Used;
