//! A ratchet tree as one array of its nodes in order (RFC 9420, appendix C).
//!
//! What reads a tree takes it as a [`Subtree`], a view of its cells that stands for a term: a leaf, or a root over two
//! sides. Where no node is cold, a [`HashedSubtree`] has the tree hashes of all subtrees too. An edit at a leaf is a list
//! of changes of the cells on the way to it, which is made first.
#![tactic(auto)]

mod chains;
mod changes;
mod counts;
mod distinct;
mod first_parents;
mod hashed_subtree;
mod hashes;
mod lists;
mod lookup;
mod members;
mod merging;
mod order;
mod originals;
mod path;
mod places;
mod resolutions;
mod sizes;
mod subtree;
mod validity;
mod way_hashes;
mod witnesses;

pub use chains::last_path;
pub use changes::{enter_changes, merge_changes, put_changes};
pub use counts::{ciphertext_counts, is_leaf_among};
pub use distinct::are_distinct;
pub use first_parents::{first_wrong_hash, first_wrong_list};
pub use hashed_subtree::HashedSubtree;
pub use hashes::tree_hash;
pub use lists::has_good_lists;
pub use lookup::{leaf, node};
pub use members::{end_of_members, first_blank, has_leaf, is_full_width, member_count};
pub use merging::{MergedPath, bytes_of, path_hash, path_length, path_parents};
pub use mls_tree_hash::Hash;
pub use order::{alternates, has_last, height_for, pad, pad_tree, to_nodes};
pub use path::filtered_path;
pub use places::{leaf_in, parent_in};
pub use resolutions::{is_reached, is_reached_at, resolution, resolution_at};
pub use sizes::{grow, trimmed_height};
pub use subtree::Subtree;
pub use validity::has_good_hashes;
pub use way_hashes::{merged_hashes, put_hashes};
