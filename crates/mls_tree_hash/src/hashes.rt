//! Tree hashes and parent hashes.

ghost use Rattle.std.specs.Prelude.{◌≡◌, ℕ, List, None, true};
ghost use Rattle.std.specs.Option.{option_copied};
ghost use Rattle.sha2.specs.Sha256.{sha256};
ghost use Rattle.mls_leaf.specs.Parent.{rises};
ghost use Rattle.mls_tree_model.specs.Inputs.{leaf_hash, branch_hash, sibling_hash};
ghost use Rattle.mls_tree_hash.specs.Counter.{counted};
ghost use Rattle.mls_tree_hash.specs.Feeds.{Holds};
ghost use Rattle.mls_tree_hash.specs.Originals.{hash_without};

use crate::Hash;
use crate::feed::Feed;
use crate::nodes::{add_leaf, add_parent, add_parent_without};
use crate::pieces::{add_u8, add_u32, add_vector};
use mls_leaf::{LeafNode, ParentNode};

/// The tree hash of the node whose input the feed holds (RFC 9420, 7.8), which is counted. Each hash of a node is made
/// here, except for those of original siblings.
#[inline(always)]
fn node_hash(feed: &mut Feed, done: &mut u64) -> Hash
    ensures hash { (text : List ℕ) → Holds feed.old text → result ≡ sha256 text }
    ensures counted { done.new ≡ counted done.old 1 }
{
    if *done < u64::MAX {
        *done += 1;
    }
    feed.finish()
}

/// The tree hash of a leaf (RFC 9420, 7.8): of its number, and of what stands there. One more is counted in `done`.
#[tactic(auto, using(crate::proofs::Feeding::feeding), unfolding(mls_tree_model::specs::Inputs::leaf_hash, mls_leaf::specs::Inputs::tree_hash_input_of_leaf))]
pub fn leaf_hash(index: u32, leaf: Option<&LeafNode>, done: &mut u64) -> Hash
    ensures hash { result ≡ leaf_hash index (option_copied leaf.entry) }
    ensures counted { done.new ≡ counted done.old 1 }
{
    let mut feed = Feed::new();
    add_u8(&mut feed, 1);
    add_u32(&mut feed, index);
    match leaf {
        None => add_u8(&mut feed, 0),
        Some(leaf) => {
            add_u8(&mut feed, 1);
            add_leaf(&mut feed, leaf);
        }
    }
    node_hash(&mut feed, done)
}

/// The tree hash of a leaf that is blank in an original sibling (RFC 9420, 7.9). It isn't counted.
#[tactic(auto, using(crate::proofs::Feeding::feeding), unfolding(mls_tree_model::specs::Inputs::leaf_hash, mls_leaf::specs::Inputs::tree_hash_input_of_leaf))]
pub fn leaf_hash_without(index: u32) -> Hash
    ensures { result ≡ leaf_hash index None }
{
    let mut feed = Feed::new();
    add_u8(&mut feed, 1);
    add_u32(&mut feed, index);
    add_u8(&mut feed, 0);
    feed.finish()
}

/// The tree hash of a parent (RFC 9420, 7.8): of what stands there, and of the tree hashes of its sides. One more is
/// counted in `done`.
#[tactic(auto, using(crate::proofs::Feeding::feeding), unfolding(mls_tree_model::specs::Inputs::branch_hash, mls_leaf::specs::Inputs::tree_hash_input_of_parent))]
pub fn branch_hash(parent: Option<&ParentNode>, left: &Hash, right: &Hash, done: &mut u64) -> Hash
    ensures hash { result ≡ branch_hash (option_copied parent.entry) left.now right.now }
    ensures counted { done.new ≡ counted done.old 1 }
{
    let mut feed = Feed::new();
    add_u8(&mut feed, 2);
    match parent {
        None => add_u8(&mut feed, 0),
        Some(parent) => {
            add_u8(&mut feed, 1);
            add_parent(&mut feed, parent);
        }
    }
    add_vector(&mut feed, left);
    add_vector(&mut feed, right);
    node_hash(&mut feed, done)
}

/// The tree hash of a parent whose list lost the leaves `unmerged`, for an original sibling (RFC 9420, 7.9). It isn't
/// counted.
#[tactic(auto, using(crate::proofs::Feeding::feeding), unfolding(mls_tree_model::specs::Inputs::branch_hash, mls_leaf::specs::Inputs::tree_hash_input_of_parent))]
pub fn branch_hash_without(
    unmerged: &[u32],
    parent: Option<&ParentNode>,
    left: &Hash,
    right: &Hash,
) -> Hash
    requires { rises unmerged.now ≡ true }
    ensures { result ≡ hash_without unmerged.now (option_copied parent.entry) left.now right.now }
{
    let mut feed = Feed::new();
    add_u8(&mut feed, 2);
    match parent {
        None => add_u8(&mut feed, 0),
        Some(parent) => {
            add_u8(&mut feed, 1);
            add_parent_without(&mut feed, unmerged, parent);
        }
    }
    add_vector(&mut feed, left);
    add_vector(&mut feed, right);
    feed.finish()
}

/// The parent hash (RFC 9420, 7.9): of the parent's key, its own parent hash and the tree hash of its original
/// sibling.
#[tactic(auto, using(crate::proofs::Feeding::feeding), unfolding(mls_tree_model::specs::Inputs::sibling_hash, mls_leaf::specs::Inputs::parent_hash_input))]
pub fn sibling_hash(encryption_key: &[u8], parent_hash: &[u8], sibling: &Hash) -> Hash
    ensures { result ≡ sibling_hash encryption_key.now parent_hash.now sibling.now }
{
    let mut feed = Feed::new();
    add_vector(&mut feed, encryption_key);
    add_vector(&mut feed, parent_hash);
    add_vector(&mut feed, sibling);
    feed.finish()
}
