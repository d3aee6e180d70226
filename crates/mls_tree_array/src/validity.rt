//! Whether parents are parent-hash valid (RFC 9420, 7.9.2).

ghost use Rattle.std.specs.Prelude.{◌≡◌, true, IfOk};
ghost use Rattle.mls_tree_model.specs.Node.{leaf_parent_hash, own_parent_hash};
ghost use Rattle.mls_tree_model.specs.Sets.{same_bytes};
ghost use Rattle.mls_tree_model.specs.Lists.{lists_here, all_parents};
ghost use Rattle.mls_tree_model.specs.Hashes.{hash_at, is_some_bytes};
ghost use Rattle.mls_tree_model.specs.Good.{has_good_lists, has_good_hashes};
ghost use Rattle.mls_tree_model.specs.Arrays.{leaf_in, parent_in};
ghost use Rattle.mls_tree_array.specs.Subtrees.{end};
ghost use Rattle.mls_tree_array.specs.Validity.{AnswersWitness, AnswersValid, AnswersRoot, are_parents_valid};

use crate::hashed_subtree::{HashedParts, HashedSubtree};
use crate::originals::original_hash;
use crate::places::{leaf_in, parent_in};
use crate::subtree::{Parts, Subtree, subtree_at};
use crate::witnesses::candidate;
use mls_leaf::{LeafSource, ParentNode};
use mls_tree_hash::{Hash, sibling_hash};
use mls_tree_slot::Slot;
use std::alloc::{AllocError, Global};

/// Whether two byte strings are equal.
pub(crate) fn same_bytes(left: &[u8], right: &[u8]) -> bool
    ensures { result ≡ same_bytes left.now right.now }
{
    left == right
}

/// Whether a place holds a leaf with this parent hash.
fn leaf_has_hash(node: &Slot, hash: &Hash) -> bool
    ensures { result ≡ is_some_bytes (leaf_parent_hash (leaf_in node.now)) hash.now }
{
    match leaf_in(node) {
        Some(leaf) => match &leaf.source {
            LeafSource::Commit { parent_hash } => same_bytes(parent_hash.as_slice(), hash),
            _ => false,
        },
        None => false,
    }
}

/// Whether a place holds a parent with this parent hash.
fn parent_has_hash(node: &Slot, hash: &Hash) -> bool
    ensures { result ≡ is_some_bytes (own_parent_hash (parent_in node.now)) hash.now }
{
    match parent_in(node) {
        Some(parent) => same_bytes(parent.parent_hash(), hash),
        None => false,
    }
}

/// Whether a node of a tree has this parent hash.
pub(crate) fn has_hash(tree: &Subtree<'_>, node: u64, hash: &Hash) -> bool
    ensures { result ≡ is_some_bytes (hash_at tree.now.first tree.now.term node) hash.now }
{
    match subtree_at(tree, node) {
        Some(subtree) => match subtree.parts() {
            Parts::Leaf(place) => leaf_has_hash(place, hash),
            Parts::Branch { root, .. } => parent_has_hash(root, hash),
        },
        None => false,
    }
}

/// Whether a side has a node that ties it to the parent over it and the other side.
fn has_witness(
    parent: &ParentNode,
    side: &HashedSubtree<'_>,
    other: &HashedSubtree<'_>,
    found: &mut Vec<u64>,
) -> Result<bool, AllocError>
    requires { all_parents lists_here other.now.first other.now.term ≡ true }
    ensures { IfOk result (AnswersWitness parent.now side.now other.now) }
{
    match candidate(parent, side.tree(), found)? {
        Some(node) => {
            let sibling = original_hash(other, parent.unmerged_leaves());
            let hash = sibling_hash(parent.encryption_key(), parent.parent_hash(), &sibling);
            Ok(has_hash(side.tree(), node, &hash))
        }
        None => Ok(false),
    }
}

/// Whether a parent over these two sides is parent-hash valid. The right side is asked first: leaves are taken from left
/// to right, so a parent's last committer is mostly there, and one hash is enough.
fn is_valid(
    parent: &ParentNode,
    left: &HashedSubtree<'_>,
    right: &HashedSubtree<'_>,
    found: &mut Vec<u64>,
) -> Result<bool, AllocError>
    requires middle { right.now.first ≡ end left.now }
    requires left { all_parents lists_here left.now.first left.now.term ≡ true }
    requires right { all_parents lists_here right.now.first right.now.term ≡ true }
    ensures { IfOk result (AnswersValid parent.now left.now right.now) }
{
    if has_witness(parent, right, left, found)? {
        return Ok(true);
    }
    has_witness(parent, left, right, found)
}

/// Whether the root over these two sides is parent-hash valid, where it isn't blank.
pub(crate) fn is_root_valid(
    root: &Slot,
    left: &HashedSubtree<'_>,
    right: &HashedSubtree<'_>,
    found: &mut Vec<u64>,
) -> Result<bool, AllocError>
    requires middle { right.now.first ≡ end left.now }
    requires left { all_parents lists_here left.now.first left.now.term ≡ true }
    requires right { all_parents lists_here right.now.first right.now.term ≡ true }
    ensures { IfOk result (AnswersRoot root.now left.now right.now) }
{
    match parent_in(root) {
        Some(parent) => is_valid(parent, left, right, found),
        None => Ok(true),
    }
}

/// Whether each parent of a tree is parent-hash valid.
fn are_parents_valid(tree: &HashedSubtree<'_>, found: &mut Vec<u64>) -> Result<bool, AllocError>
    requires { all_parents lists_here tree.now.first tree.now.term ≡ true }
    ensures { IfOk result (λ v. v ≡ are_parents_valid tree.now.first tree.now.term) }
{
    match tree.parts() {
        HashedParts::Leaf(_) => Ok(true),
        HashedParts::Branch { left, root, right } => {
            if !is_root_valid(root, &left, &right, found)? {
                return Ok(false);
            }
            if !are_parents_valid(&left, found)? {
                return Ok(false);
            }
            are_parents_valid(&right, found)
        }
    }
}

/// Whether each parent of a whole tree is parent-hash valid, where the lists of unmerged leaves are right.
pub fn has_good_hashes(alloc: Global, tree: &HashedSubtree<'_>) -> Result<bool, AllocError>
    requires whole { tree.now.first ≡ 0 }
    requires lists { has_good_lists tree.now.term ≡ true }
    ensures { IfOk result (λ v. v ≡ has_good_hashes tree.now.term) }
{
    let mut found = Vec::new(alloc);
    are_parents_valid(tree, &mut found)
}
