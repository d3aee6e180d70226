//! Tree hashes of trees as they were before some leaves were added (RFC 9420, 7.9).

ghost use Rattle.std.specs.Prelude.{◌≡◌, true, not};
ghost use Rattle.std.specs.List.{list_all};
ghost use Rattle.std.specs.Option.{option_copied};
ghost use Rattle.mls_leaf.specs.Parent.{rises};
ghost use Rattle.mls_tree_model.specs.Sets.{has};
ghost use Rattle.mls_tree_model.specs.Inputs.{leaf_hash, branch_hash};
ghost use Rattle.mls_tree_model.specs.Lists.{lists_here, all_parents};
ghost use Rattle.mls_tree_array.specs.Splits.{Splits};
ghost use Rattle.mls_tree_array.specs.Witnesses.{unmerged_leaves_of};
ghost use Rattle.mls_tree_array.specs.Originals.{original_hash, leaf_before, Stays};
ghost use Rattle.mls_tree_hash.specs.Originals.{hash_without};

use crate::hashed_subtree::{HashedParts, HashedSubtree};
use crate::lists::has;
use crate::places::{leaf_in, parent_in};
use crate::subtree::{Parts, Subtree};
use crate::validity::same_bytes;
use mls_leaf::{LeafNode, ParentNode};
use mls_tree_hash::{Hash, branch_hash_without, leaf_hash, leaf_hash_without};

/// The unmerged leaves of a place that may be blank.
fn unmerged_leaves_of(parent: Option<&ParentNode>) -> &[u32]
    ensures { result.now ≡ unmerged_leaves_of (option_copied parent.entry) }
{
    match parent {
        Some(parent) => parent.unmerged_leaves(),
        None => &[],
    }
}

/// Whether a list has none of some leaves.
fn are_disjoint(leaves: &[u32], unmerged: &[u32]) -> bool
    requires { rises unmerged.now ≡ true }
    ensures { result ≡ list_all (λ u. not (has unmerged.now u)) leaves.now }
{
    for leaf in leaves {
        if has(unmerged, *leaf) {
            return false;
        }
    }
    true
}

/// Whether a root keeps its hash: its sides have the hashes that they had, and it lists none of the leaves.
fn keeps_hash(
    parent: Option<&ParentNode>,
    unmerged: &[u32],
    left: &Hash,
    right: &Hash,
    old_left: &Hash,
    old_right: &Hash,
) -> bool
    requires { rises unmerged.now ≡ true }
    ensures { Stays unmerged.now parent.entry left.now right.now old_left.now old_right.now result }
{
    if !same_bytes(left, old_left) {
        return false;
    }
    if !same_bytes(right, old_right) {
        return false;
    }
    are_disjoint(unmerged_leaves_of(parent), unmerged)
}

/// The tree hash of an original by those of its sides. It is `own`, the tree hash of the tree, where its root lists
/// none of the leaves and its sides have the hashes that they had, `old_left` and `old_right`.
fn original_root_hash(
    parent: Option<&ParentNode>,
    unmerged: &[u32],
    left: &Hash,
    right: &Hash,
    old_left: &Hash,
    old_right: &Hash,
    own: &Hash,
) -> Hash
    requires rise { rises unmerged.now ≡ true }
    requires own { own.now ≡ branch_hash (option_copied parent) old_left.now old_right.now }
    ensures { result ≡ hash_without unmerged.now (option_copied parent.entry) left.now right.now }
{
    if keeps_hash(parent, unmerged, left, right, old_left, old_right) {
        return *own;
    }
    branch_hash_without(unmerged, parent, left, right)
}

/// How many leaves of a rising list are before this one.
fn count_before(leaves: &[u32], end: u32) -> usize
    requires { rises leaves.now ≡ true }
    ensures { Splits leaves.now end result }
{
    match leaves.binary_search(&end) {
        Ok(place) => place,
        Err(place) => place,
    }
}

/// The tree hash of a side as it was before some leaves were added, where its parents list leaves below them alone: only
/// the subtrees that have one of the leaves are walked, and of these only those that they change are hashed.
pub(crate) fn original_hash(tree: &HashedSubtree<'_>, unmerged: &[u32]) -> Hash
    requires rise { rises unmerged.now ≡ true }
    requires lists { all_parents lists_here tree.now.first tree.now.term ≡ true }
    ensures { result ≡ original_hash unmerged.now tree.now.first tree.now.term }
{
    if unmerged.is_empty() {
        return tree.hash();
    }
    match tree.parts() {
        HashedParts::Leaf(_) => {
            let first = tree.first();
            if has(unmerged, first) {
                return leaf_hash_without(first);
            }
            tree.hash()
        }
        HashedParts::Branch { left, root, right } => {
            let count = count_before(unmerged, right.first());
            let old_left = left.hash();
            let old_right = right.hash();
            let own = tree.hash();
            let left = original_hash(&left, &unmerged[..count]);
            let right = original_hash(&right, &unmerged[count..]);
            let parent = parent_in(root);
            original_root_hash(parent, unmerged, &left, &right, &old_left, &old_right, &own)
        }
    }
}

/// The tree hash of a leaf that is blank where it was added. No counter counts it.
fn rehashed_leaf(leaf: Option<&LeafNode>, number: u32, unmerged: &[u32]) -> Hash
    requires { rises unmerged.now ≡ true }
    ensures { result
        ≡ leaf_hash number (leaf_before unmerged.now number (option_copied leaf.entry)) }
{
    if has(unmerged, number) {
        return leaf_hash_without(number);
    }
    let mut done = 0;
    leaf_hash(number, leaf, &mut done)
}

/// The tree hash of a tree as it was before some leaves were added, whatever its parents list. Each of its nodes is
/// hashed.
pub(crate) fn rehashed_original(tree: &Subtree<'_>, unmerged: &[u32]) -> Hash
    requires { rises unmerged.now ≡ true }
    ensures { result ≡ original_hash unmerged.now tree.now.first tree.now.term }
{
    match tree.parts() {
        Parts::Leaf(place) => rehashed_leaf(leaf_in(place), tree.first(), unmerged),
        Parts::Branch { left, root, right } => {
            let left = rehashed_original(&left, unmerged);
            let right = rehashed_original(&right, unmerged);
            branch_hash_without(unmerged, parent_in(root), &left, &right)
        }
    }
}
