//! The first parent of a tree that breaks a rule: those below a parent come before it, and those on its left side before
//! those on its right.

ghost use Rattle.std.specs.Prelude.{◌≡◌, true, IfOk};
ghost use Rattle.mls_tree_model.specs.Lists.{lists_here, all_parents};
ghost use Rattle.mls_tree_model.specs.Hashes.{is_parent_hash_valid};
ghost use Rattle.mls_tree_array.specs.FirstParents.{NamesFirst, NamesRoot};
ghost use Rattle.mls_tree_array.specs.Subtrees.{end};

use crate::hashed_subtree::{HashedParts, HashedSubtree};
use crate::lists::is_root_list_right;
use crate::subtree::{Parts, Subtree};
use crate::validity::is_root_valid;
use mls_tree_slot::Slot;
use std::alloc::{AllocError, Global};

/// The root of a tree over these two sides, where it lists a leaf that it may not.
fn root_with_wrong_list(
    tree: &Subtree<'_>,
    left: &Subtree<'_>,
    root: &Slot,
    right: &Subtree<'_>,
) -> Option<u32>
    requires { right.now.first ≡ end left.now }
    ensures { NamesRoot lists_here tree.now left.now root.now right.now result }
{
    if is_root_list_right(root, left, right) {
        return None;
    }
    Some(tree.number())
}

/// The first parent that lists a leaf that it may not, as a node index (RFC 9420, 12.4.3.1): None where all lists are
/// right. Takes no memory.
pub fn first_wrong_list(tree: &Subtree<'_>) -> Option<u32>
    ensures { NamesFirst lists_here tree.now result }
{
    match tree.parts() {
        Parts::Leaf(_) => None,
        Parts::Branch { left, root, right } => match first_wrong_list(&left) {
            Some(node) => Some(node),
            None => match first_wrong_list(&right) {
                Some(node) => Some(node),
                None => root_with_wrong_list(tree, &left, root, &right),
            },
        },
    }
}

/// The root of a tree over these two sides, where it isn't parent-hash valid.
fn root_with_wrong_hash(
    tree: &HashedSubtree<'_>,
    left: &HashedSubtree<'_>,
    root: &Slot,
    right: &HashedSubtree<'_>,
    found: &mut Vec<u64>,
) -> Result<Option<u32>, AllocError>
    requires middle { right.now.first ≡ end left.now }
    requires left { all_parents lists_here left.now.first left.now.term ≡ true }
    requires right { all_parents lists_here right.now.first right.now.term ≡ true }
    ensures { IfOk result (NamesRoot is_parent_hash_valid tree.now left.now root.now right.now) }
{
    if is_root_valid(root, left, right, found)? {
        return Ok(None);
    }
    Ok(Some(tree.tree().number()))
}

/// The first parent that isn't parent-hash valid. `found` is room for resolutions.
fn first_invalid(tree: &HashedSubtree<'_>, found: &mut Vec<u64>) -> Result<Option<u32>, AllocError>
    requires { all_parents lists_here tree.now.first tree.now.term ≡ true }
    ensures { IfOk result (NamesFirst is_parent_hash_valid tree.now) }
{
    match tree.parts() {
        HashedParts::Leaf(_) => Ok(None),
        HashedParts::Branch { left, root, right } => match first_invalid(&left, found)? {
            Some(node) => Ok(Some(node)),
            None => match first_invalid(&right, found)? {
                Some(node) => Ok(Some(node)),
                None => root_with_wrong_hash(tree, &left, root, &right, found),
            },
        },
    }
}

/// The first parent that isn't parent-hash valid, as a node index (RFC 9420, 7.9.2), where all lists of unmerged leaves
/// are right: None where all parents are.
pub fn first_wrong_hash(alloc: Global, tree: &HashedSubtree<'_>) -> Result<Option<u32>, AllocError>
    requires { all_parents lists_here tree.now.first tree.now.term ≡ true }
    ensures { IfOk result (NamesFirst is_parent_hash_valid tree.now) }
{
    let mut found = Vec::new(alloc);
    first_invalid(tree, &mut found)
}
