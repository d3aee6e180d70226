//! Right lists of unmerged leaves (RFC 9420, 12.4.3.1).

ghost use Rattle.std.specs.Prelude.{◌≡◌, true};
ghost use Rattle.std.specs.Option.{option_copied};
ghost use Rattle.mls_leaf.specs.Parent.{rises};
ghost use Rattle.mls_tree_model.specs.Sets.{has};
ghost use Rattle.mls_tree_model.specs.Lists.{may_list, is_listed, may_be_listed, lists_here, rises_here, all_parents};
ghost use Rattle.mls_tree_model.specs.Good.{has_good_lists};
ghost use Rattle.mls_tree_array.specs.RightLists.{passes_over, root_passes, AllRise};
ghost use Rattle.mls_tree_array.specs.Subtrees.{end};

use crate::places::{holds_leaf, parent_in};
use crate::subtree::{Parts, Subtree};
use mls_leaf::ParentNode;
use mls_tree_slot::Slot;

/// Whether a rising list has a leaf.
pub(crate) fn has(leaves: &[u32], leaf: u32) -> bool
    requires { rises leaves.now ≡ true }
    ensures { result ≡ has leaves.now leaf }
{
    leaves.binary_search(&leaf).is_ok()
}

/// Whether a place that isn't blank lists a leaf.
fn may_list(parent: Option<&ParentNode>, leaf: u32) -> bool
    ensures { result ≡ may_list (option_copied parent.entry) leaf }
{
    match parent {
        Some(parent) => has(parent.unmerged_leaves(), leaf),
        None => true,
    }
}

/// Whether a leaf is taken, and each parent over it lists it.
fn is_listed(tree: &Subtree<'_>, leaf: u32) -> bool
    ensures { result ≡ is_listed tree.now.first tree.now.term leaf }
{
    match tree.parts() {
        Parts::Leaf(place) => holds_leaf(place),
        Parts::Branch { left, root, right } => {
            if !may_list(parent_in(root), leaf) {
                return false;
            }
            if leaf < right.first() {
                return is_listed(&left, leaf);
            }
            is_listed(&right, leaf)
        }
    }
}

/// Whether a parent over these two sides may list a leaf: it is below it, and each parent between lists it.
fn may_be_listed(left: &Subtree<'_>, right: &Subtree<'_>, leaf: u32) -> bool
    requires { right.now.first ≡ end left.now }
    ensures { result ≡ may_be_listed left.now.first left.now.term right.now.term leaf }
{
    if leaf < left.first() || leaf >= right.end() {
        return false;
    }
    if leaf < right.first() {
        return is_listed(left, leaf);
    }
    is_listed(right, leaf)
}

/// Whether a parent over these two sides lists only what it may list.
#[tactic(auto, unfolding(mls_tree_model::specs::Lists::rises_here))]
fn lists_here(parent: &ParentNode, left: &Subtree<'_>, right: &Subtree<'_>) -> bool
    requires { right.now.first ≡ end left.now }
    ensures right { result ≡ passes_over lists_here left.now parent.now right.now }
    // Its list rises, as every parent's does.
    ensures rising { passes_over rises_here left.now parent.now right.now ≡ true }
{
    for leaf in parent.unmerged_leaves() {
        if !may_be_listed(left, right, *leaf) {
            return false;
        }
    }
    true
}

/// Whether the root over these two sides lists only what it may list, where it isn't blank.
pub(crate) fn is_root_list_right(root: &Slot, left: &Subtree<'_>, right: &Subtree<'_>) -> bool
    requires { right.now.first ≡ end left.now }
    ensures right { result ≡ root_passes lists_here left.now root.now right.now }
    ensures rising { root_passes rises_here left.now root.now right.now ≡ true }
{
    match parent_in(root) {
        Some(parent) => lists_here(parent, left, right),
        None => true,
    }
}

/// Whether each parent of a tree lists only what it may list.
fn are_lists_right(tree: &Subtree<'_>) -> bool
    ensures right { result ≡ all_parents lists_here tree.now.first tree.now.term }
    ensures rising { result ≡ true → AllRise tree.now.first tree.now.term }
{
    match tree.parts() {
        Parts::Leaf(_) => true,
        Parts::Branch { left, root, right } => {
            if !is_root_list_right(root, &left, &right) {
                return false;
            }
            if !are_lists_right(&left) {
                return false;
            }
            are_lists_right(&right)
        }
    }
}

/// Whether each unmerged leaf of a whole tree is a member below its parent, and each parent between lists it too. Takes
/// no memory. Each list that it has gone over rises.
pub fn has_good_lists(tree: &Subtree<'_>) -> bool
    requires { tree.now.first ≡ 0 }
    ensures right { result ≡ has_good_lists tree.now.term }
    ensures rising { result ≡ true → AllRise 0 tree.now.term }
{
    are_lists_right(tree)
}
