//! Resolutions: the nodes that together reach all members of a tree.

ghost use Rattle.std.specs.Prelude.{◌≡◌, ℕ, not, OnOk};
ghost use Rattle.mls_tree_model.specs.Resolution.{is_empty, is_reached};
ghost use Rattle.mls_tree_model.specs.Places.{resolution_at};
ghost use Rattle.mls_tree_array.specs.Additions.{AddsLeaves, AddsResolution, AddsResolutionAt};

use crate::places::{holds_leaf, leaf_in, parent_in};
use crate::subtree::{Parts, Subtree, subtree_at};
use mls_leaf::ParentNode;
use std::alloc::AllocError;

/// Adds the node numbers of a parent's unmerged leaves.
fn push_unmerged(parent: &ParentNode, out: &mut Vec<u64>) -> Result<(), AllocError>
    ensures { OnOk result (AddsLeaves parent.now.unmerged_leaves out.old out.new) }
{
    for leaf in parent.unmerged_leaves() {
        out.push(2 * u64::from(*leaf))?;
    }
    Ok(())
}

/// Adds the resolution of the tree to `out`, as node numbers (RFC 9420, 4.1.1).
pub fn resolution(tree: &Subtree<'_>, out: &mut Vec<u64>) -> Result<(), AllocError>
    ensures { OnOk result (AddsResolution tree.now out.old out.new) }
{
    match tree.parts() {
        Parts::Leaf(place) => match leaf_in(place) {
            Some(_) => Ok(out.push(u64::from(tree.number()))?),
            None => Ok(()),
        },
        Parts::Branch { left, root, right } => match parent_in(root) {
            Some(parent) => {
                out.push(u64::from(tree.number()))?;
                push_unmerged(parent, out)
            }
            None => {
                resolution(&left, out)?;
                resolution(&right, out)
            }
        },
    }
}

/// Adds the resolution of node `x`: nothing where no node has that number.
pub fn resolution_at(tree: &Subtree<'_>, x: u32, out: &mut Vec<u64>) -> Result<(), AllocError>
    ensures { OnOk result (AddsResolutionAt tree.now x out.old out.new) }
{
    match subtree_at(tree, u64::from(x)) {
        Some(subtree) => resolution(&subtree, out),
        None => Ok(()),
    }
}

/// Whether the resolution isn't empty.
pub fn is_reached(tree: &Subtree<'_>) -> bool
    ensures { (b : ℕ) → result ≡ is_reached b tree.now.term }
{
    match tree.parts() {
        Parts::Leaf(place) => holds_leaf(place),
        Parts::Branch { left, root, right } => match parent_in(root) {
            Some(_) => true,
            None => {
                let on_left = is_reached(&left);
                on_left || is_reached(&right)
            }
        },
    }
}

/// Whether the resolution of node `x` isn't empty; where no node has that number it is.
pub fn is_reached_at(tree: &Subtree<'_>, x: u32) -> bool
    ensures { result ≡ not (is_empty (resolution_at tree.now.first tree.now.term x)) }
{
    match subtree_at(tree, u64::from(x)) {
        Some(subtree) => is_reached(&subtree),
        None => false,
    }
}
