//! The nodes that tie the sides of a tree to its root (RFC 9420, 7.9.2).

ghost use Rattle.std.specs.Prelude.{◌≡◌, ◌≤◌, true, IfOk};
ghost use Rattle.std.specs.List.{list_all};
ghost use Rattle.std.specs.List.Sorted.{IsNonDecreasing};
ghost use Rattle.mls_leaf.specs.Parent.{rises};
ghost use Rattle.mls_tree_model.specs.Sets.{has, is_same_set};
ghost use Rattle.mls_tree_array.specs.Witnesses.{numbers_in, others, first_outside, candidate, is_or_among, is_out_or_other};

use crate::lists::has;
use crate::resolutions::resolution;
use crate::subtree::Subtree;
use mls_leaf::ParentNode;
use std::alloc::AllocError;

/// Whether a node is one of the leaves of a rising list from `first` on, below `end`.
fn is_among(leaves: &[u32], first: u32, end: u32, node: u64) -> bool
    requires rise { rises leaves.now ≡ true }
    requires order { first ≤ end }
    ensures { result ≡ has (numbers_in first end leaves.now) node }
{
    if node % 2 == 1 {
        return false;
    }
    let leaf = node / 2;
    if leaf < u64::from(first) || leaf >= u64::from(end) {
        return false;
    }
    has(leaves, leaf as u32)
}

/// The first of some nodes that isn't one of the leaves of a rising list from `first` on, below `end`.
fn first_outside(leaves: &[u32], first: u32, end: u32, nodes: &[u64]) -> Option<u64>
    requires rise { rises leaves.now ≡ true }
    requires order { first ≤ end }
    ensures { result ≡ first_outside (numbers_in first end leaves.now) nodes.now }
{
    for node in nodes {
        if !is_among(leaves, first, end, *node) {
            return Some(*node);
        }
    }
    None
}

/// Whether a node is this one or one of the leaves.
fn is_or_among(leaves: &[u32], first: u32, end: u32, other: u64, node: u64) -> bool
    requires rise { rises leaves.now ≡ true }
    requires order { first ≤ end }
    ensures { result ≡ is_or_among leaves.now first end other node }
{
    node == other || is_among(leaves, first, end, node)
}

/// Whether all nodes but one are among the leaves.
fn others_among(leaves: &[u32], first: u32, end: u32, nodes: &[u64], node: u64) -> bool
    requires rise { rises leaves.now ≡ true }
    requires order { first ≤ end }
    ensures { result ≡ list_all (is_or_among leaves.now first end node) nodes.now }
{
    for x in nodes {
        if !is_or_among(leaves, first, end, node, *x) {
            return false;
        }
    }
    true
}

/// Whether a leaf is outside, or another node than this one and among the sorted nodes.
fn is_out_or_other(leaf: u32, first: u32, end: u32, nodes: &[u64], node: u64) -> bool
    requires order { first ≤ end }
    requires sorted { IsNonDecreasing nodes.now }
    ensures { result ≡ is_out_or_other first end nodes.now node leaf }
{
    if leaf < first || leaf >= end {
        return true;
    }
    let x = 2 * u64::from(leaf);
    if x == node {
        return false;
    }
    nodes.binary_search(&x).is_ok()
}

/// Whether all leaves from `first` on, below `end`, are among the sorted nodes without one of them.
fn leaves_among(leaves: &[u32], first: u32, end: u32, nodes: &[u64], node: u64) -> bool
    requires order { first ≤ end }
    requires sorted { IsNonDecreasing nodes.now }
    ensures { result ≡ list_all (is_out_or_other first end nodes.now node) leaves.now }
{
    for leaf in leaves {
        if !is_out_or_other(*leaf, first, end, nodes, node) {
            return false;
        }
    }
    true
}

/// Whether the leaves are the nodes without one of them. Sorts the nodes to search them, which takes no memory.
fn are_others(leaves: &[u32], first: u32, end: u32, nodes: &mut [u64], node: u64) -> bool
    requires rise { rises leaves.now ≡ true }
    requires order { first ≤ end }
    ensures { result ≡ is_same_set (numbers_in first end leaves.now) (others node nodes.old) }
{
    if !others_among(leaves, first, end, nodes, node) {
        return false;
    }
    nodes.sort_unstable();
    leaves_among(leaves, first, end, nodes, node)
}

/// The only node that can tie a side to a parent over it: its resolution is this node and the leaves that the parent
/// lists below it. `found` is room for the resolution, and may hold it sorted. Besides the walk for it, n nodes and
/// leaves take time in proportion to n log n.
pub(crate) fn candidate(
    parent: &ParentNode,
    side: &Subtree<'_>,
    found: &mut Vec<u64>,
) -> Result<Option<u64>, AllocError>
    ensures { IfOk result (λ d. d ≡ candidate parent.now side.now.first side.now.term) }
{
    found.clear();
    resolution(side, found)?;
    let leaves = parent.unmerged_leaves();
    let first = side.first();
    let end = side.end();
    match first_outside(leaves, first, end, found) {
        Some(node) => {
            if !are_others(leaves, first, end, found, node) {
                return Ok(None);
            }
            Ok(Some(node))
        }
        None => Ok(None),
    }
}
