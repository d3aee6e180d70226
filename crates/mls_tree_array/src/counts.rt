//! How many ciphertexts the nodes of a path have.

ghost use Rattle.std.specs.Prelude.{◌≡◌, true, ◌+◌, ◌*◌, ◌^◌, ◌≤◌, length, OnOk};
ghost use Rattle.std.specs.Bool.{OnTrue};
ghost use Rattle.mls_leaf.specs.Parent.{rises};
ghost use Rattle.mls_tree_model.specs.Sets.{has, less, leaf_numbers};
ghost use Rattle.mls_tree_model.specs.Way.{target_count};
ghost use Rattle.mls_tree_model.specs.Term.{size};
ghost use Rattle.mls_tree_array.specs.Additions.{AddsCount, AddsCounts};

use crate::places::{leaf_in, parent_in};
use crate::resolutions::is_reached;
use crate::subtree::{Parts, Subtree};
use std::alloc::AllocError;

/// Whether a search by halves finds a node among these leaves. Where they rise, it misses none.
fn is_found(leaves: &[u32], node: u64) -> bool
    ensures found { OnTrue result (has (leaf_numbers leaves.now) node ≡ true) }
    ensures rising { rises leaves.now ≡ true → result ≡ has (leaf_numbers leaves.now) node }
{
    let mut start = 0;
    let mut end = leaves.len();
    while start < end {
        let middle = start + (end - start) / 2;
        let number = 2 * u64::from(leaves[middle]);
        if number == node {
            return true;
        }
        if number < node {
            start = middle + 1;
        } else {
            end = middle;
        }
    }
    false
}

/// Whether a node is one of these leaves. Leaves just added rise, so that one of them is found by halves; if none is,
/// all are gone through, since a list of leaves may have any order.
pub fn is_leaf_among(leaves: &[u32], node: u64) -> bool
    ensures { result ≡ has (leaf_numbers leaves.now) node }
{
    if is_found(leaves, node) {
        return true;
    }
    for leaf in leaves {
        if 2 * u64::from(*leaf) == node {
            return true;
        }
    }
    false
}

/// How many of some leaves aren't among the added ones: no more than 2^32 where they rise.
fn count_others(leaves: &[u32], added: &[u32]) -> usize
    ensures value { result ≡ length (less (leaf_numbers added.now) (leaf_numbers leaves.now)) }
    ensures low { rises leaves.now ≡ true → result ≤ 2 ^ 32 }
{
    let mut count = 0usize;
    for leaf in leaves {
        if is_leaf_among(added, 2 * u64::from(*leaf)) {
            continue;
        }
        count += 1;
    }
    count
}

/// How many nodes of the resolution aren't leaves just added.
#[tactic(auto, unfolding(mls_tree_model::specs::Term::size))]
fn target_count(tree: &Subtree<'_>, added: &[u32]) -> usize
    ensures value { result ≡ target_count added.now tree.now.first tree.now.term }
    ensures low { result ≤ size tree.now.term * (2 ^ 32 + 1) }
{
    match tree.parts() {
        Parts::Leaf(place) => match leaf_in(place) {
            Some(_) => usize::from(!is_leaf_among(added, 2 * u64::from(tree.first()))),
            None => 0,
        },
        Parts::Branch { left, root, right } => match parent_in(root) {
            Some(parent) => 1 + count_others(parent.unmerged_leaves(), added),
            None => target_count(&left, added) + target_count(&right, added),
        },
    }
}

/// Adds to `out` how many nodes of a side's resolution aren't leaves just added, where it has any node.
fn push_count(side: &Subtree<'_>, added: &[u32], out: &mut Vec<usize>) -> Result<(), AllocError>
    ensures { OnOk result (AddsCount side.now added.now out.old out.new) }
{
    let count = target_count(side, added);
    // Where one is counted there is one: mostly so, and then the side isn't walked again.
    if count > 0 || is_reached(side) {
        out.push(count)?;
    }
    Ok(())
}

/// Adds to `out` how many ciphertexts each node of a leaf's path has, the lowest first (RFC 9420, 7.6): one for each
/// node of the resolution of its other side, without the leaves just added.
pub fn ciphertext_counts(
    tree: &Subtree<'_>,
    leaf: u32,
    added: &[u32],
    out: &mut Vec<usize>,
) -> Result<(), AllocError>
    ensures { OnOk result (AddsCounts tree.now leaf added.now out.old out.new) }
{
    match tree.step_to(leaf) {
        None => Ok(()),
        Some(step) => {
            ciphertext_counts(&step.side, leaf, added, out)?;
            push_count(&step.other, added, out)
        }
    }
}
