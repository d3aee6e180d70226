//! The hashes that a merged path makes on the way to its leaf: made before the merge, and kept after it.

ghost use Rattle.std.specs.Prelude.{◌≡◌, suc, ◌+◌, ◌*◌, ◌^◌, ◌≤◌, length, OnOk};
ghost use Rattle.std.specs.Option.{option_copied};
ghost use Rattle.mls_treemath.specs.Limits.{max_height};
ghost use Rattle.mls_treemath.specs.Paths.{nodes_in};
ghost use Rattle.mls_tree_model.specs.Term.{height};
ghost use Rattle.mls_tree_hash.specs.Counter.{counted};
ghost use Rattle.mls_tree_array.specs.Merging.{first_if, rest_if};
ghost use Rattle.mls_tree_array.specs.WayHashes.{AddsWay, IsColdOnWay, KeepsOnWay};

use crate::hashed_subtree::{HashedParts, HashedSubtree};
use crate::places::{root_of, second_first};
use mls_leaf::{LeafNode, ParentNode};
use mls_tree_cells::Cells;
use mls_tree_hash::{Hash, branch_hash, leaf_hash};
use mls_tree_slot::SharedParent;
use std::alloc::AllocError;

/// The next parent where one is wanted, and the others.
fn next_parent(wanted: bool, parents: &[SharedParent]) -> (Option<&ParentNode>, &[SharedParent])
    ensures parent { option_copied result.0 ≡ first_if wanted parents.now }
    ensures rest { result.1.now ≡ rest_if wanted parents.now }
{
    if !wanted {
        return (None, parents);
    }
    match parents {
        [first, rest @ ..] => (Some(first.parent()), rest),
        [] => (None, parents),
    }
}

/// The tree hash that a tree will have once a path is merged into it (RFC 9420, 7.5 and 7.8), whose parents are given
/// highest first. Adds those of leaf i and of the nodes over it to `out`, the lowest first; they alone are made, and
/// counted in `done`.
pub fn merged_hashes(
    tree: &HashedSubtree<'_>,
    i: u32,
    parents: &[SharedParent],
    leaf: &LeafNode,
    out: &mut Vec<Hash>,
    done: &mut u64,
) -> Result<Hash, AllocError>
    ensures hashes { AddsWay tree.now i parents.now leaf.now out.old out.new result }
    ensures counted { OnOk result (done.new ≡ counted done.old (suc (height tree.now.term))) }
{
    match tree.parts() {
        HashedParts::Leaf(_) => {
            let hash = leaf_hash(tree.first(), Some(leaf), done);
            out.push(hash)?;
            Ok(hash)
        }
        HashedParts::Branch { left, right, .. } => {
            let hash = if i < right.first() {
                let (parent, rest) = next_parent(right.is_reached(), parents);
                let side = merged_hashes(&left, i, rest, leaf, out, done)?;
                branch_hash(parent, &side, &right.hash(), done)
            } else {
                let (parent, rest) = next_parent(left.is_reached(), parents);
                let side = merged_hashes(&right, i, rest, leaf, out, done)?;
                branch_hash(parent, &left.hash(), &side, done)
            };
            out.push(hash)?;
            Ok(hash)
        }
    }
}

/// Keeps these hashes of leaf i and of the nodes over it, the lowest first, in the subtree of this height whose first
/// leaf this is.
fn keep_hashes(cells: &mut Cells, height: u32, first: u32, i: u32, hashes: &[Hash])
    requires shape { 2 * first + nodes_in height ≤ length cells.old.nodes }
    requires cold { IsColdOnWay height first i cells.old.hashes }
    requires long { length hashes.now ≡ suc height }
    requires fits { first + 2 ^ height ≤ 2 ^ 31 }
    ensures { KeepsOnWay height first i hashes.now cells.old cells.new }
{
    cells.keep_hash(root_of(height, first) as usize, hashes[height as usize]);
    if height == 0 {
        return;
    }
    let below = &hashes[..height as usize];
    let second = second_first(height, first);
    if i < second {
        keep_hashes(cells, height - 1, first, i, below);
    } else {
        keep_hashes(cells, height - 1, second, i, below);
    }
}

/// Keeps the hashes of leaf i and of the nodes over it that a merge of leaf i was found to make, the lowest first, where
/// these nodes are cold, and counts them in `done`; visits one node a level. Takes no memory.
pub fn put_hashes(cells: &mut Cells, height: u32, i: u32, hashes: &[Hash], done: &mut u64)
    requires shape { length cells.old.nodes ≡ nodes_in height }
    requires cold { IsColdOnWay height 0 i cells.old.hashes }
    requires long { length hashes.now ≡ suc height }
    requires low { height ≤ max_height }
    ensures kept { KeepsOnWay height 0 i hashes.now cells.old cells.new }
    ensures counted { done.new ≡ counted done.old (length hashes.now) }
{
    keep_hashes(cells, height, 0, i, hashes);
    *done = done.saturating_add(hashes.len() as u64);
}
