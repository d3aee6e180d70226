//! The size of a tree: halved where its right half has no member, or doubled.

ghost use Rattle.std.specs.Prelude.{◌≡◌, suc, ◌≤◌, ◌<◌, ◌++◌, replicate, None, OnOk, OnErr};
ghost use Rattle.mls_treemath.specs.Limits.{max_height};
ghost use Rattle.mls_treemath.specs.Paths.{nodes_in};
ghost use Rattle.mls_tree_model.specs.Term.{height};
ghost use Rattle.mls_tree_model.specs.Edits.{grow, trim};
ghost use Rattle.mls_tree_model.specs.Arrays.{term_of, in_order};
ghost use Rattle.mls_tree_array.specs.EndOfMembers.{end_of_members};
ghost use Rattle.mls_tree_array.specs.Standing.{Stands};

use crate::subtree::{Parts, Subtree};
use mls_tree_cells::Cells;
use std::alloc::AllocError;

/// The height of what a trim keeps: the left half alone as long as the right half has no member (RFC 9420, 7.7), where
/// `end` is one past the rightmost taken leaf.
pub fn trimmed_height(tree: &Subtree<'_>, end: u32) -> u32
    requires { end ≡ end_of_members tree.now.first tree.now.term }
    ensures value { result ≡ height (trim tree.now.term) }
    ensures low { result ≤ height tree.now.term }
{
    match tree.parts() {
        Parts::Leaf(_) => 0,
        Parts::Branch { left, right, .. } => {
            if right.first() < end {
                return tree.height();
            }
            trimmed_height(&left, end)
        }
    }
}

/// Twice the leaves: a blank root, the tree on its left, blank nodes on its right (RFC 9420, 7.7). The new nodes are
/// cold. Without memory for them all stays.
pub fn grow(cells: &mut Cells, height: u32) -> Result<(), AllocError>
    requires stands { Stands height cells.old.nodes }
    requires low { height < max_height }
    ensures ok { OnOk result (cells.new.nodes ≡ in_order (grow (term_of height cells.old.nodes))) }
    ensures cold { OnOk result (cells.new.hashes
        ≡ cells.old.hashes ++ replicate (suc (nodes_in height)) None) }
    ensures err { OnErr result (cells.new ≡ cells.old) }
{
    let count = cells.len() + 1;
    cells.grow(count)
}
