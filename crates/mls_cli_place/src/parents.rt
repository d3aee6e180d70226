//! Where a ratchet tree first breaks a rule that is asked of each parent.

ghost use Rattle.std.specs.Prelude.{◌≡◌, ◌≤◌, true, None, length, replicate, IfOk};
ghost use Rattle.mls_treemath.specs.Limits.{max_height};
ghost use Rattle.mls_treemath.specs.Paths.{nodes_in};
ghost use Rattle.mls_tree_model.specs.Arrays.{term_of};
ghost use Rattle.mls_tree_model.specs.FirstParents.{first_wrong_hash};
ghost use Rattle.mls_tree_model.specs.Good.{has_good_lists};
ghost use Rattle.mls_cli_place.specs.Parents.{first_sent, first_wrong};

use mls_tree_array::{self as array, HashedSubtree, Subtree};
use mls_tree_cells::Cells;
use mls_tree_slot::Slot;
use mls_treemath::MAX_HEIGHT;
use std::alloc::{AllocError, Global};

/// A rule that is asked of each parent.
#[derive(Clone, Copy, Debug, PartialEq, Eq)]
pub(crate) enum ParentRule {
    /// It lists only leaves that it may list.
    Lists,
    /// It is parent-hash valid.
    Hashes,
}

/// The first parent that isn't parent-hash valid, where all lists of unmerged leaves are right.
fn wrong_hash(alloc: Global, cells: Cells, height: u32) -> Result<Option<u32>, AllocError>
    requires shape { length cells.nodes ≡ nodes_in height }
    requires cold { cells.hashes ≡ replicate (nodes_in height) None }
    requires low { height ≤ max_height }
    requires lists { has_good_lists (term_of height cells.nodes) ≡ true }
    ensures { IfOk result (λ found. found ≡ first_wrong_hash (term_of height cells.nodes)) }
{
    let mut cells = cells;
    let mut done = 0;
    let _tree_hash = array::tree_hash(&mut cells, height, &mut done);
    array::first_wrong_hash(alloc, &HashedSubtree::of(&cells, height))
}

/// The first parent of a whole tree that breaks a rule. Hashes are looked at where all lists are right.
fn first_in_tree(
    alloc: Global,
    rule: ParentRule,
    cells: Cells,
    height: u32,
) -> Result<Option<u32>, AllocError>
    requires shape { length cells.nodes ≡ nodes_in height }
    requires cold { cells.hashes ≡ replicate (nodes_in height) None }
    requires low { height ≤ max_height }
    ensures { IfOk result (λ found. found ≡ first_wrong rule (term_of height cells.nodes)) }
{
    match rule {
        ParentRule::Lists => Ok(array::first_wrong_list(&Subtree::of(&cells, height))),
        ParentRule::Hashes => {
            if !array::has_good_lists(&Subtree::of(&cells, height)) {
                return Ok(None);
            }
            wrong_hash(alloc, cells, height)
        }
    }
}

/// The first parent, of the tree that nodes stand for as they are sent, that breaks a rule: those below a parent come
/// before it, and those on its left side before those on its right (`UnmergedWrong` (23), RFC 9420, 12.4.3.1;
/// `ParentHashWrong` (24), RFC 9420, 7.9.2). None where there would be too many nodes.
pub(crate) fn first_wrong_parent(
    alloc: Global,
    rule: ParentRule,
    nodes: &[Slot],
) -> Result<Option<u32>, AllocError>
    ensures { IfOk result (λ found. found ≡ first_sent rule nodes.now) }
{
    let height = array::height_for(nodes.len());
    if height > MAX_HEIGHT {
        return Ok(None);
    }
    let mut whole = Vec::from_clones(alloc, nodes)?;
    array::pad_tree(&mut whole, height)?;
    let cells = Cells::from_slots(whole)?;
    first_in_tree(alloc, rule, cells, height)
}
