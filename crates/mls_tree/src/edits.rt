//! Edits of the cells of a whole tree.

ghost use Rattle.std.specs.Prelude.{◌≡◌, ◌≤◌, ◌<◌, length, take, OnOk, OnErr};
ghost use Rattle.mls_treemath.specs.Limits.{max_height};
ghost use Rattle.mls_treemath.specs.Paths.{nodes_in};
ghost use Rattle.mls_tree_model.specs.Edits.{trim};
ghost use Rattle.mls_tree_model.specs.Arrays.{term_of};
ghost use Rattle.mls_tree_array.specs.EndOfMembers.{end_of_members};
ghost use Rattle.mls_tree_array.specs.Standing.{Stands};
ghost use Rattle.mls_tree_array.specs.StandingLaws.{StandsFor};
ghost use Rattle.mls_tree.specs.IndexedKeys.{AreOwn, KeepsIndexes, StayOwn};
ghost use Rattle.mls_tree.specs.ArrayEdits.{PutsLeaf, EntersLeaf, AppendsLeaf};

use crate::key_indexes::KeyIndexes;
use crate::way::Way;
use mls_tree_array::{self as array, Subtree};
use mls_tree_cells::Cells;
use mls_tree_slot::SharedLeaf;
use std::alloc::AllocError;

/// Replaces leaf i and blanks the parents over it. Without memory all stays.
fn put(cells: &mut Cells, height: u32, i: u32, leaf: Option<SharedLeaf>) -> Result<(), AllocError>
    requires stands { Stands height cells.old.nodes }
    requires low { height ≤ max_height }
    requires long { length cells.old.hashes ≡ nodes_in height }
    ensures ok { OnOk result (PutsLeaf height i leaf cells.old cells.new) }
    ensures err { OnErr result (cells.new ≡ cells.old) }
{
    let alloc = cells.allocator();
    let changes = array::put_changes(alloc, &Subtree::of(cells, height), i, leaf)?;
    cells.put(changes)
}

/// Replaces leaf i and blanks the parents over it, in the indexes too. Without memory all stays.
pub(crate) fn put_with_indexes(
    cells: &mut Cells,
    indexes: &mut KeyIndexes,
    height: u32,
    i: u32,
    leaf: Option<SharedLeaf>,
) -> Result<(), AllocError>
    requires stands { Stands height cells.old.nodes }
    requires low { height ≤ max_height }
    requires long { length cells.old.hashes ≡ nodes_in height }
    ensures ok { OnOk result (PutsLeaf height i leaf cells.old cells.new) }
    ensures err { OnErr result (cells.new ≡ cells.old) }
    ensures indexes { KeepsIndexes cells.old.nodes cells.new.nodes indexes.old indexes.new }
    ensures own { StayOwn indexes.old indexes.new }
{
    let way = Way::over(height, i);
    let places = way.as_slice();
    // Each place leaves and enters.
    indexes.reserve(3 * places.len())?;
    indexes.leave_all(cells, places);
    let done = put(cells, height, i, leaf);
    // Where nothing was put, the same cells enter again.
    indexes.enter_all(cells, places);
    done
}

/// Fills leaf i, and enters it in the list of each parent over it. Without memory all stays.
pub(crate) fn enter(
    cells: &mut Cells,
    height: u32,
    i: u32,
    leaf: SharedLeaf,
) -> Result<(), AllocError>
    requires stands { Stands height cells.old.nodes }
    requires low { height ≤ max_height }
    requires long { length cells.old.hashes ≡ nodes_in height }
    ensures ok { OnOk result (EntersLeaf height i leaf cells.old cells.new) }
    ensures err { OnErr result (cells.new ≡ cells.old) }
{
    let alloc = cells.allocator();
    let changes = array::enter_changes(alloc, &Subtree::of(cells, height), i, leaf)?;
    cells.put(changes)
}

/// Doubles the tree, and fills the first of the new leaves. The parents over it are blank, and the new nodes are cold.
/// Without memory all stays.
pub(crate) fn append(cells: &mut Cells, height: u32, leaf: SharedLeaf) -> Result<(), AllocError>
    requires stands { Stands height cells.old.nodes }
    requires low { height < max_height }
    requires long { length cells.old.hashes ≡ nodes_in height }
    ensures ok { OnOk result (AppendsLeaf height leaf cells.old cells.new) }
    ensures err { OnErr result (cells.new ≡ cells.old) }
{
    let count = cells.len();
    array::grow(cells, height)?;
    match put(cells, height + 1, 1 << height, Some(leaf)) {
        Ok(()) => Ok(()),
        Err(error) => {
            cells.truncate(count);
            Err(error)
        }
    }
}

/// Keeps the left half alone as long as the right half has no member, and answers the height, where `end` is one past
/// the rightmost taken leaf. The cells that are cut off leave the indexes. Takes no memory.
pub(crate) fn trim(cells: &mut Cells, indexes: &mut KeyIndexes, height: u32, end: u32) -> u32
    requires stands { Stands height cells.old.nodes }
    requires low { height ≤ max_height }
    requires end { end ≡ end_of_members 0 (term_of height cells.old.nodes) }
    requires own { AreOwn indexes.old }
    ensures order { StandsFor result cells.new.nodes (trim (term_of height cells.old.nodes)) }
    ensures low { result ≤ height }
    ensures hashes { cells.new.hashes ≡ take (nodes_in result) cells.old.hashes }
    ensures indexes { KeepsIndexes cells.old.nodes cells.new.nodes indexes.old indexes.new }
{
    let low = array::trimmed_height(&Subtree::of(cells, height), end);
    let count = (1 << (low + 1)) - 1;
    indexes.leave_from(cells, count);
    cells.truncate(count);
    low
}
