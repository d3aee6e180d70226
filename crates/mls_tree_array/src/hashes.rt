//! Tree hashes, and those that are kept beside the nodes.

ghost use Rattle.std.specs.Prelude.{◌≡◌, ◌+◌, ◌*◌, ◌^◌, ◌≤◌, length};
ghost use Rattle.mls_treemath.specs.Limits.{max_height};
ghost use Rattle.mls_treemath.specs.Paths.{nodes_in};
ghost use Rattle.mls_tree_model.specs.Hashes.{tree_hash};
ghost use Rattle.mls_tree_model.specs.Arrays.{term_of};
ghost use Rattle.mls_tree_hash.specs.Counter.{counted};
ghost use Rattle.mls_tree_array.specs.KeptHashes.{hashes_of, Keeps, cold_places};
ghost use Rattle.mls_tree_array.specs.Spans.{part, splice, term_at};

use crate::places::{leaf_in, parent_in, root_of, second_first};
use mls_tree_cells::Cells;
use mls_tree_hash::{Hash, branch_hash, leaf_hash};

/// The tree hash of the subtree of this height whose first leaf this is. The hashes that are missing below its root are
/// made and kept, and `done` counts them.
fn fill_hashes(cells: &mut Cells, height: u32, first: u32, done: &mut u64) -> Hash
    requires shape { 2 * first + nodes_in height ≤ length cells.old.nodes }
    requires long { length cells.old.hashes ≡ length cells.old.nodes }
    requires fits { first + 2 ^ height ≤ 2 ^ 31 }
    requires keeps { Keeps first (term_at height first cells.old.nodes)
        (part height first cells.old.hashes) }
    ensures value { result ≡ tree_hash first (term_at height first cells.old.nodes) }
    ensures all { cells.new ≡ record cells.old {
      hashes = splice first (hashes_of first (term_at height first cells.old.nodes))
          cells.old.hashes;
    } }
    ensures counted { done.new
        ≡ counted done.old (cold_places (part height first cells.old.hashes)) }
{
    let root = root_of(height, first) as usize;
    if let Some(hash) = cells.hash(root) {
        return hash;
    }
    if height == 0 {
        let hash = leaf_hash(first, leaf_in(cells.slot(root)), done);
        cells.keep_hash(root, hash);
        return hash;
    }
    let left = fill_hashes(cells, height - 1, first, done);
    let right = fill_hashes(cells, height - 1, second_first(height, first), done);
    let hash = branch_hash(parent_in(cells.slot(root)), &left, &right, done);
    cells.keep_hash(root, hash);
    hash
}

/// The tree hash of a whole tree (RFC 9420, 7.8). The hashes that are missing are made and kept, and `done` counts them.
/// Takes no memory.
pub fn tree_hash(cells: &mut Cells, height: u32, done: &mut u64) -> Hash
    requires shape { length cells.old.nodes ≡ nodes_in height }
    requires low { height ≤ max_height }
    requires keeps { Keeps 0 (term_of height cells.old.nodes) cells.old.hashes }
    ensures value { result ≡ tree_hash 0 (term_of height cells.old.nodes) }
    ensures all { cells.new ≡ record cells.old {
      hashes = hashes_of 0 (term_of height cells.old.nodes);
    } }
    ensures counted { done.new ≡ counted done.old (cold_places cells.old.hashes) }
{
    fill_hashes(cells, height, 0, done)
}
