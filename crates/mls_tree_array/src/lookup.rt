//! What stands at a number.

ghost use Rattle.std.specs.Prelude.{◌≡◌, length};
ghost use Rattle.std.specs.Option.{option_copied, option_map};
ghost use Rattle.mls_treemath.specs.Paths.{nodes_in};
ghost use Rattle.mls_tree_slot.specs.Nodes.{lent_node};
ghost use Rattle.mls_tree_model.specs.Term.{leaf_of};
ghost use Rattle.mls_tree_model.specs.Arrays.{term_of, node_at};
ghost use Rattle.mls_tree_array.specs.Standing.{Stands};

use crate::places::leaf_in;
use mls_leaf::LeafNode;
use mls_tree_cells::Cells;
use mls_tree_slot::NodeRef;

/// Leaf `i` of a tree of this height: None where it is blank or outside the tree.
pub fn leaf(cells: &Cells, height: u32, i: u32) -> Option<&LeafNode>
    requires { length cells.now.nodes ≡ nodes_in height }
    ensures { option_copied result ≡ leaf_of (term_of height cells.now.nodes) i }
{
    let place = 2 * i as usize;
    if place >= cells.len() {
        return None;
    }
    leaf_in(cells.slot(place))
}

/// Node `x` of a tree of this height: None where it is blank or outside the tree.
pub fn node(cells: &Cells, height: u32, x: u32) -> Option<NodeRef<'_>>
    requires { Stands height cells.now.nodes }
    ensures { option_map lent_node result ≡ node_at 0 (term_of height cells.now.nodes) x }
{
    let place = x as usize;
    if place >= cells.len() {
        return None;
    }
    cells.slot(place).node()
}
