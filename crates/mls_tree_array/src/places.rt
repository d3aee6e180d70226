//! Where the root and the sides of a tree stand, and what stands in a place.

ghost use Rattle.std.specs.Prelude.{◌≡◌, suc, ◌+◌, ◌-◌, ◌*◌, ◌^◌, ◌<◌, ◌≤◌, is_some};
ghost use Rattle.std.specs.Option.{option_copied};
ghost use Rattle.mls_tree_model.specs.Arrays.{leaf_in, parent_in};

use mls_leaf::{LeafNode, ParentNode};
use mls_tree_slot::{NodeRef, Slot};

/// The number of the root of a tree of this height whose first leaf this is (RFC 9420, appendix C).
pub(crate) fn root_of(height: u32, first: u32) -> u32
    requires { first + 2 ^ height ≤ 2 ^ 31 }
    ensures { suc result ≡ 2 * first + 2 ^ height }
{
    2 * first + ((1 << height) - 1)
}

/// The first leaf of the right side of a tree of this height whose first leaf this is.
pub(crate) fn second_first(height: u32, first: u32) -> u32
    requires above_leaf { 0 < height }
    requires fits { first + 2 ^ height ≤ 2 ^ 31 }
    ensures { result ≡ first + 2 ^ (height - 1) }
{
    first + (1 << (height - 1))
}

/// The leaf in a place: None where it is blank or holds a parent.
pub fn leaf_in(node: &Slot) -> Option<&LeafNode>
    ensures { option_copied result ≡ leaf_in node.now }
{
    match node.node() {
        Some(NodeRef::Leaf(leaf)) => Some(leaf),
        _ => None,
    }
}

/// Whether a leaf is in a place.
pub(crate) fn holds_leaf(node: &Slot) -> bool
    ensures { result ≡ is_some (leaf_in node.now) }
{
    match node.node() {
        Some(NodeRef::Leaf(_)) => true,
        _ => false,
    }
}

/// The parent in a place: None where it is blank or holds a leaf.
pub fn parent_in(node: &Slot) -> Option<&ParentNode>
    ensures { option_copied result ≡ parent_in node.now }
{
    match node.node() {
        Some(NodeRef::Parent(parent)) => Some(parent),
        _ => None,
    }
}
