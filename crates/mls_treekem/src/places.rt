//! The parents over a leaf of the public tree, by their numbers.

ghost use Rattle.std.specs.Prelude.{◌≡◌, ◌+◌, ◌-◌, ◌*◌, ◌^◌, ◌<◌, ◌≤◌, ◌++◌, is_some, IfOk, OnOk};
ghost use Rattle.std.specs.Option.{option_copied, option_map};
ghost use Rattle.mls_tree_slot.specs.Nodes.{lent_node};
ghost use Rattle.mls_tree_model.specs.Arrays.{parent_in};
ghost use Rattle.mls_tree.specs.Tree.{term};
ghost use Rattle.mls_treekem.specs.Place.{places_from, step_of, IsWay};

use mls_leaf::ParentNode;
use mls_suite::OutOfMemory;
use mls_tree::PublicTree;
use mls_tree_slot::NodeRef;
use std::alloc::Global;

/// A parent over a leaf.
#[derive(Clone, Copy)]
pub(crate) struct Place {
    /// The number of its node.
    pub(crate) node: u32,
    /// The number of the child that isn't over the leaf.
    pub(crate) beside: u32,
    /// The first leaf below that child.
    pub(crate) first: u32,
    /// How many leaves are below it.
    pub(crate) leaves: u32,
}

/// How many leaves each side of a perfect tree of this height has.
pub(crate) fn side_of(height: u32) -> u32
    requires branch { 0 < height }
    requires low { height ≤ 32 }
    ensures value { result ≡ 2 ^ (height - 1) }
    ensures positive { 0 < result }
    ensures whole { 2 ^ height ≡ 2 * result }
{
    1 << (height - 1)
}

/// Adds the parents over leaf `i` of a subtree of this height, the highest first.
fn push_places(height: u32, first: u32, i: u32, places: &mut Vec<Place>) -> Result<(), OutOfMemory>
    requires low { height ≤ 31 }
    requires fits { first + 2 ^ height ≤ 2 ^ 31 }
    ensures { OnOk result (places.new.items ≡ places.old.items ++ places_from height first i) }
{
    if height == 0 {
        return Ok(());
    }
    let leaves = side_of(height);
    let middle = first + leaves;
    let node = 2 * first + (2 * leaves - 1);
    if i < middle {
        places.push(Place {
            node,
            beside: 2 * middle + (leaves - 1),
            first: middle,
            leaves,
        })?;
        push_places(height - 1, first, i, places)
    } else {
        places.push(Place {
            node,
            beside: 2 * first + (leaves - 1),
            first,
            leaves,
        })?;
        push_places(height - 1, middle, i, places)
    }
}

/// The parents over leaf `i`, the highest first.
pub(crate) fn parents_over(
    alloc: Global,
    tree: &PublicTree,
    i: u32,
) -> Result<Vec<Place>, OutOfMemory>
    ensures { IfOk result (λ v. IsWay (term tree.now) i v.items) }
{
    let height = tree.leaf_count().trailing_zeros();
    let mut places = Vec::with_capacity(alloc, height as usize)?;
    push_places(height, 0, i, &mut places)?;
    Ok(places)
}

/// The parent at a node: None where it is blank or a leaf.
pub(crate) fn parent_in(node: Option<NodeRef<'_>>) -> Option<&ParentNode>
    ensures { option_copied result ≡ parent_in (option_map lent_node node.entry) }
{
    match node {
        Some(NodeRef::Parent(parent)) => Some(parent),
        _ => None,
    }
}

impl Place {
    /// What stands there, None where it is blank.
    pub(crate) fn parent<'a>(&self, tree: &'a PublicTree) -> Option<&'a ParentNode>
        ensures { option_copied result ≡ (step_of (term tree.now) self.now).parent }
    {
        parent_in(tree.node(self.node))
    }

    /// Whether something stands there.
    pub(crate) fn has_parent(&self, tree: &PublicTree) -> bool
        ensures { result ≡ is_some (step_of (term tree.now) self.now).parent }
    {
        self.parent(tree).is_some()
    }
}
