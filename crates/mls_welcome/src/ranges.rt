//! What the types of numbers tell of nodes: one whose spelling would be short has a spelling. These functions do
//! nothing else.

ghost use Rattle.std.specs.Prelude.{◌<◌, ◌^◌, ℕ, slice_index};
ghost use Rattle.std.specs.List.{AllByRecursion};
ghost use Rattle.mls_wire.specs.Combine.{optional};
ghost use Rattle.mls_leaf.specs.Leaf.{leaf_node, leaf_source, capabilities};
ghost use Rattle.mls_leaf.specs.Node.{node};
ghost use Rattle.mls_leaf.specs.ParentNode.{parent_node};
ghost use Rattle.mls_tree_slot.specs.Nodes.{lent_node};
ghost use Rattle.mls_public_group.specs.MessageLimit.{FitsIfShort};

use mls_leaf::{LeafNode, LeafSource, ParentNode, SpelledCapabilities};
use mls_tree_slot::{NodeRef, Slot};

/// Numbers of 32 bits.
fn know_indices(numbers: &[u32])
    ensures { (i : ℕ) → slice_index numbers.now i < 2 ^ 32 }
{}

fn know_capabilities(able: &SpelledCapabilities)
    ensures { FitsIfShort capabilities able.now }
{
    let _spelled = able.bytes();
}

fn know_source(source: &LeafSource)
    ensures { FitsIfShort leaf_source source.now }
{
    match source {
        LeafSource::KeyPackage {
            not_before,
            not_after,
        } => {
            let _first = *not_before;
            let _last = *not_after;
        }
        LeafSource::Update => {}
        LeafSource::Commit { .. } => {}
    }
}

fn know_leaf(leaf: &LeafNode)
    ensures { FitsIfShort leaf_node leaf.now }
{
    know_capabilities(&leaf.capabilities);
    know_source(&leaf.source);
}

fn know_parent(parent: &ParentNode)
    ensures { FitsIfShort parent_node parent.now }
{
    know_indices(parent.unmerged_leaves());
}

fn know_node(taken: NodeRef<'_>)
    ensures { FitsIfShort node (lent_node taken.entry) }
{
    match taken {
        NodeRef::Leaf(leaf) => know_leaf(leaf),
        NodeRef::Parent(parent) => know_parent(parent),
    }
}

fn know_slot(slot: &Slot)
    ensures { FitsIfShort (optional node) slot.now }
{
    if let Some(taken) = slot.node() {
        know_node(taken);
    }
}

/// Each of these nodes has a spelling where it would be short.
pub(crate) fn know_slots(slots: &[Slot])
    ensures { AllByRecursion (FitsIfShort (optional node)) slots.now }
{
    for slot in slots {
        know_slot(slot);
    }
}
