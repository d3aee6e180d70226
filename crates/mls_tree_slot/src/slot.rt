//! A place of a tree.

ghost use Rattle.std.specs.Prelude.{◌≡◌, Some, None, is_some, IfOk};
ghost use Rattle.std.specs.Option.{option_map};
ghost use Rattle.mls_tree_slot.specs.Nodes.{lent_node};

use crate::content::Content;
use crate::node_ref::NodeRef;
use crate::shared_nodes::{SharedLeaf, SharedParent};
use mls_leaf::Node;
use std::alloc::{AllocError, Global};
use std::marker::Model;

/// A place of a ratchet tree: blank, or a node that copies of the tree may share. To its callers it is the node itself,
/// where there is one. A copy shares the node and takes no memory of its own.
#[derive(Debug)]
pub struct Slot {
    pub(crate) content: Content,
}

impl Drop for Slot {
    fn drop(self) {
        let Slot { content: _ } = self;
    }
}

impl Model for Slot {
    ghost use Rattle.std.specs.Prelude.{Option};
    ghost use Rattle.mls_leaf.specs.declared.node.Node.{Node};

    ghost Value = { Option Node };

    ghost use Rattle.mls_tree_slot.specs.Nodes.{held_node};

    ghost view = { λ s. held_node s.content };
}

impl Slot {
    /// A blank place.
    pub fn blank() -> Slot
        ensures { result ≡ None }
    {
        Slot {
            content: Content::Blank,
        }
    }

    /// A place with a node.
    pub fn of(alloc: Global, node: Node) -> Result<Slot, AllocError>
        ensures { IfOk result (λ s. s ≡ Some node) }
    {
        match node {
            Node::Leaf(leaf) => Ok(SharedLeaf::new(alloc, leaf)?.into_slot()),
            Node::Parent(parent) => Ok(SharedParent::new(alloc, parent)?.into_slot()),
        }
    }

    /// The node in it.
    pub fn node(&self) -> Option<NodeRef<'_>>
        ensures { option_map lent_node result ≡ self.now }
    {
        match &self.content {
            Content::Blank => None,
            Content::Leaf(leaf) => Some(NodeRef::Leaf(leaf.as_ref())),
            Content::Parent(parent) => Some(NodeRef::Parent(parent.as_ref())),
        }
    }

    /// Whether there is a node in it.
    pub fn is_taken(&self) -> bool
        ensures { result ≡ is_some self.now }
    {
        match &self.content {
            Content::Blank => false,
            Content::Leaf(_) | Content::Parent(_) => true,
        }
    }
}

impl Clone for Slot {
    ghost is_clone = { λ s t. t ≡ s };

    // A blank place takes no memory.
    ghost is_infallible = { λ s. s ≡ None };

    fn clone(&self) -> Result<Slot, AllocError> {
        match &self.content {
            Content::Blank => Ok(Slot::blank()),
            Content::Leaf(leaf) => Ok(Slot {
                content: Content::Leaf(leaf.clone()?),
            }),
            Content::Parent(parent) => Ok(Slot {
                content: Content::Parent(parent.clone()?),
            }),
        }
    }
}
