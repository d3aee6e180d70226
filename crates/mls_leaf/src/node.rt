//! Nodes of a tree as they stand on the wire.

ghost use Rattle.std.specs.Prelude.{◌≡◌};
ghost use Rattle.mls_leaf.specs.Node.{node, node_nonempty};
ghost use Rattle.mls_leaf.specs.ReadFaults.{node_faults};

use crate::codec::Codec;
use crate::error::LeafError;
use crate::leaf::LeafNode;
use crate::parent_node::ParentNode;
use mls_wire::{Reader, Writer};
use std::alloc::{AllocError, Global};

/// A node that is not blank (RFC 9420, section 12.4.3.3): a leaf or a parent.
#[derive(Debug, Drop)]
pub enum Node {
    Leaf(LeafNode),
    Parent(ParentNode),
}

impl Clone for Node {
    ghost is_clone = { λ v w. w ≡ v };

    fn clone(&self) -> Result<Node, AllocError> {
        match self {
            Node::Leaf(leaf) => Ok(Node::Leaf(leaf.clone()?)),
            Node::Parent(parent) => Ok(Node::Parent(parent.clone()?)),
        }
    }
}

impl Codec for Node {
    ghost format = { node };

    ghost nonempty = { node_nonempty };

    ghost faults = { node_faults };

    #[tactic(auto, using(crate::proofs::Codecs::codecs), unfolding(crate::specs::Node::node))]
    fn read(alloc: Global, reader: &mut Reader<'_>) -> Result<Node, LeafError> {
        match reader.u8()? {
            1 => {
                let leaf = LeafNode::read(alloc, reader)?;
                Ok(Node::Leaf(leaf))
            }
            2 => {
                let parent = ParentNode::read(alloc, reader)?;
                Ok(Node::Parent(parent))
            }
            _ => Err(LeafError::BadTag),
        }
    }

    #[tactic(auto, using(crate::proofs::Codecs::codecs), unfolding(crate::specs::Node::node))]
    fn check(reader: &mut Reader<'_>) -> Result<(), LeafError> {
        match reader.u8()? {
            1 => {
                LeafNode::check(reader)?;
                Ok(())
            }
            2 => {
                ParentNode::check(reader)?;
                Ok(())
            }
            _ => Err(LeafError::BadTag),
        }
    }

    #[tactic(auto, using(crate::proofs::Codecs::codecs), unfolding(crate::specs::Node::node))]
    fn write(&self, alloc: Global, writer: &mut Writer) -> Result<(), LeafError> {
        match self {
            Node::Leaf(leaf) => {
                writer.u8(1)?;
                leaf.write(alloc, writer)?;
                Ok(())
            }
            Node::Parent(parent) => {
                writer.u8(2)?;
                parent.write(alloc, writer)?;
                Ok(())
            }
        }
    }
}
