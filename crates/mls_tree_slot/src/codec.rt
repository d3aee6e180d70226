//! Places as they stand on the wire: an optional node (RFC 9420, 12.4.3.3).

ghost use Rattle.mls_wire.specs.ReadFaults.{optional_faults};
ghost use Rattle.mls_wire.specs.Combine.{optional};
ghost use Rattle.mls_leaf.specs.Faults.{AddsSpelling};
ghost use Rattle.mls_leaf.specs.ReadFaults.{node_faults};
ghost use Rattle.mls_leaf.specs.Node.{node};
ghost use Rattle.mls_leaf.specs.Nonempty.{optional_nonempty};
ghost use Rattle.mls_tree_slot.specs.Nodes.{lent_node};

use crate::node_ref::NodeRef;
use crate::slot::Slot;
use mls_leaf::{Codec, LeafError, Node};
use mls_wire::{Reader, Writer};
use std::alloc::Global;

/// Adds the spelling of a node.
#[tactic(auto, using(mls_leaf::proofs::Codecs::codecs), unfolding(mls_leaf::specs::Node::node))]
fn write_node(alloc: Global, lent: NodeRef<'_>, writer: &mut Writer) -> Result<(), LeafError>
    ensures { AddsSpelling node (lent_node lent.entry) writer.old result writer.new }
{
    match lent {
        NodeRef::Leaf(leaf) => {
            writer.u8(1)?;
            leaf.write(alloc, writer)?;
            Ok(())
        }
        NodeRef::Parent(parent) => {
            writer.u8(2)?;
            parent.write(alloc, writer)?;
            Ok(())
        }
    }
}

impl Codec for Slot {
    ghost format = { optional node };

    ghost nonempty = { optional_nonempty node };

    ghost faults = { optional_faults node_faults };

    #[tactic(auto, using(mls_leaf::proofs::Codecs::codecs))]
    fn read(alloc: Global, reader: &mut Reader<'_>) -> Result<Slot, LeafError> {
        match reader.u8()? {
            0 => Ok(Slot::blank()),
            1 => {
                let node = Node::read(alloc, reader)?;
                let slot = Slot::of(alloc, node)?;
                Ok(slot)
            }
            _ => Err(LeafError::BadTag),
        }
    }

    #[tactic(auto, using(mls_leaf::proofs::Codecs::codecs))]
    fn check(reader: &mut Reader<'_>) -> Result<(), LeafError> {
        match reader.u8()? {
            0 => Ok(()),
            1 => Node::check(reader),
            _ => Err(LeafError::BadTag),
        }
    }

    #[tactic(auto, using(mls_leaf::proofs::Codecs::codecs))]
    fn write(&self, alloc: Global, writer: &mut Writer) -> Result<(), LeafError> {
        match self.node() {
            None => writer.u8(0)?,
            Some(node) => {
                writer.u8(1)?;
                write_node(alloc, node, writer)?;
            }
        }
        Ok(())
    }
}
