//! Ratchet trees, read past with the place of a fault.

ghost use Rattle.std.specs.Prelude.{◌≡◌, Err};
ghost use Rattle.mls_leaf.specs.Faults.{number_of};
ghost use Rattle.mls_leaf.specs.Node.{node};
ghost use Rattle.mls_leaf.specs.ParentNode.{parent_node};
ghost use Rattle.mls_cli_place.specs.Finding.{finds_optional};
ghost use Rattle.mls_cli_place.specs.Tree.{node_walk, optional_of, parent_node_walk};
ghost use Rattle.mls_cli_place.specs.TreeFinding.{node_finds, parent_node_finds};

use crate::located::{Located, pass_field};
use crate::place::Found;
use crate::step::{GroupField, LeafField, Step};
use mls_leaf::{Bytes, Codec, LeafError, LeafNode, Node, ParentNode};
use mls_tree_slot::Slot;
use mls_wire::Reader;

/// The place of a fault of a parent: where its keys are read past, it is in the unmerged leaves.
#[tactic(auto, unfolding(crate::specs::Tree::parent_node_walk, mls_leaf::specs::ParentNode::parent_node))]
fn locate_in_parent(mut reader: Reader<'_>, error: LeafError) -> Found
    requires { parent_node.pass reader ≡ Err (number_of error) }
    ensures { parent_node_walk reader.entry ≡ Err result }
{
    if let Err(found) = pass_field::<Bytes>(&mut reader, Step::Leaf(LeafField::EncryptionKey)) {
        return found;
    }
    if let Err(found) = pass_field::<Bytes>(&mut reader, Step::Leaf(LeafField::ParentHash)) {
        return found;
    }
    Found::at(reader.rest().len(), error).inside(Step::Group(GroupField::UnmergedLeaves))
}

impl Located for ParentNode {
    ghost walk = { parent_node_walk };

    ghost finds = { parent_node_finds };

    fn locate(reader: &mut Reader<'_>) -> Result<(), Found> {
        let front = Reader::new(reader.rest());
        match ParentNode::check(reader) {
            Ok(()) => Ok(()),
            Err(error) => Err(locate_in_parent(front, error)),
        }
    }
}

impl Located for Node {
    ghost walk = { node_walk };

    ghost finds = { node_finds };

    #[tactic(auto, unfolding(crate::specs::Tree::node_walk))]
    fn locate(reader: &mut Reader<'_>) -> Result<(), Found> {
        let step = Step::Group(GroupField::NodeType);
        let left = reader.rest().len();
        match reader.u8() {
            Ok(1) => pass_field::<LeafNode>(reader, Step::Leaf(LeafField::LeafNode)),
            Ok(2) => pass_field::<ParentNode>(reader, Step::Group(GroupField::ParentNode)),
            Ok(_) => Err(Found::at(left, LeafError::BadTag).inside(step)),
            Err(error) => Err(Found::at(left, LeafError::Wire(error)).inside(step)),
        }
    }
}

impl Located for Slot {
    ghost walk = { optional_of node_walk };

    ghost finds = { finds_optional node node_finds };

    fn locate(reader: &mut Reader<'_>) -> Result<(), Found> {
        Option::<Node>::locate(reader)
    }
}
