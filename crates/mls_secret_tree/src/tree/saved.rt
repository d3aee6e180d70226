//! A secret tree, as it is saved.

ghost use Rattle.mls_secret_tree.specs.Saved.{saved_tree, saved_tree_nonempty};
ghost use Rattle.mls_secret_tree.specs.SavedFaults.{saved_tree_faults};

use crate::node::SecretNode;
use crate::tree::SecretTree;
use mls_leaf::{Codec, LeafError};
use mls_treemath::MAX_HEIGHT;
use mls_wire::{Reader, Writer};
use std::alloc::Global;

impl Codec for SecretTree {
    ghost format = { saved_tree };

    ghost nonempty = { saved_tree_nonempty };

    ghost faults = { saved_tree_faults };

    #[tactic(auto, using(mls_leaf::proofs::Codecs::codecs), unfolding(crate::specs::Saved::saved_tree))]
    fn read(alloc: Global, reader: &mut Reader<'_>) -> Result<SecretTree, LeafError> {
        let height = u32::from(reader.u8()?);
        if height > MAX_HEIGHT {
            return Err(LeafError::BadTag);
        }
        let root = SecretNode::read_below(alloc, reader, height)?;
        Ok(SecretTree { height, root })
    }

    #[tactic(auto, using(mls_leaf::proofs::Codecs::codecs), unfolding(crate::specs::Saved::saved_tree))]
    fn check(reader: &mut Reader<'_>) -> Result<(), LeafError> {
        let height = u32::from(reader.u8()?);
        if height > MAX_HEIGHT {
            return Err(LeafError::BadTag);
        }
        SecretNode::check_below(reader, height)
    }

    #[tactic(auto, using(mls_leaf::proofs::Codecs::codecs), unfolding(crate::specs::Saved::saved_tree))]
    fn write(&self, alloc: Global, writer: &mut Writer) -> Result<(), LeafError> {
        writer.u8(self.height as u8)?;
        self.root.write_below(alloc, writer, self.height)
    }
}
