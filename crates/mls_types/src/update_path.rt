//! Update paths (RFC 9420, 7.6).

ghost use Rattle.std.specs.Prelude.{◌≡◌};
ghost use Rattle.mls_types.specs.UpdatePath.{hpke_ciphertext, update_path_node, update_path, hpke_ciphertext_nonempty, update_path_node_nonempty, update_path_nonempty};
ghost use Rattle.mls_types.specs.GroupReadFaults.{hpke_ciphertext_faults, update_path_node_faults, update_path_faults};

use crate::ciphertexts::Ciphertexts;
use mls_leaf::{Bytes, Codec, Items, LeafError, LeafNode};
use mls_wire::{Reader, Writer};
use std::alloc::{AllocError, Global};

/// A text sealed to a public key (RFC 9420, 7.6).
#[derive(Debug, Drop)]
pub struct HpkeCiphertext {
    /// What the key encapsulation puts out.
    pub kem_output: Bytes,
    /// The sealed text.
    pub ciphertext: Bytes,
}

/// A node of an update path (RFC 9420, 7.6).
#[derive(Debug, Clone, Drop)]
pub struct UpdatePathNode {
    /// The node's new public key.
    pub encryption_key: Bytes,
    /// The path secret, sealed to each entry of the copath child's resolution.
    pub ciphertexts: Ciphertexts,
}

/// What a committer sends to renew its direct path (RFC 9420, 7.6).
#[derive(Debug, Clone, Drop)]
pub struct UpdatePath {
    /// The committer's new leaf.
    pub leaf_node: LeafNode,
    /// The nodes of its filtered direct path, lowest first.
    pub nodes: Items<UpdatePathNode>,
}

impl Clone for HpkeCiphertext {
    ghost is_clone = { λ v w. w ≡ v };

    fn clone(&self) -> Result<HpkeCiphertext, AllocError> {
        Ok(HpkeCiphertext {
            kem_output: self.kem_output.clone()?,
            ciphertext: self.ciphertext.clone()?,
        })
    }
}

impl Codec for HpkeCiphertext {
    ghost format = { hpke_ciphertext };

    ghost nonempty = { hpke_ciphertext_nonempty };

    ghost faults = { hpke_ciphertext_faults };

    #[tactic(auto, using(mls_leaf::proofs::Codecs::codecs), unfolding(crate::specs::UpdatePath::hpke_ciphertext))]
    fn read(alloc: Global, reader: &mut Reader<'_>) -> Result<HpkeCiphertext, LeafError> {
        let kem_output = Bytes::read(alloc, reader)?;
        let ciphertext = Bytes::read(alloc, reader)?;
        Ok(HpkeCiphertext {
            kem_output,
            ciphertext,
        })
    }

    #[inline(always)]
    #[tactic(auto, using(mls_leaf::proofs::Codecs::codecs), unfolding(crate::specs::UpdatePath::hpke_ciphertext))]
    fn check(reader: &mut Reader<'_>) -> Result<(), LeafError> {
        Bytes::check(reader)?;
        Bytes::check(reader)?;
        Ok(())
    }

    #[tactic(auto, using(mls_leaf::proofs::Codecs::codecs), unfolding(crate::specs::UpdatePath::hpke_ciphertext))]
    fn write(&self, alloc: Global, writer: &mut Writer) -> Result<(), LeafError> {
        self.kem_output.write(alloc, writer)?;
        self.ciphertext.write(alloc, writer)?;
        Ok(())
    }
}

impl Codec for UpdatePathNode {
    ghost format = { update_path_node };

    ghost nonempty = { update_path_node_nonempty };

    ghost faults = { update_path_node_faults };

    #[tactic(auto, using(mls_leaf::proofs::Codecs::codecs), unfolding(crate::specs::UpdatePath::update_path_node))]
    fn read(alloc: Global, reader: &mut Reader<'_>) -> Result<UpdatePathNode, LeafError> {
        let encryption_key = Bytes::read(alloc, reader)?;
        let ciphertexts = Ciphertexts::read(alloc, reader)?;
        Ok(UpdatePathNode {
            encryption_key,
            ciphertexts,
        })
    }

    #[tactic(auto, using(mls_leaf::proofs::Codecs::codecs), unfolding(crate::specs::UpdatePath::update_path_node))]
    fn check(reader: &mut Reader<'_>) -> Result<(), LeafError> {
        Bytes::check(reader)?;
        Ciphertexts::check(reader)?;
        Ok(())
    }

    #[tactic(auto, using(mls_leaf::proofs::Codecs::codecs), unfolding(crate::specs::UpdatePath::update_path_node))]
    fn write(&self, alloc: Global, writer: &mut Writer) -> Result<(), LeafError> {
        self.encryption_key.write(alloc, writer)?;
        self.ciphertexts.write(alloc, writer)?;
        Ok(())
    }
}

impl Codec for UpdatePath {
    ghost format = { update_path };

    ghost nonempty = { update_path_nonempty };

    ghost faults = { update_path_faults };

    #[tactic(auto, using(mls_leaf::proofs::Codecs::codecs), unfolding(crate::specs::UpdatePath::update_path))]
    fn read(alloc: Global, reader: &mut Reader<'_>) -> Result<UpdatePath, LeafError> {
        let leaf_node = LeafNode::read(alloc, reader)?;
        let nodes = Items::<UpdatePathNode>::read(alloc, reader)?;
        Ok(UpdatePath { leaf_node, nodes })
    }

    #[tactic(auto, using(mls_leaf::proofs::Codecs::codecs), unfolding(crate::specs::UpdatePath::update_path))]
    fn check(reader: &mut Reader<'_>) -> Result<(), LeafError> {
        LeafNode::check(reader)?;
        Items::<UpdatePathNode>::check(reader)?;
        Ok(())
    }

    #[tactic(auto, using(mls_leaf::proofs::Codecs::codecs), unfolding(crate::specs::UpdatePath::update_path))]
    fn write(&self, alloc: Global, writer: &mut Writer) -> Result<(), LeafError> {
        self.leaf_node.write(alloc, writer)?;
        self.nodes.write(alloc, writer)?;
        Ok(())
    }
}
