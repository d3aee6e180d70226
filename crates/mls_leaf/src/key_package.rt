//! Key packages.

ghost use Rattle.std.specs.Prelude.{◌≡◌};
ghost use Rattle.mls_leaf.specs.KeyPackage.{key_package, key_package_nonempty};
ghost use Rattle.mls_leaf.specs.ReadFaults.{key_package_faults};

use crate::bytes::Bytes;
use crate::codec::{Codec, pass_empty, pass_mark};
use crate::error::LeafError;
use crate::leaf::LeafNode;
use mls_wire::{Reader, Writer};
use std::alloc::{AllocError, Global};

/// What a client offers to those who add it to a group (RFC 9420, section 10).
#[derive(Debug, Drop)]
pub struct KeyPackage {
    pub cipher_suite: u16,
    pub init_key: Bytes,
    pub leaf_node: LeafNode,
    pub signature: Bytes,
}

impl Clone for KeyPackage {
    ghost is_clone = { λ v w. w ≡ v };

    fn clone(&self) -> Result<KeyPackage, AllocError> {
        Ok(KeyPackage {
            cipher_suite: self.cipher_suite,
            init_key: self.init_key.clone()?,
            leaf_node: self.leaf_node.clone()?,
            signature: self.signature.clone()?,
        })
    }
}

impl Codec for KeyPackage {
    ghost format = { key_package };

    ghost nonempty = { key_package_nonempty };

    ghost faults = { key_package_faults };

    #[tactic(auto, using(crate::proofs::Codecs::codecs), unfolding(crate::specs::KeyPackage::key_package))]
    fn read(alloc: Global, reader: &mut Reader<'_>) -> Result<KeyPackage, LeafError> {
        pass_mark(reader, 1, LeafError::BadTag)?;
        let cipher_suite = u16::read(alloc, reader)?;
        let init_key = Bytes::read(alloc, reader)?;
        let leaf_node = LeafNode::read(alloc, reader)?;
        pass_empty(reader, LeafError::ExtensionNotAllowed)?;
        let signature = Bytes::read(alloc, reader)?;
        Ok(KeyPackage {
            cipher_suite,
            init_key,
            leaf_node,
            signature,
        })
    }

    #[tactic(auto, using(crate::proofs::Codecs::codecs), unfolding(crate::specs::KeyPackage::key_package))]
    fn check(reader: &mut Reader<'_>) -> Result<(), LeafError> {
        pass_mark(reader, 1, LeafError::BadTag)?;
        u16::check(reader)?;
        Bytes::check(reader)?;
        LeafNode::check(reader)?;
        pass_empty(reader, LeafError::ExtensionNotAllowed)?;
        Bytes::check(reader)?;
        Ok(())
    }

    #[tactic(auto, using(crate::proofs::Codecs::codecs), unfolding(crate::specs::KeyPackage::key_package))]
    fn write(&self, alloc: Global, writer: &mut Writer) -> Result<(), LeafError> {
        writer.u16(1)?;
        self.cipher_suite.write(alloc, writer)?;
        self.init_key.write(alloc, writer)?;
        self.leaf_node.write(alloc, writer)?;
        writer.opaque(&[])?;
        self.signature.write(alloc, writer)?;
        Ok(())
    }
}
