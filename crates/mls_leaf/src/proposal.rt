//! Proposals.

ghost use Rattle.std.specs.Prelude.{◌≡◌};
ghost use Rattle.mls_leaf.specs.Proposal.{proposal, proposal_nonempty};
ghost use Rattle.mls_leaf.specs.ReadFaults.{proposal_faults};

use crate::codec::Codec;
use crate::error::LeafError;
use crate::group_extensions::GroupExtensions;
use crate::key_package::KeyPackage;
use crate::leaf::LeafNode;
use mls_wire::{Reader, Writer};
use std::alloc::{AllocError, Global};

/// A change that is put forward (RFC 9420, section 12.1). `Remove` names a leaf index, and `GroupContextExtensions` the
/// extensions that the group is to carry.
#[derive(Debug, Drop)]
pub enum Proposal {
    Add(KeyPackage),
    Update(LeafNode),
    Remove(u32),
    GroupContextExtensions(GroupExtensions),
}

impl Clone for Proposal {
    ghost is_clone = { λ v w. w ≡ v };

    fn clone(&self) -> Result<Proposal, AllocError> {
        match self {
            Proposal::Add(key_package) => Ok(Proposal::Add(key_package.clone()?)),
            Proposal::Update(leaf_node) => Ok(Proposal::Update(leaf_node.clone()?)),
            Proposal::Remove(removed) => Ok(Proposal::Remove(*removed)),
            Proposal::GroupContextExtensions(extensions) => {
                Ok(Proposal::GroupContextExtensions(extensions.clone()?))
            }
        }
    }
}

impl Codec for Proposal {
    ghost format = { proposal };

    ghost nonempty = { proposal_nonempty };

    ghost faults = { proposal_faults };

    #[tactic(auto, using(crate::proofs::Codecs::codecs), unfolding(crate::specs::Proposal::proposal))]
    fn read(alloc: Global, reader: &mut Reader<'_>) -> Result<Proposal, LeafError> {
        match reader.u16()? {
            1 => {
                let key_package = KeyPackage::read(alloc, reader)?;
                Ok(Proposal::Add(key_package))
            }
            2 => {
                let leaf_node = LeafNode::read(alloc, reader)?;
                Ok(Proposal::Update(leaf_node))
            }
            3 => {
                let removed = u32::read(alloc, reader)?;
                Ok(Proposal::Remove(removed))
            }
            7 => {
                let extensions = GroupExtensions::read(alloc, reader)?;
                Ok(Proposal::GroupContextExtensions(extensions))
            }
            _ => Err(LeafError::UnsupportedProposal),
        }
    }

    #[tactic(auto, using(crate::proofs::Codecs::codecs), unfolding(crate::specs::Proposal::proposal))]
    fn check(reader: &mut Reader<'_>) -> Result<(), LeafError> {
        match reader.u16()? {
            1 => {
                KeyPackage::check(reader)?;
                Ok(())
            }
            2 => {
                LeafNode::check(reader)?;
                Ok(())
            }
            3 => {
                u32::check(reader)?;
                Ok(())
            }
            7 => {
                GroupExtensions::check(reader)?;
                Ok(())
            }
            _ => Err(LeafError::UnsupportedProposal),
        }
    }

    #[tactic(auto, using(crate::proofs::Codecs::codecs), unfolding(crate::specs::Proposal::proposal))]
    fn write(&self, alloc: Global, writer: &mut Writer) -> Result<(), LeafError> {
        match self {
            Proposal::Add(key_package) => {
                writer.u16(1)?;
                key_package.write(alloc, writer)?;
                Ok(())
            }
            Proposal::Update(leaf_node) => {
                writer.u16(2)?;
                leaf_node.write(alloc, writer)?;
                Ok(())
            }
            Proposal::Remove(removed) => {
                writer.u16(3)?;
                removed.write(alloc, writer)?;
                Ok(())
            }
            Proposal::GroupContextExtensions(extensions) => {
                writer.u16(7)?;
                extensions.write(alloc, writer)?;
                Ok(())
            }
        }
    }
}
