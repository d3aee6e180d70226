//! Group contexts (RFC 9420, 8.1).

ghost use Rattle.mls_types.specs.GroupContext.{group_context, group_context_nonempty};
ghost use Rattle.mls_types.specs.GroupReadFaults.{group_context_faults};

use mls_leaf::{Bytes, Codec, GroupExtensions, LeafError, pass_mark};
use mls_wire::{Reader, Writer};
use std::alloc::Global;

/// What the members of an epoch agree on (RFC 9420, 8.1). Its version is mls10.
#[derive(Debug, Clone, Drop)]
pub struct GroupContext {
    /// The cipher suite's number.
    pub cipher_suite: u16,
    /// The group's identifier.
    pub group_id: Bytes,
    /// How many commits led to this epoch.
    pub epoch: u64,
    /// The hash of the ratchet tree.
    pub tree_hash: Bytes,
    /// The confirmed transcript hash; empty at epoch 0.
    pub confirmed_transcript_hash: Bytes,
    /// The extensions of the group.
    pub extensions: GroupExtensions,
}

impl Codec for GroupContext {
    ghost format = { group_context };

    ghost nonempty = { group_context_nonempty };

    ghost faults = { group_context_faults };

    #[tactic(auto, using(mls_leaf::proofs::Codecs::codecs), unfolding(crate::specs::GroupContext::group_context))]
    fn read(alloc: Global, reader: &mut Reader<'_>) -> Result<GroupContext, LeafError> {
        pass_mark(reader, 1, LeafError::BadTag)?;
        let cipher_suite = u16::read(alloc, reader)?;
        let group_id = Bytes::read(alloc, reader)?;
        let epoch = u64::read(alloc, reader)?;
        let tree_hash = Bytes::read(alloc, reader)?;
        let confirmed_transcript_hash = Bytes::read(alloc, reader)?;
        let extensions = GroupExtensions::read(alloc, reader)?;
        Ok(GroupContext {
            cipher_suite,
            group_id,
            epoch,
            tree_hash,
            confirmed_transcript_hash,
            extensions,
        })
    }

    #[tactic(auto, using(mls_leaf::proofs::Codecs::codecs), unfolding(crate::specs::GroupContext::group_context))]
    fn check(reader: &mut Reader<'_>) -> Result<(), LeafError> {
        pass_mark(reader, 1, LeafError::BadTag)?;
        u16::check(reader)?;
        Bytes::check(reader)?;
        u64::check(reader)?;
        Bytes::check(reader)?;
        Bytes::check(reader)?;
        GroupExtensions::check(reader)?;
        Ok(())
    }

    #[tactic(auto, using(mls_leaf::proofs::Codecs::codecs), unfolding(crate::specs::GroupContext::group_context))]
    fn write(&self, alloc: Global, writer: &mut Writer) -> Result<(), LeafError> {
        writer.u16(1)?;
        self.cipher_suite.write(alloc, writer)?;
        self.group_id.write(alloc, writer)?;
        self.epoch.write(alloc, writer)?;
        self.tree_hash.write(alloc, writer)?;
        self.confirmed_transcript_hash.write(alloc, writer)?;
        self.extensions.write(alloc, writer)?;
        Ok(())
    }
}
