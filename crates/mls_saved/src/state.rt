//! What a member knows of an epoch, as it is saved.

ghost use Rattle.mls_saved.specs.State.{saved_state, saved_state_nonempty};
ghost use Rattle.mls_saved.specs.ReadFaults.{saved_state_faults};

use mls_leaf::{Bytes, Codec, Items, LeafError};
use mls_types::{GroupContext, RatchetTree};
use mls_wire::{Reader, Writer};
use std::alloc::Global;

/// What a member knows of an epoch: the public state of its group, and its secrets.
#[derive(Drop)]
pub struct SavedState {
    /// The group context (RFC 9420, 8.1).
    pub context: GroupContext,
    /// The ratchet tree (RFC 9420, 12.4.3.3).
    pub tree: RatchetTree,
    /// The interim transcript hash (RFC 9420, 8.2).
    pub interim: Bytes,
    /// The epoch secret (RFC 9420, 8).
    pub epoch: Bytes,
    /// The index of its leaf.
    pub leaf: u32,
    /// The private key of its leaf.
    pub own: Bytes,
    /// The private keys of the nodes over its leaf, the lowest first.
    pub above: Items<Option<Bytes>>,
}

impl Codec for SavedState {
    ghost format = { saved_state };

    ghost nonempty = { saved_state_nonempty };

    ghost faults = { saved_state_faults };

    #[tactic(auto, using(mls_leaf::proofs::Codecs::codecs), unfolding(crate::specs::State::saved_state))]
    fn read(alloc: Global, reader: &mut Reader<'_>) -> Result<SavedState, LeafError> {
        let context = GroupContext::read(alloc, reader)?;
        let tree = RatchetTree::read(alloc, reader)?;
        let interim = Bytes::read(alloc, reader)?;
        let epoch = Bytes::read(alloc, reader)?;
        let leaf = u32::read(alloc, reader)?;
        let own = Bytes::read(alloc, reader)?;
        let above = Items::<Option<Bytes>>::read(alloc, reader)?;
        Ok(SavedState {
            context,
            tree,
            interim,
            epoch,
            leaf,
            own,
            above,
        })
    }

    #[tactic(auto, using(mls_leaf::proofs::Codecs::codecs), unfolding(crate::specs::State::saved_state))]
    fn check(reader: &mut Reader<'_>) -> Result<(), LeafError> {
        GroupContext::check(reader)?;
        RatchetTree::check(reader)?;
        Bytes::check(reader)?;
        Bytes::check(reader)?;
        u32::check(reader)?;
        Bytes::check(reader)?;
        Items::<Option<Bytes>>::check(reader)?;
        Ok(())
    }

    #[tactic(auto, using(mls_leaf::proofs::Codecs::codecs), unfolding(crate::specs::State::saved_state))]
    fn write(&self, alloc: Global, writer: &mut Writer) -> Result<(), LeafError> {
        self.context.write(alloc, writer)?;
        self.tree.write(alloc, writer)?;
        self.interim.write(alloc, writer)?;
        self.epoch.write(alloc, writer)?;
        self.leaf.write(alloc, writer)?;
        self.own.write(alloc, writer)?;
        self.above.write(alloc, writer)?;
        Ok(())
    }
}
