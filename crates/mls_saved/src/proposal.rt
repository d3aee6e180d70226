//! A proposal that a member keeps, as it is saved.

ghost use Rattle.mls_saved.specs.Kept.{saved_proposal, saved_proposal_nonempty};
ghost use Rattle.mls_saved.specs.ReadFaults.{saved_proposal_faults};

use mls_leaf::{Bytes, Codec, LeafError, Proposal};
use mls_wire::{Reader, Writer};
use std::alloc::Global;

/// A proposal that a member keeps for a commit of its epoch (RFC 9420, 12.1).
#[derive(Drop)]
pub struct SavedProposal {
    /// Its reference.
    pub reference: Bytes,
    /// Its message.
    pub message: Bytes,
    /// What it says.
    pub proposal: Proposal,
    /// The leaf of its sender.
    pub sender: u32,
    /// Of the member's own update, the new private key of its leaf.
    pub own_key: Option<Bytes>,
}

impl Codec for SavedProposal {
    ghost format = { saved_proposal };

    ghost nonempty = { saved_proposal_nonempty };

    ghost faults = { saved_proposal_faults };

    #[tactic(auto, using(mls_leaf::proofs::Codecs::codecs), unfolding(crate::specs::Kept::saved_proposal))]
    fn read(alloc: Global, reader: &mut Reader<'_>) -> Result<SavedProposal, LeafError> {
        let reference = Bytes::read(alloc, reader)?;
        let message = Bytes::read(alloc, reader)?;
        let proposal = Proposal::read(alloc, reader)?;
        let sender = u32::read(alloc, reader)?;
        let own_key = Option::<Bytes>::read(alloc, reader)?;
        Ok(SavedProposal {
            reference,
            message,
            proposal,
            sender,
            own_key,
        })
    }

    #[tactic(auto, using(mls_leaf::proofs::Codecs::codecs), unfolding(crate::specs::Kept::saved_proposal))]
    fn check(reader: &mut Reader<'_>) -> Result<(), LeafError> {
        Bytes::check(reader)?;
        Bytes::check(reader)?;
        Proposal::check(reader)?;
        u32::check(reader)?;
        Option::<Bytes>::check(reader)?;
        Ok(())
    }

    #[tactic(auto, using(mls_leaf::proofs::Codecs::codecs), unfolding(crate::specs::Kept::saved_proposal))]
    fn write(&self, alloc: Global, writer: &mut Writer) -> Result<(), LeafError> {
        self.reference.write(alloc, writer)?;
        self.message.write(alloc, writer)?;
        self.proposal.write(alloc, writer)?;
        self.sender.write(alloc, writer)?;
        self.own_key.write(alloc, writer)?;
        Ok(())
    }
}
