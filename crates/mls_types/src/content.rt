//! Framed contents: what a message says, where and by whom (RFC 9420, 6).

ghost use Rattle.mls_types.specs.Content.{sender, content, framed_content, sender_nonempty, content_nonempty, framed_content_nonempty};
ghost use Rattle.mls_types.specs.ReadFaults.{sender_faults, content_faults, framed_content_faults};

use crate::commit::Commit;
use mls_leaf::{Bytes, Codec, LeafError, Proposal};
use mls_wire::{Reader, Writer};
use std::alloc::Global;

/// Who sent a message (RFC 9420, 6).
#[derive(Debug, Clone, Drop)]
pub enum Sender {
    /// The member at this leaf.
    Member(u32),
}

/// What a message says (RFC 9420, 6).
#[derive(Debug, Clone, Drop)]
pub enum Content {
    /// Data of the application.
    Application(Bytes),
    /// A proposal for a later commit.
    Proposal(Proposal),
    /// A commit, which ends the epoch.
    Commit(Commit),
}

/// A content with where it belongs and who sent it (RFC 9420, 6).
#[derive(Debug, Clone, Drop)]
pub struct FramedContent {
    /// The group's identifier.
    pub group_id: Bytes,
    /// The epoch in which it is sent.
    pub epoch: u64,
    /// Who sent it.
    pub sender: Sender,
    /// What the sender adds for the application.
    pub authenticated_data: Bytes,
    /// What it says.
    pub content: Content,
}

impl Codec for Sender {
    ghost format = { sender };

    ghost nonempty = { sender_nonempty };

    ghost faults = { sender_faults };

    #[tactic(auto, using(mls_leaf::proofs::Codecs::codecs), unfolding(crate::specs::Content::sender))]
    fn read(alloc: Global, reader: &mut Reader<'_>) -> Result<Sender, LeafError> {
        match reader.u8()? {
            1 => {
                let leaf_index = u32::read(alloc, reader)?;
                Ok(Sender::Member(leaf_index))
            }
            _ => Err(LeafError::BadTag),
        }
    }

    #[tactic(auto, using(mls_leaf::proofs::Codecs::codecs), unfolding(crate::specs::Content::sender))]
    fn check(reader: &mut Reader<'_>) -> Result<(), LeafError> {
        match reader.u8()? {
            1 => {
                u32::check(reader)?;
                Ok(())
            }
            _ => Err(LeafError::BadTag),
        }
    }

    #[tactic(auto, using(mls_leaf::proofs::Codecs::codecs), unfolding(crate::specs::Content::sender))]
    fn write(&self, alloc: Global, writer: &mut Writer) -> Result<(), LeafError> {
        match self {
            Sender::Member(leaf_index) => {
                writer.u8(1)?;
                leaf_index.write(alloc, writer)?;
                Ok(())
            }
        }
    }
}

impl Codec for Content {
    ghost format = { content };

    ghost nonempty = { content_nonempty };

    ghost faults = { content_faults };

    #[tactic(auto, using(mls_leaf::proofs::Codecs::codecs), unfolding(crate::specs::Content::content))]
    fn read(alloc: Global, reader: &mut Reader<'_>) -> Result<Content, LeafError> {
        match reader.u8()? {
            1 => {
                let data = Bytes::read(alloc, reader)?;
                Ok(Content::Application(data))
            }
            2 => {
                let proposal = Proposal::read(alloc, reader)?;
                Ok(Content::Proposal(proposal))
            }
            3 => {
                let commit = Commit::read(alloc, reader)?;
                Ok(Content::Commit(commit))
            }
            _ => Err(LeafError::BadTag),
        }
    }

    #[tactic(auto, using(mls_leaf::proofs::Codecs::codecs), unfolding(crate::specs::Content::content))]
    fn check(reader: &mut Reader<'_>) -> Result<(), LeafError> {
        match reader.u8()? {
            1 => {
                Bytes::check(reader)?;
                Ok(())
            }
            2 => {
                Proposal::check(reader)?;
                Ok(())
            }
            3 => {
                Commit::check(reader)?;
                Ok(())
            }
            _ => Err(LeafError::BadTag),
        }
    }

    #[tactic(auto, using(mls_leaf::proofs::Codecs::codecs), unfolding(crate::specs::Content::content))]
    fn write(&self, alloc: Global, writer: &mut Writer) -> Result<(), LeafError> {
        match self {
            Content::Application(data) => {
                writer.u8(1)?;
                data.write(alloc, writer)?;
                Ok(())
            }
            Content::Proposal(proposal) => {
                writer.u8(2)?;
                proposal.write(alloc, writer)?;
                Ok(())
            }
            Content::Commit(commit) => {
                writer.u8(3)?;
                commit.write(alloc, writer)?;
                Ok(())
            }
        }
    }
}

impl Codec for FramedContent {
    ghost format = { framed_content };

    ghost nonempty = { framed_content_nonempty };

    ghost faults = { framed_content_faults };

    #[tactic(auto, using(mls_leaf::proofs::Codecs::codecs), unfolding(crate::specs::Content::framed_content))]
    fn read(alloc: Global, reader: &mut Reader<'_>) -> Result<FramedContent, LeafError> {
        let group_id = Bytes::read(alloc, reader)?;
        let epoch = u64::read(alloc, reader)?;
        let sender = Sender::read(alloc, reader)?;
        let authenticated_data = Bytes::read(alloc, reader)?;
        let content = Content::read(alloc, reader)?;
        Ok(FramedContent {
            group_id,
            epoch,
            sender,
            authenticated_data,
            content,
        })
    }

    #[tactic(auto, using(mls_leaf::proofs::Codecs::codecs), unfolding(crate::specs::Content::framed_content))]
    fn check(reader: &mut Reader<'_>) -> Result<(), LeafError> {
        Bytes::check(reader)?;
        u64::check(reader)?;
        Sender::check(reader)?;
        Bytes::check(reader)?;
        Content::check(reader)?;
        Ok(())
    }

    #[tactic(auto, using(mls_leaf::proofs::Codecs::codecs), unfolding(crate::specs::Content::framed_content))]
    fn write(&self, alloc: Global, writer: &mut Writer) -> Result<(), LeafError> {
        self.group_id.write(alloc, writer)?;
        self.epoch.write(alloc, writer)?;
        self.sender.write(alloc, writer)?;
        self.authenticated_data.write(alloc, writer)?;
        self.content.write(alloc, writer)?;
        Ok(())
    }
}
