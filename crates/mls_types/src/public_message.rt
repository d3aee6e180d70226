//! Public messages, and the contents that are signed and hashed in them (RFC 9420, 6 and 6.2).

ghost use Rattle.mls_types.specs.PublicMessage.{wire_format, public_message, authenticated_content, wire_format_nonempty, public_message_nonempty, authenticated_content_nonempty};
ghost use Rattle.mls_types.specs.ReadFaults.{wire_format_faults, public_message_faults, authenticated_content_faults};

use crate::signed::{SignedContent, read_with_signature};
use mls_leaf::{Bytes, Codec, LeafError};
use mls_wire::{Reader, Writer};
use std::alloc::Global;

/// The kinds of messages that this profile has (RFC 9420, 6 and 17.2).
#[derive(Clone, Copy, Debug, PartialEq, Eq)]
pub enum WireFormat {
    /// mls_public_message, 1.
    PublicMessage,
    /// mls_welcome, 3.
    Welcome,
    /// mls_group_info, 4.
    GroupInfo,
    /// mls_key_package, 5.
    KeyPackage,
}

/// A content that is signed, and not encrypted (RFC 9420, 6.2).
#[derive(Debug, Drop)]
pub struct PublicMessage {
    /// The content with its authentication data.
    pub content: SignedContent,
    /// The tag that shows that the sender is a member.
    pub membership_tag: Bytes,
}

/// A signed content with the kind of message that it is sent in (RFC 9420, 6).
#[derive(Debug, Drop)]
pub struct AuthenticatedContent {
    /// The kind of message.
    pub wire_format: WireFormat,
    /// The content with its authentication data.
    pub content: SignedContent,
}

impl Codec for WireFormat {
    ghost format = { wire_format };

    ghost nonempty = { wire_format_nonempty };

    ghost faults = { wire_format_faults };

    #[tactic(auto, using(mls_leaf::proofs::Codecs::codecs), unfolding(crate::specs::PublicMessage::wire_format))]
    fn read(_alloc: Global, reader: &mut Reader<'_>) -> Result<WireFormat, LeafError> {
        match reader.u16()? {
            1 => Ok(WireFormat::PublicMessage),
            3 => Ok(WireFormat::Welcome),
            4 => Ok(WireFormat::GroupInfo),
            5 => Ok(WireFormat::KeyPackage),
            _ => Err(LeafError::BadTag),
        }
    }

    #[tactic(auto, using(mls_leaf::proofs::Codecs::codecs), unfolding(crate::specs::PublicMessage::wire_format))]
    fn check(reader: &mut Reader<'_>) -> Result<(), LeafError> {
        match reader.u16()? {
            1 => Ok(()),
            3 => Ok(()),
            4 => Ok(()),
            5 => Ok(()),
            _ => Err(LeafError::BadTag),
        }
    }

    #[tactic(auto, using(mls_leaf::proofs::Codecs::codecs), unfolding(crate::specs::PublicMessage::wire_format))]
    fn write(&self, _alloc: Global, writer: &mut Writer) -> Result<(), LeafError> {
        match self {
            WireFormat::PublicMessage => {
                writer.u16(1)?;
                Ok(())
            }
            WireFormat::Welcome => {
                writer.u16(3)?;
                Ok(())
            }
            WireFormat::GroupInfo => {
                writer.u16(4)?;
                Ok(())
            }
            WireFormat::KeyPackage => {
                writer.u16(5)?;
                Ok(())
            }
        }
    }
}

impl Codec for PublicMessage {
    ghost format = { public_message };

    ghost nonempty = { public_message_nonempty };

    ghost faults = { public_message_faults };

    #[tactic(auto, using(mls_leaf::proofs::Codecs::codecs), unfolding(crate::specs::PublicMessage::public_message))]
    fn read(alloc: Global, reader: &mut Reader<'_>) -> Result<PublicMessage, LeafError> {
        let (content, membership_tag) = read_with_signature::<SignedContent>(alloc, reader)?;
        Ok(PublicMessage {
            content,
            membership_tag,
        })
    }

    #[tactic(auto, using(mls_leaf::proofs::Codecs::codecs), unfolding(crate::specs::PublicMessage::public_message))]
    fn check(reader: &mut Reader<'_>) -> Result<(), LeafError> {
        SignedContent::check(reader)?;
        Bytes::check(reader)?;
        Ok(())
    }

    #[tactic(auto, using(mls_leaf::proofs::Codecs::codecs), unfolding(crate::specs::PublicMessage::public_message))]
    fn write(&self, alloc: Global, writer: &mut Writer) -> Result<(), LeafError> {
        self.content.write(alloc, writer)?;
        self.membership_tag.write(alloc, writer)?;
        Ok(())
    }
}

impl Codec for AuthenticatedContent {
    ghost format = { authenticated_content };

    ghost nonempty = { authenticated_content_nonempty };

    ghost faults = { authenticated_content_faults };

    #[tactic(auto, using(mls_leaf::proofs::Codecs::codecs), unfolding(crate::specs::PublicMessage::authenticated_content))]
    fn read(alloc: Global, reader: &mut Reader<'_>) -> Result<AuthenticatedContent, LeafError> {
        let wire_format = WireFormat::read(alloc, reader)?;
        let content = SignedContent::read(alloc, reader)?;
        Ok(AuthenticatedContent {
            wire_format,
            content,
        })
    }

    #[tactic(auto, using(mls_leaf::proofs::Codecs::codecs), unfolding(crate::specs::PublicMessage::authenticated_content))]
    fn check(reader: &mut Reader<'_>) -> Result<(), LeafError> {
        WireFormat::check(reader)?;
        SignedContent::check(reader)?;
        Ok(())
    }

    #[tactic(auto, using(mls_leaf::proofs::Codecs::codecs), unfolding(crate::specs::PublicMessage::authenticated_content))]
    fn write(&self, alloc: Global, writer: &mut Writer) -> Result<(), LeafError> {
        self.wire_format.write(alloc, writer)?;
        self.content.write(alloc, writer)?;
        Ok(())
    }
}
