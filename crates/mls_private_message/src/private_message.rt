//! Private messages with application data (RFC 9420, 6.3).

ghost use Rattle.std.specs.Int.{w8};
ghost use Rattle.mls_wire.specs.Reading.{mark_at};
ghost use Rattle.mls_leaf.specs.Faults.{ReadsFront, ReadsPast, AddsSpelling};
ghost use Rattle.mls_private_message.specs.PrivateMessage.{application_type, private_fields, private_message, private_message_nonempty};
ghost use Rattle.mls_private_message.specs.ReadFaults.{private_message_faults};

use mls_leaf::{Bytes, Codec, LeafError, pass_mark};
use mls_wire::{Reader, Writer};
use std::alloc::Global;

/// An encrypted message with application data (RFC 9420, 6.3). It is spelled as an MLSMessage, with the version and the
/// wire format 2 in front.
#[derive(Debug, Clone, Drop)]
pub struct PrivateMessage {
    /// The group's identifier.
    pub group_id: Bytes,
    /// The epoch in which it is sent.
    pub epoch: u64,
    /// What the sender adds for the application, which isn't encrypted.
    pub authenticated_data: Bytes,
    /// The sealed sender data.
    pub encrypted_sender_data: Bytes,
    /// The sealed content.
    pub ciphertext: Bytes,
}

/// Reads past the content type, which is application data. After a refusal it is left open how far the reader has come.
#[tactic(auto, unfolding(mls_wire::specs::Reading::mark_at))]
fn pass_content_type(reader: &mut Reader<'_>) -> Result<(), LeafError>
    ensures { ReadsPast (mark_at w8 1 7) reader.old result reader.new }
{
    if reader.u8()? == 1 {
        Ok(())
    } else {
        Err(LeafError::BadTag)
    }
}

/// Reads from the group's identifier on.
#[tactic(auto, using(mls_leaf::proofs::Codecs::codecs), unfolding(crate::specs::PrivateMessage::private_fields))]
fn read_fields(alloc: Global, reader: &mut Reader<'_>) -> Result<PrivateMessage, LeafError>
    ensures { ReadsFront private_fields reader.old result reader.new }
{
    let group_id = Bytes::read(alloc, reader)?;
    let epoch = u64::read(alloc, reader)?;
    pass_content_type(reader)?;
    let authenticated_data = Bytes::read(alloc, reader)?;
    let encrypted_sender_data = Bytes::read(alloc, reader)?;
    let ciphertext = Bytes::read(alloc, reader)?;
    Ok(PrivateMessage {
        group_id,
        epoch,
        authenticated_data,
        encrypted_sender_data,
        ciphertext,
    })
}

/// Reads past all from the group's identifier on.
#[tactic(auto, using(mls_leaf::proofs::Codecs::codecs), unfolding(crate::specs::PrivateMessage::private_fields))]
fn check_fields(reader: &mut Reader<'_>) -> Result<(), LeafError>
    ensures { ReadsPast private_fields.pass reader.old result reader.new }
{
    Bytes::check(reader)?;
    u64::check(reader)?;
    pass_content_type(reader)?;
    Bytes::check(reader)?;
    Bytes::check(reader)?;
    Bytes::check(reader)?;
    Ok(())
}

impl Codec for PrivateMessage {
    ghost format = { private_message };

    ghost nonempty = { private_message_nonempty };

    ghost faults = { private_message_faults };

    #[tactic(auto, using(mls_leaf::proofs::Codecs::codecs), unfolding(crate::specs::PrivateMessage::private_message))]
    fn read(alloc: Global, reader: &mut Reader<'_>) -> Result<PrivateMessage, LeafError> {
        pass_mark(reader, 1, LeafError::BadTag)?;
        pass_mark(reader, 2, LeafError::BadTag)?;
        let message = read_fields(alloc, reader)?;
        Ok(message)
    }

    #[tactic(auto, using(mls_leaf::proofs::Codecs::codecs), unfolding(crate::specs::PrivateMessage::private_message))]
    fn check(reader: &mut Reader<'_>) -> Result<(), LeafError> {
        pass_mark(reader, 1, LeafError::BadTag)?;
        pass_mark(reader, 2, LeafError::BadTag)?;
        check_fields(reader)?;
        Ok(())
    }

    #[tactic(auto, using(mls_leaf::proofs::Codecs::codecs), unfolding(crate::specs::PrivateMessage::private_message, crate::specs::PrivateMessage::private_fields))]
    fn write(&self, alloc: Global, writer: &mut Writer) -> Result<(), LeafError> {
        writer.u16(1)?;
        writer.u16(2)?;
        self.group_id.write(alloc, writer)?;
        self.epoch.write(alloc, writer)?;
        writer.u8(1)?;
        self.authenticated_data.write(alloc, writer)?;
        self.encrypted_sender_data.write(alloc, writer)?;
        self.ciphertext.write(alloc, writer)?;
        Ok(())
    }
}
