//! What is sealed in a private message, and what is authenticated beside it (RFC 9420, 6.3.1 and 6.3.2).

ghost use Rattle.std.specs.Prelude.{◌≡◌, ◌<◌, ◌^◌, ◌++◌, length, replicate, OnOk};
ghost use Rattle.mls_leaf.specs.Faults.{Writes};
ghost use Rattle.mls_private_message.specs.PrivateContent.{is_padding};
ghost use Rattle.mls_private_message.specs.Calls.{ReadsPrivateContent, WritesPrivateContent};
ghost use Rattle.mls_private_message.specs.Calls.{AddsSenderDataAad, WritesPrivateContentAad};
ghost use Rattle.mls_private_message.specs.PrivateMessage.{sender_data_aad};

use crate::PrivateMessageError;
use mls_leaf::LeafError;
use mls_wire::{Reader, Writer};
use std::alloc::{AllocError, Global};

/// Application data and the signature, lent from a content.
#[derive(Clone, Copy, Debug)]
pub struct ReadContent<'a> {
    /// The application data.
    pub application_data: &'a [u8],
    /// The sender's signature.
    pub signature: &'a [u8],
}

/// Whether each byte is 0.
#[tactic(auto, unfolding(crate::specs::PrivateContent::is_padding))]
fn is_padding(bytes: &[u8]) -> bool
    ensures { result ≡ is_padding bytes.now }
{
    bytes.iter().all(|b| *b == 0)
}

/// The data and the signature of a PrivateMessageContent (RFC 9420, 6.3.1), lent from its bytes: the first fault, and
/// `PaddingNotZero` (118) where a byte of the padding isn't 0. Takes no memory.
#[tactic(auto, unfolding(crate::specs::PrivateContent::private_content_at))]
pub fn read_content(bytes: &[u8]) -> Result<ReadContent<'_>, PrivateMessageError>
    ensures { ReadsPrivateContent bytes.now result }
{
    let mut reader = Reader::new(bytes);
    let application_data = reader.opaque()?;
    let signature = reader.opaque()?;
    if !is_padding(reader.rest()) {
        return Err(PrivateMessageError::PaddingNotZero);
    }
    Ok(ReadContent {
        application_data,
        signature,
    })
}

/// Adds so many zeros.
fn add_padding(bytes: &mut Vec<u8>, padding: usize) -> Result<(), AllocError>
    ensures { OnOk result (bytes.new.items ≡ bytes.old.items ++ replicate padding 0) }
{
    bytes.reserve(padding)?;
    bytes.resize(bytes.len() + padding, 0)
}

/// A PrivateMessageContent: application data, the signature, and so many bytes of padding (RFC 9420, 6.3.1). `TooLong` (6)
/// where one of the first two has 2^30 bytes or more, unless memory runs out before it.
#[tactic(auto, using(mls_leaf::proofs::Codecs::codecs), unfolding(crate::specs::PrivateContent::private_content))]
pub fn write_content(
    alloc: Global,
    application_data: &[u8],
    signature: &[u8],
    padding: usize,
) -> Result<Vec<u8>, LeafError>
    ensures { WritesPrivateContent application_data.now signature.now padding result }
{
    let mut writer = Writer::new(alloc);
    writer.opaque(application_data)?;
    writer.opaque(signature)?;
    let mut bytes = writer.into_bytes();
    add_padding(&mut bytes, padding)?;
    Ok(bytes)
}

/// Adds what both additional data begin with.
#[tactic(auto, using(mls_leaf::proofs::Codecs::codecs))]
fn add_sender_data_aad(writer: &mut Writer, group_id: &[u8], epoch: u64) -> Result<(), LeafError>
    ensures { AddsSenderDataAad group_id.now epoch writer.old result writer.new }
{
    writer.opaque(group_id)?;
    writer.u64(epoch)?;
    writer.u8(1)?;
    Ok(())
}

/// The SenderDataAAD (RFC 9420, 6.3.2).
#[tactic(auto, using(mls_leaf::proofs::Codecs::codecs))]
pub(crate) fn sender_data_aad(
    alloc: Global,
    group_id: &[u8],
    epoch: u64,
) -> Result<Vec<u8>, LeafError>
    ensures { Writes (length group_id.now < 2 ^ 30) (sender_data_aad group_id.now epoch) result }
{
    let mut writer = Writer::new(alloc);
    add_sender_data_aad(&mut writer, group_id, epoch)?;
    Ok(writer.into_bytes())
}

/// The PrivateContentAAD (RFC 9420, 6.3.1).
#[tactic(auto, using(mls_leaf::proofs::Codecs::codecs))]
pub(crate) fn private_content_aad(
    alloc: Global,
    group_id: &[u8],
    epoch: u64,
    authenticated_data: &[u8],
) -> Result<Vec<u8>, LeafError>
    ensures { WritesPrivateContentAad group_id.now epoch authenticated_data.now result }
{
    let mut writer = Writer::new(alloc);
    add_sender_data_aad(&mut writer, group_id, epoch)?;
    writer.opaque(authenticated_data)?;
    Ok(writer.into_bytes())
}
