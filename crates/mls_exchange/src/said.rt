//! What the sender of application data signs (RFC 9420, 6.1).

ghost use Rattle.std.specs.Prelude.{◌<◌, ◌^◌, length, IfOk};
ghost use Rattle.mls_exchange.specs.Said.{said_by, AddsPlace, AddsData, WritesSigned};
ghost use Rattle.mls_exchange.specs.Contents.{signed_text};
ghost use Rattle.mls_exchange.specs.Calls.{GivesBytes};

use crate::ExchangeError;
use crate::exchange::TOO_LONG;
use mls_leaf::LeafError;
use mls_wire::Writer;
use std::alloc::Global;

/// Application data with where it belongs and who sends it, lent.
#[derive(Clone, Copy)]
pub(crate) struct Said<'a> {
    pub group_id: &'a [u8],
    pub epoch: u64,
    pub leaf: u32,
    pub authenticated_data: &'a [u8],
    pub application_data: &'a [u8],
}

/// Adds what stands before the sender in a FramedContentTBS (RFC 9420, 6.1).
#[tactic(auto, using(mls_leaf::proofs::Codecs::codecs))]
fn add_place(writer: &mut Writer, said: &Said<'_>) -> Result<(), LeafError>
    ensures { AddsPlace said.now writer.old result writer.new }
{
    writer.u16(1)?;
    writer.u16(2)?;
    writer.opaque(said.group_id)?;
    writer.u64(said.epoch)?;
    Ok(())
}

/// Adds the sender, the authenticated data and the data (RFC 9420, 6).
#[tactic(auto, using(mls_leaf::proofs::Codecs::codecs))]
fn add_data(writer: &mut Writer, said: &Said<'_>) -> Result<(), LeafError>
    ensures { AddsData said.now writer.old result writer.new }
{
    writer.u8(1)?;
    writer.u32(said.leaf)?;
    writer.opaque(said.authenticated_data)?;
    writer.u8(1)?;
    writer.opaque(said.application_data)?;
    Ok(())
}

/// The FramedContentTBS (RFC 9420, 6.1) in an epoch with this GroupContext: `TooLong` (6) where a vector in it has 2^30
/// bytes or more, unless memory runs out before it.
#[tactic(auto, using(mls_leaf::proofs::Codecs::codecs), unfolding(mls_types::specs::Content::framed_content, mls_types::specs::Content::sender, mls_types::specs::Content::content, crate::specs::Contents::application_content))]
fn write_signed(alloc: Global, said: &Said<'_>, context: &[u8]) -> Result<Vec<u8>, LeafError>
    ensures { WritesSigned said.now context.now result }
{
    let mut writer = Writer::new(alloc);
    add_place(&mut writer, said)?;
    add_data(&mut writer, said)?;
    let mut bytes = writer.into_bytes();
    bytes.extend_from_slice(context)?;
    Ok(bytes)
}

/// The same: `TooLong` (6) where no vector holds it.
#[tactic(auto, unfolding(crate::specs::Contents::signed_text))]
pub(crate) fn signed_text(
    alloc: Global,
    said: &Said<'_>,
    context: &[u8],
) -> Result<Vec<u8>, ExchangeError>
    ensures answer { GivesBytes (signed_text (said_by said.now) context.now) result }
    ensures short { IfOk result (λ v. length v.items < 2 ^ 30) }
    ensures group { IfOk result (λ _. length said.now.group_id.now < 2 ^ 30) }
{
    let text = write_signed(alloc, said, context)?;
    if text.len() < 1 << 30 {
        Ok(text)
    } else {
        Err(TOO_LONG)
    }
}
