//! A content, signed and tagged (RFC 9420, 6).

ghost use Rattle.std.specs.Prelude.{◌≡◌, ◌<◌, ◌≤◌, ◌^◌, length, IfOk};
ghost use Rattle.mls_leaf.specs.Limits.{input_limit};
ghost use Rattle.mls_types.specs.Content.{content as content_format, framed_content};
ghost use Rattle.mls_types.specs.Signed.{signed_content};
ghost use Rattle.mls_types.specs.SignedParts.{with_signature};
ghost use Rattle.mls_types.specs.Signing.{signed_pieces};
ghost use Rattle.mls_public_group.specs.MessageLimit.{FitsIfShort};
ghost use Rattle.mls_message.specs.Sending.{Frames, IsSaidBy, Sends, Signs};

use crate::limits::spell_within_limit;
use crate::speaker::Speaker;
use crate::untagged::Untagged;
use mls_leaf::{Bytes, LeafError};
use mls_suite::{OutOfMemory, Suite, sign_with_label, signature_is_short};
use mls_types::{Content, FramedContent, Sender, SignedContent};
use std::alloc::Global;
use std::marker::Model;

/// A content of a member with its spelling, which isn't larger than a message may be (RFC 9420, 6).
#[derive(Drop)]
pub struct Framed {
    content: Box<FramedContent>,
    bytes: Vec<u8>,
}

impl Model for Framed {
    ghost use Rattle.std.specs.Prelude.{◌≡◌, ◌≤◌, length};
    ghost use Rattle.mls_leaf.specs.Limits.{input_limit};
    ghost use Rattle.mls_types.specs.Content.{framed_content};
    ghost use Rattle.mls_types.specs.declared.content.FramedContent as contents;

    ghost Value = { contents.FramedContent };

    ghost view = { λ f. f.content.value };

    ghost invariant = { λ f. (f.bytes.items ≡ framed_content.spell f.content.value)
        × framed_content.Fits f.content.value
        × (length f.bytes.items ≤ input_limit) };
}

/// A law: a number of 32 bits.
fn know_index(index: u32)
    ensures { index < 2 ^ 32 }
{}

/// A content of a speaker in its epoch (RFC 9420, 6).
#[tactic(auto, unfolding(mls_model::specs::Messages::content_by))]
fn frame_content(
    alloc: Global,
    speaker: &Speaker<'_>,
    content: Content,
) -> Result<FramedContent, OutOfMemory>
    requires { FitsIfShort content_format content }
    ensures said { IfOk result (IsSaidBy speaker.now content) }
    ensures fits { IfOk result (FitsIfShort framed_content) }
{
    speaker.group.is_short();
    know_index(speaker.leaf);
    let context = speaker.group.context();
    Ok(FramedContent {
        group_id: context.group_id.clone()?,
        epoch: context.epoch,
        sender: Sender::Member(speaker.leaf),
        authenticated_data: Bytes::from_vec(Vec::new(alloc)),
        content,
    })
}

/// The FramedContentTBS of the spellings of a FramedContent and of a GroupContext (RFC 9420, 6.1).
fn to_be_signed(alloc: Global, said: &[u8], context: &[u8]) -> Result<Vec<u8>, OutOfMemory>
    ensures { IfOk result (λ v. v.items ≡ signed_pieces said.now context.now) }
{
    let front = [0, 1, 0, 1];
    let mut text = Vec::new(alloc);
    text.extend_from_slice(&front)?;
    text.extend_from_slice(said)?;
    text.extend_from_slice(context)?;
    Ok(text)
}

impl Framed {
    /// A content that a member says in its epoch: `TooLong` (6) where that alone is larger than a message may be, which
    /// no message of it can then be (RFC 9420, 6).
    pub fn new(alloc: Global, speaker: &Speaker<'_>, content: Content) -> Result<Framed, LeafError>
        requires { FitsIfShort content_format content }
        ensures { Frames speaker.now content result }
    {
        let content = Box::new(alloc, frame_content(alloc, speaker, content)?)?;
        let bytes = spell_within_limit::<FramedContent>(alloc, &content)?;
        Ok(Framed { content, bytes })
    }

    /// The content.
    pub fn content(&self) -> &FramedContent
        ensures content { result.now ≡ self.now }
        ensures fits { framed_content.Fits self.now }
    {
        &self.content
    }

    /// The content with its signature, and a commit with its confirmation tag, which others leave (RFC 9420, 6.1).
    pub fn with_signature(self, signature: Vec<u8>, confirmation_tag: Vec<u8>) -> SignedContent
        requires signature { length signature.items < 2 ^ 30 }
        requires tag { length confirmation_tag.items < 2 ^ 30 }
        ensures content { result ≡ with_signature self signature.items confirmation_tag.items }
        ensures fits { signed_content.Fits result }
    {
        let Framed { content, .. } = self;
        SignedContent::new(
            Box::into_inner(content),
            Bytes::from_vec(signature),
            Bytes::from_vec(confirmation_tag),
        )
    }

    /// Its spelling.
    pub fn bytes(&self) -> &[u8]
        ensures bytes { result.now ≡ framed_content.spell self.now }
        ensures short { length result.now ≤ input_limit }
    {
        &self.bytes
    }
}

/// A member's signature of a content, under the context of the epoch (RFC 9420, 6.1).
pub fn sign<S: Suite>(
    alloc: Global,
    speaker: &Speaker<'_>,
    framed: &Framed,
) -> Result<Vec<u8>, OutOfMemory>
    ensures signature { IfOk result (λ s. Signs S.crypto speaker.now framed.now s.items) }
    ensures short { IfOk result (λ s. length s.items < 2 ^ 16) }
{
    speaker.group.is_short();
    signature_is_short::<S>();
    let text = to_be_signed(alloc, framed.bytes(), speaker.group.context_bytes())?;
    sign_with_label::<S>(alloc, speaker.signing, "FramedContentTBS", &text)
}

/// The message of a signed content, with its membership tag (RFC 9420, 6 and 6.2). `TooLong` (6) it is too large.
pub fn send(
    alloc: Global,
    speaker: &Speaker<'_>,
    content: &SignedContent,
) -> Result<Vec<u8>, LeafError>
    requires { signed_content.Fits content.now }
    ensures { Sends speaker.now (λ v. v.items) content.now result }
{
    let untagged = Untagged::new(alloc, content)?;
    Ok(untagged.with_membership_tag(speaker)?)
}
