//! The inputs that are signed, tagged, referenced and hashed of a received message, fed from its slices.

ghost use Rattle.std.specs.Prelude.{◌≡◌, ◌+◌, ◌<◌, ◌≤◌, ◌^◌, length, IfOk};
ghost use Rattle.mls_kdf.specs.Kdf.{hmac, ref_hash};
ghost use Rattle.mls_types.specs.Signing.{signed_pieces};
ghost use Rattle.mls_view.specs.SliceInputs.{tagged_pieces, authenticated_pieces, IsSignedInput, IsMembershipTag, IsProposalReference};

use crate::public_message::PublicMessageView;
use mls_kdf::{Secret, content_header, hash, hmac};
use std::alloc::{AllocError, Global};

/// Joins version 1, wire format 1 and the slices.
fn join_signed_pieces(alloc: Global, said: &[u8], context: &[u8]) -> Result<Vec<u8>, AllocError>
    ensures { IfOk result (λ v. v.items ≡ signed_pieces said.now context.now) }
{
    let front = [0, 1, 0, 1];
    let room = said.len().saturating_add(context.len());
    let mut bytes = Vec::with_capacity(alloc, room.saturating_add(front.len()))?;
    bytes.extend_from_slice(&front)?;
    bytes.extend_from_slice(said)?;
    bytes.extend_from_slice(context)?;
    Ok(bytes)
}

#[tactic(auto, unfolding(mls_wire::specs::Reading::uint))]
fn tag_of<'b>(key: &[u8], said: &'b [u8], context: &'b [u8], auth: &'b [u8]) -> Secret
    ensures { result ≡ hmac key.now (tagged_pieces said.now context.now auth.now) }
{
    let version = 1u16.to_be_bytes();
    let format = 1u16.to_be_bytes();
    hmac(key, &[&version, &format, said, context, auth])
}

/// The reference under a label of wire format 1 and the slices.
fn reference_of<'b>(label: &'b str, said: &'b [u8], auth: &'b [u8]) -> Secret
    requires label { length label.now ≤ 200 }
    requires value { length said.now + length auth.now + 2 < 2 ^ 30 }
    ensures { result ≡ ref_hash label.now (authenticated_pieces said.now auth.now) }
{
    let label_header = content_header(label.len());
    let value_header = content_header(said.len() + auth.len() + 2);
    let format = 1u16.to_be_bytes();
    hash(&[
        label_header.as_slice(),
        label.as_bytes(),
        value_header.as_slice(),
        &format,
        said,
        auth,
    ])
}

impl<'a> PublicMessageView<'a> {
    /// The FramedContentTBS, which the sender signed (RFC 9420, 6.1), with the bytes of the epoch's GroupContext.
    pub fn to_be_signed(&self, alloc: Global, context: &[u8]) -> Result<Vec<u8>, AllocError>
        ensures { IfOk result (λ v. IsSignedInput self.now context.now v.items) }
    {
        join_signed_pieces(alloc, self.framed_content, context)
    }

    /// The tag of the AuthenticatedContentTBM under a membership key (RFC 9420, 6.2), with the bytes of the epoch's
    /// GroupContext. It takes no memory.
    pub fn membership_tag_under(&self, key: &[u8], context: &[u8]) -> Secret
        ensures { IsMembershipTag self.now key.now context.now result }
    {
        tag_of(key, self.framed_content, context, self.auth_data)
    }

    /// The reference of the proposal that the message carries (RFC 9420, 5.2), of the AuthenticatedContent, which has
    /// less than 2^30 bytes. It takes no memory.
    pub fn reference(&self) -> Secret
        requires { length self.now.framed_content.now + length self.now.auth_data.now + 2 < 2 ^ 30 }
        ensures { IsProposalReference self.now result }
    {
        reference_of(
            "MLS 1.0 Proposal Reference",
            self.framed_content,
            self.auth_data,
        )
    }
}
