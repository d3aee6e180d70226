//! Signed contents: a framed content, and what vouches for it (RFC 9420, 6 and 6.1).

ghost use Rattle.mls_wire.specs.Combine.{◌⨾◌, byte_string};
ghost use Rattle.mls_types.specs.Signed.{signed_tail, signed_content, signed_content_nonempty};
ghost use Rattle.mls_leaf.specs.Faults.{ReadsFront, ReadsPast};
ghost use Rattle.mls_types.specs.ReadFaults.{signed_content_faults};

use crate::commit::Commit;
use crate::content::{Content, FramedContent, Sender};
use mls_leaf::{Bytes, Codec, LeafError, Proposal};
use mls_wire::{Reader, Writer};
use std::alloc::Global;

/// What a signed message says. A commit comes with its confirmation tag (RFC 9420, 6.1).
#[derive(Debug, Drop)]
pub enum SignedBody {
    /// Data of the application.
    Application(Bytes),
    /// A proposal for a later commit.
    Proposal(Proposal),
    /// A commit, which ends the epoch.
    Commit {
        /// The commit.
        commit: Commit,
        /// The tag that shows that its sender knows the new epoch.
        confirmation_tag: Bytes,
    },
}

/// A framed content with its authentication data (RFC 9420, 6 and 6.1).
#[derive(Debug, Drop)]
pub struct SignedContent {
    /// The group's identifier.
    pub group_id: Bytes,
    /// The epoch in which it is sent.
    pub epoch: u64,
    /// Who sent it.
    pub sender: Sender,
    /// What the sender adds for the application.
    pub authenticated_data: Bytes,
    /// What it says, and for a commit the confirmation tag.
    pub body: SignedBody,
    /// The sender's signature.
    pub signature: Bytes,
}

/// Reads a value and the signature or the tag behind it. It is generic, so that its proof goes into no
/// parts of the value.
pub(crate) fn read_with_signature<T: Codec>(
    alloc: Global,
    reader: &mut Reader<'_>,
) -> Result<(T, Bytes), LeafError>
    ensures { ReadsFront (T.format ⨾ byte_string) reader.old result reader.new }
{
    let value = T::read(alloc, reader)?;
    let signature = Bytes::read(alloc, reader)?;
    Ok((value, signature))
}

/// Reads a value, the signature and the confirmation tag.
fn read_with_tags<T: Codec>(
    alloc: Global,
    reader: &mut Reader<'_>,
) -> Result<(T, (Bytes, Bytes)), LeafError>
    ensures { ReadsFront (T.format ⨾ byte_string ⨾ byte_string) reader.old result reader.new }
{
    let value = T::read(alloc, reader)?;
    let tags = read_with_signature::<Bytes>(alloc, reader)?;
    Ok((value, tags))
}

/// Reads from the content's type on.
#[tactic(auto, using(mls_leaf::proofs::Codecs::codecs), unfolding(crate::specs::Signed::signed_tail))]
fn read_tail(alloc: Global, reader: &mut Reader<'_>) -> Result<(SignedBody, Bytes), LeafError>
    ensures { ReadsFront signed_tail reader.old result reader.new }
{
    match reader.u8()? {
        1 => {
            let (data, signature) = read_with_signature::<Bytes>(alloc, reader)?;
            Ok((SignedBody::Application(data), signature))
        }
        2 => {
            let (proposal, signature) = read_with_signature::<Proposal>(alloc, reader)?;
            Ok((SignedBody::Proposal(proposal), signature))
        }
        3 => {
            let (commit, (signature, confirmation_tag)) = read_with_tags::<Commit>(alloc, reader)?;
            let body = SignedBody::Commit {
                commit,
                confirmation_tag,
            };
            Ok((body, signature))
        }
        _ => Err(LeafError::BadTag),
    }
}

/// Reads past all from the content's type on.
#[tactic(auto, using(mls_leaf::proofs::Codecs::codecs), unfolding(crate::specs::Signed::signed_tail))]
fn check_tail(reader: &mut Reader<'_>) -> Result<(), LeafError>
    ensures { ReadsPast signed_tail.pass reader.old result reader.new }
{
    match reader.u8()? {
        1 => {
            Bytes::check(reader)?;
            Bytes::check(reader)?;
            Ok(())
        }
        2 => {
            Proposal::check(reader)?;
            Bytes::check(reader)?;
            Ok(())
        }
        3 => {
            Commit::check(reader)?;
            Bytes::check(reader)?;
            Bytes::check(reader)?;
            Ok(())
        }
        _ => Err(LeafError::BadTag),
    }
}

impl SignedContent {
    ghost use Rattle.std.specs.Prelude.{◌≡◌};
    ghost use Rattle.mls_leaf.specs.Faults.{AddsSpelling, Encodes};
    ghost use Rattle.mls_types.specs.Content.{framed_content};
    ghost use Rattle.mls_types.specs.InputCalls.{AddsAuthData};
    ghost use Rattle.mls_types.specs.SignedParts.{framed_content_of, with_signature};

    /// The content with this signature. A commit gets the confirmation tag too, and other contents leave it.
    pub fn new(content: FramedContent, signature: Bytes, confirmation_tag: Bytes) -> SignedContent
        ensures { result ≡ with_signature content signature confirmation_tag }
    {
        let FramedContent {
            group_id,
            epoch,
            sender,
            authenticated_data,
            content,
        } = content;
        let body = match content {
            Content::Application(data) => SignedBody::Application(data),
            Content::Proposal(proposal) => SignedBody::Proposal(proposal),
            Content::Commit(commit) => SignedBody::Commit {
                commit,
                confirmation_tag,
            },
        };
        SignedContent {
            group_id,
            epoch,
            sender,
            authenticated_data,
            body,
            signature,
        }
    }

    /// The spelling of its FramedContent.
    #[tactic(auto, using(mls_leaf::proofs::Codecs::codecs))]
    pub fn encode_framed_content(&self, alloc: Global) -> Result<Vec<u8>, LeafError>
        ensures { Encodes framed_content (framed_content_of self.now) result }
    {
        let mut writer = Writer::new(alloc);
        self.add_framed_content(alloc, &mut writer)?;
        Ok(writer.into_bytes())
    }

    /// Adds the spelling of its FramedContent.
    #[tactic(auto, using(mls_leaf::proofs::Codecs::codecs), unfolding(crate::specs::Content::framed_content, crate::specs::Content::content))]
    pub(crate) fn add_framed_content(
        &self,
        alloc: Global,
        writer: &mut Writer,
    ) -> Result<(), LeafError>
        ensures { AddsSpelling framed_content (framed_content_of self.now) writer.old result
            writer.new }
    {
        self.group_id.write(alloc, writer)?;
        self.epoch.write(alloc, writer)?;
        self.sender.write(alloc, writer)?;
        self.authenticated_data.write(alloc, writer)?;
        match &self.body {
            SignedBody::Application(data) => {
                writer.u8(1)?;
                data.write(alloc, writer)?;
                Ok(())
            }
            SignedBody::Proposal(proposal) => {
                writer.u8(2)?;
                proposal.write(alloc, writer)?;
                Ok(())
            }
            SignedBody::Commit {
                commit,
                confirmation_tag: _,
            } => {
                writer.u8(3)?;
                commit.write(alloc, writer)?;
                Ok(())
            }
        }
    }

    /// Adds the FramedContentAuthData: the signature, and for a commit the confirmation tag.
    #[tactic(auto, using(mls_leaf::proofs::Codecs::codecs))]
    pub(crate) fn add_auth_data(&self, alloc: Global, writer: &mut Writer) -> Result<(), LeafError>
        ensures { AddsAuthData self.now writer.old result writer.new }
    {
        self.signature.write(alloc, writer)?;
        match &self.body {
            SignedBody::Application(_) => Ok(()),
            SignedBody::Proposal(_) => Ok(()),
            SignedBody::Commit {
                commit: _,
                confirmation_tag,
            } => {
                confirmation_tag.write(alloc, writer)?;
                Ok(())
            }
        }
    }
}

impl Codec for SignedContent {
    ghost format = { signed_content };

    ghost nonempty = { signed_content_nonempty };

    ghost faults = { signed_content_faults };

    #[tactic(auto, using(mls_leaf::proofs::Codecs::codecs), unfolding(crate::specs::Signed::signed_content))]
    fn read(alloc: Global, reader: &mut Reader<'_>) -> Result<SignedContent, LeafError> {
        let group_id = Bytes::read(alloc, reader)?;
        let epoch = u64::read(alloc, reader)?;
        let sender = Sender::read(alloc, reader)?;
        let authenticated_data = Bytes::read(alloc, reader)?;
        let (body, signature) = read_tail(alloc, reader)?;
        Ok(SignedContent {
            group_id,
            epoch,
            sender,
            authenticated_data,
            body,
            signature,
        })
    }

    #[tactic(auto, using(mls_leaf::proofs::Codecs::codecs), unfolding(crate::specs::Signed::signed_content))]
    fn check(reader: &mut Reader<'_>) -> Result<(), LeafError> {
        Bytes::check(reader)?;
        u64::check(reader)?;
        Sender::check(reader)?;
        Bytes::check(reader)?;
        check_tail(reader)?;
        Ok(())
    }

    fn write(&self, alloc: Global, writer: &mut Writer) -> Result<(), LeafError> {
        self.add_framed_content(alloc, writer)?;
        self.add_auth_data(alloc, writer)?;
        Ok(())
    }
}
