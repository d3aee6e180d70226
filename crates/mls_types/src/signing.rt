//! The inputs that are signed and tagged (RFC 9420, 6.1 and 6.2).

use crate::GroupContext;
use crate::content::FramedContent;
use crate::public_message::WireFormat;
use crate::signed::SignedContent;
use mls_leaf::{Codec, LeafError};
use mls_wire::Writer;
use std::alloc::Global;

impl FramedContent {
    ghost use Rattle.mls_types.specs.InputCalls.{WritesFramedContentTbs};

    /// The FramedContentTBS, which the sender signs (RFC 9420, 6.1).
    /// TooLong where a vector in it has 2^30 bytes or more, unless memory runs out before it.
    #[tactic(auto, using(mls_leaf::proofs::Codecs::codecs))]
    pub fn to_be_signed(
        &self,
        alloc: Global,
        wire_format: WireFormat,
        group_context: &GroupContext,
    ) -> Result<Vec<u8>, LeafError>
        ensures { WritesFramedContentTbs wire_format self.now group_context.now result }
    {
        let mut writer = Writer::new(alloc);
        writer.u16(1)?;
        wire_format.write(alloc, &mut writer)?;
        self.write(alloc, &mut writer)?;
        group_context.write(alloc, &mut writer)?;
        Ok(writer.into_bytes())
    }
}

impl SignedContent {
    ghost use Rattle.mls_types.specs.SignedParts.{framed_content_of};
    ghost use Rattle.mls_types.specs.InputCalls.{WritesFramedContentTbs, WritesAuthenticatedContentTbm, AddsToSign};

    /// The FramedContentTBS, which the sender signed (RFC 9420, 6.1).
    /// TooLong where a vector in it has 2^30 bytes or more, unless memory runs out before it.
    #[tactic(auto, using(mls_leaf::proofs::Codecs::codecs))]
    pub fn to_be_signed(
        &self,
        alloc: Global,
        wire_format: WireFormat,
        group_context: &GroupContext,
    ) -> Result<Vec<u8>, LeafError>
        ensures { WritesFramedContentTbs wire_format (framed_content_of self.now) group_context.now
            result }
    {
        let mut writer = Writer::new(alloc);
        self.add_to_be_signed(wire_format, group_context, alloc, &mut writer)?;
        Ok(writer.into_bytes())
    }

    /// The AuthenticatedContentTBM, which the membership tag is of (RFC 9420, 6.2).
    /// TooLong where a vector in it has 2^30 bytes or more, unless memory runs out before it.
    #[tactic(auto, using(mls_leaf::proofs::Codecs::codecs))]
    pub fn to_be_tagged(
        &self,
        alloc: Global,
        wire_format: WireFormat,
        group_context: &GroupContext,
    ) -> Result<Vec<u8>, LeafError>
        ensures { WritesAuthenticatedContentTbm wire_format self.now group_context.now result }
    {
        let mut writer = Writer::new(alloc);
        self.add_to_be_signed(wire_format, group_context, alloc, &mut writer)?;
        self.add_auth_data(alloc, &mut writer)?;
        Ok(writer.into_bytes())
    }

    /// Adds the FramedContentTBS.
    #[tactic(auto, using(mls_leaf::proofs::Codecs::codecs))]
    fn add_to_be_signed(
        &self,
        wire_format: WireFormat,
        group_context: &GroupContext,
        alloc: Global,
        writer: &mut Writer,
    ) -> Result<(), LeafError>
        ensures { AddsToSign wire_format self.now group_context.now writer.old result writer.new }
    {
        writer.u16(1)?;
        wire_format.write(alloc, writer)?;
        self.add_framed_content(alloc, writer)?;
        group_context.write(alloc, writer)?;
        Ok(())
    }
}
