//! Group infos and the ratchet trees in them (RFC 9420, 12.4.3 and 12.4.3.3).

ghost use Rattle.mls_leaf.specs.Faults.{ReadsFront, ReadsPast, AddsSpelling};
ghost use Rattle.mls_types.specs.GroupInfo.{group_info_extensions, group_info, group_info_nonempty};
ghost use Rattle.mls_types.specs.GroupReadFaults.{group_info_faults};

use crate::group_context::GroupContext;
use mls_leaf::{Bytes, Codec, Items, LeafError, pass_mark};
use mls_tree_slot::Slot;
use mls_wire::{Reader, Writer};
use std::alloc::Global;

/// The nodes of a ratchet tree in node order (RFC 9420, 12.4.3.3), which may be shared with a tree made of them.
pub type RatchetTree = Items<Slot>;

/// The number of the ratchet tree's extension (RFC 9420, 17.3).
const RATCHET_TREE_EXTENSION: u16 = 2;

/// What a new member needs to know of the group (RFC 9420, 12.4.3).
#[derive(Debug, Clone, Drop)]
pub struct GroupInfo {
    /// The group context of the epoch.
    pub group_context: GroupContext,
    /// The ratchet tree, the one extension that it may have.
    pub ratchet_tree: Option<RatchetTree>,
    /// The tag that shows that its signer knows the epoch.
    pub confirmation_tag: Bytes,
    /// The leaf index of the signer.
    pub signer: u32,
    /// The signer's signature.
    pub signature: Bytes,
}

/// Reads the extensions of a group info.
#[tactic(auto, using(mls_leaf::proofs::Codecs::codecs), unfolding(crate::specs::GroupInfo::group_info_extensions))]
fn read_extensions(alloc: Global, reader: &mut Reader<'_>) -> Result<Option<RatchetTree>, LeafError>
    ensures { ReadsFront group_info_extensions reader.old result reader.new }
{
    let mut content = reader.vector()?;
    if content.is_empty() {
        return Ok(None);
    }
    pass_mark(
        &mut content,
        RATCHET_TREE_EXTENSION,
        LeafError::ExtensionNotAllowed,
    )?;
    let mut data = content.vector()?;
    let tree = RatchetTree::read(alloc, &mut data)?;
    data.finish()?;
    if content.is_empty() {
        return Ok(Some(tree));
    }
    let _second = content.u16()?;
    Err(LeafError::ExtensionNotAllowed)
}

/// Reads past the extensions of a group info.
#[tactic(auto, using(mls_leaf::proofs::Codecs::codecs), unfolding(crate::specs::GroupInfo::group_info_extensions))]
fn check_extensions(reader: &mut Reader<'_>) -> Result<(), LeafError>
    ensures { ReadsPast group_info_extensions.pass reader.old result reader.new }
{
    let mut content = reader.vector()?;
    if content.is_empty() {
        return Ok(());
    }
    pass_mark(
        &mut content,
        RATCHET_TREE_EXTENSION,
        LeafError::ExtensionNotAllowed,
    )?;
    let mut data = content.vector()?;
    RatchetTree::check(&mut data)?;
    data.finish()?;
    if content.is_empty() {
        return Ok(());
    }
    let _kind = content.u16()?;
    Err(LeafError::ExtensionNotAllowed)
}

/// Adds the extensions of a group info.
#[tactic(auto, using(mls_wire::proofs::Started::started, mls_leaf::proofs::Codecs::codecs), unfolding(crate::specs::GroupInfo::group_info_extensions))]
fn write_extensions(
    ratchet_tree: &Option<RatchetTree>,
    alloc: Global,
    writer: &mut Writer,
) -> Result<(), LeafError>
    ensures { AddsSpelling group_info_extensions ratchet_tree.now writer.old result writer.new }
{
    let Some(tree) = ratchet_tree else {
        writer.opaque(&[])?;
        return Ok(());
    };
    let content = writer.start_vector()?;
    writer.u16(RATCHET_TREE_EXTENSION)?;
    let data = writer.start_vector()?;
    tree.write(alloc, writer)?;
    writer.end_vector(data)?;
    writer.end_vector(content)?;
    Ok(())
}

impl Codec for GroupInfo {
    ghost format = { group_info };

    ghost nonempty = { group_info_nonempty };

    ghost faults = { group_info_faults };

    #[tactic(auto, using(mls_leaf::proofs::Codecs::codecs), unfolding(crate::specs::GroupInfo::group_info))]
    fn read(alloc: Global, reader: &mut Reader<'_>) -> Result<GroupInfo, LeafError> {
        let group_context = GroupContext::read(alloc, reader)?;
        let ratchet_tree = read_extensions(alloc, reader)?;
        let confirmation_tag = Bytes::read(alloc, reader)?;
        let signer = u32::read(alloc, reader)?;
        let signature = Bytes::read(alloc, reader)?;
        Ok(GroupInfo {
            group_context,
            ratchet_tree,
            confirmation_tag,
            signer,
            signature,
        })
    }

    #[tactic(auto, using(mls_leaf::proofs::Codecs::codecs), unfolding(crate::specs::GroupInfo::group_info))]
    fn check(reader: &mut Reader<'_>) -> Result<(), LeafError> {
        GroupContext::check(reader)?;
        check_extensions(reader)?;
        Bytes::check(reader)?;
        u32::check(reader)?;
        Bytes::check(reader)?;
        Ok(())
    }

    #[tactic(auto, using(mls_leaf::proofs::Codecs::codecs), unfolding(crate::specs::GroupInfo::group_info))]
    fn write(&self, alloc: Global, writer: &mut Writer) -> Result<(), LeafError> {
        self.group_context.write(alloc, writer)?;
        write_extensions(&self.ratchet_tree, alloc, writer)?;
        self.confirmation_tag.write(alloc, writer)?;
        self.signer.write(alloc, writer)?;
        self.signature.write(alloc, writer)?;
        Ok(())
    }
}

impl GroupInfo {
    ghost use Rattle.mls_types.specs.GroupInfo.{group_info_tbs, GroupInfoTbsFits};
    ghost use Rattle.mls_leaf.specs.Faults.{Writes};

    /// The GroupInfoTBS, which its signer signs: the group info without its signature (RFC 9420, 12.4.3).
    /// TooLong where a vector in it has 2^30 bytes or more, unless memory runs out before it.
    #[tactic(auto, using(mls_leaf::proofs::Codecs::codecs))]
    pub fn to_be_signed(&self, alloc: Global) -> Result<Vec<u8>, LeafError>
        ensures { Writes (GroupInfoTbsFits self.now) (group_info_tbs self.now) result }
    {
        let mut writer = Writer::new(alloc);
        self.group_context.write(alloc, &mut writer)?;
        write_extensions(&self.ratchet_tree, alloc, &mut writer)?;
        self.confirmation_tag.write(alloc, &mut writer)?;
        u32::write(&self.signer, alloc, &mut writer)?;
        Ok(writer.into_bytes())
    }
}
