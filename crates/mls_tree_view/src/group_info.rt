//! Views of group infos (RFC 9420, 12.4.3).

ghost use Rattle.mls_leaf.specs.Limits.{input_limit};
ghost use Rattle.mls_types.specs.GroupInfo.{group_info, group_info_extensions};
ghost use Rattle.mls_view.specs.Views.{LendsView, LendsWhole};
ghost use Rattle.mls_tree_view.specs.SentTree.{ShowsGroupInfo, ShowsTree};

use mls_leaf::{Bytes, Codec, INPUT_LIMIT, LeafError, pass_mark};
use mls_types::{GroupContext, RatchetTree};
use mls_view::Part;
use mls_wire::{Reader, WireError};

/// The number of the ratchet tree's extension (RFC 9420, 17.3).
const RATCHET_TREE_EXTENSION: u16 = 2;

/// What is looked at of a GroupInfo (RFC 9420, 12.4.3), lent from its bytes.
#[derive(Drop)]
pub struct GroupInfoView<'a> {
    /// The group context of the epoch.
    pub group_context: Part<'a, GroupContext>,
    /// The nodes of the ratchet tree, where there is one.
    pub ratchet_tree: Option<Part<'a, RatchetTree>>,
}

/// Lends the tree in the extensions of a group info.
#[tactic(auto, using(mls_leaf::proofs::Codecs::codecs), unfolding(mls_types::specs::GroupInfo::group_info_extensions))]
fn read_extensions<'a>(reader: &mut Reader<'a>) -> Result<Option<Part<'a, RatchetTree>>, LeafError>
    ensures { LendsView group_info_extensions ShowsTree reader.old result reader.new }
{
    let mut content = reader.vector()?;
    if content.is_empty() {
        return Ok(None);
    }
    pass_mark(
        &mut content,
        RATCHET_TREE_EXTENSION,
        LeafError::ExtensionNotAllowed,
    )?;
    let mut data = content.vector()?;
    let nodes = Part::<RatchetTree>::read(&mut data)?;
    data.finish()?;
    if content.is_empty() {
        return Ok(Some(nodes));
    }
    let _second = content.u16()?;
    Err(LeafError::ExtensionNotAllowed)
}

/// The group info at the front. It makes no value and takes no memory.
#[tactic(auto, using(mls_leaf::proofs::Codecs::codecs), unfolding(mls_types::specs::GroupInfo::group_info))]
fn read_group_info<'a>(reader: &mut Reader<'a>) -> Result<GroupInfoView<'a>, LeafError>
    ensures { LendsView group_info ShowsGroupInfo reader.old result reader.new }
{
    let group_context = Part::<GroupContext>::read(reader)?;
    let ratchet_tree = read_extensions(reader)?;
    let _confirmation_tag = reader.opaque()?;
    let _signer = reader.u32()?;
    let _signature = reader.opaque()?;
    Ok(GroupInfoView {
        group_context,
        ratchet_tree,
    })
}

impl<'a> GroupInfoView<'a> {
    /// The group info that all of the bytes spell, with the answers of `decode`. It takes no memory.
    #[tactic(auto, unfolding(mls_wire::specs::Whole::whole))]
    pub fn read(bytes: &'a [u8]) -> Result<GroupInfoView<'a>, LeafError>
        ensures { LendsWhole group_info input_limit ShowsGroupInfo bytes.now result }
    {
        if bytes.len() > INPUT_LIMIT {
            return Err(LeafError::Wire(WireError::TooLong));
        }
        let mut reader = Reader::new(bytes);
        let view = read_group_info(&mut reader)?;
        reader.finish()?;
        Ok(view)
    }
}
