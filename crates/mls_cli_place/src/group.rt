//! Group infos and Welcomes, read past with the place of a fault.

ghost use Rattle.mls_cli_place.specs.Group.{ended, group_context_walk, group_info_extensions_walk, group_info_walk, no_second, tree_data, tree_extension_walk, tree_extensions};
ghost use Rattle.mls_cli_place.specs.GroupFinding.{group_context_finds, group_info_finds};
ghost use Rattle.mls_cli_place.specs.Message.{encrypted_group_secrets_walk, welcome_walk};
ghost use Rattle.mls_cli_place.specs.MessageFinding.{encrypted_group_secrets_finds, welcome_finds};
ghost use Rattle.mls_cli_place.specs.Walk.{Walks, WalksAll, enclosed, field};

use crate::located::{Located, pass_field, pass_mark_field};
use crate::place::Found;
use crate::step::{GroupField, LeafField, MessageField, Step};
use crate::vectors::content_of;
use mls_leaf::{Bytes, GroupExtensions, Items, LeafError};
use mls_types::{
    EncryptedGroupSecrets, GroupContext, GroupInfo, HpkeCiphertext, RatchetTree, Welcome,
};
use mls_wire::{Reader, WireError};

/// Nothing is left, or `Trailing` (3) is answered.
fn require_end(reader: &Reader<'_>) -> Result<(), Found>
    ensures { WalksAll (ended reader.now) result }
{
    let left = reader.rest().len();
    if left == 0 {
        return Ok(());
    }
    Err(Found::at(left, LeafError::Wire(WireError::Trailing)))
}

/// Reads past the data of the ratchet tree's extension.
fn pass_tree_data(mut content: Reader<'_>) -> Result<(), Found>
    ensures { WalksAll (tree_data content.entry) result }
{
    pass_field::<RatchetTree>(&mut content, Step::Group(GroupField::RatchetTree))?;
    require_end(&content)
}

/// Reads past the data of the ratchet tree's extension, behind their header.
fn pass_enclosed_tree(reader: &mut Reader<'_>) -> Result<(), Found>
    ensures { Walks (enclosed tree_data) reader.old result reader.new }
{
    let (content, behind) = content_of(reader)?;
    match pass_tree_data(content) {
        Ok(()) => Ok(()),
        Err(found) => Err(found.before(behind)),
    }
}

/// Reads past the ratchet tree's extension.
#[tactic(auto, unfolding(crate::specs::Group::tree_extension_walk))]
fn pass_tree_extension(reader: &mut Reader<'_>) -> Result<(), Found>
    ensures { Walks tree_extension_walk reader.old result reader.new }
{
    let step = Step::Group(GroupField::ExtensionType);
    pass_mark_field(reader, step, 2, LeafError::ExtensionNotAllowed)?;
    match pass_enclosed_tree(reader) {
        Ok(()) => Ok(()),
        Err(found) => Err(found.inside(Step::Group(GroupField::ExtensionData))),
    }
}

/// Nothing is left, or the fault of a second extension is answered.
fn require_no_second(mut reader: Reader<'_>) -> Result<(), Found>
    ensures { WalksAll (no_second reader.entry) result }
{
    let left = reader.rest().len();
    if left == 0 {
        return Ok(());
    }
    let error = match reader.u16() {
        Ok(_) => LeafError::ExtensionNotAllowed,
        Err(error) => LeafError::Wire(error),
    };
    let found = Found::at(left, error).inside(Step::Group(GroupField::ExtensionType));
    Err(found.inside(Step::Item(1)))
}

/// Reads past the extensions of a group info to the end of their list.
fn pass_tree_extensions(mut content: Reader<'_>) -> Result<(), Found>
    ensures { WalksAll (tree_extensions content.entry) result }
{
    if content.rest().is_empty() {
        return Ok(());
    }
    match pass_tree_extension(&mut content) {
        Ok(()) => require_no_second(content),
        Err(found) => Err(found.inside(Step::Item(0))),
    }
}

/// Reads past the extensions of a group info.
#[tactic(auto, unfolding(crate::specs::Group::group_info_extensions_walk))]
fn pass_info_extensions(reader: &mut Reader<'_>) -> Result<(), Found>
    ensures { Walks group_info_extensions_walk reader.old result reader.new }
{
    let (content, behind) = content_of(reader)?;
    match pass_tree_extensions(content) {
        Ok(()) => Ok(()),
        Err(found) => Err(found.before(behind)),
    }
}

impl Located for GroupContext {
    ghost walk = { group_context_walk };

    ghost finds = { group_context_finds };

    #[tactic(auto, unfolding(crate::specs::Group::group_context_walk))]
    fn locate(reader: &mut Reader<'_>) -> Result<(), Found> {
        pass_mark_field(reader, Step::Leaf(LeafField::Version), 1, LeafError::BadTag)?;
        pass_field::<u16>(reader, Step::Leaf(LeafField::CipherSuite))?;
        pass_field::<Bytes>(reader, Step::Message(MessageField::GroupId))?;
        pass_field::<u64>(reader, Step::Message(MessageField::Epoch))?;
        pass_field::<Bytes>(reader, Step::Group(GroupField::TreeHash))?;
        let step = Step::Group(GroupField::ConfirmedTranscriptHash);
        pass_field::<Bytes>(reader, step)?;
        pass_field::<GroupExtensions>(reader, Step::Leaf(LeafField::Extensions))
    }
}

/// Reads past the extensions of a group info as a field.
fn pass_extensions_field(reader: &mut Reader<'_>) -> Result<(), Found>
    ensures { Walks (field (Step.Leaf LeafField.Extensions) group_info_extensions_walk)
        reader.old result reader.new }
{
    match pass_info_extensions(reader) {
        Ok(()) => Ok(()),
        Err(found) => Err(found.inside(Step::Leaf(LeafField::Extensions))),
    }
}

impl Located for GroupInfo {
    ghost walk = { group_info_walk };

    ghost finds = { group_info_finds };

    #[tactic(auto, unfolding(crate::specs::Group::group_info_walk))]
    fn locate(reader: &mut Reader<'_>) -> Result<(), Found> {
        pass_field::<GroupContext>(reader, Step::Group(GroupField::GroupContext))?;
        pass_extensions_field(reader)?;
        pass_field::<Bytes>(reader, Step::Message(MessageField::ConfirmationTag))?;
        pass_field::<u32>(reader, Step::Group(GroupField::Signer))?;
        pass_field::<Bytes>(reader, Step::Leaf(LeafField::Signature))
    }
}

impl Located for EncryptedGroupSecrets {
    ghost walk = { encrypted_group_secrets_walk };

    ghost finds = { encrypted_group_secrets_finds };

    #[tactic(auto, unfolding(crate::specs::Message::encrypted_group_secrets_walk))]
    fn locate(reader: &mut Reader<'_>) -> Result<(), Found> {
        pass_field::<Bytes>(reader, Step::Group(GroupField::NewMember))?;
        let step = Step::Group(GroupField::EncryptedGroupSecrets);
        pass_field::<HpkeCiphertext>(reader, step)
    }
}

impl Located for Welcome {
    ghost walk = { welcome_walk };

    ghost finds = { welcome_finds };

    #[tactic(auto, unfolding(crate::specs::Message::welcome_walk))]
    fn locate(reader: &mut Reader<'_>) -> Result<(), Found> {
        pass_field::<u16>(reader, Step::Leaf(LeafField::CipherSuite))?;
        pass_field::<Items<EncryptedGroupSecrets>>(reader, Step::Group(GroupField::Secrets))?;
        pass_field::<Bytes>(reader, Step::Group(GroupField::EncryptedGroupInfo))
    }
}
