//! Public messages, read past with the place of a fault.

ghost use Rattle.std.specs.Prelude.{◌≡◌, []};
ghost use Rattle.mls_leaf.specs.Faults.{number_of};
ghost use Rattle.mls_cli_place.specs.Message.{commit_walk, in_content, in_content_type, public_message_walk, sender_walk, signature_walk, signed_content_walk, signed_tail_walk, tag_walk};
ghost use Rattle.mls_cli_place.specs.MessageFinding.{public_message_finds, sender_finds, signed_content_finds};
ghost use Rattle.mls_cli_place.specs.Walk.{◌▷◌, Walks, field};

use crate::located::{Located, pass_field};
use crate::place::Found;
use crate::step::{LeafField, MessageField, Step};
use mls_leaf::{Bytes, LeafError, Proposal};
use mls_types::{Commit, PublicMessage, Sender, SignedContent};
use mls_wire::Reader;

impl Located for Sender {
    ghost walk = { sender_walk };

    ghost finds = { sender_finds };

    #[tactic(auto, unfolding(crate::specs::Message::sender_walk))]
    fn locate(reader: &mut Reader<'_>) -> Result<(), Found> {
        let step = Step::Message(MessageField::SenderType);
        let left = reader.rest().len();
        match reader.u8() {
            Ok(1) => pass_field::<u32>(reader, Step::Message(MessageField::LeafIndex)),
            Ok(_) => Err(Found::at(left, LeafError::BadTag).inside(step)),
            Err(error) => Err(Found::at(left, LeafError::Wire(error)).inside(step)),
        }
    }
}

/// Reads past a field of the content.
fn pass_in_content<T: Located>(reader: &mut Reader<'_>, name: MessageField) -> Result<(), Found>
    ensures { Walks (in_content (field (Step.Message name) T.walk)) reader.old result reader.new }
{
    match pass_field::<T>(reader, Step::Message(name)) {
        Ok(()) => Ok(()),
        Err(found) => Err(found.inside(Step::Message(MessageField::Content))),
    }
}

/// Reads past the signature.
fn pass_signature(reader: &mut Reader<'_>) -> Result<(), Found>
    ensures { Walks signature_walk reader.old result reader.new }
{
    match pass_field::<Bytes>(reader, Step::Leaf(LeafField::Signature)) {
        Ok(()) => Ok(()),
        Err(found) => Err(found.inside(Step::Message(MessageField::Auth))),
    }
}

/// Reads past the confirmation tag.
fn pass_tag(reader: &mut Reader<'_>) -> Result<(), Found>
    ensures { Walks tag_walk reader.old result reader.new }
{
    match pass_field::<Bytes>(reader, Step::Message(MessageField::ConfirmationTag)) {
        Ok(()) => Ok(()),
        Err(found) => Err(found.inside(Step::Message(MessageField::Auth))),
    }
}

/// Reads past a content and its signature.
fn pass_signed<T: Located>(reader: &mut Reader<'_>, name: MessageField) -> Result<(), Found>
    ensures { Walks (in_content (field (Step.Message name) T.walk) ▷ signature_walk)
        reader.old result reader.new }
{
    pass_in_content::<T>(reader, name)?;
    pass_signature(reader)
}

/// Reads past a commit, its signature and its confirmation tag.
fn pass_commit(reader: &mut Reader<'_>) -> Result<(), Found>
    ensures { Walks (in_content (field (Step.Message MessageField.Commit) commit_walk)
        ▷ signature_walk ▷ tag_walk) reader.old result reader.new }
{
    pass_in_content::<Commit>(reader, MessageField::Commit)?;
    pass_signature(reader)?;
    pass_tag(reader)
}

/// Reads past all from the content's type on.
#[tactic(auto, unfolding(crate::specs::Message::signed_tail_walk))]
fn pass_tail(reader: &mut Reader<'_>) -> Result<(), Found>
    ensures { Walks signed_tail_walk reader.old result reader.new }
{
    let left = reader.rest().len();
    match reader.u8() {
        Ok(1) => pass_signed::<Bytes>(reader, MessageField::ApplicationData),
        Ok(2) => pass_signed::<Proposal>(reader, MessageField::Proposal),
        Ok(3) => pass_commit(reader),
        Ok(_) => Err(unknown_content(left, LeafError::BadTag)),
        Err(error) => Err(unknown_content(left, LeafError::Wire(error))),
    }
}

/// A fault of the content's type, where so many bytes are left.
fn unknown_content(left: usize, error: LeafError) -> Found
    ensures { result
        ≡ in_content_type (record { left = left; path = []; fault = number_of error }) }
{
    let found = Found::at(left, error).inside(Step::Message(MessageField::ContentType));
    found.inside(Step::Message(MessageField::Content))
}

impl Located for SignedContent {
    ghost walk = { signed_content_walk };

    ghost finds = { signed_content_finds };

    #[tactic(auto, unfolding(crate::specs::Message::signed_content_walk))]
    fn locate(reader: &mut Reader<'_>) -> Result<(), Found> {
        pass_in_content::<Bytes>(reader, MessageField::GroupId)?;
        pass_in_content::<u64>(reader, MessageField::Epoch)?;
        pass_in_content::<Sender>(reader, MessageField::Sender)?;
        pass_in_content::<Bytes>(reader, MessageField::AuthenticatedData)?;
        pass_tail(reader)
    }
}

impl Located for PublicMessage {
    ghost walk = { public_message_walk };

    ghost finds = { public_message_finds };

    #[tactic(auto, unfolding(crate::specs::Message::public_message_walk))]
    fn locate(reader: &mut Reader<'_>) -> Result<(), Found> {
        SignedContent::locate(reader)?;
        pass_field::<Bytes>(reader, Step::Message(MessageField::MembershipTag))
    }
}
