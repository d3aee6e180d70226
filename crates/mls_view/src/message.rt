//! Views of whole messages (RFC 9420, 6).

ghost use Rattle.std.specs.Prelude.{◌≡◌, ◌≢◌, MatchResult};
ghost use Rattle.mls_leaf.specs.Limits.{input_limit};
ghost use Rattle.mls_leaf.specs.Faults.{number_of};
ghost use Rattle.mls_types.specs.Message.{mls_message};
ghost use Rattle.mls_view.specs.Views.{LendsView, LendsWhole, OwnsShown};
ghost use Rattle.mls_view.specs.Shown.{Shows};

use crate::part::Part;
use crate::public_message::{PublicMessageView, read_public_message};
use crate::welcome::{WelcomeView, read_welcome};
use mls_leaf::{INPUT_LIMIT, KeyPackage, LeafError, pass_mark};
use mls_types::{GroupInfo, MlsMessage};
use mls_wire::{Reader, WireError};
use std::alloc::Global;

/// A message as it is sent (RFC 9420, 6), lent from its bytes.
#[derive(Drop)]
pub enum MessageView<'a> {
    /// A content from a member, signed and not encrypted.
    PublicMessage(PublicMessageView<'a>),
    /// A welcome to new members.
    Welcome(WelcomeView<'a>),
    /// What a new member needs to know of the group.
    GroupInfo(Part<'a, GroupInfo>),
    /// A new member's key package.
    KeyPackage(Part<'a, KeyPackage>),
}

/// The message at the front. It makes no value and takes no memory.
#[tactic(auto, using(mls_leaf::proofs::Codecs::codecs), unfolding(mls_types::specs::Message::mls_message))]
fn read_message<'a>(reader: &mut Reader<'a>) -> Result<MessageView<'a>, LeafError>
    ensures { LendsView mls_message Shows reader.old result reader.new }
{
    pass_mark(reader, 1, LeafError::BadTag)?;
    match reader.u16()? {
        1 => {
            let message = read_public_message(reader)?;
            Ok(MessageView::PublicMessage(message))
        }
        3 => {
            let welcome = read_welcome(reader)?;
            Ok(MessageView::Welcome(welcome))
        }
        4 => {
            let group_info = Part::<GroupInfo>::read(reader)?;
            Ok(MessageView::GroupInfo(group_info))
        }
        5 => {
            let key_package = Part::<KeyPackage>::read(reader)?;
            Ok(MessageView::KeyPackage(key_package))
        }
        _ => Err(LeafError::BadTag),
    }
}

#[tactic(auto, unfolding(mls_wire::specs::Whole::whole))]
fn read_whole<'a>(bytes: &'a [u8]) -> Result<MessageView<'a>, LeafError>
    ensures { LendsWhole mls_message input_limit Shows bytes.now result }
{
    if bytes.len() > INPUT_LIMIT {
        return Err(LeafError::Wire(WireError::TooLong));
    }
    let mut reader = Reader::new(bytes);
    let message = read_message(&mut reader)?;
    reader.finish()?;
    Ok(message)
}

impl<'a> MessageView<'a> {
    /// The message that all of the bytes spell, with the answers of `decode`. It takes no memory, and never
    /// answers `OutOfMemory` (1).
    pub fn read(bytes: &'a [u8]) -> Result<MessageView<'a>, LeafError>
        ensures read { LendsWhole mls_message input_limit Shows bytes.now result }
        ensures no_memory { MatchResult result (λ _. Unit {0}) (λ e. number_of e ≢ 1) }
    {
        read_whole(bytes)
    }

    /// The message itself, as `decode` gives it, or want of memory.
    pub fn to_owned(&self, alloc: Global) -> Result<MlsMessage, LeafError>
        ensures { OwnsShown Shows self.now result }
    {
        match self {
            MessageView::PublicMessage(message) => {
                let message = message.to_owned(alloc)?;
                Ok(MlsMessage::PublicMessage(message))
            }
            MessageView::Welcome(welcome) => {
                let welcome = welcome.to_owned(alloc)?;
                Ok(MlsMessage::Welcome(welcome))
            }
            MessageView::GroupInfo(group_info) => {
                let group_info = group_info.to_owned(alloc)?;
                Ok(MlsMessage::GroupInfo(group_info))
            }
            MessageView::KeyPackage(key_package) => {
                let key_package = key_package.to_owned(alloc)?;
                Ok(MlsMessage::KeyPackage(key_package))
            }
        }
    }
}
