//! Opening.

ghost use Rattle.mls_private_message.specs.PrivateMessage.{private_message};
ghost use Rattle.mls_exchange.specs.Opening.{arrival_checks, checks_of_place};
ghost use Rattle.mls_exchange.specs.Calls.{ChecksSignature, GivesData, LendsPlace, PassesOutright, OpensHere, Opens, RefusesArrival};

use crate::ExchangeError;
use crate::exchange::{Exchange, member_at, within_limit};
use crate::said::{Said, signed_text};
use mls_leaf::{Bytes, Codec, LeafError, LeafNode};
use mls_private_message::{
    PrivateMessage, ReadContent, open_content, open_sender_data, read_content,
};
use mls_secret_tree::{Draft, SecretTreeError};
use mls_suite::{Suite, verify_with_label};
use mls_wire::Reader;

/// What was opened of a message.
#[derive(Debug, PartialEq, Eq, Drop)]
pub struct Opened {
    /// The index of the sender's leaf.
    pub leaf_index: u32,
    /// The sender's identity, as its leaf has it.
    pub identity: Bytes,
    /// The generation of the sender's ratchet whose key was used.
    pub generation: u32,
    /// The application data.
    pub application_data: Bytes,
    /// What the sender added for the application, which wasn't encrypted.
    pub authenticated_data: Bytes,
}

/// The group's identifier and the epoch of a PrivateMessage (RFC 9420, 6.3), lent from its bytes, of which nothing else
/// is read. Takes no memory.
#[tactic(auto, unfolding(crate::specs::Opening::place_at))]
fn place_in(bytes: &[u8]) -> Result<(&[u8], u64), LeafError>
    ensures { LendsPlace bytes.now result }
{
    let mut reader = Reader::new(bytes);
    reader.u16()?;
    reader.u16()?;
    let group_id = reader.opaque()?;
    let epoch = reader.u64()?;
    Ok((group_id, epoch))
}

impl<S: Suite> Exchange<S> {
    /// `OtherGroup` (111) another group, `OtherEpoch` (112) another epoch (RFC 9420, 6). Takes no memory.
    #[tactic(auto, unfolding(crate::specs::Opening::checks_of_place))]
    pub(crate) fn check_place(&self, group_id: &[u8], epoch: u64) -> Result<(), ExchangeError>
        ensures { PassesOutright (checks_of_place self.now group_id.now epoch) result }
    {
        if group_id != self.parts.group_id.as_slice() {
            return Err(ExchangeError::OtherGroup);
        }
        if epoch != self.parts.epoch {
            return Err(ExchangeError::OtherEpoch);
        }
        Ok(())
    }

    /// The first fault of bytes that are no PrivateMessage with application data, then `OtherGroup` (111) a message of
    /// another group, `OtherEpoch` (112) of another epoch (RFC 9420, 6). Takes no memory.
    fn check_arrival(&self, bytes: &[u8]) -> Result<(), ExchangeError>
        ensures { PassesOutright (arrival_checks self.now bytes.now) result }
    {
        PrivateMessage::check_all(bytes)?;
        let (group_id, epoch) = place_in(bytes)?;
        self.check_place(group_id, epoch)
    }

    /// `BadMessageSignature` (119) where the signature of data doesn't verify by the sender's leaf (RFC 9420, 6.1).
    #[tactic(auto, unfolding(crate::specs::Opening::signature_check))]
    fn check_signature(
        &self,
        message: &PrivateMessage,
        sender: u32,
        leaf: &LeafNode,
        content: &ReadContent<'_>,
    ) -> Result<(), ExchangeError>
        ensures { ChecksSignature S.crypto self.now message.now sender leaf.now content.now result }
    {
        let said = Said {
            group_id: message.group_id.as_slice(),
            epoch: message.epoch,
            leaf: sender,
            authenticated_data: message.authenticated_data.as_slice(),
            application_data: content.application_data,
        };
        let text = signed_text(self.alloc, &said, &self.parts.context)?;
        let key = leaf.signature_key.as_slice();
        let signature = content.signature;
        if verify_with_label::<S>(self.alloc, key, "FramedContentTBS", &text, signature)? {
            Ok(())
        } else {
            Err(ExchangeError::BadMessageSignature)
        }
    }

    /// The data of a PrivateMessageContent: `TooLong` (6) where that is longer than an input may be, its first fault,
    /// `PaddingNotZero` (118), and the check of its signature (RFC 9420, 6.3.1).
    #[tactic(auto, unfolding(crate::specs::Opening::data_of))]
    fn data_of(
        &self,
        message: &PrivateMessage,
        sender: u32,
        leaf: &LeafNode,
        content: Vec<u8>,
    ) -> Result<Bytes, ExchangeError>
        ensures { GivesData S.crypto self.now message.now sender leaf.now content.items result }
    {
        let content = within_limit(content)?;
        let said = read_content(&content)?;
        self.check_signature(message, sender, leaf, &said)?;
        Ok(Bytes::from_slice(self.alloc, said.application_data)?)
    }

    /// What a message of the group and epoch says, and the draft of its key (RFC 9420, 6.3).
    fn open_here(&self, message: PrivateMessage) -> Result<(Opened, Draft), ExchangeError>
        requires { private_message.Fits message }
        ensures { OpensHere S.crypto self.now message result }
    {
        let secret = &self.parts.sender_data_secret;
        let sender = open_sender_data::<S>(self.alloc, secret, &message)?;
        let Some(leaf) = member_at(&self.parts.nodes, sender.leaf_index) else {
            return Err(ExchangeError::Key(SecretTreeError::SenderWithoutLeaf));
        };
        let keys = &self.parts.keys;
        let draft = keys.draft_key(self.alloc, sender.leaf_index, sender.generation)?;
        let content = open_content::<S>(self.alloc, draft.key(), sender.reuse_guard, &message)?;
        let application_data = self.data_of(&message, sender.leaf_index, leaf, content)?;
        let identity = leaf.credential.identity.clone()?;
        let PrivateMessage {
            authenticated_data,
            ..
        } = message;
        let opened = Opened {
            leaf_index: sender.leaf_index,
            identity,
            generation: sender.generation,
            application_data,
            authenticated_data,
        };
        Ok((opened, draft))
    }

    /// Opens a message of the epoch (RFC 9420, 6.3), whoever sent it; its key is gone afterwards. The first fault of
    /// bytes that are no PrivateMessage with application data; `OtherGroup` (111), `OtherEpoch` (112);
    /// `SenderDataUnreadable` (113) the sender data doesn't open, `SenderWithoutLeaf` (114) no member is at the sender's
    /// leaf, `GenerationTooFar` (115) its generation is too far ahead, `KeyUsed` (116) its key was used,
    /// `ContentUnreadable` (117) the content doesn't open; `TooLong` (6) the content or what is signed is longer than an
    /// input may be; the content's first fault, `PaddingNotZero` (118) its padding isn't zeros, `BadMessageSignature`
    /// (119) its signature doesn't verify. A refusal changes nothing.
    pub fn open(&mut self, bytes: &[u8]) -> Result<Opened, ExchangeError>
        ensures answer { Opens S.crypto bytes.now self.old self.new result }
        // Faults of the bytes, 111 and 112 come also when an allocation fails.
        ensures outright { RefusesArrival self.old bytes.now result }
    {
        self.check_arrival(bytes)?;
        let message = PrivateMessage::decode(self.alloc, bytes)?;
        let (opened, draft) = self.open_here(message)?;
        self.parts.keys.keep(draft);
        Ok(opened)
    }
}
