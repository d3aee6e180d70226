//! Sealing and opening the parts of a private message (RFC 9420, 6.3.1 and 6.3.2).

ghost use Rattle.mls_private_message.specs.PrivateMessage.{private_message};
ghost use Rattle.mls_private_message.specs.Calls.{SealsSenderData, OpensSenderData, SealsContent, OpensContent};

use crate::PrivateMessageError;
use crate::content::{private_content_aad, sender_data_aad};
use crate::keys::{guarded_nonce, sender_data_key};
use crate::private_message::PrivateMessage;
use crate::sender_data::{SenderData, read_sender_data, spell_sender_data};
use mls_kdf::Secret;
use mls_leaf::LeafError;
use mls_secret_tree::MessageKey;
use mls_suite::Suite;
use std::alloc::Global;

/// The sealed sender data of a message with this ciphertext (RFC 9420, 6.3.2). `TooLong` (6) where the group's identifier
/// has 2^30 bytes or more.
#[tactic(auto, unfolding(crate::specs::Sealing::seal_sender_data))]
pub fn seal_sender_data<S: Suite>(
    alloc: Global,
    sender_data_secret: &Secret,
    group_id: &[u8],
    epoch: u64,
    ciphertext: &[u8],
    sender_data: &SenderData,
) -> Result<Vec<u8>, LeafError>
    ensures { SealsSenderData S.crypto sender_data_secret.now group_id.now epoch
        ciphertext.now sender_data.now result }
{
    let aad = sender_data_aad(alloc, group_id, epoch)?;
    let text = spell_sender_data(alloc, sender_data)?;
    let key = sender_data_key(sender_data_secret, ciphertext);
    Ok(S::aead_seal(alloc, &key.key, &key.nonce, &aad, &text)?)
}

/// The sender data of a message (RFC 9420, 6.3.2): `SenderDataUnreadable` (113) where it doesn't open, or is none.
#[tactic(auto, unfolding(crate::specs::Sealing::open_sender_data))]
pub fn open_sender_data<S: Suite>(
    alloc: Global,
    sender_data_secret: &Secret,
    message: &PrivateMessage,
) -> Result<SenderData, PrivateMessageError>
    requires { private_message.Fits message.now }
    ensures { OpensSenderData S.crypto sender_data_secret.now message.now result }
{
    let group_id = message.group_id.as_slice();
    let aad = sender_data_aad(alloc, group_id, message.epoch)?;
    let key = sender_data_key(sender_data_secret, message.ciphertext.as_slice());
    let sealed = message.encrypted_sender_data.as_slice();
    let Some(text) = S::aead_open(alloc, &key.key, &key.nonce, &aad, sealed)? else {
        return Err(PrivateMessageError::SenderDataUnreadable);
    };
    match read_sender_data(&text) {
        Some(sender_data) => Ok(sender_data),
        None => Err(PrivateMessageError::SenderDataUnreadable),
    }
}

/// The ciphertext of a content under a message key and a reuse guard (RFC 9420, 6.3.1). `TooLong` (6) where the group's
/// identifier or the authenticated data has 2^30 bytes or more.
#[tactic(auto, unfolding(crate::specs::Sealing::seal_content))]
pub fn seal_content<S: Suite>(
    alloc: Global,
    key: &MessageKey,
    reuse_guard: u32,
    group_id: &[u8],
    epoch: u64,
    authenticated_data: &[u8],
    content: &[u8],
) -> Result<Vec<u8>, LeafError>
    ensures { SealsContent S.crypto key.now reuse_guard group_id.now epoch
        authenticated_data.now content.now result }
{
    let aad = private_content_aad(alloc, group_id, epoch, authenticated_data)?;
    let nonce = guarded_nonce(&key.nonce, reuse_guard);
    Ok(S::aead_seal(alloc, &key.key, &nonce, &aad, content)?)
}

/// The content of a message under a message key and a reuse guard (RFC 9420, 6.3.1): `ContentUnreadable` (117) where it
/// doesn't open.
#[tactic(auto, unfolding(crate::specs::Sealing::open_content))]
pub fn open_content<S: Suite>(
    alloc: Global,
    key: &MessageKey,
    reuse_guard: u32,
    message: &PrivateMessage,
) -> Result<Vec<u8>, PrivateMessageError>
    requires { private_message.Fits message.now }
    ensures { OpensContent S.crypto key.now reuse_guard message.now result }
{
    let group_id = message.group_id.as_slice();
    let authenticated_data = message.authenticated_data.as_slice();
    let aad = private_content_aad(alloc, group_id, message.epoch, authenticated_data)?;
    let nonce = guarded_nonce(&key.nonce, reuse_guard);
    match S::aead_open(alloc, &key.key, &nonce, &aad, message.ciphertext.as_slice())? {
        Some(content) => Ok(content),
        None => Err(PrivateMessageError::ContentUnreadable),
    }
}
