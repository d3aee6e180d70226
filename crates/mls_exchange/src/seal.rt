//! Sealing.

ghost use Rattle.std.specs.Prelude.{◌≡◌, ◌<◌, ◌^◌};
ghost use Rattle.mls_exchange.specs.Sealing.{are_short, reuse_guard};
ghost use Rattle.mls_exchange.specs.Calls.{GivesGeneration, Signs, GivesContent, GivesMessage, Seals, RefusesSealing};

use crate::ExchangeError;
use crate::exchange::{Exchange, TOO_LONG, within_limit};
use crate::said::{Said, signed_text};
use mls_kdf::{Seed, expand_with_label};
use mls_leaf::{Bytes, Codec, INPUT_LIMIT};
use mls_private_message::{
    PrivateMessage, SenderData, seal_content, seal_sender_data, write_content,
};
use mls_secret_tree::MessageKey;
use mls_suite::{Suite, sign_with_label};

/// What is to be sealed, lent.
#[derive(Clone, Copy)]
struct Plain<'a> {
    application_data: &'a [u8],
    // It is authenticated, and not encrypted.
    authenticated_data: &'a [u8],
    // How many bytes of padding.
    padding: usize,
}

/// The reuse guard of a call's seed (RFC 9420, 6.3.1). Takes no memory.
#[tactic(auto, unfolding(crate::specs::Sealing::reuse_guard))]
fn reuse_guard(seed: &Seed) -> u32
    ensures { result ≡ reuse_guard seed.now }
{
    let mut guard = [0; 4];
    expand_with_label(seed, "seed guard", &[], &mut guard).unwrap();
    u32::from_be_bytes(guard)
}

/// Whether none of data, authenticated data and padding is longer than an input may be.
#[tactic(auto, unfolding(crate::specs::Sealing::are_short))]
fn are_short(application_data: &[u8], authenticated_data: &[u8], padding: usize) -> bool
    ensures { result ≡ are_short application_data.now authenticated_data.now padding }
{
    application_data.len() <= INPUT_LIMIT
        && authenticated_data.len() <= INPUT_LIMIT
        && padding <= INPUT_LIMIT
}

/// A law: a number of 64 bits.
fn know_epoch(epoch: u64)
    ensures { epoch < 2 ^ 64 }
{}

impl<S: Suite> Exchange<S> {
    /// The generation that the next message takes: `RatchetSpent` (110) after the last, `TooLong` (6) an argument is longer
    /// than an input may be. Takes no memory.
    #[tactic(auto, unfolding(crate::specs::Sealing::sealing_checks))]
    fn next_generation(&self, plain: &Plain<'_>) -> Result<u32, ExchangeError>
        ensures { GivesGeneration self.now plain.now result }
    {
        let Some(generation) = self.parts.keys.next_generation(self.parts.leaf) else {
            return Err(ExchangeError::RatchetSpent);
        };
        if !are_short(
            plain.application_data,
            plain.authenticated_data,
            plain.padding,
        ) {
            return Err(TOO_LONG);
        }
        Ok(generation)
    }

    /// The own signature of data and authenticated data (RFC 9420, 6.1).
    fn sign(&self, plain: &Plain<'_>) -> Result<Vec<u8>, ExchangeError>
        ensures { Signs S.crypto self.now plain.now result }
    {
        let said = Said {
            group_id: self.parts.group_id.as_slice(),
            epoch: self.parts.epoch,
            leaf: self.parts.leaf,
            authenticated_data: plain.authenticated_data,
            application_data: plain.application_data,
        };
        let text = signed_text(self.alloc, &said, &self.parts.context)?;
        let key = &self.parts.signing;
        Ok(sign_with_label::<S>(self.alloc, key, "FramedContentTBS", &text)?)
    }

    /// The PrivateMessageContent of data, with the own signature and padding (RFC 9420, 6.3.1): `TooLong` (6) where it is
    /// longer than an input may be.
    fn content(&self, plain: &Plain<'_>) -> Result<Vec<u8>, ExchangeError>
        ensures { GivesContent S.crypto self.now plain.now result }
    {
        let signature = self.sign(plain)?;
        let content = write_content(
            self.alloc,
            plain.application_data,
            &signature,
            plain.padding,
        )?;
        within_limit(content)
    }

    /// The message of a content under a key (RFC 9420, 6.3): `TooLong` (6) where it is longer than an input may be.
    fn message(
        &self,
        key: &MessageKey,
        sender: &SenderData,
        plain: &Plain<'_>,
        content: &[u8],
    ) -> Result<Vec<u8>, ExchangeError>
        ensures { GivesMessage S.crypto self.now key.now sender.now plain.now content.now result }
    {
        let authenticated_data = plain.authenticated_data;
        let group_id = self.parts.group_id.as_slice();
        let epoch = self.parts.epoch;
        know_epoch(epoch);
        let guard = sender.reuse_guard;
        let secret = &self.parts.sender_data_secret;
        let ciphertext = seal_content::<S>(
            self.alloc,
            key,
            guard,
            group_id,
            epoch,
            authenticated_data,
            content,
        )?;
        let encrypted_sender_data = seal_sender_data::<S>(
            self.alloc,
            secret,
            group_id,
            epoch,
            &ciphertext,
            sender,
        )?;
        let message = PrivateMessage {
            group_id: self.parts.group_id.clone()?,
            epoch,
            authenticated_data: Bytes::from_slice(self.alloc, authenticated_data)?,
            encrypted_sender_data: Bytes::from_vec(encrypted_sender_data),
            ciphertext: Bytes::from_vec(ciphertext),
        };
        within_limit(message.encode(self.alloc)?)
    }

    /// Seals application data, with authenticated data that isn't encrypted and so many bytes of padding, under the key of
    /// the member's next generation (RFC 9420, 6.3 and 9.1), which is gone afterwards. The seed gives the reuse guard.
    /// `RatchetSpent` (110) after the last generation, `TooLong` (6) where an argument, what is signed, the content or the
    /// message is longer than an input may be. A refusal changes nothing.
    pub fn seal(
        &mut self,
        application_data: &[u8],
        authenticated_data: &[u8],
        padding: usize,
        seed: &Seed,
    ) -> Result<Vec<u8>, ExchangeError>
        ensures answer { Seals S.crypto application_data.now authenticated_data.now padding seed.now
            self.old self.new result }
        // 110, and 6 of the arguments, come also when an allocation fails.
        ensures outright { RefusesSealing self.old application_data.now authenticated_data.now
            padding result }
    {
        let plain = Plain {
            application_data,
            authenticated_data,
            padding,
        };
        let generation = self.next_generation(&plain)?;
        let draft = self
            .parts
            .keys
            .draft_key(self.alloc, self.parts.leaf, generation)?;
        let content = self.content(&plain)?;
        let sender = SenderData {
            leaf_index: self.parts.leaf,
            generation,
            reuse_guard: reuse_guard(seed),
        };
        let message = self.message(draft.key(), &sender, &plain, &content)?;
        self.parts.keys.keep(draft);
        Ok(message)
    }
}
