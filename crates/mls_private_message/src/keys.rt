//! The key of sender data and the nonce of a content (RFC 9420, 6.3.1 and 6.3.2). No call takes memory.

ghost use Rattle.std.specs.Prelude.{◌≡◌, ◌≤◌, length};
ghost use Rattle.mls_private_message.specs.Keys.{ciphertext_sample, sender_data_key, sender_data_nonce, guarded_nonce};

use mls_kdf::{HmacKey, Secret};
use mls_secret_tree::MessageKey;

/// The first 32 bytes of a ciphertext, or all of it.
#[tactic(auto, unfolding(crate::specs::Keys::ciphertext_sample))]
fn ciphertext_sample(ciphertext: &[u8]) -> &[u8]
    ensures sample { result.now ≡ ciphertext_sample ciphertext.now }
    ensures short { length result.now ≤ 32 }
{
    &ciphertext[..ciphertext.len().min(32)]
}

/// The key and the nonce of a message's sender data (RFC 9420, 6.3.2).
#[tactic(auto, unfolding(crate::specs::Keys::sender_data_key, crate::specs::Keys::sender_data_nonce))]
pub(crate) fn sender_data_key(sender_data_secret: &Secret, ciphertext: &[u8]) -> MessageKey
    ensures key { result.key ≡ sender_data_key sender_data_secret.now ciphertext.now }
    ensures nonce { result.nonce ≡ sender_data_nonce sender_data_secret.now ciphertext.now }
{
    let secret = HmacKey::new(sender_data_secret);
    let sample = ciphertext_sample(ciphertext);
    let mut key = [0; 16];
    secret.expand_with_label("key", sample, &mut key).unwrap();
    let mut nonce = [0; 12];
    secret
        .expand_with_label("nonce", sample, &mut nonce)
        .unwrap();
    MessageKey { key, nonce }
}

/// The nonce of a content: a ratchet's nonce, its first four bytes combined with the reuse guard (RFC 9420, 6.3.1).
pub(crate) fn guarded_nonce(nonce: &[u8; 12], reuse_guard: u32) -> [u8; 12]
    ensures { result ≡ guarded_nonce nonce.now reuse_guard }
{
    let guard = reuse_guard.to_be_bytes();
    let mut guarded = *nonce;
    for i in 0..4 {
        guarded[i] ^= guard[i];
    }
    guarded
}
