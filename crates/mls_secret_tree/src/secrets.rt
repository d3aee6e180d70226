//! The secrets of nodes and of ratchets (RFC 9420, 9 and 9.1), each made of the one before. No call takes memory.

ghost use Rattle.std.specs.Prelude.{◌≡◌, ◌<◌, ◌≤◌, ◌^◌, length};
ghost use Rattle.mls_kdf.specs.Kdf.{expand_with_label};
ghost use Rattle.mls_secret_tree.specs.Secrets.{child_secret, application_secret, message_key, next_ratchet_secret};

use mls_kdf::{HmacKey, Secret};

/// The key and the nonce of one generation.
#[derive(Clone, Copy, Debug, PartialEq, Eq)]
pub struct MessageKey {
    /// The key of the AEAD.
    pub key: [u8; 16],
    /// The nonce, before the reuse guard is applied.
    pub nonce: [u8; 12],
}

/// A secret made under a label and a context.
fn expand_secret(key: &HmacKey, label: &str, context: &[u8]) -> Secret
    requires label { length label.now ≤ 200 }
    requires context { length context.now < 2 ^ 30 }
    ensures { result ≡ expand_with_label key.now label.now context.now 32 }
{
    let mut out = [0; 32];
    key.expand_with_label(label, context, &mut out).unwrap();
    out
}

/// The secret of a child, from its parent's as a key (RFC 9420, 9).
#[tactic(auto, unfolding(crate::specs::Secrets::child_secret))]
pub(crate) fn child_secret(parent: &HmacKey, to_right: bool) -> Secret
    ensures { result ≡ child_secret to_right parent.now }
{
    if to_right {
        expand_secret(parent, "tree", b"right")
    } else {
        expand_secret(parent, "tree", b"left")
    }
}

/// The ratchet secret of a leaf's first generation, from the leaf's node secret (RFC 9420, 9).
#[tactic(auto, unfolding(crate::specs::Secrets::application_secret))]
pub(crate) fn application_secret(secret: &Secret) -> Secret
    ensures { result ≡ application_secret secret.now }
{
    expand_secret(&HmacKey::new(secret), "application", &[])
}

/// The key of a generation, from its ratchet secret (RFC 9420, 9.1).
#[tactic(auto, unfolding(crate::specs::Secrets::message_key, crate::specs::Secrets::derive_tree_secret))]
pub(crate) fn message_key(ratchet: &HmacKey, generation: u32) -> MessageKey
    ensures { result ≡ message_key ratchet.now generation }
{
    let context = generation.to_be_bytes();
    let mut key = [0; 16];
    ratchet
        .expand_with_label("key", &context, &mut key)
        .unwrap();
    let mut nonce = [0; 12];
    ratchet
        .expand_with_label("nonce", &context, &mut nonce)
        .unwrap();
    MessageKey { key, nonce }
}

/// The ratchet secret of the next generation, from that of this generation (RFC 9420, 9.1).
#[tactic(auto, unfolding(crate::specs::Secrets::next_ratchet_secret, crate::specs::Secrets::derive_tree_secret))]
pub(crate) fn next_ratchet_secret(ratchet: &HmacKey, generation: u32) -> Secret
    ensures { result ≡ next_ratchet_secret ratchet.now generation }
{
    expand_secret(ratchet, "secret", &generation.to_be_bytes())
}
