//! Hashes of pieces, and HMAC (RFC 2104).

ghost use Rattle.std.specs.Prelude.{◌≡◌, ℕ, ◌-◌, ◌<◌, ◌≤◌, [], ◌++◌, List, length, map, bit_xor, replicate};
ghost use Rattle.sha2.specs.Sha256.{sha256};
ghost use Rattle.mls_kdf.specs.Kdf.{joined_pieces, short_key, padded_key, hmac};
ghost use Rattle.mls_kdf.specs.Keyed.{IsKeyed, AddsText};

use crate::Secret;
use sha2::{Digest, Sha256};

/// The SHA-256 hash of the pieces, one after another.
pub fn hash(pieces: &[&[u8]]) -> Secret
    ensures { result ≡ sha256 (joined_pieces pieces.now) }
{
    let mut hasher = Sha256::new();
    for piece in pieces {
        hasher.update(*piece);
    }
    hasher.finalize()
}

/// A keyed hash (HMAC, RFC 2104) that takes its text piece by piece. The two blocks made of the key
/// are hashed once, when it is made, so that one copy for each text under a key costs nothing more.
#[derive(Drop)]
pub struct KeyedHash {
    inner: Sha256,
    outer: Sha256,
}

/// The key, or its hash where it is longer than a block, with zeros up to a block.
#[tactic(auto, unfolding(crate::specs::Kdf::short_key))]
fn key_block(key: &[u8]) -> [u8; 64]
    ensures { result ≡ short_key key.now ++ replicate (64 - length (short_key key.now)) 0 }
{
    let mut block = [0; 64];
    if key.len() > 64 {
        block[..32].copy_from_slice(&Sha256::digest(key));
    } else {
        block[..key.len()].copy_from_slice(key);
    }
    block
}

/// The block with each byte combined by exclusive or with the same byte.
fn xor_with_byte(mut block: [u8; 64], byte: u8) -> [u8; 64]
    ensures { result ≡ map (λ k. bit_xor k byte) block }
{
    for k in block.iter_mut() {
        *k ^= byte;
    }
    block
}

impl KeyedHash {
    /// A keyed hash of the empty text.
    pub fn new(key: &[u8]) -> KeyedHash
        ensures { IsKeyed result key.now [] }
    {
        let block = key_block(key);
        KeyedHash {
            inner: Sha256::new_with_prefix(xor_with_byte(block, 0x36)),
            outer: Sha256::new_with_prefix(xor_with_byte(block, 0x5c)),
        }
    }

    /// Adds a piece to the text.
    pub fn update(&mut self, piece: &[u8])
        ensures { AddsText self.old piece.now self.new }
    {
        self.inner.update(piece);
    }

    /// Adds the pieces to the text, one after another.
    pub fn update_all(&mut self, pieces: &[&[u8]])
        ensures { AddsText self.old (joined_pieces pieces.now) self.new }
    {
        for piece in pieces {
            self.update(*piece);
        }
    }

    /// The tag of the text.
    pub fn finish(self) -> Secret
        ensures { (key text : List ℕ) → IsKeyed self key text → result ≡ hmac key text }
    {
        let KeyedHash { inner, mut outer } = self;
        outer.update(inner.finalize());
        outer.finalize()
    }

    /// A second keyed hash, of the same text under the same key.
    pub fn copy(&self) -> KeyedHash
        ensures { result ≡ self.now }
    {
        KeyedHash {
            inner: self.inner.clone().unwrap(),
            outer: self.outer.clone().unwrap(),
        }
    }
}

/// The tag (HMAC, RFC 2104) of the pieces, one after another, under a key.
pub fn hmac(key: &[u8], pieces: &[&[u8]]) -> Secret
    ensures { result ≡ hmac key.now (joined_pieces pieces.now) }
{
    let mut keyed = KeyedHash::new(key);
    keyed.update_all(pieces);
    keyed.finish()
}
