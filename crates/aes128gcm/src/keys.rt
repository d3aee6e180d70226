//! KEYEXPANSION (FIPS 197, 5.2), and keys in slices.

ghost use Rattle.std.specs.Prelude.{◌≡◌, ℕ, ◌++◌, [], ◌∷◌, map};
ghost use Rattle.aes128gcm.specs.Keys.{AreSlicedKeys};
ghost use Rattle.aes128gcm.specs.Aes.{xtimes, xor_with, sub_bytes, round_constant, temp, next_key, cipher};

use crate::blocks::{Block, encrypt_slices, load, store};
use crate::sbox::sub_bytes;
use crate::slices::Slices;
use std::marker::Model;

/// A word of four bytes.
type Word = [u8; 4];

/// XTIMES (FIPS 197, 4.2).
#[tactic(auto, unfolding(crate::specs::Aes::xtimes))]
fn xtimes(b: u8) -> u8
    ensures { result ≡ xtimes b }
{
    (b << 1) ^ ((b >> 7) * 0x1b)
}

/// SUBBYTES of one block (FIPS 197, 5.1.1).
fn sub_block(block: &Block) -> Block
    ensures { result ≡ sub_bytes block.now }
{
    let [first, _, _, _] = store(sub_bytes(load(block, block, block, block)));
    first
}

/// Four words, one after another.
fn concat_words(a: Word, b: Word, c: Word, d: Word) -> Block
    ensures { result ≡ a ++ b ++ c ++ d }
{
    let [a0, a1, a2, a3] = a;
    let [b0, b1, b2, b3] = b;
    let [c0, c1, c2, c3] = c;
    let [d0, d1, d2, d3] = d;
    [
        a0, a1, a2, a3, b0, b1, b2, b3, c0, c1, c2, c3, d0, d1, d2, d3,
    ]
}

/// Adds the bytes of `with` to the first of `bytes`.
pub(crate) fn xor_into(bytes: &mut [u8], with: &[u8])
    ensures { bytes.new ≡ xor_with bytes.old with.now }
{
    for i in 0..bytes.len().min(with.len()) {
        bytes[i] ^= with[i];
    }
}

/// The sum of two words.
fn xor_word(mut a: Word, b: &[u8]) -> Word
    ensures { result ≡ xor_with a b.now }
{
    xor_into(&mut a, b);
    a
}

/// The word `temp` behind a round key: SUBWORD of ROTWORD of its last, and Rcon (FIPS 197, 5.2).
fn temp(k: &Block, constant: u8) -> Word
    ensures { (i : ℕ) → constant ≡ round_constant i → result ≡ temp k.now i }
{
    let s = sub_block(k);
    [s[13] ^ constant, s[14], s[15], s[12]]
}

/// The next round key (FIPS 197, 5.2).
#[tactic(auto, unfolding(crate::specs::Aes::next_key))]
fn next_key(k: &Block, constant: u8) -> Block
    ensures { (i : ℕ) → constant ≡ round_constant i → result ≡ next_key k.now i }
{
    let first = xor_word(temp(k, constant), &k[..4]);
    let second = xor_word(first, &k[4..8]);
    let third = xor_word(second, &k[8..12]);
    let fourth = xor_word(third, &k[12..16]);
    concat_words(first, second, third, fourth)
}

/// KEYEXPANSION: the round keys in slices, each in all four blocks (FIPS 197, 5.2).
fn expand_key(key: &Block) -> [Slices; 11]
    ensures { AreSlicedKeys key.now result }
{
    let mut keys = [[0; 8]; 11];
    let mut k = *key;
    let mut constant = 1;
    for i in 0..10usize {
        keys[i] = load(&k, &k, &k, &k);
        k = next_key(&k, constant);
        constant = xtimes(constant);
    }
    keys[10] = load(&k, &k, &k, &k);
    keys
}

/// A key of AES-128, expanded: its round keys stand in slices.
#[derive(Drop)]
pub struct Aes128 {
    keys: [Slices; 11],
}

// It is seen as the key, which is the first round key.
impl Model for Aes128 {
    ghost use Rattle.std.specs.Prelude.{List, ℕ};
    ghost use Rattle.aes128gcm.specs.Keys.{AreSlicedKeys, key_of};

    ghost Value = { List ℕ };

    ghost view = { λ k. key_of k.keys };

    ghost invariant = { λ k. AreSlicedKeys (key_of k.keys) k.keys };
}

impl Aes128 {
    /// The key of these bytes (FIPS 197, 5.2).
    pub fn new(key: &[u8; 16]) -> Aes128
        ensures { result ≡ key.now }
    {
        Aes128 {
            keys: expand_key(key),
        }
    }

    /// CIPHER of four blocks (FIPS 197, 5.1).
    pub(crate) fn encrypt_four(
        &self,
        a: &[u8; 16],
        b: &[u8; 16],
        c: &[u8; 16],
        d: &[u8; 16],
    ) -> [[u8; 16]; 4]
        ensures { result ≡ map (cipher self.now) (a.now ∷ b.now ∷ c.now ∷ d.now ∷ []) }
    {
        store(encrypt_slices(&self.keys, load(a, b, c, d)))
    }

    /// CIPHER of one block (FIPS 197, 5.1).
    pub fn encrypt(&self, block: &[u8; 16]) -> [u8; 16]
        ensures { result ≡ cipher self.now block.now }
    {
        let [first, _, _, _] = self.encrypt_four(block, block, block, block);
        first
    }
}
