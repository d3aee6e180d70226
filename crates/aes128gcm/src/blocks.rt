//! Four blocks in slices, and the rounds on them.

ghost use Rattle.std.specs.Prelude.{◌≡◌, ℕ, ◌<◌, List, [], slice_index_or};
ghost use Rattle.aes128gcm.specs.Aes.{add_round_key, full_round, last_round};
ghost use Rattle.aes128gcm.specs.Lanes.{Holds, IsEvenWord, IsOddWord, MapsBlocks};
ghost use Rattle.aes128gcm.specs.Keys.{EncryptsBlocks};

use crate::sbox::sub_bytes;
use crate::slices::{Slices, add_slices, mix_columns, shift_rows, transpose};

/// A block.
pub(crate) type Block = [u8; 16];

/// The bytes of columns 0 and 2 in turn.
#[inline(always)]
fn even_word(s: &Block) -> u64
    ensures { IsEvenWord result s.now }
{
    u64::from_le_bytes([s[0], s[8], s[1], s[9], s[2], s[10], s[3], s[11]])
}

/// The bytes of columns 1 and 3 in turn.
#[inline(always)]
fn odd_word(s: &Block) -> u64
    ensures { IsOddWord result s.now }
{
    u64::from_le_bytes([s[4], s[12], s[5], s[13], s[6], s[14], s[7], s[15]])
}

/// Four blocks in slices.
pub(crate) fn load(a: &Block, b: &Block, c: &Block, d: &Block) -> Slices
    ensures first { Holds result 0 a.now }
    ensures second { Holds result 1 b.now }
    ensures third { Holds result 2 c.now }
    ensures fourth { Holds result 3 d.now }
{
    transpose([
        even_word(a),
        even_word(b),
        even_word(c),
        even_word(d),
        odd_word(a),
        odd_word(b),
        odd_word(c),
        odd_word(d),
    ])
}

/// The block of two words.
#[inline(always)]
fn block_of(even: u64, odd: u64) -> Block
    ensures even { IsEvenWord even result }
    ensures odd { IsOddWord odd result }
{
    let [a, b, c, d, e, f, g, h] = even.to_le_bytes();
    let [i, j, k, l, m, n, o, p] = odd.to_le_bytes();
    [a, c, e, g, i, k, m, o, b, d, f, h, j, l, n, p]
}

/// The four blocks that slices hold.
pub(crate) fn store(q: Slices) -> [Block; 4]
    ensures { (b : ℕ) (s : List ℕ) → b < 4 → Holds q b s → slice_index_or result b [] ≡ s }
{
    let [a, b, c, d, e, f, g, h] = transpose(q);
    [
        block_of(a, e),
        block_of(b, f),
        block_of(c, g),
        block_of(d, h),
    ]
}

/// The first ADDROUNDKEY in each block (FIPS 197, 5.1).
#[inline(always)]
fn first_round(q: &Slices, k: &Slices) -> Slices
    ensures { MapsBlocks add_round_key q.now k.now result }
{
    add_slices(*q, *k)
}

/// A round but the last in each block (FIPS 197, 5.1).
#[inline(always)]
fn full_round(q: &Slices, k: &Slices) -> Slices
    ensures { MapsBlocks full_round q.now k.now result }
{
    add_slices(mix_columns(shift_rows(sub_bytes(*q))), *k)
}

/// The last round in each block (FIPS 197, 5.1).
#[inline(always)]
fn last_round(q: &Slices, k: &Slices) -> Slices
    ensures { MapsBlocks last_round q.now k.now result }
{
    add_slices(shift_rows(sub_bytes(*q)), *k)
}

/// CIPHER in each block (FIPS 197, 5.1).
pub(crate) fn encrypt_slices(keys: &[Slices; 11], block: Slices) -> Slices
    ensures { EncryptsBlocks keys.now block result }
{
    let mut q = first_round(&block, &keys[0]);
    for i in 1..10usize {
        q = full_round(&q, &keys[i]);
    }
    last_round(&q, &keys[10])
}
