//! The product of blocks by a fixed one (SP 800-38D, 6.3), with a table of its multiples that is
//! read whole, so no index and no branch depends on a block.

ghost use Rattle.std.specs.Prelude.{◌≡◌, ◌/◌, ◌^◌, ◌%◌, length};
ghost use Rattle.aes128gcm.specs.Gcm.{times_x, product};
ghost use Rattle.aes128gcm.specs.Parts.{AreCopies};

use std::marker::Model;

/// The products of a block with the powers of x, each in two words.
#[derive(Drop)]
pub(crate) struct GhashKey {
    high: [u64; 128],
    low: [u64; 128],
}

// It is seen as the block, which is the first product.
impl Model for GhashKey {
    ghost use Rattle.std.specs.Prelude.{ℕ};
    ghost use Rattle.aes128gcm.specs.Parts.{entry, AreMultiples};

    ghost Value = { ℕ };

    ghost view = { λ k. entry k.high k.low 0 };

    ghost invariant = { λ k. AreMultiples k.high k.low };
}

/// The product with x (SP 800-38D, 6.3).
#[tactic(auto, unfolding(crate::specs::Gcm::times_x))]
fn times_x(v: u128) -> u128
    ensures { result ≡ times_x v }
{
    (v >> 1) ^ ((v % 2) * 0xe1000000000000000000000000000000)
}

#[inline(always)]
fn high_word(x: u128) -> u64
    ensures { result ≡ x / 2 ^ 64 }
{
    (x >> 64) as u64
}

#[inline(always)]
fn low_word(x: u128) -> u64
    ensures { result ≡ x % 2 ^ 64 }
{
    (x % (1 << 64)) as u64
}

/// Writes each bit of a block, from the highest on, as 64 copies of itself. It stays a call: so whoever
/// reads the words has no condition from which the compiler could make a branch.
#[inline(never)]
fn spread(x: u128, copies: &mut [u64; 128])
    ensures bits { AreCopies x copies.new }
    ensures count { length copies.new ≡ 128 }
{
    let mut top = high_word(x);
    for i in 0..64usize {
        copies[i] = 0u64.wrapping_sub(top >> 63);
        top <<= 1;
    }
    let mut bottom = low_word(x);
    for j in 0..64usize {
        copies[64 + j] = 0u64.wrapping_sub(bottom >> 63);
        bottom <<= 1;
    }
}

impl GhashKey {
    /// The table of a block (SP 800-38D, 6.3).
    pub(crate) fn new(block: u128) -> GhashKey
        ensures { result ≡ block }
    {
        let mut high = [0; 128];
        let mut low = [0; 128];
        let mut v = block;
        for i in 0..128usize {
            high[i] = high_word(v);
            low[i] = low_word(v);
            v = times_x(v);
        }
        GhashKey { high, low }
    }

    /// The product of a block with the table's, with room for the copies of its bits (SP 800-38D, 6.3).
    pub(crate) fn multiply(&self, x: u128, copies: &mut [u64; 128]) -> u128
        ensures product { result ≡ product x self.now }
        ensures count { length copies.new ≡ 128 }
    {
        spread(x, copies);
        let mut high = 0;
        let mut low = 0;
        for i in 0..128usize {
            high ^= copies[i] & self.high[i];
            low ^= copies[i] & self.low[i];
        }
        (high as u128) << 64 | low as u128
    }
}
