//! Slices: eight words, of which word k has bit k of each of 64 bytes.
//! The byte of row r, column c and block b is at bit 16r + 4c + b.

ghost use Rattle.std.specs.Prelude.{◌≡◌, ℕ, ◌+◌, ◌*◌, ◌%◌, ◌/◌, ◌<◌, bit_xor};
ghost use Rattle.aes128gcm.specs.Aes.{xtimes};
ghost use Rattle.aes128gcm.specs.Lanes.{lane, IsTransposed, MixesRows};
ghost use Rattle.aes128gcm.specs.Nets.{rotate_16, rotate_32, shift_rows_word, transpose_words};

/// Eight words in slices.
pub(crate) type Slices = [u64; 8];

/// The bits moved down by 16 places, around the word.
#[inline(always)]
#[tactic(auto, unfolding(crate::specs::Nets::rotate_16, crate::specs::Nets::rotation_16, crate::specs::Nets::masked, crate::specs::Nets::up, crate::specs::Nets::down))]
fn rotate_16(x: u64) -> u64
    ensures { result ≡ rotate_16 x }
{
    ((x & 0xffffffffffff0000) >> 16) | ((x & 0xffff) << 48)
}

#[inline(always)]
#[tactic(auto, unfolding(crate::specs::Nets::rotate_32, crate::specs::Nets::rotation_32, crate::specs::Nets::masked, crate::specs::Nets::up, crate::specs::Nets::down))]
fn rotate_32(x: u64) -> u64
    ensures { result ≡ rotate_32 x }
{
    ((x & 0xffffffff00000000) >> 32) | ((x & 0xffffffff) << 32)
}

#[inline(always)]
#[tactic(auto, unfolding(crate::specs::Nets::shift_rows_word, crate::specs::Nets::row_shift, crate::specs::Nets::masked, crate::specs::Nets::up, crate::specs::Nets::down))]
fn shift_rows_word(x: u64) -> u64
    ensures { result ≡ shift_rows_word x }
{
    (x & 0x000000000000ffff)
        | ((x & 0x00000000fff00000) >> 4)
        | ((x & 0x00000000000f0000) << 12)
        | ((x & 0x0000ff0000000000) >> 8)
        | ((x & 0x000000ff00000000) << 8)
        | ((x & 0xf000000000000000) >> 12)
        | ((x & 0x0fff000000000000) << 4)
}

#[inline(always)]
#[tactic(auto, unfolding(crate::specs::Nets::transpose_words, crate::specs::Nets::transposition, crate::specs::Nets::masked, crate::specs::Nets::up, crate::specs::Nets::down))]
fn transpose_words(q: Slices) -> Slices
    ensures { result ≡ transpose_words q }
{
    let [a0, b0, c0, d0, e0, f0, g0, h0] = q;
    let a1 = (a0 & 0x5555555555555555) | ((b0 & 0x5555555555555555) << 1);
    let b1 = ((a0 & 0xaaaaaaaaaaaaaaaa) >> 1) | (b0 & 0xaaaaaaaaaaaaaaaa);
    let c1 = (c0 & 0x5555555555555555) | ((d0 & 0x5555555555555555) << 1);
    let d1 = ((c0 & 0xaaaaaaaaaaaaaaaa) >> 1) | (d0 & 0xaaaaaaaaaaaaaaaa);
    let e1 = (e0 & 0x5555555555555555) | ((f0 & 0x5555555555555555) << 1);
    let f1 = ((e0 & 0xaaaaaaaaaaaaaaaa) >> 1) | (f0 & 0xaaaaaaaaaaaaaaaa);
    let g1 = (g0 & 0x5555555555555555) | ((h0 & 0x5555555555555555) << 1);
    let h1 = ((g0 & 0xaaaaaaaaaaaaaaaa) >> 1) | (h0 & 0xaaaaaaaaaaaaaaaa);
    let a2 = (a1 & 0x3333333333333333) | ((c1 & 0x3333333333333333) << 2);
    let c2 = ((a1 & 0xcccccccccccccccc) >> 2) | (c1 & 0xcccccccccccccccc);
    let b2 = (b1 & 0x3333333333333333) | ((d1 & 0x3333333333333333) << 2);
    let d2 = ((b1 & 0xcccccccccccccccc) >> 2) | (d1 & 0xcccccccccccccccc);
    let e2 = (e1 & 0x3333333333333333) | ((g1 & 0x3333333333333333) << 2);
    let g2 = ((e1 & 0xcccccccccccccccc) >> 2) | (g1 & 0xcccccccccccccccc);
    let f2 = (f1 & 0x3333333333333333) | ((h1 & 0x3333333333333333) << 2);
    let h2 = ((f1 & 0xcccccccccccccccc) >> 2) | (h1 & 0xcccccccccccccccc);
    let a3 = (a2 & 0x0f0f0f0f0f0f0f0f) | ((e2 & 0x0f0f0f0f0f0f0f0f) << 4);
    let e3 = ((a2 & 0xf0f0f0f0f0f0f0f0) >> 4) | (e2 & 0xf0f0f0f0f0f0f0f0);
    let b3 = (b2 & 0x0f0f0f0f0f0f0f0f) | ((f2 & 0x0f0f0f0f0f0f0f0f) << 4);
    let f3 = ((b2 & 0xf0f0f0f0f0f0f0f0) >> 4) | (f2 & 0xf0f0f0f0f0f0f0f0);
    let c3 = (c2 & 0x0f0f0f0f0f0f0f0f) | ((g2 & 0x0f0f0f0f0f0f0f0f) << 4);
    let g3 = ((c2 & 0xf0f0f0f0f0f0f0f0) >> 4) | (g2 & 0xf0f0f0f0f0f0f0f0);
    let d3 = (d2 & 0x0f0f0f0f0f0f0f0f) | ((h2 & 0x0f0f0f0f0f0f0f0f) << 4);
    let h3 = ((d2 & 0xf0f0f0f0f0f0f0f0) >> 4) | (h2 & 0xf0f0f0f0f0f0f0f0);
    [a3, b3, c3, d3, e3, f3, g3, h3]
}

/// The squares of bits turned over.
#[inline(always)]
pub(crate) fn transpose(q: Slices) -> Slices
    ensures { IsTransposed q result }
{
    transpose_words(q)
}

/// Each lane from the next row.
#[inline(always)]
fn next_row(q: Slices) -> Slices
    ensures { (i : ℕ) → i < 64 → lane result i ≡ lane q ((i + 16) % 64) }
{
    let [a, b, c, d, e, f, g, h] = q;
    [
        rotate_16(a),
        rotate_16(b),
        rotate_16(c),
        rotate_16(d),
        rotate_16(e),
        rotate_16(f),
        rotate_16(g),
        rotate_16(h),
    ]
}

/// Each lane from the row after the next.
#[inline(always)]
fn second_row(q: Slices) -> Slices
    ensures { (i : ℕ) → i < 64 → lane result i ≡ lane q ((i + 32) % 64) }
{
    let [a, b, c, d, e, f, g, h] = q;
    [
        rotate_32(a),
        rotate_32(b),
        rotate_32(c),
        rotate_32(d),
        rotate_32(e),
        rotate_32(f),
        rotate_32(g),
        rotate_32(h),
    ]
}

/// SHIFTROWS.
#[inline(always)]
pub(crate) fn shift_rows(q: Slices) -> Slices
    ensures { (i : ℕ) → i < 64 → lane result i ≡ lane q (16 * (i / 16) + (i + 4 * (i / 16)) % 16) }
{
    let [a, b, c, d, e, f, g, h] = q;
    [
        shift_rows_word(a),
        shift_rows_word(b),
        shift_rows_word(c),
        shift_rows_word(d),
        shift_rows_word(e),
        shift_rows_word(f),
        shift_rows_word(g),
        shift_rows_word(h),
    ]
}

/// ADDROUNDKEY.
#[inline(always)]
pub(crate) fn add_slices(p: Slices, q: Slices) -> Slices
    ensures { (i : ℕ) → lane result i ≡ bit_xor (lane p i) (lane q i) }
{
    let [a, b, c, d, e, f, g, h] = p;
    let [i, j, k, l, m, n, o, r] = q;
    [a ^ i, b ^ j, c ^ k, d ^ l, e ^ m, f ^ n, g ^ o, h ^ r]
}

/// Each lane times x.
#[inline(always)]
fn xtimes(q: Slices) -> Slices
    ensures { (i : ℕ) → lane result i ≡ xtimes (lane q i) }
{
    let [a, b, c, d, e, f, g, h] = q;
    [h, a ^ h, b, c ^ h, d ^ h, e, f, g]
}

/// MIXCOLUMNS.
#[inline(always)]
pub(crate) fn mix_columns(q: Slices) -> Slices
    ensures { MixesRows q result }
{
    let next = next_row(q);
    let both = add_slices(q, next);
    add_slices(add_slices(xtimes(both), next), second_row(both))
}
