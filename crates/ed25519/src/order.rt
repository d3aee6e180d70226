//! Scalars modulo the order L of the base point, in the same steps for any.
ghost use Rattle.std.specs.Prelude.{◌≡◌, ◌+◌, ◌-◌, ◌*◌, ◌/◌, ◌^◌, ◌<◌, ◌%◌, ◌↔◌, IsTrue};
ghost use Rattle.curve25519.specs.Curve25519.{order};
ghost use Rattle.field25519.specs.Bytes.{joined};

use field25519::Words;

const WORD: u128 = 18446744073709551616;

/// The sum with what the order lacks of 2^256, and whether it came past 2^256.
#[inline]
fn lift(x: Words) -> (Words, u64)
    ensures carry { result.1 < 2 }
    ensures sum { joined result.0 + 2 ^ 256 * result.1 ≡ joined x + (2 ^ 256 - order) }
{
    let a = x.a as u128 + 12100500283911187475;
    let b = x.b as u128 + 16942830013509034793 + a / WORD;
    let c = x.c as u128 + 18446744073709551615 + b / WORD;
    let d = x.d as u128 + 17293822569102704639 + c / WORD;
    (
        Words {
            a: (a % WORD) as u64,
            b: (b % WORD) as u64,
            c: (c % WORD) as u64,
            d: (d % WORD) as u64,
        },
        (d / WORD) as u64,
    )
}

#[inline]
fn select(bit: u64, x: Words, y: Words) -> Words
    requires { bit < 2 }
    ensures first { bit ≡ 0 → joined result ≡ joined x }
    ensures second { bit ≡ 1 → joined result ≡ joined y }
{
    Words {
        a: field25519::select(bit, x.a, y.a),
        b: field25519::select(bit, x.b, y.b),
        c: field25519::select(bit, x.c, y.c),
        d: field25519::select(bit, x.d, y.d),
    }
}

/// What is below twice the order, modulo the order.
#[inline]
fn reduce_once(x: Words) -> Words
    requires { joined x < 2 * order }
    ensures { joined result ≡ joined x % order }
{
    let (less, over) = lift(x);
    select(over, x, less)
}

/// Twice a number and a bit.
#[inline]
fn double(x: Words, bit: u64) -> Words
    requires low { joined x < order }
    requires bit_low { bit < 2 }
    ensures { joined result ≡ (2 * joined x + bit) % order }
{
    reduce_once(Words {
        a: x.a % 9223372036854775808 * 2 + bit,
        b: x.b % 9223372036854775808 * 2 + x.a / 9223372036854775808,
        c: x.c % 9223372036854775808 * 2 + x.b / 9223372036854775808,
        d: x.d * 2 + x.c / 9223372036854775808,
    })
}

/// The sum of two numbers.
pub fn add(x: Words, y: Words) -> Words
    requires x_low { joined x < order }
    requires y_low { joined y < order }
    ensures { joined result ≡ (joined x + joined y) % order }
{
    let a = x.a as u128 + y.a as u128;
    let b = x.b as u128 + y.b as u128 + a / WORD;
    let c = x.c as u128 + y.c as u128 + b / WORD;
    let d = x.d as u128 + y.d as u128 + c / WORD;
    reduce_once(Words {
        a: (a % WORD) as u64,
        b: (b % WORD) as u64,
        c: (c % WORD) as u64,
        d: d as u64,
    })
}

/// Whether the number is below the order.
pub fn is_below(x: Words) -> bool
    ensures { IsTrue result ↔ (joined x < order) }
{
    let (_, over) = lift(x);
    over == 0
}

const NONE: Words = Words {
    a: 0,
    b: 0,
    c: 0,
    d: 0,
};

/// What is left of a number times 2^256 and another.
fn absorb(high: Words, low: Words) -> Words
    requires { joined high < order }
    ensures { joined result ≡ (joined high * 2 ^ 256 + joined low) % order }
{
    let mut left = high;
    for i in 0..256 {
        let bit = low.bit_at(255 - i);
        left = double(left, bit);
    }
    left
}

/// A number of 512 bits.
pub fn reduce(high: Words, low: Words) -> Words
    ensures { joined result ≡ (joined high * 2 ^ 256 + joined low) % order }
{
    absorb(absorb(NONE, high), low)
}

/// The product of two numbers, one of them of any size.
pub fn multiply(x: Words, y: Words) -> Words
    requires { joined x < order }
    ensures { joined result ≡ joined x * joined y % order }
{
    let mut all = NONE;
    for i in 0..256 {
        let bit = y.bit_at(255 - i);
        let twice = double(all, 0);
        let more = select(bit, NONE, x);
        all = add(twice, more);
    }
    all
}
