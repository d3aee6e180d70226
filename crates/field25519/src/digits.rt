//! The operations on numbers modulo 2^255 - 19 in five digits of 51 bits.
//!
//! Digits are tight, as a product leaves them, or loose, as a sum or a difference has them.
ghost use Rattle.std.specs.Prelude.{◌≡◌, ◌+◌, ◌*◌, ◌^◌, ◌<◌, ◌%◌};
ghost use Rattle.curve25519.specs.Field25519.{prime};
ghost use Rattle.field25519.specs.Bytes.{joined};
ghost use Rattle.field25519.specs.Digits.{number, AreTight, AreLoose, AreShort};
ghost use Rattle.field25519.specs.Sums.{value};

use crate::words::Words;

/// Five digits, the lowest first.
#[derive(Clone, Copy)]
pub struct Digits {
    pub a: u64,
    pub b: u64,
    pub c: u64,
    pub d: u64,
    pub e: u64,
}

/// 2^51, what a digit counts to.
const BASE: u64 = 2251799813685248;

/// 2^51, for the sums of products.
const WIDE_BASE: u128 = 2251799813685248;

/// What 2^255 leaves modulo the prime.
const FOLD: u64 = 19;

/// The lowest digit of twice the prime.
const TWICE_PRIME_LOW: u64 = 4503599627370458;

/// Its other digits.
const TWICE_PRIME_HIGH: u64 = 4503599627370494;

/// Where words and digits cut each other.
const TWO_TO_12: u64 = 4096;

const TWO_TO_13: u64 = 8192;

const TWO_TO_25: u64 = 33554432;

const TWO_TO_26: u64 = 67108864;

const TWO_TO_38: u64 = 274877906944;

const TWO_TO_39: u64 = 549755813888;

/// The product of two digits, one of them perhaps times 19.
#[inline(always)]
fn wide(x: u64, y: u64) -> u128
    requires x_low { x < 2 ^ 54 }
    requires y_low { y < 2 ^ 58 }
    ensures product { result ≡ x * y }
    ensures all_short { result < 2 ^ 112 }
{
    x as u128 * y as u128
}

/// The digits of five sums of products: two runs of carries, from the first and from the third.
#[inline(always)]
fn carry(p: u128, q: u128, r: u128, s: u128, t: u128) -> Digits
    requires p_low { p < 5 * 2 ^ 112 }
    requires q_low { q < 5 * 2 ^ 112 }
    requires r_low { r < 5 * 2 ^ 112 }
    requires s_low { s < 5 * 2 ^ 112 }
    requires t_low { t < 2 ^ 109 }
    ensures tight { AreTight result }
    ensures same_number { number result % prime ≡ value p q r s t % prime }
{
    let s = s + r / WIDE_BASE;
    let q = q + p / WIDE_BASE;
    let t = t + s / WIDE_BASE;
    let c = (r % WIDE_BASE) as u64 + (q / WIDE_BASE) as u64;
    let a = (p % WIDE_BASE) as u64 + FOLD * (t / WIDE_BASE) as u64;
    Digits {
        a: a % BASE,
        b: (q % WIDE_BASE) as u64 + a / BASE,
        c: c % BASE,
        d: (s % WIDE_BASE) as u64 + c / BASE,
        e: (t % WIDE_BASE) as u64,
    }
}

/// The product.
#[inline]
pub fn multiply(x: Digits, y: Digits) -> Digits
    requires x_loose { AreLoose x }
    requires y_loose { AreLoose y }
    ensures tight { AreTight result }
    ensures same_number { number result % prime ≡ number x * number y % prime }
{
    let b = FOLD * y.b;
    let c = FOLD * y.c;
    let d = FOLD * y.d;
    let e = FOLD * y.e;
    let p = wide(x.a, y.a) + wide(x.b, e) + wide(x.c, d) + wide(x.d, c) + wide(x.e, b);
    let q = wide(x.a, y.b) + wide(x.b, y.a) + wide(x.c, e) + wide(x.d, d) + wide(x.e, c);
    let r = wide(x.a, y.c) + wide(x.b, y.b) + wide(x.c, y.a) + wide(x.d, e) + wide(x.e, d);
    let s = wide(x.a, y.d) + wide(x.b, y.c) + wide(x.c, y.b) + wide(x.d, y.a) + wide(x.e, e);
    let t = wide(x.a, y.e) + wide(x.b, y.d) + wide(x.c, y.c) + wide(x.d, y.b) + wide(x.e, y.a);
    carry(p, q, r, s, t)
}

/// The square, in fifteen products.
#[inline]
pub fn square(x: Digits) -> Digits
    requires loose { AreLoose x }
    ensures tight { AreTight result }
    ensures same_number { number result % prime ≡ number x * number x % prime }
{
    let a2 = 2 * x.a;
    let b2 = 2 * x.b;
    let c2 = 2 * x.c;
    let d2 = 2 * x.d;
    let d = FOLD * x.d;
    let e = FOLD * x.e;
    let p = wide(x.a, x.a) + wide(b2, e) + wide(c2, d);
    let q = wide(a2, x.b) + wide(c2, e) + wide(x.d, d);
    let r = wide(a2, x.c) + wide(x.b, x.b) + wide(d2, e);
    let s = wide(a2, x.d) + wide(b2, x.c) + wide(x.e, e);
    let t = wide(a2, x.e) + wide(b2, x.d) + wide(x.c, x.c);
    carry(p, q, r, s, t)
}

/// A small multiple.
#[inline]
pub fn scale(x: Digits, factor: u64) -> Digits
    requires loose { AreLoose x }
    requires small { factor < 2 ^ 20 }
    ensures tight { AreTight result }
    ensures same_number { number result % prime ≡ factor * number x % prime }
{
    carry(
        wide(x.a, factor),
        wide(x.b, factor),
        wide(x.c, factor),
        wide(x.d, factor),
        wide(x.e, factor),
    )
}

/// The sum.
#[inline]
pub fn add(x: Digits, y: Digits) -> Digits
    requires x_tight { AreTight x }
    requires y_tight { AreTight y }
    ensures loose { AreLoose result }
    ensures same_number { number result ≡ number x + number y }
{
    Digits {
        a: x.a + y.a,
        b: x.b + y.b,
        c: x.c + y.c,
        d: x.d + y.d,
        e: x.e + y.e,
    }
}

/// The difference, with twice the prime added.
#[inline]
pub fn subtract(x: Digits, y: Digits) -> Digits
    requires x_tight { AreTight x }
    requires y_tight { AreTight y }
    ensures loose { AreLoose result }
    ensures same_number { number result + number y ≡ number x + 2 * prime }
{
    Digits {
        a: x.a + TWICE_PRIME_LOW - y.a,
        b: x.b + TWICE_PRIME_HIGH - y.b,
        c: x.c + TWICE_PRIME_HIGH - y.c,
        d: x.d + TWICE_PRIME_HIGH - y.d,
        e: x.e + TWICE_PRIME_HIGH - y.e,
    }
}

/// The digits of a number of four words, without its top bit.
#[inline]
pub fn from_words(w: Words) -> Digits
    ensures tight { AreTight result }
    ensures same_number { number result ≡ joined w % 2 ^ 255 }
{
    Digits {
        a: w.a % BASE,
        b: w.a / BASE + w.b % TWO_TO_38 * TWO_TO_13,
        c: w.b / TWO_TO_38 + w.c % TWO_TO_25 * TWO_TO_26,
        d: w.c / TWO_TO_25 + w.d % TWO_TO_12 * TWO_TO_39,
        e: w.d / TWO_TO_12 % BASE,
    }
}

/// The digits of the least number that is the same modulo the prime.
#[inline]
pub fn reduce(x: Digits) -> Digits
    requires tight { AreTight x }
    ensures short { AreShort result }
    ensures least { number result ≡ number x % prime }
{
    let p = (x.a + FOLD) / BASE;
    let q = (x.b + p) / BASE;
    let r = (x.c + q) / BASE;
    let s = (x.d + r) / BASE;
    let over = (x.e + s) / BASE;
    let a = x.a + FOLD * over;
    let b = x.b + a / BASE;
    let c = x.c + b / BASE;
    let d = x.d + c / BASE;
    let e = x.e + d / BASE;
    Digits {
        a: a % BASE,
        b: b % BASE,
        c: c % BASE,
        d: d % BASE,
        e: e % BASE,
    }
}

/// The words of five short digits.
#[inline]
pub fn to_words(x: Digits) -> Words
    requires short { AreShort x }
    ensures same_number { joined result ≡ number x }
{
    Words {
        a: x.a + x.b % TWO_TO_13 * BASE,
        b: x.b / TWO_TO_13 + x.c % TWO_TO_26 * TWO_TO_38,
        c: x.c / TWO_TO_26 + x.d % TWO_TO_39 * TWO_TO_25,
        d: x.d / TWO_TO_39 + x.e * TWO_TO_12,
    }
}

/// One of two words, by a mask, in the same steps for either.
#[inline(always)]
pub fn select(bit: u64, x: u64, y: u64) -> u64
    requires { bit < 2 }
    ensures first { bit ≡ 0 → result ≡ x }
    ensures second { bit ≡ 1 → result ≡ y }
{
    x ^ (0u64.wrapping_sub(bit) & (x ^ y))
}
