//! Multiples of the base point, in the same steps for any scalar.
ghost use Rattle.std.specs.Prelude.{◌≡◌, ◌<◌};
ghost use Rattle.curve25519.specs.Curve25519.{Point, base, multiple};
ghost use Rattle.field25519.specs.Bytes.{joined};
ghost use Rattle.ed25519.specs.Coordinates.{Represents, Caches, AddsOfBase};
ghost use Rattle.ed25519.specs.Digits.{digit, column};
ghost use Rattle.ed25519.specs.Rows.{words_of, row_of, IsRowOf};

use crate::cached::CachedPoint;
use crate::multiples::MULTIPLES;
use crate::point::ExtendedPoint;
use field25519::{Element, Words};

const WORD: u128 = 18446744073709551616;

/// A row of the table of multiples.
#[derive(Clone, Copy)]
struct Row {
    sum: Words,
    difference: Words,
    product: Words,
}

/// The number of two halves.
#[inline]
fn words_at(list: &[u128; 96], at: usize) -> Words
    requires { at < 95 }
    ensures { result ≡ words_of list.now at }
{
    let low = list[at];
    let high = list[at + 1];
    Words {
        a: (low % WORD) as u64,
        b: (low / WORD) as u64,
        c: (high % WORD) as u64,
        d: (high / WORD) as u64,
    }
}

/// The three numbers of a list for the digit `at`.
#[inline]
fn row_at(list: &[u128; 96], at: usize) -> Row
    requires { at < 16 }
    ensures { result ≡ row_of list.now at }
{
    Row {
        sum: words_at(list, 6 * at),
        difference: words_at(list, 6 * at + 2),
        product: words_at(list, 6 * at + 4),
    }
}

/// One of two numbers, in the same steps for either.
#[inline]
fn select_words(bit: u64, x: Words, y: Words) -> Words
    requires { bit < 2 }
    ensures first { bit ≡ 0 → result ≡ x }
    ensures second { bit ≡ 1 → result ≡ y }
{
    Words {
        a: field25519::select(bit, x.a, y.a),
        b: field25519::select(bit, x.b, y.b),
        c: field25519::select(bit, x.c, y.c),
        d: field25519::select(bit, x.d, y.d),
    }
}

/// One of two rows, in the same steps for either.
#[inline]
fn select_row(bit: u64, x: Row, y: Row) -> Row
    requires { bit < 2 }
    ensures first { bit ≡ 0 → result ≡ x }
    ensures second { bit ≡ 1 → result ≡ y }
{
    Row {
        sum: select_words(bit, x.sum, y.sum),
        difference: select_words(bit, x.difference, y.difference),
        product: select_words(bit, x.product, y.product),
    }
}

/// The row that the digit asks for. Each row is read.
fn read_row(list: &[u128; 96], digit: u64) -> Row
    requires { digit < 16 }
    ensures { result ≡ row_of list.now digit }
{
    let mut row = row_at(list, 0);
    for i in 1..16u64 {
        let is_asked = (16 - (i + 16 - digit) % 16) / 16;
        row = select_row(is_asked, row, row_at(list, i as usize));
    }
    row
}

/// The point of a row.
#[inline]
fn cached_row(row: Row) -> CachedPoint
    ensures { (q : Point) → IsRowOf row q → Caches result q }
{
    CachedPoint {
        sum: Element::from_words(row.sum),
        difference: Element::from_words(row.difference),
        z: Element::small(1),
        product: Element::from_words(row.product),
    }
}

/// The digit of the scalar to the base 16.
#[inline]
fn digit_at(scalar: Words, at: u32) -> u64
    requires { at < 64 }
    ensures low { result < 16 }
    ensures is { result ≡ digit (joined scalar) at }
{
    let first = scalar.bit_at(4 * at);
    let second = scalar.bit_at(4 * at + 1);
    let third = scalar.bit_at(4 * at + 2);
    let fourth = scalar.bit_at(4 * at + 3);
    first + 2 * second + 4 * third + 8 * fourth
}

/// The sum with a multiple of each list, for one digit of each eight.
fn add_column(point: ExtendedPoint, scalar: Words, at: u32) -> ExtendedPoint
    requires { at < 8 }
    ensures { AddsOfBase point (column (joined scalar) at 8) result }
{
    let mut sum = point;
    for j in 0..8u32 {
        let digit = digit_at(scalar, 8 * j + at);
        let row = read_row(&MULTIPLES[j as usize], digit);
        sum = sum.add(&cached_row(row));
    }
    sum
}

/// The base point as many times as the scalar says.
pub(crate) fn multiply_base(scalar: Words) -> ExtendedPoint
    ensures { Represents result (multiple base (joined scalar)) }
{
    let mut sum = ExtendedPoint::origin();
    for i in 0..8u32 {
        let shifted = sum.quadruple().quadruple();
        sum = add_column(shifted, scalar, 7 - i);
    }
    sum
}
