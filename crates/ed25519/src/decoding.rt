//! Points from bytes (RFC 8032, section 5.1.3).
ghost use Rattle.std.specs.Prelude.{◌≡◌, ◌<◌, ◌^◌, ◌↔◌, IsTrue};
ghost use Rattle.curve25519.specs.Field25519.{prime};
ghost use Rattle.curve25519.specs.Curve25519.{root_of_minus_one as root_of_minus, On};
ghost use Rattle.field25519.specs.Bytes.{joined};
ghost use Rattle.ed25519.specs.Points.{decode_point, square_root as root_of, x_squared as x_squared_of, choose_sign as signed_by, with_y as of_height};
ghost use Rattle.ed25519.specs.Coordinates.{Decodes};

use crate::point::{ExtendedPoint, curve_constant};
use field25519::{Element, Words};

/// A square root of -1.
#[inline]
fn root_of_minus_one() -> Element
    ensures { result ≡ root_of_minus }
{
    Element::from_words(Words {
        a: 14190309331451158704,
        b: 3405592160176694392,
        c: 3120150775007532967,
        d: 3135389899092516619,
    })
}

/// What x^2 is where y is the other coordinate.
fn x_squared(y: &Element) -> Element
    ensures { result ≡ x_squared_of y.now }
{
    let one = Element::small(1);
    let square = y.square();
    let constant = curve_constant();
    let product = constant.multiply(&square);
    let under = product.add(&one).multiply(&one.loose());
    let inverse = under.invert();
    square.subtract(&one).multiply(&inverse.loose())
}

/// A square root of a square.
fn square_root(z: &Element) -> Element
    ensures { result ≡ root_of z.now }
{
    let candidate = z.root_candidate();
    let square = candidate.square();
    if square.equals(z) {
        candidate
    } else {
        root_of_minus_one().multiply(&candidate)
    }
}

/// Whether a number of 255 bits is below p.
fn is_least(w: Words) -> bool
    requires { joined w < 2 ^ 255 }
    ensures { IsTrue result ↔ (joined w < prime) }
{
    w.a < 18446744073709551597 || w.b < u64::MAX || w.c < u64::MAX || w.d < 9223372036854775807
}

/// The point whose x has the lowest bit that is asked for.
fn choose_sign(x: &Element, y: &Element, sign: u64) -> Option<ExtendedPoint>
    ensures { On (x.now, y.now) → Decodes result (signed_by x.now y.now sign) }
{
    if x.lowest_bit() == sign {
        Some(ExtendedPoint::from_coordinates(x.copy(), y.copy()))
    } else if x.is_zero() {
        None
    } else {
        Some(ExtendedPoint::from_coordinates(x.negate(), y.copy()))
    }
}

/// The point with this y, whose x has the lowest bit that is asked for.
fn with_y(y: &Element, sign: u64) -> Option<ExtendedPoint>
    ensures { Decodes result (of_height y.now sign) }
{
    let z = x_squared(y);
    let x = square_root(&z);
    let square = x.square();
    if square.equals(&z) {
        choose_sign(&x, y, sign)
    } else {
        None
    }
}

/// The point that the 32 bytes are, or `None` where they are none.
pub(crate) fn decode(bytes: &[u8; 32]) -> Option<ExtendedPoint>
    ensures { Decodes result (decode_point bytes.now) }
{
    let w = Words::from_bytes(bytes);
    let sign = w.d / 9223372036854775808;
    let height = Words {
        a: w.a,
        b: w.b,
        c: w.c,
        d: w.d % 9223372036854775808,
    };
    if is_least(height) {
        with_y(&Element::from_words(height), sign)
    } else {
        None
    }
}
