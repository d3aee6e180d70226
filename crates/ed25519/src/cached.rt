//! Points as an addition takes them.
ghost use Rattle.std.specs.Prelude.{◌≡◌};
ghost use Rattle.curve25519.specs.Field25519.{field};
ghost use Rattle.curve25519.specs.Curve25519.{Point};
ghost use Rattle.ed25519.specs.Coordinates.{Represents, Caches};

use crate::point::{ExtendedPoint, curve_constant};
use field25519::{Element, Words};

/// Half the sum and half the difference of y and x, z, and d t, of a point in extended coordinates.
#[derive(Drop)]
pub(crate) struct CachedPoint {
    pub(crate) sum: Element,
    pub(crate) difference: Element,
    pub(crate) z: Element,
    pub(crate) product: Element,
}

/// The inverse of 2.
#[inline]
fn half() -> Element
    ensures { field.add result result ≡ field.one }
{
    Element::from_words(Words {
        a: 18446744073709551607,
        b: 18446744073709551615,
        c: 18446744073709551615,
        d: 4611686018427387903,
    })
}

impl CachedPoint {
    /// The point, to be added.
    pub(crate) fn new(point: &ExtendedPoint) -> CachedPoint
        ensures { (q : Point) → Represents point.now q → Caches result q }
    {
        let factor = half();
        let constant = curve_constant();
        CachedPoint {
            sum: point.y.add(&point.x).multiply(&factor.loose()),
            difference: point.y.subtract(&point.x).multiply(&factor.loose()),
            z: point.z.copy(),
            product: constant.multiply(&point.t),
        }
    }
}
