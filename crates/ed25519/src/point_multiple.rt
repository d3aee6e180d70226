//! Multiples of a point, in time that depends on it and on the scalar.
ghost use Rattle.std.specs.Prelude.{◌<◌};
ghost use Rattle.curve25519.specs.Curve25519.{Point, On};
ghost use Rattle.field25519.specs.Bytes.{joined};
ghost use Rattle.ed25519.specs.Coordinates.{Represents, CacheMultiples, AddsMultiple, IsMultiple};

use crate::cached::CachedPoint;
use crate::point::ExtendedPoint;
use field25519::Words;

/// The first three multiples of a point.
#[derive(Drop)]
struct SmallMultiples {
    one: CachedPoint,
    two: CachedPoint,
    three: CachedPoint,
}

impl SmallMultiples {
    /// The multiples of the point.
    fn new(point: &ExtendedPoint) -> SmallMultiples
        ensures { (q : Point) → On q → Represents point.now q → CacheMultiples result q }
    {
        let one = CachedPoint::new(point);
        let twice = point.double();
        let thrice = twice.add(&one);
        SmallMultiples {
            one,
            two: CachedPoint::new(&twice),
            three: CachedPoint::new(&thrice),
        }
    }

    /// The sum with as many times the point as the digit says.
    #[inline]
    fn add_to(&self, sum: ExtendedPoint, digit: u64) -> ExtendedPoint
        requires { digit < 4 }
        ensures { AddsMultiple self.now sum digit result }
    {
        match digit {
            0 => sum,
            1 => sum.add(&self.one),
            2 => sum.add(&self.two),
            _ => sum.add(&self.three),
        }
    }
}

/// The point as many times as the scalar says, in time that depends on both.
pub(crate) fn multiply_point(point: &ExtendedPoint, scalar: Words) -> ExtendedPoint
    ensures { IsMultiple point.now (joined scalar) result }
{
    let multiples = SmallMultiples::new(point);
    let mut sum = ExtendedPoint::origin();
    for i in 0..128u32 {
        let high = scalar.bit_at(255 - 2 * i);
        let low = scalar.bit_at(254 - 2 * i);
        sum = multiples.add_to(sum.quadruple(), 2 * high + low);
    }
    sum
}
