//! Points in extended coordinates (RFC 8032, section 5.1.4).
ghost use Rattle.std.specs.Prelude.{◌≡◌};
ghost use Rattle.curve25519.specs.Curve25519.{d as curve_d, Point, origin};
ghost use Rattle.ed25519.specs.Points.{negative, encode_point};
ghost use Rattle.ed25519.specs.Coordinates.{coordinates, of_factors, Represents, IsSum, IsTwice, IsFourTimes};

use crate::cached::CachedPoint;
use field25519::{Element, Loose, Words};

/// A point as x / z and y / z, with t / z as their product.
#[derive(Drop)]
pub(crate) struct ExtendedPoint {
    pub(crate) x: Element,
    pub(crate) y: Element,
    pub(crate) z: Element,
    pub(crate) t: Element,
}

/// The constant d of the curve.
#[inline]
pub(crate) fn curve_constant() -> Element
    ensures { result ≡ curve_d }
{
    Element::from_words(Words {
        a: 8496970652267935907,
        b: 31536524315187371,
        c: 10144147576115030168,
        d: 5909686906226998899,
    })
}

impl ExtendedPoint {
    /// The neutral point.
    pub(crate) fn origin() -> ExtendedPoint
        ensures { Represents result origin }
    {
        ExtendedPoint {
            x: Element::small(0),
            y: Element::small(1),
            z: Element::small(1),
            t: Element::small(0),
        }
    }

    /// The point with the coordinates x and y.
    pub(crate) fn from_coordinates(x: Element, y: Element) -> ExtendedPoint
        ensures { Represents result (x, y) }
    {
        let t = x.multiply(&y);
        ExtendedPoint {
            x,
            y,
            z: Element::small(1),
            t,
        }
    }

    /// The point that adds up with this one to the neutral point.
    pub(crate) fn negate(&self) -> ExtendedPoint
        ensures { (q : Point) → Represents self.now q → Represents result (negative q) }
    {
        ExtendedPoint {
            x: self.x.negate(),
            y: self.y.copy(),
            z: self.z.copy(),
            t: self.t.negate(),
        }
    }

    /// The point of four factors, two for each coordinate.
    #[inline]
    fn from_factors(e: &Loose, f: &Loose, g: &Loose, h: &Loose) -> ExtendedPoint
        ensures { coordinates result ≡ of_factors e.now f.now g.now h.now }
    {
        ExtendedPoint {
            x: e.multiply(f),
            y: g.multiply(h),
            z: f.multiply(g),
            t: e.multiply(h),
        }
    }

    /// The sum with a point.
    #[inline]
    pub(crate) fn add(&self, other: &CachedPoint) -> ExtendedPoint
        ensures { IsSum self.now other.now result }
    {
        let a = self.y.subtract(&self.x).multiply(&other.difference.loose());
        let b = self.y.add(&self.x).multiply(&other.sum.loose());
        let c = self.t.multiply(&other.product);
        let d = self.z.multiply(&other.z);
        ExtendedPoint::from_factors(&b.subtract(&a), &d.subtract(&c), &d.add(&c), &b.add(&a))
    }

    /// The sum with itself.
    #[inline]
    pub(crate) fn double(&self) -> ExtendedPoint
        ensures { IsTwice self.now result }
    {
        let a = self.x.square();
        let b = self.y.square();
        let c = self.z.loose().multiply(&self.z.add(&self.z));
        let d = self.x.multiply(&self.y);
        let g = b.subtract(&a).scale(1);
        ExtendedPoint::from_factors(&d.add(&d), &c.subtract(&g), &g.loose(), &b.add(&a))
    }

    /// Four times the point.
    pub(crate) fn quadruple(&self) -> ExtendedPoint
        ensures { IsFourTimes self.now result }
    {
        self.double().double()
    }

    /// The 32 bytes of the point (RFC 8032, section 5.1.2).
    pub(crate) fn encode(&self) -> [u8; 32]
        ensures { (q : Point) → Represents self.now q → result ≡ encode_point q }
    {
        let inverse = self.z.invert();
        let x = self.x.multiply(&inverse);
        let y = self.y.multiply(&inverse);
        let sign = x.words().a % 2;
        let height = y.words();
        Words {
            a: height.a,
            b: height.b,
            c: height.c,
            d: height.d + sign * 9223372036854775808,
        }
        .to_bytes()
    }
}
