//! Elements of the field of the numbers modulo 2^255 - 19.
ghost use Rattle.std.specs.Prelude.{◌≡◌, ℕ, ◌+◌, ◌*◌, ◌^◌, ◌-◌, ◌<◌, ◌%◌, ◌==◌};
ghost use Rattle.curve25519.specs.Field25519.{field, residue, least, raise};
ghost use Rattle.curve25519.specs.Codes.{coded_number};
ghost use Rattle.field25519.specs.Bytes.{joined};
ghost use Rattle.field25519.specs.Digits.{number, AreTight, AreLoose};

use crate::digits;
use crate::digits::Digits;
use crate::words::Words;
use std::marker::Model;

/// A number of the field with tight digits, as a product leaves them.
#[derive(Drop)]
pub struct Element {
    digits: Digits,
}

impl Model for Element {
    ghost Value = { field.Of };

    ghost coded = { coded_number };

    ghost view = { λ x. residue (number x.digits) };

    ghost invariant = { λ x. AreTight x.digits };
}

/// A sum or a difference of two elements, of which products are made.
#[derive(Drop)]
pub struct Loose {
    digits: Digits,
}

impl Model for Loose {
    ghost Value = { field.Of };

    ghost coded = { coded_number };

    ghost view = { λ x. residue (number x.digits) };

    ghost invariant = { λ x. AreLoose x.digits };
}

impl Element {
    /// The element of a small number.
    #[inline]
    pub fn small(n: u32) -> Element
        ensures { result ≡ residue n }
    {
        Element {
            digits: Digits {
                a: u64::from(n),
                b: 0,
                c: 0,
                d: 0,
                e: 0,
            },
        }
    }

    /// A copy.
    #[inline]
    pub fn copy(&self) -> Element
        ensures { result ≡ self.now }
    {
        Element {
            digits: self.digits,
        }
    }

    /// One of two, in the same steps for either.
    #[inline]
    pub fn select(bit: u64, x: &Element, y: &Element) -> Element
        requires { bit < 2 }
        ensures first { bit ≡ 0 → result ≡ x.now }
        ensures second { bit ≡ 1 → result ≡ y.now }
    {
        Element {
            digits: Digits {
                a: digits::select(bit, x.digits.a, y.digits.a),
                b: digits::select(bit, x.digits.b, y.digits.b),
                c: digits::select(bit, x.digits.c, y.digits.c),
                d: digits::select(bit, x.digits.d, y.digits.d),
                e: digits::select(bit, x.digits.e, y.digits.e),
            },
        }
    }

    /// The element of the 255 lower bits of four words.
    #[inline]
    pub fn from_words(w: Words) -> Element
        ensures { result ≡ residue (joined w % 2 ^ 255) }
    {
        Element {
            digits: digits::from_words(w),
        }
    }

    /// The words of the least number that this is modulo the prime.
    #[inline]
    pub fn words(&self) -> Words
        ensures { joined result ≡ least self.now }
    {
        digits::to_words(digits::reduce(self.digits))
    }

    /// The number squared a number of times, which is public.
    pub fn square_times(&self, times: u32) -> Element
        ensures { result ≡ raise self.now (2 ^ times) }
    {
        let mut power = self.copy();
        for i in 0..times {
            power = power.square();
        }
        power
    }

    /// The powers 2^250 - 1 and 11.
    fn chain(&self) -> (Element, Element)
        ensures most { result.0 ≡ raise self.now (2 ^ 250 - 1) }
        ensures eleven { result.1 ≡ raise self.now 11 }
    {
        let z2 = self.square();
        let z9 = self.multiply(&z2.square_times(2));
        let z11 = z2.multiply(&z9);
        let five = z9.multiply(&z11.square());
        let ten = five.square_times(5).multiply(&five);
        let twenty = ten.square_times(10).multiply(&ten);
        let forty = twenty.square_times(20).multiply(&twenty);
        let fifty = forty.square_times(10).multiply(&ten);
        let hundred = fifty.square_times(50).multiply(&fifty);
        let two_hundred = hundred.square_times(100).multiply(&hundred);
        let most = two_hundred.square_times(50).multiply(&fifty);
        (most, z11)
    }

    /// The inverse, and 0 of 0: the power p - 2.
    pub fn invert(&self) -> Element
        ensures { result ≡ field.inv self.now }
    {
        let (most, eleven) = self.chain();
        most.square_times(5).multiply(&eleven)
    }

    /// The power (p + 3) / 8, the first candidate for a square root (RFC 8032, section 5.1.3).
    pub fn root_candidate(&self) -> Element
        ensures { result ≡ raise self.now (2 ^ 252 - 2) }
    {
        let (most, _) = self.chain();
        most.square_times(2).multiply(&self.square())
    }

    /// Whether the two are one number of the field, in the same steps for any.
    pub fn equals(&self, other: &Element) -> bool
        ensures { result ≡ (least self.now == least other.now) }
    {
        self.words().equals(other.words())
    }

    /// The same number, as a factor.
    #[inline]
    pub fn loose(&self) -> Loose
        ensures { result ≡ self.now }
    {
        Loose {
            digits: self.digits,
        }
    }

    /// The sum.
    #[inline]
    pub fn add(&self, other: &Element) -> Loose
        ensures { result ≡ field.add self.now other.now }
    {
        Loose {
            digits: digits::add(self.digits, other.digits),
        }
    }

    /// The difference.
    #[inline]
    pub fn subtract(&self, other: &Element) -> Loose
        ensures { result ≡ field.add self.now (field.neg other.now) }
    {
        Loose {
            digits: digits::subtract(self.digits, other.digits),
        }
    }

    /// Whether this is 0, in the same steps for any.
    pub fn is_zero(&self) -> bool
        ensures { result ≡ (least self.now == 0) }
    {
        self.words().is_zero()
    }

    /// The lowest bit of the least number.
    pub fn lowest_bit(&self) -> u64
        ensures { result ≡ least self.now % 2 }
    {
        self.words().a % 2
    }

    /// The number that adds up with this one to 0.
    pub fn negate(&self) -> Element
        ensures { result ≡ field.neg self.now }
    {
        let less = Element::small(0).subtract(self);
        less.multiply(&Element::small(1).loose())
    }

    /// The product.
    #[inline]
    pub fn multiply(&self, other: &Element) -> Element
        ensures { result ≡ field.mul self.now other.now }
    {
        self.loose().multiply(&other.loose())
    }

    /// The square.
    #[inline]
    pub fn square(&self) -> Element
        ensures { result ≡ field.mul self.now self.now }
    {
        self.loose().square()
    }
}

impl Loose {
    /// The product.
    #[inline]
    pub fn multiply(&self, other: &Loose) -> Element
        ensures { result ≡ field.mul self.now other.now }
    {
        Element {
            digits: digits::multiply(self.digits, other.digits),
        }
    }

    /// The square.
    #[inline]
    pub fn square(&self) -> Element
        ensures { result ≡ field.mul self.now self.now }
    {
        Element {
            digits: digits::square(self.digits),
        }
    }

    /// A small multiple.
    #[inline]
    pub fn scale(&self, factor: u64) -> Element
        requires { factor < 2 ^ 20 }
        ensures { result ≡ field.mul (residue factor) self.now }
    {
        Element {
            digits: digits::scale(self.digits, factor),
        }
    }
}
