//! The Montgomery ladder of RFC 7748, section 5.
ghost use Rattle.std.specs.Prelude.{◌≡◌, ◌<◌};
ghost use Rattle.curve25519.specs.Field25519.{field};
ghost use Rattle.curve25519.specs.Ladder.{State, swap as swap_over, advance as advance_over, ladder as ladder_over};
ghost use Rattle.curve25519.specs.X25519.{a24};
ghost use Rattle.curve25519.specs.Codes.{coded_state};
ghost use Rattle.field25519.specs.Bytes.{joined};

use field25519::{Element, Words};
use std::marker::Model;

/// The state x_2, z_2, x_3, z_3.
#[derive(Drop)]
pub struct Ladder {
    x2: Element,
    z2: Element,
    x3: Element,
    z3: Element,
}

impl Model for Ladder {
    ghost Value = { State field };

    ghost coded = { coded_state };

    ghost view = { λ s. (s.x2, s.z2, s.x3, s.z3) };
}

impl Ladder {
    /// The state before the first bit.
    fn start(u: &Element) -> Ladder
        ensures { result ≡ ladder_over field a24 u.now 0 0 }
    {
        Ladder {
            x2: Element::small(1),
            z2: Element::small(0),
            x3: u.copy(),
            z3: Element::small(1),
        }
    }

    /// A step without its swaps.
    #[inline]
    fn advance(&self, u: &Element) -> Ladder
        ensures { result ≡ advance_over field a24 u.now self.now }
    {
        let a = self.x2.add(&self.z2);
        let aa = a.square();
        let b = self.x2.subtract(&self.z2);
        let bb = b.square();
        let e = aa.subtract(&bb);
        let c = self.x3.add(&self.z3);
        let d = self.x3.subtract(&self.z3);
        let da = d.multiply(&a);
        let cb = c.multiply(&b);
        let sum = da.add(&cb);
        let difference = da.subtract(&cb);
        let squared = difference.square();
        let scaled = e.scale(121665);
        let factor = aa.add(&scaled);
        Ladder {
            x2: aa.multiply(&bb),
            z2: e.multiply(&factor),
            x3: sum.square(),
            z3: u.multiply(&squared),
        }
    }

    /// The two points exchanged where the bit is 1, in the same steps for either.
    #[inline]
    fn swap(bit: u64, state: &Ladder) -> Ladder
        requires { bit < 2 }
        ensures { result ≡ swap_over field bit state.now }
    {
        Ladder {
            x2: Element::select(bit, &state.x2, &state.x3),
            z2: Element::select(bit, &state.z2, &state.z3),
            x3: Element::select(bit, &state.x3, &state.x2),
            z3: Element::select(bit, &state.z3, &state.z2),
        }
    }

    /// A step after a swap.
    #[inline]
    fn step(&self, toggle: u64, u: &Element) -> Ladder
        requires { toggle < 2 }
        ensures { result ≡ advance_over field a24 u.now (swap_over field toggle self.now) }
    {
        Ladder::swap(toggle, self).advance(u)
    }

    /// The state after the 255 bits of the scalar. Each bit's second swap is made with the next bit's first.
    pub fn climb(scalar: Words, u: &Element) -> Ladder
        ensures { result ≡ ladder_over field a24 u.now 255 (joined scalar) }
    {
        let mut now = Ladder::start(u);
        let mut last = 0u64;
        for i in 0..255 {
            let bit = scalar.bit_at(254 - i);
            now = now.step(last ^ bit, u);
            last = bit;
        }
        Ladder::swap(last, &now)
    }

    /// The state after the four bits of 8.
    pub fn eight_times(u: &Element) -> Ladder
        ensures { result ≡ ladder_over field a24 u.now 4 8 }
    {
        let once = Ladder::start(u).step(1, u);
        let twice = once.step(1, u);
        let four_times = twice.step(0, u);
        four_times.step(0, u)
    }

    /// The coordinate x_2 / z_2, 0 where z_2 is 0.
    pub fn affine(&self) -> Element
        ensures { result ≡ field.mul self.now.0 (field.inv self.now.1) }
    {
        self.x2.multiply(&self.z2.invert())
    }
}
