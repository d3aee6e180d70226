//! Numbers of 256 bits as words and as bytes, the lowest first.
ghost use Rattle.std.specs.Prelude.{◌≡◌, ◌+◌, ◌*◌, ◌/◌, ◌^◌, ◌<◌, ◌%◌, ◌==◌};
ghost use Rattle.field25519.specs.Bytes.{decode_little, encode, joined, word_at};
ghost use Rattle.field25519.specs.Scalars.{decode_scalar};

/// The bit that clamping sets, in the highest word.
const SET_BIT: u64 = 4611686018427387904;

/// A number in four words of 64 bits, the lowest first.
#[derive(Clone, Copy)]
pub struct Words {
    pub a: u64,
    pub b: u64,
    pub c: u64,
    pub d: u64,
}

/// The eight bytes from a place on, the lowest first.
fn word(bytes: &[u8; 32], at: usize) -> u64
    requires { at < 25 }
    ensures { result ≡ word_at bytes.now at }
{
    u64::from_le_bytes([
        bytes[at],
        bytes[at + 1],
        bytes[at + 2],
        bytes[at + 3],
        bytes[at + 4],
        bytes[at + 5],
        bytes[at + 6],
        bytes[at + 7],
    ])
}

/// What two words differ in, 0 exactly where they are the same.
#[inline(always)]
fn difference(x: u64, y: u64) -> u64
    ensures same { x ≡ y → result ≡ 0 }
    ensures differ { result ≡ 0 → x ≡ y }
{
    x ^ y
}

impl Words {
    /// The number that 32 bytes are: RFC 7748's decodeLittleEndian.
    pub fn from_bytes(bytes: &[u8; 32]) -> Words
        ensures { joined result ≡ decode_little bytes.now }
    {
        Words {
            a: word(bytes, 0),
            b: word(bytes, 8),
            c: word(bytes, 16),
            d: word(bytes, 24),
        }
    }

    /// The 32 bytes of the number.
    pub fn to_bytes(self) -> [u8; 32]
        ensures { result ≡ encode (joined self) }
    {
        let [a0, a1, a2, a3, a4, a5, a6, a7] = self.a.to_le_bytes();
        let [b0, b1, b2, b3, b4, b5, b6, b7] = self.b.to_le_bytes();
        let [c0, c1, c2, c3, c4, c5, c6, c7] = self.c.to_le_bytes();
        let [d0, d1, d2, d3, d4, d5, d6, d7] = self.d.to_le_bytes();
        [
            a0, a1, a2, a3, a4, a5, a6, a7, b0, b1, b2, b3, b4, b5, b6, b7, c0, c1, c2, c3, c4, c5,
            c6, c7, d0, d1, d2, d3, d4, d5, d6, d7,
        ]
    }

    /// The scalar that 32 bytes are, clamped: RFC 7748's decodeScalar25519.
    pub fn from_scalar(bytes: &[u8; 32]) -> Words
        ensures { joined result ≡ decode_scalar bytes.now }
    {
        Words::from_bytes(bytes).clamp()
    }

    /// The number with its three lowest bits and its highest cleared, and the one below set.
    fn clamp(self) -> Words
        ensures { joined result ≡ 2 ^ 254 + joined self % 2 ^ 254 / 8 * 8 }
    {
        Words {
            a: self.a / 8 * 8,
            b: self.b,
            c: self.c,
            d: self.d % SET_BIT + SET_BIT,
        }
    }

    /// The bit at a place, which is public.
    #[inline]
    pub fn bit_at(self, place: u32) -> u64
        requires { place < 256 }
        ensures low { result < 2 }
        ensures bit { result ≡ joined self / 2 ^ place % 2 }
    {
        if place < 64 {
            (self.a >> place) % 2
        } else if place < 128 {
            (self.b >> (place - 64)) % 2
        } else if place < 192 {
            (self.c >> (place - 128)) % 2
        } else {
            (self.d >> (place - 192)) % 2
        }
    }

    /// Whether the two are one number, in the same steps for any.
    pub fn equals(self, other: Words) -> bool
        ensures { result ≡ (joined self == joined other) }
    {
        let a = difference(self.a, other.a) as u128;
        let b = difference(self.b, other.b) as u128;
        let c = difference(self.c, other.c) as u128;
        let d = difference(self.d, other.d) as u128;
        a + b + c + d == 0
    }

    /// Whether this is 0, in the same steps for any.
    pub fn is_zero(self) -> bool
        ensures { result ≡ (joined self == 0) }
    {
        self.a as u128 + self.b as u128 + self.c as u128 + self.d as u128 == 0
    }
}
