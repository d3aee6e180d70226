//! X25519, as in RFC 7748.
//!
//! No branch and no index depends on a scalar or a coordinate: the ladder swaps by masks, and every loop
//! has a fixed count. `tools/curve25519/count-instructions` counts what the built program does; nothing is
//! claimed of the compiled code, and secrets aren't wiped.
#![tactic(auto)]

mod ladder;
mod laws;

ghost use Rattle.std.specs.Prelude.{◌≡◌};
ghost use Rattle.x25519.specs.Rfc7748.{nine_bytes, x25519_bytes, clear_cofactor_bytes};

use field25519::{Element, Words};
use ladder::Ladder;
pub use laws::{exchange_law, high_order_law, nine_law, nonzero_law};

/// The bytes of the base point's u-coordinate, 9.
pub const BASE_POINT: [u8; 32] = [
    9, 0, 0, 0, 0, 0, 0, 0, 0, 0, 0, 0, 0, 0, 0, 0, 0, 0, 0, 0, 0, 0, 0, 0, 0, 0, 0, 0, 0, 0, 0, 0,
];

/// The u-coordinate of the scalar times the point (RFC 7748, section 5).
#[inline(never)]
pub fn x25519(scalar: &[u8; 32], u: &[u8; 32]) -> [u8; 32]
    ensures { result ≡ x25519_bytes scalar.now u.now }
{
    let point = Element::from_words(Words::from_bytes(u));
    let end = Ladder::climb(Words::from_scalar(scalar), &point);
    end.affine().words().to_bytes()
}

/// The public key of a secret (RFC 7748, section 6.1).
pub fn public_key(secret: &[u8; 32]) -> [u8; 32]
    ensures { result ≡ x25519_bytes secret.now nine_bytes }
{
    x25519(secret, &BASE_POINT)
}

/// The u-coordinate of eight times the point, 8 being the cofactor of the curve.
pub fn clear_cofactor(u: &[u8; 32]) -> [u8; 32]
    ensures { result ≡ clear_cofactor_bytes u.now }
{
    let point = Element::from_words(Words::from_bytes(u));
    let end = Ladder::eight_times(&point);
    end.affine().words().to_bytes()
}
