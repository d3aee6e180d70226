//! The curve of X25519 and Ed25519: its laws, each on the contract of a function that does nothing.
#![tactic(auto)]

ghost use Rattle.std.specs.Prelude.{◌≡◌, ◌≢◌, ◌%◌};
ghost use Rattle.curve25519.specs.Curve25519.{d, root_of_minus_one, On, multiple, origin, u_of, base, order};
ghost use Rattle.curve25519.specs.Field25519.{prime, field, residue, least};
ghost use Rattle.curve25519.specs.X25519.{nine};
ghost use Rattle.curve25519.specs.Laws.{IsPrime, InverseLaw, ClosedLaw, AssociativeLaw, CommutativeLaw, NeutralLaw};
ghost use Rattle.curve25519.specs.Laws.{OppositeLaw, PowerLaw, MultipleLaw, LadderLaw, CofactorLaw};
ghost use Rattle.curve25519.specs.Laws.{LowOrderLaw, ExchangeLaw, SignatureLaw};

/// The modulus and the order of the base point are prime.
pub fn prime_law()
    ensures modulus { IsPrime prime }
    ensures order { IsPrime order }
{}

/// What isn't 0 has an inverse.
pub fn inverse_law()
    ensures { InverseLaw }
{}

/// Powers count their factors.
pub fn power_law()
    ensures { PowerLaw }
{}

/// The curve's constant is -121665 / 121666 (RFC 8032, 5.1), and the root is one of -1 (5.1.3).
pub fn constant_law()
    ensures constant { field.mul (residue 121666) d ≡ field.neg (residue 121665) }
    ensures root { field.mul root_of_minus_one root_of_minus_one ≡ field.neg field.one }
{}

/// The points of the curve are a commutative group.
pub fn group_law()
    ensures closed { ClosedLaw }
    ensures associative { AssociativeLaw }
    ensures commutative { CommutativeLaw }
    ensures neutral { NeutralLaw }
    ensures opposite { OppositeLaw }
{}

/// Multiples count how often a point is added up.
pub fn multiple_law()
    ensures { MultipleLaw }
{}

/// The base point's y is 4 / 5, its x is even (RFC 8032, 5.1), and its u-coordinate is 9 (RFC 7748,
/// 4.1).
pub fn base_law()
    ensures height { field.mul (residue 5) base.1 ≡ residue 4 }
    ensures even { least base.0 % 2 ≡ 0 }
    ensures coordinate { u_of base ≡ nine }
{}

/// The base point is a point of the curve, and its order is L.
pub fn order_law()
    ensures on { On base }
    ensures moves { base ≢ origin }
    ensures turns { multiple base order ≡ origin }
{}

/// The ladder computes the u-coordinates of multiples.
pub fn ladder_law()
    ensures { LadderLaw }
{}

/// Clearing the cofactor computes the u-coordinate of eight times a point, 0 where that is neutral.
pub fn cofactor_law()
    ensures eight_times { CofactorLaw }
    ensures low_order { LowOrderLaw }
{}

/// Two clamped scalars of X25519 may be used in either order.
pub fn exchange_law()
    ensures { ExchangeLaw }
{}

/// What a verifier of Ed25519 compares is equal for what a signer makes.
pub fn signature_law()
    ensures { SignatureLaw }
{}
