//! The laws of X25519, each on the contract of a function that does nothing.
ghost use Rattle.std.specs.Prelude.{◌≡◌};
ghost use Rattle.curve25519.specs.X25519.{nine};
ghost use Rattle.x25519.specs.Rfc7748.{decode_u, nine_bytes};
ghost use Rattle.x25519.specs.Laws.{ExchangeLaw, NonzeroLaw, HighOrderLaw};

/// The bytes of the base point are those of its u-coordinate (RFC 7748, 4.1).
pub fn nine_law()
    ensures { decode_u nine_bytes ≡ nine }
{}

/// Two parties, whatever their secrets, come to one shared secret.
pub fn exchange_law()
    ensures { ExchangeLaw }
{}

/// What a secret makes of a public key is never 0.
pub fn nonzero_law()
    ensures { NonzeroLaw }
{}

/// No public key is of low order.
pub fn high_order_law()
    ensures { HighOrderLaw }
{}
