//! The laws of Ed25519, each on the contract of a function that does nothing.
ghost use Rattle.ed25519.specs.Laws.{DecodesEncoded, EncodesDecoded, VerifiesSigned};

/// A point of the curve comes back from its 32 bytes.
pub fn decodes_encoded()
    ensures { DecodesEncoded }
{}

/// What 32 bytes decode to is a point of the curve, and they are its bytes.
pub fn encodes_decoded()
    ensures { EncodesDecoded }
{}

/// What is signed with a secret verifies under the secret's public key.
pub fn verifies_signed()
    ensures { VerifiesSigned }
{}
