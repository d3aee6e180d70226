//! The laws, each the contract of a function that does nothing.

ghost use Rattle.hpke.specs.Laws.{OpensSealed, SealsWhereFit, PublicIsFit, PublicIsShort};

/// What is sealed to the public key of a private key is opened by it, under the same info and additional
/// data.
pub fn opens_sealed()
    ensures { OpensSealed }
{}

/// Sealing succeeds exactly where the key is fit.
pub fn seals_where_fit()
    ensures { SealsWhereFit }
{}

/// Each public key is fit.
pub fn public_is_fit()
    ensures { PublicIsFit }
{}

/// A public key has 32 bytes.
pub fn public_is_short()
    ensures { PublicIsShort }
{}
