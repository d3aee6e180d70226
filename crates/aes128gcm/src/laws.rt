//! The laws, each the contract of a function that does nothing.

ghost use Rattle.aes128gcm.specs.Laws.{OpensSealed, OpensWhereTagged, InverseInverts};

/// What is sealed is opened under the same key, nonce and additional data.
pub fn opens_sealed()
    ensures { OpensSealed }
{}

/// An input opens exactly where it ends with the tag of what is before it.
pub fn opens_where_tagged()
    ensures { OpensWhereTagged }
{}

/// A byte that isn't 0 times its inverse is one.
pub fn inverse_inverts()
    ensures { InverseInverts }
{}
