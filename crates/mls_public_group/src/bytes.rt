//! What the type of bytes tells of a text.

ghost use Rattle.mls_wire.specs.Format.{IsBytes};

/// A law: entries of a slice are bytes.
pub fn know_bytes(bytes: &[u8])
    ensures { IsBytes bytes.now }
{}
