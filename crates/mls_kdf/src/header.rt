//! The header of a content whose length has one.

ghost use Rattle.std.specs.Prelude.{◌≡◌, ◌<◌, ◌≤◌, ◌^◌};
ghost use Rattle.mls_wire.specs.Reading.{header};

use mls_wire::{Header, length_header};

/// The header (RFC 9420, 2.1.2) of a content of `len` bytes, less than 2^30.
pub fn content_header(len: usize) -> Header
    requires { len < 2 ^ 30 }
    ensures { result ≡ header len }
{
    length_header(len as u32).unwrap()
}
