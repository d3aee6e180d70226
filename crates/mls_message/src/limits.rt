//! How long texts are.

ghost use Rattle.std.specs.Prelude.{◌≡◌, ◌+◌, ◌<◌, ◌≤◌, ◌^◌, length};
ghost use Rattle.mls_wire.specs.Reading.{opaque};
ghost use Rattle.mls_leaf.specs.Limits.{input_limit};
ghost use Rattle.mls_public_group.specs.MessageLimit.{FitsIfShort};
ghost use Rattle.mls_message.specs.Pieces.{HasRoom, SpellsWithin};

use mls_kdf::content_header;
use mls_leaf::{Codec, INPUT_LIMIT, LeafError};
use mls_wire::WireError;
use std::alloc::Global;

/// `TooLong` (6) where a text with so many bytes more behind it is larger than a message may be.
pub(crate) fn require_room(text: &[u8], more: usize) -> Result<(), LeafError>
    requires { more ≤ input_limit }
    ensures { HasRoom text.now more result }
{
    if text.len() > INPUT_LIMIT - more {
        return Err(LeafError::Wire(WireError::TooLong));
    }
    Ok(())
}

/// The spelling of a value whose numbers are in range: `TooLong` (6) where it alone is larger than a message may be.
pub(crate) fn spell_within_limit<T: Codec>(alloc: Global, value: &T) -> Result<Vec<u8>, LeafError>
    requires { FitsIfShort T.format value.now }
    ensures { SpellsWithin T.format value.now result }
{
    let bytes = value.encode(alloc)?;
    require_room(&bytes, 0)?;
    Ok(bytes)
}

/// How many bytes a vector with this content has (RFC 9420, 2.1.2).
pub(crate) fn vector_length(content: &[u8]) -> usize
    requires { length content.now < 2 ^ 30 }
    ensures length { result ≡ length (opaque content.now) }
    ensures short { result ≤ 2 ^ 30 + 4 }
{
    content_header(content.len()).as_slice().len() + content.len()
}
