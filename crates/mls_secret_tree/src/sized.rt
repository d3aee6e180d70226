//! Byte strings that have a length of their own in a saved form.

ghost use Rattle.mls_leaf.specs.Faults.{ReadsFrontNow, AddsSpelling};
ghost use Rattle.mls_secret_tree.specs.Saved.{sized};

use mls_leaf::LeafError;
use mls_wire::{Reader, WireError, Writer};

/// Reads a byte string of N bytes: `BadLength` (4) where it has another length.
#[tactic(auto, unfolding(crate::specs::Saved::sized))]
pub(crate) fn read_sized<const N: usize>(reader: &mut Reader<'_>) -> Result<[u8; N], LeafError>
    ensures { ReadsFrontNow (sized N) reader.old result reader.new }
{
    match <[u8; N]>::try_from(reader.opaque()?) {
        Ok(bytes) => Ok(bytes),
        Err(_) => Err(LeafError::Wire(WireError::BadLength)),
    }
}

/// Adds a byte string of N bytes.
#[tactic(auto, unfolding(crate::specs::Saved::sized))]
pub(crate) fn write_sized<const N: usize>(
    bytes: &[u8; N],
    writer: &mut Writer,
) -> Result<(), LeafError>
    ensures { AddsSpelling (sized N) bytes.now writer.old result writer.new }
{
    writer.opaque(bytes)?;
    Ok(())
}
