//! Bytes that C passes.

ghost use Rattle.std.specs.Prelude.{◌≡◌};
ghost use Rattle.mls_calls.specs.Given.{IsCopy, IsNone};

use crate::error::MisuseError;
use std::alloc::Global;

// The number of a refused growth.
pub(crate) const OUT_OF_MEMORY: u32 = 1;

/// The copy of bytes that C passed, or the number of why there is none.
#[derive(Drop)]
pub struct Given {
    /// The bytes.
    pub bytes: Result<Vec<u8>, u32>,
}

/// A copy of bytes, or `OutOfMemory` (1).
pub(crate) fn copy_of(alloc: Global, bytes: &[u8]) -> Result<Vec<u8>, u32>
    ensures { IsCopy bytes.now result }
{
    match Vec::from_slice(alloc, bytes) {
        Ok(copy) => Ok(copy),
        Err(_) => Err(OUT_OF_MEMORY),
    }
}

/// A copy of bytes that were passed.
pub fn given_of(alloc: Global, bytes: &[u8]) -> Given
    ensures { IsCopy bytes.now result.bytes }
{
    Given {
        bytes: copy_of(alloc, bytes),
    }
}

/// What stands for bytes at null: none, or `NullBytes` (132) where they have a length.
pub fn none_given(alloc: Global, length: usize) -> Given
    ensures { IsNone length result.bytes }
{
    Given {
        bytes: if length == 0 {
            Ok(Vec::new(alloc))
        } else {
            Err(MisuseError::NullBytes.number())
        },
    }
}
