//! Spellings that only want of memory stands in the way of.

ghost use Rattle.std.specs.Prelude.{◌≡◌, IfOk};

use mls_leaf::{Codec, bytes_or_out_of_memory};
use std::alloc::{AllocError, Global};

/// The spelling of a value that has one.
pub(crate) fn spelling<T: Codec>(alloc: Global, value: &T) -> Result<Vec<u8>, AllocError>
    requires { T.format.Fits value.now }
    ensures { IfOk result (λ v. v.items ≡ T.format.spell value.now) }
{
    bytes_or_out_of_memory(value.encode(alloc))
}
