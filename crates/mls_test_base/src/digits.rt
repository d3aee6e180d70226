//! Bytes from hex digits.
//!
//! A test makes one call or two, which promise nothing: its proof would carry the clauses of each call.

ghost use Rattle.std.specs.Prelude.{◌≡◌, ◌<◌, ◌^◌, length, IfOk, vec_len};

use std::alloc::{AllocError, Global};

pub(crate) fn bytes_of(alloc: Global, digits: &str) -> Result<Vec<u8>, AllocError> {
    match hex::decode(alloc, digits.as_bytes()) {
        Ok(bytes) => Ok(bytes),
        Err(_) => Err(AllocError),
    }
}

/// The bytes of no more digits than 2,000.
pub(crate) fn short_bytes_of(alloc: Global, digits: &str) -> Result<Vec<u8>, AllocError>
    ensures { IfOk result (λ v. length v.items < 2 ^ 30) }
{
    let bytes = bytes_of(alloc, digits)?;
    if bytes.len() > 1_000 {
        return Err(AllocError);
    }
    Ok(bytes)
}

/// Whether bytes have these digits.
pub(crate) fn are(alloc: Global, bytes: &[u8], digits: &str) -> Result<bool, AllocError> {
    Ok(bytes_of(alloc, digits)?.as_slice() == bytes)
}

/// So many ones.
pub(crate) fn ones(alloc: Global, n: usize) -> Result<Vec<u8>, AllocError>
    ensures { IfOk result (λ v. vec_len v ≡ n) }
{
    vec![in alloc; 1; n]
}

/// Whether all of the bytes are ones.
pub(crate) fn are_ones(bytes: &[u8]) -> bool {
    for byte in bytes {
        if *byte != 1 {
            return false;
        }
    }
    true
}
