//! Saved bytes that were cut, or of which one bit was turned: how many of them are loaded.

use mls_suite::OutOfMemory;
use std::alloc::Global;

/// The bits of a byte.
const BITS: [u8; 8] = [1, 2, 4, 8, 16, 32, 64, 128];

/// What is saved as bytes.
pub(crate) trait Saved {
    /// Whether the bytes are loaded.
    fn is_loaded(alloc: Global, bytes: &[u8]) -> bool;
}

/// How many prefixes are loaded, the whole aside.
pub(crate) fn loaded_prefixes<S: Saved>(alloc: Global, bytes: &[u8]) -> usize {
    let mut count: usize = 0;
    for end in 0..bytes.len() {
        if S::is_loaded(alloc, &bytes[..end]) {
            count = count.saturating_add(1);
        }
    }
    count
}

/// How many of the eight changes of one bit of a byte are loaded.
fn loaded_bits<S: Saved>(alloc: Global, bytes: &[u8], place: usize) -> Result<usize, OutOfMemory> {
    let mut changed = Vec::from_slice(alloc, bytes)?;
    let mut count: usize = 0;
    for bit in BITS {
        if place < bytes.len() {
            changed[place] = bytes[place] ^ bit;
        }
        if S::is_loaded(alloc, &changed) {
            count = count.saturating_add(1);
        }
    }
    Ok(count)
}

/// How many changes of one bit are loaded.
pub(crate) fn loaded_changes<S: Saved>(alloc: Global, bytes: &[u8]) -> Result<usize, OutOfMemory> {
    let mut count: usize = 0;
    for place in 0..bytes.len() {
        count = count.saturating_add(loaded_bits::<S>(alloc, bytes, place)?);
    }
    Ok(count)
}
