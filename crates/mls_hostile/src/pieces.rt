//! Pieces of messages.

ghost use Rattle.std.specs.Prelude.{◌≡◌, ◌<◌, ◌^◌, length, IfOk};

use anyhow::{Result, bail};
use mls_leaf::INPUT_LIMIT;
use std::alloc::Global;

/// The bytes, where they are no more than a message may have.
pub fn check_limit(bytes: &[u8]) -> Result<&[u8]>
    ensures same { IfOk result (λ v. v.now ≡ bytes.now) }
    ensures short { IfOk result (λ v. length v.now < 2 ^ 30) }
{
    if bytes.len() > INPUT_LIMIT {
        bail!("too long");
    }
    Ok(bytes)
}

/// Pieces one after another.
pub fn concatenate(alloc: Global, pieces: &[&[u8]]) -> Result<Vec<u8>>
    ensures { IfOk result (λ v. length v.items < 2 ^ 30) }
{
    let mut bytes = Vec::new(alloc);
    for piece in pieces {
        bytes.extend_from_slice(piece)?;
    }
    check_limit(&bytes)?;
    Ok(bytes)
}

/// The bytes except for the last ones.
pub fn without_last(bytes: &[u8], behind: usize) -> &[u8] {
    let (front, _) = bytes.split_at(bytes.len().saturating_sub(behind));
    front
}

/// The last bytes.
pub fn last_bytes(bytes: &[u8], count: usize) -> &[u8] {
    let (_, last_bytes) = bytes.split_at(bytes.len().saturating_sub(count));
    last_bytes
}

/// Where a text begins in a longer one.
pub fn place_of(bytes: &[u8], text: &[u8]) -> Result<usize> {
    for place in 0..bytes.len() {
        let (_, rest) = bytes.split_at(place);
        if rest.starts_with(text) {
            return Ok(place);
        }
    }
    bail!("the text isn't there");
}

/// The bytes with a text over those that begin at a place.
pub fn with_text(alloc: Global, bytes: &[u8], place: usize, text: &[u8]) -> Result<Vec<u8>> {
    let end = place.saturating_add(text.len());
    if end > bytes.len() {
        bail!("the text runs over the end");
    }
    let (front, _) = bytes.split_at(place);
    let (_, rest) = bytes.split_at(end);
    concatenate(alloc, &[front, text, rest])
}

/// The bytes with a text in the place of another, where that stands first.
pub fn replace_text(alloc: Global, bytes: &[u8], old: &[u8], new: &[u8]) -> Result<Vec<u8>> {
    let place = place_of(bytes, old)?;
    let rest = bytes.len().saturating_sub(place).saturating_sub(old.len());
    let front = without_last(bytes, bytes.len().saturating_sub(place));
    concatenate(alloc, &[front, new, last_bytes(bytes, rest)])
}
