//! Changes of a message: bits turned, ends cut, bytes added.

use crate::outcome::{Runs, Tally};
use crate::trial::Trial;
use anyhow::{Result, bail};
use std::alloc::{AllocError, Global};

/// A message with some bits of one byte turned.
pub fn turn_bits(
    alloc: Global,
    message: &[u8],
    place: usize,
    bits: u8,
) -> Result<Vec<u8>, AllocError> {
    let mut bytes = Vec::from_slice(alloc, message)?;
    if let Some(byte) = bytes.get_mut(place) {
        *byte ^= bits;
    }
    Ok(bytes)
}

/// A message with a zero behind it.
fn append_zero(alloc: Global, message: &[u8]) -> Result<Vec<u8>, AllocError> {
    let mut bytes = Vec::from_slice(alloc, message)?;
    bytes.push(0)?;
    Ok(bytes)
}

/// What each byte's lowest bit, turned, is answered.
pub fn lowest_bits(alloc: Global, trial: &mut Trial<'_>, message: &[u8]) -> Result<Runs> {
    let mut runs = Runs::new(alloc);
    for place in 0..message.len() {
        let bytes = turn_bits(alloc, message, place, 1)?;
        runs.add(place, trial.give(alloc, &bytes)?)?;
    }
    Ok(runs)
}

/// What each proper prefix is answered, by its length, and then the message with a byte behind it.
pub fn lengths(alloc: Global, trial: &mut Trial<'_>, message: &[u8]) -> Result<Runs> {
    let mut runs = Runs::new(alloc);
    for length in 0..message.len() {
        runs.add(length, trial.give(alloc, &message[..length])?)?;
    }
    let longer = append_zero(alloc, message)?;
    runs.add(longer.len(), trial.give(alloc, &longer)?)?;
    Ok(runs)
}

/// Each bit of each byte, turned.
fn all_bits(alloc: Global, trial: &mut Trial<'_>, message: &[u8], tally: &mut Tally) -> Result<()> {
    for place in 0..message.len() {
        for bits in [1, 2, 4, 8, 16, 32, 64, 128] {
            let bytes = turn_bits(alloc, message, place, bits)?;
            tally.add_at(place, trial.give(alloc, &bytes)?)?;
        }
    }
    Ok(())
}

/// Each proper prefix, and a byte added.
fn all_lengths(
    alloc: Global,
    trial: &mut Trial<'_>,
    message: &[u8],
    tally: &mut Tally,
) -> Result<()> {
    for length in 0..message.len() {
        tally.add(trial.give(alloc, &message[..length])?);
    }
    let longer = append_zero(alloc, message)?;
    tally.add(trial.give(alloc, &longer)?);
    Ok(())
}

/// Every change of a message. A member takes none of them.
pub fn all_changes(
    alloc: Global,
    trial: &mut Trial<'_>,
    message: &[u8],
    tally: &mut Tally,
) -> Result<()> {
    let before = tally.taken_count();
    all_bits(alloc, trial, message, tally)?;
    all_lengths(alloc, trial, message, tally)?;
    if trial.is_member() && tally.taken_count() != before {
        bail!("a member took a changed message");
    }
    Ok(())
}
