//! Boxes of the practice suite: a text combined with a stream made of a key, and its tag.

ghost use Rattle.std.specs.Prelude.{◌≡◌, ◌+◌, ◌-◌, ◌*◌, ◌<◌, ◌≤◌, ◌^◌, ◌++◌, length, take, drop, None, Ok, IfOk};
ghost use Rattle.mls_suite.specs.Sealings.{OpensTo};
ghost use Rattle.mls_suite.specs.Glass.{xor_with, stream_block, xor_with_stream, box_tag, make_box, open_box};

use crate::OutOfMemory;
use mls_kdf::{HmacKey, Secret};
use std::alloc::Global;

/// Combines the first bytes with those of a block of the stream.
fn xor_block(bytes: &mut [u8], block: &Secret)
    ensures { bytes.new ≡ xor_with bytes.old block.now }
{
    for i in 0..bytes.len().min(32) {
        bytes[i] ^= block[i];
    }
}

/// Combines the bytes from `start` on with those of a block of the stream, as far as both go.
fn xor_block_at(bytes: &mut [u8], start: usize, block: &Secret)
    requires { start ≤ length bytes.old }
    ensures { bytes.new ≡ take start bytes.old ++ xor_with (drop start bytes.old) block.now }
{
    xor_block(&mut bytes[start..], block);
}

/// Block i of the stream of a key.
#[tactic(auto, unfolding(crate::specs::Glass::stream_block))]
pub(crate) fn stream_block(key: &HmacKey, i: usize) -> Secret
    ensures { result ≡ stream_block key.now i }
{
    let counter = (i % (1 << 32)) as u32;
    key.mac(&[&[0x73], &counter.to_be_bytes()])
}

/// Combines the text with the stream of the key, in place.
fn xor_with_stream(key: &HmacKey, text: &mut [u8])
    ensures { text.new ≡ xor_with_stream key.now text.old }
{
    for i in 0..text.len().div_ceil(32) {
        xor_block_at(text, 32 * i, &stream_block(key, i));
    }
}

#[tactic(auto, unfolding(crate::specs::Glass::box_tag))]
fn box_tag(key: &HmacKey, body: &[u8]) -> Secret
    ensures { result ≡ box_tag key.now body.now }
{
    key.mac(&[&[0x74], body])
}

#[tactic(auto, unfolding(crate::specs::Glass::make_box))]
pub(crate) fn make_box(alloc: Global, key: &[u8], pt: &[u8]) -> Result<Vec<u8>, OutOfMemory>
    ensures { IfOk result (λ ct. ct.items ≡ make_box key.now pt.now) }
{
    let key = HmacKey::new(key);
    let mut bytes = Vec::with_capacity(alloc, pt.len() + 32)?;
    bytes.extend_from_slice(pt)?;
    xor_with_stream(&key, &mut bytes);
    let tag = box_tag(&key, &bytes);
    bytes.extend_from_slice(&tag)?;
    Ok(bytes)
}

#[tactic(auto, unfolding(crate::specs::Glass::open_box))]
pub(crate) fn open_box(alloc: Global, key: &[u8], ct: &[u8]) -> Result<Option<Vec<u8>>, OutOfMemory>
    ensures answer { OpensTo (open_box key.now ct.now) result }
    ensures refused { open_box key.now ct.now ≡ None → result ≡ Ok None }
{
    if ct.len() < 32 {
        return Ok(None);
    }
    let key = HmacKey::new(key);
    let (body, tag) = ct.split_at(ct.len() - 32);
    let made = box_tag(&key, body);
    if made.as_slice() != tag {
        return Ok(None);
    }
    let mut bytes = Vec::from_slice(alloc, body)?;
    xor_with_stream(&key, &mut bytes);
    Ok(Some(bytes))
}
