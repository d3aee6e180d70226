//! GCM with AES-128, nonces of 96 bits and tags of 128 (SP 800-38D): sealing, and the steps of
//! opening.

ghost use Rattle.std.specs.Prelude.{◌≡◌, ℕ, ◌+◌, ◌-◌, ◌*◌, ◌/◌, ◌%◌, ◌^◌, ◌<◌, ◌≤◌, ◌++◌, [], ◌∷◌, true, length, take, drop, IfOk, slice_index_or};
ghost use Rattle.std.specs.Str.{bytes_eq};
ghost use Rattle.aes128gcm.specs.Aes.{xor_with, cipher};
ghost use Rattle.aes128gcm.specs.Gcm.{crypt, hash_input, ghash, tag, gcm_ae};
ghost use Rattle.aes128gcm.specs.Parts.{count_block, block_number, absorb_padded};

use crate::blocks::Block;
use crate::ghash::GhashKey;
use crate::keys::{Aes128, xor_into};
use std::alloc::{AllocError, Global};

/// The block of a nonce and a count.
#[tactic(auto, unfolding(crate::specs::Parts::count_block))]
fn count_block(nonce: &[u8; 12], i: u32) -> Block
    ensures { result ≡ count_block nonce.now i }
{
    let mut block = [0; 16];
    block[..12].copy_from_slice(nonce);
    block[12..].copy_from_slice(&i.to_be_bytes());
    block
}

/// The count of block i of the key stream, which begins at 2 (SP 800-38D, 7.1).
fn count(i: usize) -> u32
    requires { i < 2 ^ 63 }
    ensures { result ≡ (i + 2) % 2 ^ 32 }
{
    ((i + 2) % (1 << 32)) as u32
}

/// Four blocks of the key stream, from block i on.
fn stream_blocks(key: &Aes128, nonce: &[u8; 12], i: usize) -> [Block; 4]
    requires { i + 3 < 2 ^ 63 }
    ensures first { slice_index_or result 0 [] ≡ cipher key.now (count_block nonce.now (i + 2)) }
    ensures second { slice_index_or result 1 [] ≡ cipher key.now (count_block nonce.now (i + 3)) }
    ensures third { slice_index_or result 2 [] ≡ cipher key.now (count_block nonce.now (i + 4)) }
    ensures fourth { slice_index_or result 3 [] ≡ cipher key.now (count_block nonce.now (i + 5)) }
{
    let first = count_block(nonce, count(i));
    let second = count_block(nonce, count(i + 1));
    let third = count_block(nonce, count(i + 2));
    let fourth = count_block(nonce, count(i + 3));
    key.encrypt_four(&first, &second, &third, &fourth)
}

/// Adds a block to the bytes from `start` on.
fn xor_at(bytes: &mut [u8], start: usize, block: &Block)
    ensures { bytes.new ≡ take start bytes.old ++ xor_with (drop start bytes.old) block.now }
{
    if start <= bytes.len() {
        xor_into(&mut bytes[start..], block);
    }
}

/// GCTR from the second counter block on (SP 800-38D, 6.5 and 7.1).
fn crypt(key: &Aes128, nonce: &[u8; 12], text: &mut [u8])
    ensures { text.new ≡ crypt key.now nonce.now text.old }
{
    for i in 0..text.len().div_ceil(64) {
        let [a, b, c, d] = stream_blocks(key, nonce, 4 * i);
        xor_at(text, 64 * i, &a);
        xor_at(text, 64 * i + 16, &b);
        xor_at(text, 64 * i + 32, &c);
        xor_at(text, 64 * i + 48, &d);
    }
}

/// Up to 16 bytes with zeros behind, as a number.
#[tactic(auto, unfolding(crate::specs::Parts::block_number))]
fn block_number(part: &[u8]) -> u128
    requires { length part.now ≤ 16 }
    ensures { result ≡ block_number part.now }
{
    let mut block = [0; 16];
    block[..part.len()].copy_from_slice(part);
    u128::from_be_bytes(block)
}

/// Two words of 64 bits, one after another.
fn concat_lengths(a: [u8; 8], b: [u8; 8]) -> Block
    ensures { result ≡ a ++ b }
{
    let mut block = [0; 16];
    block[..8].copy_from_slice(&a);
    block[8..].copy_from_slice(&b);
    block
}

/// GHASH of more bytes, padded, from a state (SP 800-38D, 6.4).
fn absorb(h: &GhashKey, from: u128, bytes: &[u8]) -> u128
    ensures { result ≡ absorb_padded h.now from bytes.now }
{
    let mut copies = [0; 128];
    let mut y = from;
    for i in 0..bytes.len().div_ceil(16) {
        let end = bytes.len().min(16 * i + 16);
        y = h.multiply(y ^ block_number(&bytes[16 * i..end]), &mut copies);
    }
    y
}

/// GHASH of additional data, ciphertext and their lengths (SP 800-38D, 7.1).
fn hash(h: &GhashKey, aad: &[u8], ct: &[u8]) -> u128
    ensures { result ≡ ghash h.now (hash_input aad.now ct.now) }
{
    let y = absorb(h, absorb(h, 0, aad), ct);
    let aad_bits = (aad.len() as u64).wrapping_mul(8);
    let ct_bits = (ct.len() as u64).wrapping_mul(8);
    absorb(
        h,
        y,
        &concat_lengths(aad_bits.to_be_bytes(), ct_bits.to_be_bytes()),
    )
}

/// The tag of a ciphertext (SP 800-38D, 7.1).
fn tag(key: &Aes128, nonce: &[u8; 12], aad: &[u8], ct: &[u8]) -> Block
    ensures { result ≡ tag key.now nonce.now aad.now ct.now }
{
    let h = GhashKey::new(block_number(&key.encrypt(&[0; 16])));
    let mut tag = hash(&h, aad, ct).to_be_bytes();
    xor_into(&mut tag, &key.encrypt(&count_block(nonce, 1)));
    tag
}

/// Whether two tags are the same: all differences are folded before one is looked at.
fn same_tag(a: &Block, b: &[u8]) -> bool
    requires { length b.now ≡ 16 }
    ensures { result ≡ bytes_eq a.now b.now }
{
    let mut difference = 0;
    for i in 0..16usize {
        difference |= a[i] ^ b[i];
    }
    difference == 0
}

/// Seals `pt`: the ciphertext with its tag of 16 bytes behind it (GCM-AE: SP 800-38D, 7.1;
/// RFC 5116, 5.1), or `OutOfMemory`.
#[tactic(auto, unfolding(crate::specs::Gcm::gcm_ae))]
pub fn seal(
    alloc: Global,
    key: &[u8; 16],
    nonce: &[u8; 12],
    aad: &[u8],
    pt: &[u8],
) -> Result<Vec<u8>, AllocError>
    ensures { IfOk result (λ ct. ct.items ≡ gcm_ae key.now nonce.now aad.now pt.now) }
{
    let mut bytes = Vec::with_capacity(alloc, pt.len() + 16)?;
    bytes.extend_from_slice(pt)?;
    let key = Aes128::new(key);
    crypt(&key, nonce, &mut bytes);
    let tag = tag(&key, nonce, aad, &bytes);
    bytes.extend_from_slice(&tag)?;
    Ok(bytes)
}

/// Whether `sent` is the tag of a ciphertext (SP 800-38D, 7.2). It takes no memory.
pub(crate) fn is_tag(key: &Aes128, nonce: &[u8; 12], aad: &[u8], ct: &[u8], sent: &[u8]) -> bool
    requires { length sent.now ≡ 16 }
    ensures { result ≡ bytes_eq (tag key.now nonce.now aad.now ct.now) sent.now }
{
    same_tag(&tag(key, nonce, aad, ct), sent)
}

/// The text of a ciphertext whose tag is the one sent, or `OutOfMemory` (SP 800-38D, 7.2). The tags
/// are compared before it is called.
pub(crate) fn decrypt(
    alloc: Global,
    key: &Aes128,
    nonce: &[u8; 12],
    _aad: &[u8],
    ct: &[u8],
    _sent: &[u8],
) -> Result<Vec<u8>, AllocError>
    requires { bytes_eq (tag key.now nonce.now _aad.now ct.now) _sent.now ≡ true }
    ensures { IfOk result (λ text. text.items ≡ crypt key.now nonce.now ct.now) }
{
    let mut bytes = Vec::from_slice(alloc, ct)?;
    crypt(key, nonce, &mut bytes);
    Ok(bytes)
}
