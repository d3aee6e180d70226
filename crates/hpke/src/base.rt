//! The key schedule, and sealing and opening in one shot, in base mode (RFC 9180, 5.1, 5.2 and 6.1).

ghost use Rattle.std.specs.Prelude.{◌≡◌, ◌++◌, [], ◌∷◌, codes, None, Ok};
ghost use Rattle.aes128gcm.specs.Opening.{Opens};
ghost use Rattle.hpke.specs.Sealing.{Seals};
ghost use Rattle.hpke.specs.Rfc9180.{hpke_suite_id, key, base_nonce, encap, encapsulated_key, decap, seal_base, open_base};

use crate::kem::{derive, dh, extract_and_expand, is_fit, is_zero, public_key};
use crate::labels::{labeled_expand, labeled_extract};
use mls_kdf::Secret;
use std::alloc::{AllocError, Global};

const SUITE_ID: [u8; 10] = [0x48, 0x50, 0x4b, 0x45, 0x00, 0x20, 0x00, 0x01, 0x00, 0x01];

/// suite_id of HPKE (RFC 9180, 5.1).
#[tactic(auto, unfolding(crate::specs::Rfc9180::hpke_suite_id))]
fn suite_id() -> [u8; 10]
    ensures { result ≡ hpke_suite_id }
{
    SUITE_ID
}

/// The key of the AEAD and the nonce of the first message (RFC 9180, 5.1 and 5.2).
#[derive(Drop)]
struct Context {
    key: [u8; 16],
    nonce: [u8; 12],
}

/// KeySchedule in base mode (RFC 9180, 5.1).
#[tactic(auto, unfolding(crate::specs::Rfc9180::key, crate::specs::Rfc9180::base_nonce, crate::specs::Rfc9180::secret, crate::specs::Rfc9180::key_schedule_context))]
fn key_schedule(shared_secret: &Secret, info: &[u8]) -> Context
    ensures key { result.key ≡ key shared_secret.now info.now }
    ensures nonce { result.nonce ≡ base_nonce shared_secret.now info.now }
{
    let suite_id = suite_id();
    let psk_id_hash = labeled_extract(&suite_id, b"", b"psk_id_hash", b"");
    let info_hash = labeled_extract(&suite_id, b"", b"info_hash", info);
    let secret = labeled_extract(&suite_id, shared_secret, b"secret", b"");
    let mut key = [0; 16];
    labeled_expand(
        &suite_id,
        &secret,
        b"key",
        &[0],
        &psk_id_hash,
        &info_hash,
        &mut key,
    );
    let mut nonce = [0; 12];
    labeled_expand(
        &suite_id,
        &secret,
        b"base_nonce",
        &[0],
        &psk_id_hash,
        &info_hash,
        &mut nonce,
    );
    Context { key, nonce }
}

/// What is sealed to a public key: the encapsulated key and the ciphertext (RFC 9180, 6.1).
#[derive(Drop)]
pub struct Sealed {
    pub enc: [u8; 32],
    pub ct: Vec<u8>,
}

/// Seals `pt` to a public key, with the ephemeral key pair of 32 random bytes `ikm` (SealBase:
/// RFC 9180, 6.1). None where the key isn't fit, also when an allocation fails, or `OutOfMemory`. The
/// shared value isn't tested for zero, as RFC 9180 (7.1.4) asks: unfit keys are refused in its place.
#[tactic(auto, unfolding(crate::specs::Rfc9180::seal_base, crate::specs::Rfc9180::context_seal, crate::specs::Rfc9180::encap, crate::specs::Rfc9180::encapsulated_key, crate::specs::Rfc9180::is_fit))]
pub fn seal(
    alloc: Global,
    pk: &[u8],
    info: &[u8],
    aad: &[u8],
    pt: &[u8],
    ikm: &[u8; 32],
) -> Result<Option<Sealed>, AllocError>
    ensures answer { Seals result (seal_base pk.now info.now aad.now pt.now ikm.now) }
    ensures refused { seal_base pk.now info.now aad.now pt.now ikm.now ≡ None → result ≡ Ok None }
{
    if !is_fit(pk) {
        return Ok(None);
    }
    let mut key = [0; 32];
    key.copy_from_slice(pk);
    let ephemeral = derive(ikm);
    let enc = public_key(&ephemeral);
    let shared_secret = extract_and_expand(&dh(&ephemeral, &key), &enc, &key);
    let context = key_schedule(&shared_secret, info);
    let ct = aes128gcm::seal(alloc, &context.key, &context.nonce, aad, pt)?;
    Ok(Some(Sealed { enc, ct }))
}

/// Opens what was sealed to the public key of `sk` (OpenBase: RFC 9180, 6.1). None where the tag
/// differs, where `enc` hasn't 32 bytes (7.1.1) and where the shared value is zero (7.1.4), also when
/// an allocation fails, or `OutOfMemory`.
#[tactic(auto, unfolding(crate::specs::Rfc9180::open_base, crate::specs::Rfc9180::context_open, crate::specs::Rfc9180::decap))]
pub fn open(
    alloc: Global,
    sk: &[u8; 32],
    enc: &[u8],
    info: &[u8],
    aad: &[u8],
    ct: &[u8],
) -> Result<Option<Vec<u8>>, AllocError>
    ensures answer { Opens result (open_base enc.now sk.now info.now aad.now ct.now) }
    ensures refused { open_base enc.now sk.now info.now aad.now ct.now ≡ None → result ≡ Ok None }
{
    if enc.len() != 32 {
        return Ok(None);
    }
    let mut key = [0; 32];
    key.copy_from_slice(enc);
    let value = dh(sk, &key);
    if is_zero(&value) {
        return Ok(None);
    }
    let shared_secret = extract_and_expand(&value, &key, &public_key(sk));
    let context = key_schedule(&shared_secret, info);
    aes128gcm::open(alloc, &context.key, &context.nonce, aad, ct)
}
