//! Glass, the practice suite. It hides nothing: anyone who knows a public key can open and sign. It
//! exists so that the laws of a suite have an implementation, and examples have bytes.

ghost use Rattle.std.specs.Prelude.{◌≡◌, ◌<◌, refl};
ghost use Rattle.mls_suite.specs.Glass.{glass, glass_public, glass_sig_public, glass_box_key, glass_aead_key};
ghost use Rattle.mls_suite.specs.GlassLaws.{glass_lawful};

use crate::boxes::{make_box, open_box};
use crate::{KeyPair, OutOfMemory, Sealed, Suite};
use mls_kdf::{Secret, hash, hmac};
use std::alloc::Global;

/// The practice suite, under the private number 0xF001.
pub struct Glass;

#[tactic(auto, unfolding(crate::specs::Glass::glass_box_key))]
fn box_key(pk: &[u8], kem: &[u8], info: &[u8]) -> Secret
    ensures { result ≡ glass_box_key pk.now kem.now info.now }
{
    hmac(pk, &[b"glass kem", kem, info])
}

#[tactic(auto, unfolding(crate::specs::Glass::glass_aead_key))]
fn aead_key(key: &[u8], nonce: &[u8], aad: &[u8]) -> Secret
    ensures { result ≡ glass_aead_key key.now nonce.now aad.now }
{
    hmac(key, &[b"glass aead", nonce, aad])
}

fn public_key(sk: &[u8; 32]) -> Secret
    ensures { result ≡ glass_public sk.now }
{
    hash(&[b"glass public", sk])
}

#[tactic(auto, unfolding(crate::specs::Glass::glass_sig_public))]
fn signature_key(sk: &[u8; 32]) -> Secret
    ensures { result ≡ glass_sig_public sk.now }
{
    hash(&[b"glass sig", sk])
}

impl Suite for Glass {
    const NUMBER: u16 = 0xF001;

    ghost NUMBER = { 0xF001 };

    ghost crypto = { glass };

    fn public(alloc: Global, sk: &[u8; 32]) -> Result<Vec<u8>, OutOfMemory> {
        Vec::from_slice(alloc, &public_key(sk))
    }

    fn key_ok(pk: &[u8]) -> bool {
        pk.len() == 32
    }

    #[tactic(auto, unfolding(crate::specs::Glass::glass_derive))]
    fn derive_key_pair(alloc: Global, ikm: &[u8]) -> Result<KeyPair, OutOfMemory> {
        let sk = hash(&[b"glass key", ikm]);
        let pk = Self::public(alloc, &sk)?;
        Ok(KeyPair { sk, pk })
    }

    #[tactic(auto, unfolding(crate::specs::Glass::glass_seal, crate::specs::Glass::glass_kem))]
    fn seal(
        alloc: Global,
        pk: &[u8],
        info: &[u8],
        pt: &[u8],
        rnd: &[u8; 32],
    ) -> Result<Option<Sealed>, OutOfMemory> {
        if !Self::key_ok(pk) {
            return Ok(None);
        }
        let kem = hash(&[b"glass enc", rnd]);
        let ct = make_box(alloc, &box_key(pk, &kem, info), pt)?;
        let kem = Vec::from_slice(alloc, &kem)?;
        Ok(Some(Sealed { kem, ct }))
    }

    #[tactic(auto, unfolding(crate::specs::Glass::glass_unseal))]
    fn unseal(
        alloc: Global,
        sk: &[u8; 32],
        kem: &[u8],
        info: &[u8],
        ct: &[u8],
    ) -> Result<Option<Vec<u8>>, OutOfMemory> {
        if kem.len() != 32 {
            return Ok(None);
        }
        open_box(alloc, &box_key(&public_key(sk), kem, info), ct)
    }

    fn sig_public(alloc: Global, sk: &[u8; 32]) -> Result<Vec<u8>, OutOfMemory> {
        Vec::from_slice(alloc, &signature_key(sk))
    }

    fn sign(alloc: Global, sk: &[u8; 32], m: &[u8]) -> Result<Vec<u8>, OutOfMemory> {
        Vec::from_slice(alloc, &hmac(&signature_key(sk), &[m]))
    }

    fn verify(pk: &[u8], m: &[u8], s: &[u8]) -> bool {
        let made = hmac(pk, &[m]);
        made.as_slice() == s
    }

    fn aead_seal(
        alloc: Global,
        key: &[u8; 16],
        nonce: &[u8; 12],
        aad: &[u8],
        pt: &[u8],
    ) -> Result<Vec<u8>, OutOfMemory> {
        make_box(alloc, &aead_key(key, nonce, aad), pt)
    }

    fn aead_open(
        alloc: Global,
        key: &[u8; 16],
        nonce: &[u8; 12],
        aad: &[u8],
        ct: &[u8],
    ) -> Result<Option<Vec<u8>>, OutOfMemory> {
        open_box(alloc, &aead_key(key, nonce, aad), ct)
    }

    ghost numbered = { refl };

    ghost lawful = { glass_lawful };
}
