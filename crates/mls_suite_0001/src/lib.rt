//! The cipher suite MLS_128_DHKEMX25519_AES128GCM_SHA256_Ed25519 (RFC 9420, 17.1): HPKE with X25519
//! (RFC 9180), AES-128-GCM and Ed25519 (RFC 8032).
#![tactic(auto)]

ghost use Rattle.std.specs.Prelude.{◌≡◌, refl};
ghost use Rattle.mls_suite_0001.specs.Suite0001.{suite_0001};
ghost use Rattle.mls_suite_0001.specs.Suite0001Laws.{lawful};

use mls_suite::{KeyPair, OutOfMemory, Sealed, Suite};
use std::alloc::Global;

/// The cipher suite 0x0001. A signature key is the secret of 32 bytes that RFC 8032 (5.1.5) starts
/// from.
pub struct Suite0001;

impl Suite for Suite0001 {
    const NUMBER: u16 = 0x0001;

    ghost NUMBER = { 0x0001 };

    ghost crypto = { suite_0001 };

    fn public(alloc: Global, sk: &[u8; 32]) -> Result<Vec<u8>, OutOfMemory> {
        Vec::from_slice(alloc, &hpke::public_key(sk))
    }

    fn key_ok(pk: &[u8]) -> bool {
        hpke::is_fit(pk)
    }

    fn derive_key_pair(alloc: Global, ikm: &[u8]) -> Result<KeyPair, OutOfMemory> {
        let pair = hpke::derive_key_pair(ikm);
        let pk = Vec::from_slice(alloc, &pair.pk)?;
        Ok(KeyPair { sk: pair.sk, pk })
    }

    #[tactic(auto, unfolding(crate::specs::Suite0001::seal))]
    fn seal(
        alloc: Global,
        pk: &[u8],
        info: &[u8],
        pt: &[u8],
        rnd: &[u8; 32],
    ) -> Result<Option<Sealed>, OutOfMemory> {
        let Some(sealed) = hpke::seal(alloc, pk, info, b"", pt, rnd)? else {
            return Ok(None);
        };
        let kem = Vec::from_slice(alloc, &sealed.enc)?;
        Ok(Some(Sealed { kem, ct: sealed.ct }))
    }

    #[tactic(auto, unfolding(crate::specs::Suite0001::unseal))]
    fn unseal(
        alloc: Global,
        sk: &[u8; 32],
        kem: &[u8],
        info: &[u8],
        ct: &[u8],
    ) -> Result<Option<Vec<u8>>, OutOfMemory> {
        hpke::open(alloc, sk, kem, info, b"", ct)
    }

    fn sig_public(alloc: Global, sk: &[u8; 32]) -> Result<Vec<u8>, OutOfMemory> {
        Vec::from_slice(alloc, &ed25519::public_key(sk))
    }

    fn sign(alloc: Global, sk: &[u8; 32], m: &[u8]) -> Result<Vec<u8>, OutOfMemory> {
        Vec::from_slice(alloc, &ed25519::sign(sk, m))
    }

    fn verify(pk: &[u8], m: &[u8], s: &[u8]) -> bool {
        ed25519::verify(pk, m, s)
    }

    fn aead_seal(
        alloc: Global,
        key: &[u8; 16],
        nonce: &[u8; 12],
        aad: &[u8],
        pt: &[u8],
    ) -> Result<Vec<u8>, OutOfMemory> {
        aes128gcm::seal(alloc, key, nonce, aad, pt)
    }

    fn aead_open(
        alloc: Global,
        key: &[u8; 16],
        nonce: &[u8; 12],
        aad: &[u8],
        ct: &[u8],
    ) -> Result<Option<Vec<u8>>, OutOfMemory> {
        aes128gcm::open(alloc, key, nonce, aad, ct)
    }

    ghost numbered = { refl };

    ghost lawful = { lawful };
}
