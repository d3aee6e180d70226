//! A suite for authors of suites to copy. It hides nothing: its public keys are its private keys, and what is sealed
//! lies open.

ghost use Rattle.std.specs.Prelude.{◌≡◌, IfOk, refl};
ghost use Rattle.mls_test_suite.specs.Bare.{bare, key_from};
ghost use Rattle.mls_test_suite.specs.BareLaws.{bare_lawful};

use mls_suite::{KeyPair, OutOfMemory, Sealed, Suite};
use std::alloc::Global;

/// The suite to copy, under the private number 0xF0FF.
pub struct Bare;

/// A key is its own public key.
#[tactic(auto, using(crate::proofs::BareLaws::fitted_key))]
fn public_key(alloc: Global, sk: &[u8; 32]) -> Result<Vec<u8>, OutOfMemory>
    ensures { IfOk result (λ pk. pk.items ≡ key_from sk.now) }
{
    Vec::from_slice(alloc, sk)
}

impl Suite for Bare {
    const NUMBER: u16 = 0xF0FF;

    ghost NUMBER = { 0xF0FF };

    ghost crypto = { bare };

    fn public(alloc: Global, sk: &[u8; 32]) -> Result<Vec<u8>, OutOfMemory> {
        public_key(alloc, sk)
    }

    fn key_ok(pk: &[u8]) -> bool {
        pk.len() == 32
    }

    fn derive_key_pair(alloc: Global, _ikm: &[u8]) -> Result<KeyPair, OutOfMemory> {
        let sk = [0; 32];
        let pk = public_key(alloc, &sk)?;
        Ok(KeyPair { sk, pk })
    }

    #[tactic(auto, unfolding(crate::specs::Bare::bare_seal))]
    fn seal(
        alloc: Global,
        pk: &[u8],
        _info: &[u8],
        pt: &[u8],
        _rnd: &[u8; 32],
    ) -> Result<Option<Sealed>, OutOfMemory> {
        if !Self::key_ok(pk) {
            return Ok(None);
        }
        let ct = Vec::from_slice(alloc, pt)?;
        Ok(Some(Sealed {
            kem: Vec::new(alloc),
            ct,
        }))
    }

    fn unseal(
        alloc: Global,
        _sk: &[u8; 32],
        _kem: &[u8],
        _info: &[u8],
        ct: &[u8],
    ) -> Result<Option<Vec<u8>>, OutOfMemory> {
        Ok(Some(Vec::from_slice(alloc, ct)?))
    }

    fn sig_public(alloc: Global, sk: &[u8; 32]) -> Result<Vec<u8>, OutOfMemory> {
        public_key(alloc, sk)
    }

    fn sign(alloc: Global, _sk: &[u8; 32], _m: &[u8]) -> Result<Vec<u8>, OutOfMemory> {
        Ok(Vec::new(alloc))
    }

    fn verify(_pk: &[u8], _m: &[u8], _s: &[u8]) -> bool {
        true
    }

    fn aead_seal(
        alloc: Global,
        _key: &[u8; 16],
        _nonce: &[u8; 12],
        _aad: &[u8],
        pt: &[u8],
    ) -> Result<Vec<u8>, OutOfMemory> {
        Vec::from_slice(alloc, pt)
    }

    fn aead_open(
        alloc: Global,
        _key: &[u8; 16],
        _nonce: &[u8; 12],
        _aad: &[u8],
        ct: &[u8],
    ) -> Result<Option<Vec<u8>>, OutOfMemory> {
        Ok(Some(Vec::from_slice(alloc, ct)?))
    }

    ghost numbered = { refl };

    ghost lawful = { bare_lawful };
}
