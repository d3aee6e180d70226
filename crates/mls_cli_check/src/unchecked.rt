//! A suite that checks nothing: every key is fit, every signature holds, and what is sealed lies open. `mls check`
//! takes it for suite 0x0001 where signatures aren't to be checked.

ghost use Rattle.std.specs.Prelude.{refl};
ghost use Rattle.mls_cli_check.specs.Unchecked.{unchecked, unchecked_lawful};

use mls_suite::{KeyPair, OutOfMemory, Sealed, Suite};
use std::alloc::Global;

/// The suite that checks nothing, under the number 0x0001.
pub struct Unchecked;

impl Suite for Unchecked {
    const NUMBER: u16 = 1;

    ghost NUMBER = { 1 };

    ghost crypto = { unchecked };

    fn public(alloc: Global, _sk: &[u8; 32]) -> Result<Vec<u8>, OutOfMemory> {
        Ok(Vec::new(alloc))
    }

    fn key_ok(_pk: &[u8]) -> bool {
        true
    }

    fn derive_key_pair(alloc: Global, _ikm: &[u8]) -> Result<KeyPair, OutOfMemory> {
        Ok(KeyPair {
            sk: [0; 32],
            pk: Vec::new(alloc),
        })
    }

    fn seal(
        alloc: Global,
        _pk: &[u8],
        _info: &[u8],
        pt: &[u8],
        _rnd: &[u8; 32],
    ) -> Result<Option<Sealed>, OutOfMemory> {
        let ct = Vec::from_slice(alloc, pt)?;
        Ok(Some(Sealed {
            kem: Vec::new(alloc),
            ct,
        }))
    }

    fn unseal(
        alloc: Global,
        _sk: &[u8; 32],
        _kem: &[u8],
        _info: &[u8],
        ct: &[u8],
    ) -> Result<Option<Vec<u8>>, OutOfMemory> {
        Ok(Some(Vec::from_slice(alloc, ct)?))
    }

    fn sig_public(alloc: Global, _sk: &[u8; 32]) -> Result<Vec<u8>, OutOfMemory> {
        Ok(Vec::new(alloc))
    }

    fn sign(alloc: Global, _sk: &[u8; 32], _m: &[u8]) -> Result<Vec<u8>, OutOfMemory> {
        Ok(Vec::new(alloc))
    }

    fn verify(_pk: &[u8], _m: &[u8], _s: &[u8]) -> bool {
        true
    }

    fn aead_seal(
        alloc: Global,
        _key: &[u8; 16],
        _nonce: &[u8; 12],
        _aad: &[u8],
        pt: &[u8],
    ) -> Result<Vec<u8>, OutOfMemory> {
        Vec::from_slice(alloc, pt)
    }

    fn aead_open(
        alloc: Global,
        _key: &[u8; 16],
        _nonce: &[u8; 12],
        _aad: &[u8],
        ct: &[u8],
    ) -> Result<Option<Vec<u8>>, OutOfMemory> {
        Ok(Some(Vec::from_slice(alloc, ct)?))
    }

    ghost numbered = { refl };

    ghost lawful = { unchecked_lawful };
}
