//! The cryptography of a group: its interface with laws, the labelled calls of RFC 9420 (5.1.2 and
//! 5.1.3), and the practice suite.
#![tactic(auto)]

ghost use Rattle.std.specs.Prelude.{◌≡◌, ℕ, None, Ok, IfOk};
ghost use Rattle.mls_suite.specs.Crypto.{Crypto, Lawful};
ghost use Rattle.mls_suite.specs.Sealings.{OpensTo, SealsTo};

use std::alloc::{AllocError, Global};

mod boxes;
mod labels;
mod practice;

pub use labels::{
    content_with_label, decrypt_with_label, encrypt_with_label, opened_as_sealed, sealed_where_fit,
    sign_with_label, signature_is_short, verified_as_signed, verify_with_label,
};
pub use practice::Glass;

/// Want of memory.
pub type OutOfMemory = AllocError;

/// Holds a private key and its public key.
#[derive(Drop)]
pub struct KeyPair {
    pub sk: [u8; 32],
    pub pk: Vec<u8>,
}

/// Holds what is sealed to a public key: the encapsulated key and the ciphertext (RFC 9180, 6.1).
#[derive(Drop)]
pub struct Sealed {
    pub kem: Vec<u8>,
    pub ct: Vec<u8>,
}

/// Is the cryptography of a group (RFC 9420, 5.1). Each answer is that of the function of `crypto` of the same name, or
/// `OutOfMemory`, and these functions keep the laws `Lawful`: what is sealed to a private key's public key is opened by
/// it, what is signed verifies, what is sealed under a key is opened under it, public keys are fit, a key takes a seal
/// exactly where it is fit, the suite's number has 16 bits, and keys and signatures are short.
pub trait Suite {
    /// Is the number of the cipher suite (RFC 9420, 17.1).
    const NUMBER: u16;

    ghost NUMBER: { ℕ };

    // The suite's functions on lists of bytes.
    ghost crypto: { Crypto };

    /// Gives the public key of a private key for sealing.
    fn public(alloc: Global, sk: &[u8; 32]) -> Result<Vec<u8>, OutOfMemory>
        ensures { IfOk result (λ pk. pk.items ≡ crypto.public sk.now) };

    /// Tells whether a public key is fit for sealing. It takes no memory.
    fn key_ok(pk: &[u8]) -> bool
        ensures { result ≡ crypto.key_ok pk.now };

    /// Makes a key pair of input key material (RFC 9180, 4).
    fn derive_key_pair(alloc: Global, ikm: &[u8]) -> Result<KeyPair, OutOfMemory>
        ensures private { IfOk result (λ p. p.sk ≡ crypto.derive ikm.now) }
        ensures public { IfOk result (λ p. p.pk.items ≡ crypto.public (crypto.derive ikm.now)) };

    /// Seals `pt` to a public key with 32 random bytes; None where the key is not fit, also when an
    /// allocation fails (RFC 9180, 6.1).
    fn seal(
        alloc: Global,
        pk: &[u8],
        info: &[u8],
        pt: &[u8],
        rnd: &[u8; 32],
    ) -> Result<Option<Sealed>, OutOfMemory>
        ensures answer { SealsTo (crypto.seal pk.now info.now pt.now rnd.now) result }
        ensures refused { crypto.seal pk.now info.now pt.now rnd.now ≡ None → result ≡ Ok None };

    /// Opens what was sealed; None where it does not open, also when an allocation fails (RFC 9180,
    /// 6.1).
    fn unseal(
        alloc: Global,
        sk: &[u8; 32],
        kem: &[u8],
        info: &[u8],
        ct: &[u8],
    ) -> Result<Option<Vec<u8>>, OutOfMemory>
        ensures answer { OpensTo (crypto.unseal sk.now kem.now info.now ct.now) result }
        ensures refused { crypto.unseal sk.now kem.now info.now ct.now ≡ None → result ≡ Ok None };

    /// Gives the public key of a signature key.
    fn sig_public(alloc: Global, sk: &[u8; 32]) -> Result<Vec<u8>, OutOfMemory>
        ensures { IfOk result (λ pk. pk.items ≡ crypto.sig_public sk.now) };

    /// Signs `m` (RFC 9420, 5.1.2).
    fn sign(alloc: Global, sk: &[u8; 32], m: &[u8]) -> Result<Vec<u8>, OutOfMemory>
        ensures { IfOk result (λ s. s.items ≡ crypto.sign sk.now m.now) };

    /// Tells whether `s` is a signature of `m` (RFC 9420, 5.1.2). It takes no memory.
    fn verify(pk: &[u8], m: &[u8], s: &[u8]) -> bool
        ensures { result ≡ crypto.verify pk.now m.now s.now };

    /// Seals `pt` under a key and a nonce.
    fn aead_seal(
        alloc: Global,
        key: &[u8; 16],
        nonce: &[u8; 12],
        aad: &[u8],
        pt: &[u8],
    ) -> Result<Vec<u8>, OutOfMemory>
        ensures { IfOk result (λ v. v.items ≡ crypto.aead_seal key.now nonce.now aad.now pt.now) };

    /// Opens what was sealed under a key and a nonce; None where it does not open, also when an
    /// allocation fails.
    fn aead_open(
        alloc: Global,
        key: &[u8; 16],
        nonce: &[u8; 12],
        aad: &[u8],
        ct: &[u8],
    ) -> Result<Option<Vec<u8>>, OutOfMemory>
        ensures answer { OpensTo (crypto.aead_open key.now nonce.now aad.now ct.now) result }
        ensures refused { crypto.aead_open key.now nonce.now aad.now ct.now ≡ None
            → result ≡ Ok None };

    // The number that definitions see is the suite's.
    ghost numbered: { crypto.number ≡ NUMBER };

    // The laws.
    ghost lawful: { Lawful crypto };
}
