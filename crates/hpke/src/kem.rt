//! DHKEM(X25519, HKDF-SHA256) (RFC 9180, 4.1 and 7.1).

ghost use Rattle.std.specs.Prelude.{◌≡◌, ◌++◌, [], codes};
ghost use Rattle.hpke.specs.Rfc9180.{kem_suite_id, dh, public, derive, is_zero, eight_times, is_fit, extract_and_expand};

use crate::labels::{labeled_expand, labeled_extract};
use mls_kdf::Secret;

const SUITE_ID: [u8; 5] = [0x4b, 0x45, 0x4d, 0x00, 0x20];

/// suite_id of the KEM (RFC 9180, 4.1).
#[tactic(auto, unfolding(crate::specs::Rfc9180::kem_suite_id))]
fn suite_id() -> [u8; 5]
    ensures { result ≡ kem_suite_id }
{
    SUITE_ID
}

/// DH (RFC 9180, 4.1 and 7.1).
#[tactic(auto, unfolding(crate::specs::Rfc9180::dh))]
pub(crate) fn dh(sk: &[u8; 32], pk: &[u8; 32]) -> [u8; 32]
    ensures { result ≡ dh sk.now pk.now }
{
    x25519::x25519(sk, pk)
}

/// The public key of a private key (RFC 9180, 4.1 and 7.1).
#[tactic(auto, unfolding(crate::specs::Rfc9180::public))]
pub fn public_key(sk: &[u8; 32]) -> [u8; 32]
    ensures { result ≡ public sk.now }
{
    x25519::public_key(sk)
}

/// Whether this is the all-zero value: all bytes are folded before one is looked at (RFC 9180, 7.1.4).
#[tactic(auto, unfolding(crate::specs::Rfc9180::is_zero))]
pub(crate) fn is_zero(bytes: &[u8; 32]) -> bool
    ensures { result ≡ is_zero bytes.now }
{
    let mut ones = 0;
    for i in 0..32usize {
        ones |= bytes[i];
    }
    ones == 0
}

/// ExtractAndExpand, of a kem_context of two public keys (RFC 9180, 4.1).
#[tactic(auto, unfolding(crate::specs::Rfc9180::extract_and_expand))]
pub(crate) fn extract_and_expand(dh: &[u8; 32], enc: &[u8; 32], pk: &[u8; 32]) -> Secret
    ensures { result ≡ extract_and_expand dh.now (enc.now ++ pk.now) }
{
    let suite_id = suite_id();
    let prk = labeled_extract(&suite_id, b"", b"eae_prk", dh);
    let mut out = [0; 32];
    labeled_expand(&suite_id, &prk, b"shared_secret", enc, pk, b"", &mut out);
    out
}

/// The private key made of input key material (DeriveKeyPair: RFC 9180, 7.1.3).
#[tactic(auto, unfolding(crate::specs::Rfc9180::derive))]
pub(crate) fn derive(ikm: &[u8]) -> [u8; 32]
    ensures { result ≡ derive ikm.now }
{
    let suite_id = suite_id();
    let prk = labeled_extract(&suite_id, b"", b"dkp_prk", ikm);
    let mut out = [0; 32];
    labeled_expand(&suite_id, &prk, b"sk", b"", b"", b"", &mut out);
    out
}

/// A private key and its public key.
#[derive(Drop)]
pub struct KeyPair {
    pub sk: [u8; 32],
    pub pk: [u8; 32],
}

/// The key pair made of input key material (DeriveKeyPair: RFC 9180, 7.1.3).
pub fn derive_key_pair(ikm: &[u8]) -> KeyPair
    ensures private { result.sk ≡ derive ikm.now }
    ensures public { result.pk ≡ public (derive ikm.now) }
{
    let sk = derive(ikm);
    let pk = public_key(&sk);
    KeyPair { sk, pk }
}

/// Eight times a public key (RFC 7748, 6.1).
#[tactic(auto, unfolding(crate::specs::Rfc9180::eight_times))]
fn eight_times(pk: &[u8; 32]) -> [u8; 32]
    ensures { result ≡ eight_times pk.now }
{
    x25519::clear_cofactor(pk)
}

/// Whether a public key is fit for sealing: it has 32 bytes, and eight times it isn't 0.
#[tactic(auto, unfolding(crate::specs::Rfc9180::is_fit))]
pub fn is_fit(pk: &[u8]) -> bool
    ensures { result ≡ is_fit pk.now }
{
    if pk.len() != 32 {
        return false;
    }
    let mut key = [0; 32];
    key.copy_from_slice(pk);
    !is_zero(&eight_times(&key))
}
