//! Keys, signatures and their verification (RFC 8032, sections 5.1.5 to 5.1.7).
ghost use Rattle.std.specs.Prelude.{◌≡◌, ◌<◌, ◌+◌, ◌*◌, ◌^◌, ◌%◌, ◌++◌, length, take, drop};
ghost use Rattle.curve25519.specs.Curve25519.{order as L};
ghost use Rattle.field25519.specs.Bytes.{decode_little, joined, word_at};
ghost use Rattle.field25519.specs.Scalars.{decode_scalar};
ghost use Rattle.ed25519.specs.Equation.{TellsMet};
ghost use Rattle.ed25519.specs.Signatures.{decode_64, hash_number, multiple_bytes, public_key as key_of, sign as signature_of, verify as is_signature, verify_halves as are_halves};

use crate::base_multiple::multiply_base;
use crate::cached::CachedPoint;
use crate::decoding::decode;
use crate::order;
use crate::point::ExtendedPoint;
use crate::point_multiple::multiply_point;
use field25519::Words;
use sha2::{Digest, Sha512};

/// Eight bytes as a number, the lowest first.
fn word(digest: &[u8; 64], at: usize) -> u64
    requires { at < 57 }
    ensures { result ≡ word_at digest.now at }
{
    u64::from_le_bytes([
        digest[at],
        digest[at + 1],
        digest[at + 2],
        digest[at + 3],
        digest[at + 4],
        digest[at + 5],
        digest[at + 6],
        digest[at + 7],
    ])
}

/// The first 32 bytes as a number.
fn low_half(digest: &[u8; 64]) -> Words
    ensures { joined result ≡ decode_little digest.now }
{
    Words {
        a: word(digest, 0),
        b: word(digest, 8),
        c: word(digest, 16),
        d: word(digest, 24),
    }
}

/// The last 32 bytes as a number.
fn high_half(digest: &[u8; 64]) -> Words
    ensures { decode_little digest.now + 2 ^ 256 * joined result ≡ decode_64 digest.now }
{
    Words {
        a: word(digest, 32),
        b: word(digest, 40),
        c: word(digest, 48),
        d: word(digest, 56),
    }
}

/// The digest's number modulo L.
fn reduce_digest(digest: &[u8; 64]) -> Words
    ensures { joined result ≡ decode_64 digest.now % L }
{
    order::reduce(high_half(digest), low_half(digest))
}

/// A half of a signature or of a digest, or a key.
fn copy_half(bytes: &[u8]) -> [u8; 32]
    requires { length bytes.now ≡ 32 }
    ensures { result ≡ bytes.now }
{
    let mut all = [0u8; 32];
    all.copy_from_slice(bytes);
    all
}

/// The secret scalar, from the secret's digest.
fn scalar_of(digest: &[u8; 64]) -> Words
    ensures { joined result ≡ decode_scalar (take 32 digest.now) }
{
    let (first, _) = digest.split_at(32);
    Words::from_scalar(&copy_half(first))
}

/// The digest of two pieces, modulo L.
fn hash_two(first: &[u8], second: &[u8]) -> Words
    ensures { joined result ≡ hash_number (first.now ++ second.now) }
{
    let mut hasher = Sha512::new();
    hasher.update(first);
    hasher.update(second);
    let digest = hasher.finalize();
    reduce_digest(&digest)
}

/// The digest of three pieces, modulo L.
fn hash_three(first: &[u8], second: &[u8], third: &[u8]) -> Words
    ensures { joined result ≡ hash_number (first.now ++ second.now ++ third.now) }
{
    let mut hasher = Sha512::new();
    hasher.update(first);
    hasher.update(second);
    hasher.update(third);
    let digest = hasher.finalize();
    reduce_digest(&digest)
}

/// The nonce of a message, from the secret's digest.
fn nonce_of(digest: &[u8; 64], message: &[u8]) -> Words
    ensures { joined result ≡ hash_number (drop 32 digest.now ++ message.now) }
{
    hash_two(&digest[32..], message)
}

/// The two halves of a signature as one.
fn join(r: &[u8; 32], s: &[u8; 32]) -> [u8; 64]
    ensures { result ≡ r.now ++ s.now }
{
    let mut all = [0u8; 64];
    all[..32].copy_from_slice(r);
    all[32..].copy_from_slice(s);
    all
}

/// The bytes of the base point as many times as the scalar says.
fn multiple_of_base(scalar: Words) -> [u8; 32]
    ensures { result ≡ multiple_bytes (joined scalar) }
{
    multiply_base(scalar).encode()
}

/// The public key of a secret (RFC 8032, section 5.1.5).
pub fn public_key(secret: &[u8; 32]) -> [u8; 32]
    ensures { result ≡ key_of secret.now }
{
    let digest = Sha512::digest(secret);
    multiple_of_base(scalar_of(&digest))
}

/// The signature of a message by a secret (RFC 8032, section 5.1.6).
pub fn sign(secret: &[u8; 32], message: &[u8]) -> [u8; 64]
    ensures { result ≡ signature_of secret.now message.now }
{
    let digest = Sha512::digest(secret);
    let scalar = scalar_of(&digest);
    let key = multiple_of_base(scalar);
    let nonce = nonce_of(&digest, message);
    let commitment = multiple_of_base(nonce);
    let challenge = hash_three(&commitment, &key, message);
    let product = order::multiply(challenge, scalar);
    let answer = order::add(nonce, product);
    let bytes = answer.to_bytes();
    join(&commitment, &bytes)
}

/// Whether the answer times the base point, less the challenge times the key, is the commitment.
fn is_met(key: &ExtendedPoint, commitment: &[u8; 32], answer: Words, challenge: Words) -> bool
    ensures { TellsMet key.now commitment.now (joined answer) (joined challenge) result }
{
    let first = multiply_base(answer);
    let opposite = key.negate();
    let second = multiply_point(&opposite, challenge);
    let sum = first.add(&CachedPoint::new(&second));
    let bytes = sum.encode();
    bytes == *commitment
}

/// Whether the signature in two halves is one of the message by the key.
fn verify_halves(key: &[u8; 32], message: &[u8], commitment: &[u8; 32], answer: &[u8; 32]) -> bool
    ensures { result ≡ are_halves key.now message.now commitment.now answer.now }
{
    let number = Words::from_bytes(answer);
    if order::is_below(number) {
        let challenge = hash_three(commitment, key, message);
        match decode(key) {
            None => false,
            Some(a) => is_met(&a, commitment, number, challenge),
        }
    } else {
        false
    }
}

/// Whether the signature is one of the message by the public key, with no cofactor (RFC 8032,
/// section 5.1.7).
pub fn verify(public_key: &[u8], message: &[u8], signature: &[u8]) -> bool
    ensures { result ≡ is_signature public_key.now message.now signature.now }
{
    if public_key.len() == 32 && signature.len() == 64 {
        let (commitment, answer) = signature.split_at(32);
        verify_halves(
            &copy_half(public_key),
            message,
            &copy_half(commitment),
            &copy_half(answer),
        )
    } else {
        false
    }
}
