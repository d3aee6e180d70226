//! The saved form of candidates.

ghost use Rattle.std.specs.Prelude.{◌≡◌, ◌^◌, length, IfOk};
ghost use Rattle.std.specs.Str.{bytes_eq};
ghost use Rattle.mls_wire.specs.Checks.{require, Answers, AnswersOutright};
ghost use Rattle.mls_leaf.specs.KeyPackage.{key_package};
ghost use Rattle.mls_checks.specs.Checks.{key_package_checks};
ghost use Rattle.mls_public_group.specs.Short.{IsBelow};
ghost use Rattle.mls_saved.specs.Candidate.{saved_candidate};
ghost use Rattle.mls_saved.specs.Loading.{Loads, Passes, PassesOutright};
ghost use Rattle.mls_candidate.specs.LoadFaults.{number_of, candidate_by, RefusesUndecoded};
ghost use Rattle.mls_candidate.specs.Saved.{secret_of_32, candidate_of, saved_of_suite, own_key_checks, load_candidate};

use crate::load_error::CandidateLoadError;
use mls_kdf::Secret;
use mls_leaf::{Bytes, Codec, KeyPackage, bytes_or_out_of_memory};
use mls_saved::SavedCandidate;
use mls_suite::{OutOfMemory, Suite};
use std::alloc::Global;

/// What a candidate is made of.
#[derive(Drop)]
pub(crate) struct Parts {
    /// Its KeyPackage.
    pub(crate) offered: KeyPackage,
    /// The private key of its init key.
    pub(crate) init: Secret,
    /// The private key of its leaf.
    pub(crate) leaf: Secret,
    /// The private key of its signatures.
    pub(crate) signing: Secret,
}

/// A law: a secret has 32 bytes.
pub(crate) fn has_32_bytes(secret: &Secret)
    ensures { length secret.now ≡ 32 }
{
    let _bytes: &[u8] = secret;
}

/// A byte string of a secret.
pub(crate) fn secret_bytes(alloc: Global, secret: &Secret) -> Result<Bytes, OutOfMemory>
    ensures value { IfOk result (λ b. b ≡ secret.now) }
    ensures long { IfOk result (λ b. length b ≡ 32) }
{
    Bytes::from_slice(alloc, secret)
}

/// The bytes of a saved candidate.
pub(crate) fn saved_spelling(alloc: Global, saved: &SavedCandidate) -> Result<Vec<u8>, OutOfMemory>
    requires { saved_candidate.Fits saved.now }
    ensures { IfOk result (λ v. v.items ≡ saved_candidate.spell saved.now) }
{
    bytes_or_out_of_memory(saved.encode(alloc))
}

/// The saved candidate of the suite that the bytes are: decoding, `OtherSuite` (100).
#[tactic(auto, unfolding(crate::specs::Saved::saved_of_suite))]
fn read_saved<S: Suite>(alloc: Global, bytes: &[u8]) -> Result<SavedCandidate, CandidateLoadError>
    ensures answer { Loads number_of (saved_of_suite S.crypto bytes.now) result }
    // Faults of decoding come also when an allocation fails.
    ensures outright { RefusesUndecoded bytes.now result }
    ensures below { IfOk result (λ v. IsBelow (2 ^ 27) key_package v.key_package) }
{
    let saved = SavedCandidate::decode(alloc, bytes)?;
    if saved.key_package.cipher_suite != S::NUMBER {
        return Err(CandidateLoadError::OtherSuite);
    }
    Ok(saved)
}

/// The secret that these bytes are: `BadSecret` (101) unless there are 32.
fn secret_of(bytes: &Bytes) -> Result<Secret, CandidateLoadError>
    ensures { AnswersOutright (λ s. s) number_of (secret_of_32 bytes.now) result }
{
    match <[u8; 32]>::try_from(bytes.as_slice()) {
        Ok(secret) => Ok(secret),
        Err(_) => Err(CandidateLoadError::BadSecret),
    }
}

/// The parts that were saved: `BadSecret` (101) unless each secret has 32 bytes.
#[tactic(auto, unfolding(crate::specs::Saved::candidate_of))]
fn parts_of(saved: SavedCandidate) -> Result<Parts, CandidateLoadError>
    ensures answer { AnswersOutright candidate_by number_of (candidate_of saved) result }
    ensures offered { IfOk result (λ p. p.offered ≡ saved.key_package) }
{
    let init = secret_of(&saved.init)?;
    let leaf = secret_of(&saved.leaf)?;
    let signing = secret_of(&saved.signing)?;
    Ok(Parts {
        offered: saved.key_package,
        init,
        leaf,
        signing,
    })
}

/// The checks of a KeyPackage (RFC 9420, 10.1).
fn check_package<S: Suite>(alloc: Global, offered: &KeyPackage) -> Result<(), CandidateLoadError>
    requires { IsBelow (2 ^ 27) key_package offered.now }
    ensures { Passes number_of (key_package_checks S.crypto offered.now) result }
{
    mls_checks::key_package::<S>(alloc, offered)?;
    Ok(())
}

/// A public key is the one that is offered: `OtherKey` (104).
fn require_same(key: &[u8], offered: &Bytes) -> Result<(), CandidateLoadError>
    ensures { PassesOutright number_of (require 104 (bytes_eq key.now offered.now)) result }
{
    if key != offered.as_slice() {
        return Err(CandidateLoadError::OtherKey);
    }
    Ok(())
}

/// The private keys are those of the public keys that are offered: `OtherKey` (104).
#[tactic(auto, unfolding(crate::specs::Saved::own_key_checks))]
fn check_own_keys<S: Suite>(alloc: Global, parts: &Parts) -> Result<(), CandidateLoadError>
    ensures { Passes number_of (own_key_checks S.crypto (candidate_by parts.now)) result }
{
    let leaf = &parts.offered.leaf_node;
    let init_key = S::public(alloc, &parts.init)?;
    require_same(&init_key, &parts.offered.init_key)?;
    let leaf_key = S::public(alloc, &parts.leaf)?;
    require_same(&leaf_key, &leaf.encryption_key)?;
    let signature_key = S::sig_public(alloc, &parts.signing)?;
    require_same(&signature_key, &leaf.signature_key)
}

/// The parts of the candidate that was saved as these bytes: decoding, `OtherSuite` (100), `BadSecret` (101), the checks
/// of its KeyPackage, `OtherKey` (104).
#[tactic(auto, unfolding(crate::specs::Saved::load_candidate))]
pub(crate) fn load_parts<S: Suite>(alloc: Global, bytes: &[u8]) -> Result<Parts, CandidateLoadError>
    ensures answer { Answers candidate_by number_of (load_candidate S.crypto bytes.now) result }
    // Faults of decoding come also when an allocation fails.
    ensures outright { RefusesUndecoded bytes.now result }
    ensures below { IfOk result (λ p. IsBelow (2 ^ 27) key_package p.offered) }
{
    let saved = read_saved::<S>(alloc, bytes)?;
    let parts = parts_of(saved)?;
    check_package::<S>(alloc, &parts.offered)?;
    check_own_keys::<S>(alloc, &parts)?;
    Ok(parts)
}
