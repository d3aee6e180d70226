//! Exports of the calls on candidates.

ghost use types.Logic.{sem};
ghost use Rattle.mls_c.specs.Memory.{Asked, asked_at, answered_at};
ghost use Rattle.mls_c.specs.Passing.{begins_at, loads_at, makes_at, reads_at};
ghost use Rattle.mls_calls.specs.declared.call.Call.TheVariants.{CandidateNew, CandidateKeyPackage, CandidateSave, CandidateLoad, KeyPackageIdentity};

use crate::handle::Handle;
use crate::run::run_call;
use std::alloc::Global;

/// A candidate of an identity and a seed of 32 bytes.
#[unsafe(no_mangle)]
pub unsafe extern "C" fn mls_candidate_new(
    alloc: Global,
    identity: *const u8,
    identity_length: usize,
    seed: *const u8,
    seed_length: usize,
    candidate: *mut *mut Handle,
) -> u32
    ghost asked: { Asked }
    requires* memory { sem 𝓛 (asked_at
        (begins_at identity identity_length seed seed_length candidate) asked) }
    ensures* memory { sem 𝓛 (answered_at CandidateNew 0
        (begins_at identity identity_length seed seed_length candidate) asked result) }
{
    run_call!(
        alloc,
        CandidateNew,
        first = (identity, identity_length),
        second = (seed, seed_length),
        made = candidate
    )
}

/// The message of a candidate's KeyPackage (RFC 9420, 6).
#[unsafe(no_mangle)]
pub unsafe extern "C" fn mls_candidate_key_package(
    alloc: Global,
    candidate: *mut Handle,
    message: *mut *mut Handle,
) -> u32
    ghost asked: { Asked }
    requires* memory { sem 𝓛 (asked_at (makes_at candidate message) asked) }
    ensures* memory { sem 𝓛 (answered_at CandidateKeyPackage 0
        (makes_at candidate message) asked result) }
{
    run_call!(
        alloc,
        CandidateKeyPackage,
        handle = candidate,
        made = message
    )
}

/// The bytes that a candidate is saved as, which hold its secrets.
#[unsafe(no_mangle)]
pub unsafe extern "C" fn mls_candidate_save(
    alloc: Global,
    candidate: *mut Handle,
    saved: *mut *mut Handle,
) -> u32
    ghost asked: { Asked }
    requires* memory { sem 𝓛 (asked_at (makes_at candidate saved) asked) }
    ensures* memory { sem 𝓛 (answered_at CandidateSave 0 (makes_at candidate saved) asked result) }
{
    run_call!(alloc, CandidateSave, handle = candidate, made = saved)
}

/// The candidate that was saved so.
#[unsafe(no_mangle)]
pub unsafe extern "C" fn mls_candidate_load(
    alloc: Global,
    saved: *const u8,
    saved_length: usize,
    candidate: *mut *mut Handle,
) -> u32
    ghost asked: { Asked }
    requires* memory { sem 𝓛 (asked_at (loads_at saved saved_length candidate) asked) }
    ensures* memory { sem 𝓛 (answered_at CandidateLoad 0
        (loads_at saved saved_length candidate) asked result) }
{
    run_call!(
        alloc,
        CandidateLoad,
        first = (saved, saved_length),
        made = candidate
    )
}

/// The identity and the signature key of the client that a KeyPackage's message offers (RFC 9420, 10).
#[unsafe(no_mangle)]
pub unsafe extern "C" fn mls_key_package_identity(
    alloc: Global,
    key_package: *const u8,
    key_package_length: usize,
    identity: *mut *mut Handle,
    signature_key: *mut *mut Handle,
) -> u32
    ghost asked: { Asked }
    requires* memory { sem 𝓛 (asked_at
        (reads_at key_package key_package_length identity signature_key) asked) }
    ensures* memory { sem 𝓛 (answered_at KeyPackageIdentity 0
        (reads_at key_package key_package_length identity signature_key) asked result) }
{
    run_call!(
        alloc,
        KeyPackageIdentity,
        first = (key_package, key_package_length),
        made = identity,
        other = signature_key
    )
}
