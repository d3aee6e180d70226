//! A saved candidate: the bytes, of which each change is refused.

use crate::changed::{Saved, loaded_changes, loaded_prefixes};
use mls_candidate::{Candidate, CandidateError, CandidateLoadError};
use mls_suite::Glass;
use std::alloc::Global;
use std::test::Fail;

/// A candidate, which is saved.
struct SavedCandidate;

impl Saved for SavedCandidate {
    fn is_loaded(alloc: Global, bytes: &[u8]) -> bool {
        load(alloc, bytes).is_ok()
    }
}

/// The bytes that a new candidate is saved as.
fn saved_candidate(alloc: Global) -> Result<Vec<u8>, CandidateError> {
    let candidate: Candidate<Glass> = Candidate::new(alloc, b"a", &[1; 32])?;
    candidate.save(alloc)
}

/// The candidate that was saved as these bytes, in a box: so the proof of a test goes into none of its parts.
fn load(alloc: Global, bytes: &[u8]) -> Result<Box<Candidate<Glass>>, CandidateLoadError> {
    let candidate = Candidate::load(alloc, bytes)?;
    Ok(Box::new(alloc, candidate)?)
}

/// The bytes that are saved of a candidate that was loaded.
fn save_again(alloc: Global, bytes: &[u8]) -> Result<Vec<u8>, CandidateError> {
    match load(alloc, bytes) {
        Ok(candidate) => candidate.save(alloc),
        Err(_) => Ok(Vec::new(alloc)),
    }
}

#[test]
fn a_candidate_is_saved_and_loaded(rt: HostRuntime) -> Result<(), Fail> {
    let alloc = rt.alloc();
    let bytes = saved_candidate(alloc)?;
    // The version, a KeyPackage of 203 bytes, and three keys behind headers.
    assert_eq!(rt; bytes.len(), 304);
    assert!(rt; save_again(alloc, &bytes)? == bytes);
    Ok(())
}

#[test]
fn what_was_changed_is_refused(rt: HostRuntime) -> Result<(), Fail> {
    let alloc = rt.alloc();
    let bytes = saved_candidate(alloc)?;
    assert_eq!(rt; loaded_prefixes::<SavedCandidate>(alloc, &bytes), 0);
    assert_eq!(rt; loaded_changes::<SavedCandidate>(alloc, &bytes)?, 0);
    Ok(())
}
