//! A candidate, and the only member of a group.

use mls_candidate::{Candidate, CandidateError};
use mls_member::{Member, Refusal};
use mls_suite::Glass;
use std::alloc::Global;

/// A candidate with an identity of so many bytes, in a box: so the proof of a test goes into none of its parts.
pub(crate) fn candidate(
    alloc: Global,
    length: usize,
) -> Result<Box<Candidate<Glass>>, CandidateError> {
    let identity = vec![in alloc; 0x61; length]?;
    let candidate = Candidate::new(alloc, &identity, &[1; 32])?;
    Ok(Box::new(alloc, candidate)?)
}

/// The only member of the group "g" in epoch 0, with an identity of so many bytes.
pub(crate) fn create_first(alloc: Global, length: usize) -> Result<Box<Member<Glass>>, Refusal> {
    let candidate = candidate(alloc, length)?;
    let member = Member::create(alloc, &candidate, b"g", &[2; 32])?;
    Ok(Box::new(alloc, member)?)
}

/// The message of its commit of no proposals, with a path.
fn commit(member: &mut Member<Glass>) -> Result<Vec<u8>, Refusal> {
    Ok(member.commit(&[], true, &[3; 32])?.commit)
}

/// Commits, and follows the commit.
fn advance(member: &mut Member<Glass>) -> Result<(), Refusal> {
    let message = commit(member)?;
    member.process(&message)?;
    Ok(())
}

/// The only member of the group "g" in epoch 1, behind a commit of its own with a path.
pub(crate) fn sole(alloc: Global) -> Result<Box<Member<Glass>>, Refusal> {
    let mut member = create_first(alloc, 3)?;
    advance(&mut member)?;
    Ok(member)
}
