//! The groups whose messages are given.

use crate::acts::{Act, Parts};
use std::alloc::{AllocError, Global};

fn candidate(name: u8, seed: u8) -> Act {
    Act::Candidate { name, seed }
}

fn create(seed: u8) -> Act {
    Act::Create { candidate: 0, seed }
}

fn commit(member: usize, parts: Parts, path: bool, seed: u8) -> Act {
    Act::Commit {
        member,
        parts,
        path,
        seed,
    }
}

fn deliver(member: usize, message: usize) -> Act {
    Act::Deliver { member, message }
}

fn join(candidate: usize, message: usize) -> Act {
    Act::Join { candidate, message }
}

fn additions_from(first: usize, count: usize) -> Parts {
    Parts::Added { first, count }
}

/// One member adds another in full, with a path: message 2 is the commit, 3 the Welcome.
pub fn pair(alloc: Global) -> Result<Vec<Act>, AllocError> {
    Ok(vec![in alloc;
        candidate(b'a', 1),
        create(2),
        candidate(b'b', 3),
        commit(0, additions_from(1, 1), true, 4),
        deliver(0, 2),
        join(1, 3),
    ]?)
}

/// One member adds two in full, with a path: message 3 is the commit, 4 the Welcome.
pub fn three(alloc: Global) -> Result<Vec<Act>, AllocError> {
    Ok(vec![in alloc;
        candidate(b'a', 1),
        create(2),
        candidate(b'b', 3),
        candidate(b'c', 4),
        commit(0, additions_from(1, 2), true, 5),
        deliver(0, 3),
        join(1, 4),
        join(2, 4),
    ]?)
}

/// Of three the second makes a proposal (message 5), which the first commits by its reference (message 6).
fn commit_proposal(alloc: Global, proposal: Act, seed: u8) -> Result<Vec<Act>, AllocError> {
    let mut acts = three(alloc)?;
    acts.extend_from_slice(&[
        proposal,
        deliver(0, 5),
        deliver(2, 5),
        commit(0, Parts::Named(5), false, seed),
        deliver(0, 6),
        deliver(1, 6),
        deliver(2, 6),
    ])?;
    Ok(acts)
}

/// Of three the second proposes an update (message 5), which the first commits by its reference (message 6).
pub fn update(alloc: Global) -> Result<Vec<Act>, AllocError> {
    commit_proposal(alloc, Act::Update { member: 1, seed: 6 }, 7)
}

/// Of three the second proposes the removal of the third (message 5), which the first commits by its reference
/// (message 6).
pub fn removal(alloc: Global) -> Result<Vec<Act>, AllocError> {
    let mut acts = three(alloc)?;
    acts.extend_from_slice(&[
        Act::Remove { member: 1, leaf: 2 },
        deliver(0, 5),
        deliver(0, 5),
        commit(0, Parts::Named(5), false, 7),
        deliver(2, 5),
        deliver(2, 6),
        deliver(0, 6),
        deliver(1, 6),
    ])?;
    Ok(acts)
}

/// Of three the second proposes extensions for the group (message 5), which the first commits by its reference (message
/// 6); then the third adds a fourth, with a path (commit 8, Welcome 9).
pub fn extensions(alloc: Global) -> Result<Vec<Act>, AllocError> {
    let mut acts = commit_proposal(alloc, Act::Extensions { member: 1 }, 6)?;
    acts.extend_from_slice(&[
        candidate(b'd', 7),
        commit(2, additions_from(7, 1), true, 8),
        deliver(2, 8),
        deliver(0, 8),
        deliver(1, 8),
        join(3, 9),
    ])?;
    Ok(acts)
}

/// One member adds four without a path (commit 6, Welcome 7) and removes the fourth member (8).
fn add_four_and_remove(alloc: Global) -> Result<Vec<Act>, AllocError> {
    Ok(vec![in alloc;
        candidate(b'a', 1),
        create(2),
        candidate(b'b', 3),
        candidate(b'c', 4),
        candidate(b'd', 5),
        candidate(b'e', 6),
        candidate(b'f', 7),
        commit(0, additions_from(1, 4), false, 8),
        deliver(0, 6),
        join(1, 7),
        join(2, 7),
        join(3, 7),
        join(4, 7),
        commit(0, Parts::Removal(3), true, 9),
        deliver(0, 8),
        deliver(1, 8),
        deliver(2, 8),
        deliver(3, 8),
        deliver(4, 8),
    ]?)
}

/// Then the second member adds a sixth without a path (commit 9, Welcome 10), and the fifth commits nothing (11).
pub fn four_adds(alloc: Global) -> Result<Vec<Act>, AllocError> {
    let mut acts = add_four_and_remove(alloc)?;
    acts.extend_from_slice(&[
        commit(1, additions_from(5, 1), false, 10),
        deliver(0, 9),
        deliver(1, 9),
        deliver(2, 9),
        deliver(4, 9),
        join(5, 10),
        commit(4, Parts::Nothing, true, 11),
        deliver(0, 11),
        deliver(1, 11),
        deliver(2, 11),
        deliver(4, 11),
        deliver(5, 11),
    ])?;
    Ok(acts)
}
