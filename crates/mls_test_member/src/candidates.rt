//! Candidates: how long their messages are, and what they are refused for.

use crate::sole::candidate;
use mls_leaf::INPUT_LIMIT;
use std::alloc::Global;
use std::test::Fail;

#[test]
fn a_candidate(rt: HostRuntime) -> Result<(), Fail> {
    let alloc = rt.alloc();
    let made = candidate(alloc, 1)?;
    assert_eq!(rt; made.message().len(), 207);
    Ok(())
}

/// The number of the refusal, 0 where there is none.
fn refusal(alloc: Global, length: usize) -> u8 {
    match candidate(alloc, length) {
        Ok(_) => 0,
        Err(error) => error.number(),
    }
}

#[test]
fn long_identities(rt: HostRuntime) -> Result<(), Fail> {
    assert_eq!(rt; refusal(rt.alloc(), INPUT_LIMIT), 6);
    assert_eq!(rt; refusal(rt.alloc(), INPUT_LIMIT + 1), 6);
    Ok(())
}
