//! What a creation is refused for.

use crate::sole::candidate;
use mls_candidate::Candidate;
use mls_leaf::INPUT_LIMIT;
use mls_member::{Member, Refusal};
use mls_suite::Glass;
use std::alloc::Global;
use std::test::Fail;

/// The number that a group with an id of so many bytes is refused with, 0 where it is created.
fn refusal(alloc: Global, candidate: &Candidate<Glass>, length: usize) -> Result<u8, Refusal> {
    let group_id = vec![in alloc; 0x67; length]?;
    match Member::create(alloc, candidate, &group_id, &[2; 32]) {
        Ok(_) => Ok(0),
        Err(error) => Ok(error.number()),
    }
}

#[test]
fn long_group_ids(rt: HostRuntime) -> Result<(), Fail> {
    let alloc = rt.alloc();
    let candidate = candidate(alloc, 3)?;
    // Beside the id a context has its header of 4 bytes, and 47 more.
    assert_eq!(rt; refusal(alloc, &candidate, INPUT_LIMIT - 51)?, 0);
    assert_eq!(rt; refusal(alloc, &candidate, INPUT_LIMIT - 50)?, 6);
    assert_eq!(rt; refusal(alloc, &candidate, INPUT_LIMIT)?, 6);
    Ok(())
}
