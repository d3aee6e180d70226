//! What a candidate refuses as a Welcome.

use crate::sole::candidate;
use mls_candidate::Candidate;
use mls_member::Member;
use mls_suite::Glass;
use std::alloc::Global;
use std::test::Fail;

/// The number that a candidate refuses these bytes with, 0 where it joins.
fn refusal(alloc: Global, candidate: &Candidate<Glass>, bytes: &[u8]) -> u8 {
    match Member::join(alloc, candidate, bytes) {
        Ok(_) => 0,
        Err(error) => error.number(),
    }
}

#[test]
fn refused_messages(rt: HostRuntime) -> Result<(), Fail> {
    let candidate = candidate(rt.alloc(), 3)?;
    // No bytes; another version; a Welcome with a byte behind it.
    for (bytes, number) in [
        ([].as_slice(), 2),
        ([0, 2].as_slice(), 7),
        ([0, 1, 0, 3, 0, 1, 0, 0, 9].as_slice(), 3),
    ] {
        assert_eq!(rt; refusal(rt.alloc(), &candidate, bytes), number);
    }
    Ok(())
}
