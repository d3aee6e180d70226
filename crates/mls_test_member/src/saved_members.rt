//! Saved bytes of a member that were changed.

use crate::changed::{Saved, loaded_changes, loaded_prefixes};
use crate::conversations::trio::create_trio;
use mls_member::Member;
use mls_suite::Glass;
use std::alloc::Global;
use std::test::Fail;

/// A member, which is saved.
struct SavedMember;

impl Saved for SavedMember {
    fn is_loaded(alloc: Global, bytes: &[u8]) -> bool {
        let loaded: Result<Member<Glass>, _> = Member::load(alloc, bytes);
        loaded.is_ok()
    }
}

/// What carol is saved as.
fn saved_carol(alloc: Global) -> Result<Vec<u8>, Fail> {
    let members = create_trio::<Glass>(alloc, b"group")?;
    Ok(members.carol.save()?)
}

#[test]
fn prefixes_are_refused(rt: HostRuntime) -> Result<(), Fail> {
    let alloc = rt.alloc();
    let bytes = saved_carol(alloc)?;
    assert_eq!(rt; loaded_prefixes::<SavedMember>(alloc, &bytes), 0);
    Ok(())
}

// The epoch's number, the transcript's two hashes, the epoch secret and whether the member was removed are checked against
// nothing: each of their 64, 512, 256 and 1 bits gives another member.
#[test]
fn other_bits_are_refused(rt: HostRuntime) -> Result<(), Fail> {
    let alloc = rt.alloc();
    let bytes = saved_carol(alloc)?;
    assert_eq!(rt; loaded_changes::<SavedMember>(alloc, &bytes)?, 833);
    Ok(())
}
