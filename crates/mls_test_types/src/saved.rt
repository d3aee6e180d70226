//! Saved members and candidates.

use crate::digits::{answers, holds, value_of};
use mls_saved::*;
use mls_types::*;
use std::alloc::Global;
use std::test::Fail;

/// A member of suite f001 and group "g" in epoch 0, with no tree, interim hash aa, epoch secret bb, leaf 2 with key cc,
/// over it no key and then dd, and signature key ee.
const MEMBER: &str =
    "0001000001f0010167000000000000000020111111111111111111111111111111111111111111111111111111111111111100000001aa01bb0000000201cc04000101dd01ee0000";

/// The `MEMBER` with two kept proposals, both to remove leaf 5, the second with a key, and a pending commit whose
/// message is ff.
const FULL_MEMBER: &str =
    "0001000001f0010167000000000000000020111111111111111111111111111111111111111111111111111111111111111100000001aa01bb0000000201cc04000101dd01ee2201aa02bbbb000300000005000000010001aa02bbbb000300000005000000010101cc0101ff0001f0010167000000000000000020111111111111111111111111111111111111111111111111111111111111111100000001aa01bb0000000201cc04000101dd";

/// A KeyPackage of "bob" with the private keys aa, bb and cc.
const CANDIDATE: &str =
    "00020001f00101aa01bb01cc000103626f6202000102f0010000020001010000000000000000ffffffffffffffff0001dd0001ee01aa01bb01cc";

/// Whether these bytes are this one alone.
fn is_byte(bytes: &Bytes, byte: u8) -> bool {
    bytes.as_slice() == [byte].as_slice()
}

/// Whether there are two keys above a leaf, and no lower one.
fn has_upper_key(state: &SavedState) -> bool {
    let above = state.above.as_slice();
    match above.first() {
        Some(lower) => lower.is_none() && above.len() == 2,
        None => false,
    }
}

/// Whether these are the parts of the state.
fn has_state(state: &SavedState) -> bool {
    state.leaf == 2
        && is_byte(&state.interim, 0xaa)
        && is_byte(&state.epoch, 0xbb)
        && is_byte(&state.own, 0xcc)
        && has_upper_key(state)
}

/// Whether the `FULL_MEMBER` has its parts.
fn is_full(alloc: Global) -> Result<bool, LeafError> {
    let member = value_of::<SavedMember>(alloc, FULL_MEMBER)?;
    let Some(pending) = &member.pending else {
        return Ok(false);
    };
    Ok(
        member.standing == Standing::Present
            && has_state(&member.state)
            && has_state(&pending.state)
            && is_byte(&member.signing, 0xee)
            && is_byte(&pending.message, 0xff)
            && member.kept.as_slice().len() == 2,
    )
}

#[test]
fn full_member(rt: HostRuntime) -> Result<(), Fail> {
    holds(&rt, is_full(rt.alloc()), "its parts")
}

const MEMBERS: &[(&str, u8)] = &[
    (MEMBER, 0),
    (FULL_MEMBER, 0),
    // a candidate's version, and one of no form
    (CANDIDATE, 7),
    ("0003", 7),
    // removed, and of no standing
    (
        "0001010001f0010167000000000000000020111111111111111111111111111111111111111111111111111111111111111100000001aa01bb0000000201cc04000101dd01ee0000",
        0,
    ),
    ("000102", 7),
    // cut before the pending commit, one of no kind, and a byte more
    (
        "0001000001f0010167000000000000000020111111111111111111111111111111111111111111111111111111111111111100000001aa01bb0000000201cc04000101dd01ee00",
        2,
    ),
    (
        "0001000001f0010167000000000000000020111111111111111111111111111111111111111111111111111111111111111100000001aa01bb0000000201cc04000101dd01ee0002",
        7,
    ),
    (
        "0001000001f0010167000000000000000020111111111111111111111111111111111111111111111111111111111111111100000001aa01bb0000000201cc04000101dd01ee000000",
        3,
    ),
];

#[test]
fn members(rt: HostRuntime) -> Result<(), Fail> {
    answers::<SavedMember>(&rt, rt.alloc(), MEMBERS)
}

const CANDIDATES: &[(&str, u8)] = &[(CANDIDATE, 0), (MEMBER, 7), ("00", 2), ("0002", 2)];

#[test]
fn candidates(rt: HostRuntime) -> Result<(), Fail> {
    answers::<SavedCandidate>(&rt, rt.alloc(), CANDIDATES)
}
