//! What `mls replay` prints, by way of `serve`.

use crate::tests::cases::{FileCase, count_met_by, is_met};
use crate::tests::faults::is_cut_at_lines;
use crate::tests::rows::{JOIN, JOIN_TEXT};
use std::alloc::{AllocError, Global};
use std::test::Fail;

const BAD_JSON: &str = "refused: 9 BadJson\n";

const NOT_HEX: &str = "refused: 8 NotHex\n";

const WORDS: &[&str] = &["mls", "replay", "FILE"];

/// A candidate creates a group.
const ALONE: &str = r#"
  {"op":"candidate","identity":"616461","seed":"0101010101010101010101010101010101010101010101010101010101010101"},
  {"op":"create","candidate":0,"group":"67","seed":"0202020202020202020202020202020202020202020202020202020202020202"}"#;

/// Its replies.
const BEGUN: &str = "0: candidate 0, message 0\n1: member 0\n";

/// And its member, by Python's `hashlib` and `hmac`.
const ADA: &str =
    "member 0: leaf 0, epoch 0, tree 6d04bbe92956f8aaace7df23bf42d358eb52ae0da37628bca2ca496218c89d74, authenticator cf7049122b111143d42a88e2226a9e73e67126f458adcbb70165483465a5699a\n";

/// A recording of these events.
fn recording_of(alloc: Global, events: &str) -> Result<String, AllocError> {
    format!(in alloc; "{{\"version\":1,\"suite\":\"f001\",\"events\":[{events}]}}")
}

/// A recording of both.
pub fn recording_of_both(alloc: Global, front: &str, behind: &str) -> Result<String, AllocError> {
    let events = format!(in alloc; "{front},{behind}")?;
    recording_of(alloc, events.as_str())
}

/// Events behind the creation of a group, with what is said of them.
const EVENTS: &[FileCase] = &[
    (
        r#"{"op":"drop_pending","member":0}"#,
        0,
        "2: nothing pending\n",
    ),
    (
        r#"{"op":"drop_pending","member":0,"expect":"nothing pending"}"#,
        0,
        "2: nothing pending\n",
    ),
    (
        r#"{"op":"drop_pending","member":0,"expect":"dropped"},{"op":"drop_pending","member":0}"#,
        1,
        "2: nothing pending\n2: expected dropped\n3: nothing pending\n",
    ),
    (
        r#"{"op":"drop_pending","member":0,"expect":""}"#,
        1,
        "2: nothing pending\n2: expected \n",
    ),
    (
        r#"{"op":"commit","member":0,"items":[],"path":false,"seed":"0505050505050505050505050505050505050505050505050505050505050505"},{"op":"drop_pending","member":0}"#,
        0,
        "2: message 1\n3: dropped\n",
    ),
    (
        r#"{"op":"propose_update","member":0,"seed":"0505050505050505050505050505050505050505050505050505050505050505"},{"op":"deliver","member":0,"bytes":{"message":1}}"#,
        0,
        "2: message 1\n3: known\n",
    ),
    (
        r#"{"op":"deliver","member":9,"bytes":{"message":0}}"#,
        0,
        "2: refused 90 NoSuchMember\n",
    ),
    (
        r#"{"op":"create","candidate":0,"group":"","seed":"0505050505050505050505050505050505050505050505050505050505050505"}"#,
        0,
        "2: refused 91 CandidateSpent\n",
    ),
    (
        r#"{"op":"join","candidate":1,"bytes":""}"#,
        0,
        "2: refused 92 NoSuchCandidate\n",
    ),
    (
        r#"{"op":"candidate","identity":"","seed":"0101010101010101010101010101010101010101010101010101010101010101"}"#,
        0,
        "2: refused 93 CandidateRepeated\n",
    ),
    (
        r#"{"op":"deliver","member":0,"bytes":{"message":9},"expect":"refused 94 NoSuchMessage"}"#,
        0,
        "2: refused 94 NoSuchMessage\n",
    ),
    (
        r#"{"op":"propose_add","member":0,"key_package":"00010003f0010000"}"#,
        0,
        "2: refused 95 WrongMessageKind\n",
    ),
    (
        r#"{"op":"propose_remove","member":0,"leaf":3}"#,
        0,
        "2: refused 22 NoSuchLeaf\n",
    ),
    (
        r#"{"op":"deliver","member":0,"bytes":"00"}"#,
        0,
        "2: refused 2 Truncated\n",
    ),
];

/// Whether that is so.
fn is_replayed(alloc: Global, events: &str, status: u8, text: &str) -> Result<bool, AllocError> {
    let file = recording_of_both(alloc, ALONE, events)?;
    let whole = format!(in alloc; "{BEGUN}{text}{ADA}")?;
    is_met(alloc, WORDS, file.as_bytes(), status, whole.as_bytes())
}

/// How many are so, from the first on.
fn count_replays(alloc: Global, cases: &[FileCase<'_>]) -> Result<usize, AllocError> {
    for i in 0..cases.len() {
        let (events, status, text) = cases[i];
        if !is_replayed(alloc, events, status, text)? {
            return Ok(i);
        }
    }
    Ok(cases.len())
}

#[test]
fn replays_events(rt: HostRuntime) -> Result<(), Fail> {
    assert_eq!(rt; count_replays(rt.alloc(), EVENTS)?, EVENTS.len());
    Ok(())
}

/// Events of recordings without a group.
const LESS: &[FileCase] = &[
    ("", 0, ""),
    (
        r#"{"op":"drop_pending","member":0}"#,
        0,
        "0: refused 90 NoSuchMember\n",
    ),
    (
        r#"{"op":"candidate","identity":"","seed":"0101010101010101010101010101010101010101010101010101010101010101","expect":"candidate 0, message 0"},{"op":"create","candidate":1,"group":"","seed":"0202020202020202020202020202020202020202020202020202020202020202"}"#,
        0,
        "0: candidate 0, message 0\n1: refused 92 NoSuchCandidate\n",
    ),
    (
        r#"{"op":"drop_pending","member":0,"expect":"dropped"},{"op":"drop_pending","member":1,"expect":"refused 90 NoSuchMember"}"#,
        1,
        "0: refused 90 NoSuchMember\n0: expected dropped\n1: refused 90 NoSuchMember\n",
    ),
];

/// How many are as told, from the first on.
fn count_less(alloc: Global, cases: &[FileCase<'_>]) -> Result<usize, AllocError> {
    for i in 0..cases.len() {
        let (events, status, text) = cases[i];
        let file = recording_of(alloc, events)?;
        if !is_met(alloc, WORDS, file.as_bytes(), status, text.as_bytes())? {
            return Ok(i);
        }
    }
    Ok(cases.len())
}

#[test]
fn replays_less(rt: HostRuntime) -> Result<(), Fail> {
    assert_eq!(rt; count_less(rt.alloc(), LESS)?, LESS.len());
    Ok(())
}

const REFUSED: &[FileCase] = &[
    ("", 1, BAD_JSON),
    ("zz", 1, BAD_JSON),
    ("[]", 1, BAD_JSON),
    (r#"{"version":3,"suite":"f001","events":[]}"#, 1, BAD_JSON),
    (r#"{"version":1,"suite":"0001","events":[]}"#, 1, BAD_JSON),
    (r#"{"version":1,"suite":"f001"}"#, 1, BAD_JSON),
    (
        r#"{"version":1,"suite":"f001","events":[{"op":"drop_pending"}]}"#,
        1,
        BAD_JSON,
    ),
    (
        r#"{"version":1,"suite":"f001","events":[{"op":"drop_pending","member":0,"expect":null}]}"#,
        1,
        BAD_JSON,
    ),
    (
        r#"{"version":1,"suite":"f001","events":[{"op":"deliver","member":0,"bytes":"0"}]}"#,
        1,
        NOT_HEX,
    ),
    (
        r#"{"version":1,"suite":"f001","events":[{"op":"deliver","member":0,"bytes":"0"},{}]}"#,
        1,
        BAD_JSON,
    ),
];

#[test]
fn refuses_recordings(rt: HostRuntime) -> Result<(), Fail> {
    assert_eq!(rt; count_met_by(rt.alloc(), WORDS, REFUSED)?, REFUSED.len());
    Ok(())
}

#[test]
fn stops_where_a_write_fails(rt: HostRuntime) -> Result<(), Fail> {
    assert!(rt; is_cut_at_lines(rt.alloc(), WORDS, JOIN, JOIN_TEXT, 0)?);
    Ok(())
}
