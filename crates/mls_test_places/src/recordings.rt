//! What recordings are read as, and which are refused.

use crate::rows::{Subject, answers, gives};
use mls_cli_json::JsonError;
use mls_cli_recording::recording;
use std::alloc::{AllocError, Global};
use std::test::Fail;

const BAD_JSON: &str = "9";

const NOT_HEX: &str = "8";

const SEED: &str = "0101010101010101010101010101010101010101010101010101010101010101";

/// What a recording is read as, or the number of its refusal.
fn answer_of(alloc: Global, file: &[u8]) -> Result<String, AllocError> {
    match recording(alloc, 0xF001, file) {
        Ok(run) => format!(in alloc; "{run:?}"),
        Err(JsonError::OutOfMemory) => Err(AllocError),
        Err(error) => format!(in alloc; "{}", error.number()),
    }
}

/// A recording.
struct Recording;

impl Subject for Recording {
    fn answer(&self, alloc: Global, text: &str) -> Result<String, AllocError> {
        answer_of(alloc, text.as_bytes())
    }
}

/// The events of a recording, with the seed in place of each `@`.
struct Events;

impl Subject for Events {
    fn answer(&self, alloc: Global, text: &str) -> Result<String, AllocError> {
        let events = text.replace(alloc, "@", SEED)?;
        let file = format!(in alloc; "{{\"version\":1,\"suite\":\"f001\",\"events\":[{events}]}}")?;
        Recording.answer(alloc, file.as_str())
    }
}

/// A group of two: its first member adds the second, which joins.
const TWO_MEMBERS: &str = r#"{"version":1,"suite":"f001","events":[
  {"op":"candidate","identity":"61","seed":"0101010101010101010101010101010101010101010101010101010101010101","expect":"candidate 0, message 0"},
  {"op":"create","candidate":0,"group":"67","seed":"0202020202020202020202020202020202020202020202020202020202020202","expect":"member 0"},
  {"op":"candidate","identity":"62","seed":"0303030303030303030303030303030303030303030303030303030303030303"},
  {"op":"commit","member":0,"items":[{"add":{"message":1}}],"path":true,"seed":"0404040404040404040404040404040404040404040404040404040404040404","expect":"message 2, welcome 3"},
  {"op":"deliver","member":0,"bytes":{"message":2},"expect":""},
  {"op":"join","candidate":1,"bytes":{"message":3},"expect":"member 1 at epoch 1"}
]}
"#;

/// What it is read as.
const TWO_MEMBERS_READ: &str =
    r#"RecordedRun { actions: [Recorded { action: Event(Candidate { identity: [97], seed: [1, 1, 1, 1, 1, 1, 1, 1, 1, 1, 1, 1, 1, 1, 1, 1, 1, 1, 1, 1, 1, 1, 1, 1, 1, 1, 1, 1, 1, 1, 1, 1] }), expect: Some("candidate 0, message 0") }, Recorded { action: Event(Create { candidate: 0, group: [103], seed: [2, 2, 2, 2, 2, 2, 2, 2, 2, 2, 2, 2, 2, 2, 2, 2, 2, 2, 2, 2, 2, 2, 2, 2, 2, 2, 2, 2, 2, 2, 2, 2] }), expect: Some("member 0") }, Recorded { action: Event(Candidate { identity: [98], seed: [3, 3, 3, 3, 3, 3, 3, 3, 3, 3, 3, 3, 3, 3, 3, 3, 3, 3, 3, 3, 3, 3, 3, 3, 3, 3, 3, 3, 3, 3, 3, 3] }), expect: None }, Recorded { action: Event(Commit { member: 0, items: [Add(Message(1))], path: true, seed: [4, 4, 4, 4, 4, 4, 4, 4, 4, 4, 4, 4, 4, 4, 4, 4, 4, 4, 4, 4, 4, 4, 4, 4, 4, 4, 4, 4, 4, 4, 4, 4] }), expect: Some("message 2, welcome 3") }, Recorded { action: Event(Deliver { member: 0, bytes: Message(2) }), expect: Some("") }, Recorded { action: Event(Join { candidate: 1, bytes: Message(3) }), expect: Some("member 1 at epoch 1") }], final_lines: None }"#;

/// A recording with no events.
const NO_EVENTS: &str = "RecordedRun { actions: [], final_lines: None }";

const TWO: &[(&str, &str)] = &[(TWO_MEMBERS, TWO_MEMBERS_READ)];

#[test]
fn reads_a_group_of_two(rt: HostRuntime) -> Result<(), Fail> {
    answers(&rt, rt.alloc(), &Recording, TWO)
}

const EVENTS: &[(&str, &str)] = &[
    ("", NO_EVENTS),
    (
        r#"{"op":"propose_add","member":7,"key_package":"00fF"}"#,
        "RecordedRun { actions: [Recorded { action: Event(ProposeAdd { member: 7, key_package: Given([0, 255]) }), expect: None }], final_lines: None }",
    ),
    (
        r#"{"op":"propose_add","member":18446744073709551615,"key_package":{"message":18446744073709551615}}"#,
        "RecordedRun { actions: [Recorded { action: Event(ProposeAdd { member: 18446744073709551615, key_package: Message(18446744073709551615) }), expect: None }], final_lines: None }",
    ),
    (
        r#"{"op":"propose_update","member":2,"seed":"000102030405060708090a0b0c0d0e0f101112131415161718191A1B1C1D1E1F"}"#,
        "RecordedRun { actions: [Recorded { action: Event(ProposeUpdate { member: 2, seed: [0, 1, 2, 3, 4, 5, 6, 7, 8, 9, 10, 11, 12, 13, 14, 15, 16, 17, 18, 19, 20, 21, 22, 23, 24, 25, 26, 27, 28, 29, 30, 31] }), expect: None }], final_lines: None }",
    ),
    (
        r#"{"op":"propose_remove","member":0,"leaf":4294967295}"#,
        "RecordedRun { actions: [Recorded { action: Event(ProposeRemove { member: 0, leaf: 4294967295 }), expect: None }], final_lines: None }",
    ),
    (
        r#"{"op":"propose_extensions","member":7,"extensions":[]}"#,
        "RecordedRun { actions: [Recorded { action: Event(ProposeExtensions { member: 7, extensions: [] }), expect: None }], final_lines: None }",
    ),
    (
        r#"{"op":"propose_extensions","member":7,"extensions":[{"type":61441,"data":"6869"},{"data":"","type":65535},{"type":0,"data":"fF"}]}"#,
        "RecordedRun { actions: [Recorded { action: Event(ProposeExtensions { member: 7, extensions: [Extension { kind: 61441, content: Bytes { bytes: [104, 105] } }, Extension { kind: 65535, content: Bytes { bytes: [] } }, Extension { kind: 0, content: Bytes { bytes: [255] } }] }), expect: None }], final_lines: None }",
    ),
    (
        r#"{"op":"commit","member":3,"items":[{"ref":{"message":1}},{"ref":""},{"add":"aa"},{"remove":5}],"path":false,"seed":"0102030405060708090a0b0c0d0e0f101112131415161718191a1b1c1d1e1f20"}"#,
        "RecordedRun { actions: [Recorded { action: Event(Commit { member: 3, items: [RefOf(Message(1)), RefOf(Given([])), Add(Given([170])), Remove(5)], path: false, seed: [1, 2, 3, 4, 5, 6, 7, 8, 9, 10, 11, 12, 13, 14, 15, 16, 17, 18, 19, 20, 21, 22, 23, 24, 25, 26, 27, 28, 29, 30, 31, 32] }), expect: None }], final_lines: None }",
    ),
    (
        r#"{"op":"drop_pending","member":1,"expect":"nothing pending"},{"expect":"dropped","member":2,"op":"drop_pending"}"#,
        r#"RecordedRun { actions: [Recorded { action: Event(DropPending { member: 1 }), expect: Some("nothing pending") }, Recorded { action: Event(DropPending { member: 2 }), expect: Some("dropped") }], final_lines: None }"#,
    ),
    (
        r#"{"op":"deliver","member":1,"member":9,"bytes":"01"}"#,
        "RecordedRun { actions: [Recorded { action: Event(Deliver { member: 9, bytes: Given([1]) }), expect: None }], final_lines: None }",
    ),
];

#[test]
fn reads_events(rt: HostRuntime) -> Result<(), Fail> {
    answers(&rt, rt.alloc(), &Events, EVENTS)
}

const REFUSED_EVENTS: &[(&str, &str)] = &[
    ("7", BAD_JSON),
    (r#"{"member":0}"#, BAD_JSON),
    (r#"{"op":"leave","member":0}"#, BAD_JSON),
    (r#"{"op":"drop_pending"}"#, BAD_JSON),
    (r#"{"op":"drop_pending","member":"0"}"#, BAD_JSON),
    (r#"{"op":"drop_pending","member":0,"leaf":0}"#, BAD_JSON),
    (
        r#"{"op":"drop_pending","member":0,"expect":null}"#,
        BAD_JSON,
    ),
    (
        r#"{"op":"drop_pending","member":0,"expect":"","expects":""}"#,
        BAD_JSON,
    ),
    (
        r#"{"op":"drop_pending","member":18446744073709551616}"#,
        BAD_JSON,
    ),
    (r#"{"op":"drop_pending","member":-0}"#, BAD_JSON),
    (r#"{"op":"drop_pending","member":1.0}"#, BAD_JSON),
    (
        r#"{"op":"propose_remove","member":0,"leaf":4294967296}"#,
        BAD_JSON,
    ),
    (
        r#"{"op":"propose_extensions","member":0,"extensions":[{"type":65536,"data":""}]}"#,
        BAD_JSON,
    ),
    (
        r#"{"op":"propose_extensions","member":0,"extensions":[{"type":1.0,"data":""}]}"#,
        BAD_JSON,
    ),
    (
        r#"{"op":"propose_extensions","member":0,"extensions":[{"type":"f001","data":""}]}"#,
        BAD_JSON,
    ),
    (
        r#"{"op":"propose_extensions","member":0,"extensions":[{"type":61441}]}"#,
        BAD_JSON,
    ),
    (
        r#"{"op":"propose_extensions","member":0,"extensions":[{"type":61441,"data":"","name":""}]}"#,
        BAD_JSON,
    ),
    (
        r#"{"op":"propose_extensions","member":0,"extensions":{"type":61441,"data":""}}"#,
        BAD_JSON,
    ),
    (
        r#"{"op":"propose_extensions","member":0,"extensions":[{"type":61441,"data":"0"}]}"#,
        NOT_HEX,
    ),
    (
        r#"{"op":"propose_extensions","member":0,"extensions":[{"type":61441,"data":"0"},{"type":65536,"data":""}]}"#,
        BAD_JSON,
    ),
    (
        r#"{"op":"propose_update","member":0,"seed":"01"}"#,
        BAD_JSON,
    ),
    (
        r#"{"op":"propose_update","member":0,"seed":"g101010101010101010101010101010101010101010101010101010101010101"}"#,
        BAD_JSON,
    ),
    (
        r#"{"op":"commit","member":0,"items":[],"path":"true","seed":"@"}"#,
        BAD_JSON,
    ),
    (
        r#"{"op":"commit","member":0,"items":[{"remove":1,"add":""}],"path":true,"seed":"@"}"#,
        BAD_JSON,
    ),
    (
        r#"{"op":"commit","member":0,"items":[{"extensions":[{"type":61441,"data":"0"}]}],"path":true,"seed":"@"}"#,
        NOT_HEX,
    ),
    (
        r#"{"op":"commit","member":0,"items":[{"extensions":[],"remove":1}],"path":true,"seed":"@"}"#,
        BAD_JSON,
    ),
    (
        r#"{"op":"commit","member":0,"items":[{"add":"0"},{"remove":1}],"path":true,"seed":"@"}"#,
        NOT_HEX,
    ),
    (
        r#"{"op":"commit","member":0,"items":[{"add":"0"},{"keep":1}],"path":true,"seed":"@"}"#,
        BAD_JSON,
    ),
    (r#"{"op":"deliver","member":0,"bytes":"0"}"#, NOT_HEX),
    (r#"{"op":"deliver","member":0,"bytes":" 00"}"#, NOT_HEX),
    (r#"{"op":"deliver","member":0,"bytes":7}"#, BAD_JSON),
    (
        r#"{"op":"deliver","member":0,"bytes":{"message":1,"epoch":1}}"#,
        BAD_JSON,
    ),
    (
        r#"{"op":"deliver","member":0,"bytes":"0"},{"op":"drop_pending","member":0}"#,
        NOT_HEX,
    ),
    (
        r#"{"op":"deliver","member":0,"bytes":"0"},{"op":"drop_pending","member":0,"leaf":0}"#,
        BAD_JSON,
    ),
];

#[test]
fn refuses_events(rt: HostRuntime) -> Result<(), Fail> {
    answers(&rt, rt.alloc(), &Events, REFUSED_EVENTS)
}

const REFUSED_FILES: &[(&str, &str)] = &[
    ("[", BAD_JSON),
    ("[]", BAD_JSON),
    (r#"{"version":1,"suite":"f001"}"#, BAD_JSON),
    (r#"{"version":0,"suite":"f001","events":[]}"#, BAD_JSON),
    (r#"{"version":3,"suite":"f001","events":[]}"#, BAD_JSON),
    (
        r#"{"version":3,"suite":"f001","events":[],"final":[]}"#,
        BAD_JSON,
    ),
    (r#"{"version":1.0,"suite":"f001","events":[]}"#, BAD_JSON),
    (r#"{"version":1,"suite":"0001","events":[]}"#, BAD_JSON),
    (r#"{"version":1,"suite":"F001","events":[]}"#, BAD_JSON),
    (r#"{"version":1,"suite":61441,"events":[]}"#, BAD_JSON),
    (r#"{"version":1,"suite":"f001","events":{}}"#, BAD_JSON),
    (
        r#"{"version":1,"suite":"f001","events":[],"final":[]}"#,
        BAD_JSON,
    ),
    (
        r#"{"version":3,"suite":"f001","events":[{"op":"deliver","member":0,"bytes":"0"}]}"#,
        BAD_JSON,
    ),
    (
        r#"{"version":1,"suite":"f001","events":[{"op":"deliver_all","bytes":"00"}]}"#,
        BAD_JSON,
    ),
    (
        r#"{"version":2,"version":1,"suite":"f001","events":[]}"#,
        NO_EVENTS,
    ),
];

#[test]
fn refuses_files(rt: HostRuntime) -> Result<(), Fail> {
    answers(&rt, rt.alloc(), &Recording, REFUSED_FILES)
}

#[test]
fn refuses_bytes_that_are_no_text(rt: HostRuntime) -> Result<(), Fail> {
    let file = b"{\"version\":1,\"suite\":\"f001\",\"events\":[],\"\xff\":1}";
    gives(&rt, answer_of(rt.alloc(), file), BAD_JSON, "no text")
}

const RECORDINGS_OF_VERSION_2: &[(&str, &str)] = &[
    (r#"{"version":2,"suite":"f001","events":[]}"#, NO_EVENTS),
    (
        r#"{"version":2,"suite":"f001","events":[{"op":"drop_pending","member":7}]}"#,
        "RecordedRun { actions: [Recorded { action: Event(DropPending { member: 7 }), expect: None }], final_lines: None }",
    ),
    (
        r#"{"version":2,"suite":"f001","events":[{"op":"deliver_all","bytes":"00fF"},{"op":"deliver_all","bytes":{"message":7},"expect":"x"}]}"#,
        r#"RecordedRun { actions: [Recorded { action: DeliverAll(Given([0, 255])), expect: None }, Recorded { action: DeliverAll(Message(7)), expect: Some("x") }], final_lines: None }"#,
    ),
    (
        r#"{"final":[],"events":[],"suite":"f001","version":2}"#,
        "RecordedRun { actions: [], final_lines: Some([]) }",
    ),
    (
        r#"{"version":2,"suite":"f001","events":[],"final":["member 0: gone",""]}"#,
        r#"RecordedRun { actions: [], final_lines: Some(["member 0: gone", ""]) }"#,
    ),
    (
        r#"{"version":2,"suite":"f001","events":[],"final":null}"#,
        BAD_JSON,
    ),
    (
        r#"{"version":2,"suite":"f001","events":[],"final":"member 0: gone"}"#,
        BAD_JSON,
    ),
    (
        r#"{"version":2,"suite":"f001","events":[],"final":["member 0: gone",0]}"#,
        BAD_JSON,
    ),
    (
        r#"{"version":2,"suite":"f001","events":[],"last":[]}"#,
        BAD_JSON,
    ),
    (r#"{"version":2,"suite":"f001","final":[]}"#, BAD_JSON),
    (
        r#"{"version":2,"suite":"f001","events":[{"op":"deliver_all","bytes":"0"}],"final":[]}"#,
        NOT_HEX,
    ),
    (
        r#"{"version":2,"suite":"f001","events":[{"op":"deliver_all","bytes":"0"}],"final":[0]}"#,
        BAD_JSON,
    ),
    (
        r#"{"version":2,"suite":"f001","events":[{"op":"deliver_all","bytes":"00","member":0}]}"#,
        BAD_JSON,
    ),
    (
        r#"{"version":2,"suite":"f001","events":[{"op":"deliver_all"}]}"#,
        BAD_JSON,
    ),
];

#[test]
fn reads_version_2(rt: HostRuntime) -> Result<(), Fail> {
    answers(&rt, rt.alloc(), &Recording, RECORDINGS_OF_VERSION_2)
}
