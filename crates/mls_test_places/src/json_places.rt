//! Where recordings and vector files are refused with `BadJson` (9).

use crate::rows::{Subject, answers, line_of};
use mls_cli_json_place::{JsonPlace, place_of_recording, place_of_vectors};
use std::alloc::{AllocError, Global};
use std::test::Fail;

const SEED: &str = "0101010101010101010101010101010101010101010101010101010101010101";

/// The lines of a place, each behind a blank, or `none`.
fn place_line(alloc: Global, place: Option<JsonPlace>) -> Result<String, AllocError> {
    match place {
        Some(place) => line_of(alloc, &place),
        None => String::from_str(alloc, "none"),
    }
}

/// A recording for suite f001.
struct Recording;

impl Subject for Recording {
    fn answer(&self, alloc: Global, text: &str) -> Result<String, AllocError> {
        place_line(alloc, place_of_recording(alloc, 0xF001, text.as_bytes())?)
    }
}

/// The events of a recording of this version, with the seed in place of each `@`.
struct Events {
    version: u8,
}

impl Subject for Events {
    fn answer(&self, alloc: Global, text: &str) -> Result<String, AllocError> {
        let version = self.version;
        let events = text.replace(alloc, "@", SEED)?;
        let file = format!(in alloc;
            "{{\"version\":{version},\"suite\":\"f001\",\"events\":[{events}]}}"
        )?;
        Recording.answer(alloc, file.as_str())
    }
}

/// A file of vectors.
struct Vectors;

impl Subject for Vectors {
    fn answer(&self, alloc: Global, text: &str) -> Result<String, AllocError> {
        place_line(alloc, place_of_vectors(alloc, text.as_bytes())?)
    }
}

const EVENTS: &[(&str, &str)] = &[
    ("", "none"),
    ("7", "event: 0 key: op"),
    (r#"{"op":"leave"}"#, "event: 0 key: op"),
    (r#"{"op":"deliver_all","bytes":""}"#, "event: 0 key: op"),
    (r#"{"op":"drop_pending","member":0}"#, "none"),
    (
        r#"{"op":"drop_pending","member":0},{"op":"drop_pending","membre":0},7"#,
        "event: 1 key: member",
    ),
    (
        r#"{"op":"drop_pending","member":0,"leaf":0}"#,
        "event: 0 keys: too many",
    ),
    (
        r#"{"op":"drop_pending","member":"0","expect":null}"#,
        "event: 0 key: expect",
    ),
    (
        r#"{"op":"candidate","identity":7,"seed":"@","expect":""}"#,
        "event: 0 key: identity",
    ),
    (r#"{"op":"candidate","identity":"7","seed":"@"}"#, "none"),
    (
        r#"{"op":"candidate","identity":7,"seed":"@@"}"#,
        "event: 0 key: seed",
    ),
    (
        r#"{"op":"create","candidate":-1,"group":"67","seed":"@"}"#,
        "event: 0 key: candidate",
    ),
    (
        r#"{"op":"create","candidate":1,"seed":"@"}"#,
        "event: 0 key: group",
    ),
    (
        r#"{"op":"propose_add","member":0,"key_package":{"message":1,"epoch":1}}"#,
        "event: 0 key: key_package",
    ),
    (
        r#"{"op":"propose_update","member":0,"seed":""}"#,
        "event: 0 key: seed",
    ),
    (
        r#"{"op":"propose_remove","member":0,"leaf":4294967296}"#,
        "event: 0 key: leaf",
    ),
    (
        r#"{"op":"propose_extensions","member":0,"extensions":[{"type":1,"data":""},{"type":65536,"data":""}]}"#,
        "event: 0 key: extensions",
    ),
    (
        r#"{"op":"commit","member":0,"items":[],"path":1,"seed":"@"}"#,
        "event: 0 key: path",
    ),
    (
        r#"{"op":"commit","member":0,"items":[{"ref":""},{"add":{"message":2}},{"extensions":[]},{"remove":1}],"path":true,"seed":"@"}"#,
        "none",
    ),
    (
        r#"{"op":"commit","member":0,"items":[{"remove":1},{"keep":1}],"path":true,"seed":"@"}"#,
        "event: 0 key: items",
    ),
    (
        r#"{"op":"deliver","member":0,"bytes":null}"#,
        "event: 0 key: bytes",
    ),
    (r#"{"op":"join","bytes":"00"}"#, "event: 0 key: candidate"),
];

#[test]
fn finds_events(rt: HostRuntime) -> Result<(), Fail> {
    answers(&rt, rt.alloc(), &Events { version: 1 }, EVENTS)
}

const EVENTS_OF_VERSION_2: &[(&str, &str)] = &[
    (r#"{"op":"deliver_all","bytes":""}"#, "none"),
    (r#"{"op":"deliver_all"}"#, "event: 0 key: bytes"),
    (
        r#"{"op":"deliver_all","bytes":"","member":0}"#,
        "event: 0 keys: too many",
    ),
];

#[test]
fn finds_events_of_version_2(rt: HostRuntime) -> Result<(), Fail> {
    answers(&rt, rt.alloc(), &Events { version: 2 }, EVENTS_OF_VERSION_2)
}

const RECORDINGS: &[(&str, &str)] = &[
    ("", "line: 1 column: 0"),
    ("[", "line: 1 column: 1"),
    (
        "{\"version\":1,\n \"suite\" \"f001\"}",
        "line: 2 column: 10",
    ),
    ("[]", "key: version"),
    (r#"{"version":1}"#, "key: suite"),
    (r#"{"version":1,"suite":"f001"}"#, "key: events"),
    (
        r#"{"version":3,"suite":"0001","events":[7]}"#,
        "key: version",
    ),
    (r#"{"version":1,"suite":"0001","events":[7]}"#, "key: suite"),
    (
        r#"{"version":1,"suite":"f001","events":[7],"final":[]}"#,
        "keys: too many",
    ),
    (
        r#"{"version":2,"suite":"f001","events":[7],"final":[7]}"#,
        "key: final",
    ),
    (
        r#"{"version":2,"suite":"f001","events":[7],"final":[""]}"#,
        "event: 0 key: op",
    ),
    (
        r#"{"version":2,"suite":"f001","events":[],"final":[""]}"#,
        "none",
    ),
];

#[test]
fn finds_faults_of_recordings(rt: HostRuntime) -> Result<(), Fail> {
    answers(&rt, rt.alloc(), &Recording, RECORDINGS)
}

const VECTORS: &[(&str, &str)] = &[
    ("[", "line: 1 column: 1"),
    ("{}", "file: no array"),
    ("[]", "none"),
    ("[7]", "vector: 0 key: kind"),
    (r#"[{"kind":"tag"}]"#, "vector: 0 key: kind"),
    (
        r#"[{"kind":"header","length":0,"bytes":null},{"kind":"header","length":0,"bytes":7}]"#,
        "vector: 1 key: bytes",
    ),
    (
        r#"[{"kind":"header","length":1.0,"bytes":"00"}]"#,
        "vector: 0 key: length",
    ),
    (
        r#"[{"kind":"hmac","key":"","data":"","out":"","tag":""}]"#,
        "vector: 0 keys: too many",
    ),
    (
        r#"[{"kind":"hkdf","salt":"","ikm":"","info":"","prk":"","okm":null}]"#,
        "vector: 0 key: okm",
    ),
    (
        r#"[{"kind":"expand","secret":"","label":"a","context":""}]"#,
        "vector: 0 key: out",
    ),
    (
        r#"[{"kind":"treemath","leaves":2,"node":0,"direct_path":[1],"copath":[2,"2"]}]"#,
        "vector: 0 key: copath",
    ),
    (
        r#"[{"kind":"message","bytes":"0","refused":8},{"kind":"message","bytes":"","refused":-8}]"#,
        "vector: 1 key: refused",
    ),
    (
        r#"[{"kind":"tree","bytes":"","treehash":""}]"#,
        "vector: 0 key: tree_hash",
    ),
];

#[test]
fn finds_vectors(rt: HostRuntime) -> Result<(), Fail> {
    answers(&rt, rt.alloc(), &Vectors, VECTORS)
}
