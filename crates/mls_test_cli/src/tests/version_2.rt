//! What `mls replay` prints of recordings of version 2, by way of `serve`.

use crate::tests::cases::{FileCase, count_met_by, is_met};
use std::alloc::{AllocError, Global};
use std::test::Fail;

const WORDS: &[&str] = &["mls", "replay", "FILE"];

/// A group of three, in which messages go to all that are active: an update of the second, and the removal of the third.
const GROUP: &str = r#"{"version":2,"suite":"f001","events":[
  {"op":"candidate","identity":"61","seed":"0101010101010101010101010101010101010101010101010101010101010101"},
  {"op":"create","candidate":0,"group":"67","seed":"0202020202020202020202020202020202020202020202020202020202020202"},
  {"op":"candidate","identity":"62","seed":"0303030303030303030303030303030303030303030303030303030303030303"},
  {"op":"candidate","identity":"63","seed":"0404040404040404040404040404040404040404040404040404040404040404"},
  {"op":"commit","member":0,"items":[{"add":{"message":1}},{"add":{"message":2}}],"path":true,"seed":"0505050505050505050505050505050505050505050505050505050505050505"},
  {"op":"deliver_all","bytes":{"message":3}},
  {"op":"join","candidate":1,"bytes":{"message":4}},
  {"op":"join","candidate":2,"bytes":{"message":4}},
  {"op":"propose_update","member":1,"seed":"0606060606060606060606060606060606060606060606060606060606060606"},
  {"op":"deliver_all","bytes":{"message":5}},
  {"op":"propose_update","member":1,"seed":"0606060606060606060606060606060606060606060606060606060606060606"},
  {"op":"commit","member":0,"items":[{"ref":{"message":5}}],"path":false,"seed":"0707070707070707070707070707070707070707070707070707070707070707"},
  {"op":"deliver_all","bytes":{"message":7},"expect":"proposed 0, known 0, advanced 3, removed 0, refused 0"},
  {"op":"deliver_all","bytes":{"message":7},"expect":"proposed 0, known 0, advanced 0, removed 0, refused 3"},
  {"op":"propose_remove","member":1,"leaf":2},
  {"op":"deliver_all","bytes":{"message":8}},
  {"op":"commit","member":0,"items":[],"path":true,"seed":"0909090909090909090909090909090909090909090909090909090909090909"},
  {"op":"drop_pending","member":0},
  {"op":"commit","member":0,"items":[{"ref":{"message":8}}],"path":false,"seed":"0b0b0b0b0b0b0b0b0b0b0b0b0b0b0b0b0b0b0b0b0b0b0b0b0b0b0b0b0b0b0b0b"},
  {"op":"deliver_all","bytes":{"message":10}},
  {"op":"deliver_all","bytes":{"message":10}},
  {"op":"deliver_all","bytes":{"message":99}}
],"final":["#;

/// The replies.
const SAID: &str = r#"0: candidate 0, message 0
1: member 0
2: candidate 1, message 1
3: candidate 2, message 2
4: message 3, welcome 4
5: proposed 0, known 0, advanced 1, removed 0, refused 0
6: member 1 at epoch 1
7: member 2 at epoch 1
8: message 5
9: proposed 2, known 1, advanced 0, removed 0, refused 0
10: message 6
11: message 7
12: proposed 0, known 0, advanced 3, removed 0, refused 0
13: proposed 0, known 0, advanced 0, removed 0, refused 3
14: message 8
15: proposed 2, known 1, advanced 0, removed 0, refused 0
16: message 9
17: dropped
18: message 10
19: proposed 0, known 0, advanced 2, removed 1, refused 0
20: proposed 0, known 0, advanced 0, removed 0, refused 2
21: proposed 0, known 0, advanced 0, removed 0, refused 2
"#;

const FIRST: &str =
    "member 0: leaf 0, epoch 3, tree 807cd6012fc5d811527d590be8fa11d9a555169773c8b7076a30b49ed48d26e0, authenticator 2ce90c1788ed9b7294e8cc85af3b1a1aefadb9897e7637d6b34245c74e8ea62d";

const SECOND: &str =
    "member 1: leaf 1, epoch 3, tree 807cd6012fc5d811527d590be8fa11d9a555169773c8b7076a30b49ed48d26e0, authenticator 2ce90c1788ed9b7294e8cc85af3b1a1aefadb9897e7637d6b34245c74e8ea62d";

const THIRD: &str = "member 2: gone";

/// The lines of the members, which the same group ends with where each delivery is an event of its own.
const MEMBERS: &[&str] = &[FIRST, SECOND, THIRD];

/// The group with these texts as its lines in the end.
pub fn group_with(alloc: Global, texts: &str) -> Result<String, AllocError> {
    format!(in alloc; "{GROUP}{texts}]}}")
}

/// The lines of the members as they are printed.
fn printed(alloc: Global) -> Result<String, AllocError> {
    let mut text = String::new(alloc);
    for line in MEMBERS {
        text.push_str(line)?;
        text.push_str("\n")?;
    }
    Ok(text)
}

/// These texts as the lines that are expected.
fn quoted(alloc: Global, lines: &[&str]) -> Result<String, AllocError> {
    let mut texts = String::new(alloc);
    for line in lines {
        if !texts.is_empty() {
            texts.push_str(",")?;
        }
        texts.push_str("\"")?;
        texts.push_str(line)?;
        texts.push_str("\"")?;
    }
    Ok(texts)
}

/// What is printed of the group, and then of its lines.
fn group_text(alloc: Global, differences: &str) -> Result<String, AllocError> {
    let members = printed(alloc)?;
    format!(in alloc; "{SAID}{members}{differences}")
}

/// Whether the group with these lines leaves this status, and prints this behind its own lines.
fn is_delivered(
    alloc: Global,
    lines: &[&str],
    status: u8,
    differences: &str,
) -> Result<bool, AllocError> {
    let texts = quoted(alloc, lines)?;
    let file = group_with(alloc, texts.as_str())?;
    let text = group_text(alloc, differences)?;
    is_met(alloc, WORDS, file.as_bytes(), status, text.as_bytes())
}

/// The lines that are expected, the status, and what is printed of the differences.
type Expected<'a> = (&'a [&'a str], u8, &'a str);

/// The same group as by single deliveries, and where its lines aren't those that are expected.
const DELIVERED: &[Expected] = &[
    (MEMBERS, 0, ""),
    // A front of the lines.
    (&[FIRST, SECOND], 1, "final 2: expected nothing\n"),
    (
        &[],
        1,
        "final 0: expected nothing\nfinal 1: expected nothing\nfinal 2: expected nothing\n",
    ),
    // One more.
    (&[FIRST, SECOND, THIRD, ""], 1, "final 3: expected \n"),
    (
        &[FIRST, THIRD, THIRD, THIRD],
        1,
        "final 1: expected member 2: gone\nfinal 3: expected member 2: gone\n",
    ),
    // With a line feed it's another line.
    (
        &[FIRST, SECOND, "member 2: gone\\n"],
        1,
        "final 2: expected member 2: gone\n\n",
    ),
];

/// How many are so, from the first on.
fn count_deliveries(alloc: Global, cases: &[Expected<'_>]) -> Result<usize, AllocError> {
    for i in 0..cases.len() {
        let (lines, status, differences) = cases[i];
        if !is_delivered(alloc, lines, status, differences)? {
            return Ok(i);
        }
    }
    Ok(cases.len())
}

#[test]
fn delivers_to_all(rt: HostRuntime) -> Result<(), Fail> {
    assert_eq!(rt; count_deliveries(rt.alloc(), DELIVERED)?, DELIVERED.len());
    Ok(())
}

/// Worlds without members.
const NOBODY: &[FileCase] = &[
    (r#"{"version":2,"suite":"f001","events":[]}"#, 0, ""),
    (
        r#"{"version":2,"suite":"f001","events":[],"final":[]}"#,
        0,
        "",
    ),
    (
        r#"{"version":2,"suite":"f001","events":[],"final":["member 0: gone","nothing"]}"#,
        1,
        "final 0: expected member 0: gone\nfinal 1: expected nothing\n",
    ),
    (
        r#"{"version":2,"suite":"f001","events":[{"op":"deliver_all","bytes":{"message":0},"expect":"proposed 0, known 0, advanced 0, removed 0, refused 0"}]}"#,
        0,
        "0: proposed 0, known 0, advanced 0, removed 0, refused 0\n",
    ),
    (
        r#"{"version":2,"suite":"f001","events":[{"op":"deliver_all","bytes":"","expect":"refused 94 NoSuchMessage"}],"final":[]}"#,
        1,
        "0: proposed 0, known 0, advanced 0, removed 0, refused 0\n0: expected refused 94 NoSuchMessage\n",
    ),
];

#[test]
fn delivers_to_nobody(rt: HostRuntime) -> Result<(), Fail> {
    assert_eq!(rt; count_met_by(rt.alloc(), WORDS, NOBODY)?, NOBODY.len());
    Ok(())
}

const BAD_JSON: &str = "refused: 9 BadJson\n";

const REFUSED: &[FileCase] = &[
    (r#"{"version":0,"suite":"f001","events":[]}"#, 1, BAD_JSON),
    (r#"{"version":3,"suite":"f001","events":[]}"#, 1, BAD_JSON),
    (
        r#"{"version":1,"suite":"f001","events":[],"final":[]}"#,
        1,
        BAD_JSON,
    ),
    (
        r#"{"version":1,"suite":"f001","events":[{"op":"deliver_all","bytes":""}]}"#,
        1,
        BAD_JSON,
    ),
];

#[test]
fn refuses_other_versions(rt: HostRuntime) -> Result<(), Fail> {
    assert_eq!(rt; count_met_by(rt.alloc(), WORDS, REFUSED)?, REFUSED.len());
    Ok(())
}
