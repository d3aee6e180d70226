//! What `mls replay` prints of recordings with extensions of groups, by way of `serve`.

use crate::tests::serve_file;
use std::alloc::{AllocError, Global};
use std::test::Fail;

const WORDS: &[&str] = &["mls", "replay", "FILE"];

/// A sole member, and a candidate.
const TWO: &str = r#"
  {"op":"candidate","identity":"61","seed":"0101010101010101010101010101010101010101010101010101010101010101"},
  {"op":"create","candidate":0,"group":"67","seed":"0202020202020202020202020202020202020202020202020202020202020202"},
  {"op":"candidate","identity":"62","seed":"0303030303030303030303030303030303030303030303030303030303030303"}"#;

const BEGUN: &str = "0: candidate 0, message 0\n1: member 0\n2: candidate 1, message 1\n";

/// The member commits a list of extensions and then an add, and the candidate joins.
const JOINED: &str = r#"
  {"op":"commit","member":0,"items":[{"extensions":[{"type":61441,"data":"6869"}]},{"add":{"message":1}}],"path":true,"seed":"0404040404040404040404040404040404040404040404040404040404040404"},
  {"op":"deliver","member":0,"bytes":{"message":2}},
  {"op":"join","candidate":1,"bytes":{"message":3}}"#;

fn recording_of(alloc: Global, events: &str) -> Result<String, AllocError> {
    format!(in alloc; "{{\"version\":1,\"suite\":\"f001\",\"events\":[{TWO},{events}]}}")
}

/// How many bytes a message of a recording has.
fn size_of(alloc: Global, file: &str, number: &str) -> Result<usize, AllocError> {
    let words = ["mls", "replay", "--message", number, "FILE"];
    let (_, out) = serve_file(alloc, words.as_slice(), file.as_bytes())?;
    Ok(out.len() / 2)
}

/// The lines of two members that differ in their numbers and leaves alone, the beginning of the first left out.
fn both_lines(alloc: Global, state: &[u8]) -> Result<Vec<u8>, AllocError> {
    let mut lines = state.to_vec(alloc)?;
    lines.extend_from_slice(b"\nmember 1: leaf 1".as_slice())?;
    lines.extend_from_slice(state)?;
    lines.extend_from_slice(b"\n".as_slice())?;
    Ok(lines)
}

/// What is printed before the state of the first member.
fn said_of_join(alloc: Global) -> Result<String, AllocError> {
    format!(in alloc;
        "{BEGUN}3: message 2, welcome 3\n4: advanced to 1\n5: member 1 at epoch 1\nmember 0: leaf 0"
    )
}

/// Whether these are the lines of two members in one state, the beginning of the first left out.
fn are_both_lines(alloc: Global, lines: &[u8]) -> Result<bool, AllocError> {
    let state = &lines[..lines.len().saturating_sub(18) / 2];
    Ok(
        state.starts_with(b", epoch 1, tree ".as_slice())
            && lines == both_lines(alloc, state)?.as_slice(),
    )
}

/// Whether that is printed behind what is said of the join.
fn joins_both(alloc: Global, file: &str) -> Result<bool, AllocError> {
    let (status, out) = serve_file(alloc, WORDS, file.as_bytes())?;
    match out.as_slice().strip_prefix(said_of_join(alloc)?.as_bytes()) {
        Some(lines) => Ok(status == 0 && are_both_lines(alloc, lines)?),
        None => Ok(false),
    }
}

/// Whether both members have joined, and the commit and its Welcome have these sizes.
fn joins(alloc: Global) -> Result<bool, AllocError> {
    let file = recording_of(alloc, JOINED)?;
    Ok(
        joins_both(alloc, file.as_str())?
            && size_of(alloc, file.as_str(), "2")? == 522
            && size_of(alloc, file.as_str(), "3")? == 696,
    )
}

/// A joiner has the context with the list, and so has the committer.
#[test]
fn joins_with_extensions(rt: HostRuntime) -> Result<(), Fail> {
    assert!(rt; joins(rt.alloc())?);
    Ok(())
}

/// A proposal, which the member says and then hears.
const PROPOSED: &str =
    r#"{"op":"propose_extensions","member":0,"extensions":[{"type":61441,"data":"6869"}]},{"op":"propose_extensions","member":0,"extensions":[{"type":61441,"data":"6869"}]},{"op":"deliver","member":0,"bytes":{"message":3}}"#;

/// Events behind those, with the beginning of what is said of them.
const SAID: &[(&str, &str)] = &[
    (PROPOSED, "3: message 2\n4: message 3\n5: known\n"),
    (
        r#"{"op":"propose_extensions","member":0,"extensions":[{"type":61439,"data":""}]}"#,
        "3: refused 14 ExtensionNotAllowed\n",
    ),
    (
        r#"{"op":"propose_extensions","member":0,"extensions":[{"type":65535,"data":""},{"type":61440,"data":""},{"type":65535,"data":""}]}"#,
        "3: refused 14 ExtensionNotAllowed\n",
    ),
    (
        r#"{"op":"propose_extensions","member":1,"extensions":[{"type":0,"data":""}]}"#,
        "3: refused 90 NoSuchMember\n",
    ),
    (
        r#"{"op":"propose_extensions","member":0,"extensions":[]},{"op":"commit","member":0,"items":[{"ref":{"message":2}}],"path":false,"seed":"0404040404040404040404040404040404040404040404040404040404040404"}"#,
        "3: message 2\n4: message 3\n",
    ),
    (
        r#"{"op":"commit","member":0,"items":[{"add":{"message":9}},{"extensions":[{"type":3,"data":""}]}],"path":true,"seed":"0404040404040404040404040404040404040404040404040404040404040404"}"#,
        "3: refused 94 NoSuchMessage\n",
    ),
    (
        r#"{"op":"commit","member":0,"items":[{"extensions":[{"type":3,"data":""}]},{"add":{"message":9}}],"path":true,"seed":"0404040404040404040404040404040404040404040404040404040404040404"}"#,
        "3: refused 14 ExtensionNotAllowed\n",
    ),
    (
        r#"{"op":"propose_extensions","member":0,"extensions":[{"type":61441,"data":"6869"}]},{"op":"commit","member":0,"items":[{"ref":{"message":2}},{"extensions":[]}],"path":true,"seed":"0404040404040404040404040404040404040404040404040404040404040404"}"#,
        "3: message 2\n4: refused 68 SecondExtensions\n",
    ),
    (
        r#"{"op":"commit","member":0,"items":[{"extensions":[]},{"extensions":[]}],"path":true,"seed":"0404040404040404040404040404040404040404040404040404040404040404"}"#,
        "3: refused 68 SecondExtensions\n",
    ),
];

/// Whether that is said of these events, and then of the member.
fn says(alloc: Global, events: &str, said: &str) -> Result<bool, AllocError> {
    let file = recording_of(alloc, events)?;
    let expected = format!(in alloc; "{BEGUN}{said}member 0: leaf 0, epoch 0, ")?;
    let (status, out) = serve_file(alloc, WORDS, file.as_bytes())?;
    Ok(status == 0 && out.as_slice().starts_with(expected.as_bytes()))
}

/// Of how many events it is said, from the first on.
fn count_said(alloc: Global, cases: &[(&str, &str)]) -> Result<usize, AllocError> {
    for i in 0..cases.len() {
        let (events, said) = cases[i];
        if !says(alloc, events, said)? {
            return Ok(i);
        }
    }
    Ok(cases.len())
}

#[test]
fn says_what_becomes_of_extensions(rt: HostRuntime) -> Result<(), Fail> {
    assert_eq!(rt; count_said(rt.alloc(), SAID)?, SAID.len());
    Ok(())
}

/// How many bytes that proposal has.
fn size_of_proposal(alloc: Global) -> Result<usize, AllocError> {
    let alone = recording_of(alloc, PROPOSED)?;
    size_of(alloc, alone.as_str(), "2")
}

#[test]
fn proposes_in_few_bytes(rt: HostRuntime) -> Result<(), Fail> {
    assert_eq!(rt; size_of_proposal(rt.alloc())?, 95);
    Ok(())
}
