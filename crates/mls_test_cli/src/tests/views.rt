//! What `mls replay` prints in place of the replies, by way of `serve`.

use crate::tests::cases::{Case, count_met, is_met};
use crate::tests::rows::{EXPECTED, JOIN};
use crate::tests::serve_file;
use crate::tests::version_2::group_with;
use std::alloc::{AllocError, Global};
use std::test::Fail;

/// A recording of a candidate, with a wrong expectation, and as it is recorded again.
const CANDIDATE: &str =
    r#"{"version":1,"suite":"f001","events":[{"op":"candidate","identity":"61","seed":"0101010101010101010101010101010101010101010101010101010101010101","expect":"member 0"}]}"#;

const CANDIDATE_AGAIN: &str = r#"{
  "events": [
    {
      "expect": "candidate 0, message 0",
      "identity": "61",
      "op": "candidate",
      "seed": "0101010101010101010101010101010101010101010101010101010101010101"
    }
  ],
  "suite": "f001",
  "version": 1
}
"#;

/// A recording of nothing, with a line of a member that is expected, and as it is recorded again.
const NOTHING: &str = r#"{"version":2,"suite":"f001","events":[],"final":["x"]}"#;

const NOTHING_AGAIN: &str = r#"{
  "events": [],
  "final": [],
  "suite": "f001",
  "version": 2
}
"#;

/// The last lines of both groups of two.
const MEMBERS: &str =
    "member 0: leaf 0, epoch 1, tree 61ea664910583243a5288f14c2904b34dda7af35a8ec6b75a91aa9a08f92dba2, authenticator 5308bd0fefd21cb8843e9a0f2204981c0d864162c4c9d2f48279a42f5b155ec5\nmember 1: leaf 1, epoch 1, tree 61ea664910583243a5288f14c2904b34dda7af35a8ec6b75a91aa9a08f92dba2, authenticator 5308bd0fefd21cb8843e9a0f2204981c0d864162c4c9d2f48279a42f5b155ec5\n";

const BAD_JSON: &str = "refused: 9 BadJson\n";

const TWO_VIEWS: &str =
    "error: only one of --message, --tree, --draw, --quiet and --record can be used\n\nUsage: mls replay [OPTIONS] <FILE>\n\nFor more information, try '--help'.\n";

const NO_DRAWING: &str =
    "error: only one of --width and --svg can be used, and only with --draw\n\nUsage: mls replay [OPTIONS] <FILE>\n\nFor more information, try '--help'.\n";

const NO_MEMBER: &str =
    "error: invalid value 'x' for '--tree <K>': invalid digit found in string\n\nFor more information, try '--help'.\n";

/// The same behind an event that isn't as expected.
const UNMET: &str =
    "4: advanced to 1\n4: expected nothing pending\nmember 0: leaf 0, epoch 1, tree 61ea664910583243a5288f14c2904b34dda7af35a8ec6b75a91aa9a08f92dba2, authenticator 5308bd0fefd21cb8843e9a0f2204981c0d864162c4c9d2f48279a42f5b155ec5\nmember 1: leaf 1, epoch 1, tree 61ea664910583243a5288f14c2904b34dda7af35a8ec6b75a91aa9a08f92dba2, authenticator 5308bd0fefd21cb8843e9a0f2204981c0d864162c4c9d2f48279a42f5b155ec5\n";

const QUIET: &[&str] = &["mls", "replay", "FILE", "--quiet"];

const RECORD: &[&str] = &["mls", "replay", "FILE", "--record"];

const VIEWED: &[Case] = &[
    (
        QUIET,
        CANDIDATE,
        1,
        "0: candidate 0, message 0\n0: expected member 0\n",
    ),
    (QUIET, CANDIDATE_AGAIN, 0, ""),
    (QUIET, JOIN, 0, MEMBERS),
    (QUIET, EXPECTED, 1, UNMET),
    (QUIET, NOTHING, 1, "final 0: expected x\n"),
    (QUIET, "zz", 1, BAD_JSON),
    (RECORD, CANDIDATE, 0, CANDIDATE_AGAIN),
    (RECORD, CANDIDATE_AGAIN, 0, CANDIDATE_AGAIN),
    (RECORD, NOTHING, 0, NOTHING_AGAIN),
    (RECORD, "[]", 1, BAD_JSON),
    (
        &["mls", "replay", "FILE", "--message=1"],
        CANDIDATE,
        1,
        "refused: 94 NoSuchMessage\n",
    ),
    (
        &["mls", "replay", "FILE", "--message=0"],
        NOTHING,
        1,
        "refused: 94 NoSuchMessage\n",
    ),
    (
        &["mls", "replay", "FILE", "--tree=0"],
        CANDIDATE,
        1,
        "refused: 90 NoSuchMember\n",
    ),
    (
        &["mls", "replay", "FILE", "--tree", "2"],
        JOIN,
        1,
        "refused: 90 NoSuchMember\n",
    ),
    (&["mls", "replay", "FILE", "--tree=0"], "", 1, BAD_JSON),
    (&["mls", "replay", "FILE", "--tree=x"], "", 2, NO_MEMBER),
    (
        &["mls", "replay", "--quiet", "FILE", "--record"],
        "",
        2,
        TWO_VIEWS,
    ),
    (
        &["mls", "replay", "--tree=0", "FILE", "--message=0"],
        "",
        2,
        TWO_VIEWS,
    ),
];

#[test]
fn views_recordings(rt: HostRuntime) -> Result<(), Fail> {
    assert_eq!(rt; count_met(rt.alloc(), VIEWED)?, VIEWED.len());
    Ok(())
}

const TREE_LINES: &str =
    "leaves: 2\nmembers: 2\ntree_hash: 61ea664910583243a5288f14c2904b34dda7af35a8ec6b75a91aa9a08f92dba2\nunmerged: ok\nparent_hashes: ok\nkeys: ok\nclients: ok\nsignatures: ok\ncapabilities: ok\nkey_forms: ok\n";

/// Whether a tree passes all checks, has the hash that the members' lines have, and is drawn as theirs.
fn is_of_both(alloc: Global, tree: &[u8]) -> Result<bool, AllocError> {
    let check: &[&str] = &["mls", "check", "FILE", "--group=67"];
    let draw: &[&str] = &["mls", "check", "FILE", "--draw"];
    let drawn = "┌─■*0 \"a\"\n●*\n└─■ 1 \"b\"\n";
    Ok(
        is_met(alloc, check, tree, 0, TREE_LINES.as_bytes())?
            && is_met(alloc, draw, tree, 0, drawn.as_bytes())?,
    )
}

/// Whether what is printed of this member of the group is such a tree.
fn prints_tree(alloc: Global, member: &str) -> Result<bool, AllocError> {
    let words: &[&str] = &["mls", "replay", "FILE", "--tree", member];
    let (status, tree) = serve_file(alloc, words, JOIN.as_bytes())?;
    Ok(status == 0 && is_of_both(alloc, tree.as_slice())?)
}

#[test]
fn prints_trees_of_members(rt: HostRuntime) -> Result<(), Fail> {
    assert!(rt; prints_tree(rt.alloc(), "0")?);
    assert!(rt; prints_tree(rt.alloc(), "1")?);
    Ok(())
}

/// Whether no tree of a member who is gone is printed.
fn is_gone(alloc: Global, option: &str) -> Result<bool, AllocError> {
    let gone = group_with(alloc, "")?;
    let words: &[&str] = &["mls", "replay", "FILE", option];
    is_met(alloc, words, gone.as_bytes(), 1, b"refused: 40 Gone\n")
}

#[test]
fn prints_no_trees_of_members_who_are_gone(rt: HostRuntime) -> Result<(), Fail> {
    assert!(rt; is_gone(rt.alloc(), "--tree=2")?);
    assert!(rt; is_gone(rt.alloc(), "--draw=2")?);
    Ok(())
}

const DRAW: &[&str] = &["mls", "replay", "FILE", "--draw", "1"];

const DRAWN: &[Case] = &[
    (DRAW, JOIN, 0, "┌─■*0 \"a\"\n●*\n└─■ 1 \"b\"\n"),
    // What is expected doesn't count.
    (DRAW, EXPECTED, 0, "┌─■*0 \"a\"\n●*\n└─■ 1 \"b\"\n"),
    (
        &["mls", "replay", "--width=4", "FILE", "--draw=0"],
        JOIN,
        0,
        "┌─■…\n●*\n└─■…\n",
    ),
    (DRAW, NOTHING, 1, "refused: 90 NoSuchMember\n"),
    (DRAW, "{}", 1, BAD_JSON),
    (
        &["mls", "replay", "FILE", "--suite=0001", "--draw=0"],
        JOIN,
        1,
        BAD_JSON,
    ),
    (
        &["mls", "replay", "--draw=0", "FILE", "--tree=0"],
        "",
        2,
        TWO_VIEWS,
    ),
    // It is said how a tree is drawn, but not whose.
    (&["mls", "replay", "FILE", "--width=4"], "", 2, NO_DRAWING),
    (&["mls", "replay", "FILE", "--svg"], "", 2, NO_DRAWING),
    (
        &["mls", "replay", "FILE", "--svg", "--draw=0", "--width=4"],
        "",
        2,
        NO_DRAWING,
    ),
    (
        &["mls", "replay", "FILE", "--svg", "--draw=0", "--quiet"],
        "",
        2,
        TWO_VIEWS,
    ),
];

#[test]
fn draws_trees_of_members(rt: HostRuntime) -> Result<(), Fail> {
    assert_eq!(rt; count_met(rt.alloc(), DRAWN)?, DRAWN.len());
    Ok(())
}

/// Whether a recording with what it came to is as expected.
fn is_recorded(alloc: Global, file: &str) -> Result<bool, AllocError> {
    let (status, recorded) = serve_file(alloc, RECORD, file.as_bytes())?;
    Ok(status == 0 && is_met(alloc, QUIET, recorded.as_slice(), 0, MEMBERS.as_bytes())?)
}

#[test]
fn records_what_is_expected(rt: HostRuntime) -> Result<(), Fail> {
    assert!(rt; is_recorded(rt.alloc(), JOIN)?);
    assert!(rt; is_recorded(rt.alloc(), EXPECTED)?);
    Ok(())
}
