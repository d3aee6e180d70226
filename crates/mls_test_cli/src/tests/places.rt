//! What `--where` has said of refusals, by way of `serve`. The offsets are counted by hand in the bytes.

use crate::tests::cases::{Case, count_met, is_met};
use crate::tests::options::{FIVE, ONE, WITH_TREE};
use crate::tests::{KEY_PACKAGE, TEXT, serve_file};
use std::alloc::{AllocError, Global};
use std::test::Fail;

/// A tree whose first node is a parent.
const PARENT_FIRST: &str = "06010201700000";

/// A GroupInfo with that tree.
const INFO_WITH_PARENT: &str =
    "000100040001f001016700000000000000000000000a00020706010201700000000000000000";

/// Two members under a root that lists leaf 5.
const WRONG_LIST: &str =
    "3c0101010101810001016102000102f0010000020001020001dd010201090004000000050101010201820001016202000102f0010000020001020001dd";

const MISPLACED: &str = "refused: 20 TreeShape\nnode: 0\n";

/// The KeyPackage with a byte behind it.
const LONGER: &str =
    "000100050001f00101aa01bb01cc000103626f6202000102f0010000020001010000000000000000ffffffffffffffff0001dd0001ee00";

const SHOW: &[&str] = &["mls", "show", "FILE", "--where"];

const CHECK: &[&str] = &["mls", "check", "--where", "FILE"];

const INFO: &[&str] = &["mls", "check", "--where", "FILE", "--group-info"];

const FIELDS: &[Case] = &[
    (
        SHOW,
        "",
        1,
        "refused: 2 Truncated\noffset: 0\nfield: version\n",
    ),
    (
        SHOW,
        "00010003f001",
        1,
        "refused: 2 Truncated\noffset: 6\nfield: welcome.secrets\n",
    ),
    (
        SHOW,
        "00010002",
        1,
        "refused: 7 BadTag\noffset: 2\nfield: wire_format\n",
    ),
    (
        SHOW,
        "000100050001f00101aa01bb01cc000203626f6202000102f0010000020001010000000000000000ffffffffffffffff0001dd0001ee",
        1,
        "refused: 11 UnsupportedCredential\noffset: 14\nfield: key_package.leaf_node.credential.credential_type\n",
    ),
    (
        SHOW,
        LONGER,
        1,
        "refused: 3 Trailing\noffset: 54\nfield: MLSMessage\n",
    ),
    (
        &["mls", "show", "FILE", "--where", "--json"],
        "00 1",
        1,
        "{\"refused\":{\"number\":8,\"name\":\"NotHex\"}}\n",
    ),
    (
        &["mls", "show", "FILE", "--where", "--json"],
        " 0001\n",
        1,
        "{\"refused\":{\"number\":2,\"name\":\"Truncated\"}}\noffset: 2\nfield: wire_format\n",
    ),
    (
        &["mls", "show", "FILE", "--where", "--raw"],
        "\u{0}",
        1,
        "refused: 2 Truncated\noffset: 0\nfield: version\n",
    ),
    (
        CHECK,
        "02",
        1,
        "refused: 2 Truncated\noffset: 0\nfield: ratchet_tree\n",
    ),
    (
        &["mls", "check", "--where", "FILE", "--draw"],
        "02",
        1,
        "refused: 2 Truncated\noffset: 0\nfield: ratchet_tree\n",
    ),
    (
        INFO,
        ONE,
        1,
        "refused: 7 BadTag\noffset: 0\nfield: version\n",
    ),
];

#[test]
fn finds_fields(rt: HostRuntime) -> Result<(), Fail> {
    assert_eq!(rt; count_met(rt.alloc(), FIELDS)?, FIELDS.len());
    Ok(())
}

const SUITE: &[&str] = &["mls", "check", "--where", "FILE", "--suite=0001"];

/// What the lines of a tree end with, behind those of the checks that it passes.
const NODES: &[(&[&str], &str, &str)] = &[
    (CHECK, WRONG_LIST, "\nrefused: 23 UnmergedWrong\nnode: 1\n"),
    (CHECK, FIVE, "\nrefused: 24 ParentHashWrong\nnode: 1\n"),
    (CHECK, ONE, "\nrefused: 51 LeafSignature\nleaf: 0\n"),
    (SUITE, ONE, "\nrefused: 52 LeafCapability\nleaf: 0\n"),
    (INFO, WITH_TREE, "\nrefused: 51 LeafSignature\nleaf: 0\n"),
    (CHECK, PARENT_FIRST, MISPLACED),
    (INFO, INFO_WITH_PARENT, MISPLACED),
    (
        &["mls", "check", "--where", "FILE", "--draw"],
        PARENT_FIRST,
        MISPLACED,
    ),
    (
        &["mls", "check", "--where", "FILE", "--draw", "--group-info"],
        INFO_WITH_PARENT,
        MISPLACED,
    ),
    // No node is at a wrong place where there is none.
    (CHECK, "00", "refused: 20 TreeShape\n"),
];

/// Whether a file is refused, and what is printed ends so.
fn is_ended(alloc: Global, words: &[&str], file: &str, text: &str) -> Result<bool, AllocError> {
    let (status, out) = serve_file(alloc, words, file.as_bytes())?;
    Ok(status == 1 && out.as_slice().ends_with(text.as_bytes()))
}

/// How many are so, from the first on.
fn count_endings(alloc: Global, cases: &[(&[&str], &str, &str)]) -> Result<usize, AllocError> {
    for i in 0..cases.len() {
        let (words, file, text) = cases[i];
        if !is_ended(alloc, words, file, text)? {
            return Ok(i);
        }
    }
    Ok(cases.len())
}

#[test]
fn finds_nodes_and_leaves(rt: HostRuntime) -> Result<(), Fail> {
    assert_eq!(rt; count_endings(rt.alloc(), NODES)?, NODES.len());
    Ok(())
}

const REPLAY: &[&str] = &["mls", "replay", "--where", "FILE"];

const QUIET: &[&str] = &["mls", "replay", "--where", "FILE", "--quiet"];

const DRAWN: &[&str] = &["mls", "replay", "--where", "FILE", "--draw=0"];

const VECTORS: &[&str] = &["mls", "vectors", "FILE", "--where"];

/// Words, a FILE that is no recording or no vectors, and what is said of its place.
const KEYS: &[(&[&str], &str, &str)] = &[
    (REPLAY, "{}", "key: version\n"),
    (
        QUIET,
        r#"{"version":1,"suite":"0001","events":[]}"#,
        "key: suite\n",
    ),
    (
        DRAWN,
        r#"{"version":1,"suite":"f001","events":[{"op":"drop_pending","member":0},{"op":"deliver","member":"0","bytes":""}]}"#,
        "event: 1\nkey: member\n",
    ),
    (
        &["mls", "replay", "--where", "FILE", "--suite=0001"],
        r#"{"version":1,"suite":"0001","events":[{"op":"x"}]}"#,
        "event: 0\nkey: op\n",
    ),
    (
        REPLAY,
        r#"{"version":1,"suite":"f001","events":[{"op":"drop_pending","member":0,"x":0}]}"#,
        "event: 0\nkeys: too many\n",
    ),
    (VECTORS, "{}", "file: no array\n"),
    (VECTORS, r#"[{"kind":"x"}]"#, "vector: 0\nkey: kind\n"),
    (VECTORS, "[\n 1", "line: 2\ncolumn: 2\n"),
];

/// Whether a file is refused, and its place is said so.
fn is_found(alloc: Global, words: &[&str], file: &str, text: &str) -> Result<bool, AllocError> {
    let whole = format!(in alloc; "refused: 9 BadJson\n{text}")?;
    is_met(alloc, words, file.as_bytes(), 1, whole.as_bytes())
}

/// How many are so, from the first on.
fn count_found(alloc: Global, cases: &[(&[&str], &str, &str)]) -> Result<usize, AllocError> {
    for i in 0..cases.len() {
        let (words, file, text) = cases[i];
        if !is_found(alloc, words, file, text)? {
            return Ok(i);
        }
    }
    Ok(cases.len())
}

#[test]
fn finds_keys(rt: HostRuntime) -> Result<(), Fail> {
    assert_eq!(rt; count_found(rt.alloc(), KEYS)?, KEYS.len());
    Ok(())
}

/// Of good content, and of refusals that have no place, nothing is said, or the hint alone.
const REST: &[Case] = &[
    (SHOW, KEY_PACKAGE, 0, TEXT),
    (SHOW, "zz", 1, "refused: 8 NotHex\n"),
    (
        SHOW,
        "{}",
        1,
        "refused: 8 NotHex\nmls: the file is JSON: see `mls replay` and `mls vectors`\n",
    ),
    (
        &["mls", "check", "FILE", "--where", "--group=z"],
        "02",
        1,
        "refused: 8 NotHex\n",
    ),
    (
        &["mls", "check", "FILE", "--where", "--group-info"],
        "00010003f0010000",
        1,
        "refused: 95 WrongMessageKind\n",
    ),
    (
        &["mls", "replay", "FILE", "--where", "--message=0"],
        r#"{"version":1,"suite":"f001","events":[]}"#,
        1,
        "refused: 94 NoSuchMessage\n",
    ),
    (
        &["mls", "vectors", "FILE", "--where"],
        r#"[{"kind":"header","length":1,"bytes":null}]"#,
        1,
        "0: fail\npassed 0 of 1\n",
    ),
    (
        &["mls", "vectors", "FILE", "--where"],
        "[]",
        0,
        "passed 0 of 0\n",
    ),
];

#[test]
fn says_nothing_of_the_rest(rt: HostRuntime) -> Result<(), Fail> {
    assert_eq!(rt; count_met(rt.alloc(), REST)?, REST.len());
    Ok(())
}
