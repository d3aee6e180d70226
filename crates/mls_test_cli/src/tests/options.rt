//! Drawings, hints and GroupInfos of `mls check`, and `mls --explain`, by way of `serve`.

use crate::tests::cases::{Case, count_met};
use std::test::Fail;

/// Trees of one and two leaves, of five of which one is blank, and of seven. Their leaves are named in the pictures.
pub const ONE: &str =
    "2b010101010181000103616e6e02000102f0010000020001010000000000000000ffffffffffffffff0001dd";

pub const TWO: &str =
    "4057010101010181000103616e6e02000102f0010000020001010000000000000000ffffffffffffffff0001dd00010101020182000103626f6202000102f0010000020001010000000000000000ffffffffffffffff0001dd";

pub const FIVE: &str =
    "40be010101010181000103616e6e02000102f0010000020001010000000000000000ffffffffffffffff0001dd010201090000010101020182000103626f6202000102f0010000020001010000000000000000ffffffffffffffff0001dd000000010101030183000101ff02000102f0010000020001010000000000000000ffffffffffffffff0001dd010201080008000000030000000401010104018400010002000102f0010000020001010000000000000000ffffffffffffffff0001dd";

const SEVEN: &str =
    "414b010101010181000103616e6e02000102f0010000020001010000000000000000ffffffffffffffff0001dd010201090000010101020182000103626f6202000102f0010000020001010000000000000000ffffffffffffffff0001dd00010101030183000102637902000102f0010000020001010000000000000000ffffffffffffffff0001dd0001010104018400010364656502000102f0010000020001010000000000000000ffffffffffffffff0001dd0102010800040000000201010105018500010365766502000102f0010000020001010000000000000000ffffffffffffffff0001dd00000102010a00040000000701010106018600010366617902000102f0010000020001010000000000000000ffffffffffffffff0001dd0001010107018700010367757302000102f0010000020001010000000000000000ffffffffffffffff0001dd";

/// GroupInfos with the tree of one leaf, with none, and of another suite.
pub const WITH_TREE: &str =
    "000100040001f001016700000000000000000000002f00022c2b010101010181000103616e6e02000102f0010000020001010000000000000000ffffffffffffffff0001dd000000000000";

const WITHOUT_TREE: &str = "000100040001f0010167000000000000000000000000000000000000";

const OF_OTHER_SUITE: &str = "00010004000100020167000000000000000000000000000000000000";

/// A commit.
const COMMIT: &str = "000100010167000000000000000001000000000003000001ee01dd01cc";

/// The tree hash is Python's SHA-256 of `01 00000000 01` and the leaf.
const INFO_LINES: &str =
    "leaves: 1\nmembers: 1\ntree_hash: d99fe7caf5d39f6cfdd530c44ebb227a4c489e9d412b74c40246e8b3aec3edc5\nunmerged: ok\nparent_hashes: ok\nkeys: ok\nclients: ok\nrefused: 51 LeafSignature\n";

const PICTURE_OF_FIVE: &str = r#"    ┌─■ 0 "ann"
  ┌─●
  │ └─■ 1 "bob"
┌─○
│ │ ┌─□ 2
│ └─○
│   └─■ 3 ff
●* unmerged 3 4
│   ┌─■ 4 ""
│ ┌─○
│ │ └─□ 5
└─○
  │ ┌─□ 6
  └─○
    └─□ 7
"#;

const PICTURE_OF_SEVEN: &str = r#"    ┌─■ 0 "ann"
  ┌─●
  │ └─■ 1 "bob"
┌─○
│ │ ┌─■ 2 "cy"
│ └─○
│   └─■ 3 "dee"
●* unmerged 2
│   ┌─■ 4 "eve"
│ ┌─○
│ │ └─□ 5
└─● unmerged 7
  │ ┌─■ 6 "fay"
  └─○
    └─■ 7 "gus"
"#;

const NOT_HEX: &str = "refused: 8 NotHex\n";

const JSON: &str = "refused: 8 NotHex\nmls: the file is JSON: see `mls replay` and `mls vectors`\n";

const BINARY: &str = "refused: 8 NotHex\nmls: the file is binary: give --raw\n";

const NO_DRAWING: &str =
    "error: only one of --width and --svg can be used, and only with --draw\n\nUsage: mls check [OPTIONS] <FILE>\n\nFor more information, try '--help'.\n";

const NO_WIDTH: &str =
    "error: invalid value 'x' for '--width <WIDTH>': invalid digit found in string\n\nFor more information, try '--help'.\n";

const DRAW: &[&str] = &["mls", "check", "FILE", "--draw"];

const NARROW: &[&str] = &["mls", "check", "FILE", "--draw", "--width=10"];

const EMPTY: &[&str] = &["mls", "check", "--draw", "--width", "0", "FILE"];

const DRAWN_INFO: &[&str] = &["mls", "check", "FILE", "--draw", "--group-info"];

const DRAWN: &[Case] = &[
    (DRAW, ONE, 0, "■ 0 \"ann\"\n"),
    (DRAW, TWO, 0, "┌─■ 0 \"ann\"\n○\n└─■ 1 \"bob\"\n"),
    (NARROW, TWO, 0, "┌─■ 0 \"an…\n○\n└─■ 1 \"bo…\n"),
    (EMPTY, TWO, 0, "\n\n\n"),
    (DRAW, FIVE, 0, PICTURE_OF_FIVE),
    (DRAW, SEVEN, 0, PICTURE_OF_SEVEN),
    (DRAW, "00", 1, "refused: 20 TreeShape\n"),
    (DRAW, "zz", 1, "refused: 8 NotHex\n"),
    (DRAWN_INFO, WITH_TREE, 0, "■ 0 \"ann\"\n"),
    (DRAWN_INFO, WITHOUT_TREE, 1, "refused: 76 NoTree\n"),
    (DRAWN_INFO, ONE, 1, "refused: 7 BadTag\n"),
    // What isn't asked for of a drawing changes nothing.
    (
        &[
            "mls",
            "check",
            "--suite=0001",
            "--group=z",
            "--draw",
            "FILE",
        ],
        ONE,
        0,
        "■ 0 \"ann\"\n",
    ),
    (&["mls", "check", "FILE", "--width=3"], "", 2, NO_DRAWING),
    (&["mls", "check", "--svg", "FILE"], "", 2, NO_DRAWING),
    (
        &["mls", "check", "FILE", "--svg", "--draw", "--width=3"],
        "",
        2,
        NO_DRAWING,
    ),
    (&["mls", "check", "FILE", "--width=x"], "", 2, NO_WIDTH),
];

#[test]
fn draws_trees(rt: HostRuntime) -> Result<(), Fail> {
    assert_eq!(rt; count_met(rt.alloc(), DRAWN)?, DRAWN.len());
    Ok(())
}

const SHOW: &[&str] = &["mls", "show", "FILE"];

const CHECK: &[&str] = &["mls", "check", "FILE"];

const HINTS: &[Case] = &[
    (SHOW, "x0", 1, NOT_HEX),
    (SHOW, "", 1, "refused: 2 Truncated\n"),
    (SHOW, "[1]", 1, JSON),
    (SHOW, "{\"identity\": \"\u{e9}\"}", 1, JSON),
    (SHOW, " {}", 1, JSON),
    (SHOW, "\n\t\r [", 1, JSON),
    (SHOW, "{\u{0}", 1, BINARY),
    (SHOW, "\u{1}\u{0}", 1, BINARY),
    (SHOW, "0\u{7f}", 1, BINARY),
    (SHOW, "00\u{1f}", 1, BINARY),
    (SHOW, "~ \t\r\n", 1, NOT_HEX),
    (CHECK, "[", 1, JSON),
    (CHECK, "\u{e9}", 1, BINARY),
    (&["mls", "check", "FILE", "--draw"], "{}", 1, JSON),
    (
        &["mls", "check", "FILE", "--group-info"],
        "\u{1}",
        1,
        BINARY,
    ),
    (
        &["mls", "show", "FILE", "--raw"],
        "\u{1}",
        1,
        "refused: 2 Truncated\n",
    ),
];

#[test]
fn hints_at_options(rt: HostRuntime) -> Result<(), Fail> {
    assert_eq!(rt; count_met(rt.alloc(), HINTS)?, HINTS.len());
    Ok(())
}

const INFO: &[&str] = &["mls", "check", "FILE", "--group-info"];

const INFOS: &[Case] = &[
    (INFO, WITH_TREE, 1, INFO_LINES),
    (INFO, WITHOUT_TREE, 1, "refused: 76 NoTree\n"),
    (INFO, OF_OTHER_SUITE, 1, "refused: 71 WrongSuite\n"),
    (INFO, COMMIT, 1, "refused: 95 WrongMessageKind\n"),
    (INFO, ONE, 1, "refused: 7 BadTag\n"),
    // The message says which suite and group it is of.
    (
        &[
            "mls",
            "check",
            "--group-info",
            "--suite=0001",
            "--group=z",
            "FILE",
        ],
        WITH_TREE,
        1,
        INFO_LINES,
    ),
];

#[test]
fn checks_group_infos(rt: HostRuntime) -> Result<(), Fail> {
    assert_eq!(rt; count_met(rt.alloc(), INFOS)?, INFOS.len());
    Ok(())
}

const SPENT: &str =
    "refusal: 110 RatchetSpent\ntext: no generation is left\ncheck: the sender hasn't sent its generation 2^32 - 1 (RFC 9420, 9.1)\nadvice: commit, and seal in the next epoch\n";

const EARLY: &str =
    "refusal: 2 Truncated\ntext: the bytes end too early\ncheck: each number, header and vector is whole\nadvice: send the bytes again, whole; see that no line of a hex dump is missing\n";

const UNKNOWN: &str =
    "error: invalid value '120' for '--explain <REFUSAL>'\n\nUsage: mls <COMMAND>\n       mls --explain <REFUSAL>\n\nFor more information, try '--help'.\n";

const EXPLAINED: &[Case] = &[
    (&["mls", "--explain", "110"], "", 0, SPENT),
    (&["mls", "--explain", "RatchetSpent"], "", 0, SPENT),
    (&["mls", "--explain", "2"], "", 0, EARLY),
    (&["mls", "--explain", "Truncated"], "", 0, EARLY),
    (&["mls", "--explain", "120"], "", 2, UNKNOWN),
];

#[test]
fn explains_refusals(rt: HostRuntime) -> Result<(), Fail> {
    assert_eq!(rt; count_met(rt.alloc(), EXPLAINED)?, EXPLAINED.len());
    Ok(())
}
