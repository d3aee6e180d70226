//! What `mls check` prints, by way of `serve`.

use crate::tests::cases::{Case, count_met};
use std::test::Fail;

/// `examples/tree.hex`. The tree hash is Python's SHA-256 of `01 00000000 01` and the leaf.
const TREE: &str =
    "2b010101bb01cc000103626f6202000102f0010000020001010000000000000000ffffffffffffffff0001dd";

const MISSING: &str =
    "error: the following required arguments were not provided:\n  <FILE>\n\nUsage: mls check <FILE>\n\nFor more information, try '--help'.\n";

const OTHER: &str =
    "error: invalid value 'f002' for '--suite <SUITE>'\n  [possible values: f001, 0001]\n\nUsage: mls check [OPTIONS] <FILE>\n\nFor more information, try '--help'.\n";

pub const LINES: &str =
    "leaves: 1\nmembers: 1\ntree_hash: 754879a771f78780e3bedb21d618103a3fa605220876b0115cf607c73d05b74c\nunmerged: ok\nparent_hashes: ok\nkeys: ok\nclients: ok\nrefused: 51 LeafSignature\n";

const LINES_OF_SUITE_1: &str =
    "leaves: 1\nmembers: 1\ntree_hash: 754879a771f78780e3bedb21d618103a3fa605220876b0115cf607c73d05b74c\nunmerged: ok\nparent_hashes: ok\nkeys: ok\nclients: ok\nsignatures: not checked\nrefused: 52 LeafCapability\n";

const CHECKS: &[Case] = &[
    (&["mls", "check", "FILE"], TREE, 1, LINES),
    (
        &["mls", "check", "FILE", "--suite", "0001", "--group", "67"],
        TREE,
        1,
        LINES_OF_SUITE_1,
    ),
    (
        &["mls", "check", "FILE"],
        "00",
        1,
        "refused: 20 TreeShape\n",
    ),
    (
        &["mls", "check", "FILE"],
        "0100",
        1,
        "refused: 20 TreeShape\n",
    ),
    (&["mls", "check", "FILE"], "0", 1, "refused: 8 NotHex\n"),
    (&["mls", "check", "FILE"], "zz", 1, "refused: 8 NotHex\n"),
    (
        &["mls", "check", "FILE", "--group", "zz"],
        "02",
        1,
        "refused: 8 NotHex\n",
    ),
    (&["mls", "check", "FILE"], "02", 1, "refused: 2 Truncated\n"),
    (
        &["mls", "check", "FILE", "--group", "6"],
        "02",
        1,
        "refused: 8 NotHex\n",
    ),
    (&["mls", "check"], "", 2, MISSING),
    (&["mls", "check", "FILE", "--suite=f002"], "", 2, OTHER),
];

#[test]
fn checks_and_refuses(rt: HostRuntime) -> Result<(), Fail> {
    assert_eq!(rt; count_met(rt.alloc(), CHECKS)?, CHECKS.len());
    Ok(())
}
