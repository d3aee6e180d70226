//! What `mls show --full` prints, and what `--raw` reads, by way of `serve`.

use crate::tests::KEY_PACKAGE;
use crate::tests::cases::{Case, count_met, is_met};
use crate::tests::check::LINES;
use std::alloc::{AllocError, Global};
use std::test::Fail;

/// A commit of a remove, a reference and a list of extensions, with a path of two nodes.
const COMMIT: &str =
    "00010001016700000000000000000100000000000314010003000000020202abcd01000705f0010268690101aa01cc000103626f6202000102f00100000200010302abcd0001dd0e01bb0801ee01ff01e001f001ba0001aa01cc01bb";

const COMMIT_LINES: &str = "message: public_message
bytes: 92
group_id: 67
epoch: 0
sender: 0
authenticated_data: -
content: commit
proposals: 3
path_nodes: 2
signature: aa
confirmation_tag: cc
membership_tag: bb
";

const FULL_COMMIT_LINES: &str = "message: public_message
bytes: 92
group_id: 67
epoch: 0
sender: 0
authenticated_data: -
content: commit
proposals: 3
proposal.0.kind: remove
proposal.0.removed: 2
proposal.1.kind: reference
proposal.1.reference: abcd
proposal.2.kind: group_context_extensions
proposal.2.extension: f001 6869
path_nodes: 2
path.leaf.encryption_key: aa
path.leaf.signature_key: cc
path.leaf.identity: 626f62
path.leaf.versions: 0001
path.leaf.cipher_suites: f001
path.leaf.extensions: -
path.leaf.proposals: -
path.leaf.credentials: 0001
path.leaf.source: commit
path.leaf.parent_hash: abcd
path.leaf.signature: dd
path.0.encryption_key: bb
path.0.ciphertexts: 2
path.1.encryption_key: ba
path.1.ciphertexts: 0
signature: aa
confirmation_tag: cc
membership_tag: bb
";

/// A GroupInfo with an extension, whose tree has a leaf, a parent and a blank place.
const GROUP_INFO: &str =
    "000100040001f0010167000000000000000001110005f0010268692f00022c2b010101aa01cc000103626f6202000102f00100000200010302abcd0001dd010201b002abcd04000000010001cc0000000301dd";

const FULL_GROUP_INFO_LINES: &str = "message: group_info
bytes: 83
cipher_suite: f001
group_id: 67
epoch: 0
tree_hash: 11
confirmed_transcript_hash: -
extension: f001 6869
tree_nodes: 3
node.0.kind: leaf
node.0.leaf.encryption_key: aa
node.0.leaf.signature_key: cc
node.0.leaf.identity: 626f62
node.0.leaf.versions: 0001
node.0.leaf.cipher_suites: f001
node.0.leaf.extensions: -
node.0.leaf.proposals: -
node.0.leaf.credentials: 0001
node.0.leaf.source: commit
node.0.leaf.parent_hash: abcd
node.0.leaf.signature: dd
node.1.kind: parent
node.1.encryption_key: b0
node.1.parent_hash: abcd
node.1.unmerged_leaves: 1
node.2.kind: blank
confirmation_tag: cc
signer: 3
signature: dd
";

const WELCOME: &str = "00010003f0010702abcd01ee01ff03010203";

const FULL_WELCOME_LINES: &str = "message: welcome
bytes: 18
cipher_suite: f001
new_members: 1
new_member: abcd
new_member.0.kem_output: ee
new_member.0.ciphertext: ff
group_info_bytes: 3
";

/// The removal of leaf 5, as `examples/public_message.hex` has it.
const PROPOSAL: &str = "00010001016700000000000000000100000002000200030000000501aa01bb";

/// The reference is made by Python's hashlib, and so is that of the KeyPackage.
const FULL_PROPOSAL_LINES: &str = "message: public_message
bytes: 31
group_id: 67
epoch: 0
sender: 2
authenticated_data: -
content: proposal
proposal: remove
removed: 5
signature: aa
membership_tag: bb
reference: 0ac5a8252add8d939c5b9a100f61a508e44b4f2291b3b7027d0964aeb6dc0223
";

const FULL_KEY_PACKAGE_LINES: &str = "message: key_package
bytes: 54
cipher_suite: f001
init_key: aa
leaf.encryption_key: bb
leaf.signature_key: cc
leaf.identity: 626f62
leaf.versions: 0001
leaf.cipher_suites: f001
leaf.extensions: -
leaf.proposals: -
leaf.credentials: 0001
leaf.source: key_package
leaf.not_before: 0
leaf.not_after: 18446744073709551615
leaf.signature: dd
signature: ee
reference: 02d8c9ad0ef00d3153d9cc6492f815b88f0e4f81e3198e89c309f42b8a67b132
";

const FULL: &[&str] = &["mls", "show", "FILE", "--full"];

const FULL_CASES: &[Case] = &[
    (&["mls", "show", "FILE"], COMMIT, 0, COMMIT_LINES),
    (FULL, COMMIT, 0, FULL_COMMIT_LINES),
    (FULL, GROUP_INFO, 0, FULL_GROUP_INFO_LINES),
    (FULL, WELCOME, 0, FULL_WELCOME_LINES),
    (FULL, PROPOSAL, 0, FULL_PROPOSAL_LINES),
    (FULL, KEY_PACKAGE, 0, FULL_KEY_PACKAGE_LINES),
    (FULL, "00010003f001", 1, "refused: 2 Truncated\n"),
    (FULL, "0", 1, "refused: 8 NotHex\n"),
];

#[test]
fn shows_in_full(rt: HostRuntime) -> Result<(), Fail> {
    assert_eq!(rt; count_met(rt.alloc(), FULL_CASES)?, FULL_CASES.len());
    Ok(())
}

/// The bytes of the Welcome.
const WELCOME_BYTES: &[u8] =
    b"\x00\x01\x00\x03\xf0\x01\x07\x02\xab\xcd\x01\xee\x01\xff\x03\x01\x02\x03";

/// Those of `examples/tree.hex`.
const TREE_BYTES: &[u8] =
    b"\x2b\x01\x01\x01\xbb\x01\xcc\x00\x01\x03bob\x02\x00\x01\x02\xf0\x01\x00\x00\x02\x00\x01\x01\x00\x00\x00\x00\x00\x00\x00\x00\xff\xff\xff\xff\xff\xff\xff\xff\x00\x01\xdd";

const RAW: &[&str] = &["mls", "show", "FILE", "--raw"];

const CHECK_RAW: &[&str] = &["mls", "check", "--raw", "FILE"];

/// A case whose FILE are bytes.
type BytesCase<'a> = (&'a [&'a str], &'a [u8], u8, &'a str);

const READ: &[BytesCase] = &[
    (
        &["mls", "show", "--raw", "FILE", "--full"],
        WELCOME_BYTES,
        0,
        FULL_WELCOME_LINES,
    ),
    (
        RAW,
        b"\x00\x01\x00\x03\xf0\x01",
        1,
        "refused: 2 Truncated\n",
    ),
    // Hex digits are bytes like others, and so are blanks.
    (RAW, b"00010003f0010000", 1, "refused: 7 BadTag\n"),
    (
        RAW,
        b"\x00\x01\x00\x03\xf0\x01\x00\x00\n",
        1,
        "refused: 3 Trailing\n",
    ),
    (CHECK_RAW, TREE_BYTES, 1, LINES),
    (CHECK_RAW, b"\x00", 1, "refused: 20 TreeShape\n"),
    (
        &["mls", "check", "--raw", "--draw", "FILE"],
        TREE_BYTES,
        0,
        "■ 0 \"bob\"\n",
    ),
    (
        &["mls", "check", "--raw", "--group-info", "FILE"],
        WELCOME_BYTES,
        1,
        "refused: 95 WrongMessageKind\n",
    ),
];

/// How many cases, from the first on, are as told.
fn count_read(alloc: Global, cases: &[BytesCase<'_>]) -> Result<usize, AllocError> {
    for i in 0..cases.len() {
        let (words, file, status, text) = cases[i];
        if !is_met(alloc, words, file, status, text.as_bytes())? {
            return Ok(i);
        }
    }
    Ok(cases.len())
}

#[test]
fn reads_bytes(rt: HostRuntime) -> Result<(), Fail> {
    assert_eq!(rt; count_read(rt.alloc(), READ)?, READ.len());
    Ok(())
}
