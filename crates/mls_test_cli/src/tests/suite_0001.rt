//! Checks and replays under suite 0x0001. Trees, hashes, messages and authenticators are those of `tools/outsider`, which
//! is written from RFC 9420 in Python.

use crate::tests::cases::{Case, FileCase, count_met, is_met};
use crate::tests::rows::JOIN;
use std::alloc::{AllocError, Global};
use std::test::Fail;

/// A tree of one member, whose leaf is that of its KeyPackage.
pub const TREE: &str =
    "40a7010120c5f059e7ec0a74622d2f71a74d40e4c50a434384fbc0eccb3d7c89dfa576595620c2b95b328f34afe182b8d3e80054b9727280b681eeea78f90515fbcee11787ec000101610200010200010000020001010000000000000000ffffffffffffffff004040014dc9c3457505d59687398c8bc0ab426cfac087dc656d23517e91a055c190c2440b4771d9be81064ece0b65c25747b99d6cc758e57130b708e826a555b0160c";

/// `TREE` with another last byte of the signature.
const FORGED: &str =
    "40a7010120c5f059e7ec0a74622d2f71a74d40e4c50a434384fbc0eccb3d7c89dfa576595620c2b95b328f34afe182b8d3e80054b9727280b681eeea78f90515fbcee11787ec000101610200010200010000020001010000000000000000ffffffffffffffff004040014dc9c3457505d59687398c8bc0ab426cfac087dc656d23517e91a055c190c2440b4771d9be81064ece0b65c25747b99d6cc758e57130b708e826a555b01600";

/// `TREE` with a key of 33 bytes, rightly signed.
const LONG_KEY: &str =
    "40a8010121c5f059e7ec0a74622d2f71a74d40e4c50a434384fbc0eccb3d7c89dfa57659560020c2b95b328f34afe182b8d3e80054b9727280b681eeea78f90515fbcee11787ec000101610200010200010000020001010000000000000000ffffffffffffffff0040407840f2db4769168a2d21b8e786ddcd6d3d8e64c6bc421b076eef03ec2f6c5a8dbd9513146720c6e42a11feeca82b6eb77458ac043c008fd35bb49cca13ca2708";

const GOOD_LINES: &str =
    "leaves: 1\nmembers: 1\ntree_hash: 01123541e51f8307ac9ece849ae194ccf65ba54be8aae2fa7d6e5910ca0237a9\nunmerged: ok\nparent_hashes: ok\nkeys: ok\nclients: ok\nsignatures: ok\ncapabilities: ok\nkey_forms: ok\n";

const UNCHECKED_LINES: &str =
    "leaves: 1\nmembers: 1\ntree_hash: 01123541e51f8307ac9ece849ae194ccf65ba54be8aae2fa7d6e5910ca0237a9\nunmerged: ok\nparent_hashes: ok\nkeys: ok\nclients: ok\nsignatures: not checked\ncapabilities: ok\nkey_forms: not checked\n";

const FORGED_LINES: &str =
    "leaves: 1\nmembers: 1\ntree_hash: 2228503fdc2e2966a250e2e0fe953f315532cc215e4fcf2378bc7fceee2cb526\nunmerged: ok\nparent_hashes: ok\nkeys: ok\nclients: ok\nrefused: 51 LeafSignature\n";

const LONG_KEY_LINES: &str =
    "leaves: 1\nmembers: 1\ntree_hash: 6e6248d43aef1c9c887b226c60d628ee710d482df64978986d61349eb52926c3\nunmerged: ok\nparent_hashes: ok\nkeys: ok\nclients: ok\nsignatures: ok\ncapabilities: ok\nrefused: 36 BadKey\n";

const CHECKED: &[&str] = &["mls", "check", "FILE", "--suite=0001", "--signatures"];

const UNCHECKED: &[&str] = &["mls", "check", "FILE", "--suite=0001"];

const SIGNED: &[Case] = &[
    (CHECKED, TREE, 0, GOOD_LINES),
    (UNCHECKED, TREE, 0, UNCHECKED_LINES),
    (CHECKED, FORGED, 1, FORGED_LINES),
    (CHECKED, LONG_KEY, 1, LONG_KEY_LINES),
];

#[test]
fn checks_signatures_and_keys(rt: HostRuntime) -> Result<(), Fail> {
    assert_eq!(rt; count_met(rt.alloc(), SIGNED)?, SIGNED.len());
    Ok(())
}

/// A group of one adds another candidate, who joins.
const GROUP: &str = r#"{"version":1,"suite":"0001","events":[
  {"op":"candidate","identity":"61","seed":"0101010101010101010101010101010101010101010101010101010101010101"},
  {"op":"create","candidate":0,"group":"67","seed":"0202020202020202020202020202020202020202020202020202020202020202"},
  {"op":"candidate","identity":"62","seed":"0303030303030303030303030303030303030303030303030303030303030303"},
  {"op":"commit","member":0,"items":[{"add":{"message":1}}],"path":true,"seed":"0404040404040404040404040404040404040404040404040404040404040404"},
  {"op":"deliver","member":0,"bytes":{"message":2},"expect":"advanced to 1"},
  {"op":"join","candidate":1,"bytes":{"message":3}}
]}
"#;

const GROUP_TEXT: &str = r#"0: candidate 0, message 0
1: member 0
2: candidate 1, message 1
3: message 2, welcome 3
4: advanced to 1
5: member 1 at epoch 1
member 0: leaf 0, epoch 1, tree 3ccb4cf415849daeab79c51c6ced57244b71422a7aad78864d7ef42c8b995bf0, authenticator 3cfb3bc258f8ab81c93688084fe1f17bb35f80bdb33f576a16286ab8743de27b
member 1: leaf 1, epoch 1, tree 3ccb4cf415849daeab79c51c6ced57244b71422a7aad78864d7ef42c8b995bf0, authenticator 3cfb3bc258f8ab81c93688084fe1f17bb35f80bdb33f576a16286ab8743de27b
"#;

/// The first candidate's KeyPackage.
const MESSAGE_TEXT: &str =
    "0001000500010001209efbbd1e1ae11cd20583566e3cfa2665476356246754ed121168daae02960a3920c5f059e7ec0a74622d2f71a74d40e4c50a434384fbc0eccb3d7c89dfa576595620c2b95b328f34afe182b8d3e80054b9727280b681eeea78f90515fbcee11787ec000101610200010200010000020001010000000000000000ffffffffffffffff004040014dc9c3457505d59687398c8bc0ab426cfac087dc656d23517e91a055c190c2440b4771d9be81064ece0b65c25747b99d6cc758e57130b708e826a555b0160c00404091f285bead54d46eb39c868ec76f23407c3fcff795d67d70b30ac5c5c4f0822f2c10c40b6336dacb074bc06e7a49f952efe755cfa42e0635a5e944c043a65400\n";

const BAD_JSON: &str = "refused: 9 BadJson\n";

const OTHER_SUITE: &str =
    "error: invalid value 'f002' for '--suite <SUITE>'\n  [possible values: f001, 0001]\n\nUsage: mls replay [OPTIONS] <FILE>\n\nFor more information, try '--help'.\n";

const NO_NUMBER: &str =
    "error: invalid value 'x' for '--message <N>': invalid digit found in string\n\nFor more information, try '--help'.\n";

const REPLAYS: &[Case] = &[
    (
        &["mls", "replay", "FILE", "--suite", "0001"],
        GROUP,
        0,
        GROUP_TEXT,
    ),
    (&["mls", "replay", "FILE"], GROUP, 1, BAD_JSON),
    (
        &["mls", "replay", "FILE", "--suite", "0001"],
        JOIN,
        1,
        BAD_JSON,
    ),
    (
        &["mls", "replay", "FILE", "--suite=0001", "--message", "0"],
        GROUP,
        0,
        MESSAGE_TEXT,
    ),
    (
        &["mls", "replay", "FILE", "--suite=0001", "--message=4"],
        GROUP,
        1,
        "refused: 94 NoSuchMessage\n",
    ),
    (
        &["mls", "replay", "FILE", "--message=0"],
        GROUP,
        1,
        BAD_JSON,
    ),
    (
        &["mls", "replay", "FILE", "--suite=f002"],
        "",
        2,
        OTHER_SUITE,
    ),
    (&["mls", "replay", "FILE", "--message=x"], "", 2, NO_NUMBER),
];

#[test]
fn replays_under_both_suites(rt: HostRuntime) -> Result<(), Fail> {
    assert_eq!(rt; count_met(rt.alloc(), REPLAYS)?, REPLAYS.len());
    Ok(())
}

/// `examples/group_info_with_tree.hex`.
const GROUP_INFO: &str =
    "000100040001000101670000000000000000206501c3d04d2fd448e5ba0ef1375b8fdd7ee3b2ef27d0ea981441ad4d387a6483000040b1000240ad40ab010120a666d115c4c61ba1f9a78fbc4dce3629e7a0c06cb59cf8a6dfd824b448dae93320fc46d4f95fba3ffa02413644da6068f8721b48adae9d2f5c2cf0be4f0d50d789000105616c6963650200010200010000020001010000000000000000ffffffffffffffff004040046adf6a3ea6cae8c516c1c060d0acc011294272e6602de342417171accb301dd2024bd14bcf9d62bb29c3454ecfbaca316ab9b858616d2fed1373d42942970c20a2120699cac684ea2c8112531718dbff4d30bed58c1a797daa9d5f612c8c9ea00000000040400415d05b0e0019d4a1f697aee35286e35623b89bc06aad52aa98e760e8a14925b99b63e688b75b8074e50b9c479a02a7bb28b1c3c3f6c6f8968a329d84331e08";

/// `GROUP_INFO` with another first byte of the tree hash.
const WRONG_HASH: &str =
    "000100040001000101670000000000000000206601c3d04d2fd448e5ba0ef1375b8fdd7ee3b2ef27d0ea981441ad4d387a6483000040b1000240ad40ab010120a666d115c4c61ba1f9a78fbc4dce3629e7a0c06cb59cf8a6dfd824b448dae93320fc46d4f95fba3ffa02413644da6068f8721b48adae9d2f5c2cf0be4f0d50d789000105616c6963650200010200010000020001010000000000000000ffffffffffffffff004040046adf6a3ea6cae8c516c1c060d0acc011294272e6602de342417171accb301dd2024bd14bcf9d62bb29c3454ecfbaca316ab9b858616d2fed1373d42942970c20a2120699cac684ea2c8112531718dbff4d30bed58c1a797daa9d5f612c8c9ea00000000040400415d05b0e0019d4a1f697aee35286e35623b89bc06aad52aa98e760e8a14925b99b63e688b75b8074e50b9c479a02a7bb28b1c3c3f6c6f8968a329d84331e08";

/// `GROUP_INFO` with another signer.
const WRONG_SIGNER: &str =
    "000100040001000101670000000000000000206501c3d04d2fd448e5ba0ef1375b8fdd7ee3b2ef27d0ea981441ad4d387a6483000040b1000240ad40ab010120a666d115c4c61ba1f9a78fbc4dce3629e7a0c06cb59cf8a6dfd824b448dae93320fc46d4f95fba3ffa02413644da6068f8721b48adae9d2f5c2cf0be4f0d50d789000105616c6963650200010200010000020001010000000000000000ffffffffffffffff004040046adf6a3ea6cae8c516c1c060d0acc011294272e6602de342417171accb301dd2024bd14bcf9d62bb29c3454ecfbaca316ab9b858616d2fed1373d42942970c20a2120699cac684ea2c8112531718dbff4d30bed58c1a797daa9d5f612c8c9ea00000000140400415d05b0e0019d4a1f697aee35286e35623b89bc06aad52aa98e760e8a14925b99b63e688b75b8074e50b9c479a02a7bb28b1c3c3f6c6f8968a329d84331e08";

/// `GROUP_INFO` with another last byte of the signature.
const FORGED_INFO: &str =
    "000100040001000101670000000000000000206501c3d04d2fd448e5ba0ef1375b8fdd7ee3b2ef27d0ea981441ad4d387a6483000040b1000240ad40ab010120a666d115c4c61ba1f9a78fbc4dce3629e7a0c06cb59cf8a6dfd824b448dae93320fc46d4f95fba3ffa02413644da6068f8721b48adae9d2f5c2cf0be4f0d50d789000105616c6963650200010200010000020001010000000000000000ffffffffffffffff004040046adf6a3ea6cae8c516c1c060d0acc011294272e6602de342417171accb301dd2024bd14bcf9d62bb29c3454ecfbaca316ab9b858616d2fed1373d42942970c20a2120699cac684ea2c8112531718dbff4d30bed58c1a797daa9d5f612c8c9ea00000000040400415d05b0e0019d4a1f697aee35286e35623b89bc06aad52aa98e760e8a14925b99b63e688b75b8074e50b9c479a02a7bb28b1c3c3f6c6f8968a329d84331e00";

/// What is printed of the tree.
const INFO_TREE_LINES: &str =
    "leaves: 1\nmembers: 1\ntree_hash: 6501c3d04d2fd448e5ba0ef1375b8fdd7ee3b2ef27d0ea981441ad4d387a6483\nunmerged: ok\nparent_hashes: ok\nkeys: ok\nclients: ok\nsignatures: ok\ncapabilities: ok\nkey_forms: ok\n";

const UNCHECKED_INFO_LINES: &str =
    "leaves: 1\nmembers: 1\ntree_hash: 6501c3d04d2fd448e5ba0ef1375b8fdd7ee3b2ef27d0ea981441ad4d387a6483\nunmerged: ok\nparent_hashes: ok\nkeys: ok\nclients: ok\nsignatures: not checked\ncapabilities: ok\nkey_forms: not checked\ntree_hash matches: ok\ngroup_info signature: not checked\n";

/// GroupInfos, with the status and what is printed behind the lines of the tree.
const INFOS: &[FileCase] = &[
    (
        GROUP_INFO,
        0,
        "tree_hash matches: ok\ngroup_info signature: ok\n",
    ),
    (WRONG_HASH, 1, "refused: 77 TreeHashWrong\n"),
    (
        WRONG_SIGNER,
        1,
        "tree_hash matches: ok\nrefused: 78 SignerWrong\n",
    ),
    (
        FORGED_INFO,
        1,
        "tree_hash matches: ok\nrefused: 79 GroupInfoSignature\n",
    ),
];

const INFO_CHECKED: &[&str] = &["mls", "check", "FILE", "--group-info", "--signatures"];

const INFO_UNCHECKED: &[&str] = &["mls", "check", "FILE", "--group-info"];

/// How many are so, from the first on.
fn count_checks(alloc: Global, cases: &[FileCase<'_>]) -> Result<usize, AllocError> {
    for i in 0..cases.len() {
        let (file, status, text) = cases[i];
        let whole = format!(in alloc; "{INFO_TREE_LINES}{text}")?;
        if !is_met(
            alloc,
            INFO_CHECKED,
            file.as_bytes(),
            status,
            whole.as_bytes(),
        )? {
            return Ok(i);
        }
    }
    Ok(cases.len())
}

#[test]
fn checks_group_infos(rt: HostRuntime) -> Result<(), Fail> {
    assert_eq!(rt; count_checks(rt.alloc(), INFOS)?, INFOS.len());
    Ok(())
}

const UNSIGNED: &[Case] = &[
    (INFO_UNCHECKED, GROUP_INFO, 0, UNCHECKED_INFO_LINES),
    (INFO_UNCHECKED, FORGED_INFO, 0, UNCHECKED_INFO_LINES),
];

#[test]
fn checks_no_signatures(rt: HostRuntime) -> Result<(), Fail> {
    assert_eq!(rt; count_met(rt.alloc(), UNSIGNED)?, UNSIGNED.len());
    Ok(())
}
