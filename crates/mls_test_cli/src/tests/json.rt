//! Pages as JSON objects, by way of `serve`. The objects are made of the lines by the table of docs/FORMATS.md.

use crate::tests::cases::{Case, count_met};
use crate::tests::options::{ONE, WITH_TREE};
use crate::tests::suite_0001::TREE as SIGNED;
use crate::tests::{KEY_PACKAGE, serve_file};
use std::alloc::{AllocError, Global};
use std::test::Fail;

const KEY_PACKAGE_OBJECT: &str =
    r#"{"message":"key_package","bytes":54,"cipher_suite":"f001","init_key":"aa","leaf.encryption_key":"bb","leaf.signature_key":"cc","leaf.identity":"626f62","leaf.versions":["0001"],"leaf.cipher_suites":["f001"],"leaf.extensions":[],"leaf.proposals":[],"leaf.credentials":["0001"],"leaf.source":"key_package","leaf.not_before":0,"leaf.not_after":18446744073709551615,"leaf.signature":"dd","signature":"ee"}
"#;

/// A Welcome for two.
const WELCOME: &str = "00010003f0010a016e016b0163016f0000026769";

const WELCOME_OBJECT: &str =
    r#"{"message":"welcome","bytes":20,"cipher_suite":"f001","new_members":2,"new_member":["6e","6f"],"group_info_bytes":2}
"#;

const FULL_WELCOME_OBJECT: &str =
    r#"{"message":"welcome","bytes":20,"cipher_suite":"f001","new_members":2,"new_member":["6e","6f"],"new_member.0.kem_output":"6b","new_member.0.ciphertext":"63","new_member.1.kem_output":"","new_member.1.ciphertext":"","group_info_bytes":2}
"#;

/// A GroupInfo with two extensions, one without data, and no tree.
const EXTENSIONS: &str = "000100040001f00101670000000000000000000007f00100f002016800000000000000";

const EXTENSIONS_OBJECT: &str =
    r#"{"message":"group_info","bytes":35,"cipher_suite":"f001","group_id":"67","epoch":0,"tree_hash":"","confirmed_transcript_hash":"","extension":[{"type":"f001","data":""},{"type":"f002","data":"68"}],"tree_nodes":"none","confirmation_tag":"","signer":0,"signature":""}
"#;

const TREE_OBJECT: &str =
    r#"{"leaves":1,"members":1,"tree_hash":"d99fe7caf5d39f6cfdd530c44ebb227a4c489e9d412b74c40246e8b3aec3edc5","unmerged":"ok","parent_hashes":"ok","keys":"ok","clients":"ok","refused":{"number":51,"name":"LeafSignature"}}
"#;

const SIGNED_OBJECT: &str =
    r#"{"leaves":1,"members":1,"tree_hash":"01123541e51f8307ac9ece849ae194ccf65ba54be8aae2fa7d6e5910ca0237a9","unmerged":"ok","parent_hashes":"ok","keys":"ok","clients":"ok","signatures":"ok","capabilities":"ok","key_forms":"ok"}
"#;

const TRUNCATED: &str = "{\"refused\":{\"number\":2,\"name\":\"Truncated\"}}\n";

const NOT_HEX_AND_HINT: &str =
    "{\"refused\":{\"number\":8,\"name\":\"NotHex\"}}\nmls: the file is binary: give --raw\n";

const WRONG_KIND: &str = "{\"refused\":{\"number\":95,\"name\":\"WrongMessageKind\"}}\n";

const SHOW: &[&str] = &["mls", "show", "FILE", "--json"];

const FULL: &[&str] = &["mls", "show", "--full", "--json", "FILE"];

const CHECK: &[&str] = &["mls", "check", "FILE", "--json"];

const INFO: &[&str] = &["mls", "check", "FILE", "--group-info", "--json"];

const OBJECTS: &[Case] = &[
    (SHOW, KEY_PACKAGE, 0, KEY_PACKAGE_OBJECT),
    (SHOW, WELCOME, 0, WELCOME_OBJECT),
    (FULL, WELCOME, 0, FULL_WELCOME_OBJECT),
    (SHOW, EXTENSIONS, 0, EXTENSIONS_OBJECT),
    (SHOW, "00010003f001", 1, TRUNCATED),
    (SHOW, "\u{1}", 1, NOT_HEX_AND_HINT),
    (
        &["mls", "show", "FILE", "--json", "--raw"],
        "\u{0}",
        1,
        TRUNCATED,
    ),
    (CHECK, ONE, 1, TREE_OBJECT),
    (
        &[
            "mls",
            "check",
            "--json",
            "FILE",
            "--suite=0001",
            "--signatures",
        ],
        SIGNED,
        0,
        SIGNED_OBJECT,
    ),
    (CHECK, "02", 1, TRUNCATED),
    (INFO, WITH_TREE, 1, TREE_OBJECT),
    (INFO, WELCOME, 1, WRONG_KIND),
];

#[test]
fn prints_objects(rt: HostRuntime) -> Result<(), Fail> {
    assert_eq!(rt; count_met(rt.alloc(), OBJECTS)?, OBJECTS.len());
    Ok(())
}

/// A drawing has no members.
const DRAWN: &str =
    "error: only one of --draw and --json can be used\n\nUsage: mls check [OPTIONS] <FILE>\n\nFor more information, try '--help'.\n";

const DRAWINGS: &[Case] = &[
    (&["mls", "check", "FILE", "--draw", "--json"], ONE, 2, DRAWN),
    (
        &[
            "mls",
            "check",
            "--json",
            "FILE",
            "--svg",
            "--draw",
            "--group-info",
        ],
        ONE,
        2,
        DRAWN,
    ),
];

#[test]
fn refuses_objects_of_drawings(rt: HostRuntime) -> Result<(), Fail> {
    assert_eq!(rt; count_met(rt.alloc(), DRAWINGS)?, DRAWINGS.len());
    Ok(())
}

/// Whether these words aren't taken.
fn is_unexpected(alloc: Global, words: &[&str]) -> Result<bool, AllocError> {
    let (status, out) = serve_file(alloc, words, b"[]")?;
    let said = b"error: unexpected argument '--json' found\n".as_slice();
    Ok(status == 2 && out.as_slice().starts_with(said))
}

/// What the other subcommands print has no members either.
#[test]
fn refuses_what_has_no_members(rt: HostRuntime) -> Result<(), Fail> {
    assert!(rt; is_unexpected(rt.alloc(), &["mls", "replay", "FILE", "--json"])?);
    assert!(rt; is_unexpected(rt.alloc(), &["mls", "vectors", "FILE", "--json"])?);
    Ok(())
}
