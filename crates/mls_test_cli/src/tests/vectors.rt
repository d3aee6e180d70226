//! What `mls vectors` prints, by way of `serve`.

use crate::tests::cases::{FileCase, count_met_by, is_met};
use std::alloc::{AllocError, Global};
use std::test::Fail;

/// `examples/vectors.json`. Its values are published ones, or by Python's `hmac`.
const EXAMPLE: &str = r#"[
  {"kind": "header", "length": 0, "bytes": "00"},
  {"kind": "header", "length": 63, "bytes": "3f"},
  {"kind": "header", "length": 64, "bytes": "4040"},
  {"kind": "header", "length": 16383, "bytes": "7fff"},
  {"kind": "header", "length": 16384, "bytes": "80004000"},
  {"kind": "header", "length": 1073741823, "bytes": "bfffffff"},
  {"kind": "header", "length": 1073741824, "bytes": null},
  {"kind": "hmac", "key": "0b0b0b0b0b0b0b0b0b0b0b0b0b0b0b0b0b0b0b0b", "data": "4869205468657265", "out": "b0344c61d8db38535ca8afceaf0bf12b881dc200c9833da726e9376c2e32cff7"},
  {"kind": "hkdf", "salt": "000102030405060708090a0b0c", "ikm": "0b0b0b0b0b0b0b0b0b0b0b0b0b0b0b0b0b0b0b0b0b0b", "info": "f0f1f2f3f4f5f6f7f8f9", "prk": "077709362c2e32df0ddc3f0dc47bba6390b6c73bb50f9c3122ec844ad7c2b3e5", "okm": "3cb25f25faacd57a90434f64d0362f2a2d2d0a90cf1a5a4c5db02d56ecc4c5bf34007208d5b887185865"},
  {"kind": "expand", "secret": "000102030405060708090a0b0c0d0e0f101112131415161718191a1b1c1d1e1f", "label": "path", "context": "636f6e74657874", "out": "f6f4935b326fb9f5e58e81737269e95e310f331e945d6809800c5c327774ea2b4a37e98cbe4dbc0fbc4cfdf5b5c5fc0b"},
  {"kind": "treemath", "leaves": 8, "node": 6, "direct_path": [5, 3, 7], "copath": [4, 1, 11]},
  {"kind": "message", "bytes": "000100050001f00101aa01bb01cc000103626f6202000102f0010000020001010000000000000000ffffffffffffffff0001dd0001ee", "refused": 0},
  {"kind": "message", "bytes": "000100050001f00101aa01bb01cc000103626f6202000102f0010000020001010000000000000000ffffffffffffffff0001dd0001", "refused": 2},
  {"kind": "tree", "bytes": "2b010101bb01cc000103626f6202000102f0010000020001010000000000000000ffffffffffffffff0001dd", "tree_hash": "754879a771f78780e3bedb21d618103a3fa605220876b0115cf607c73d05b74c"}
]
"#;

const ALL_PASS: &str =
    "0: pass\n1: pass\n2: pass\n3: pass\n4: pass\n5: pass\n6: pass\n7: pass\n8: pass\n9: pass\n10: pass\n11: pass\n12: pass\n13: pass\npassed 14 of 14\n";

const BAD_JSON: &str = "refused: 9 BadJson\n";

const NOT_HEX: &str = "refused: 8 NotHex\n";

const WORDS: &[&str] = &["mls", "vectors", "FILE"];

const JUDGED: &[FileCase] = &[
    (EXAMPLE, 0, ALL_PASS),
    ("[]", 0, "passed 0 of 0\n"),
    (
        r#"[{"kind":"header","length":63,"bytes":"3f"},{"kind":"header","length":64,"bytes":"40"}]"#,
        1,
        "0: pass\n1: fail\npassed 1 of 2\n",
    ),
    (
        r#"[{"kind":"header","length":1073741823,"bytes":null}]"#,
        1,
        "0: fail\npassed 0 of 1\n",
    ),
    (
        r#"[{"kind":"hmac","key":"","data":"","out":""}]"#,
        1,
        "0: fail\npassed 0 of 1\n",
    ),
    (
        r#"[{"kind":"hkdf","salt":"","ikm":"","info":"","prk":"B613679A0814D9EC772F95D778C35FC5FF1697C493715653C6C712144292C5AD","okm":""}]"#,
        0,
        "0: pass\npassed 1 of 1\n",
    ),
    // By Python's `hmac`: the info is 00200c4d4c5320312e30207061746800.
    (
        r#"[{"kind":"expand","secret":"000102030405060708090a0b0c0d0e0f101112131415161718191a1b1c1d1e1f","label":"path","context":"","out":"a59d080c566bc7cbbf6378bddc7022730c03eba91883ea2c200811859f661889"}]"#,
        0,
        "0: pass\npassed 1 of 1\n",
    ),
    (
        r#"[{"kind":"treemath","leaves":8,"node":6,"direct_path":[5,3,7],"copath":[4,1]},{"kind":"treemath","leaves":6,"node":0,"direct_path":[],"copath":[]}]"#,
        1,
        "0: fail\n1: pass\npassed 1 of 2\n",
    ),
    (
        r#"[{"kind":"message","bytes":"","refused":7},{"kind":"message","bytes":"0002","refused":7}]"#,
        1,
        "0: fail\n1: pass\npassed 1 of 2\n",
    ),
    (
        r#"[{"kind":"message","bytes":"","refused":18446744073709551615}]"#,
        1,
        "0: fail\npassed 0 of 1\n",
    ),
    (
        r#"[{"kind":"tree","bytes":"00","tree_hash":""},{"kind":"tree","bytes":"2b010101bb01cc000103626f6202000102f0010000020001010000000000000000ffffffffffffffff0001dd","tree_hash":"00"}]"#,
        1,
        "0: fail\n1: fail\npassed 0 of 2\n",
    ),
    (
        r#"[{"kind":"header","length":1,"bytes":"02","length":2}]"#,
        0,
        "0: pass\npassed 1 of 1\n",
    ),
];

#[test]
fn judges(rt: HostRuntime) -> Result<(), Fail> {
    assert_eq!(rt; count_met_by(rt.alloc(), WORDS, JUDGED)?, JUDGED.len());
    Ok(())
}

const REFUSED: &[FileCase] = &[
    ("[", 1, BAD_JSON),
    ("zz", 1, BAD_JSON),
    ("{}", 1, BAD_JSON),
    ("[7]", 1, BAD_JSON),
    (r#"[{"length":1,"bytes":"01"}]"#, 1, BAD_JSON),
    (
        r#"[{"kind":"tree","bytes":"","tree_hash":null}]"#,
        1,
        BAD_JSON,
    ),
    (
        r#"[{"kind":"header","length":1.0,"bytes":"01"}]"#,
        1,
        BAD_JSON,
    ),
    (
        r#"[{"kind":"header","length":1e0,"bytes":"01"}]"#,
        1,
        BAD_JSON,
    ),
    (
        r#"[{"kind":"header","length":-1,"bytes":"01"}]"#,
        1,
        BAD_JSON,
    ),
    (
        r#"[{"kind":"header","length":4294967296,"bytes":null}]"#,
        1,
        BAD_JSON,
    ),
    (r#"[{"kind":"header","length":1,"bytes":1}]"#, 1, BAD_JSON),
    (r#"[{"kind":"header","length":1}]"#, 1, BAD_JSON),
    (
        r#"[{"kind":"header","length":1,"bytes":"01","more":1}]"#,
        1,
        BAD_JSON,
    ),
    (
        r#"[{"kind":"message","bytes":"","refused":18446744073709551616}]"#,
        1,
        BAD_JSON,
    ),
    (
        r#"[{"kind":"message","bytes":"","refused":-0}]"#,
        1,
        BAD_JSON,
    ),
    (
        r#"[{"kind":"treemath","leaves":1,"node":0,"direct_path":[],"copath":[0.5]}]"#,
        1,
        BAD_JSON,
    ),
    (
        r#"[{"kind":"message","bytes":"0","refused":2}]"#,
        1,
        NOT_HEX,
    ),
    (
        r#"[{"kind":"header","length":1,"bytes":" 01"}]"#,
        1,
        NOT_HEX,
    ),
    (
        r#"[{"kind":"message","bytes":"0","refused":2},{}]"#,
        1,
        BAD_JSON,
    ),
];

#[test]
fn refuses_files(rt: HostRuntime) -> Result<(), Fail> {
    assert_eq!(rt; count_met_by(rt.alloc(), WORDS, REFUSED)?, REFUSED.len());
    assert!(rt; is_met(rt.alloc(), WORDS, b"[\xff]", 1, BAD_JSON.as_bytes())?);
    Ok(())
}

/// So many copies of a text.
pub fn repeat_text(alloc: Global, text: &str, times: usize) -> Result<String, AllocError> {
    let mut all = String::new(alloc);
    for _ in 0..times {
        all.push_str(text)?;
    }
    Ok(all)
}

/// A vector with a label of so many characters and an output of so many bytes.
fn vector_of(alloc: Global, label: usize, okm: usize) -> Result<String, AllocError> {
    let label = repeat_text(alloc, "a", label)?;
    let okm = repeat_text(alloc, "00", okm)?;
    format!(in alloc;
        "[{{\"kind\":\"expand\",\"secret\":\"\",\"label\":\"{label}\",\"context\":\"\",\"out\":\"{okm}\"}}]"
    )
}

/// Whether this is printed of it.
fn is_judged(alloc: Global, label: usize, okm: usize, text: &str) -> Result<bool, AllocError> {
    let file = vector_of(alloc, label, okm)?;
    is_met(alloc, WORDS, file.as_bytes(), 1, text.as_bytes())
}

#[test]
fn limits(rt: HostRuntime) -> Result<(), Fail> {
    let failed = "0: fail\npassed 0 of 1\n";
    assert!(rt; is_judged(rt.alloc(), 200, 1, failed)?);
    assert!(rt; is_judged(rt.alloc(), 201, 1, BAD_JSON)?);
    assert!(rt; is_judged(rt.alloc(), 1, 8161, failed)?);
    Ok(())
}
