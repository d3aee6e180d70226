//! Checks of a whole tree.

use crate::rows::Step::{Check, Nodes};
use crate::rows::Told::{Done, Is};
use crate::rows::{Row, count_met};
use std::test::*;

// Places with leaves of "bob", made for a key package. The signatures are another program's, by its HMAC.

/// Its signature is one byte.
const UNSIGNED: &str =
    "010101bb01cc000103626f6202000102f0010000020001010000000000000000ffffffffffffffff0001dd";

/// Signed, with a key of 32 bytes.
const GOOD: &str =
    "010120bbbbbbbbbbbbbbbbbbbbbbbbbbbbbbbbbbbbbbbbbbbbbbbbbbbbbbbbbbbbbbbb01cc000103626f6202000102f0010000020001010000000000000000ffffffffffffffff0020348ee61edb3e2016bb1ea8c5b403e41756450b4116458420e9939c4ade6e4182";

/// Signed, with version 2 alone.
const OTHER_VERSION: &str =
    "010101bb01cc000103626f6202000202f0010000020001010000000000000000ffffffffffffffff00202187013149d835c4ede788633425706a89c48b5b2f113ee7358ed582aed5f337";

/// Signed, with a key of one byte.
const SHORT_KEY: &str =
    "010101bb01cc000103626f6202000102f0010000020001010000000000000000ffffffffffffffff002094c35b5e20219c93347dc9a48b554344fb8125849c3f3990d99a1714b6500e6a";

/// A place with the leaf of "ann", signed for leaf 0 of the group "g". Its parent hash is that of a parent of the key
/// 32 times 0xaa and an empty parent hash, whose other side is the blank leaf 1.
const COMMITTED: &str =
    "010120111111111111111111111111111111111111111111111111111111111111111101dd000103616e6e02000102f00100000200010320f09f324c335d4d4c80da7c7a2d69812ac1213639e864dc84a52a4ff6db6a8f6f0020c803961d0ea646556d8178d8ec9b2959e7abe62c163e094106d4dbc98c546066";

const LEAVES: &[Row] = &[
    (Nodes(&[GOOD]), Done),
    (Check, Is(&[0])),
    (Nodes(&[UNSIGNED]), Done),
    (Check, Is(&[51])),
    (Nodes(&[OTHER_VERSION]), Done),
    (Check, Is(&[52])),
    (Nodes(&[SHORT_KEY]), Done),
    (Check, Is(&[36])),
];

#[test]
fn trees_of_one_leaf(rt: HostRuntime) -> Result<(), Fail> {
    assert_eq!(rt; count_met(rt.alloc(), LEAVES)?, LEAVES.len());
    Ok(())
}

/// A place with a parent of the key 32 times 0xaa and an empty parent hash, which lists none.
const PARENT: &str = "010220aaaaaaaaaaaaaaaaaaaaaaaaaaaaaaaaaaaaaaaaaaaaaaaaaaaaaaaaaaaaaaaa0000";

/// A place with a parent of the key 32 times 0xab and an empty parent hash, which lists none.
const OTHER_PARENT: &str =
    "010220abababababababababababababababababababababababababababababababab0000";

const BLANK: &str = "00";

/// Four leaves, of which 0 and 2 are taken, and a parent over leaves 0 and 1.
const HALF_EMPTY: &[Row] = &[
    (Nodes(&[COMMITTED, PARENT, BLANK, BLANK, GOOD]), Done),
    (Check, Is(&[0])),
    (Nodes(&[COMMITTED, OTHER_PARENT, BLANK, BLANK, GOOD]), Done),
    (Check, Is(&[24])),
];

#[test]
fn a_parent_over_an_empty_side(rt: HostRuntime) -> Result<(), Fail> {
    assert_eq!(rt; count_met(rt.alloc(), HALF_EMPTY)?, HALF_EMPTY.len());
    Ok(())
}
