//! Where ratchet trees break rules that are asked of each member, of each node or of each parent.

use crate::rows::{Subject, answers, bytes_of, gives, text_of};
use mls_cli_place::{
    TreePlace, breach_of_file, breach_of_group_info, first_incapable, first_misplaced, first_unfit,
};
use mls_cli_text::Form;
use mls_leaf::Codec;
use mls_suite::Glass;
use mls_tree::PublicTree;
use mls_types::RatchetTree;
use std::alloc::{AllocError, Global};
use std::process::Abort;
use std::test::Fail;

/// Two members with the same keys.
const TWINS: &str =
    "40770101204b4b4b4b4b4b4b4b4b4b4b4b4b4b4b4b4b4b4b4b4b4b4b4b4b4b4b4b4b4b4b4b0153000102696402\
     000102f0010000020001020003736967000101204b4b4b4b4b4b4b4b4b4b4b4b4b4b4b4b4b4b4b4b4b4b4b4b4b\
     4b4b4b4b4b4b4b0153000102696402000102f0010000020001020003736967";

/// The nodes of a text in hex.
fn nodes_of(alloc: Global, digits: &str) -> Result<RatchetTree, AllocError> {
    match RatchetTree::decode(alloc, bytes_of(alloc, digits)?.as_slice()) {
        Ok(nodes) => Ok(nodes),
        Err(_) => Err(AllocError),
    }
}

/// The first member that lacks a capability in the tree of these nodes.
struct Incapable;

impl Subject for Incapable {
    fn answer(&self, alloc: Global, text: &str) -> Result<String, AllocError> {
        match PublicTree::from_nodes(nodes_of(alloc, text)?.into_vec()) {
            Ok(tree) => {
                let found = first_incapable::<Glass>(&tree);
                drop(tree);
                format!(in alloc; "{found:?}")
            }
            Err(_) => Err(AllocError),
        }
    }
}

const CAPABILITIES: &[(&str, &str)] = &[
    (TWINS, "None"),
    (
        "40770101204b4b4b4b4b4b4b4b4b4b4b4b4b4b4b4b4b4b4b4b4b4b4b4b4b4b4b4b4b4b4b4b0153000102\
         696402000102f0010000020001020003736967000101204b4b4b4b4b4b4b4b4b4b4b4b4b4b4b4b4b4b4b\
         4b4b4b4b4b4b4b4b4b4b4b4b4b015300010269640200010200010000020001020003736967",
        "Some(1)",
    ),
    (
        "40770101204b4b4b4b4b4b4b4b4b4b4b4b4b4b4b4b4b4b4b4b4b4b4b4b4b4b4b4b4b4b4b4b0153000102\
         696402000202f0010000020001020003736967000101204b4b4b4b4b4b4b4b4b4b4b4b4b4b4b4b4b4b4b\
         4b4b4b4b4b4b4b4b4b4b4b4b4b015300010269640200010200010000020001020003736967",
        "Some(0)",
    ),
];

#[test]
fn finds_members_that_lack_a_capability(rt: HostRuntime) -> Result<(), Fail> {
    answers(&rt, rt.alloc(), &Incapable, CAPABILITIES)
}

/// The first nodes whose key isn't fit, and that stand out of their places.
struct FirstNodes;

impl Subject for FirstNodes {
    fn answer(&self, alloc: Global, text: &str) -> Result<String, AllocError> {
        let nodes = nodes_of(alloc, text)?;
        let unfit = first_unfit::<Glass>(nodes.as_slice());
        let misplaced = first_misplaced(nodes.as_slice());
        format!(in alloc; "{unfit:?} {misplaced:?}")
    }
}

const NODES: &[(&str, &str)] = &[
    ("06010201700000", "Some(0) Some(0)"),
    (
        "40760101204b4b4b4b4b4b4b4b4b4b4b4b4b4b4b4b4b4b4b4b4b4b4b4b4b4b4b4b4b4b4b4b0153000102\
         696402000102f00100000200010200037369670101204b4b4b4b4b4b4b4b4b4b4b4b4b4b4b4b4b4b4b4b\
         4b4b4b4b4b4b4b4b4b4b4b4b0153000102696402000102f0010000020001020003736967",
        "None Some(1)",
    ),
    (
        "40760101204b4b4b4b4b4b4b4b4b4b4b4b4b4b4b4b4b4b4b4b4b4b4b4b4b4b4b4b4b4b4b4b0153000102\
         696402000102f00100000200010200037369670001011f4b4b4b4b4b4b4b4b4b4b4b4b4b4b4b4b4b4b4b\
         4b4b4b4b4b4b4b4b4b4b4b4b0153000102696402000102f0010000020001020003736967",
        "Some(2) None",
    ),
    (
        "2b000102204b4b4b4b4b4b4b4b4b4b4b4b4b4b4b4b4b4b4b4b4b4b4b4b4b4b4b4b4b4b4b4b0000010200\
         0000",
        "Some(2) Some(2)",
    ),
    ("03000000", "None None"),
];

#[test]
fn finds_nodes(rt: HostRuntime) -> Result<(), Fail> {
    answers(&rt, rt.alloc(), &FirstNodes, NODES)
}

#[test]
fn prints_places_in_trees(rt: HostRuntime) -> Result<(), Fail> {
    let node = text_of(rt.alloc(), &TreePlace::Node(131_070));
    gives(&rt, node, "node: 131070\n", "a node")?;
    let leaf = text_of(rt.alloc(), &TreePlace::Leaf(65_535));
    gives(&rt, leaf, "leaf: 65535\n", "a leaf")
}

/// Four members under three parents. The root lists leaf 9, and its right child leaf 0.
const WRONG_LISTS: &str =
    "407e0101010101810001016102000102f0010000020001020001dd0102010900000101010201820001016202\
     000102f0010000020001020001dd010201090004000000090101010101810001016102000102f00100000200\
     01020001dd010201090004000000000101010201820001016202000102f0010000020001020001dd";

/// Four members under a root and its right child, which have no parent hashes. Its left child is blank.
const WRONG_HASHES: &str =
    "40710101010101810001016102000102f0010000020001020001dd000101010201820001016202000102f001\
     0000020001020001dd0102010900000101010101810001016102000102f0010000020001020001dd01020109\
     00000101010201820001016202000102f0010000020001020001dd";

/// A GroupInfo of a group whose member has a key that isn't fit.
const GROUP_INFO: &str =
    "000100040001f0010167000000000000000101740004f00301652000021d1c010101450153000102696402000102\
     f00100000200010200037369670163000000000173";

/// The line of a place, or `none`.
fn place_text(alloc: Global, place: Option<TreePlace>) -> Result<String, AllocError> {
    match place {
        Some(place) => text_of(alloc, &place),
        None => String::from_str(alloc, "none\n"),
    }
}

/// What breaks the rule of a number in a tree, for the group with this id.
fn breach_in_tree(
    alloc: Global,
    file: &str,
    group: &str,
    number: u8,
) -> Result<String, AllocError> {
    let file = file.as_bytes();
    place_text(
        alloc,
        breach_of_file::<Glass>(alloc, Form::Hex, file, group, number)?,
    )
}

/// What breaks the rule of a number in a GroupInfo's tree.
fn breach_in_info(alloc: Global, file: &str, number: u8) -> Result<String, AllocError> {
    let file = file.as_bytes();
    place_text(
        alloc,
        breach_of_group_info::<Glass, Glass>(alloc, Form::Hex, file, number)?,
    )
}

/// Asserts of each tree, group's id and number that this breaks the rule.
fn breaches(rt: &impl Abort, alloc: Global, rows: &[(&str, &str, u8, &str)]) -> Result<(), Fail> {
    for (file, group, number, wanted) in rows {
        gives(
            rt,
            breach_in_tree(alloc, file, group, *number),
            wanted,
            file,
        )?;
    }
    Ok(())
}

/// Asserts of each GroupInfo and number that this breaks the rule.
fn info_breaches(rt: &impl Abort, alloc: Global, rows: &[(&str, u8, &str)]) -> Result<(), Fail> {
    for (file, number, wanted) in rows {
        gives(rt, breach_in_info(alloc, file, *number), wanted, file)?;
    }
    Ok(())
}

const BREACHES: &[(&str, &str, u8, &str)] = &[
    (TWINS, "", 20, "none\n"),
    (TWINS, "", 25, "node: 2\n"),
    (TWINS, "", 26, "leaf: 1\n"),
    (TWINS, "", 51, "leaf: 0\n"),
    (TWINS, "", 52, "none\n"),
    (TWINS, "", 36, "none\n"),
    (TWINS, "", 23, "none\n"),
    (TWINS, "", 24, "none\n"),
    (WRONG_LISTS, "", 23, "node: 5\n"),
    (WRONG_LISTS, "", 24, "none\n"),
    (WRONG_HASHES, "", 23, "none\n"),
    (WRONG_HASHES, "", 24, "node: 5\n"),
    (TWINS, "6", 25, "none\n"),
    ("00", "", 25, "none\n"),
    ("00", "", 24, "none\n"),
    ("03000000", "", 51, "none\n"),
    ("06010201700000", "", 20, "node: 0\n"),
    ("06010201700000", "", 24, "none\n"),
    ("06010201700000", "", 36, "node: 0\n"),
    ("zz", "", 36, "none\n"),
];

#[test]
fn finds_breaches(rt: HostRuntime) -> Result<(), Fail> {
    breaches(&rt, rt.alloc(), BREACHES)
}

const INFO_BREACHES: &[(&str, u8, &str)] = &[
    (GROUP_INFO, 25, "none\n"),
    (GROUP_INFO, 36, "node: 0\n"),
    (GROUP_INFO, 51, "leaf: 0\n"),
    (GROUP_INFO, 76, "none\n"),
    (TWINS, 25, "none\n"),
];

#[test]
fn finds_breaches_in_group_infos(rt: HostRuntime) -> Result<(), Fail> {
    info_breaches(&rt, rt.alloc(), INFO_BREACHES)
}
