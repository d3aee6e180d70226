//! Leaves, parents, key packages, proposals and the inputs that are made of them.

use crate::digits::{answers, bytes_of, holds, spells, value_of};
use mls_types::*;
use std::alloc::Global;
use std::test::Fail;

/// Version 1, suite f001, the keys aa, bb and cc, the identity "bob", a lifetime of all times, and the
/// signatures dd and ee.
const KEY_PACKAGE: &str =
    "0001f00101aa01bb01cc000103626f6202000102f0010000020001010000000000000000ffffffffffffffff0001dd0001ee";

/// The `KEY_PACKAGE` without its signature.
const KEY_PACKAGE_TBS: &str =
    "0001f00101aa01bb01cc000103626f6202000102f0010000020001010000000000000000ffffffffffffffff0001dd00";

/// The leaf of `KEY_PACKAGE` with the source update.
const UPDATED_LEAF: &str = "01bb01cc000103626f6202000102f0010000020001020001dd";

/// What is signed of `UPDATED_LEAF` in the group 6701 at leaf 5.
const SIGNED_LEAF: &str = "01bb01cc000103626f6202000102f0010000020001020002670100000005";

/// Whether these fields of the KeyPackage are so.
fn has_parts(key_package: &KeyPackage, suite: u16, init_key: &[u8], identity: &[u8]) -> bool {
    key_package.cipher_suite == suite
        && key_package.init_key.as_slice() == init_key
        && key_package.leaf_node.credential.identity.as_slice() == identity
}

fn is_of_bob(alloc: Global) -> Result<bool, LeafError> {
    let key_package = value_of::<KeyPackage>(alloc, KEY_PACKAGE)?;
    Ok(has_parts(&key_package, 0xf001, &[0xaa], b"bob"))
}

#[test]
fn key_packages(rt: HostRuntime) -> Result<(), Fail> {
    one_spelling::<KeyPackage>();
    holds(
        &rt,
        is_of_bob(rt.alloc()),
        "suite f001, the init key aa, bob",
    )
}

fn signed_key_package(alloc: Global) -> Result<Vec<u8>, LeafError> {
    let key_package = value_of::<KeyPackage>(alloc, KEY_PACKAGE)?;
    key_package.to_be_signed(alloc)
}

#[test]
fn signed_key_packages(rt: HostRuntime) -> Result<(), Fail> {
    let alloc = rt.alloc();
    spells(&rt, alloc, signed_key_package(alloc), KEY_PACKAGE_TBS)
}

/// Whether the KeyPackage that these digits spell has this reference.
fn is_named(alloc: Global, key_package: &str, reference: &str) -> Result<bool, LeafError> {
    let bytes = bytes_of(alloc, key_package)?;
    let wanted = bytes_of(alloc, reference)?;
    if bytes.len() > 1_000 {
        return Ok(false);
    }
    Ok(key_package_reference(&bytes).as_slice() == wanted.as_slice())
}

#[test]
fn key_package_references(rt: HostRuntime) -> Result<(), Fail> {
    // SHA-256 by Python's hashlib
    let reference = "02d8c9ad0ef00d3153d9cc6492f815b88f0e4f81e3198e89c309f42b8a67b132";
    holds(&rt, is_named(rt.alloc(), KEY_PACKAGE, reference), reference)
}

const KEY_PACKAGES: &[(&str, u8)] = &[
    (KEY_PACKAGE, 0),
    // cut
    (
        "0001f00101aa01bb01cc000103626f6202000102f0010000020001010000000000000000ffffffffffffffff0001dd0001",
        2,
    ),
    // another credential
    ("0001f00101aa01bb01cc0002", 11),
    // another version
    ("0002f00101aa01bb01cc0002", 7),
];

#[test]
fn key_packages_refused(rt: HostRuntime) -> Result<(), Fail> {
    answers::<KeyPackage>(&rt, rt.alloc(), KEY_PACKAGES)
}

/// Whether the leaves that these digits spell are equal.
fn are_equal(alloc: Global, one: &str, other: &str) -> Result<bool, LeafError> {
    let one = value_of::<LeafNode>(alloc, one)?;
    let other = value_of::<LeafNode>(alloc, other)?;
    Ok(*one == *other)
}

/// Whether a leaf is equal to itself and not to one with another signature.
fn are_told_apart(alloc: Global) -> Result<bool, LeafError> {
    let other_signature = "01bb01cc000103626f6202000102f0010000020001020001de";
    Ok(
        are_equal(alloc, UPDATED_LEAF, UPDATED_LEAF)?
            && !are_equal(alloc, UPDATED_LEAF, other_signature)?,
    )
}

#[test]
fn leaves_compared(rt: HostRuntime) -> Result<(), Fail> {
    laws_of_equality();
    laws_of_signed_parts();
    holds(&rt, are_told_apart(rt.alloc()), "the signatures dd and de")
}

/// Whether the capabilities of a leaf are those of its lists, and support what these have.
fn are_kept(alloc: Global) -> Result<bool, LeafError> {
    let leaf = value_of::<LeafNode>(alloc, UPDATED_LEAF)?;
    let lists = leaf.capabilities.to_lists(alloc)?;
    let made = SpelledCapabilities::of(alloc, &lists)?;
    Ok(
        made == leaf.capabilities
            && made.bytes() == [2, 0, 1, 2, 0xf0, 1, 0, 0, 2, 0, 1].as_slice()
            && made.support(1, 0xf001, 1)
            && !made.support(1, 0xf002, 1),
    )
}

#[test]
fn capabilities(rt: HostRuntime) -> Result<(), Fail> {
    holds(
        &rt,
        are_kept(rt.alloc()),
        "version 1, suite f001, credential 1",
    )
}

fn is_extension(alloc: Global, digits: &str, kind: u16, data: &[u8]) -> Result<bool, LeafError> {
    let extension = value_of::<Extension>(alloc, digits)?;
    Ok(extension.kind == kind && extension.content.as_slice() == data)
}

#[test]
fn extensions(rt: HostRuntime) -> Result<(), Fail> {
    let found = is_extension(rt.alloc(), "000302aabb", 3, &[0xaa, 0xbb]);
    holds(&rt, found, "type 3, the data aabb")
}

const EXTENSIONS: &[(&str, u8)] = &[("000302aabb", 0), ("000302aa", 2)];

#[test]
fn extensions_refused(rt: HostRuntime) -> Result<(), Fail> {
    answers::<Extension>(&rt, rt.alloc(), EXTENSIONS)
}

fn is_removal(alloc: Global, digits: &str) -> Result<bool, LeafError> {
    let proposal = value_of::<Proposal>(alloc, digits)?;
    Ok(matches!(*proposal, Proposal::Remove(5)))
}

#[test]
fn proposals(rt: HostRuntime) -> Result<(), Fail> {
    holds(
        &rt,
        is_removal(rt.alloc(), "000300000005"),
        "the removal of 5",
    )
}

const PROPOSALS: &[(&str, u8)] = &[
    ("000300000005", 0),
    ("0003000000", 2),
    ("0004", 12),
    ("0007", 2),
    // the extensions of a group: one, none, a type of another range, one type twice, data that run over the list
    ("000705f001026869", 0),
    ("000700", 0),
    ("0007050003026869", 14),
    ("000706f00100f00100", 14),
    ("000704f00105aa", 2),
];

#[test]
fn proposals_refused(rt: HostRuntime) -> Result<(), Fail> {
    answers::<Proposal>(&rt, rt.alloc(), PROPOSALS)
}

fn is_spelled_out(error: LeafError, name: &str) -> Result<bool, LeafError> {
    Ok(error.name() == name)
}

#[test]
fn refusals_named(rt: HostRuntime) -> Result<(), Fail> {
    let name = "UnsupportedProposal";
    holds(
        &rt,
        is_spelled_out(LeafError::UnsupportedProposal, name),
        name,
    )
}

/// A parent that lists 1 and 3, once 2 and 3 have been inserted.
fn insert_two_leaves(alloc: Global) -> Result<Vec<u8>, LeafError> {
    let mut parent = value_of::<ParentNode>(alloc, "01aa00080000000100000003")?;
    parent.insert_unmerged(2)?;
    parent.insert_unmerged(3)?;
    parent.encode(alloc)
}

#[test]
fn parents_listed(rt: HostRuntime) -> Result<(), Fail> {
    let alloc = rt.alloc();
    spells(
        &rt,
        alloc,
        insert_two_leaves(alloc),
        "01aa000c000000010000000200000003",
    )
}

fn is_parent(alloc: Global, digits: &str, key: &[u8], leaves: &[u32]) -> Result<bool, LeafError> {
    let parent = value_of::<ParentNode>(alloc, digits)?;
    Ok(parent.encryption_key() == key && parent.unmerged_leaves() == leaves)
}

#[test]
fn parents(rt: HostRuntime) -> Result<(), Fail> {
    let found = is_parent(rt.alloc(), "01aa00080000000100000003", &[0xaa], &[1, 3]);
    holds(&rt, found, "the key aa, leaves 1 and 3")
}

/// A parent of the parts of another, whose list does not rise.
fn parent_with_falling_leaves(alloc: Global) -> Result<ParentNode, LeafError> {
    let list = Items::from_vec(vec![in alloc; 2, 1]?);
    let parent = ParentNode::decode(alloc, &bytes_of(alloc, "01aa0000")?)?;
    let (encryption_key, parent_hash, _) = parent.into_parts();
    ParentNode::new(encryption_key, parent_hash, list)
}

fn is_not_rising(alloc: Global) -> Result<bool, LeafError> {
    match parent_with_falling_leaves(alloc) {
        Ok(_) => Ok(false),
        Err(LeafError::NotRising) => Ok(true),
        Err(error) => Err(error),
    }
}

#[test]
fn falling_parents(rt: HostRuntime) -> Result<(), Fail> {
    holds(&rt, is_not_rising(rt.alloc()), "leaves 2 and 1")
}

const PARENTS: &[(&str, u8)] = &[("01aa00080000000200000001", 13), ("01aa00050000000100", 2)];

#[test]
fn parents_refused(rt: HostRuntime) -> Result<(), Fail> {
    answers::<ParentNode>(&rt, rt.alloc(), PARENTS)
}

#[test]
fn nodes_refused(rt: HostRuntime) -> Result<(), Fail> {
    answers::<Node>(&rt, rt.alloc(), &[("03", 7)])
}

fn signed_leaf(alloc: Global) -> Result<Vec<u8>, LeafError> {
    let leaf = value_of::<LeafNode>(alloc, UPDATED_LEAF)?;
    leaf.to_be_signed(alloc, &[0x67, 1], 5)
}

#[test]
fn inputs(rt: HostRuntime) -> Result<(), Fail> {
    let alloc = rt.alloc();
    let blank_leaf = tree_hash_input_of_leaf(alloc, 1, None);
    spells(&rt, alloc, blank_leaf, "010000000100")?;
    let blank_parent = tree_hash_input_of_parent(alloc, None, &[0xaa], &[0xbb, 0xcc]);
    spells(&rt, alloc, blank_parent, "020001aa02bbcc")?;
    let parent_hash = parent_hash_input(alloc, &[0xaa], &[], &[0xbb]);
    spells(&rt, alloc, parent_hash, "01aa0001bb")?;
    spells(&rt, alloc, signed_leaf(alloc), SIGNED_LEAF)
}
