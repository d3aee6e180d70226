//! Paths as they are merged, prepared and followed, and the last one.

use crate::rows::Step::{
    Add, AddKeys, Check, Counts, Distinct, FilteredPath, Follow, IsBlank, LastPath, Merge,
    MergeCommitted, MergeGiven, MergeLong, ParentHashLength, Remove, Resolution, Single, Update,
};
use crate::rows::Told::{Done, Is, Refused};
use crate::rows::trees::single;
use crate::rows::{Row, count_met, count_met_rows};
use mls_leaf::{LeafError, LeafSource, parent_hash_input, tree_hash_input_of_leaf};
use mls_tree::{Hash, PublicTree};
use mls_tree_slot::NodeRef;
use sha2::{Digest, Sha256};
use std::alloc::Global;
use std::test::*;

/// Two members, with the keys 1 and 2.
const MERGED: &[Row] = &[
    (Single(1), Done),
    (Add(2), Is(&[1])),
    (Merge(0, 3, 4), Done),
    (Resolution(1), Is(&[1])),
    (FilteredPath(1), Is(&[1])),
];

#[test]
fn a_path_is_merged(rt: HostRuntime) -> Result<(), Fail> {
    assert_eq!(rt; count_met(rt.alloc(), MERGED)?, MERGED.len());
    Ok(())
}

/// Two members, with the keys 1 and 2. The path of each is prepared, then followed, one with the keys of the leaf
/// before.
const FOLLOWED: &[Row] = &[
    (Single(1), Done),
    (Add(2), Is(&[1])),
    (Follow(0, 3, 4), Is(&[1, 2])),
    (Follow(0, 3, 9), Is(&[1, 2])),
    (Resolution(1), Is(&[1])),
    (Merge(1, 3, 5), Refused(25)),
    (Follow(1, 1, 2), Is(&[1, 2])),
    (Distinct, Is(&[1, 1])),
    (Add(6), Is(&[2])),
    (Follow(2, 7, 8), Is(&[1, 3])),
    (Check, Is(&[51])),
];

#[test]
fn a_prepared_path_is_followed(rt: HostRuntime) -> Result<(), Fail> {
    assert_eq!(rt; count_met(rt.alloc(), FOLLOWED)?, FOLLOWED.len());
    Ok(())
}

/// Two members: the path of each shows until a leaf is replaced or the tree grows.
const LAST: &[Row] = &[
    (Single(1), Done),
    (LastPath, Is(&[])),
    (Add(2), Is(&[1])),
    (LastPath, Is(&[])),
    (Merge(1, 3, 4), Done),
    (LastPath, Is(&[1, 2])),
    (Merge(0, 5, 6), Done),
    (LastPath, Is(&[1, 0])),
    (Update(1, 7), Done),
    (LastPath, Is(&[])),
    (Merge(1, 8, 9), Done),
    (LastPath, Is(&[1, 2])),
    (Add(10), Is(&[2])),
    (LastPath, Is(&[])),
];

#[test]
fn the_last_path_is_told(rt: HostRuntime) -> Result<(), Fail> {
    assert_eq!(rt; count_met(rt.alloc(), LAST)?, LAST.len());
    Ok(())
}

const REFUSED: &[Row] = &[
    (Single(1), Done),
    (Add(2), Is(&[1])),
    (MergeCommitted(2, &[4]), Refused(22)),
    (MergeCommitted(0, &[]), Refused(30)),
    (MergeCommitted(0, &[2]), Refused(25)),
    (MergeCommitted(0, &[5]), Refused(24)),
    (Resolution(1), Is(&[0, 2])),
];

#[test]
fn paths_that_are_refused(rt: HostRuntime) -> Result<(), Fail> {
    assert_eq!(rt; count_met(rt.alloc(), REFUSED)?, REFUSED.len());
    Ok(())
}

/// A tree of four leaves, of which leaf 1 is blank until the add.
const LISTED: &[Row] = &[
    (Single(1), Done),
    (AddKeys(2, 5), Done),
    (Remove(1), Done),
    (FilteredPath(0), Is(&[3])),
    (MergeLong(0), Is(&[32])),
    (IsBlank(1), Is(&[1])),
    (Resolution(3), Is(&[3])),
    (LastPath, Is(&[3, 0])),
    (Add(7), Is(&[1])),
    (Resolution(3), Is(&[3, 2])),
    (LastPath, Is(&[3, 0])),
    (Resolution(1), Is(&[0, 2])),
    (IsBlank(5), Is(&[1])),
    (Check, Is(&[51])),
];

#[test]
fn the_next_add_is_listed(rt: HostRuntime) -> Result<(), Fail> {
    assert_eq!(rt; count_met(rt.alloc(), LISTED)?, LISTED.len());
    Ok(())
}

/// A tree of four leaves, of which leaves 0 and 1 are blank.
const BELOW_ROOT: &[Row] = &[
    (Single(1), Done),
    (AddKeys(2, 5), Done),
    (Remove(0), Done),
    (Remove(1), Done),
    (Counts, Is(&[4, 2])),
    (FilteredPath(2), Is(&[5])),
    (MergeLong(2), Is(&[32])),
    (IsBlank(1), Is(&[1])),
    (IsBlank(3), Is(&[1])),
    (ParentHashLength(5), Is(&[0])),
    (LastPath, Is(&[])),
];

#[test]
fn the_highest_filtered_node_is_below_the_root(rt: HostRuntime) -> Result<(), Fail> {
    assert_eq!(rt; count_met(rt.alloc(), BELOW_ROOT)?, BELOW_ROOT.len());
    Ok(())
}

fn sha256(text: &[u8]) -> Hash {
    let mut hasher = Sha256::new();
    hasher.update(text);
    hasher.finalize()
}

/// The input of node 5's parent hash, whose other side is leaf 3.
fn input_of_node_5(alloc: Global, tree: &PublicTree) -> Result<Vec<u8>, LeafError> {
    let sibling = sha256(&tree_hash_input_of_leaf(alloc, 3, tree.leaf(3))?);
    match tree.node(5) {
        Some(NodeRef::Parent(parent)) => parent_hash_input(
            alloc,
            parent.encryption_key(),
            parent.parent_hash(),
            &sibling,
        ),
        _ => Ok(Vec::new(alloc)),
    }
}

/// Whether leaf 2 has this parent hash.
fn leaf_has_hash(tree: &PublicTree, hash: &[u8]) -> bool {
    match tree.leaf(2) {
        Some(leaf) => match &leaf.source {
            LeafSource::Commit { parent_hash } => parent_hash.as_slice() == hash,
            _ => false,
        },
        None => false,
    }
}

/// How long the input of node 5's parent hash is, and whether leaf 2 has its hash.
fn hash_of_node_5(alloc: Global, tree: &PublicTree) -> Result<(usize, bool), LeafError> {
    let input = input_of_node_5(alloc, tree)?;
    let hash = sha256(&input);
    Ok((input.len(), leaf_has_hash(tree, &hash)))
}

/// How many of these rows are met, and what is seen of node 5 after them.
fn hash_below_root(alloc: Global) -> Result<(usize, (usize, bool)), Fail> {
    let mut tree = single(alloc, 1)?;
    let count_met = count_met_rows(alloc, &mut tree, BELOW_ROOT)?;
    Ok((count_met, hash_of_node_5(alloc, &tree)?))
}

#[test]
fn the_highest_parent_hash_is_of_an_empty_one(rt: HostRuntime) -> Result<(), Fail> {
    let seen = hash_below_root(rt.alloc())?;
    assert_eq!(rt; seen, (BELOW_ROOT.len(), (67, true)));
    Ok(())
}

const ALONE: &[Row] = &[
    (Single(1), Done),
    (MergeGiven(&[], &[]), Done),
    (Single(1), Done),
    (MergeGiven(&[1], &[]), Refused(24)),
    (Single(1), Done),
    (MergeGiven(&[], &[3]), Refused(30)),
];

#[test]
fn paths_of_one_member(rt: HostRuntime) -> Result<(), Fail> {
    assert_eq!(rt; count_met(rt.alloc(), ALONE)?, ALONE.len());
    Ok(())
}
