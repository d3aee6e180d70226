//! What the rows of tests ask of a tree. These calls promise nothing, and answer numbers: 1 stands for true.

use crate::rows::edits::number;
use mls_tree::{PublicTree, TreeError};
use mls_tree_slot::NodeRef;
use std::alloc::{AllocError, Global};

/// Two numbers.
fn pair(alloc: Global, first: u64, second: u64) -> Result<Vec<u64>, TreeError> {
    Ok(Vec::from_slice(alloc, &[first, second])?)
}

pub(crate) fn counts(alloc: Global, tree: &PublicTree) -> Result<Vec<u64>, TreeError> {
    pair(
        alloc,
        u64::from(tree.leaf_count()),
        u64::from(tree.member_count()),
    )
}

fn has_distinct_keys(tree: &PublicTree) -> bool {
    tree.has_distinct_keys()
}

fn has_distinct_clients(tree: &PublicTree) -> bool {
    tree.has_distinct_clients()
}

pub(crate) fn distinct(alloc: Global, tree: &PublicTree) -> Result<Vec<u64>, TreeError> {
    let keys = has_distinct_keys(tree);
    let clients = has_distinct_clients(tree);
    pair(alloc, u64::from(keys), u64::from(clients))
}

pub(crate) fn resolution(tree: &PublicTree, x: u32) -> Result<Vec<u64>, TreeError> {
    Ok(tree.resolution(x)?)
}

pub(crate) fn is_reached(alloc: Global, tree: &PublicTree, x: u32) -> Result<Vec<u64>, TreeError> {
    number(alloc, u64::from(tree.is_reached(x)))
}

/// Writes numbers in 64 bits.
fn widen(alloc: Global, numbers: &[u32]) -> Result<Vec<u64>, AllocError> {
    let mut list = Vec::new(alloc);
    for number in numbers {
        list.push(u64::from(*number))?;
    }
    Ok(list)
}

/// Writes numbers in 64 bits.
fn widen_counts(alloc: Global, numbers: &[usize]) -> Result<Vec<u64>, AllocError> {
    let mut list = Vec::new(alloc);
    for number in numbers {
        list.push(*number as u64)?;
    }
    Ok(list)
}

pub(crate) fn filtered_path(
    alloc: Global,
    tree: &PublicTree,
    i: u32,
) -> Result<Vec<u64>, TreeError> {
    let path = tree.filtered_path(i)?;
    Ok(widen(alloc, &path)?)
}

pub(crate) fn last_path(alloc: Global, tree: &PublicTree) -> Result<Vec<u64>, TreeError> {
    let path = tree.last_path()?;
    Ok(widen(alloc, &path)?)
}

pub(crate) fn ciphertext_counts(
    alloc: Global,
    tree: &PublicTree,
    i: u32,
    added: &[u32],
) -> Result<Vec<u64>, TreeError> {
    let counts = tree.ciphertext_counts(i, added)?;
    Ok(widen_counts(alloc, &counts)?)
}

pub(crate) fn is_blank(alloc: Global, tree: &PublicTree, x: u32) -> Result<Vec<u64>, TreeError> {
    number(alloc, u64::from(tree.node(x).is_none()))
}

pub(crate) fn parent_hash_length(
    alloc: Global,
    tree: &PublicTree,
    x: u32,
) -> Result<Vec<u64>, TreeError> {
    match tree.node(x) {
        Some(NodeRef::Parent(parent)) => number(alloc, parent.parent_hash().len() as u64),
        _ => Ok(Vec::new(alloc)),
    }
}

/// How many hashes of nodes the tree hash makes.
pub(crate) fn count_new_hashes(tree: &mut PublicTree) -> u64 {
    let before = tree.hashes_done();
    let _tree_hash = tree.tree_hash();
    tree.hashes_done().wrapping_sub(before)
}

pub(crate) fn hashes_made(alloc: Global, tree: &mut PublicTree) -> Result<Vec<u64>, TreeError> {
    number(alloc, count_new_hashes(tree))
}

pub(crate) fn sent_length(alloc: Global, tree: &PublicTree) -> Result<Vec<u64>, TreeError> {
    let nodes = tree.to_nodes()?;
    number(alloc, nodes.len() as u64)
}
