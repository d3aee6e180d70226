//! Edits of a tree by the rows of tests. They promise nothing, and answer numbers.

use crate::rows::trees::{copy_of, leaf_of_commit, member};
use mls_leaf::{Bytes, LeafNode, LeafSource};
use mls_tree::{Hash, PublicTree, TreeError};
use std::alloc::{AllocError, Global};

/// No numbers, where the edit was made.
fn done(alloc: Global, outcome: Result<(), TreeError>) -> Result<Vec<u64>, TreeError> {
    match outcome {
        Ok(()) => Ok(Vec::new(alloc)),
        Err(error) => Err(error),
    }
}

/// One number.
pub(crate) fn number(alloc: Global, number: u64) -> Result<Vec<u64>, TreeError> {
    Ok(Vec::from_slice(alloc, &[number])?)
}

/// Puts a tree in place of another.
pub(crate) fn begin(
    alloc: Global,
    tree: &mut Box<PublicTree>,
    new: Result<Box<PublicTree>, TreeError>,
) -> Result<Vec<u64>, TreeError> {
    *tree = new?;
    Ok(Vec::new(alloc))
}

pub(crate) fn add(alloc: Global, tree: &mut PublicTree, key: u8) -> Result<Vec<u64>, TreeError> {
    let i = tree.add(member(alloc, key)?)?;
    number(alloc, u64::from(i))
}

pub(crate) fn add_keys(
    alloc: Global,
    tree: &mut PublicTree,
    from: u8,
    to: u8,
) -> Result<Vec<u64>, TreeError> {
    for key in from..to {
        add(alloc, tree, key)?;
    }
    Ok(Vec::new(alloc))
}

pub(crate) fn update(
    alloc: Global,
    tree: &mut PublicTree,
    i: u32,
    key: u8,
) -> Result<Vec<u64>, TreeError> {
    done(alloc, tree.update(i, member(alloc, key)?))
}

pub(crate) fn remove(alloc: Global, tree: &mut PublicTree, i: u32) -> Result<Vec<u64>, TreeError> {
    done(alloc, tree.remove(i))
}

/// So many bytes of this value.
fn key_of(alloc: Global, byte: u8, length: usize) -> Result<Bytes, AllocError> {
    let mut key = Vec::new(alloc);
    for _ in 0..length {
        key.push(byte)?;
    }
    Ok(Bytes::from_vec(key))
}

/// A key of this length for each byte.
fn keys_of(alloc: Global, bytes: &[u8], length: usize) -> Result<Vec<Bytes>, AllocError> {
    let mut keys = Vec::new(alloc);
    for byte in bytes {
        keys.push(key_of(alloc, *byte, length)?)?;
    }
    Ok(keys)
}

fn path_hash(tree: &mut PublicTree, i: u32, keys: Vec<Bytes>) -> Result<Vec<u8>, TreeError> {
    tree.path_parent_hash(i, &keys)
}

/// The leaf with this key of a commit with this parent hash, in a box.
fn committed_leaf(alloc: Global, key: u8, hash: Vec<u8>) -> Result<Box<LeafNode>, AllocError> {
    let leaf = leaf_of_commit(alloc, key, hash)?;
    Ok(Box::new(alloc, leaf)?)
}

/// The parent hash of member i's path, which has one key of this byte and length.
fn hash_for(
    alloc: Global,
    tree: &mut PublicTree,
    i: u32,
    key: (u8, usize),
) -> Result<Vec<u8>, TreeError> {
    let (byte, length) = key;
    let keys = keys_of(alloc, &[byte], length)?;
    path_hash(tree, i, keys)
}

/// The leaf with the key `own` of a commit by member i, whose path has one key of this byte and length.
fn committed_leaf_for(
    alloc: Global,
    tree: &mut PublicTree,
    i: u32,
    own: u8,
    key: (u8, usize),
) -> Result<Box<LeafNode>, TreeError> {
    let hash = hash_for(alloc, tree, i, key)?;
    Ok(committed_leaf(alloc, own, hash)?)
}

fn merge_path(
    tree: &mut PublicTree,
    i: u32,
    leaf: Box<LeafNode>,
    keys: Vec<Bytes>,
) -> Result<(), TreeError> {
    tree.merge_path(i, Box::into_inner(leaf), keys)
}

/// Merges member i's path with a key of this length for each byte.
fn merge_keys(
    alloc: Global,
    tree: &mut PublicTree,
    i: u32,
    leaf: Box<LeafNode>,
    bytes: &[u8],
    length: usize,
) -> Result<Vec<u64>, TreeError> {
    let keys = keys_of(alloc, bytes, length)?;
    done(alloc, merge_path(tree, i, leaf, keys))
}

pub(crate) fn merge(
    alloc: Global,
    tree: &mut PublicTree,
    i: u32,
    own: u8,
    key: u8,
) -> Result<Vec<u64>, TreeError> {
    let leaf = committed_leaf_for(alloc, tree, i, own, (key, 1))?;
    merge_keys(alloc, tree, i, leaf, &[key], 1)
}

/// How long the parent hash of this leaf is.
fn hash_length(leaf: &LeafNode) -> u64 {
    match &leaf.source {
        LeafSource::Commit { parent_hash } => parent_hash.as_slice().len() as u64,
        _ => 0,
    }
}

/// Merges member i's path with these keys of one byte, whose leaf has the key `own` and the path's parent hash.
pub(crate) fn merge_all(
    alloc: Global,
    tree: &mut PublicTree,
    i: u32,
    own: u8,
    keys: &[u8],
) -> Result<Vec<u64>, TreeError> {
    let hash = path_hash(tree, i, keys_of(alloc, keys, 1)?)?;
    let leaf = committed_leaf(alloc, own, hash)?;
    merge_keys(alloc, tree, i, leaf, keys, 1)
}

/// Lets later copies share what the tree has.
pub(crate) fn share(alloc: Global, tree: &mut PublicTree) -> Result<Vec<u64>, TreeError> {
    tree.share();
    Ok(Vec::new(alloc))
}

pub(crate) fn merge_long(
    alloc: Global,
    tree: &mut PublicTree,
    i: u32,
) -> Result<Vec<u64>, TreeError> {
    let leaf = committed_leaf_for(alloc, tree, i, 8, (9, 32))?;
    let length = hash_length(&leaf);
    merge_keys(alloc, tree, i, leaf, &[9], 32)?;
    number(alloc, length)
}

pub(crate) fn merge_committed(
    alloc: Global,
    tree: &mut PublicTree,
    i: u32,
    keys: &[u8],
) -> Result<Vec<u64>, TreeError> {
    let leaf = committed_leaf_for(alloc, tree, 0, 3, (4, 1))?;
    merge_keys(alloc, tree, i, leaf, keys, 1)
}

pub(crate) fn merge_given(
    alloc: Global,
    tree: &mut PublicTree,
    hash: &[u8],
    keys: &[u8],
) -> Result<Vec<u64>, TreeError> {
    let leaf = committed_leaf(alloc, 2, Vec::from_slice(alloc, hash)?)?;
    merge_keys(alloc, tree, 0, leaf, keys, 1)
}

/// Prepares a path and follows it. The tree hash that it had is the answer.
fn follow_path(
    tree: &mut PublicTree,
    i: u32,
    leaf: Box<LeafNode>,
    keys: Vec<Bytes>,
) -> Result<Hash, TreeError> {
    let _tree_hash = tree.tree_hash();
    let path = tree.prepare_path(i, Box::into_inner(leaf), keys)?;
    let told = path.tree_hash();
    tree.follow_path(path)?;
    Ok(told)
}

/// Prepares member i's path of one parent and follows it.
fn follow_key(
    alloc: Global,
    tree: &mut PublicTree,
    i: u32,
    leaf: Box<LeafNode>,
    key: u8,
) -> Result<Hash, TreeError> {
    let keys = keys_of(alloc, &[key], 1)?;
    follow_path(tree, i, leaf, keys)
}

fn tree_hash(tree: &mut PublicTree) -> Hash {
    tree.tree_hash()
}

fn hashes_done(tree: &PublicTree) -> u64 {
    tree.hashes_done()
}

fn copy_leaf(alloc: Global, leaf: &LeafNode) -> Result<Box<LeafNode>, TreeError> {
    let copy = leaf.clone()?;
    Ok(Box::new(alloc, copy)?)
}

/// The tree hash of a copy which the path is merged into.
fn merged_hash(
    alloc: Global,
    tree: &PublicTree,
    i: u32,
    leaf: &LeafNode,
    key: u8,
) -> Result<Hash, TreeError> {
    let leaf = copy_leaf(alloc, leaf)?;
    let mut copy = copy_of(alloc, tree)?;
    merge_keys(alloc, &mut copy, i, leaf, &[key], 1)?;
    Ok(tree_hash(&mut copy))
}

/// Prepares member i's path of one parent and follows it, and merges it into a copy.
pub(crate) fn follow(
    alloc: Global,
    tree: &mut PublicTree,
    i: u32,
    own: u8,
    key: u8,
) -> Result<Vec<u64>, TreeError> {
    let leaf = committed_leaf_for(alloc, tree, i, own, (key, 1))?;
    let merged = merged_hash(alloc, tree, i, &leaf, key)?;
    let before = hashes_done(tree);
    let told = follow_key(alloc, tree, i, leaf, key)?;
    let same = told == tree_hash(tree) && told == merged;
    let made = hashes_done(tree).saturating_sub(before);
    Ok(Vec::from_slice(alloc, &[u64::from(same), made])?)
}
