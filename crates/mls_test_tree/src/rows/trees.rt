//! Members and small trees, for the rows of tests. They promise nothing: what a test expects is run, and a proof that
//! carried the clauses of each call would take minutes.

use crate::capabilities::no_capabilities;
use mls_leaf::{Bytes, Credential, Items, LeafNode, LeafSource, Node, ParentNode};
use mls_tree::{PublicTree, TreeError};
use mls_tree_slot::Slot;
use std::alloc::{AllocError, Global};

fn bytes(alloc: Global, list: &[u8]) -> Result<Bytes, AllocError> {
    Ok(Bytes::from_slice(alloc, list)?)
}

fn byte(alloc: Global, b: u8) -> Result<Bytes, AllocError> {
    bytes(alloc, &[b])
}

/// The parts of a leaf that are byte strings, all of the same bytes.
#[derive(Drop)]
struct LeafParts {
    encryption_key: Bytes,
    signature_key: Bytes,
    identity: Bytes,
    signature: Bytes,
}

fn parts(alloc: Global, key: &[u8]) -> Result<LeafParts, AllocError> {
    Ok(LeafParts {
        encryption_key: bytes(alloc, key)?,
        signature_key: bytes(alloc, key)?,
        identity: bytes(alloc, key)?,
        signature: bytes(alloc, key)?,
    })
}

/// The leaf of these parts.
fn leaf_of(alloc: Global, parts: LeafParts, source: LeafSource) -> Result<LeafNode, AllocError> {
    let capabilities = no_capabilities(alloc)?;
    Ok(LeafNode {
        encryption_key: parts.encryption_key,
        signature_key: parts.signature_key,
        credential: Credential {
            identity: parts.identity,
        },
        capabilities,
        source,
        signature: parts.signature,
    })
}

/// A leaf with this byte as its encryption key, of a commit with this parent hash.
pub(crate) fn leaf_of_commit(
    alloc: Global,
    key: u8,
    hash: Vec<u8>,
) -> Result<LeafNode, AllocError> {
    let parent_hash = Bytes::from_vec(hash);
    let parts = parts(alloc, &[key])?;
    leaf_of(alloc, parts, LeafSource::Commit { parent_hash })
}

/// A leaf with this byte as its encryption key, which no commit made.
pub(crate) fn member(alloc: Global, key: u8) -> Result<LeafNode, AllocError> {
    let parts = parts(alloc, &[key])?;
    leaf_of(alloc, parts, LeafSource::Update)
}

/// A tree in a box, so that the proof of a test, which drops it at each call that may fail, goes into none of its
/// parts.
pub(crate) fn boxed(alloc: Global, tree: PublicTree) -> Result<Box<PublicTree>, AllocError> {
    Ok(Box::new(alloc, tree)?)
}

/// The tree of one member with this key.
pub(crate) fn single(alloc: Global, key: u8) -> Result<Box<PublicTree>, TreeError> {
    let tree = PublicTree::single(alloc, member(alloc, key)?)?;
    Ok(boxed(alloc, tree)?)
}

/// The tree of these nodes.
fn tree_of(alloc: Global, nodes: Vec<Slot>) -> Result<Box<PublicTree>, TreeError> {
    let tree = PublicTree::from_nodes(nodes)?;
    Ok(boxed(alloc, tree)?)
}

/// The place of a member with this key.
fn member_slot(alloc: Global, key: u8) -> Result<Slot, AllocError> {
    Slot::of(alloc, Node::Leaf(member(alloc, key)?))
}

/// Puts a leaf behind other nodes, of a member with the key 1 or blank.
fn put_leaf(alloc: Global, nodes: &mut Vec<Slot>, is_taken: bool) -> Result<(), AllocError> {
    if is_taken {
        nodes.push(member_slot(alloc, 1)?)?;
    } else {
        nodes.push(Slot::blank())?;
    }
    Ok(())
}

/// The nodes of a tree, up to the last leaf that is taken: its leaves as listed.
fn nodes_of(alloc: Global, leaves: &[bool]) -> Result<Vec<Slot>, AllocError> {
    let mut nodes = Vec::new(alloc);
    for is_taken in leaves {
        if !nodes.is_empty() {
            nodes.push(Slot::blank())?;
        }
        put_leaf(alloc, &mut nodes, *is_taken)?;
    }
    Ok(nodes)
}

/// The tree whose leaves are taken, or blank, as listed.
pub(crate) fn taken_leaves(alloc: Global, leaves: &[bool]) -> Result<Box<PublicTree>, TreeError> {
    tree_of(alloc, nodes_of(alloc, leaves)?)
}

/// The nodes of a tree of so many leaves, all of one member with the key 0, and blank parents.
fn shared_nodes(alloc: Global, leaves: u32) -> Result<Vec<Slot>, AllocError> {
    let leaf = member_slot(alloc, 0)?;
    let mut nodes = Vec::new(alloc);
    for i in 0..leaves {
        if i > 0 {
            nodes.push(Slot::blank())?;
        }
        nodes.push(leaf.clone()?)?;
    }
    Ok(nodes)
}

/// The tree of so many leaves, all of one member with the key 0.
pub(crate) fn all_taken(alloc: Global, leaves: u32) -> Result<Box<PublicTree>, TreeError> {
    tree_of(alloc, shared_nodes(alloc, leaves)?)
}

/// The place of leaf i of a large tree: each taken leaf has keys of its own, of two bytes.
fn slot_of_large_tree(alloc: Global, i: u16) -> Result<Slot, AllocError> {
    if i >= 2000 && i < 2048 {
        return Ok(Slot::blank());
    }
    let parts = parts(alloc, &i.to_be_bytes())?;
    Slot::of(
        alloc,
        Node::Leaf(leaf_of(alloc, parts, LeafSource::Update)?),
    )
}

fn nodes_of_large_tree(alloc: Global) -> Result<Vec<Slot>, AllocError> {
    let mut nodes = Vec::new(alloc);
    for i in 0..2050u16 {
        if i > 0 {
            nodes.push(Slot::blank())?;
        }
        nodes.push(slot_of_large_tree(alloc, i)?)?;
    }
    Ok(nodes)
}

/// Members at the first 2,000 leaves of 4,096, and at leaves 2,048 and 2,049, each with keys of its own.
pub(crate) fn large_tree(alloc: Global) -> Result<Box<PublicTree>, TreeError> {
    tree_of(alloc, nodes_of_large_tree(alloc)?)
}

/// A parent with the key 9 that lists these leaves.
fn parent(alloc: Global, hash: Bytes, leaves: Vec<u32>) -> Result<Slot, AllocError> {
    match ParentNode::new(byte(alloc, 9)?, hash, Items::from_vec(leaves)) {
        Ok(parent) => Slot::of(alloc, Node::Parent(parent)),
        Err(_) => Ok(Slot::blank()),
    }
}

/// Leaves 0, 2 and 3 of four, of which leaf 3 is unmerged at its parent.
pub(crate) fn tree_with_unmerged(alloc: Global) -> Result<Box<PublicTree>, TreeError> {
    let mut nodes = nodes_of(alloc, &[true, false, true, true])?;
    let listing = parent(alloc, byte(alloc, 9)?, Vec::from_slice(alloc, &[3])?)?;
    if let Some(root) = nodes.get_mut(5) {
        *root = listing;
    }
    tree_of(alloc, nodes)
}

/// Members with the keys 1 to 5 at leaves 0 to 4 of eight, and a parent with the key 9 over the blank leaves 6 and 7.
fn odd_nodes(alloc: Global) -> Result<Vec<Slot>, AllocError> {
    let mut nodes = Vec::new(alloc);
    for key in 1..6 {
        nodes.push(member_slot(alloc, key)?)?;
        nodes.push(Slot::blank())?;
    }
    for _ in 0..3 {
        nodes.push(Slot::blank())?;
    }
    let hash = Bytes::from_vec(Vec::new(alloc));
    nodes.push(parent(alloc, hash, Vec::new(alloc))?)?;
    Ok(nodes)
}

/// The tree of these.
pub(crate) fn odd_tree(alloc: Global) -> Result<Box<PublicTree>, TreeError> {
    tree_of(alloc, odd_nodes(alloc)?)
}

/// A copy of the tree.
pub(crate) fn copy_of(alloc: Global, tree: &PublicTree) -> Result<Box<PublicTree>, AllocError> {
    boxed(alloc, tree.clone()?)
}
