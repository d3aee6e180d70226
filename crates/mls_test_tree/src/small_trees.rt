//! Members of small trees and their keys, for the tests, and the calls that these make. They promise nothing: what a
//! test expects is run, and a proof that carried the clauses of each call would take minutes. They answer None where a
//! call is refused or memory runs out, and give what a test holds in a box, since a proof drops all that is held at
//! each end.

use crate::capabilities::no_capabilities;
use mls_kdf::{Secret, derive_secret};
use mls_leaf::{Bytes, Credential, LeafNode, LeafSource};
use mls_suite::{Glass, KeyPair, Suite};
use mls_tree::PublicTree;
use mls_treekem::{PathSecrets, PrivatePath, TreeKemError, seal_path};
use mls_types::UpdatePathNode;
use std::alloc::Global;

/// A value in a box.
pub(crate) fn boxed<T: Drop>(alloc: Global, value: T) -> Option<Box<T>> {
    Box::new(alloc, value).ok()
}

fn empty(alloc: Global) -> Bytes {
    Bytes::from_vec(Vec::new(alloc))
}

/// A leaf with this encryption key.
pub(crate) fn leaf(alloc: Global, key: Vec<u8>) -> Option<LeafNode> {
    let capabilities = no_capabilities(alloc).ok()?;
    Some(LeafNode {
        encryption_key: Bytes::from_vec(key),
        signature_key: empty(alloc),
        credential: Credential {
            identity: empty(alloc),
        },
        capabilities,
        source: LeafSource::Update,
        signature: empty(alloc),
    })
}

/// The public key of a private key.
pub(crate) fn public(alloc: Global, sk: &Secret) -> Option<Vec<u8>> {
    Glass::public(alloc, sk).ok()
}

/// The key pair of the node with a path secret.
pub(crate) fn node_pair(alloc: Global, secret: &Secret) -> Option<KeyPair> {
    Glass::derive_key_pair(alloc, &derive_secret(secret, "node")).ok()
}

/// The path secret after this one.
pub(crate) fn next(secret: &Secret) -> Secret {
    derive_secret(secret, "path")
}

/// A leaf whose private key is 32 such bytes.
pub(crate) fn member(alloc: Global, byte: u8) -> Option<LeafNode> {
    leaf(alloc, public(alloc, &[byte; 32])?)
}

/// The tree of one member, whose private key is 32 such bytes.
pub(crate) fn single(alloc: Global, byte: u8) -> Option<Box<PublicTree>> {
    boxed(alloc, PublicTree::single(alloc, member(alloc, byte)?).ok()?)
}

/// Adds a member whose private key is 32 such bytes.
pub(crate) fn add(alloc: Global, tree: &mut PublicTree, byte: u8) -> Option<u32> {
    tree.add(member(alloc, byte)?).ok()
}

/// Four members; the private key of each is its leaf index 32 times.
pub(crate) fn four(alloc: Global) -> Option<Box<PublicTree>> {
    let mut tree = single(alloc, 0)?;
    for byte in 1..4 {
        add(alloc, &mut tree, byte)?;
    }
    Some(tree)
}

/// Member i, whose only private key is 32 such bytes.
pub(crate) fn with_key(alloc: Global, i: u32, byte: u8) -> Option<Box<PrivatePath>> {
    boxed(alloc, PrivatePath::new(alloc, i, [byte; 32]))
}

/// The secrets of a path of so many nodes.
pub(crate) fn path_secrets(
    alloc: Global,
    start: &Secret,
    count: usize,
) -> Option<Box<PathSecrets>> {
    boxed(alloc, PathSecrets::new::<Glass>(alloc, start, count).ok()?)
}

/// Makes a path of these nodes.
pub(crate) fn make_path(
    alloc: Global,
    own: &mut PrivatePath,
    start: &Secret,
    filtered: &[u32],
) -> Option<Box<PathSecrets>> {
    boxed(alloc, own.make_path::<Glass>(start, filtered).ok()?)
}

/// Follows the edits, with a new key of the leaf where there is one.
pub(crate) fn follow_edit(
    own: &mut PrivatePath,
    tree: &PublicTree,
    own_key: Option<&Secret>,
) -> Option<()> {
    own.follow_edit(tree, own_key).ok()
}

/// Leaf 1's path, sealed in a commit that added these leaves.
pub(crate) fn sealed_path(
    alloc: Global,
    tree: &PublicTree,
    added: &[u32],
    path: &PathSecrets,
    seed: &Secret,
) -> Result<Vec<UpdatePathNode>, TreeKemError> {
    seal_path::<Glass>(alloc, tree, 1, added, path, b"context", seed)
}

/// Opens leaf 1's path in a commit that added these leaves.
pub(crate) fn open_path(
    own: &mut PrivatePath,
    tree: &PublicTree,
    added: &[u32],
    nodes: &[UpdatePathNode],
) -> Result<Secret, TreeKemError> {
    own.open_path::<Glass>(tree, 1, added, nodes, b"context")
}

/// Takes a path secret as a joiner.
pub(crate) fn take_secret(
    joiner: &mut PrivatePath,
    tree: &PublicTree,
    signer: u32,
    secret: &Secret,
) -> Result<Secret, TreeKemError> {
    joiner.take_secret::<Glass>(tree, signer, secret)
}

/// A member of a tree of four.
#[derive(Drop)]
pub(crate) struct OfFour {
    pub(crate) tree: Box<PublicTree>,
    pub(crate) path: Box<PrivatePath>,
}

impl OfFour {
    /// Opens leaf 1's path in a commit that added these leaves.
    pub(crate) fn open(
        &mut self,
        added: &[u32],
        nodes: &[UpdatePathNode],
    ) -> Result<Secret, TreeKemError> {
        open_path(&mut self.path, &self.tree, added, nodes)
    }
}

/// Leaf i of a tree of four, whose only private key is its leaf index 32 times.
pub(crate) fn of_four(alloc: Global, i: u8) -> Option<Box<OfFour>> {
    let tree = four(alloc)?;
    let path = with_key(alloc, u32::from(i), i)?;
    boxed(alloc, OfFour { tree, path })
}

/// Whether bytes have these digits.
pub(crate) fn has_digits(alloc: Global, bytes: &[u8], digits: &str) -> bool {
    match hex::decode(alloc, digits.as_bytes()) {
        Ok(wanted) => wanted.as_slice() == bytes,
        Err(_) => false,
    }
}

/// Whether there is an answer, and it is true.
pub(crate) fn holds(answer: Option<bool>) -> bool {
    match answer {
        Some(holds) => holds,
        None => false,
    }
}

/// Whether a call gave this secret.
pub(crate) fn answers_with(taken: Result<Secret, TreeKemError>, secret: &Secret) -> bool {
    match taken {
        Ok(given) => given == *secret,
        Err(_) => false,
    }
}

/// The number that a call refused with, 0 where it didn't.
pub(crate) fn number_of<T: Drop>(taken: Result<T, TreeKemError>) -> u8 {
    match taken {
        Ok(_) => 0,
        Err(error) => error.number(),
    }
}

fn keys_of(own: &PrivatePath) -> Option<Vec<(u64, Secret)>> {
    own.keys().ok()
}

fn are_at(keys: &[(u64, Secret)], nodes: &[u64]) -> bool {
    for (key, node) in keys.iter().zip(nodes) {
        if key.0 != *node {
            return false;
        }
    }
    keys.len() == nodes.len()
}

/// Whether it has keys of exactly these nodes.
pub(crate) fn has_nodes(own: &PrivatePath, nodes: &[u64]) -> bool {
    match keys_of(own) {
        Some(keys) => are_at(&keys, nodes),
        None => false,
    }
}

/// The private key in this place among those that it has.
pub(crate) fn key_of(own: &PrivatePath, i: usize) -> Option<Secret> {
    Some(keys_of(own)?.get(i)?.1)
}

/// Whether this is the private key in this place among those that it has.
pub(crate) fn has_key(own: &PrivatePath, i: usize, key: &Secret) -> bool {
    match key_of(own, i) {
        Some(kept) => kept == *key,
        None => false,
    }
}
