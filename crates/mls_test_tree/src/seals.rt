//! Paths that are sealed in small trees.

use crate::small_trees::{
    OfFour, answers_with, four, has_digits, holds, leaf, next, number_of, of_four, path_secrets,
    sealed_path,
};
use mls_kdf::Secret;
use mls_leaf::LeafNode;
use mls_suite::{Glass, decrypt_with_label};
use mls_tree::PublicTree;
use mls_treekem::{TreeKemError, seal_count_of, seal_seed};
use mls_types::{CiphertextRef, UpdatePathNode};
use std::alloc::Global;

// By Python's hmac and hashlib: ExpandWithLabel of 32 bytes 09, "seed seal" and the number 0x01020304.
const SEED: &str = "78b5f78a15433744c5b820ad2af44cc3ea8c23ef6910a90e1fcd5b37b364dd94";

#[test]
fn seeds_of_seals(rt: HostRuntime) {
    assert!(rt; has_digits(rt.alloc(), &seal_seed(&[9; 32], 0x0102_0304), SEED));
}

/// The first path secret.
const START: Secret = [7; 32];

/// The path that leaf 1 sends in a commit that added these leaves.
fn sealed(
    alloc: Global,
    tree: &PublicTree,
    added: &[u32],
) -> Result<Vec<UpdatePathNode>, TreeKemError> {
    match path_secrets(alloc, &START, 2) {
        Some(path) => sealed_path(alloc, tree, added, &path, &[9; 32]),
        None => Err(TreeKemError::OutOfMemory),
    }
}

/// That path in a tree of four.
fn sealed_in_four(alloc: Global, added: &[u32]) -> Option<Vec<UpdatePathNode>> {
    let tree = four(alloc)?;
    sealed(alloc, &tree, added).ok()
}

/// How many ciphertexts node i has.
fn count_at(nodes: &[UpdatePathNode], i: usize) -> usize {
    match nodes.get(i) {
        Some(node) => node.ciphertexts.len(),
        None => 99,
    }
}

/// Whether a path is of two nodes with so many ciphertexts.
fn have_counts(nodes: &[UpdatePathNode], lower: usize, upper: usize) -> bool {
    nodes.len() == 2 && count_at(nodes, 0) == lower && count_at(nodes, 1) == upper
}

/// Whether the path is of two nodes with so many ciphertexts, and so many in all, in a commit that added these leaves.
fn has_counts(alloc: Global, added: &[u32], lower: usize, upper: usize, seals: u32) -> bool {
    match sealed_in_four(alloc, added) {
        Some(nodes) => have_counts(&nodes, lower, upper) && seal_count_of(&nodes) == seals,
        None => false,
    }
}

/// What a ciphertext opens to by the key of 32 such bytes.
fn decrypt(alloc: Global, byte: u8, sealed: CiphertextRef<'_>) -> Option<Vec<u8>> {
    let (kem, ct) = (sealed.kem_output, sealed.ciphertext);
    decrypt_with_label::<Glass>(alloc, &[byte; 32], "UpdatePathNode", b"context", kem, ct).ok()?
}

fn ciphertext_at(nodes: &[UpdatePathNode], i: usize, place: usize) -> Option<CiphertextRef<'_>> {
    nodes.get(i)?.ciphertexts.get(place)
}

/// What that ciphertext opens to.
fn opened_at(
    alloc: Global,
    nodes: &[UpdatePathNode],
    i: usize,
    place: usize,
    byte: u8,
) -> Option<Vec<u8>> {
    decrypt(alloc, byte, ciphertext_at(nodes, i, place)?)
}

/// What a ciphertext of the path opens to, by the key of 32 such bytes, in a commit that added these leaves.
fn opened(alloc: Global, added: &[u32], i: usize, place: usize, byte: u8) -> Option<Vec<u8>> {
    match sealed_in_four(alloc, added) {
        Some(nodes) => opened_at(alloc, &nodes, i, place, byte),
        None => None,
    }
}

/// Whether that is this secret.
fn opens(alloc: Global, added: &[u32], i: usize, place: usize, byte: u8, secret: &Secret) -> bool {
    match opened(alloc, added, i, place, byte) {
        Some(opened) => opened.as_slice() == secret.as_slice(),
        None => false,
    }
}

/// Leaf 1's filtered direct path in a tree of four.
fn filtered_path(alloc: Global) -> Option<Vec<u32>> {
    four(alloc)?.filtered_path(1).ok()
}

fn filters(alloc: Global, nodes: &[u32]) -> bool {
    match filtered_path(alloc) {
        Some(path) => path.as_slice() == nodes,
        None => false,
    }
}

#[test]
fn a_path_of_four(rt: HostRuntime) {
    let alloc = rt.alloc();
    assert!(rt; filters(alloc, &[1, 3]));
    assert!(rt; has_counts(alloc, &[], 1, 2, 3));
    let second = next(&START);
    assert!(rt; opens(alloc, &[], 0, 0, 0, &START));
    assert!(rt; opens(alloc, &[], 1, 0, 2, &second));
    assert!(rt; opens(alloc, &[], 1, 1, 3, &second));
}

/// The path that leaf 1 sends in the tree of a member.
fn sent_to(alloc: Global, own: &OfFour) -> Option<Vec<UpdatePathNode>> {
    sealed(alloc, &own.tree, &[]).ok()
}

/// Whether a member takes this commit secret of a path.
fn opens_to(own: &mut OfFour, path: &[UpdatePathNode], commit_secret: &Secret) -> bool {
    answers_with(own.open(&[], path), commit_secret)
}

/// Whether leaf i takes this commit secret of the path in a tree of four.
fn takes(alloc: Global, i: u8, commit_secret: &Secret) -> Option<bool> {
    let mut own = of_four(alloc, i)?;
    match sent_to(alloc, &own) {
        Some(path) => Some(opens_to(&mut own, &path, commit_secret)),
        None => None,
    }
}

/// Whether leaf i takes the commit secret of the path in a tree of four.
fn is_taken(alloc: Global, i: u8) -> bool {
    match path_secrets(alloc, &START, 2) {
        Some(made) => holds(takes(alloc, i, &made.commit_secret)),
        None => false,
    }
}

#[test]
fn a_sealed_path_is_opened(rt: HostRuntime) {
    // A leaf beside the committer, and one across the root.
    assert!(rt; is_taken(rt.alloc(), 0));
    assert!(rt; is_taken(rt.alloc(), 3));
}

#[test]
fn a_leaf_just_added_is_left_out(rt: HostRuntime) {
    let alloc = rt.alloc();
    assert!(rt; has_counts(alloc, &[2], 1, 1, 2));
    assert!(rt; opens(alloc, &[2], 1, 0, 3, &next(&START)));
    assert!(rt; has_counts(alloc, &[2, 3], 1, 0, 1));
}

/// Replaces leaf 3.
fn update(tree: &mut PublicTree, leaf: LeafNode) -> Option<()> {
    tree.update(3, leaf).ok()
}

/// A tree of four, in which leaf 3 has an empty key.
fn unfit(alloc: Global) -> Option<Box<PublicTree>> {
    let mut tree = four(alloc)?;
    update(&mut tree, leaf(alloc, Vec::new(alloc))?)?;
    Some(tree)
}

/// Whether a path isn't sealed in that tree since a key isn't fit, in a commit that added these leaves.
fn refuses(alloc: Global, added: &[u32]) -> bool {
    match unfit(alloc) {
        Some(tree) => number_of(sealed(alloc, &tree, added)) == TreeKemError::BadKey.number(),
        None => false,
    }
}

/// Whether a path of so many nodes is sealed in that tree, in a commit that added these leaves.
fn seals(alloc: Global, added: &[u32], count: usize) -> Option<bool> {
    let tree = unfit(alloc)?;
    Some(sealed(alloc, &tree, added).ok()?.len() == count)
}

#[test]
fn a_key_that_is_not_fit(rt: HostRuntime) {
    assert!(rt; refuses(rt.alloc(), &[]));
    assert!(rt; holds(seals(rt.alloc(), &[3], 2)));
}
