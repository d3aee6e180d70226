//! Leaf 1's path in a tree of four members, as the others open it.

use crate::small_trees::{
    OfFour, answers_with, has_nodes, holds, next, node_pair, number_of, of_four, path_secrets,
    public,
};
use mls_kdf::Secret;
use mls_leaf::Bytes;
use mls_suite::{Glass, Sealed, encrypt_with_label};
use mls_types::{Ciphertexts, HpkeCiphertext, UpdatePathNode};
use std::alloc::Global;

/// The first path secret.
const START: Secret = [7; 32];

/// A text sealed to a public key.
fn encrypt(alloc: Global, pk: &[u8], text: &[u8]) -> Option<Sealed> {
    encrypt_with_label::<Glass>(alloc, pk, "UpdatePathNode", b"context", text, &[9; 32]).ok()?
}

fn ciphertext(sealed: Sealed) -> HpkeCiphertext {
    HpkeCiphertext {
        kem_output: Bytes::from_vec(sealed.kem),
        ciphertext: Bytes::from_vec(sealed.ct),
    }
}

/// A text sealed to the key of a private key of 32 such bytes.
fn seal(alloc: Global, key: u8, text: &[u8]) -> Option<HpkeCiphertext> {
    let pk = public(alloc, &[key; 32])?;
    Some(ciphertext(encrypt(alloc, &pk, text)?))
}

/// A text sealed to each of some keys.
fn seal_to_each(alloc: Global, keys: &[u8], text: &[u8]) -> Option<Ciphertexts> {
    let mut ciphertexts = Vec::new(alloc);
    for key in keys {
        ciphertexts.push(seal(alloc, *key, text)?).ok()?;
    }
    Some(Ciphertexts::from_vec(ciphertexts))
}

fn node_of(key: Vec<u8>, ciphertexts: Ciphertexts) -> UpdatePathNode {
    UpdatePathNode {
        encryption_key: Bytes::from_vec(key),
        ciphertexts,
    }
}

/// Pushes the node of a path secret, with these ciphertexts.
fn push_node(
    alloc: Global,
    nodes: &mut Vec<UpdatePathNode>,
    secret: &Secret,
    ciphertexts: Ciphertexts,
) -> Option<()> {
    let pair = node_pair(alloc, secret)?;
    nodes.push(node_of(pair.pk, ciphertexts)).ok()
}

/// The lower node of leaf 1's path.
fn lower_node(alloc: Global) -> Option<Vec<UpdatePathNode>> {
    let mut nodes = Vec::new(alloc);
    push_node(
        alloc,
        &mut nodes,
        &START,
        seal_to_each(alloc, &[0], &START)?,
    )?;
    Some(nodes)
}

/// Leaf 1's path, whose highest node is that of a path secret, with these ciphertexts.
fn path_of(
    alloc: Global,
    highest: &Secret,
    ciphertexts: Ciphertexts,
) -> Option<Vec<UpdatePathNode>> {
    let mut nodes = lower_node(alloc)?;
    push_node(alloc, &mut nodes, highest, ciphertexts)?;
    Some(nodes)
}

/// That path, with a text sealed to some keys at its highest node.
fn path(alloc: Global, highest: &Secret, keys: &[u8], text: &[u8]) -> Option<Vec<UpdatePathNode>> {
    path_of(alloc, highest, seal_to_each(alloc, keys, text)?)
}

/// The path secret of the root.
fn second() -> Secret {
    next(&START)
}

/// The commit secret of leaf 1's path.
fn commit_secret(alloc: Global) -> Option<Secret> {
    Some(path_secrets(alloc, &START, 2)?.commit_secret)
}

/// Whether a member opens a path to this commit secret, and has keys of these nodes then.
fn opens_to(
    own: &mut OfFour,
    added: &[u32],
    path: &[UpdatePathNode],
    commit_secret: &Secret,
    nodes: &[u64],
) -> bool {
    answers_with(own.open(added, path), commit_secret) && has_nodes(&own.path, nodes)
}

/// Whether leaf i opens a path in a commit that added these leaves, and has keys of these nodes then.
fn is_opened(
    alloc: Global,
    i: u8,
    added: &[u32],
    path: &[UpdatePathNode],
    nodes: &[u64],
) -> Option<bool> {
    let commit_secret = commit_secret(alloc)?;
    match of_four(alloc, i) {
        Some(mut own) => Some(opens_to(&mut own, added, path, &commit_secret, nodes)),
        None => None,
    }
}

/// Whether leaf i so opens leaf 1's path.
fn opens(alloc: Global, i: u8, added: &[u32], keys: &[u8], nodes: &[u64]) -> bool {
    match path(alloc, &second(), keys, &second()) {
        Some(path) => holds(is_opened(alloc, i, added, &path, nodes)),
        None => false,
    }
}

#[test]
fn opened_by_each_member(rt: HostRuntime) {
    let alloc = rt.alloc();
    assert!(rt; opens(alloc, 0, &[], &[2, 3], &[0, 1, 3]));
    assert!(rt; opens(alloc, 2, &[], &[2, 3], &[3, 4]));
    assert!(rt; opens(alloc, 3, &[], &[2, 3], &[3, 6]));
}

#[test]
fn added_leaves_have_no_ciphertext(rt: HostRuntime) {
    assert!(rt; opens(rt.alloc(), 3, &[2], &[3], &[3, 6]));
}

/// Whether leaf i refuses a path with this number, and has its leaf's key alone then; 0 where it opens it.
fn is_refused(alloc: Global, i: u8, path: &[UpdatePathNode], number: u8) -> bool {
    match of_four(alloc, i) {
        Some(mut own) => {
            number_of(own.open(&[], path)) == number
                && (number == 0 || has_nodes(&own.path, &[u64::from(i) * 2]))
        }
        None => false,
    }
}

/// Whether leaf i refuses with this number the path, whose highest node has this path secret.
fn refuses(alloc: Global, i: u8, highest: &Secret, keys: &[u8], text: &[u8], number: u8) -> bool {
    match path(alloc, highest, keys, text) {
        Some(path) => is_refused(alloc, i, &path, number),
        None => false,
    }
}

#[test]
fn paths_that_are_refused(rt: HostRuntime) {
    let alloc = rt.alloc();
    let text = second();
    assert!(rt; refuses(alloc, 2, &text, &[2, 3], &text, 0));
    assert!(rt; refuses(alloc, 2, &text, &[3, 3], &text, 32));
    assert!(rt; refuses(alloc, 2, &text, &[], &text, 32));
    assert!(rt; refuses(alloc, 2, &text, &[2, 3], &[5; 31], 33));
    assert!(rt; refuses(alloc, 2, &[8; 32], &[2, 3], &text, 34));
}

#[test]
fn another_chain_above(rt: HostRuntime) {
    assert!(rt; refuses(rt.alloc(), 0, &[8; 32], &[2, 3], &second(), 34));
}

/// A ciphertext with one bit changed.
fn change_bit(alloc: Global, sealed: HpkeCiphertext) -> Option<HpkeCiphertext> {
    let mut changed = Vec::from_slice(alloc, sealed.ciphertext.as_slice()).ok()?;
    if let Some(byte) = changed.first_mut() {
        *byte ^= 1;
    }
    Some(HpkeCiphertext {
        kem_output: sealed.kem_output,
        ciphertext: Bytes::from_vec(changed),
    })
}

/// A ciphertext alone.
fn alone(alloc: Global, sealed: HpkeCiphertext) -> Option<Ciphertexts> {
    let mut ciphertexts = Vec::new(alloc);
    ciphertexts.push(sealed).ok()?;
    Some(Ciphertexts::from_vec(ciphertexts))
}

/// The root's path secret sealed to leaf 2, with one bit changed.
fn changed_ciphertext(alloc: Global) -> Option<HpkeCiphertext> {
    change_bit(alloc, seal(alloc, 2, &second())?)
}

fn changed_alone(alloc: Global) -> Option<Ciphertexts> {
    alone(alloc, changed_ciphertext(alloc)?)
}

/// Leaf 1's path, whose root has its path secret sealed to leaf 2, with one bit changed.
fn changed_path(alloc: Global) -> Option<Vec<UpdatePathNode>> {
    let ciphertexts = changed_alone(alloc)?;
    path_of(alloc, &second(), ciphertexts)
}

/// Whether leaf 2 refuses that path with this number.
fn refuses_changed(alloc: Global, number: u8) -> bool {
    match changed_path(alloc) {
        Some(path) => is_refused(alloc, 2, &path, number),
        None => false,
    }
}

#[test]
fn a_changed_ciphertext(rt: HostRuntime) {
    assert!(rt; refuses_changed(rt.alloc(), 32));
}
