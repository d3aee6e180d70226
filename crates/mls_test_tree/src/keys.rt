//! Secrets of paths, and the keys that a member has.

use crate::small_trees::{
    add, boxed, follow_edit, has_key, has_nodes, make_path, next, node_pair, path_secrets, single,
    with_key,
};
use mls_kdf::Secret;
use mls_suite::KeyPair;
use mls_tree::PublicTree;
use mls_treekem::{PathSecrets, PrivatePath, TreeKemError};
use std::alloc::Global;

/// The first path secret.
const START: Secret = [7; 32];

/// Whether the path of so many nodes has these secrets.
fn has_secrets(alloc: Global, count: usize, secrets: &[Secret], commit_secret: &Secret) -> bool {
    match path_secrets(alloc, &START, count) {
        Some(made) => made.secrets.as_slice() == secrets && made.commit_secret == *commit_secret,
        None => false,
    }
}

/// Whether a key pair is that of the node with a path secret.
fn is_node_pair(alloc: Global, secret: &Secret, pair: &KeyPair) -> bool {
    match node_pair(alloc, secret) {
        Some(made) => pair.sk == made.sk && pair.pk.as_slice() == made.pk.as_slice(),
        None => false,
    }
}

/// Whether each key pair is that of its secret's node.
fn are_node_pairs(alloc: Global, made: &PathSecrets) -> bool {
    for (secret, pair) in made.secrets.iter().zip(made.pairs.iter()) {
        if !is_node_pair(alloc, secret, pair) {
            return false;
        }
    }
    true
}

/// Whether the path of so many nodes has the key pairs of its secrets' nodes.
fn has_node_pairs(alloc: Global, count: usize) -> bool {
    match path_secrets(alloc, &START, count) {
        Some(made) => are_node_pairs(alloc, &made),
        None => false,
    }
}

#[test]
fn secrets_of_paths(rt: HostRuntime) {
    let alloc = rt.alloc();
    assert!(rt; has_secrets(alloc, 0, &[], &START));
    let second = next(&START);
    assert!(rt; has_secrets(alloc, 2, &[START, second], &next(&second)));
    assert!(rt; has_node_pairs(alloc, 2));
}

#[test]
fn new_path(rt: HostRuntime) {
    assert!(rt; PrivatePath::new(rt.alloc(), 5, [1; 32]).leaf() == 5);
}

fn is_made_at(own: &PrivatePath, place: usize, pairs: &[KeyPair], i: usize) -> bool {
    match pairs.get(i) {
        Some(pair) => has_key(own, place, &pair.sk),
        None => false,
    }
}

/// Makes a path of the nodes 1 and 3.
fn make_two(alloc: Global, own: &mut PrivatePath) -> Option<Box<PathSecrets>> {
    make_path(alloc, own, &START, &[1, 3])
}

/// Leaf 1, which made a path of two nodes.
#[derive(Drop)]
struct Maker {
    own: Box<PrivatePath>,
    made: Box<PathSecrets>,
}

fn two_maker(alloc: Global) -> Option<Box<Maker>> {
    let mut own = with_key(alloc, 1, 1)?;
    let made = make_two(alloc, &mut own)?;
    boxed(alloc, Maker { own, made })
}

/// Whether the maker has its leaf's key and those of the path of two nodes.
fn has_made(own: &PrivatePath, made: &PathSecrets) -> bool {
    made.pairs.len() == 2
        && has_nodes(own, &[1, 2, 3])
        && is_made_at(own, 0, &made.pairs, 0)
        && has_key(own, 1, &[1; 32])
        && is_made_at(own, 2, &made.pairs, 1)
}

fn new_has_its_leaf(alloc: Global) -> bool {
    match with_key(alloc, 1, 1) {
        Some(own) => has_nodes(&own, &[2]),
        None => false,
    }
}

fn maker_has_made(alloc: Global) -> bool {
    match two_maker(alloc) {
        Some(maker) => has_made(&maker.own, &maker.made),
        None => false,
    }
}

#[test]
fn keys_of_a_maker(rt: HostRuntime) {
    assert!(rt; new_has_its_leaf(rt.alloc()));
    assert!(rt; maker_has_made(rt.alloc()));
}

/// Two members.
fn two(alloc: Global) -> Option<Box<PublicTree>> {
    let mut tree = single(alloc, 0)?;
    add(alloc, &mut tree, 1)?;
    Some(tree)
}

/// The second of two members, who made a path and then followed its own update.
fn own_after_update(alloc: Global) -> Option<Box<PrivatePath>> {
    let mut own = with_key(alloc, 1, 1)?;
    make_path(alloc, &mut own, &START, &[1])?;
    follow_edit(&mut own, &*two(alloc)?, Some(&[9; 32]))?;
    Some(own)
}

/// Whether that member has the new key of its leaf alone.
fn updated_has_its_leaf(alloc: Global) -> bool {
    match own_after_update(alloc) {
        Some(own) => has_nodes(&own, &[2]) && has_key(&own, 0, &[9; 32]),
        None => false,
    }
}

#[test]
fn keys_of_blank_nodes_are_dropped(rt: HostRuntime) {
    assert!(rt; updated_has_its_leaf(rt.alloc()));
}

#[test]
fn refusals(rt: HostRuntime) {
    assert!(rt; TreeKemError::KeyMissing.number() == 35);
    assert!(rt; TreeKemError::KeyMissing.name() == "KeyMissing");
}
