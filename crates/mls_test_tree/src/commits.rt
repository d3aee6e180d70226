//! A commit's path in the order of its calls: the edits are followed, the path is made, sealed and merged, and then it
//! is opened by members and taken by a joiner.

use crate::small_trees::{
    answers_with, boxed, follow_edit, four, has_digits, has_nodes, leaf, make_path, next,
    open_path, public, sealed_path, take_secret, with_key,
};
use mls_kdf::Secret;
use mls_leaf::{Bytes, LeafNode, LeafSource};
use mls_suite::KeyPair;
use mls_tree::PublicTree;
use mls_treekem::{
    PathSecrets, PrivatePath, init_seed, leaf_seed, path_seed, seal_count_of, sign_seed,
};
use mls_types::UpdatePathNode;
use std::alloc::Global;

const SEED: Secret = [5; 32];

/// Leaf 1's commit, which adds leaf 3 to three members.
#[derive(Drop)]
struct Commit {
    tree: Box<PublicTree>,
    secrets: Box<PathSecrets>,
    nodes: Vec<UpdatePathNode>,
}

fn push_key(alloc: Global, keys: &mut Vec<Bytes>, pair: &KeyPair) -> Option<()> {
    keys.push(Bytes::from_slice(alloc, &pair.pk).ok()?).ok()
}

/// The public keys of a path.
fn public_keys(alloc: Global, secrets: &PathSecrets) -> Option<Vec<Bytes>> {
    let mut keys = Vec::new(alloc);
    for pair in secrets.pairs.iter() {
        push_key(alloc, &mut keys, pair)?;
    }
    Some(keys)
}

/// The filtered direct path of leaf 1.
fn filtered_path(tree: &PublicTree) -> Option<Vec<u32>> {
    tree.filtered_path(1).ok()
}

/// Leaf 1, who has followed the edits with a new key.
fn committer(alloc: Global, tree: &PublicTree) -> Option<Box<PrivatePath>> {
    let mut own = with_key(alloc, 1, 1)?;
    follow_edit(&mut own, tree, Some(&leaf_seed(&SEED)))?;
    Some(own)
}

/// The committer's path in the tree after the edits.
fn made_path(alloc: Global, tree: &PublicTree) -> Option<Box<PathSecrets>> {
    let mut own = committer(alloc, tree)?;
    make_path(alloc, &mut own, &path_seed(&SEED), &filtered_path(tree)?)
}

/// The parent hash of leaf 1's path.
fn path_hash(tree: &mut PublicTree, keys: &[Bytes]) -> Option<Vec<u8>> {
    tree.path_parent_hash(1, keys).ok()
}

/// A leaf of a commit with this encryption key and parent hash.
fn leaf_of(alloc: Global, key: Vec<u8>, hash: Vec<u8>) -> Option<LeafNode> {
    let mut new = leaf(alloc, key)?;
    new.source = LeafSource::Commit {
        parent_hash: Bytes::from_vec(hash),
    };
    Some(new)
}

/// The committer's new leaf, with the parent hash of its path.
fn new_leaf(alloc: Global, hash: Vec<u8>) -> Option<LeafNode> {
    leaf_of(alloc, public(alloc, &leaf_seed(&SEED))?, hash)
}

/// Merges leaf 1's path.
fn merge_path(tree: &mut PublicTree, leaf: LeafNode, keys: Vec<Bytes>) -> Option<()> {
    tree.merge_path(1, leaf, keys).ok()
}

/// Merges the committer's path.
fn merge(alloc: Global, tree: &mut PublicTree, secrets: &PathSecrets) -> Option<()> {
    let keys = public_keys(alloc, secrets)?;
    let hash = path_hash(tree, &keys)?;
    merge_path(tree, new_leaf(alloc, hash)?, keys)
}

/// The commit's path, sealed.
fn seal_path(
    alloc: Global,
    tree: &PublicTree,
    secrets: &PathSecrets,
) -> Option<Vec<UpdatePathNode>> {
    sealed_path(alloc, tree, &[3], secrets, &SEED).ok()
}

/// The commit, with its path merged.
fn make_commit(alloc: Global) -> Option<Box<Commit>> {
    let mut tree = four(alloc)?;
    let secrets = made_path(alloc, &tree)?;
    let nodes = seal_path(alloc, &tree, &secrets)?;
    merge(alloc, &mut tree, &secrets)?;
    boxed(
        alloc,
        Commit {
            tree,
            secrets,
            nodes,
        },
    )
}

/// Member i, who has followed the edits.
fn follower(alloc: Global, i: u8) -> Option<Box<PrivatePath>> {
    let mut own = with_key(alloc, u32::from(i), i)?;
    follow_edit(&mut own, &*four(alloc)?, None)?;
    Some(own)
}

/// Whether a member opens the commit's path on the merged tree, and has keys of these nodes then.
fn opens(commit: &Commit, own: &mut PrivatePath, nodes: &[u64]) -> bool {
    answers_with(
        open_path(own, &commit.tree, &[3], &commit.nodes),
        &commit.secrets.commit_secret,
    ) && has_nodes(own, nodes)
}

/// Whether a member opens the path of a new commit, and has keys of these nodes then.
fn opens_new(alloc: Global, own: &mut PrivatePath, nodes: &[u64]) -> bool {
    match make_commit(alloc) {
        Some(commit) => opens(&commit, own, nodes),
        None => false,
    }
}

/// Whether leaf i, who follows the edits, opens the commit's path and has keys of these nodes then.
fn follower_opens(alloc: Global, i: u8, nodes: &[u64]) -> bool {
    match follower(alloc, i) {
        Some(mut own) => opens_new(alloc, &mut own, nodes),
        None => false,
    }
}

/// Whether the commit's path is sealed so often.
fn is_sealed(alloc: Global, seals: u32) -> bool {
    match make_commit(alloc) {
        Some(commit) => seal_count_of(&commit.nodes) == seals,
        None => false,
    }
}

#[test]
fn received_in_order(rt: HostRuntime) {
    assert!(rt; follower_opens(rt.alloc(), 0, &[0, 1, 3]));
    assert!(rt; follower_opens(rt.alloc(), 2, &[3, 4]));
    assert!(rt; is_sealed(rt.alloc(), 2));
}

/// What leaf i is sent.
fn sent<'a>(alloc: Global, commit: &'a Commit, i: u32) -> Option<Option<&'a Secret>> {
    commit.secrets.secret_for(alloc, &commit.tree, 1, i).ok()
}

/// Whether leaf i is sent this secret, or none.
fn is_sent(alloc: Global, commit: &Commit, i: u32, secret: Option<&Secret>) -> bool {
    match sent(alloc, commit, i) {
        Some(sent) => sent == secret,
        None => false,
    }
}

/// Whether leaf i is sent this secret in the commit, or none.
fn sends(alloc: Global, i: u32, secret: Option<&Secret>) -> bool {
    match make_commit(alloc) {
        Some(commit) => is_sent(alloc, &commit, i, secret),
        None => false,
    }
}

/// Whether leaf 3 takes a path secret on the merged tree, and has keys of these nodes then.
fn takes(commit: &Commit, joiner: &mut PrivatePath, secret: &Secret, nodes: &[u64]) -> bool {
    answers_with(
        take_secret(joiner, &commit.tree, 1, secret),
        &commit.secrets.commit_secret,
    ) && has_nodes(joiner, nodes)
}

/// Whether leaf 3 takes a path secret of a new commit, and has keys of these nodes then.
fn takes_new(alloc: Global, joiner: &mut PrivatePath, secret: &Secret, nodes: &[u64]) -> bool {
    match make_commit(alloc) {
        Some(commit) => takes(&commit, joiner, secret, nodes),
        None => false,
    }
}

/// Whether leaf 3 joins by a path secret, and has keys of these nodes then.
fn joins(alloc: Global, secret: &Secret, nodes: &[u64]) -> bool {
    match with_key(alloc, 3, 3) {
        Some(mut joiner) => takes_new(alloc, &mut joiner, secret, nodes),
        None => false,
    }
}

#[test]
fn sent_to_joiners(rt: HostRuntime) {
    let alloc = rt.alloc();
    let first = path_seed(&SEED);
    let second = next(&first);
    assert!(rt; sends(alloc, 0, Some(&first)));
    assert!(rt; sends(alloc, 1, None));
    assert!(rt; sends(alloc, 2, Some(&second)));
    assert!(rt; sends(alloc, 3, Some(&second)));
    assert!(rt; sends(alloc, 4, None));
    assert!(rt; joins(alloc, &second, &[3, 6]));
}

// By Python's hmac and hashlib: DeriveSecret of 32 bytes 05 under each label.
const INIT: &str = "4ad620461ef9a2bdce5babdeabb21641dddb282203b50d5206a21066a75f4a15";

const LEAF: &str = "3101b53bab461f1379892b34357cc31ccfd1535d50f3b10b3370137cabb0c001";

const SIGN: &str = "cff647ea8e4aef863d871c4ec1da0562b92065dc21171fa0d9714be0bc2f4769";

const PATH: &str = "0244fe5d21a1062c70ba7ce041634fe28020f04191a25743651a86ba2b8187cd";

#[test]
fn seeds_of_keys(rt: HostRuntime) {
    assert!(rt; has_digits(rt.alloc(), &init_seed(&SEED), INIT));
    assert!(rt; has_digits(rt.alloc(), &leaf_seed(&SEED), LEAF));
    assert!(rt; has_digits(rt.alloc(), &sign_seed(&SEED), SIGN));
    assert!(rt; has_digits(rt.alloc(), &path_seed(&SEED), PATH));
}
