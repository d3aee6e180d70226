//! What a joiner takes.

use crate::small_trees::{
    answers_with, boxed, has_key, has_nodes, holds, key_of, make_path, member, node_pair,
    number_of, take_secret, with_key,
};
use mls_kdf::Secret;
use mls_leaf::{Bytes, Items, Node, ParentNode};
use mls_tree::PublicTree;
use mls_tree_slot::Slot;
use mls_treekem::{PrivatePath, TreeKemError};
use std::alloc::Global;

const SECRET: Secret = [7; 32];

fn leaf(alloc: Global, key: u8) -> Option<Slot> {
    Slot::of(alloc, Node::Leaf(member(alloc, key)?)).ok()
}

/// The parent with a public key, which lists these leaves.
fn parent_of(alloc: Global, key: Vec<u8>, listed: &[u32]) -> Option<ParentNode> {
    let list = Items::from_vec(Vec::from_slice(alloc, listed).ok()?);
    ParentNode::new(Bytes::from_vec(key), Bytes::from_vec(Vec::new(alloc)), list).ok()
}

/// The parent with the public key of the path secret, which lists these leaves.
fn parent(alloc: Global, listed: &[u32]) -> Option<Slot> {
    let pair = node_pair(alloc, &SECRET)?;
    Slot::of(alloc, Node::Parent(parent_of(alloc, pair.pk, listed)?)).ok()
}

/// The tree of these nodes.
fn tree_of(alloc: Global, nodes: Vec<Slot>) -> Option<Box<PublicTree>> {
    boxed(alloc, PublicTree::from_nodes(nodes).ok()?)
}

fn push_leaf(alloc: Global, nodes: &mut Vec<Slot>, key: u8) -> Option<()> {
    nodes.push(leaf(alloc, key)?).ok()
}

fn push_parent(alloc: Global, nodes: &mut Vec<Slot>, listed: &[u32]) -> Option<()> {
    nodes.push(parent(alloc, listed)?).ok()
}

/// Two members, and a root that lists these.
fn two(alloc: Global, listed: &[u32]) -> Option<Box<PublicTree>> {
    let mut nodes = Vec::new(alloc);
    push_leaf(alloc, &mut nodes, 0)?;
    push_parent(alloc, &mut nodes, listed)?;
    push_leaf(alloc, &mut nodes, 1)?;
    tree_of(alloc, nodes)
}

/// Two members under a blank parent.
fn blank_half(alloc: Global, nodes: &mut Vec<Slot>) -> Option<()> {
    push_leaf(alloc, nodes, 0)?;
    nodes.push(Slot::blank()).ok()?;
    push_leaf(alloc, nodes, 1)
}

/// Two members under a parent that lists these.
fn half(alloc: Global, nodes: &mut Vec<Slot>, listed: &[u32]) -> Option<()> {
    push_leaf(alloc, nodes, 2)?;
    push_parent(alloc, nodes, listed)?;
    push_leaf(alloc, nodes, 3)
}

/// Four members, a root that lists nobody, and over the last two members a parent that lists these.
fn four(alloc: Global, listed: &[u32]) -> Option<Box<PublicTree>> {
    let mut nodes = Vec::new(alloc);
    blank_half(alloc, &mut nodes)?;
    push_parent(alloc, &mut nodes, &[])?;
    half(alloc, &mut nodes, listed)?;
    tree_of(alloc, nodes)
}

/// Leaf 0, which made a path of the root.
fn committer(alloc: Global) -> Option<Box<PrivatePath>> {
    let mut own = with_key(alloc, 0, 1)?;
    make_path(alloc, &mut own, &SECRET, &[1])?;
    Some(own)
}

/// The commit secret of that path.
fn commit_secret(alloc: Global) -> Option<Secret> {
    let mut own = with_key(alloc, 0, 1)?;
    Some(make_path(alloc, &mut own, &SECRET, &[1])?.commit_secret)
}

/// Whether a joiner takes this commit secret of a tree.
fn takes_in(joiner: &mut PrivatePath, tree: &PublicTree, commit_secret: &Secret) -> bool {
    answers_with(take_secret(joiner, tree, 0, &SECRET), commit_secret)
}

/// Whether a joiner takes this commit secret of two members, whose root lists nobody.
fn takes(alloc: Global, joiner: &mut PrivatePath, commit_secret: &Secret) -> Option<bool> {
    match two(alloc, &[]) {
        Some(tree) => Some(takes_in(joiner, &tree, commit_secret)),
        None => None,
    }
}

/// The second of two members, who took the commit secret of the first.
fn joiner(alloc: Global) -> Option<Box<PrivatePath>> {
    let commit_secret = commit_secret(alloc)?;
    let mut joiner = with_key(alloc, 1, 2)?;
    if takes(alloc, &mut joiner, &commit_secret)? {
        Some(joiner)
    } else {
        None
    }
}

/// Whether a joiner has the committer's key of the root and its leaf's, and no other.
fn has_joined(joiner: &PrivatePath, root_key: &Secret) -> bool {
    has_nodes(joiner, &[1, 2]) && has_key(joiner, 0, root_key) && has_key(joiner, 1, &[2; 32])
}

/// The committer's key of the root.
fn root_key(alloc: Global) -> Option<Secret> {
    let own = committer(alloc)?;
    key_of(&own, 1)
}

fn joiner_has_joined(alloc: Global) -> Option<bool> {
    let root_key = root_key(alloc)?;
    Some(has_joined(&*joiner(alloc)?, &root_key))
}

#[test]
fn the_joiner_takes_the_committers_secret_and_key(rt: HostRuntime) {
    assert!(rt; holds(joiner_has_joined(rt.alloc())));
}

/// Whether a member refuses a secret with this number, and has keys of these nodes then; 0 where it takes it.
fn is_refused(
    joiner: &mut PrivatePath,
    tree: &PublicTree,
    signer: u32,
    secret: &Secret,
    number: u8,
    nodes: &[u64],
) -> bool {
    number_of(take_secret(joiner, tree, signer, secret)) == number && has_nodes(joiner, nodes)
}

/// Whether the second of two members, whose root lists these, so refuses a secret, and has its leaf's key alone then.
fn refuses(alloc: Global, listed: &[u32], signer: u32, secret: &Secret) -> Option<bool> {
    let tree = two(alloc, listed)?;
    let mut joiner = with_key(alloc, 1, 2)?;
    Some(is_refused(&mut joiner, &tree, signer, secret, 34, &[2]))
}

#[test]
fn a_refusal_changes_no_key(rt: HostRuntime) {
    let alloc = rt.alloc();
    // Another secret.
    assert!(rt; holds(refuses(alloc, &[], 0, &[8; 32])));
    // No leaf of the tree.
    assert!(rt; holds(refuses(alloc, &[], 2, &SECRET)));
    // The own leaf.
    assert!(rt; holds(refuses(alloc, &[], 1, &SECRET)));
    // An unmerged leaf.
    assert!(rt; holds(refuses(alloc, &[1], 0, &SECRET)));
}

/// Whether leaf 3, where the parent over it lists these, refuses the secret with this number, and has keys of these
/// nodes then; 0 where it takes it.
fn is_refused_of_four(
    alloc: Global,
    joiner: &mut PrivatePath,
    listed: &[u32],
    number: u8,
    nodes: &[u64],
) -> bool {
    match four(alloc, listed) {
        Some(tree) => is_refused(joiner, &tree, 0, &SECRET, number, nodes),
        None => false,
    }
}

/// Whether leaf 3 takes the secret only where the parent over it lists it.
fn takes_where_listed(alloc: Global) -> bool {
    match with_key(alloc, 3, 2) {
        Some(mut joiner) => {
            is_refused_of_four(
                alloc,
                &mut joiner,
                &[],
                TreeKemError::KeyMissing.number(),
                &[6],
            ) && is_refused_of_four(alloc, &mut joiner, &[3], 0, &[3, 6])
        }
        None => false,
    }
}

#[test]
fn a_parent_below_lists_the_joiner(rt: HostRuntime) {
    assert!(rt; takes_where_listed(rt.alloc()));
}

/// Whether a joiner without a path secret, the second of two members, whose root lists these, is refused with this
/// number; 0 where it isn't.
fn lacks_keys(alloc: Global, listed: &[u32], number: u8) -> Option<bool> {
    let tree = two(alloc, listed)?;
    let joiner = with_key(alloc, 1, 2)?;
    Some(number_of(joiner.require_keys(&tree)) == number)
}

#[test]
fn a_joiner_without_a_path_secret(rt: HostRuntime) {
    assert!(rt; holds(lacks_keys(rt.alloc(), &[1], 0)));
    assert!(rt; holds(lacks_keys(rt.alloc(), &[], TreeKemError::KeyMissing.number())));
}
