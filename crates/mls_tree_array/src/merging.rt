//! A path that is merged into a tree: the parents that it makes, and their parent hashes.

ghost use Rattle.std.specs.Prelude.{◌≡◌, ◌≤◌, IfOk, OnOk};
ghost use Rattle.mls_tree_model.specs.Term.{height};
ghost use Rattle.mls_tree_model.specs.Way.{path_length};
ghost use Rattle.mls_tree_array.specs.Merging.{hash_bytes};
ghost use Rattle.mls_tree_array.specs.PathParents.{merged_parent, AreKeysBelow, IsHashBelow, IsPathHash, AddsParent, AddsParents, HasParents, HasHash};

use crate::hashed_subtree::HashedSubtree;
use crate::resolutions::is_reached;
use crate::subtree::Subtree;
use mls_leaf::{Bytes, Items, ParentNode};
use mls_tree_hash::{Hash, sibling_hash};
use mls_tree_slot::SharedParent;
use std::alloc::{AllocError, Global};

/// How many parents the filtered direct path of a leaf takes in (RFC 9420, 4.1.2). Takes no memory.
pub fn path_length(tree: &Subtree<'_>, leaf: u32) -> u32
    ensures value { result ≡ path_length tree.now.first tree.now.term leaf }
    ensures low { result ≤ height tree.now.term }
{
    match tree.step_to(leaf) {
        None => 0,
        Some(step) => u32::from(is_reached(&step.other)) + path_length(&step.side, leaf),
    }
}

/// The bytes of a parent hash: none above the highest parent of a path (RFC 9420, 7.9).
pub fn bytes_of(hash: &Option<Hash>) -> &[u8]
    ensures { result.now ≡ hash_bytes hash.now }
{
    match hash {
        Some(hash) => hash,
        None => &[],
    }
}

/// The keys and the parent hash that a merge hands down below a parent with this other side. The keys are those of the
/// parents from there on, the lowest first.
fn hand_down<'a>(
    side: &HashedSubtree<'_>,
    keys: &'a [Bytes],
    above: Option<Hash>,
) -> (&'a [Bytes], Option<Hash>)
    ensures keys { AreKeysBelow side.now keys.now result.0.now }
    ensures hash { IsHashBelow side.now keys.now above result.1 }
{
    if !side.is_reached() {
        return (keys, above);
    }
    match keys {
        [lower @ .., key] => {
            let below = sibling_hash(key.as_slice(), bytes_of(&above), &side.hash());
            (lower, Some(below))
        }
        [] => (keys, above),
    }
}

/// The parent hash that reaches a leaf when a path with these keys is merged, the lowest first (RFC 9420, 7.9). Takes
/// no memory.
pub fn path_hash(
    tree: &HashedSubtree<'_>,
    leaf: u32,
    keys: &[Bytes],
    hash: Option<Hash>,
) -> Option<Hash>
    ensures { IsPathHash tree.now leaf keys.now hash result }
{
    match tree.step_to(leaf) {
        None => hash,
        Some(step) => {
            let (lower, below) = hand_down(&step.other, keys, hash);
            path_hash(&step.side, leaf, lower, below)
        }
    }
}

/// A parent that a merge makes: its list is empty.
fn merged_parent(alloc: Global, key: Bytes, hash: &Option<Hash>) -> Result<SharedParent, AllocError>
    ensures { IfOk result (λ p. p ≡ merged_parent key hash.now) }
{
    let parent_hash = Bytes::from_slice(alloc, bytes_of(hash))?;
    match ParentNode::new(key, parent_hash, Items::from_vec(Vec::new(alloc))) {
        Ok(parent) => SharedParent::new(alloc, parent),
        Err(_) => unreachable!(),
    }
}

/// Adds the parent that a merge makes, whose other side this is, where there is one, and answers the parent hash that
/// it hands down. The parent's key is the last one, which is taken.
fn add_parent(
    alloc: Global,
    side: &HashedSubtree<'_>,
    keys: &mut Vec<Bytes>,
    above: Option<Hash>,
    out: &mut Vec<SharedParent>,
) -> Result<Option<Hash>, AllocError>
    ensures parent { OnOk result (AddsParent side.now keys.old above out.old out.new) }
    ensures keys { OnOk result (AreKeysBelow side.now keys.old.items keys.new.items) }
    ensures hash { IfOk result (IsHashBelow side.now keys.old.items above) }
{
    if !side.is_reached() {
        return Ok(above);
    }
    match keys.pop() {
        Some(key) => {
            let below = sibling_hash(key.as_slice(), bytes_of(&above), &side.hash());
            out.push(merged_parent(alloc, key, &above)?)?;
            Ok(Some(below))
        }
        None => Ok(above),
    }
}

/// Adds the parents that a merge makes over a leaf to `out`, the highest first, and answers the parent hash that
/// reaches the leaf. Their keys are the last ones, which are taken.
fn add_parents(
    alloc: Global,
    tree: &HashedSubtree<'_>,
    leaf: u32,
    keys: &mut Vec<Bytes>,
    hash: Option<Hash>,
    out: &mut Vec<SharedParent>,
) -> Result<Option<Hash>, AllocError>
    ensures parents { AddsParents tree.now leaf keys.old hash out.old out.new result }
    ensures hash { IfOk result (IsPathHash tree.now leaf keys.old.items hash) }
{
    match tree.step_to(leaf) {
        None => Ok(hash),
        Some(step) => {
            let below = add_parent(alloc, &step.other, keys, hash, out)?;
            add_parents(alloc, &step.side, leaf, keys, below, out)
        }
    }
}

/// What a merge writes over a leaf, and what it hands down to it.
#[derive(Drop)]
pub struct MergedPath {
    /// The parents, the highest first.
    pub parents: Vec<SharedParent>,
    /// The parent hash that reaches the leaf: None, which stands for no bytes, where there is no parent.
    pub hash: Option<Hash>,
}

/// The parents that a merge makes over a leaf, and the parent hash that reaches it (RFC 9420, 7.5 and 7.9). Their keys
/// are given lowest first, and the highest one's parent hash is empty.
pub fn path_parents(
    alloc: Global,
    tree: &HashedSubtree<'_>,
    leaf: u32,
    keys: Vec<Bytes>,
) -> Result<MergedPath, AllocError>
    ensures parents { IfOk result (HasParents tree.now.first tree.now.term leaf keys.items) }
    ensures hash { IfOk result (HasHash tree.now.first tree.now.term leaf keys.items) }
{
    let mut keys = keys;
    let mut parents = Vec::with_capacity(alloc, keys.len())?;
    let hash = add_parents(alloc, tree, leaf, &mut keys, None, &mut parents)?;
    Ok(MergedPath { parents, hash })
}
