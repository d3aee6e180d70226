//! The path of the last commit that had one, as the parent hashes tell it.

ghost use Rattle.std.specs.Prelude.{◌≡◌, Some, IfOk, OnOk};
ghost use Rattle.mls_tree_array.specs.Chains.{FindsWitness, FindsWitnessOf, FindsRootWitness, AddsChain, HasChain};
ghost use Rattle.mls_tree_model.specs.LastPath.{last_path};
ghost use Rattle.mls_tree_array.specs.Subtrees.{end};

use crate::originals::rehashed_original;
use crate::path::push_if;
use crate::places::parent_in;
use crate::subtree::{Parts, Subtree};
use crate::validity::has_hash;
use crate::witnesses::candidate;
use mls_leaf::ParentNode;
use mls_tree_hash::sibling_hash;
use mls_tree_slot::Slot;
use std::alloc::{AllocError, Global};

/// The node of a side that ties it to the parent over it and the other side.
fn witness(
    parent: &ParentNode,
    side: &Subtree<'_>,
    other: &Subtree<'_>,
    found: &mut Vec<u64>,
) -> Result<Option<u64>, AllocError>
    ensures { IfOk result (FindsWitness parent.now side.now other.now) }
{
    match candidate(parent, side, found)? {
        Some(node) => {
            let sibling = rehashed_original(other, parent.unmerged_leaves());
            let hash = sibling_hash(parent.encryption_key(), parent.parent_hash(), &sibling);
            if !has_hash(side, node, &hash) {
                return Ok(None);
            }
            Ok(Some(node))
        }
        None => Ok(None),
    }
}

/// The node that ties a parent over these two sides to one of them, the left one where it can.
fn witness_of(
    parent: &ParentNode,
    left: &Subtree<'_>,
    right: &Subtree<'_>,
    found: &mut Vec<u64>,
) -> Result<Option<u64>, AllocError>
    requires { right.now.first ≡ end left.now }
    ensures { IfOk result (FindsWitnessOf (Some parent.now) left.now right.now) }
{
    match witness(parent, left, right, found)? {
        Some(node) => Ok(Some(node)),
        None => witness(parent, right, left, found),
    }
}

/// `witness` of the root over these two sides, either way round: None where it is blank.
fn root_witness(
    root: &Slot,
    left: &Subtree<'_>,
    right: &Subtree<'_>,
    found: &mut Vec<u64>,
) -> Result<Option<u64>, AllocError>
    requires { right.now.first ≡ end left.now }
    ensures { IfOk result (FindsRootWitness root.now left.now right.now) }
{
    match parent_in(root) {
        Some(parent) => witness_of(parent, left, right, found),
        None => Ok(None),
    }
}

/// Adds the chain of witnesses from node `x` down to a leaf to `out`: nothing where no node has that number. `found` is
/// room for resolutions.
fn push_chain(
    tree: &Subtree<'_>,
    x: u64,
    found: &mut Vec<u64>,
    out: &mut Vec<u32>,
) -> Result<(), AllocError>
    ensures { OnOk result (AddsChain tree.now x out.old out.new) }
{
    let own = tree.number();
    let number = u64::from(own);
    match tree.parts() {
        Parts::Leaf(_) => push_if(x == number, own, out),
        Parts::Branch { left, root, right } => {
            if x < number {
                return push_chain(&left, x, found, out);
            }
            if number < x {
                return push_chain(&right, x, found, out);
            }
            out.push(own)?;
            match root_witness(root, &left, &right, found)? {
                Some(node) => {
                    if node < number {
                        return push_chain(&left, node, found, out);
                    }
                    push_chain(&right, node, found, out)
                }
                None => Ok(()),
            }
        }
    }
}

/// The chain of witnesses from the root down to a leaf.
fn chain(alloc: Global, tree: &Subtree<'_>) -> Result<Vec<u32>, AllocError>
    ensures { IfOk result (HasChain tree.now) }
{
    let mut found = Vec::new(alloc);
    let mut nodes = Vec::new(alloc);
    push_chain(tree, u64::from(tree.number()), &mut found, &mut nodes)?;
    Ok(nodes)
}

/// The nodes that the last commit with a path gave new keys, as node indices, from the root down to the leaf: the
/// parent hashes chain them (RFC 9420, 7.9.2). Empty where the root is blank or the tree is a leaf. It makes at most
/// twice as many hashes as the tree has nodes.
pub fn last_path(alloc: Global, tree: &Subtree<'_>) -> Result<Vec<u32>, AllocError>
    requires { tree.now.first ≡ 0 }
    ensures { IfOk result (λ v. v.items ≡ last_path tree.now.term) }
{
    match tree.parts() {
        Parts::Leaf(_) => Ok(Vec::new(alloc)),
        Parts::Branch { root, .. } => match parent_in(root) {
            Some(_) => chain(alloc, tree),
            None => Ok(Vec::new(alloc)),
        },
    }
}
