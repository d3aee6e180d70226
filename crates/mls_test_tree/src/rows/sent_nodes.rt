//! Trees of nodes that are sent and taken in, for the rows of tests: so each leaf is known to be short.

ghost use Rattle.std.specs.Prelude.{IfOk};
ghost use Rattle.mls_tree.specs.ShortLeaves.{AreShort, HasShortLeaves};
ghost use Rattle.mls_tree.specs.Tree.{term};

use crate::rows::edits::number;
use crate::rows::trees::boxed;
use mls_leaf::{Codec, LeafError};
use mls_suite::Glass;
use mls_tree::{PublicTree, TreeError};
use mls_tree_slot::Slot;
use mls_types::RatchetTree;
use std::alloc::{AllocError, Global};

/// A value that was read or written. All digits of the tests spell values, so a fault is want of memory.
fn value_of<T: Drop>(value: Result<T, LeafError>) -> Result<T, AllocError> {
    match value {
        Ok(value) => Ok(value),
        Err(_) => Err(AllocError),
    }
}

/// The place that hex digits spell.
fn slot_of(alloc: Global, digits: &str) -> Result<Slot, AllocError> {
    match hex::decode(alloc, digits.as_bytes()) {
        Ok(bytes) => value_of(Slot::decode(alloc, &bytes)),
        Err(_) => Err(AllocError),
    }
}

fn slots_of(alloc: Global, digits: &[&str]) -> Result<Vec<Slot>, AllocError> {
    let mut slots = Vec::new(alloc);
    for place in digits {
        slots.push(slot_of(alloc, place)?)?;
    }
    Ok(slots)
}

/// The tree of the nodes that hex digits spell.
pub(crate) fn tree_of_digits(alloc: Global, digits: &[&str]) -> Result<Box<PublicTree>, TreeError> {
    let tree = PublicTree::from_nodes(slots_of(alloc, digits)?)?;
    Ok(boxed(alloc, tree)?)
}

/// The nodes of the tree as they are sent.
fn sent_bytes(alloc: Global, tree: &PublicTree) -> Result<Vec<u8>, AllocError> {
    let nodes = RatchetTree::from_vec(tree.to_nodes()?);
    value_of(nodes.encode(alloc))
}

/// The nodes that were sent, of a tree that isn't too large.
fn nodes_in(alloc: Global, bytes: &[u8]) -> Result<Vec<Slot>, AllocError>
    ensures { IfOk result (λ nodes. AreShort nodes.items) }
{
    if bytes.len() > 1_000_000 {
        return Err(AllocError);
    }
    match RatchetTree::decode(alloc, bytes) {
        Ok(nodes) => Ok(nodes.into_vec()),
        Err(_) => Err(AllocError),
    }
}

/// The tree that was sent.
fn tree_in(alloc: Global, bytes: &[u8]) -> Result<PublicTree, TreeError>
    ensures { IfOk result (λ t. HasShortLeaves (term t)) }
{
    let nodes = nodes_in(alloc, bytes)?;
    let tree = PublicTree::from_nodes(nodes)?;
    Ok(tree)
}

/// The number of what a tree is refused with in the group "g", or 0. Want of memory is passed on.
fn refusal(tree: &mut PublicTree) -> Result<u8, TreeError>
    requires { HasShortLeaves (term tree.old) }
{
    match tree.check::<Glass>(b"g") {
        Ok(()) => Ok(0),
        Err(TreeError::OutOfMemory) => Err(TreeError::OutOfMemory),
        Err(error) => Ok(error.number()),
    }
}

/// What a tree that was sent is refused with in the group "g", or 0.
fn refusal_of_sent(alloc: Global, bytes: &[u8]) -> Result<u8, TreeError> {
    let mut taken = tree_in(alloc, bytes)?;
    let refused = refusal(&mut taken);
    drop(taken);
    refused
}

/// What the tree is refused with in the group "g", or 0, once its nodes are sent and taken in.
pub(crate) fn check(alloc: Global, tree: &PublicTree) -> Result<Vec<u64>, TreeError> {
    let bytes = sent_bytes(alloc, tree)?;
    let refused = refusal_of_sent(alloc, &bytes)?;
    number(alloc, u64::from(refused))
}
