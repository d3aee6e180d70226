//! The shape of a group: its tree, a commit's path, and whose keys a member holds.

use crate::stage::Stage;
use anyhow::{Result, bail};
use mls_leaf::Codec;
use mls_tree::PublicTree;
use mls_tree_slot::NodeRef;
use mls_types::{Commit, MlsMessage, PublicMessage, SignedBody};
use std::alloc::{AllocError, Global};

/// The nodes of which a member holds keys.
pub fn held_nodes(alloc: Global, stage: &Stage, member: usize) -> Result<Vec<u64>> {
    let mut nodes = Vec::new(alloc);
    for (node, _) in stage.member(member)?.held_keys()? {
        nodes.push(node)?;
    }
    Ok(nodes)
}

/// The path of a member.
pub fn path_nodes(stage: &Stage, member: usize) -> Result<Vec<u32>> {
    let member = stage.member(member)?;
    let tree = member.group().tree();
    Ok(tree.filtered_path(member.leaf_index())?)
}

fn lists(tree: &PublicTree, node: u32, leaf: u32) -> bool {
    match tree.node(node) {
        Some(NodeRef::Parent(parent)) => parent.unmerged_leaves().contains(&leaf),
        _ => false,
    }
}

/// The nodes that list a leaf as unmerged.
pub fn listing_nodes(alloc: Global, tree: &PublicTree, leaf: u32) -> Result<Vec<u32>, AllocError> {
    let mut nodes = Vec::new(alloc);
    for node in 0..tree.leaf_count().saturating_mul(2) {
        if lists(tree, node, leaf) {
            nodes.push(node)?;
        }
    }
    Ok(nodes)
}

/// The nodes that stand for a node when something is sealed to it.
pub fn resolution(stage: &Stage, member: usize, node: u32) -> Result<Vec<u64>> {
    Ok(stage.member(member)?.group().tree().resolution(node)?)
}

fn counts_in_commit(alloc: Global, commit: &Commit) -> Result<Vec<usize>> {
    let Some(path) = &commit.path else {
        bail!("no path");
    };
    let mut counts = Vec::new(alloc);
    for node in path.nodes.as_slice() {
        counts.push(node.ciphertexts.len())?;
    }
    Ok(counts)
}

fn counts_in(alloc: Global, message: &PublicMessage) -> Result<Vec<usize>> {
    match &message.content.body {
        SignedBody::Commit { commit, .. } => counts_in_commit(alloc, commit),
        _ => bail!("no commit"),
    }
}

fn counts_of(alloc: Global, message: &MlsMessage) -> Result<Vec<usize>> {
    match message {
        MlsMessage::PublicMessage(message) => counts_in(alloc, message),
        _ => bail!("no commit"),
    }
}

/// How many ciphertexts each node of a commit's path has. The message is given to `drop`, which is one call for the
/// prover.
pub fn ciphertexts(alloc: Global, message: &[u8]) -> Result<Vec<usize>> {
    let message = MlsMessage::decode(alloc, message)?;
    let counts = counts_of(alloc, &message);
    drop(message);
    counts
}
