//! The checks of a commit's path, and its merge.

ghost use Rattle.std.specs.Prelude.{◌≡◌, ◌==◌, ◌^◌, length, IfOk, IsSome};
ghost use Rattle.std.specs.List.{list_all};
ghost use Rattle.std.specs.Str.{bytes_eq};
ghost use Rattle.mls_wire.specs.Checks.{Answers, passed};
ghost use Rattle.mls_leaf.specs.Leaf.{leaf_node};
ghost use Rattle.mls_model.specs.Commit as model;
ghost use Rattle.mls_public_group.specs.NextTree.{is_merged, IsPreparedFor};
ghost use Rattle.mls_public_group.specs.Short.{IsBelow, IsShortContext};
ghost use Rattle.mls_tree.specs.Refusals.{RefusesOutright};
ghost use Rattle.mls_tree_model.specs.Term.{leaf_of};
ghost use Rattle.mls_commit.specs.Faults.{number_of};
ghost use Rattle.mls_commit.specs.PathChecks.{StaysMember, count_checks, counts_in, public_keys};
ghost use Rattle.mls_commit.specs.PathMerge.{is_own, AppliesPath, MergesPath};
ghost use Rattle.mls_public_group.specs.ProposalChecks.{member_check};

use crate::error::CommitError;
use mls_checks::{CheckError, LeafUse, check_replacement};
use mls_leaf::{Bytes, LeafNode};
use mls_public_group::{Edits, NextTree, PublicGroup, Used};
use mls_suite::Suite;
use mls_tree::TreeError;
use mls_types::{UpdatePath, UpdatePathNode};
use std::alloc::{AllocError, Global};

/// The tree that a commit's path is merged into.
#[derive(Clone, Copy)]
pub(crate) enum PathBase {
    /// The group's own, which no proposal changes.
    GroupTree,
    /// The one after the proposals.
    EditedTree,
}

impl PathBase {
    /// That of a commit that uses these proposals: the group's own tree where there are none, and only there.
    pub(crate) fn of(used: &[Used<'_>]) -> PathBase
        ensures { is_own result ≡ (length used.now == 0) }
    {
        if used.is_empty() {
            return PathBase::GroupTree;
        }
        PathBase::EditedTree
    }
}

/// The public key of a node.
fn node_key(node: &UpdatePathNode) -> Result<Bytes, AllocError>
    ensures { IfOk result (λ k. k ≡ node.now.encryption_key) }
{
    Ok(node.encryption_key.clone()?)
}

/// The public keys of the path's nodes, the lowest first.
pub(crate) fn node_keys(alloc: Global, path: &UpdatePath) -> Result<Vec<Bytes>, AllocError>
    ensures { IfOk result (λ v. v.items ≡ model.node_keys path.now) }
{
    let nodes = path.nodes.as_slice();
    let mut keys = Vec::with_capacity(alloc, nodes.len())?;
    for node in nodes {
        keys.push(node_key(node)?)?;
    }
    Ok(keys)
}

/// Whether the nodes, as many as these numbers, have so many ciphertexts.
fn has_counts(nodes: &[UpdatePathNode], due: &[usize]) -> bool
    requires { length nodes.now ≡ length due.now }
    ensures { result ≡ bytes_eq (counts_in nodes.now) due.now }
{
    let mut pairs = nodes.iter().zip(due);
    pairs.all(|(node, count)| node.ciphertexts.len() == *count)
}

/// Refuses a path whose number of nodes is wrong, and then a number of ciphertexts that is. The committer is a member.
fn require_counts(committer: u32, edits: &Edits, path: &UpdatePath) -> Result<(), CommitError>
    requires { IsSome (leaf_of edits.now.tree committer) }
    ensures { Answers (λ _. passed) number_of (count_checks edits.now committer path.now) result }
{
    let tree = edits.tree.as_tree();
    let due = tree.ciphertext_counts(committer, &edits.added)?;
    let nodes = path.nodes.as_slice();
    if nodes.len() != due.len() {
        return Err(CommitError::from(TreeError::PathLength));
    }
    if !has_counts(nodes, &due) {
        return Err(CommitError::CipherCount);
    }
    Ok(())
}

/// Whether the keys of its leaf and of its nodes are fit.
fn has_fit_keys<S: Suite>(path: &UpdatePath) -> bool
    ensures { result ≡ list_all S.crypto.key_ok (public_keys path.now) }
{
    let nodes = path.nodes.as_slice();
    S::key_ok(path.leaf_node.encryption_key.as_slice())
        && nodes
            .iter()
            .all(|node| S::key_ok(node.encryption_key.as_slice()))
}

/// A path that is to be merged, where its keys differ and its leaf has the parent hash: into the group's own tree,
/// where there are no edits, and else into the one after them. It is prepared, and nothing is copied.
fn merge_into(
    edits: &Edits,
    committer: u32,
    leaf: LeafNode,
    keys: Vec<Bytes>,
    base: PathBase,
) -> Result<NextTree, TreeError>
    ensures answer { MergesPath edits.now.tree committer leaf keys.items result }
    ensures follows { IfOk result (IsPreparedFor edits.now.tree) }
    ensures own { IfOk result (λ t. is_merged t ≡ is_own base) }
{
    let tree = edits.tree.as_tree();
    let path = tree.prepare_path(committer, leaf, keys)?;
    match base {
        PathBase::GroupTree => Ok(NextTree::Merged(path)),
        PathBase::EditedTree => Ok(NextTree::EditedMerged(edits.tree.clone()?, path)),
    }
}

/// The tree after the edits with the committer's path merged, where these checks pass in this order: `NoSuchLeaf` (22)
/// no member is at its leaf, which takes no memory; 50 to 54 of its new leaf; `PathLength` (30) how many nodes the path
/// has; `CipherCount` (31) how many ciphertexts each of them has; `BadKey` (36) a key isn't fit; `KeyRepeated` (25) two
/// nodes have one encryption key; `ParentHashWrong` (24) the leaf hasn't the parent hash (RFC 9420, 12.4.2).
#[tactic(auto, unfolding(mls_model::specs::Commit::apply_update_path))]
pub(crate) fn apply_update_path<S: Suite>(
    alloc: Global,
    group: &PublicGroup,
    committer: u32,
    edits: &Edits,
    path: &UpdatePath,
    base: PathBase,
) -> Result<NextTree, CommitError>
    requires context { IsShortContext group.now.context }
    requires stays { StaysMember committer group.now.tree edits.now.tree }
    requires path { IsBelow (2 ^ 28) leaf_node path.now.leaf_node }
    ensures answer { AppliesPath S.crypto group.now committer edits.now path.now result }
    ensures follows { IfOk result (IsPreparedFor edits.now.tree) }
    ensures own { IfOk result (λ t. is_merged t ≡ is_own base) }
    ensures outright { RefusesOutright number_of (member_check group.now.tree committer) result }
{
    let Some(old) = group.tree().leaf(committer) else {
        return Err(CommitError::from(TreeError::NoSuchLeaf));
    };
    let group_id = group.context().group_id.as_slice();
    check_replacement::<S>(
        alloc,
        &path.leaf_node,
        old,
        LeafUse::Commit,
        group_id,
        committer,
    )?;
    require_counts(committer, edits, path)?;
    if !has_fit_keys::<S>(path) {
        return Err(CommitError::from(CheckError::BadKey));
    }
    let keys = node_keys(alloc, path)?;
    let leaf = path.leaf_node.clone()?;
    let tree = merge_into(edits, committer, leaf, keys, base)?;
    Ok(tree)
}
