//! Where a ratchet tree first breaks a rule that is asked of each member or of each node alone.

ghost use Rattle.std.specs.Prelude.{◌≡◌, ℕ, ◌<◌, ◌^◌, List, length, IfOk, IfSome};
ghost use Rattle.std.specs.List.{list_all};
ghost use Rattle.std.specs.Option.{option_copied};
ghost use Rattle.mls_checks.specs.Leaf.{is_capable, is_signed};
ghost use Rattle.mls_checks.specs.Short.{IsShort};
ghost use Rattle.mls_leaf.specs.Leaf.{leaf_node};
ghost use Rattle.mls_tree.specs.Rules.{rules_of};
ghost use Rattle.mls_tree.specs.ShortLeaves.{HasShortLeaves};
ghost use Rattle.mls_tree.specs.Tree.{term};
ghost use Rattle.mls_tree_array.specs.CellKeys.{cell_keys};
ghost use Rattle.mls_tree_model.specs.Arrays.{may_stand};
ghost use Rattle.mls_tree_model.specs.Good.{is_all_capable, is_all_signed};
ghost use Rattle.mls_tree_model.specs.Keys.{passes};
ghost use Rattle.mls_tree_model.specs.Term.{width};
ghost use Rattle.mls_cli_place.specs.TreePlace.{IsFirstFailing, TellsRule, leaf_is_capable, leaf_is_signed, node_is_fit, node_stands};

use mls_checks::{leaf_capable, leaf_signed};
use mls_leaf::LeafNode;
use mls_suite::Suite;
use mls_tree::PublicTree;
use mls_tree_slot::{NodeRef, Slot};
use std::alloc::{AllocError, Global};

/// Whether a leaf's signature is its own, where it isn't blank.
fn is_signed_or_blank<S: Suite>(
    alloc: Global,
    leaf: Option<&LeafNode>,
    group_id: &[u8],
    index: u32,
) -> Result<bool, AllocError>
    requires short { IfSome (option_copied leaf) (λ v. IsShort leaf_node v) }
    requires group { length group_id.now < 2 ^ 28 }
    ensures { IfOk result (λ b. b
        ≡ passes (is_signed S.crypto group_id.now) index (option_copied leaf.entry)) }
{
    match leaf {
        Some(leaf) => leaf_signed::<S>(alloc, leaf, group_id, index),
        None => Ok(true),
    }
}

/// The first leaf whose signature isn't its own.
#[tactic(auto, using(crate::proofs::Firsts::firsts))]
fn unsigned_leaf<S: Suite>(
    alloc: Global,
    tree: &PublicTree,
    group_id: &[u8],
) -> Result<Option<u32>, AllocError>
    requires group { length group_id.now < 2 ^ 28 }
    requires short { HasShortLeaves (term tree.now) }
    ensures { IfOk result (λ found. IsFirstFailing
        (leaf_is_signed S.crypto group_id.now (term tree.now)) (width (term tree.now)) found) }
{
    for i in 0..tree.leaf_count() {
        if !is_signed_or_blank::<S>(alloc, tree.leaf(i), group_id, i)? {
            return Ok(Some(i));
        }
    }
    Ok(None)
}

/// The first member whose signature isn't its own (RFC 9420, 7.3): there is one exactly when a tree's check of
/// signatures fails (`LeafSignature` (51)).
#[tactic(auto, using(crate::proofs::Members::signed_told))]
pub fn first_unsigned<S: Suite>(
    alloc: Global,
    tree: &PublicTree,
    group_id: &[u8],
) -> Result<Option<u32>, AllocError>
    requires group { length group_id.now < 2 ^ 28 }
    requires short { HasShortLeaves (term tree.now) }
    ensures first { IfOk result (λ found. IsFirstFailing
        (leaf_is_signed S.crypto group_id.now (term tree.now)) (width (term tree.now)) found) }
    ensures rule { IfOk result (λ found. TellsRule
        (is_all_signed (rules_of S.crypto group_id.now) (term tree.now)) found) }
{
    unsigned_leaf::<S>(alloc, tree, group_id)
}

/// Whether a leaf lists version 1, the suite and credential 1, where it isn't blank.
fn is_capable_or_blank(leaf: Option<&LeafNode>, suite: u16, index: u32) -> bool
    ensures { result ≡ passes (λ j v. is_capable suite v) index (option_copied leaf.entry) }
{
    match leaf {
        Some(leaf) => leaf_capable(leaf, suite),
        None => true,
    }
}

/// The first leaf that lacks a capability.
#[tactic(auto, using(crate::proofs::Firsts::firsts))]
fn incapable_leaf(tree: &PublicTree, suite: u16) -> Option<u32>
    ensures { IsFirstFailing
        (leaf_is_capable suite (term tree.now)) (width (term tree.now)) result }
{
    for i in 0..tree.leaf_count() {
        if !is_capable_or_blank(tree.leaf(i), suite, i) {
            return Some(i);
        }
    }
    None
}

/// The first member that lacks a capability (RFC 9420, 7.3): there is one exactly when a tree's check of capabilities
/// fails (`LeafCapability` (52)). It takes no memory.
#[tactic(auto, using(crate::proofs::Members::capable_told))]
pub fn first_incapable<S: Suite>(tree: &PublicTree) -> Option<u32>
    ensures first { IsFirstFailing
        (leaf_is_capable S.NUMBER (term tree.now)) (width (term tree.now)) result }
    ensures rule { (group : List ℕ) → TellsRule
        (is_all_capable (rules_of S.crypto group) (term tree.now)) result }
{
    incapable_leaf(tree, S::NUMBER)
}

/// Whether a node's encryption key is fit for sealing, where it isn't blank.
fn is_fit_or_blank<S: Suite>(node: &Slot) -> bool
    ensures { result ≡ list_all S.crypto.key_ok (cell_keys node.now) }
{
    match node.node() {
        Some(NodeRef::Leaf(leaf)) => S::key_ok(leaf.encryption_key.as_slice()),
        Some(NodeRef::Parent(parent)) => S::key_ok(parent.encryption_key()),
        None => true,
    }
}

/// The first node, of those that are sent, whose encryption key isn't fit for sealing (`BadKey` (36)). It takes no
/// memory.
#[tactic(auto, using(crate::proofs::Firsts::firsts))]
pub fn first_unfit<S: Suite>(nodes: &[Slot]) -> Option<usize>
    ensures { IsFirstFailing (node_is_fit S.crypto nodes.now) (length nodes.now) result }
{
    for x in 0..nodes.len() {
        if !is_fit_or_blank::<S>(&nodes[x]) {
            return Some(x);
        }
    }
    None
}

/// Whether a node may stand at an even place, or at an odd one.
fn may_stand(even: bool, node: &Slot) -> bool
    ensures { result ≡ may_stand even node.now }
{
    match node.node() {
        Some(NodeRef::Leaf(_)) => even,
        Some(NodeRef::Parent(_)) => !even,
        None => true,
    }
}

/// The first node, of those that are sent, that is a leaf at an odd or a parent at an even place (`TreeShape` (20);
/// RFC 9420, 12.4.3.3). It takes no memory.
#[tactic(auto, using(crate::proofs::Firsts::firsts))]
pub fn first_misplaced(nodes: &[Slot]) -> Option<usize>
    ensures { IsFirstFailing (node_stands nodes.now) (length nodes.now) result }
{
    for x in 0..nodes.len() {
        if !may_stand(x % 2 == 0, &nodes[x]) {
            return Some(x);
        }
    }
    None
}
