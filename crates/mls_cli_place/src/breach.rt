//! Which node or leaf breaks the rule of a tree that a file is refused by.

ghost use Rattle.std.specs.Prelude.{◌≡◌, ◌<◌, ◌^◌, Some, None, length, option_map, IfOk, IfSome};
ghost use Rattle.std.specs.Result.{result_ok};
ghost use Rattle.mls_checks.specs.Short.{IsShort};
ghost use Rattle.mls_tree.specs.ShortLeaves.{HasShortLeaves};
ghost use Rattle.mls_tree.specs.Tree.{max_leaves, term};
ghost use Rattle.mls_tree_model.specs.Arrays.{from_nodes};
ghost use Rattle.mls_types.specs.GroupInfo.{ratchet_tree};
ghost use Rattle.mls_cli_place.specs.Breach.{IsBreach, MemberBreach, leaf_below, rule_of};
ghost use Rattle.mls_cli_place.specs.declared.tree_place.TreePlace.TheVariants as tree;

use crate::parents::{ParentRule, first_wrong_parent};
use crate::repeats::first_repeated;
use crate::rules::{first_incapable, first_misplaced, first_unfit, first_unsigned};
use crate::tree_place::TreePlace;
use mls_suite::Suite;
use mls_tree::{PublicTree, TreeError};
use mls_tree_index::KeyKind;
use mls_types::RatchetTree;
use std::alloc::{AllocError, Global};

/// A rule that a node or a member breaks.
#[derive(Clone, Copy, Debug, PartialEq, Eq)]
pub(crate) enum Rule {
    /// Leaves stand at even places, parents at odd ones.
    Places,
    /// Each parent lists only leaves that it may list.
    Lists,
    /// Each parent is parent-hash valid.
    Hashes,
    /// No two nodes have one encryption key.
    Keys,
    /// No two members have one signature key.
    Clients,
    /// Each member's signature is its own.
    Signatures,
    /// Each member has the capabilities.
    Capabilities,
    /// Each encryption key is fit for sealing.
    KeyForms,
}

/// The rule whose breach is refused with this number.
pub(crate) fn rule_of(number: u8) -> Option<Rule>
    ensures { result ≡ rule_of number }
{
    match number {
        20 => Some(Rule::Places),
        23 => Some(Rule::Lists),
        24 => Some(Rule::Hashes),
        25 => Some(Rule::Keys),
        26 => Some(Rule::Clients),
        51 => Some(Rule::Signatures),
        52 => Some(Rule::Capabilities),
        36 => Some(Rule::KeyForms),
        _ => None,
    }
}

/// The place of a node.
fn at_node(found: Option<usize>) -> Option<TreePlace>
    ensures { result ≡ option_map tree.Node found }
{
    match found {
        Some(node) => Some(TreePlace::Node(node)),
        None => None,
    }
}

/// The place of a parent, by its node.
fn at_parent(found: Option<u32>) -> Option<TreePlace>
    ensures { result ≡ option_map tree.Node found }
{
    match found {
        Some(node) => Some(TreePlace::Node(node as usize)),
        None => None,
    }
}

/// The place of the leaf whose node this is.
fn at_leaf_node(found: Option<usize>) -> Option<TreePlace>
    requires { IfSome found (λ x. x < 2 ^ 32) }
    ensures { result ≡ option_map leaf_below found }
{
    match found {
        Some(node) => Some(TreePlace::Leaf((node / 2) as u32)),
        None => None,
    }
}

/// The place of a leaf.
fn at_leaf(found: Option<u32>) -> Option<TreePlace>
    ensures { result ≡ option_map tree.Leaf found }
{
    match found {
        Some(leaf) => Some(TreePlace::Leaf(leaf)),
        None => None,
    }
}

/// The tree of nodes that were sent, which shares them, if they are those of one.
fn tree_of(nodes: &RatchetTree) -> Result<Option<PublicTree>, AllocError>
    requires { IsShort ratchet_tree nodes.now }
    ensures tree { IfOk result (λ made. option_map term made
        ≡ result_ok (from_nodes max_leaves nodes.now)) }
    ensures short { IfOk result (λ made. IfSome made (λ tree. HasShortLeaves (term tree))) }
{
    let shared = nodes.clone()?;
    match PublicTree::from_nodes(shared.into_vec()) {
        Ok(tree) => Ok(Some(tree)),
        Err(TreeError::OutOfMemory) => Err(AllocError),
        Err(_) => Ok(None),
    }
}

/// The first member that breaks a rule of members.
fn member_breach<S: Suite>(
    alloc: Global,
    tree: &PublicTree,
    group_id: &[u8],
    signed: bool,
) -> Result<Option<TreePlace>, AllocError>
    requires group { length group_id.now < 2 ^ 28 }
    requires short { HasShortLeaves (term tree.now) }
    ensures { IfOk result (MemberBreach S.crypto group_id.now signed (Some (term tree.now))) }
{
    if signed {
        let found = first_unsigned::<S>(alloc, tree, group_id)?;
        return Ok(at_leaf(found));
    }
    Ok(at_leaf(first_incapable::<S>(tree)))
}

/// The first member of the tree of these nodes that breaks a rule of members. None where they are those of no tree.
fn breach_in_members<S: Suite>(
    alloc: Global,
    nodes: &RatchetTree,
    group_id: &[u8],
    signed: bool,
) -> Result<Option<TreePlace>, AllocError>
    requires short { IsShort ratchet_tree nodes.now }
    requires group { length group_id.now < 2 ^ 28 }
    ensures { IfOk result (MemberBreach S.crypto group_id.now signed
        (result_ok (from_nodes max_leaves nodes.now))) }
{
    match tree_of(nodes)? {
        Some(tree) => member_breach::<S>(alloc, &tree, group_id, signed),
        None => Ok(None),
    }
}

/// The first node or leaf, of the nodes that are sent, that breaks a rule.
pub(crate) fn breach_of_rule<S: Suite>(
    alloc: Global,
    nodes: &RatchetTree,
    group_id: &[u8],
    rule: Rule,
) -> Result<Option<TreePlace>, AllocError>
    requires short { IsShort ratchet_tree nodes.now }
    requires group { length group_id.now < 2 ^ 28 }
    ensures { IfOk result (IsBreach S.crypto group_id.now nodes.now rule) }
{
    match rule {
        Rule::Places => Ok(at_node(first_misplaced(nodes.as_slice()))),
        Rule::KeyForms => Ok(at_node(first_unfit::<S>(nodes.as_slice()))),
        Rule::Lists => {
            let found = first_wrong_parent(alloc, ParentRule::Lists, nodes.as_slice())?;
            Ok(at_parent(found))
        }
        Rule::Hashes => {
            let found = first_wrong_parent(alloc, ParentRule::Hashes, nodes.as_slice())?;
            Ok(at_parent(found))
        }
        Rule::Keys => {
            let found = first_repeated(alloc, KeyKind::Encryption, nodes.as_slice())?;
            Ok(at_node(found))
        }
        Rule::Clients => {
            let found = first_repeated(alloc, KeyKind::Signature, nodes.as_slice())?;
            Ok(at_leaf_node(found))
        }
        Rule::Signatures => breach_in_members::<S>(alloc, nodes, group_id, true),
        Rule::Capabilities => breach_in_members::<S>(alloc, nodes, group_id, false),
    }
}
