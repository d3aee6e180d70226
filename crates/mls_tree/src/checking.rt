//! The checks of a whole tree (RFC 9420, 7.3, 7.9.2 and 12.4.3.1).

ghost use Rattle.std.specs.Prelude.{◌≡◌, ℕ, ◌<◌, ◌≤◌, ◌^◌, true, length, IfOk, OnOk, IfSome};
ghost use Rattle.std.specs.Option.{option_copied};
ghost use Rattle.std.specs.List.{list_all};
ghost use Rattle.mls_wire.specs.Checks.{require};
ghost use Rattle.mls_treemath.specs.Paths.{nodes_in};
ghost use Rattle.mls_treemath.specs.Limits.{max_height};
ghost use Rattle.mls_checks.specs.Leaf.{is_capable};
ghost use Rattle.mls_checks.specs.Short.{IsShort};
ghost use Rattle.mls_leaf.specs.Leaf.{leaf_node};
ghost use Rattle.mls_tree_model.specs.Keys.{passes};
ghost use Rattle.mls_tree_model.specs.Good.{has_good_lists, has_good_hashes, has_distinct_keys, has_distinct_clients};
ghost use Rattle.mls_tree_model.specs.Arrays.{term_of};
ghost use Rattle.mls_tree_array.specs.KeptHashes.{hashes_of};
ghost use Rattle.mls_tree_array.specs.Standing.{Stands};
ghost use Rattle.mls_tree_array.specs.CellKeys.{cell_keys};
ghost use Rattle.mls_tree_array.specs.RightLists.{AllRise};
ghost use Rattle.mls_tree.specs.ColdNodes.{Warms};
ghost use Rattle.mls_tree.specs.HeldKeys.{has_client, has_key};
ghost use Rattle.mls_tree.specs.IndexedKeys.{AreIndexes};
ghost use Rattle.mls_tree.specs.Refusals.{Refuses};
ghost use Rattle.mls_tree.specs.ShortLeaves.{HasShortLeaves};
ghost use Rattle.mls_tree.specs.Tree.{term};
ghost use Rattle.mls_tree.specs.Checking.{AnswersCapable, AnswersSigned, AnswersAllSigned, AnswersAllFit, AnswersTreeChecks, IsGoodIfShaped};

use crate::error::TreeError;
use crate::key_indexes::KeyIndexes;
use crate::tree::PublicTree;
use mls_checks::{leaf_capable, leaf_signed};
use mls_leaf::LeafNode;
use mls_suite::Suite;
use mls_tree_array::{self as array, HashedSubtree, Subtree};
use mls_tree_cells::Cells;
use mls_tree_slot::{NodeRef, Slot};
use std::alloc::{AllocError, Global};

/// Whether a leaf has the capabilities, where it isn't blank.
fn is_capable_or_blank(leaf: Option<&LeafNode>, suite: u16) -> bool
    ensures { (i : ℕ) → result ≡ passes (λ j x. is_capable suite x) i (option_copied leaf.entry) }
{
    match leaf {
        Some(leaf) => leaf_capable(leaf, suite),
        None => true,
    }
}

/// Whether each member has the capabilities that a group of this suite needs.
fn are_all_capable(cells: &Cells, height: u32, suite: u16) -> bool
    requires shape { length cells.now.nodes ≡ nodes_in height }
    requires fits { length cells.now.nodes < 2 ^ 32 }
    ensures { AnswersCapable suite (term_of height cells.now.nodes) result }
{
    let leaves = (cells.len() / 2 + 1) as u32;
    for i in 0..leaves {
        if !is_capable_or_blank(array::leaf(cells, height, i), suite) {
            return false;
        }
    }
    true
}

/// Whether a leaf's signature is its own, where it isn't blank.
fn is_signed_or_blank<S: Suite>(
    alloc: Global,
    leaf: Option<&LeafNode>,
    group_id: &[u8],
    index: u32,
) -> Result<bool, AllocError>
    requires short { IfSome (option_copied leaf) (λ v. IsShort leaf_node v) }
    requires group { length group_id.now < 2 ^ 28 }
    ensures { IfOk result (AnswersSigned S.crypto group_id.now index (option_copied leaf.entry)) }
{
    match leaf {
        Some(leaf) => leaf_signed::<S>(alloc, leaf, group_id, index),
        None => Ok(true),
    }
}

/// Whether each member's signature is its own.
fn are_all_signed<S: Suite>(
    alloc: Global,
    cells: &Cells,
    height: u32,
    group_id: &[u8],
) -> Result<bool, AllocError>
    requires shape { length cells.now.nodes ≡ nodes_in height }
    requires fits { length cells.now.nodes < 2 ^ 32 }
    requires group { length group_id.now < 2 ^ 28 }
    requires short { HasShortLeaves (term_of height cells.now.nodes) }
    ensures { IfOk result
        (AnswersAllSigned S.crypto group_id.now (term_of height cells.now.nodes)) }
{
    let leaves = (cells.len() / 2 + 1) as u32;
    for i in 0..leaves {
        if !is_signed_or_blank::<S>(alloc, array::leaf(cells, height, i), group_id, i)? {
            return Ok(false);
        }
    }
    Ok(true)
}

/// Whether the encryption key in a place is fit for sealing, where it isn't blank.
fn is_fit_or_blank<S: Suite>(node: &Slot) -> bool
    ensures { result ≡ list_all S.crypto.key_ok (cell_keys node.now) }
{
    match node.node() {
        Some(NodeRef::Leaf(leaf)) => S::key_ok(leaf.encryption_key.as_slice()),
        Some(NodeRef::Parent(parent)) => S::key_ok(parent.encryption_key()),
        None => true,
    }
}

/// Whether each encryption key is fit for sealing. Takes no memory.
fn are_all_fit<S: Suite>(cells: &Cells, height: u32) -> bool
    requires { Stands height cells.now.nodes }
    ensures { AnswersAllFit S.crypto (term_of height cells.now.nodes) result }
{
    for x in 0..cells.len() {
        if !is_fit_or_blank::<S>(cells.slot(x)) {
            return false;
        }
    }
    true
}

/// Whether each list of unmerged leaves is right.
fn has_good_lists(cells: &Cells, height: u32) -> bool
    requires stands { Stands height cells.now.nodes }
    requires low { height ≤ max_height }
    ensures right { result ≡ has_good_lists (term_of height cells.now.nodes) }
    ensures rising { result ≡ true → AllRise 0 (term_of height cells.now.nodes) }
{
    array::has_good_lists(&Subtree::of(cells, height))
}

/// Whether each parent is parent-hash valid, where the lists of unmerged leaves are right.
fn has_good_hashes(alloc: Global, cells: &Cells, height: u32) -> Result<bool, AllocError>
    requires stands { Stands height cells.now.nodes }
    requires low { height ≤ max_height }
    requires hashed { cells.now.hashes ≡ hashes_of 0 (term_of height cells.now.nodes) }
    requires lists { has_good_lists (term_of height cells.now.nodes) ≡ true }
    ensures { IfOk result (λ v. v ≡ has_good_hashes (term_of height cells.now.nodes)) }
{
    let tree = HashedSubtree::of(cells, height);
    array::has_good_hashes(alloc, &tree)
}

/// The checks of a whole tree in their order.
#[tactic(auto, unfolding(mls_tree_model::specs::Good::tree_checks))]
fn check<S: Suite>(
    alloc: Global,
    cells: &Cells,
    indexes: &KeyIndexes,
    height: u32,
    group_id: &[u8],
) -> Result<(), TreeError>
    requires stands { Stands height cells.now.nodes }
    requires low { height ≤ max_height }
    requires group { length group_id.now < 2 ^ 28 }
    requires short { HasShortLeaves (term_of height cells.now.nodes) }
    requires hashed { cells.now.hashes ≡ hashes_of 0 (term_of height cells.now.nodes) }
    requires indexed { AreIndexes cells.now.nodes indexes.now }
    ensures answer { AnswersTreeChecks S.crypto group_id.now
        (term_of height cells.now.nodes) result }
    ensures lists { Refuses (require 23 (has_good_lists (term_of height cells.now.nodes))) result }
    ensures rising { OnOk result (AllRise 0 (term_of height cells.now.nodes)) }
{
    if !has_good_lists(cells, height) {
        return Err(TreeError::UnmergedWrong);
    }
    if !has_good_hashes(alloc, cells, height)? {
        return Err(TreeError::ParentHashWrong);
    }
    if !indexes.has_distinct_keys() {
        return Err(TreeError::KeyRepeated);
    }
    if !indexes.has_distinct_clients() {
        return Err(TreeError::ClientRepeated);
    }
    if !are_all_signed::<S>(alloc, cells, height, group_id)? {
        return Err(TreeError::LeafSignature);
    }
    if !are_all_capable(cells, height, S::NUMBER) {
        return Err(TreeError::LeafCapability);
    }
    if !are_all_fit::<S>(cells, height) {
        return Err(TreeError::BadKey);
    }
    Ok(())
}

impl PublicTree {
    /// The checks of a whole tree, of which the first that fails is answered: `UnmergedWrong` (23) where a list of
    /// unmerged leaves names a leaf that it may not (RFC 9420, 12.4.3.1); `ParentHashWrong` (24) where a parent isn't
    /// parent-hash valid (RFC 9420, 7.9.2); `KeyRepeated` (25) where two nodes have one encryption key;
    /// `ClientRepeated` (26) where two members have one signature key; `LeafSignature` (51) where a member's signature
    /// isn't its own; `LeafCapability` (52) where a member lacks a capability (RFC 9420, 7.3); `BadKey` (36) where an
    /// encryption key isn't fit for sealing. A tree of good shape that is accepted is good.
    pub fn check<S: Suite>(&mut self, group_id: &[u8]) -> Result<(), TreeError>
        requires group { length group_id.now < 2 ^ 28 }
        requires short { HasShortLeaves (term self.old) }
        ensures answer { AnswersTreeChecks S.crypto group_id.now (term self.old) result }
        // `UnmergedWrong` (23) comes also when an allocation fails.
        ensures outright { Refuses (require 23 (has_good_lists (term self.old))) result }
        ensures good { OnOk result (IsGoodIfShaped S.crypto group_id.now (term self.old)) }
        ensures same { term self.new ≡ term self.old }
        ensures warms { Warms self.old self.new }
    {
        let _tree_hash = self.tree_hash();
        let alloc = self.cells.allocator();
        let (cells, indexes) = (&self.cells, &self.indexes);
        check::<S>(alloc, cells, indexes, self.height, group_id)
    }

    /// Whether no two nodes have one encryption key (RFC 9420, 7.3).
    pub fn has_distinct_keys(&self) -> bool
        ensures { result ≡ has_distinct_keys (term self.now) }
    {
        self.indexes.has_distinct_keys()
    }

    /// Whether no two members have one signature key (RFC 9420, 7.3).
    pub fn has_distinct_clients(&self) -> bool
        ensures { result ≡ has_distinct_clients (term self.now) }
    {
        self.indexes.has_distinct_clients()
    }

    /// Whether a node has this encryption key (RFC 9420, 7.3).
    pub fn has_key(&self, key: &[u8]) -> bool
        ensures { result ≡ has_key (term self.now) key.now }
    {
        self.indexes.has_key(&self.cells, key)
    }

    /// Whether a member is the client with this signature key (RFC 9420, 7.3).
    pub fn has_client(&self, key: &[u8]) -> bool
        ensures { result ≡ has_client (term self.now) key.now }
    {
        self.indexes.has_client(&self.cells, key)
    }
}
