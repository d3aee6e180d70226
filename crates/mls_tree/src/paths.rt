//! A commit's path: the parent hash of its leaf, and its merge.

ghost use Rattle.std.specs.Prelude.{◌≡◌, ◌≤◌, length, Ok, IfOk, OnOk, OnErr};
ghost use Rattle.std.specs.Bool.{OnTrue};
ghost use Rattle.mls_wire.specs.Checks.{passed};
ghost use Rattle.mls_treemath.specs.Limits.{max_height};
ghost use Rattle.mls_treemath.specs.Paths.{nodes_in};
ghost use Rattle.mls_tree_model.specs.Node.{source_hash};
ghost use Rattle.mls_tree_model.specs.Term.{leaf_of};
ghost use Rattle.mls_tree_model.specs.Way.{path_length};
ghost use Rattle.mls_tree_model.specs.Hashes.{is_some_bytes};
ghost use Rattle.mls_tree_model.specs.Merge.{path_parent_hash};
ghost use Rattle.mls_tree_model.specs.Arrays.{term_of};
ghost use Rattle.mls_tree_array.specs.KeptHashes.{hashes_of};
ghost use Rattle.mls_tree_model.specs.LastPath.{last_path};
ghost use Rattle.mls_tree_array.specs.Standing.{Stands};
ghost use Rattle.mls_tree_array.specs.Merging.{hash_bytes};
ghost use Rattle.mls_tree_array.specs.PathParents.{HasParents};
ghost use Rattle.mls_tree.specs.ColdNodes.{Warms, WarmsThenChills};
ghost use Rattle.mls_tree.specs.IndexedKeys.{IsClient};
ghost use Rattle.mls_tree.specs.EditsKeepGood.{KeepsGoodAt, MakesGood};
ghost use Rattle.mls_tree.specs.Refusals.{PassesOutright, AnswersChecks, AnswersList, Refuses, AnswersMerge};
ghost use Rattle.mls_tree.specs.Tree.{term};
ghost use Rattle.mls_tree.specs.Paths.{path_checks, path_hash_answer, counts_answer, merge_checks};
ghost use Rattle.mls_tree.specs.PathMerging.{MergesParents, Follows, HasPathHash, keys_differ, ArePathParents};

use crate::error::TreeError;
use crate::key_indexes::KeyIndexes;
use crate::tree::PublicTree;
use crate::way::Way;
use mls_leaf::{Bytes, LeafNode, LeafSource};
use mls_tree_array::{self as array, Hash, MergedPath, Subtree};
use mls_tree_cells::Cells;
use mls_tree_slot::{SharedLeaf, SharedParent};
use std::alloc::AllocError;

/// Whether leaf i has this signature key.
fn is_client(cells: &Cells, height: u32, i: u32, key: &Bytes) -> bool
    requires { Stands height cells.now.nodes }
    ensures { OnTrue result (IsClient key.now (leaf_of (term_of height cells.now.nodes) i)) }
{
    match array::leaf(cells, height, i) {
        Some(leaf) => leaf.signature_key == *key,
        None => false,
    }
}

/// Merges a path whose parents these are, the highest first, and its keys into the indexes. Where the leaf keeps its
/// signature key, the index of clients stays as it is. Without memory all stays.
pub(crate) fn merge_with_indexes(
    cells: &mut Cells,
    indexes: &mut KeyIndexes,
    height: u32,
    i: u32,
    leaf: LeafNode,
    parents: Vec<SharedParent>,
) -> Result<(), AllocError>
    requires stands { Stands height cells.old.nodes }
    requires low { height ≤ max_height }
    requires long { length cells.old.hashes ≡ nodes_in height }
    ensures merged { OnOk result (MergesParents height i leaf parents cells.old cells.new) }
    ensures unchanged { OnErr result (cells.new ≡ cells.old) }
    ensures indexed { Follows height i parents cells.old cells.new indexes.old indexes.new }
{
    let kept = is_client(cells, height, i, &leaf.signature_key);
    let alloc = cells.allocator();
    let leaf = SharedLeaf::new(alloc, leaf)?;
    let changes = array::merge_changes(alloc, &Subtree::of(cells, height), i, parents, leaf)?;
    let way = Way::over(height, i);
    let places = way.as_slice();
    // Each place leaves and enters.
    indexes.reserve(3 * places.len())?;
    indexes.leave_path(cells, places, kept);
    let done = cells.put(changes);
    // Where nothing was put, the same cells enter again.
    indexes.enter_path(cells, places, kept);
    done
}

/// Whether the leaf's source is a commit with this parent hash.
pub(crate) fn has_parent_hash(leaf: &LeafNode, hash: &[u8]) -> bool
    ensures { result ≡ is_some_bytes (source_hash leaf.now.source) hash.now }
{
    match &leaf.source {
        LeafSource::Commit { parent_hash } => parent_hash.as_slice() == hash,
        _ => false,
    }
}

impl PublicTree {
    /// How many parents the filtered direct path of leaf i takes in.
    fn path_length(&self, i: u32) -> u32
        ensures { result ≡ path_length 0 (term self.now) i }
    {
        array::path_length(&self.subtree(), i)
    }

    /// The parent hash that reaches leaf i, where there is one.
    fn path_hash(&self, i: u32, keys: &[Bytes]) -> Option<Hash>
        requires { self.now.hashes ≡ hashes_of 0 (term self.now) }
        ensures { hash_bytes result ≡ path_parent_hash (term self.now) i keys.now }
    {
        array::path_hash(&self.hashed_subtree(), i, keys, None)
    }

    /// The parents over leaf i, the highest first, and the parent hash that reaches it.
    pub(crate) fn merged_path(&self, i: u32, keys: Vec<Bytes>) -> Result<MergedPath, AllocError>
        requires { self.now.hashes ≡ hashes_of 0 (term self.now) }
        ensures parents { IfOk result (HasParents 0 (term self.now) i keys.items) }
        ensures hash { IfOk result (HasPathHash (term self.now) i keys.items) }
    {
        let alloc = self.cells.allocator();
        let path = array::path_parents(alloc, &self.hashed_subtree(), i, keys)?;
        Ok(path)
    }

    /// Whether the merged tree has no encryption key twice. Takes memory only where the tree has one twice.
    pub(crate) fn keys_differ(
        &self,
        i: u32,
        leaf: &LeafNode,
        keys: &[Bytes],
    ) -> Result<bool, AllocError>
        requires { path_checks (term self.now) i (length keys.now) ≡ Ok passed }
        ensures { IfOk result (λ b. b ≡ keys_differ (term self.now) i leaf.now keys.now) }
    {
        let way = Way::over(self.height, i);
        let places = way.as_slice();
        let index = &self.indexes.keys;
        index.accepts_beside(&self.cells, places, &leaf.encryption_key, keys)
    }

    /// Refuses a leaf index at which no member is, and then a number of keys that isn't that of the filtered path.
    pub(crate) fn require_path(&self, i: u32, count: usize) -> Result<(), TreeError>
        ensures { PassesOutright (path_checks (term self.now) i count) result }
    {
        if self.leaf(i).is_none() {
            return Err(TreeError::NoSuchLeaf);
        }
        if count != self.path_length(i) as usize {
            return Err(TreeError::PathLength);
        }
        Ok(())
    }

    /// The parents of a path that may be merged, the highest first. They come with the parent hash that the last check
    /// wants, so no hash is made twice.
    pub(crate) fn require_merge(
        &self,
        i: u32,
        leaf: &LeafNode,
        keys: Vec<Bytes>,
    ) -> Result<Vec<SharedParent>, TreeError>
        requires { self.now.hashes ≡ hashes_of 0 (term self.now) }
        ensures checks { AnswersChecks (merge_checks (term self.now) i leaf.now keys.items) result }
        // `NoSuchLeaf` (22) and `PathLength` (30) come also when an allocation fails.
        ensures outright { Refuses (path_checks (term self.now) i (length keys.items)) result }
        ensures parents { IfOk result (ArePathParents (term self.now) i keys.items) }
    {
        match self.require_path(i, keys.len()) {
            Err(error) => return Err(error),
            Ok(()) => {}
        }
        let differ = self.keys_differ(i, leaf, &keys)?;
        if !differ {
            return Err(TreeError::KeyRepeated);
        }
        let path = self.merged_path(i, keys)?;
        let right = has_parent_hash(leaf, array::bytes_of(&path.hash));
        if !right {
            return Err(TreeError::ParentHashWrong);
        }
        Ok(path.parents)
    }

    /// How many ciphertexts each node of a path of member i has, the lowest first, where these leaves were just added:
    /// one for each node of the resolution of its child on the copath that isn't one of them (RFC 9420, 7.6).
    /// `NoSuchLeaf` (22) where no member is at leaf i, also when an allocation fails.
    pub fn ciphertext_counts(&self, i: u32, added: &[u32]) -> Result<Vec<usize>, TreeError>
        ensures answer { AnswersList (counts_answer (term self.now) i added.now) result }
        ensures outright { Refuses (counts_answer (term self.now) i added.now) result }
    {
        match self.require_member(i) {
            Err(error) => return Err(error),
            Ok(()) => {}
        }
        let levels = self.height as usize;
        let mut counts = Vec::with_capacity(self.cells.allocator(), levels)?;
        array::ciphertext_counts(&self.subtree(), i, added, &mut counts)?;
        Ok(counts)
    }

    /// The path of the last commit that had one, as node indices, from the root down to its leaf: the parent hashes tell
    /// it (RFC 9420, 7.9.2). Empty where the root is blank or the tree is a leaf.
    pub fn last_path(&self) -> Result<Vec<u32>, AllocError>
        ensures { IfOk result (λ v. v.items ≡ last_path (term self.now)) }
    {
        array::last_path(self.cells.allocator(), &self.subtree())
    }

    /// The parent hash that the leaf of a path with these keys must have, the lowest first: empty where the filtered
    /// path is (RFC 9420, 7.9). Refused with `NoSuchLeaf` (22) where no member is at leaf i, then with `PathLength`
    /// (30) where there aren't as many keys as its filtered path has parents.
    pub fn path_parent_hash(&mut self, i: u32, keys: &[Bytes]) -> Result<Vec<u8>, TreeError>
        ensures answer { AnswersList (path_hash_answer (term self.old) i keys.now) result }
        // `NoSuchLeaf` (22) and `PathLength` (30) come also when an allocation fails.
        ensures outright { Refuses (path_checks (term self.old) i (length keys.now)) result }
        ensures same { term self.new ≡ term self.old }
        ensures warms { Warms self.old self.new }
    {
        match self.require_path(i, keys.len()) {
            Err(error) => return Err(error),
            Ok(()) => {}
        }
        let _tree_hash = self.tree_hash();
        let hash = self.path_hash(i, keys);
        Ok(Vec::from_slice(self.cells.allocator(), array::bytes_of(&hash))?)
    }

    /// Merges a commit's path: replaces the leaf of member i, gives the parents of its filtered path these keys, the
    /// lowest first, and blanks the others over it (RFC 9420, 7.5). Refused with `NoSuchLeaf` (22) where no member is
    /// there; then with `PathLength` (30) where there aren't as many keys as the filtered path has parents; then with
    /// `KeyRepeated` (25) where two nodes of the merged tree have one encryption key; then with `ParentHashWrong` (24)
    /// where the leaf's source isn't a commit with the path's parent hash. After a refusal the tree is as before, but
    /// that it may keep more hashes.
    pub fn merge_path(&mut self, i: u32, leaf: LeafNode, keys: Vec<Bytes>) -> Result<(), TreeError>
        ensures answer { AnswersMerge i leaf keys.items self.old self.new result }
        // `NoSuchLeaf` (22) and `PathLength` (30) come also when an allocation fails.
        ensures outright { Refuses (path_checks (term self.old) i (length keys.items)) result }
        // A good tree stays good where the leaf and the keys pass the checks.
        ensures good { OnOk result (KeepsGoodAt i leaf keys.items self.old self.new) }
        // It warms nodes, and then makes the leaf and the nodes over it cold.
        ensures cold { OnOk result (WarmsThenChills i self.old self.new) }
        ensures warms { OnErr result (Warms self.old self.new) }
        // A sound tree becomes good, as keys are checked here, where no client repeats in it and the leaf keeps its
        // signature key.
        ensures checked { OnOk result (MakesGood i leaf keys.items self.old self.new) }
    {
        let _tree_hash = self.tree_hash();
        let parents = match self.require_merge(i, &leaf, keys) {
            Err(error) => return Err(error),
            Ok(parents) => parents,
        };
        let height = self.height;
        merge_with_indexes(&mut self.cells, &mut self.indexes, height, i, leaf, parents)?;
        Ok(())
    }
}
