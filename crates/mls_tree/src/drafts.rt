//! A committer's path before its leaf is signed. What a merge makes over the leaf is made once, for the parent hash that
//! the leaf has to have and for the merge.

ghost use Rattle.std.specs.Prelude.{◌≡◌, length, Ok, IfOk, OnOk, OnErr};
ghost use Rattle.mls_wire.specs.Checks.{passed};
ghost use Rattle.mls_tree_array.specs.PathParents.{HasParents};
ghost use Rattle.mls_tree.specs.ColdNodes.{Warms, WarmsThenChills};
ghost use Rattle.mls_tree.specs.EditsKeepGood.{KeepsGoodAt, MakesGood};
ghost use Rattle.mls_tree.specs.PathDraft.{AnswersDraft, IsDraftFor, IsDraftOf};
ghost use Rattle.mls_tree.specs.PathMerging.{ArePathParents, HasPathHash};
ghost use Rattle.mls_tree.specs.Paths.{merge_checks, path_checks};
ghost use Rattle.mls_tree.specs.Refusals.{AnswersChecks, AnswersMerge, Refuses};
ghost use Rattle.mls_tree.specs.Tree.{term};

use crate::error::TreeError;
use crate::paths::{has_parent_hash, merge_with_indexes};
use crate::tree::PublicTree;
use mls_leaf::{Bytes, LeafNode};
use mls_tree_array::{self as array, MergedPath};
use mls_tree_slot::SharedParent;
use std::marker::Model;

/// The keys of a path that isn't merged yet, with what its merge makes of them over its leaf, and the parent hash that
/// the leaf must have.
#[derive(Drop)]
pub struct PathDraft {
    index: u32,
    /// The keys, the lowest first.
    keys: Vec<Bytes>,
    path: MergedPath,
}

impl Model for PathDraft {
    ghost use Rattle.mls_tree_array.specs.Merging.{hash_bytes};
    ghost use Rattle.mls_tree.specs.PathDraft.{Draft};

    ghost Value = { Draft };

    ghost view = { λ d. record {
      index = d.index;
      keys = d.keys.items;
      parents = d.path.parents.items;
      hash = hash_bytes d.path.hash;
    } };
}

impl PathDraft {
    /// The parent hash that the leaf of the path must have (RFC 9420, 7.9): empty where the filtered path is.
    pub fn parent_hash(&self) -> &[u8]
        ensures { result.now ≡ self.now.hash }
    {
        array::bytes_of(&self.path.hash)
    }
}

impl PublicTree {
    /// The parents that a drafted path makes, the highest first, where its leaf may be merged: `KeyRepeated` (25),
    /// `ParentHashWrong` (24).
    fn require_leaf(
        &self,
        i: u32,
        leaf: &LeafNode,
        keys: &[Bytes],
        path: MergedPath,
    ) -> Result<Vec<SharedParent>, TreeError>
        requires checks { path_checks (term self.now) i (length keys.now) ≡ Ok passed }
        requires parents { HasParents 0 (term self.now) i keys.now path }
        requires hash { HasPathHash (term self.now) i keys.now path }
        ensures checks { AnswersChecks (merge_checks (term self.now) i leaf.now keys.now) result }
        ensures parents { IfOk result (ArePathParents (term self.now) i keys.now) }
    {
        let differ = self.keys_differ(i, leaf, keys)?;
        if !differ {
            return Err(TreeError::KeyRepeated);
        }
        let right = has_parent_hash(leaf, array::bytes_of(&path.hash));
        if !right {
            return Err(TreeError::ParentHashWrong);
        }
        Ok(path.parents)
    }

    /// A path of member i with these keys, the lowest first, before its leaf is signed (RFC 9420, 7.9). Refused with
    /// `NoSuchLeaf` (22) where no member is at leaf i, then with `PathLength` (30) where there aren't as many keys as its
    /// filtered path has parents.
    pub fn draft_path(&mut self, i: u32, keys: Vec<Bytes>) -> Result<PathDraft, TreeError>
        ensures answer { AnswersDraft (term self.old) i keys.items result }
        // `NoSuchLeaf` (22) and `PathLength` (30) come also when an allocation fails.
        ensures outright { Refuses (path_checks (term self.old) i (length keys.items)) result }
        ensures draft { IfOk result (IsDraftOf (term self.old) i keys.items) }
        ensures same { term self.new ≡ term self.old }
        ensures warms { Warms self.old self.new }
    {
        match self.require_path(i, keys.len()) {
            Err(error) => return Err(error),
            Ok(()) => {}
        }
        let _tree_hash = self.tree_hash();
        let given = keys.clone()?;
        let path = self.merged_path(i, keys)?;
        Ok(PathDraft {
            index: i,
            keys: given,
            path,
        })
    }

    /// Merges a path of leaf i with these keys, the lowest first, whose parents and parent hash are made: `KeyRepeated`
    /// (25), `ParentHashWrong` (24).
    fn merge_made(
        &mut self,
        i: u32,
        leaf: LeafNode,
        keys: &[Bytes],
        path: MergedPath,
    ) -> Result<(), TreeError>
        requires checks { path_checks (term self.old) i (length keys.now) ≡ Ok passed }
        requires parents { HasParents 0 (term self.old) i keys.now path }
        requires hash { HasPathHash (term self.old) i keys.now path }
        ensures answer { AnswersMerge i leaf keys.now self.old self.new result }
        ensures good { OnOk result (KeepsGoodAt i leaf keys.now self.old self.new) }
        ensures cold { OnOk result (WarmsThenChills i self.old self.new) }
        ensures warms { OnErr result (Warms self.old self.new) }
        ensures checked { OnOk result (MakesGood i leaf keys.now self.old self.new) }
    {
        let _tree_hash = self.tree_hash();
        let parents = match self.require_leaf(i, &leaf, keys, path) {
            Err(error) => return Err(error),
            Ok(parents) => parents,
        };
        let height = self.height;
        merge_with_indexes(&mut self.cells, &mut self.indexes, height, i, leaf, parents)?;
        Ok(())
    }

    /// Merges a path that was drafted for this tree, with its leaf, as `merge_path` does (RFC 9420, 7.5): refused with
    /// `KeyRepeated` (25) where two nodes of the merged tree have one encryption key; then with `ParentHashWrong` (24)
    /// where the leaf's source isn't a commit with the path's parent hash. After a refusal the tree is as before, but
    /// that it may keep more hashes.
    pub fn merge_draft(&mut self, leaf: LeafNode, draft: PathDraft) -> Result<(), TreeError>
        requires { IsDraftFor (term self.old) draft }
        ensures answer { AnswersMerge draft.index leaf draft.keys self.old self.new result }
        // A good tree stays good where the leaf and the keys pass the checks.
        ensures good { OnOk result (KeepsGoodAt draft.index leaf draft.keys self.old self.new) }
        // It warms nodes, and then makes the leaf and the nodes over it cold.
        ensures cold { OnOk result (WarmsThenChills draft.index self.old self.new) }
        ensures warms { OnErr result (Warms self.old self.new) }
        // A sound tree becomes good, as keys are checked here, where no client repeats in it and the leaf keeps its
        // signature key.
        ensures checked { OnOk result (MakesGood draft.index leaf draft.keys self.old self.new) }
    {
        let PathDraft { index, keys, path } = draft;
        self.merge_made(index, leaf, &keys, path)
    }
}
