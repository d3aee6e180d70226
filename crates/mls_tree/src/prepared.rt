//! A commit's path that is checked against a tree and hashed while the tree stays as it is, and merged into it later.

ghost use Rattle.std.specs.Prelude.{◌≡◌, length, IfOk, OnOk, OnErr};
ghost use Rattle.mls_tree_model.specs.Term.{Term};
ghost use Rattle.mls_tree_model.specs.Hashes.{tree_hash};
ghost use Rattle.mls_tree_array.specs.KeptHashes.{hashes_of};
ghost use Rattle.mls_tree.specs.ColdNodes.{ChillsThenWarms};
ghost use Rattle.mls_tree.specs.Paths.{path_checks};
ghost use Rattle.mls_tree.specs.PreparedPath.{merged_by, IsFor, AreHashesOver, AnswersPrepared, IsPreparedFor, PathKeepsGood, PathMakesGood};
ghost use Rattle.mls_tree.specs.Refusals.{Refuses};
ghost use Rattle.mls_tree.specs.Tree.{term};

use crate::error::TreeError;
use crate::paths::merge_with_indexes;
use crate::tree::PublicTree;
use mls_leaf::{Bytes, LeafNode};
use mls_tree_array::{self as array, Hash};
use mls_tree_slot::SharedParent;
use std::alloc::AllocError;
use std::marker::Model;

/// A commit's path that may be merged into the tree that it was prepared for, with all that its merge makes.
#[derive(Drop)]
pub struct PreparedPath {
    index: u32,
    leaf: LeafNode,
    /// The parents over the leaf, the highest first.
    parents: Vec<SharedParent>,
    /// The tree hashes of the leaf and of the nodes over it, the lowest first.
    hashes: Vec<Hash>,
    root: Hash,
}

impl Model for PreparedPath {
    ghost use Rattle.mls_tree.specs.PreparedPath.{Prepared};

    ghost Value = { Prepared };

    ghost view = { λ p. record {
      index = p.index;
      leaf = p.leaf;
      parents = p.parents.items;
      hashes = p.hashes.items;
      root = p.root;
    } };
}

impl PreparedPath {
    /// The tree hash of the merged tree (RFC 9420, 7.8).
    pub fn tree_hash(&self) -> Hash
        ensures { (t : Term) → IsFor t self.now → result ≡ tree_hash 0 (merged_by t self.now) }
    {
        self.root
    }
}

impl PublicTree {
    /// The tree hashes of leaf i and of the nodes over it once a path with these parents is merged, the lowest first,
    /// and the tree hash.
    fn hashes_over(
        &self,
        i: u32,
        leaf: &LeafNode,
        parents: &[SharedParent],
    ) -> Result<(Vec<Hash>, Hash), AllocError>
        requires { self.now.hashes ≡ hashes_of 0 (term self.now) }
        ensures { IfOk result (AreHashesOver (term self.now) i parents.now leaf.now) }
    {
        let levels = self.height as usize + 1;
        let mut hashes = Vec::with_capacity(self.cells.allocator(), levels)?;
        let mut done = 0;
        let tree = self.hashed_subtree();
        let root = array::merged_hashes(&tree, i, parents, leaf, &mut hashes, &mut done)?;
        Ok((hashes, root))
    }

    /// Checks a commit's path as `merge_path` does, and makes all that its merge makes of a tree in which no node is
    /// cold, while the tree stays as it is. Refused with `NoSuchLeaf` (22), `PathLength` (30), `KeyRepeated` (25) and
    /// `ParentHashWrong` (24), in this order.
    pub fn prepare_path(
        &self,
        i: u32,
        leaf: LeafNode,
        keys: Vec<Bytes>,
    ) -> Result<PreparedPath, TreeError>
        requires warm { self.now.hashes ≡ hashes_of 0 (term self.now) }
        ensures answer { AnswersPrepared (term self.now) i leaf keys.items result }
        // `NoSuchLeaf` (22) and `PathLength` (30) come also when an allocation fails.
        ensures outright { Refuses (path_checks (term self.now) i (length keys.items)) result }
        ensures prepared { IfOk result (IsPreparedFor (term self.now) i leaf keys.items) }
    {
        let parents = match self.require_merge(i, &leaf, keys) {
            Err(error) => return Err(error),
            Ok(parents) => parents,
        };
        let (hashes, root) = self.hashes_over(i, &leaf, &parents)?;
        Ok(PreparedPath {
            index: i,
            leaf,
            parents,
            hashes,
            root,
        })
    }

    /// Merges a path that was prepared for this tree, in which no node is cold before or after: nothing is checked
    /// again, and no hash made. Without memory the tree is as before.
    pub fn follow_path(&mut self, path: PreparedPath) -> Result<(), AllocError>
        requires warm { self.old.hashes ≡ hashes_of 0 (term self.old) }
        requires prepared { IsFor (term self.old) path }
        ensures tree { OnOk result (term self.new ≡ merged_by (term self.old) path) }
        ensures warm { OnOk result (self.new.hashes ≡ hashes_of 0 (term self.new)) }
        // It makes the leaf and the nodes over it cold, and then warms them: the hashes that were made for it are
        // counted.
        ensures cold { OnOk result (ChillsThenWarms path.index self.old self.new) }
        // What a path keeps of a tree, as a merge does.
        ensures good { OnOk result (PathKeepsGood path self.old self.new) }
        ensures checked { OnOk result (PathMakesGood path self.old self.new) }
        ensures unchanged { OnErr result (self.new ≡ self.old) }
    {
        let height = self.height;
        let (cells, indexes) = (&mut self.cells, &mut self.indexes);
        merge_with_indexes(cells, indexes, height, path.index, path.leaf, path.parents)?;
        array::put_hashes(cells, height, path.index, &path.hashes, &mut self.done);
        Ok(())
    }
}
