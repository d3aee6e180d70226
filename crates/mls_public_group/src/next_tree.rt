//! The ratchet tree of the next epoch.

ghost use Rattle.std.specs.Prelude.{◌≡◌, OnOk, OnErr};
ghost use Rattle.mls_tree.specs.Tree.{term};
ghost use Rattle.mls_public_group.specs.NextTree.{next_term, IsPreparedFor, IsHashOf};

use crate::shared_tree::SharedTree;
use mls_tree::{Hash, PreparedPath};
use std::alloc::AllocError;

/// The ratchet tree of the next epoch. A commit's path is prepared for its tree and merged into it when the epoch
/// begins, so that no tree is copied for it; until then the group's own tree stays as it is.
#[derive(Drop)]
pub enum NextTree {
    /// A tree of its own.
    Edited(SharedTree),
    /// A tree of its own with this path merged, which was prepared for it.
    EditedMerged(SharedTree, PreparedPath),
    /// The group's tree with this path merged, which was prepared for it.
    Merged(PreparedPath),
}

impl NextTree {
    /// The tree hash (RFC 9420, 7.8).
    #[tactic(auto, unfolding(crate::specs::NextTree::next_term, crate::specs::NextTree::IsPreparedFor))]
    pub fn tree_hash(&self) -> Hash
        ensures { IsHashOf self.now result }
    {
        match self {
            NextTree::Edited(tree) => tree.tree_hash(),
            NextTree::EditedMerged(_, path) => path.tree_hash(),
            NextTree::Merged(path) => path.tree_hash(),
        }
    }
}

impl SharedTree {
    /// Becomes the next epoch's tree. Without memory it is as before.
    #[tactic(auto, unfolding(crate::specs::NextTree::next_term, crate::specs::NextTree::IsPreparedFor))]
    pub(crate) fn enter(&mut self, next: NextTree) -> Result<(), AllocError>
        requires { IsPreparedFor (term self.old) next }
        ensures next { OnOk result (term self.new ≡ next_term (term self.old) next) }
        ensures same { OnErr result (term self.new ≡ term self.old) }
    {
        match next {
            NextTree::Edited(tree) => *self = tree,
            NextTree::EditedMerged(mut tree, path) => {
                tree.follow_path(path)?;
                *self = tree;
            }
            NextTree::Merged(path) => self.follow_path(path)?,
        }
        Ok(())
    }
}
