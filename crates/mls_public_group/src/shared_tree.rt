//! A ratchet tree that groups and edits share.

ghost use Rattle.std.specs.Prelude.{◌≡◌, IfOk, OnOk, OnErr};
ghost use Rattle.mls_tree_model.specs.Hashes.{tree_hash};
ghost use Rattle.mls_tree_array.specs.KeptHashes.{hashes_of};
ghost use Rattle.mls_tree.specs.PreparedPath.{merged_by, IsFor};
ghost use Rattle.mls_tree.specs.Tree.{term};

use mls_tree::{Hash, PreparedPath, PublicTree};
use std::alloc::{AllocError, Global};
use std::marker::Model;
use std::rc::Rc;

/// A ratchet tree behind a pointer, which keeps all of its hashes (RFC 9420, 7.1 and 7.8). A copy is the same tree and
/// takes no memory of its own.
pub struct SharedTree {
    tree: Rc<PublicTree>,
    // Its tree hash.
    hash: Hash,
}

impl Drop for SharedTree {
    fn drop(self) {
        let SharedTree { tree: _, hash: _ } = self;
    }
}

impl Model for SharedTree {
    ghost use Rattle.std.specs.Prelude.{◌≡◌};
    ghost use Rattle.mls_tree_model.specs.Hashes.{tree_hash};
    ghost use Rattle.mls_tree_array.specs.KeptHashes.{hashes_of};
    ghost use Rattle.mls_tree.specs.Tree.{Tree, term};

    ghost Value = { Tree };

    ghost view = { λ s. s.tree.value };

    ghost invariant = { λ s. (s.tree.value.hashes ≡ hashes_of 0 (term s.tree.value))
        × (s.hash ≡ tree_hash 0 (term s.tree.value)) };
}

impl SharedTree {
    /// A tree that can be shared. Its hashes that aren't kept yet are made.
    pub fn new(alloc: Global, tree: PublicTree) -> Result<SharedTree, AllocError>
        ensures { IfOk result (λ s. term s ≡ term tree) }
    {
        let mut tree = tree;
        let hash = tree.tree_hash();
        tree.share();
        match Rc::new(alloc, tree) {
            Ok(tree) => Ok(SharedTree { tree, hash }),
            // Want of memory: the place behind the pointer, which fails for nothing else.
            Err(_) => Err(AllocError),
        }
    }

    /// The tree, which keeps all of its hashes.
    pub fn as_tree(&self) -> &PublicTree
        ensures tree { result.now ≡ self.now }
        ensures hashed { result.now.hashes ≡ hashes_of 0 (term result.now) }
    {
        self.tree.as_ref()
    }

    /// The tree hash (RFC 9420, 7.8).
    pub fn tree_hash(&self) -> Hash
        ensures { result ≡ tree_hash 0 (term self.now) }
    {
        self.hash
    }

    /// Merges a path that was prepared for this tree. It is copied first where it is shared; elsewhere nothing of it
    /// is. Without memory it is as before.
    pub fn follow_path(&mut self, path: PreparedPath) -> Result<(), AllocError>
        requires { IsFor (term self.old) path }
        ensures tree { OnOk result (term self.new ≡ merged_by (term self.old) path) }
        ensures same { OnErr result (term self.new ≡ term self.old) }
    {
        let hash = path.tree_hash();
        let tree = Rc::make_mut(&mut self.tree)?;
        tree.follow_path(path)?;
        tree.share();
        self.hash = hash;
        Ok(())
    }
}

impl Clone for SharedTree {
    ghost is_clone = { λ s t. t ≡ s };

    fn clone(&self) -> Result<SharedTree, AllocError> {
        Ok(SharedTree {
            tree: self.tree.clone()?,
            hash: self.hash,
        })
    }
}
