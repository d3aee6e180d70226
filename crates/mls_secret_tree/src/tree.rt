//! The secret tree of an epoch, and keys that are drafted from it.

ghost use Rattle.std.specs.Prelude.{◌≡◌};
ghost use Rattle.mls_treemath.specs.Steps.{height_of};
ghost use Rattle.mls_secret_tree.specs.Faults.{Gives, RefusesOutright};
ghost use Rattle.mls_secret_tree.specs.SecretTree.{IsFirstTree, is_fresh, draft_key, keep_draft, next_generation};

mod saved;

use crate::SecretTreeError;
use crate::node::SecretNode;
use crate::secrets::MessageKey;
use mls_kdf::Secret;
use mls_treemath::MAX_HEIGHT;
use std::alloc::Global;
use std::marker::Model;

/// The secret tree of an epoch: what the keys for application data that weren't used yet are derived from.
pub struct SecretTree {
    height: u32,
    root: SecretNode,
}

impl Drop for SecretTree {
    fn drop(self) {
        let SecretTree { height: _, root: _ } = self;
    }
}

// It is seen as what it holds.
impl Model for SecretTree {
    ghost use Rattle.std.specs.Prelude.{◌≤◌};
    ghost use Rattle.mls_treemath.specs.Limits.{max_height};
    ghost use Rattle.mls_secret_tree.specs.SecretTree.{Tree};
    ghost use Rattle.mls_secret_tree.specs.TreeCodes.{coded_tree};

    ghost Value = { Tree };

    ghost coded = { coded_tree };

    ghost view = { λ t. record { height = t.height; root = t.root } };

    ghost invariant = { λ t. t.height ≤ max_height };
}

/// A key that is taken from a tree once the draft is kept.
#[derive(Drop)]
pub struct Draft {
    leaf: u32,
    key: MessageKey,
    node: SecretNode,
}

// It is seen as what it holds.
impl Model for Draft {
    ghost use Rattle.mls_secret_tree.specs.SecretTree.{Drafted};
    ghost use Rattle.mls_secret_tree.specs.TreeCodes.{coded_draft};

    ghost Value = { Drafted };

    ghost coded = { coded_draft };

    ghost view = { λ d. record { leaf = d.leaf; key = d.key; held = d.node } };
}

impl Draft {
    /// The leaf whose key it is.
    pub fn leaf(&self) -> u32
        ensures { result ≡ self.now.leaf }
    {
        self.leaf
    }

    /// The key and the nonce.
    pub fn key(&self) -> &MessageKey
        ensures { result.now ≡ self.now.key }
    {
        &self.key
    }
}

impl SecretTree {
    /// The tree of an epoch with so many leaves, from its encryption secret (RFC 9420, 9): None unless they are a
    /// power of two up to [`MAX_LEAVES`](mls_treemath::MAX_LEAVES). Takes no memory.
    pub fn new(encryption_secret: &Secret, leaves: u32) -> Option<SecretTree>
        ensures { IsFirstTree encryption_secret.now (height_of leaves) result }
    {
        let height = leaves.trailing_zeros();
        if height <= MAX_HEIGHT && leaves == 1 << height {
            Some(SecretTree {
                height,
                root: SecretNode::whole(encryption_secret),
            })
        } else {
            None
        }
    }

    /// The height of the tree, which has 2^height leaves.
    pub fn height(&self) -> u32
        ensures { result ≡ self.now.height }
    {
        self.height
    }

    /// Whether no key was used yet.
    #[tactic(auto, unfolding(crate::specs::SecretTree::is_fresh))]
    pub fn is_fresh(&self) -> bool
        ensures { result ≡ is_fresh self.now }
    {
        self.root.is_whole()
    }

    /// The first generation of a leaf of which no key was made yet, as a sender takes it for its next message: None
    /// outside the tree, and after the last generation, 2^32 - 1.
    #[tactic(auto, unfolding(crate::specs::SecretTree::next_generation, crate::specs::SecretTree::in_32_bits))]
    pub fn next_generation(&self, leaf: u32) -> Option<u32>
        ensures { result ≡ next_generation self.now leaf }
    {
        if leaf >= 1 << self.height {
            return None;
        }
        let next = self.root.next_below(leaf, self.height);
        if next < 1 << 32 {
            Some(next as u32)
        } else {
            None
        }
    }

    /// The key for application data of a leaf in a generation (RFC 9420, 9.1). The tree is as before until the draft
    /// is kept. `SenderWithoutLeaf` (114) outside the tree, `GenerationTooFar` (115) where more than 1,000 generations
    /// would be passed over, `KeyUsed` (116) where the key was used, or lies more than 1,000 generations before the
    /// last one that was.
    #[tactic(auto, unfolding(crate::specs::SecretTree::draft_key))]
    pub fn draft_key(
        &self,
        alloc: Global,
        leaf: u32,
        generation: u32,
    ) -> Result<Draft, SecretTreeError>
        ensures answer { Gives (draft_key self.now leaf generation) result }
        // The three numbers come also when an allocation fails.
        ensures refused { RefusesOutright (draft_key self.now leaf generation) result }
    {
        if leaf >= 1 << self.height {
            return Err(SecretTreeError::SenderWithoutLeaf);
        }
        let (key, node) = self.root.take_below(alloc, leaf, self.height, generation)?;
        Ok(Draft { leaf, key, node })
    }

    /// Keeps a draft that was made of this tree: its key can't be drafted again, and what the key was derived from is
    /// gone (RFC 9420, 9.2). Takes no memory.
    #[tactic(auto, unfolding(crate::specs::SecretTree::keep_draft))]
    pub fn keep(&mut self, draft: Draft)
        ensures { self.new ≡ keep_draft self.old draft }
    {
        let Draft { leaf, key: _, node } = draft;
        self.root.put_below(leaf, self.height, node);
    }
}
