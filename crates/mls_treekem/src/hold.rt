//! Whether a member has exactly the private keys that are due (RFC 9420, 7.1 and 7.5).

ghost use Rattle.std.specs.Prelude.{◌≡◌, ◌+◌, ◌^◌, ◌≤◌, IfOk};
ghost use Rattle.std.specs.Option.{option_copied};
ghost use Rattle.std.specs.Str.{bytes_eq};
ghost use Rattle.mls_tree.specs.Tree.{term};
ghost use Rattle.mls_treekem_model.specs.Holding.{holds_at};
ghost use Rattle.mls_treekem.specs.Holding.{TellsExact, is_own, holds_below};

use crate::PrivatePath;
use crate::places::{parent_in, side_of};
use crate::take::lists;
use mls_kdf::Secret;
use mls_leaf::{LeafNode, ParentNode};
use mls_suite::{OutOfMemory, Suite};
use mls_tree::PublicTree;
use std::alloc::Global;

/// Whether a member's private keys are those that it has to have.
#[derive(Clone, Copy, Debug, PartialEq, Eq)]
pub enum HeldKeys {
    /// They are exactly those.
    Exact,
    /// One is missing, is not due, or is not its node's.
    Other,
}

/// Whether a private key has this public key.
fn is_key_of<S: Suite>(alloc: Global, key: &Secret, public_key: &[u8]) -> Result<bool, OutOfMemory>
    ensures { IfOk result (λ b. b ≡ bytes_eq (S.crypto.public key.now) public_key.now) }
{
    let public = S::public(alloc, key)?;
    Ok(public.as_slice() == public_key)
}

/// Whether what a leaf holds at a parent is what is due there: nothing where that is blank or lists the leaf, else its
/// private key.
fn holds_at<S: Suite>(
    alloc: Global,
    leaf: u32,
    parent: Option<&ParentNode>,
    key: &Option<Secret>,
) -> Result<bool, OutOfMemory>
    ensures { IfOk result (λ b. b ≡ holds_at S.crypto leaf (option_copied parent.entry) key.now) }
{
    let Some(parent) = parent else {
        return Ok(key.is_none());
    };
    let Some(key) = key else {
        return Ok(lists(parent, leaf));
    };
    if lists(parent, leaf) {
        return Ok(false);
    }
    is_key_of::<S>(alloc, key, parent.encryption_key())
}

/// Whether a key is the private key of a leaf.
fn is_own<S: Suite>(
    alloc: Global,
    leaf: Option<&LeafNode>,
    key: &Secret,
) -> Result<bool, OutOfMemory>
    ensures { IfOk result (λ b. b ≡ is_own S.crypto (option_copied leaf.entry) key.now) }
{
    match leaf {
        Some(leaf) => is_key_of::<S>(alloc, key, leaf.encryption_key.as_slice()),
        None => Ok(false),
    }
}

impl PrivatePath {
    /// Whether the keys of the member's leaf and of the parents over it are those that are due, in a subtree of this
    /// height.
    fn holds_below<S: Suite>(
        &self,
        tree: &PublicTree,
        height: u32,
        first: u32,
    ) -> Result<bool, OutOfMemory>
        requires low { height ≤ 31 }
        requires fits { first + 2 ^ height ≤ 2 ^ 31 }
        ensures { IfOk result (λ b. b ≡ holds_below S.crypto height first tree.now self.now) }
    {
        let alloc = *self.above.allocator();
        if height == 0 {
            return is_own::<S>(alloc, tree.leaf(first), &self.own);
        }
        let leaf = self.leaf();
        let half = side_of(height);
        let parent = parent_in(tree.node(2 * first + (2 * half - 1)));
        let key = self.key_at(height);
        let held = holds_at::<S>(alloc, leaf, parent, &key)?;
        if !held {
            return Ok(false);
        }
        if leaf < first + half {
            self.holds_below::<S>(tree, height - 1, first)
        } else {
            self.holds_below::<S>(tree, height - 1, first + half)
        }
    }

    /// Whether the member has exactly the private keys that are due in a whole tree: that of its leaf; of each parent
    /// over it that isn't blank and doesn't list it, the one whose public key is the parent's; and no other (RFC 9420,
    /// 7.1 and 7.5). What is over a leaf outside the tree is what is over its last leaf.
    pub fn holds_keys<S: Suite>(&self, tree: &PublicTree) -> Result<HeldKeys, OutOfMemory>
        ensures { IfOk result (TellsExact S.crypto (term tree.now) self.now) }
    {
        let height = tree.leaf_count().trailing_zeros();
        if self.above().len() > height as usize {
            return Ok(HeldKeys::Other);
        }
        let held = self.holds_below::<S>(tree, height, 0)?;
        if !held {
            return Ok(HeldKeys::Other);
        }
        Ok(HeldKeys::Exact)
    }
}
