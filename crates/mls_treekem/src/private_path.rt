//! The private keys of a member.

ghost use Rattle.std.specs.Prelude.{◌≡◌, ◌≤◌, ◌∷◌, [], Some, length, reverse};
ghost use Rattle.mls_treekem_model.specs.Keys.{all_keys};
ghost use Rattle.mls_treekem.specs.KeysAtHeights.{keys_by_height};

use mls_kdf::Secret;
use std::alloc::{AllocError, Global};
use std::marker::Model;

/// The private keys that a member has, of its leaf and of nodes over it.
pub struct PrivatePath {
    pub(crate) leaf: u32,
    pub(crate) own: Secret,
    // By their height above the leaf, from the node right over it on; a node that is higher has none.
    pub(crate) above: Vec<Option<Secret>>,
}

impl Drop for PrivatePath {
    fn drop(self) {
        let PrivatePath {
            leaf: _,
            own: _,
            above: _,
        } = self;
    }
}

// The keys above the leaf are seen in the order of the way to it.
impl Model for PrivatePath {
    ghost use Rattle.std.specs.Prelude.{◌^◌, ◌<◌, ◌≤◌, length, reverse};
    ghost use Rattle.mls_treekem_model.specs.Keys.{PrivateKeys};

    ghost Value = { PrivateKeys };

    ghost view = { λ p. record { leaf = p.leaf; own = p.own; above = reverse p.above.items } };

    ghost invariant = { λ p. (length p.above.items ≤ 32) × (p.leaf < 2 ^ 32) };
}

// A copy, so that a call can follow edits and open a path, and leave the member as before where that refuses.
impl Clone for PrivatePath {
    ghost is_clone = { λ v w. w ≡ v };

    fn clone(&self) -> Result<PrivatePath, AllocError> {
        Ok(PrivatePath {
            leaf: self.leaf,
            own: self.own,
            above: Vec::from_slice(*self.above.allocator(), &self.above)?,
        })
    }
}

impl PrivatePath {
    /// The keys of a member that has its leaf's alone. Takes no memory.
    pub fn new(alloc: Global, leaf: u32, sk: Secret) -> PrivatePath
        ensures leaf { result.leaf ≡ leaf }
        ensures keys { all_keys result ≡ Some sk ∷ [] }
    {
        PrivatePath {
            leaf,
            own: sk,
            above: Vec::new(alloc),
        }
    }

    /// The keys of a member as they were kept: that of its leaf, and those above it by their height above the leaf,
    /// from the node right over it on, None where it has none. Takes no memory.
    pub fn from_keys(leaf: u32, own: Secret, above: Vec<Option<Secret>>) -> PrivatePath
        requires { length above.items ≤ 32 }
        ensures { result ≡ keys_by_height leaf own above.items }
    {
        PrivatePath { leaf, own, above }
    }

    /// The private key of its leaf.
    pub fn own(&self) -> &Secret
        ensures { result.now ≡ self.now.own }
    {
        &self.own
    }

    /// The keys above its leaf by their height, from the node right over the leaf on, at most 32 of them.
    pub fn above(&self) -> &[Option<Secret>]
        ensures keys { result.now ≡ reverse self.now.above }
        ensures low { length result.now ≤ 32 }
    {
        &self.above
    }

    /// The member's leaf.
    pub fn leaf(&self) -> u32
        ensures { result ≡ self.now.leaf }
    {
        self.leaf
    }
}
