//! Which keys a member has.

ghost use Rattle.std.specs.Prelude.{◌≡◌, ◌+◌, ◌^◌, ◌≤◌, None, slice_index_or, IfOk, OnOk};
ghost use Rattle.mls_treekem_model.specs.Height.{ArePairs};
ghost use Rattle.mls_treekem_model.specs.Keys.{all_keys, key_above};
ghost use Rattle.mls_treekem_model.specs.Pairs.{pair_of};
ghost use Rattle.mls_treekem.specs.Following.{AddsPairs, AddsPairsFrom};

use crate::PrivatePath;
use crate::places::side_of;
use mls_kdf::Secret;
use mls_suite::OutOfMemory;

/// The height above the leaves that no key passes: a leaf index has so many bits.
const MAX_LEVEL: u32 = 32;

/// The key in a place, None past the end.
fn key_in(keys: &[Option<Secret>], place: usize) -> Option<Secret>
    ensures { result ≡ slice_index_or keys.now place None }
{
    if place < keys.len() {
        keys[place]
    } else {
        None
    }
}

/// Adds a node's number with its key, where there is one.
fn push_pair(
    node: u64,
    key: Option<Secret>,
    pairs: &mut Vec<(u64, Secret)>,
) -> Result<(), OutOfMemory>
    ensures { OnOk result (AddsPairs (pair_of node key) pairs.old pairs.new) }
{
    if let Some(secret) = key {
        pairs.push((node, secret))?;
    }
    Ok(())
}

impl PrivatePath {
    /// The key that is held so far above the leaf.
    pub(crate) fn key_at(&self, height: u32) -> Option<Secret>
        ensures { result ≡ key_above height (all_keys self.now) }
    {
        if height == 0 {
            return Some(self.own);
        }
        key_in(&self.above, height as usize - 1)
    }

    /// Adds the keys of the leaf and of the nodes over it, in a subtree of this height.
    fn push_pairs(
        &self,
        height: u32,
        first: u64,
        pairs: &mut Vec<(u64, Secret)>,
    ) -> Result<(), OutOfMemory>
        requires low { height ≤ 32 }
        requires fits { first + 2 ^ height ≤ 2 ^ 32 }
        ensures { OnOk result (AddsPairsFrom height first self.now pairs.old pairs.new) }
    {
        let leaf = self.leaf() as u64;
        if height == 0 {
            return push_pair(2 * leaf, self.key_at(0), pairs);
        }
        let half = side_of(height) as u64;
        let node = 2 * first + (2 * half - 1);
        if leaf < first + half {
            self.push_pairs(height - 1, first, pairs)?;
            push_pair(node, self.key_at(height), pairs)
        } else {
            push_pair(node, self.key_at(height), pairs)?;
            self.push_pairs(height - 1, first + half, pairs)
        }
    }

    /// The private keys, each with the number of its node, by rising number. A leaf index is any u32, so node indices
    /// are wider.
    pub fn keys(&self) -> Result<Vec<(u64, Secret)>, OutOfMemory>
        ensures { IfOk result (λ v. ArePairs self.now v.items) }
    {
        let mut pairs = Vec::new(*self.above.allocator());
        self.push_pairs(MAX_LEVEL, 0, &mut pairs)?;
        Ok(pairs)
    }
}
