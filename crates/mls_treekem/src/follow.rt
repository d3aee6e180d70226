//! A member's keys after edits of the tree.

ghost use Rattle.std.specs.Prelude.{◌≡◌, ◌≤◌, if◌then◌else◌, None, length, unwrap_or, OnOk, OnErr};
ghost use Rattle.std.specs.Option.{option_copied};
ghost use Rattle.mls_treekem_model.specs.Keys.{all_keys, key_above};
ghost use Rattle.mls_treekem.specs.Following.{AddsKept, FollowsEdit};

use crate::PrivatePath;
use crate::places::{Place, parents_over};
use mls_kdf::Secret;
use mls_suite::OutOfMemory;
use mls_tree::PublicTree;

/// The leaf's key, a new one where there is one.
fn key_after(own_key: Option<&Secret>, own: &Secret) -> Secret
    ensures { result ≡ unwrap_or (option_copied own_key.entry) own.now }
{
    match own_key {
        Some(key) => *key,
        None => *own,
    }
}

impl PrivatePath {
    /// The key that is held so far above the leaf, where a test holds.
    fn key_at_if(&self, test: bool, height: u32) -> Option<Secret>
        ensures { result ≡ (if test then key_above height (all_keys self.now) else None) }
    {
        if test { self.key_at(height) } else { None }
    }

    /// Adds the key of each of these parents that isn't blank, the lowest one's first.
    fn push_kept_keys(
        &self,
        tree: &PublicTree,
        places: &[Place],
        above: &mut Vec<Option<Secret>>,
    ) -> Result<(), OutOfMemory>
        requires { length places.now ≤ 31 }
        ensures { OnOk result (AddsKept tree.now places.now self.now above.old above.new) }
    {
        if let Some((place, below)) = places.split_first() {
            self.push_kept_keys(tree, below, above)?;
            above.push(self.key_at_if(place.has_parent(tree), below.len() as u32 + 1))?;
        }
        Ok(())
    }

    /// Drops the keys of nodes that are blank or cut off in the edited tree, and takes the leaf's new key where there
    /// is one (RFC 9420, 7.7 and 12.1). Refused for want of memory alone, and then the keys are as before.
    pub fn follow_edit(
        &mut self,
        tree: &PublicTree,
        own_key: Option<&Secret>,
    ) -> Result<(), OutOfMemory>
        ensures ok { OnOk result (FollowsEdit own_key.entry tree.now self.old self.new) }
        ensures err { OnErr result (self.new ≡ self.old) }
    {
        let alloc = *self.above.allocator();
        let places = parents_over(alloc, tree, self.leaf)?;
        let mut above = Vec::with_capacity(alloc, places.len())?;
        self.push_kept_keys(tree, &places, &mut above)?;
        let own = key_after(own_key, &self.own);
        self.above = above;
        self.own = own;
        Ok(())
    }
}
