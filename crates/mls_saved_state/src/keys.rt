//! The leaf and the private keys of a saved state.

ghost use Rattle.mls_saved.specs.Loading.{Loads, Passes};
ghost use Rattle.mls_tree.specs.Tree.{term};
ghost use Rattle.mls_saved_state.specs.Faults.{number_of};
ghost use Rattle.mls_saved_state.specs.State.{saved_keys, key_checks};

use crate::error::LoadError;
use crate::secrets::{keys_of, secret_of};
use mls_saved::SavedState;
use mls_suite::Suite;
use mls_tree::PublicTree;
use mls_treekem::{HeldKeys, PrivatePath};
use std::alloc::Global;

/// The leaf with its private keys: `BadSecret` (101) where one isn't a secret.
#[tactic(auto, unfolding(crate::specs::State::saved_keys))]
pub(crate) fn saved_keys(alloc: Global, saved: &SavedState) -> Result<PrivatePath, LoadError>
    ensures { Loads number_of (saved_keys saved.now) result }
{
    let own = secret_of(&saved.own)?;
    let above = keys_of(alloc, saved.above.as_slice())?;
    Ok(PrivatePath::from_keys(saved.leaf, own, above))
}

/// Refuses keys where no member is at the leaf (`NotAMember` 102), or that aren't exactly those that are due (`OtherKey`
/// 104).
#[tactic(auto, unfolding(crate::specs::State::key_checks))]
pub(crate) fn check_keys<S: Suite>(tree: &PublicTree, keys: &PrivatePath) -> Result<(), LoadError>
    ensures { Passes number_of (key_checks S.crypto (term tree.now) keys.now) result }
{
    if tree.leaf(keys.leaf()).is_none() {
        return Err(LoadError::NotAMember);
    }
    match keys.holds_keys::<S>(tree)? {
        HeldKeys::Exact => Ok(()),
        HeldKeys::Other => Err(LoadError::OtherKey),
    }
}
