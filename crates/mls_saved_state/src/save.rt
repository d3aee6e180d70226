//! Saving what a member knows of an epoch.

ghost use Rattle.std.specs.Prelude.{◌≡◌, true, IfOk};
ghost use Rattle.std.specs.List.{list_all};
ghost use Rattle.mls_saved_state.specs.Secrets.{is_secret, is_none_or_secret};
ghost use Rattle.mls_saved_state.specs.State.{saved_state_of, HasSecrets};

use mls_kdf::Secret;
use mls_leaf::{Bytes, Items};
use mls_public_group::PublicGroup;
use mls_saved::SavedState;
use mls_schedule::Epoch;
use mls_treekem::PrivatePath;
use mls_types::RatchetTree;
use std::alloc::{AllocError, Global};

/// A secret as it is saved.
pub fn saved_secret(alloc: Global, secret: &Secret) -> Result<Bytes, AllocError>
    ensures same { IfOk result (λ b. b ≡ secret.now) }
    ensures secret { is_secret secret.now ≡ true }
{
    Bytes::from_slice(alloc, secret)
}

/// A secret that may be absent, as it is saved.
pub fn optional_saved_secret(
    alloc: Global,
    secret: &Option<Secret>,
) -> Result<Option<Bytes>, AllocError>
    ensures same { IfOk result (λ b. b ≡ secret.now) }
    ensures secret { is_none_or_secret secret.now ≡ true }
{
    match secret {
        None => Ok(None),
        Some(secret) => Ok(Some(saved_secret(alloc, secret)?)),
    }
}

/// Keys as they are saved.
fn saved_each(alloc: Global, keys: &[Option<Secret>]) -> Result<Vec<Option<Bytes>>, AllocError>
    ensures same { IfOk result (λ v. v.items ≡ keys.now) }
    ensures secrets { IfOk result (λ v. list_all is_none_or_secret v.items ≡ true) }
{
    let mut saved = Vec::new(alloc);
    for one in keys {
        let secret = optional_saved_secret(alloc, one)?;
        saved.push(secret)?;
    }
    Ok(saved)
}

/// What is saved of an epoch. The nodes of the tree are shared with it.
#[tactic(auto, unfolding(crate::specs::State::saved_state_of))]
pub fn save_state(
    alloc: Global,
    group: &PublicGroup,
    epoch: &Epoch,
    keys: &PrivatePath,
) -> Result<SavedState, AllocError>
    ensures state { IfOk result (λ s. s ≡ saved_state_of group.now epoch.now keys.now) }
    ensures secrets { IfOk result HasSecrets }
{
    let context = group.context().clone()?;
    let tree = RatchetTree::from_vec(group.tree().to_nodes()?);
    let interim = saved_secret(alloc, group.transcript().interim_hash())?;
    let above = Items::from_vec(saved_each(alloc, keys.above())?);
    Ok(SavedState {
        context,
        tree,
        interim,
        epoch: saved_secret(alloc, epoch.epoch_secret())?,
        leaf: keys.leaf(),
        own: saved_secret(alloc, keys.own())?,
        above,
    })
}
