//! Loading what a member knows of an epoch.

ghost use Rattle.std.specs.Prelude.{◌≡◌, ◌==◌, ◌^◌, IfOk};
ghost use Rattle.mls_wire.specs.Checks.{require};
ghost use Rattle.mls_saved.specs.Loading.{Loads, Passes};
ghost use Rattle.mls_saved.specs.State.{saved_state};
ghost use Rattle.mls_tree.specs.Tree.{term};
ghost use Rattle.mls_public_group.specs.Short.{IsBelow, IsShortContext, HasLeavesBelow};
ghost use Rattle.mls_saved_state.specs.Faults.{number_of};
ghost use Rattle.mls_saved_state.specs.State.{load_state, state_with};

use crate::error::LoadError;
use crate::keys::{check_keys, saved_keys};
use crate::secrets::secret_of;
use crate::tree::saved_tree;
use mls_kdf::Secret;
use mls_public_group::PublicGroup;
use mls_saved::SavedState;
use mls_schedule::{Epoch, Transcript};
use mls_suite::Suite;
use mls_tree::PublicTree;
use mls_treekem::PrivatePath;
use mls_types::GroupContext;
use std::alloc::{AllocError, Global};

/// What a member knows of an epoch.
#[derive(Drop)]
pub struct EpochState {
    /// The public state of its group.
    pub group: PublicGroup,
    /// The epoch's secrets.
    pub epoch: Epoch,
    /// Its leaf and its private keys.
    pub keys: PrivatePath,
}

/// What a member knows of an epoch, of its parts.
fn state_of(
    alloc: Global,
    context: GroupContext,
    tree: PublicTree,
    interim: &Secret,
    epoch: &Secret,
    keys: PrivatePath,
) -> Result<EpochState, AllocError>
    requires context { IsShortContext context }
    requires leaves { HasLeavesBelow (2 ^ 27) (term tree) }
    ensures { IfOk result (λ s. s ≡ state_with context (term tree) interim.now epoch.now keys) }
{
    let transcript = Transcript::from_interim_hash(interim);
    let group = PublicGroup::new(alloc, context, tree, transcript)?;
    Ok(EpochState {
        group,
        epoch: Epoch::first(epoch),
        keys,
    })
}

/// Refuses a context of another suite (`OtherSuite` 100).
fn check_suite<S: Suite>(context: &GroupContext) -> Result<(), LoadError>
    ensures { Passes number_of (require 100 (context.now.cipher_suite == S.crypto.number)) result }
{
    if context.cipher_suite == S::NUMBER {
        Ok(())
    } else {
        Err(LoadError::OtherSuite)
    }
}

/// What was saved of an epoch, or the first check that fails: `OtherSuite` (100) another suite, `BadSecret` (101) what is
/// no secret, `TreeShape` (20) and `TreeFull` (21) the tree's shape and size, `BadTreeHash` (103) its hash, then 23 to
/// 26, `LeafSignature` (51), `LeafCapability` (52) and `BadKey` (36) the tree, `NotAMember` (102) no member is at the
/// leaf, `OtherKey` (104) it hasn't exactly the private keys that are due.
#[tactic(auto, unfolding(crate::specs::State::load_state))]
pub fn load_state<S: Suite>(alloc: Global, saved: SavedState) -> Result<EpochState, LoadError>
    requires { IsBelow (2 ^ 27) saved_state saved }
    ensures { Loads number_of (load_state S.crypto saved) result }
{
    check_suite::<S>(&saved.context)?;
    let interim = secret_of(&saved.interim)?;
    let epoch = secret_of(&saved.epoch)?;
    let keys = saved_keys(alloc, &saved)?;
    let SavedState { context, tree, .. } = saved;
    let tree = saved_tree::<S>(&context, tree)?;
    check_keys::<S>(&tree, &keys)?;
    let state = state_of(alloc, context, tree, &interim, &epoch, keys)?;
    Ok(state)
}
