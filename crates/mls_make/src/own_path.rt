//! The path of a commit that a member makes, or none.

ghost use Rattle.std.specs.Prelude.{◌≡◌, ◌<◌, ◌+◌, ◌^◌, None, IfOk, IfSome};
ghost use Rattle.mls_leaf.specs.GroupExtensions.{group_extensions};
ghost use Rattle.mls_leaf.specs.Leaf.{leaf_node};
ghost use Rattle.mls_tree.specs.Tree.{term};
ghost use Rattle.mls_model.specs.Commit.{apply_path_if};
ghost use Rattle.mls_public_group.specs.Short.{IsBelow};
ghost use Rattle.mls_make.specs.OwnPath.{HasSecrets, IsMerged, IsNoPath, KeepsLeaf, MakesPath, StaysShort};

use crate::error::MakeError;
use mls_kdf::{Secret, Seed};
use mls_leaf::GroupExtensions;
use mls_message::Speaker;
use mls_public_group::{Edits, Used, is_path_required};
use mls_suite::{OutOfMemory, Suite};
use mls_tree::PublicTree;
use mls_treekem::{PathSecrets, PrivatePath};
use mls_types::UpdatePath;
use mls_update_path::{NewPath, new_path};
use std::alloc::Global;

/// A path, or none, and what the committer then has.
#[derive(Drop)]
pub(crate) struct OwnPath {
    /// The path.
    pub(crate) path: Option<UpdatePath>,
    /// Where there is one, its secrets.
    pub(crate) secrets: Option<PathSecrets>,
    /// The commit secret.
    pub(crate) commit_secret: Secret,
    /// The committer's private keys.
    pub(crate) keys: PrivatePath,
    /// The tree with the path merged.
    pub(crate) tree: PublicTree,
}

/// Without a path the commit secret is zeros, and the keys follow the edits (RFC 9420, 8).
fn no_path(keys: &PrivatePath, edits: &Edits) -> Result<OwnPath, OutOfMemory>
    ensures made { IfOk result (IsNoPath keys.now edits.now) }
    ensures none { IfOk result (λ o. o.path ≡ None) }
    ensures leaf { IfOk result (λ o. o.keys.leaf ≡ keys.now.leaf) }
    ensures tree { IfOk result (λ o. term o.tree ≡ edits.now.tree) }
    ensures secrets { IfOk result (λ o. o.secrets ≡ None) }
{
    let tree = edits.tree.as_tree();
    let mut followed = keys.clone()?;
    followed.follow_edit(tree, None)?;
    Ok(OwnPath {
        path: None,
        secrets: None,
        commit_secret: [0; 32],
        keys: followed,
        tree: tree.clone()?,
    })
}

/// A path for a commit with these extensions, where one is wanted or required, else none (RFC 9420, 12.4.1).
#[tactic(auto, unfolding(mls_model::specs::Make::path_with, mls_model::specs::Commit::apply_path_if))]
pub(crate) fn own_path<S: Suite>(
    alloc: Global,
    speaker: &Speaker<'_>,
    keys: &PrivatePath,
    extensions: &GroupExtensions,
    edits: &Edits,
    used: &[Used<'_>],
    wants_path: bool,
    seed: &Seed,
) -> Result<OwnPath, MakeError>
    requires epoch { speaker.now.group.now.context.epoch + 1 < 2 ^ 64 }
    requires extensions { IsBelow (2 ^ 27) group_extensions extensions.now }
    ensures answer { MakesPath S.crypto speaker.now keys.now extensions.now edits.now used.now
        wants_path seed.now result }
    ensures leaf { IfOk result (KeepsLeaf speaker.now keys.now) }
    ensures below { IfOk result (λ o. IfSome o.path (λ p. IsBelow (2 ^ 28) leaf_node p.leaf_node)) }
    ensures secrets { IfOk result (HasSecrets S.crypto speaker.now edits.now seed.now) }
    // Each member merges it so.
    ensures apply_path_if { IfOk result (IsMerged S.crypto speaker.now edits.now) }
    // The leaves of the tree with it are as short as those of the tree after the edits and the new one.
    ensures leaves { IfOk result (StaysShort edits.now.tree) }
{
    if !wants_path && !is_path_required(used) {
        let none = no_path(keys, edits)?;
        return Ok(none);
    }
    let NewPath {
        path,
        secrets,
        keys,
        tree,
    } = new_path::<S>(
        alloc,
        speaker.group,
        speaker.signing,
        speaker.leaf,
        extensions,
        edits,
        seed,
    )?;
    let commit_secret = secrets.commit_secret;
    Ok(OwnPath {
        path: Some(path),
        secrets: Some(secrets),
        commit_secret,
        keys,
        tree,
    })
}
