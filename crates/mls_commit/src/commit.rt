//! The checks of a commit, and where it leads.

ghost use Rattle.std.specs.Prelude.{◌≡◌, ◌<◌, ◌^◌, ◌+◌, ◌||◌, ◌&&◌, not, is_some, length, IfOk, IfSome};
ghost use Rattle.mls_leaf.specs.GroupExtensions.{group_extensions};
ghost use Rattle.mls_leaf.specs.Leaf.{leaf_node};
ghost use Rattle.mls_model.specs.Proposals as proposals;
ghost use Rattle.mls_public_group.specs.NextTree.{is_merged, IsPreparedFor};
ghost use Rattle.mls_public_group.specs.Short.{IsBelow, AreBelow, IsShortContext};
ghost use Rattle.mls_commit.specs.Outcome.{KeepsOwnTree, MergesIntoOwn, Changes, HasTreesShortAs};
ghost use Rattle.mls_commit.specs.PathChecks.{StaysMember};
ghost use Rattle.mls_commit.specs.PathMerge.{is_own, AppliesPathIf};

use crate::error::CommitError;
use crate::outcome::Outcome;
use crate::path::{PathBase, apply_update_path};
use mls_public_group::{Edits, NextTree, PublicGroup, Used, is_path_required};
use mls_suite::Suite;
use mls_types::{Commit, UpdatePath};
use std::alloc::Global;

/// Whether a commit of these has a path where it has to.
pub(crate) fn has_due_path(commit: &Commit, used: &[Used<'_>]) -> bool
    ensures { result ≡ (is_some commit.now.path || not (proposals.is_path_required used.now)) }
{
    commit.path.is_some() || !is_path_required(used)
}

/// The tree after the edits, with the path merged where there is one.
#[tactic(auto, unfolding(mls_model::specs::Commit::apply_path_if))]
fn apply_path_if<S: Suite>(
    alloc: Global,
    group: &PublicGroup,
    committer: u32,
    edits: &Edits,
    path: &Option<UpdatePath>,
    base: PathBase,
) -> Result<NextTree, CommitError>
    requires context { IsShortContext group.now.context }
    requires stays { StaysMember committer group.now.tree edits.now.tree }
    requires path { IfSome path.now (λ p. IsBelow (2 ^ 28) leaf_node p.leaf_node) }
    ensures answer { AppliesPathIf S.crypto group.now committer edits.now path.now result }
    ensures follows { IfOk result (IsPreparedFor edits.now.tree) }
    ensures own { IfOk result (λ t. is_merged t ≡ (is_some path.now && is_own base)) }
{
    match path {
        None => Ok(NextTree::Edited(edits.tree.clone()?)),
        Some(path) => apply_update_path::<S>(alloc, group, committer, edits, path, base),
    }
}

/// What a commit makes of a public state, by all of it but its confirmation tag: the checks of its proposals and of the
/// tree after them, `PathMissing` (64) where a path is required and missing, and those of its path; the first that
/// fails is answered (RFC 9420, 12.4.2). `said` is the spelling of the commit's FramedContent, and `signature` its
/// signature, of less than 2^30 bytes.
#[tactic(auto, unfolding(mls_model::specs::Commit::change_of_commit))]
pub fn change_of_commit<S: Suite>(
    alloc: Global,
    group: &PublicGroup,
    committer: u32,
    used: &[Used<'_>],
    commit: &Commit,
    said: &[u8],
    signature: &[u8],
) -> Result<Outcome, CommitError>
    requires epoch { group.now.context.epoch + 1 < 2 ^ 64 }
    requires used { AreBelow (2 ^ 28) used.now }
    requires extensions { IsBelow (2 ^ 27) group_extensions
        (proposals.extensions_after group.now.context.extensions used.now) }
    requires path { IfSome commit.now.path (λ p. IsBelow (2 ^ 28) leaf_node p.leaf_node) }
    requires signature { length signature.now < 2 ^ 30 }
    ensures answer { Changes S.crypto group.now committer used.now commit.now
        said.now signature.now result }
    // The leaves of both trees are as short as the group's, the proposals and the path's leaf.
    ensures below { IfOk result (λ o. HasTreesShortAs used.now commit.now.path o.change) }
    // A path is prepared for the group's own tree only where no proposal changes that.
    ensures own { IfOk result (KeepsOwnTree group.now.tree) }
    // A path without proposals is, and nothing of that tree is copied.
    ensures merged { IfOk result (MergesIntoOwn used.now commit.now.path) }
{
    group.is_short();
    let edits = group.apply_proposals::<S>(alloc, committer, used)?;
    if !has_due_path(commit, used) {
        return Err(CommitError::PathMissing);
    }
    let base = PathBase::of(used);
    let tree = apply_path_if::<S>(alloc, group, committer, &edits, &commit.path, base)?;
    let extensions = group.extensions_after(used);
    let outcome = Outcome::new(alloc, group, extensions, edits, tree, said, signature)?;
    Ok(outcome)
}
