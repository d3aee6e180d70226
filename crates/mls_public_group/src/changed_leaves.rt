//! The leaves of members that the proposals of a commit change (RFC 9420, 12.2).

ghost use Rattle.std.specs.Prelude.{◌≡◌, [], ◌∷◌, ◌++◌, IfOk, OnOk};
ghost use Rattle.mls_model.specs.Proposals.{removed_leaves, updated_leaves};
ghost use Rattle.mls_public_group.specs.ProposalList.{proposal_list_checks};
ghost use Rattle.mls_public_group.specs.Faults.{Passes};

use crate::distinct::are_distinct;
use crate::error::GroupError;
use crate::extensions::count_lists;
use crate::used_proposal::Used;
use mls_leaf::Proposal;
use std::alloc::{AllocError, Global};

/// Adds the leaf that a proposal updates, where it is an update.
fn push_updated(used: &Used<'_>, leaves: &mut Vec<u32>) -> Result<(), AllocError>
    ensures { OnOk result (leaves.new.items ≡ leaves.old.items ++ updated_leaves (used.now ∷ [])) }
{
    match used.proposal {
        Proposal::Update(_) => {
            leaves.push(used.sender)?;
            Ok(())
        }
        _ => Ok(()),
    }
}

/// Adds the leaf that a proposal removes, where it is a remove.
fn push_removed(used: &Used<'_>, leaves: &mut Vec<u32>) -> Result<(), AllocError>
    ensures { OnOk result (leaves.new.items ≡ leaves.old.items ++ removed_leaves (used.now ∷ [])) }
{
    match used.proposal {
        Proposal::Remove(leaf) => {
            leaves.push(*leaf)?;
            Ok(())
        }
        _ => Ok(()),
    }
}

/// The leaves that are updated.
fn updated_leaves(alloc: Global, used: &[Used<'_>]) -> Result<Vec<u32>, AllocError>
    ensures { IfOk result (λ v. v.items ≡ updated_leaves used.now) }
{
    let mut leaves = Vec::new(alloc);
    for one in used {
        push_updated(one, &mut leaves)?;
    }
    Ok(leaves)
}

/// The leaves that are removed.
pub(crate) fn removed_leaves(alloc: Global, used: &[Used<'_>]) -> Result<Vec<u32>, AllocError>
    ensures { IfOk result (λ v. v.items ≡ removed_leaves used.now) }
{
    let mut leaves = Vec::new(alloc);
    for one in used {
        push_removed(one, &mut leaves)?;
    }
    Ok(leaves)
}

/// Refuses an update of the committer (`CommitterUpdate` 61), its removal (`CommitterRemoved` 62), two updates or
/// removes of one leaf (`SameLeafTwice` 63), and two lists of extensions (`SecondExtensions` 68).
pub(crate) fn check_proposal_list(
    alloc: Global,
    committer: u32,
    used: &[Used<'_>],
) -> Result<(), GroupError>
    ensures { Passes (proposal_list_checks committer used.now) result }
{
    let mut changed = updated_leaves(alloc, used)?;
    if changed.contains(&committer) {
        return Err(GroupError::CommitterUpdate);
    }
    let leaving = removed_leaves(alloc, used)?;
    if leaving.contains(&committer) {
        return Err(GroupError::CommitterRemoved);
    }
    changed.extend_from_slice(&leaving)?;
    if !are_distinct(changed) {
        return Err(GroupError::SameLeafTwice);
    }
    if count_lists(used) > 1 {
        return Err(GroupError::SecondExtensions);
    }
    Ok(())
}
