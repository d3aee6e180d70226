//! The proposals of a commit applied to a tree: updates, then removes, then adds (RFC 9420, 12.3).

ghost use Rattle.std.specs.Prelude.{◌≡◌, [], ◌∷◌, Ok, IfOk};
ghost use Rattle.mls_tree.specs.Tree.{term};
ghost use Rattle.mls_public_group.specs.ProposalList.{edit_tree, AppliesAdd, AppliesAdds, AppliesRemoves, AppliesUpdates};
ghost use Rattle.mls_public_group.specs.Faults.{Gives};

use crate::changed_leaves::removed_leaves;
use crate::edits::Edits;
use crate::error::GroupError;
use crate::shared_tree::SharedTree;
use crate::used_proposal::Used;
use mls_leaf::Proposal;
use mls_tree::PublicTree;
use std::alloc::{AllocError, Global};

/// Replaces the leaf that a proposal updates, where it is an update.
fn apply_update(tree: &mut PublicTree, used: &Used<'_>) -> Result<(), GroupError>
    ensures { AppliesUpdates (used.now ∷ []) tree.old tree.new result }
{
    match used.proposal {
        Proposal::Update(leaf) => {
            tree.update(used.sender, leaf.clone()?)?;
            Ok(())
        }
        _ => Ok(()),
    }
}

/// Applies the updates (RFC 9420, 12.1.2).
fn apply_updates(tree: &mut PublicTree, used: &[Used<'_>]) -> Result<(), GroupError>
    ensures { AppliesUpdates used.now tree.old tree.new result }
{
    for one in used {
        apply_update(tree, one)?;
    }
    Ok(())
}

/// Removes the members at these leaves (RFC 9420, 12.1.3).
fn apply_removes(tree: &mut PublicTree, leaves: &[u32]) -> Result<(), GroupError>
    ensures { AppliesRemoves leaves.now tree.old tree.new result }
{
    for leaf in leaves {
        tree.remove(*leaf)?;
    }
    Ok(())
}

/// Adds the member of a proposal, where it is an add, and its leaf to those that were added.
fn apply_add(tree: &mut PublicTree, used: &Used<'_>, added: &mut Vec<u32>) -> Result<(), GroupError>
    ensures { AppliesAdd used.now tree.old added.old.items tree.new added.new.items result }
{
    match used.proposal {
        Proposal::Add(offered) => {
            let leaf = tree.add(offered.leaf_node.clone()?)?;
            added.push(leaf)?;
            Ok(())
        }
        _ => Ok(()),
    }
}

/// Applies the adds, and answers the leaves that they added (RFC 9420, 12.1.1).
fn apply_adds(
    alloc: Global,
    tree: &mut PublicTree,
    used: &[Used<'_>],
) -> Result<Vec<u32>, GroupError>
    ensures { AppliesAdds used.now tree.old tree.new result }
{
    let mut added = Vec::new(alloc);
    for one in used {
        apply_add(tree, one, &mut added)?;
    }
    Ok(added)
}

/// The tree after one proposal or more, and the leaves that they added.
#[tactic(auto, unfolding(crate::specs::ProposalList::edit_tree))]
fn edit_copied_tree(alloc: Global, tree: PublicTree, used: &[Used<'_>]) -> Result<Edits, GroupError>
    ensures { Gives (edit_tree (term tree) used.now) result }
{
    let mut tree = tree;
    apply_updates(&mut tree, used)?;
    let leaves = removed_leaves(alloc, used)?;
    apply_removes(&mut tree, &leaves)?;
    let added = apply_adds(alloc, &mut tree, used)?;
    let tree = SharedTree::new(alloc, tree)?;
    Ok(Edits { tree, added })
}

/// A tree that no proposal changes: it is shared.
fn share_tree(alloc: Global, tree: &SharedTree) -> Result<Edits, AllocError>
    ensures { IfOk result (λ e. edit_tree (term tree.now) [] ≡ Ok e) }
{
    Ok(Edits {
        tree: tree.clone()?,
        added: Vec::new(alloc),
    })
}

/// The tree after the proposals, and the leaves that they added.
pub(crate) fn edit_tree(
    alloc: Global,
    tree: &SharedTree,
    used: &[Used<'_>],
) -> Result<Edits, GroupError>
    ensures { Gives (edit_tree (term tree.now) used.now) result }
{
    if used.is_empty() {
        let edits = share_tree(alloc, tree)?;
        return Ok(edits);
    }
    let copy = tree.as_tree().clone()?;
    edit_copied_tree(alloc, copy, used)
}
