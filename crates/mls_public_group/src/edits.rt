//! The edits of a commit: updates, then removes, then adds (RFC 9420, 12.3).

ghost use Rattle.std.specs.Prelude.{◌^◌, IfOk};
ghost use Rattle.mls_model.specs.Commit.{apply_proposals};
ghost use Rattle.mls_public_group.specs.ProposalList.{edited_tree_checks};
ghost use Rattle.mls_public_group.specs.Faults.{Gives, Passes};
ghost use Rattle.mls_public_group.specs.Short.{AreBelow, HasLeavesShortAs};

use crate::changed_leaves::check_proposal_list;
use crate::error::GroupError;
use crate::group::PublicGroup;
use crate::proposal_list::edit_tree;
use crate::references::has_distinct_references;
use crate::shared_tree::SharedTree;
use crate::used_proposal::Used;
use mls_suite::Suite;
use mls_tree::TreeError;
use std::alloc::Global;
use std::marker::Model;

/// A tree after the proposals of a commit, and the leaves that they added, in their order (RFC 9420, 12.3).
#[derive(Drop)]
pub struct Edits {
    /// The tree, which is the group's where there is no proposal, and else shares its nodes.
    pub tree: SharedTree,
    /// The leaves that were added.
    pub added: Vec<u32>,
}

impl Model for Edits {
    ghost use Rattle.mls_tree.specs.Tree.{term};
    ghost use Rattle.mls_model.specs.Commit as model;
    ghost use Rattle.mls_public_group.specs.PublicCodes.{coded_edits};

    ghost Value = { model.Edits };

    ghost coded = { coded_edits };

    ghost view = { λ e. record { tree = term e.tree; added = e.added.items } };
}

/// Refuses two members with one signature key, two adds of one reference (`ClientRepeated` 26 each), and two nodes with
/// one encryption key (`KeyRepeated` 25).
#[tactic(auto, unfolding(crate::specs::ProposalList::edited_tree_checks))]
fn require_distinct(alloc: Global, edits: &Edits, used: &[Used<'_>]) -> Result<(), GroupError>
    requires { AreBelow (2 ^ 28) used.now }
    ensures { Passes (edited_tree_checks edits.now used.now) result }
{
    if !edits.tree.as_tree().has_distinct_clients() {
        return Err(GroupError::Tree(TreeError::ClientRepeated));
    }
    if !has_distinct_references(alloc, used)? {
        return Err(GroupError::Tree(TreeError::ClientRepeated));
    }
    if !edits.tree.as_tree().has_distinct_keys() {
        return Err(GroupError::Tree(TreeError::KeyRepeated));
    }
    Ok(())
}

impl PublicGroup {
    /// The tree after the proposals of a commit, where they and the tree pass these checks in this order: those of each
    /// proposal in full; `CommitterUpdate` (61) an update of the committer, `CommitterRemoved` (62) its removal,
    /// `SameLeafTwice` (63) two updates or removes of one leaf, `SecondExtensions` (68) two lists of extensions;
    /// `NoSuchLeaf` (22) no member is where one is updated or removed; `TreeFull` (21) the tree is too large;
    /// `ClientRepeated` (26) two members have one signature key, or two adds one reference; `KeyRepeated` (25) two
    /// nodes have one encryption key (RFC 9420, 12.2, 12.3 and 7.3). The group stays as it is.
    pub fn apply_proposals<S: Suite>(
        &self,
        alloc: Global,
        committer: u32,
        used: &[Used<'_>],
    ) -> Result<Edits, GroupError>
        requires { AreBelow (2 ^ 28) used.now }
        ensures answer { Gives (apply_proposals S.crypto self.now committer used.now) result }
        // Its leaves are as short as the group's and the proposals.
        ensures below { IfOk result (λ e. HasLeavesShortAs used.now e.tree) }
    {
        self.require_full::<S>(alloc, used)?;
        check_proposal_list(alloc, committer, used)?;
        let edits = edit_tree(alloc, &self.tree, used)?;
        require_distinct(alloc, &edits, used)?;
        Ok(edits)
    }
}
