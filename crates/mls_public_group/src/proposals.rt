//! The checks of proposals (RFC 9420, 12.1).

ghost use Rattle.std.specs.Prelude.{◌^◌};
ghost use Rattle.mls_wire.specs.Checks.{AnswersOutright, passed};
ghost use Rattle.mls_leaf.specs.Leaf.{leaf_node};
ghost use Rattle.mls_checks.specs.Short.{IsShort};
ghost use Rattle.mls_tree.specs.Refusals.{RefusesOutright};
ghost use Rattle.mls_model.specs.Proposals.{full_checks, proposal_checks, update_checks};
ghost use Rattle.mls_public_group.specs.Faults.{number_of, Passes};
ghost use Rattle.mls_public_group.specs.Short.{AreBelow, IsProposalBelow};
ghost use Rattle.mls_public_group.specs.ProposalChecks.{AnswersExtensions, AnswersRemove, RefusesUpdate, member_check, used_checks};

use crate::error::GroupError;
use crate::group::PublicGroup;
use crate::used_proposal::Used;
use mls_checks::{CheckError, LeafUse, check_replacement, key_package};
use mls_leaf::{LeafNode, Proposal};
use mls_suite::Suite;
use mls_tree::TreeError;
use std::alloc::Global;

impl PublicGroup {
    /// The checks of a proposal of the member at leaf `sender`: of an add those of its KeyPackage (RFC 9420, 12.1.1),
    /// of an update `NoSuchLeaf` (22) where no member is there, and those of its leaf (12.1.2), of a remove
    /// `NoSuchLeaf` (22) where there is no member (12.1.3), of extensions none (12.1.7). `NoSuchLeaf` (22), what a
    /// remove answers and what extensions are answered take no memory.
    pub fn require_proposal<S: Suite>(
        &self,
        alloc: Global,
        sender: u32,
        proposal: &Proposal,
    ) -> Result<(), GroupError>
        requires { IsProposalBelow (2 ^ 28) proposal.now }
        ensures answer { Passes (proposal_checks S.crypto self.now sender proposal.now) result }
        ensures update { RefusesUpdate self.now.tree sender proposal.now result }
        ensures remove { AnswersRemove self.now.tree proposal.now result }
        ensures extensions { AnswersExtensions proposal.now result }
    {
        match proposal {
            Proposal::Add(offered) => Ok(key_package::<S>(alloc, offered)?),
            Proposal::Update(leaf) => self.require_update::<S>(alloc, sender, leaf),
            Proposal::Remove(leaf) => self.require_member(*leaf),
            Proposal::GroupContextExtensions(_) => Ok(()),
        }
    }

    /// The checks of an update (RFC 9420, 12.1.2).
    #[tactic(auto, unfolding(mls_model::specs::Proposals::update_checks))]
    fn require_update<S: Suite>(
        &self,
        alloc: Global,
        sender: u32,
        leaf: &LeafNode,
    ) -> Result<(), GroupError>
        requires { IsShort leaf_node leaf.now }
        ensures answer { Passes (update_checks S.crypto self.now sender leaf.now) result }
        // `NoSuchLeaf` (22) comes also when an allocation fails.
        ensures outright { RefusesOutright number_of (member_check self.now.tree sender) result }
    {
        let context = &self.context;
        let Some(old) = self.tree().leaf(sender) else {
            return Err(GroupError::Tree(TreeError::NoSuchLeaf));
        };
        let group_id = context.group_id.as_slice();
        check_replacement::<S>(alloc, leaf, old, LeafUse::Update, group_id, sender)?;
        if !S::key_ok(leaf.encryption_key.as_slice()) {
            return Err(GroupError::Check(CheckError::BadKey));
        }
        Ok(())
    }

    /// Refuses where there is no member to be removed (`NoSuchLeaf` 22) (RFC 9420, 12.1.3).
    fn require_member(&self, leaf: u32) -> Result<(), GroupError>
        ensures { AnswersOutright (λ _. passed) number_of (member_check self.now.tree leaf) result }
    {
        if self.tree().leaf(leaf).is_none() {
            return Err(GroupError::Tree(TreeError::NoSuchLeaf));
        }
        Ok(())
    }

    /// The checks of a proposal where the commit gives it in full.
    fn require_used<S: Suite>(&self, alloc: Global, used: &Used<'_>) -> Result<(), GroupError>
        requires { IsProposalBelow (2 ^ 28) used.now.proposal }
        ensures { Passes (used_checks S.crypto self.now used.now) result }
    {
        if !used.is_full {
            return Ok(());
        }
        self.require_proposal::<S>(alloc, used.sender, used.proposal)
    }

    /// The checks of the proposals that a commit gives in full, one proposal after the other (RFC 9420, 12.4.2).
    pub(crate) fn require_full<S: Suite>(
        &self,
        alloc: Global,
        used: &[Used<'_>],
    ) -> Result<(), GroupError>
        requires { AreBelow (2 ^ 28) used.now }
        ensures { Passes (full_checks S.crypto self.now used.now) result }
    {
        for one in used {
            self.require_used::<S>(alloc, one)?;
        }
        Ok(())
    }
}
