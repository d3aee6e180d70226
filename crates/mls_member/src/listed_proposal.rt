//! The proposals that a commit's message lists, and those that a member lacks of them.

ghost use Rattle.std.specs.Prelude.{◌≡◌, ◌^◌, map, IfOk};
ghost use Rattle.std.specs.List.{AllByRecursion};
ghost use Rattle.std.specs.Option.{option_copied};
ghost use Rattle.mls_tree.specs.Refusals.{RefusesOutright};
ghost use Rattle.mls_member.specs.Faults.{number_of};
ghost use Rattle.mls_member.specs.ListedProposals.{Lists, ListsReferences, commit_proposals, listed_as, missing_proposals, missing_reference, missing_references, proposals_listed, public_message};
ghost use Rattle.mls_member.specs.Process.{IsListedBelow};

use crate::error::Refusal;
use crate::kept_and_pending::KeptProposal;
use crate::member::Member;
use crate::message_list::read_message_list;
use crate::used_proposals::{find_proposals, kept_under};
use mls_leaf::{Bytes, Proposal};
use mls_public_group::Used;
use mls_suite::Suite;
use mls_types::ProposalOrRef;
use std::alloc::{AllocError, Global};

/// A proposal of a commit's list.
#[derive(Drop)]
pub struct ListedProposal {
    /// The leaf index of its sender: of the committer, where the list has it in full.
    pub sender: u32,
    /// What is proposed.
    pub proposal: Proposal,
}

/// A copy of a proposal that a commit uses.
fn copy_used_proposal(used: &Used<'_>) -> Result<ListedProposal, AllocError>
    ensures { IfOk result (λ x. x ≡ listed_as used.now) }
{
    Ok(ListedProposal {
        sender: used.sender,
        proposal: used.proposal.clone()?,
    })
}

/// Copies of the proposals that a commit uses.
fn copy_used_proposals(alloc: Global, used: &[Used<'_>]) -> Result<Vec<ListedProposal>, AllocError>
    ensures { IfOk result (λ v. v.items ≡ map listed_as used.now) }
{
    let mut copies = Vec::new(alloc);
    for one in used {
        copies.push(copy_used_proposal(one)?)?;
    }
    Ok(copies)
}

/// The proposals of a commit's list, each with its sender; `UnknownReference` (60) where one that is named isn't kept.
#[tactic(auto, unfolding(crate::specs::ListedProposals::proposals_listed))]
fn list_used_proposals(
    alloc: Global,
    kept: &[KeptProposal],
    committer: u32,
    list: &[ProposalOrRef],
) -> Result<Vec<ListedProposal>, Refusal>
    requires { AllByRecursion (IsListedBelow (2 ^ 27)) list.now }
    ensures { Lists (proposals_listed kept.now committer list.now) result }
{
    let used = find_proposals(alloc, kept, committer, list)?;
    let copies = copy_used_proposals(alloc, &used)?;
    Ok(copies)
}

/// The reference that a commit's list has, where nothing is kept under it.
fn missing_reference<'a>(kept: &[KeptProposal], listed: &'a ProposalOrRef) -> Option<&'a Bytes>
    ensures { option_copied result ≡ missing_reference kept.now listed.now }
{
    match listed {
        ProposalOrRef::Proposal(_) => None,
        ProposalOrRef::Reference(reference) => match kept_under(kept, reference.as_slice()) {
            Some(_) => None,
            None => Some(reference),
        },
    }
}

/// Copies of the references of a list under which nothing is kept.
fn copy_missing_references(
    alloc: Global,
    kept: &[KeptProposal],
    list: &[ProposalOrRef],
) -> Result<Vec<Bytes>, AllocError>
    ensures { IfOk result (λ v. v.items ≡ missing_references kept.now list.now) }
{
    let mut missing = Vec::new(alloc);
    for listed in list {
        match missing_reference(kept, listed) {
            Some(reference) => missing.push(reference.clone()?)?,
            None => {}
        }
    }
    Ok(missing)
}

impl<S: Suite> Member<S> {
    /// The proposals that a commit's message lists, in the list's order, each with its sender: whom it adds, removes
    /// and renews, and which extensions it sets (RFC 9420, 12.4). Nothing of the message is checked: `inspect` says
    /// whether the member would follow it. Faults of decoding, `NotPublicMessage` (41), then `UnknownReference` (60)
    /// where the member doesn't keep a proposal that is named. A message that is no commit lists none.
    #[tactic(auto, unfolding(crate::specs::ListedProposals::commit_proposals))]
    pub fn commit_proposals(&self, bytes: &[u8]) -> Result<Vec<ListedProposal>, Refusal>
        ensures answer { Lists (commit_proposals self.now bytes.now) result }
        // All but `UnknownReference` (60) come also when an allocation fails.
        ensures outright { RefusesOutright number_of (public_message bytes.now) result }
    {
        let list = read_message_list(self.alloc, bytes)?;
        list_used_proposals(
            self.alloc,
            &self.kept,
            list.sender,
            list.proposals.as_slice(),
        )
    }

    /// The references that a commit's message names, and under which the member keeps no proposal, in the list's order
    /// (RFC 9420, 12.4): what it has to be sent before it can follow that commit, unless this is its own pending one.
    /// Nothing of the message is checked. Faults of decoding, `NotPublicMessage` (41). A message that is no commit
    /// names none.
    #[tactic(auto, unfolding(crate::specs::ListedProposals::missing_proposals))]
    pub fn missing_proposals(&self, bytes: &[u8]) -> Result<Vec<Bytes>, Refusal>
        ensures answer { ListsReferences (missing_proposals self.now bytes.now) result }
        // Each refusal comes also when an allocation fails.
        ensures outright { RefusesOutright number_of (public_message bytes.now) result }
    {
        let list = read_message_list(self.alloc, bytes)?;
        let missing = copy_missing_references(self.alloc, &self.kept, list.proposals.as_slice())?;
        Ok(missing)
    }
}
