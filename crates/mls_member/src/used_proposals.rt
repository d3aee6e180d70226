//! The proposals that a commit uses (RFC 9420, 12.4).

ghost use Rattle.std.specs.Prelude.{◌≡◌, ◌^◌, IfOk};
ghost use Rattle.std.specs.List.{AllByRecursion, list_any};
ghost use Rattle.std.specs.Option.{option_copied};
ghost use Rattle.mls_leaf.specs.Proposal.{proposal as proposal_format};
ghost use Rattle.mls_model.specs.Member.{kept_under, find_proposal, named_proposal, named_proposals, first_own_key};
ghost use Rattle.mls_public_group.specs.Short.{IsBelow, AreBelow};
ghost use Rattle.mls_member.specs.Faults.{Gives};
ghost use Rattle.mls_make.specs.CommitCall.{IsUsable};
ghost use Rattle.mls_member.specs.Process.{IsListedBelow, KeepExtensionsShort, key_of, removes_leaf};
ghost use Rattle.mls_member.specs.Answers.{Finds, used_kept};

use crate::error::Refusal;
use crate::kept_and_pending::KeptProposal;
use mls_kdf::Secret;
use mls_leaf::Proposal;
use mls_public_group::Used;
use mls_types::ProposalOrRef;
use std::alloc::Global;

/// The kept proposal with a reference.
#[tactic(auto, unfolding(mls_model::specs::Member::kept_under))]
pub(crate) fn kept_under<'a>(kept: &'a [KeptProposal], reference: &[u8]) -> Option<&'a KeptProposal>
    ensures { option_copied result ≡ kept_under kept.now reference.now }
{
    kept.iter().find(|k| k.reference.as_slice() == reference)
}

/// A kept proposal, as a commit uses it.
pub(crate) fn used_kept<'a>(kept: &'a KeptProposal) -> Used<'a>
    ensures used { result ≡ used_kept kept.now }
    ensures below { IsBelow (2 ^ 27) proposal_format result.proposal }
    ensures usable { IsUsable result }
{
    Used {
        proposal: &kept.proposal,
        sender: kept.sender,
        is_full: false,
    }
}

/// One of a commit's list: of the committer where it is given in full, else a kept one, or `UnknownReference` (60) (RFC
/// 9420, 12.4.2).
fn find_proposal<'a>(
    kept: &'a [KeptProposal],
    committer: u32,
    listed: &'a ProposalOrRef,
) -> Result<Used<'a>, Refusal>
    requires { IsListedBelow (2 ^ 27) listed.now }
    ensures answer { Gives (find_proposal kept.now committer listed.now) result }
    ensures below { IfOk result (λ u. IsBelow (2 ^ 27) proposal_format u.proposal) }
{
    match listed {
        ProposalOrRef::Proposal(proposal) => Ok(Used {
            proposal,
            sender: committer,
            is_full: true,
        }),
        ProposalOrRef::Reference(reference) => match kept_under(kept, reference.as_slice()) {
            Some(k) => Ok(used_kept(k)),
            None => Err(Refusal::UnknownReference),
        },
    }
}

/// The proposals of a commit's list, with their senders (RFC 9420, 12.4.2).
pub(crate) fn find_proposals<'a>(
    alloc: Global,
    kept: &'a [KeptProposal],
    committer: u32,
    list: &'a [ProposalOrRef],
) -> Result<Vec<Used<'a>>, Refusal>
    requires { AllByRecursion (IsListedBelow (2 ^ 27)) list.now }
    ensures answer { Finds kept.now committer list.now result }
    ensures below { IfOk result (λ v. AreBelow (2 ^ 27) v.items) }
    ensures wide { IfOk result (λ v. AreBelow (2 ^ 28) v.items) }
    ensures extensions { IfOk result (λ v. KeepExtensionsShort v.items) }
{
    let mut used = Vec::new(alloc);
    for listed in list {
        match find_proposal(kept, committer, listed) {
            Ok(one) => used.push(one)?,
            Err(error) => return Err(error),
        }
    }
    Ok(used)
}

/// Whether a proposal removes a leaf (RFC 9420, 12.1.3).
fn removes_leaf(used: &Used<'_>, leaf: u32) -> bool
    ensures { result ≡ removes_leaf leaf used.now }
{
    match used.proposal {
        Proposal::Add(_) => false,
        Proposal::Update(_) => false,
        Proposal::Remove(removed) => *removed == leaf,
        Proposal::GroupContextExtensions(_) => false,
    }
}

/// Whether one of the proposals removes a leaf.
pub(crate) fn removes(used: &[Used<'_>], leaf: u32) -> bool
    ensures { result ≡ list_any (removes_leaf leaf) used.now }
{
    used.iter().any(|one| removes_leaf(one, leaf))
}

/// The private key that a kept proposal of a commit's list has.
fn key_of<'a>(kept: &'a [KeptProposal], listed: &ProposalOrRef) -> Option<&'a Secret>
    ensures { option_copied result ≡ key_of (named_proposal kept.now listed.now) }
{
    let ProposalOrRef::Reference(reference) = listed else {
        return None;
    };
    match kept_under(kept, reference.as_slice()) {
        Some(k) => k.own_key.as_ref(),
        None => None,
    }
}

/// The new private key of the member's own update, where a commit's list names it (RFC 9420, 12.1.2).
pub(crate) fn own_key<'a>(kept: &'a [KeptProposal], list: &[ProposalOrRef]) -> Option<&'a Secret>
    ensures { option_copied result ≡ first_own_key (named_proposals kept.now list.now) }
{
    for listed in list {
        match key_of(kept, listed) {
            Some(key) => return Some(key),
            None => {}
        }
    }
    None
}
