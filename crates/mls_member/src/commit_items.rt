//! The proposals of a commit call (RFC 9420, 12.4).

ghost use Rattle.std.specs.Prelude.{◌≡◌, ◌^◌, map, IfOk};
ghost use Rattle.mls_leaf.specs.GroupExtensions.{group_extensions};
ghost use Rattle.mls_leaf.specs.Proposal.{proposal as proposal_format};
ghost use Rattle.mls_leaf.specs.declared.proposal.Proposal.TheVariants.{Remove};
ghost use Rattle.mls_model.specs.Make.{list_item_of};
ghost use Rattle.mls_model.specs.Member.{find_proposal};
ghost use Rattle.mls_public_group.specs.MessageLimit.{FitsIfShort};
ghost use Rattle.mls_public_group.specs.Short.{IsBelow};
ghost use Rattle.mls_public_group.specs.ShortProposal.{IsShortProposal};
ghost use Rattle.mls_make.specs.CommitCall.{HasShortParts, IsUsable, AreUsable};
ghost use Rattle.mls_member.specs.Answers.{IsShortItem, AreShortItems, Finds};
ghost use Rattle.mls_member.specs.Faults.{Gives};

use crate::error::Refusal;
use crate::kept_and_pending::KeptProposal;
use crate::used_proposals::{kept_under, used_kept};
use mls_leaf::{Bytes, GroupExtensions, Items, Proposal};
use mls_model::Item;
use mls_public_group::Used;
use mls_types::ProposalOrRef;
use std::alloc::{AllocError, Global};

/// One proposal of a commit call, as the commit lists it.
fn list_item(alloc: Global, item: &Item) -> Result<ProposalOrRef, AllocError>
    ensures { IfOk result (λ p. p ≡ list_item_of item.now) }
{
    match item {
        Item::Full(proposal) => Ok(ProposalOrRef::Proposal(proposal.clone()?)),
        Item::Ref(reference) => {
            let bytes = Vec::from_slice(alloc, reference)?;
            Ok(ProposalOrRef::Reference(Bytes::from_vec(bytes)))
        }
    }
}

/// The list of a commit.
pub(crate) fn list_items(alloc: Global, items: &[Item]) -> Result<Items<ProposalOrRef>, AllocError>
    ensures { IfOk result (λ v. v ≡ map list_item_of items.now) }
{
    let mut list = Vec::new(alloc);
    for item in items {
        list.push(list_item(alloc, item)?)?;
    }
    Ok(Items::from_vec(list))
}

/// A law: a removal has a spelling, of fewer than 2^28 bytes.
fn know_removal(leaf: u32)
    ensures { IsBelow (2 ^ 28) proposal_format (Remove leaf) }
{}

/// A law: the extensions of a group have a spelling, if that would be short.
fn know_extensions(extensions: &GroupExtensions)
    ensures { FitsIfShort group_extensions extensions.now }
{
    let _entries = extensions.as_slice();
}

/// A law: a proposal whose KeyPackage or leaf is short has a spelling, of fewer than 2^28 bytes; one of extensions has
/// one, if that would be short.
fn know_short(proposal: &Proposal)
    requires { IsShortProposal proposal.now }
    ensures { HasShortParts proposal.now }
{
    match proposal {
        Proposal::Add(_) => {}
        Proposal::Update(_) => {}
        Proposal::Remove(leaf) => know_removal(*leaf),
        Proposal::GroupContextExtensions(extensions) => know_extensions(extensions),
    }
}

/// One proposal that a commit call uses: of the committer where it is given in full, else a kept one, or
/// `UnknownReference` (60).
fn resolve_item<'a>(
    kept: &'a [KeptProposal],
    committer: u32,
    item: &'a Item,
) -> Result<Used<'a>, Refusal>
    requires { IsShortItem item.now }
    ensures answer { Gives (find_proposal kept.now committer (list_item_of item.now)) result }
    ensures short { IfOk result (λ u. IsUsable u) }
{
    match item {
        Item::Full(proposal) => {
            know_short(proposal);
            Ok(Used {
                proposal,
                sender: committer,
                is_full: true,
            })
        }
        Item::Ref(reference) => match kept_under(kept, reference) {
            Some(k) => Ok(used_kept(k)),
            None => Err(Refusal::UnknownReference),
        },
    }
}

/// The proposals that a commit call uses, with their senders (RFC 9420, 12.4.2).
pub(crate) fn used_of_items<'a>(
    alloc: Global,
    kept: &'a [KeptProposal],
    committer: u32,
    items: &'a [Item],
) -> Result<Vec<Used<'a>>, Refusal>
    requires { AreShortItems items.now }
    ensures answer { Finds kept.now committer (map list_item_of items.now) result }
    ensures short { IfOk result (λ v. AreUsable v.items) }
{
    let mut used = Vec::new(alloc);
    for item in items {
        match resolve_item(kept, committer, item) {
            Ok(one) => used.push(one)?,
            Err(error) => return Err(error),
        }
    }
    Ok(used)
}
