//! Copies of a member, which share the nodes of its tree.

ghost use Rattle.std.specs.Prelude.{◌≡◌, IfOk};

use crate::kept_and_pending::{KeptProposal, Pending};
use crate::member::Member;
use mls_public_group::PublicGroup;
use mls_schedule::Epoch;
use mls_suite::{OutOfMemory, Suite};
use std::alloc::{AllocError, Global};
use std::marker::PhantomData;

/// A copy of a public state.
fn copy_group(alloc: Global, group: &PublicGroup) -> Result<PublicGroup, AllocError>
    ensures { IfOk result (λ g. g ≡ group.now) }
{
    group.is_short();
    let context = group.context().clone()?;
    let tree = group.tree().clone()?;
    PublicGroup::new(alloc, context, tree, *group.transcript())
}

/// A copy of a kept proposal.
fn copy_proposal(alloc: Global, kept: &KeptProposal) -> Result<KeptProposal, AllocError>
    ensures { IfOk result (λ k. k ≡ kept.now) }
{
    let message = Vec::from_slice(alloc, &kept.message)?;
    let proposal = kept.proposal.clone()?;
    Ok(KeptProposal {
        reference: kept.reference,
        message,
        proposal,
        sender: kept.sender,
        own_key: kept.own_key,
    })
}

/// Copies of kept proposals.
fn copy_proposals(alloc: Global, kept: &[KeptProposal]) -> Result<Vec<KeptProposal>, AllocError>
    ensures { IfOk result (λ v. v.items ≡ kept.now) }
{
    let mut copies = Vec::new(alloc);
    for one in kept {
        copies.push(copy_proposal(alloc, one)?)?;
    }
    Ok(copies)
}

/// A copy of a pending commit.
fn copy_pending(alloc: Global, pending: &Pending) -> Result<Pending, AllocError>
    ensures { IfOk result (λ p. p ≡ pending.now) }
{
    let message = Vec::from_slice(alloc, &pending.message)?;
    let keys = pending.keys.clone()?;
    let group = copy_group(alloc, &pending.group)?;
    Ok(Pending {
        message,
        group,
        epoch: Epoch::first(pending.epoch.epoch_secret()),
        keys,
    })
}

/// A copy of a pending commit, if there is one.
fn copy_if_pending(alloc: Global, pending: &Option<Pending>) -> Result<Option<Pending>, AllocError>
    ensures { IfOk result (λ o. o ≡ pending.now) }
{
    match pending {
        Some(pending) => Ok(Some(copy_pending(alloc, pending)?)),
        None => Ok(None),
    }
}

impl<S: Suite> Member<S> {
    /// A copy of the member.
    pub(crate) fn copy(&self) -> Result<Member<S>, OutOfMemory>
        ensures { IfOk result (λ m. m ≡ self.now) }
    {
        let keys = self.keys.clone()?;
        let kept = copy_proposals(self.alloc, &self.kept)?;
        let pending = copy_if_pending(self.alloc, &self.pending)?;
        let group = copy_group(self.alloc, &self.group)?;
        Ok(Member {
            gone: self.gone,
            group,
            epoch: Epoch::first(self.epoch.epoch_secret()),
            keys,
            signing: self.signing,
            kept,
            pending,
            alloc: self.alloc,
            suite: PhantomData,
        })
    }
}
