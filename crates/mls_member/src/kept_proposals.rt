//! The proposals that a member keeps, and its pending commit.

ghost use Rattle.std.specs.Prelude.{◌≡◌, ◌^◌, IfSome, is_some};
ghost use Rattle.std.specs.List.{filter};
ghost use Rattle.std.specs.Option.{option_copied};
ghost use Rattle.mls_leaf.specs.Proposal.{proposal as proposal_format};
ghost use Rattle.mls_public_group.specs.Short.{IsBelow};
ghost use Rattle.mls_model.specs.MemberInvariant.{IsGoodMember};
ghost use Rattle.mls_member.specs.Answers.{kept_proposal};
ghost use Rattle.mls_member.specs.KeptProposals.{Forgets, is_other, kept_reference, kept_with};

use crate::error::Refusal;
use crate::kept_and_pending::KeptProposal;
use crate::member::Member;
use crate::used_proposals::kept_under;
use mls_kdf::Secret;
use mls_leaf::Proposal;
use mls_suite::Suite;

impl KeptProposal {
    /// Its reference, by which a commit names it (RFC 9420, 5.2).
    pub fn reference(&self) -> &Secret
        ensures { result.now ≡ self.now.reference }
    {
        &self.reference
    }

    /// Its message.
    pub fn message(&self) -> &[u8]
        ensures { result.now ≡ self.now.message }
    {
        &self.message
    }

    /// What is proposed, which is spelled in fewer than 2^27 bytes.
    pub fn proposal(&self) -> &Proposal
        ensures same { result.now ≡ self.now.proposal }
        ensures below { IsBelow (2 ^ 27) proposal_format result.now }
    {
        &self.proposal
    }

    /// The leaf index of its sender.
    pub fn sender(&self) -> u32
        ensures { result ≡ self.now.sender }
    {
        self.sender
    }
}

/// Leaves out what is kept under a reference.
fn leave_out(kept: &mut Vec<KeptProposal>, reference: &[u8])
    ensures { kept.new.items ≡ filter (is_other reference.now) kept.old.items }
{
    kept.retain(|k| k.reference.as_slice() != reference);
}

/// The kept proposal with this message.
#[tactic(auto, unfolding(crate::specs::KeptProposals::kept_with))]
fn kept_with<'a>(kept: &'a [KeptProposal], message: &[u8]) -> Option<&'a KeptProposal>
    ensures { option_copied result ≡ kept_with kept.now message.now }
{
    kept.iter().find(|k| k.message.as_slice() == message)
}

impl<S: Suite> Member<S> {
    /// The proposals that it keeps, its own and those of others, the oldest first (RFC 9420, 12.1).
    pub fn kept_proposals(&self) -> &[KeptProposal]
        ensures { result.now ≡ self.now.kept }
    {
        &self.kept
    }

    /// The proposal that it keeps under a reference (RFC 9420, 12.1), which is spelled in fewer than 2^27 bytes.
    pub fn kept_proposal(&self, reference: &[u8]) -> Option<&Proposal>
        ensures same { option_copied result ≡ kept_proposal self.now reference.now }
        ensures below { IfSome result (λ p. IsBelow (2 ^ 27) proposal_format p.now) }
    {
        match kept_under(&self.kept, reference) {
            Some(k) => Some(k.proposal()),
            None => None,
        }
    }

    /// The reference of the proposal that it keeps with this message, as `propose_add` answered it or `process` took
    /// it, by which a commit names it (RFC 9420, 5.2).
    pub fn reference_of(&self, message: &[u8]) -> Option<&Secret>
        ensures { option_copied result ≡ kept_reference self.now message.now }
    {
        match kept_with(&self.kept, message) {
            Some(k) => Some(&k.reference),
            None => None,
        }
    }

    /// Forgets the proposal that it keeps under a reference, its own or another's, and answers whether there was one. A
    /// commit that names it is refused (60) then, until `process` has taken its message again, which it takes of others
    /// alone. `PendingCommit` (67) while a commit is pending. It takes no memory.
    #[tactic(auto, unfolding(crate::specs::KeptProposals::without_kept))]
    pub fn forget_proposal(&mut self, reference: &[u8]) -> Result<bool, Refusal>
        ensures forgets { Forgets self.old reference.now self.new result }
        ensures good { IsGoodMember S.crypto self.old → IsGoodMember S.crypto self.new }
    {
        if self.is_commit_pending() {
            return Err(Refusal::PendingCommit);
        }
        let had = kept_under(&self.kept, reference).is_some();
        leave_out(&mut self.kept, reference);
        Ok(had)
    }

    /// Whether it has a pending commit: one that it made, and neither followed nor dropped (RFC 9420, 12.4.1).
    pub fn is_commit_pending(&self) -> bool
        ensures { result ≡ is_some self.now.pending }
    {
        self.pending.is_some()
    }
}
