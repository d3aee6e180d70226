//! Proposals that are received (RFC 9420, 12.1). Where a call ends early, a proposal is given to `drop`: that is one
//! call, and the prover doesn't take it apart there.

ghost use Rattle.std.specs.Prelude.{◌≡◌, ◌≤◌, ◌^◌, is_some, length};
ghost use Rattle.mls_leaf.specs.Limits.{input_limit};
ghost use Rattle.mls_leaf.specs.Proposal.{proposal as proposal_format};
ghost use Rattle.mls_model.specs.Member.{kept_under};
ghost use Rattle.mls_public_group.specs.Short.{IsBelow};
ghost use Rattle.mls_member.specs.Process.{IsShortView};
ghost use Rattle.mls_member.specs.Received.{KeepsNew, TakesProposal};

use crate::error::Refusal;
use crate::framing::sender_leaf;
use crate::kept_and_pending::KeptProposal;
use crate::member::Member;
use crate::used_proposals::kept_under;
use mls_kdf::Secret;
use mls_leaf::Proposal;
use mls_model::Effect;
use mls_suite::Suite;
use mls_view::{Part, PublicMessageView};

impl<S: Suite> Member<S> {
    /// Whether a proposal is kept under a reference.
    fn is_known(&self, reference: &[u8]) -> bool
        ensures { result ≡ is_some (kept_under self.now.kept reference.now) }
    {
        kept_under(&self.kept, reference).is_some()
    }

    /// Keeps a proposal that passes its checks, under its reference.
    #[tactic(auto, unfolding(mls_model::specs::Verdict::new_proposal, mls_model::specs::Member::with_kept))]
    fn keep_proposal(
        &mut self,
        reference: Secret,
        sender: u32,
        proposal: Proposal,
        bytes: &[u8],
    ) -> Result<Effect, Refusal>
        requires { IsBelow (2 ^ 27) proposal_format proposal }
        ensures { KeepsNew S.crypto reference sender bytes.now proposal self.old self.new result }
    {
        if let Err(error) = self
            .group
            .require_proposal::<S>(self.alloc, sender, &proposal)
        {
            drop(proposal);
            return Err(error.into());
        }
        let message = match Vec::from_slice(self.alloc, bytes) {
            Ok(message) => message,
            Err(error) => {
                drop(proposal);
                return Err(error.into());
            }
        };
        let kept = KeptProposal {
            reference,
            message,
            proposal,
            sender,
            own_key: None,
        };
        self.kept.push(kept)?;
        Ok(Effect::Proposed { reference })
    }

    /// A proposal is known where one is kept under its reference, else it is checked and kept (RFC 9420, 5.2 and 12.1).
    pub(crate) fn proposal_verdict(
        &mut self,
        view: &PublicMessageView<'_>,
        proposal: &Part<'_, Proposal>,
        bytes: &[u8],
    ) -> Result<Effect, Refusal>
        requires view { IsShortView view.now }
        requires proposal { length proposal.now ≤ input_limit }
        ensures { TakesProposal S.crypto view.now bytes.now proposal.now self.old self.new result }
    {
        let reference = view.reference();
        let sender = sender_leaf(&view.content.sender);
        if self.is_known(&reference) {
            return Ok(Effect::Known { reference });
        }
        let made = proposal.to_owned(self.alloc)?;
        self.keep_proposal(reference, sender, made, bytes)
    }
}
