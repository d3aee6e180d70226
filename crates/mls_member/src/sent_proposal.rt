//! Keeping own proposals (RFC 9420, 12.1). Where a call ends early, a proposal is given to `drop`: that is one call,
//! and the prover doesn't take the proposal apart there.

ghost use Rattle.std.specs.Prelude.{◌^◌};
ghost use Rattle.mls_leaf.specs.Proposal.{proposal as proposal_format};
ghost use Rattle.mls_public_group.specs.MessageLimit.{FitsIfShort};
ghost use Rattle.mls_public_group.specs.Short.{IsBelow};
ghost use Rattle.mls_member.specs.Proposing.{KeepsSent, SendsAndKeeps, TellsKnown};

use crate::error::Refusal;
use crate::kept_and_pending::KeptProposal;
use crate::member::Member;
use crate::used_proposals::kept_under;
use mls_kdf::Secret;
use mls_leaf::Proposal;
use mls_message::SaidProposal;
use mls_suite::Suite;

impl<S: Suite> Member<S> {
    /// Whether the same message is kept under its reference: `ReferenceTaken` (49) another one is (RFC 9420, 12.1).
    fn is_said(&self, said: &SaidProposal) -> Result<bool, Refusal>
        ensures { TellsKnown self.now said.now result }
    {
        let Some(old) = kept_under(&self.kept, &said.reference) else {
            return Ok(false);
        };
        if old.message.as_slice() == said.message.as_slice() {
            return Ok(true);
        }
        Err(Refusal::ReferenceTaken)
    }

    /// Keeps a proposal behind the others, an update with the new private key of the member's leaf, and answers its
    /// message.
    #[tactic(auto, unfolding(mls_model::specs::Member::with_kept))]
    fn keep_sent_proposal(
        &mut self,
        said: SaidProposal,
        proposal: Proposal,
        own_key: Option<Secret>,
    ) -> Result<Vec<u8>, Refusal>
        requires { IsBelow (2 ^ 27) proposal_format proposal }
        ensures { KeepsSent said proposal own_key self.old self.new result }
    {
        let answer = match Vec::from_slice(self.alloc, &said.message) {
            Ok(answer) => answer,
            Err(error) => {
                drop(proposal);
                return Err(error.into());
            }
        };
        let SaidProposal { message, reference } = said;
        let sender = self.keys.leaf();
        let kept = KeptProposal {
            reference,
            message,
            proposal,
            sender,
            own_key,
        };
        self.kept.push(kept)?;
        Ok(answer)
    }

    /// Says a proposal whose checks have passed, and keeps it. `TooLong` (6) its message is too large; where the same
    /// message is kept already nothing changes, and `ReferenceTaken` (49) where another one is kept under its reference
    /// (RFC 9420, 12.1).
    pub(crate) fn send_and_keep(
        &mut self,
        proposal: Proposal,
        own_key: Option<Secret>,
    ) -> Result<Vec<u8>, Refusal>
        requires { FitsIfShort proposal_format proposal }
        ensures { SendsAndKeeps S.crypto proposal own_key self.old self.new result }
    {
        let said = match mls_message::sign_proposal::<S>(self.alloc, &self.speaker(), &proposal) {
            Ok(said) => said,
            Err(error) => {
                drop(proposal);
                return Err(error.into());
            }
        };
        let is_kept = match self.is_said(&said) {
            Ok(known) => known,
            Err(error) => {
                drop(proposal);
                return Err(error);
            }
        };
        if is_kept {
            drop(proposal);
            return Ok(said.message);
        }
        self.keep_sent_proposal(said, proposal, own_key)
    }
}
