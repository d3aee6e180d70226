//! Bytes that are not the member's own pending commit.

ghost use Rattle.mls_leaf.specs.Limits.{input_limit};
ghost use Rattle.mls_types.specs.Message.{mls_message};
ghost use Rattle.mls_view.specs.Shown.{Shows};
ghost use Rattle.mls_view.specs.Views.{LendsWhole};
ghost use Rattle.mls_tree.specs.Refusals.{RefusesOutright};
ghost use Rattle.mls_member.specs.Faults.{number_of};
ghost use Rattle.mls_member.specs.Process.{message_outer_checks, IsShortView};
ghost use Rattle.mls_member.specs.Received.{RefusesSender, TakesBytes, TakesMessage};

use crate::error::Refusal;
use crate::member::Member;
use mls_leaf::LeafError;
use mls_model::Effect;
use mls_suite::Suite;
use mls_view::{ContentView, MessageView, PublicMessageView};

impl<S: Suite> Member<S> {
    /// What bytes that were read do: decoding, `NotPublicMessage` (41) no PublicMessage, the checks of every message, and then by
    /// content (RFC 9420, 6).
    pub(crate) fn bytes_verdict(
        &mut self,
        message: &Result<MessageView<'_>, LeafError>,
        bytes: &[u8],
    ) -> Result<Effect, Refusal>
        requires { LendsWhole mls_message input_limit Shows bytes.now message.now }
        ensures verdict { TakesBytes S.crypto bytes.now self.old self.new result }
        // Decoding, and `NotPublicMessage` (41) to `BadMembershipTag` (46), come also when an allocation fails.
        ensures outright { RefusesOutright number_of (message_outer_checks self.old bytes.now)
            result }
    {
        let message = match message {
            Ok(message) => message,
            Err(error) => return Err(Refusal::Leaf(*error)),
        };
        match message {
            MessageView::PublicMessage(view) => self.message_verdict(view, bytes),
            _ => Err(Refusal::NotPublicMessage),
        }
    }

    /// What a PublicMessage does, by what its content is (RFC 9420, 6).
    fn message_verdict(
        &mut self,
        view: &PublicMessageView<'_>,
        bytes: &[u8],
    ) -> Result<Effect, Refusal>
        requires { IsShortView view.now }
        ensures verdict { TakesMessage S.crypto view.now bytes.now self.old self.new result }
        // `WrongGroup` (42) to `BadMembershipTag` (46) come also when an allocation fails.
        ensures outright { RefusesSender self.old view.now result }
    {
        self.framing_checks(view, bytes)?;
        match &view.content.content {
            ContentView::Application(_) => Err(Refusal::NotHandshake),
            ContentView::Proposal(proposal) => self.proposal_verdict(view, proposal, bytes),
            ContentView::Commit { proposals, path } => {
                self.commit_verdict(view, proposals, path)
            }
        }
    }
}
