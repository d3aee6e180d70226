//! Processing a message.

ghost use Rattle.std.specs.Prelude.{◌≡◌, true, Err, is_some};
ghost use Rattle.mls_leaf.specs.Limits.{input_limit};
ghost use Rattle.mls_types.specs.Message.{mls_message};
ghost use Rattle.mls_view.specs.Shown.{Shows};
ghost use Rattle.mls_view.specs.Views.{LendsWhole};
ghost use Rattle.mls_model.specs.MemberInvariant.{IsGoodMember};
ghost use Rattle.mls_model.specs.Verdict.{verdict, own_pending};
ghost use Rattle.mls_member.specs.Faults.{Does};
ghost use Rattle.mls_member.specs.declared.error.Refusal.TheVariants.{Gone};
ghost use Rattle.mls_member.specs.Received.{FollowsPendingOutright, RefusesOthers, TakesPending};

use crate::error::Refusal;
use crate::kept_and_pending::Pending;
use crate::member::Member;
use mls_leaf::LeafError;
use mls_model::Effect;
use mls_suite::Suite;
use mls_view::MessageView;

impl<S: Suite> Member<S> {
    /// Tells whether the bytes are the message of its pending commit.
    pub(crate) fn is_own(&self, bytes: &[u8]) -> bool
        ensures { result ≡ is_some (own_pending self.now.pending bytes.now) }
    {
        match &self.pending {
            Some(pending) => pending.message.as_slice() == bytes,
            None => false,
        }
    }

    /// Takes out the pending commit, where the bytes are its message.
    #[tactic(auto, unfolding(mls_model::specs::Member::without_pending))]
    fn take_own(&mut self, bytes: &[u8]) -> Option<Pending>
        ensures own { result ≡ own_pending self.old.pending bytes.now }
        ensures state { TakesPending self.old self.new result }
    {
        if !self.is_own(bytes) {
            return None;
        }
        self.pending.take()
    }

    /// Does what [`Member::process`] does with the bytes, for a caller that has read them: what that came to is given
    /// too, so that they are read once.
    #[tactic(auto, unfolding(mls_model::specs::Verdict::verdict, mls_model::specs::Member::with_epoch, mls_model::specs::Member::without_pending))]
    pub fn process_read(
        &mut self,
        message: &Result<MessageView<'_>, LeafError>,
        bytes: &[u8],
    ) -> Result<Effect, Refusal>
        requires { LendsWhole mls_message input_limit Shows bytes.now message.now }
        ensures verdict { Does (verdict S.crypto self.old bytes.now) self.old self.new result }
        ensures good { IsGoodMember S.crypto self.old → IsGoodMember S.crypto self.new }
        ensures gone { self.old.gone ≡ true → result ≡ Err Gone }
        ensures own { FollowsPendingOutright self.old bytes.now result }
        // Of other bytes, faults of decoding and `NotPublicMessage` (41) to `BadMembershipTag` (46) come also when an
        // allocation fails.
        ensures outright { RefusesOthers self.old bytes.now result }
    {
        if self.gone {
            return Err(Refusal::Gone);
        }
        match self.take_own(bytes) {
            Some(pending) => Ok(self.advance(pending.group, pending.epoch, pending.keys)),
            None => self.bytes_verdict(message, bytes),
        }
    }

    /// Does to the member what a message says, or answers the first check that fails (RFC 9420, 6, 12.1 and 12.4.2). A
    /// member that was removed answers `Gone` (40); any other follows its own pending commit, also when an allocation
    /// fails.
    pub fn process(&mut self, bytes: &[u8]) -> Result<Effect, Refusal>
        ensures verdict { Does (verdict S.crypto self.old bytes.now) self.old self.new result }
        ensures good { IsGoodMember S.crypto self.old → IsGoodMember S.crypto self.new }
        ensures gone { self.old.gone ≡ true → result ≡ Err Gone }
        ensures own { FollowsPendingOutright self.old bytes.now result }
        // Of other bytes, faults of decoding and `NotPublicMessage` (41) to `BadMembershipTag` (46) come also when an
        // allocation fails.
        ensures outright { RefusesOthers self.old bytes.now result }
    {
        let message = MessageView::read(bytes);
        self.process_read(&message, bytes)
    }
}
