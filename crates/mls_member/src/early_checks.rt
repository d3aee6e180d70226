//! The checks of received bytes that come before anything grows.

ghost use Rattle.std.specs.Prelude.{◌≡◌, ◌≢◌, ℕ, Err};
ghost use Rattle.mls_member.specs.EarlyChecks.{early_checks, PassesEarly};
ghost use Rattle.mls_member.specs.Faults.{number_of};
ghost use Rattle.mls_member.specs.Process.{message_outer_checks};
ghost use Rattle.mls_member.specs.Received.{LendsLeaf};

use crate::error::Refusal;
use crate::member::Member;
use mls_leaf::LeafNode;
use mls_suite::{OutOfMemory, Suite};
use mls_view::MessageView;

impl<S: Suite> Member<S> {
    /// The leaf of the sender of bytes that aren't the pending commit: decoding, `NotPublicMessage` (41) to
    /// `BadMembershipTag` (46) (RFC 9420, 6). It takes no memory.
    fn sender_in(&self, bytes: &[u8]) -> Result<&LeafNode, Refusal>
        ensures { LendsLeaf (message_outer_checks self.now bytes.now) result }
    {
        match MessageView::read(bytes)? {
            MessageView::PublicMessage(view) => self.sender_of(&view),
            _ => Err(Refusal::NotPublicMessage),
        }
    }

    /// What `process` refuses before anything grows: `Gone` (40), and of bytes that aren't its pending commit faults of
    /// decoding and `NotPublicMessage` (41) to `BadMembershipTag` (46). It takes no memory.
    #[tactic(auto, unfolding(crate::specs::EarlyChecks::early_checks))]
    pub fn check_early(&self, bytes: &[u8]) -> Result<(), Refusal>
        ensures { PassesEarly self.now bytes.now result }
    {
        if self.is_gone() {
            return Err(Refusal::Gone);
        }
        if self.is_own(bytes) {
            return Ok(());
        }
        self.sender_in(bytes)?;
        Ok(())
    }

    /// The refusal of bytes for which no memory was found: what is refused before anything grows comes first.
    pub(crate) fn early_refusal(&self, bytes: &[u8], error: OutOfMemory) -> Refusal
        ensures is { number_of result ≢ 1
            → early_checks self.now bytes.now ≡ Err (number_of result) }
        ensures early { (n : ℕ) → early_checks self.now bytes.now ≡ Err n → number_of result ≡ n }
    {
        match self.check_early(bytes) {
            Ok(()) => error.into(),
            Err(refusal) => refusal,
        }
    }
}
