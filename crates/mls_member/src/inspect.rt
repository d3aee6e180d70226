//! What a message would do, before it is followed.

ghost use Rattle.std.specs.Prelude.{◌≡◌, true, Err, IfOk};
ghost use Rattle.mls_model.specs.Messages.{decode_message};
ghost use Rattle.mls_model.specs.Verdict.{verdict};
ghost use Rattle.mls_member.specs.Inspecting.{Inspects, ShowsGood, sender_in};
ghost use Rattle.mls_member.specs.Received.{RefusesOthers};
ghost use Rattle.mls_member.specs.declared.error.Refusal.TheVariants.{Gone};

use crate::error::Refusal;
use crate::framing::sender_leaf;
use crate::member::Member;
use mls_model::Effect;
use mls_suite::Suite;
use mls_view::MessageView;

/// What a message would do to a member.
#[derive(Drop)]
pub struct Inspection<S: Suite> {
    /// What `process` would answer.
    pub effect: Effect,
    /// The member as it would be then: by its group one sees whom a commit adds, removes and renews, and which
    /// extensions the group would carry; by what it keeps, the proposal. One that is removed keeps the group of its last
    /// epoch.
    pub member: Member<S>,
}

/// The leaf index of a message's sender, which nothing has checked yet; None where the bytes are no PublicMessage (RFC
/// 9420, 6).
pub fn message_sender(bytes: &[u8]) -> Option<u32>
    ensures { result ≡ sender_in (decode_message bytes.now) }
{
    let message = match MessageView::read(bytes) {
        Ok(message) => message,
        Err(_) => return None,
    };
    match message {
        MessageView::PublicMessage(view) => Some(sender_leaf(&view.content.sender)),
        _ => None,
    }
}

impl<S: Suite> Member<S> {
    /// What a message would do to the member, by what it does to a copy: the answer or the refusal of `process`. The
    /// member itself stays. A copy shares the nodes of the tree.
    pub fn inspect(&self, bytes: &[u8]) -> Result<Inspection<S>, Refusal>
        ensures answer { Inspects (verdict S.crypto self.now bytes.now) result }
        ensures good { ShowsGood S.crypto self.now result }
        ensures gone { self.now.gone ≡ true → result ≡ Err Gone }
        // Of bytes that aren't its pending commit, faults of decoding and `NotPublicMessage` (41) to `BadMembershipTag`
        // (46) come also when an allocation fails.
        ensures outright { RefusesOthers self.now bytes.now result }
    {
        if self.is_gone() {
            return Err(Refusal::Gone);
        }
        let mut member = match self.copy() {
            Ok(member) => member,
            Err(error) => return Err(self.early_refusal(bytes, error)),
        };
        match member.process(bytes) {
            Ok(effect) => Ok(Inspection { effect, member }),
            Err(error) => {
                drop(member);
                Err(error)
            }
        }
    }
}
