//! The checks of every message (RFC 9420, 6).

ghost use Rattle.std.specs.Prelude.{◌≡◌, IfOk};
ghost use Rattle.mls_model.specs.Messages.{sender_leaf};
ghost use Rattle.mls_model.specs.Verdict.{is_kept};
ghost use Rattle.mls_member.specs.Process.{sender_at, says_handshake, IsShortView};
ghost use Rattle.mls_member.specs.Received.{ChecksFraming, ChecksSender, LendsLeaf, LendsSender, RefusesSender, TellsSigned, TellsTag};

use crate::error::Refusal;
use crate::kept_and_pending::KeptProposal;
use crate::member::Member;
use mls_leaf::LeafNode;
use mls_suite::{Suite, verify_with_label};
use mls_types::Sender;
use mls_view::{ContentView, PublicMessageView};
use std::alloc::AllocError;

/// The leaf of a sender (RFC 9420, 6).
pub(crate) fn sender_leaf(sender: &Sender) -> u32
    ensures { result ≡ sender_leaf sender.now }
{
    match sender {
        Sender::Member(leaf) => *leaf,
    }
}

/// Whether a content is a proposal or a commit.
fn says_handshake(content: &ContentView<'_>) -> bool
    ensures { result ≡ says_handshake content.now }
{
    match content {
        ContentView::Application(_) => false,
        ContentView::Proposal(_) => true,
        ContentView::Commit { .. } => true,
    }
}

/// Whether one of the kept proposals has this very message (RFC 9420, 12.1).
fn is_kept(kept: &[KeptProposal], bytes: &[u8]) -> bool
    ensures { result ≡ is_kept kept.now bytes.now }
{
    kept.iter().any(|k| k.message.as_slice() == bytes)
}

impl<S: Suite> Member<S> {
    /// The leaf of a message's sender: `WrongGroup` (42) another group, `WrongEpoch` (43) another epoch,
    /// `SenderNotMember` (44) no member at the sender's leaf, `NotHandshake` (45) application data (RFC 9420, 6). It
    /// takes no memory.
    #[tactic(auto, unfolding(crate::specs::Process::sender_at))]
    fn sender_at(
        &self,
        group_id: &[u8],
        epoch: u64,
        sender: u32,
        is_handshake: bool,
    ) -> Result<&LeafNode, Refusal>
        ensures { LendsLeaf (sender_at self.now group_id.now epoch sender is_handshake) result }
    {
        if group_id != self.group.context().group_id.as_slice() {
            return Err(Refusal::WrongGroup);
        }
        if epoch != self.group.context().epoch {
            return Err(Refusal::WrongEpoch);
        }
        let Some(leaf) = self.group.tree().leaf(sender) else {
            return Err(Refusal::SenderNotMember);
        };
        if !is_handshake {
            return Err(Refusal::NotHandshake);
        }
        Ok(leaf)
    }

    /// Answers the leaf of a message's sender, where that passes its checks and the message has its membership tag:
    /// `BadMembershipTag` (46) where it hasn't (RFC 9420, 6.2). It takes no memory.
    pub(crate) fn sender_of(&self, view: &PublicMessageView<'_>) -> Result<&LeafNode, Refusal>
        ensures { LendsSender self.now view.now result }
    {
        let content = &view.content;
        let sender = sender_leaf(&content.sender);
        let is_handshake = says_handshake(&content.content);
        let leaf = self.sender_at(content.group_id, content.epoch, sender, is_handshake)?;
        if !self.has_tag(view) {
            return Err(Refusal::BadMembershipTag);
        }
        Ok(leaf)
    }

    /// Whether the membership tag is that of the message (RFC 9420, 6.2). It takes no memory.
    #[tactic(auto, unfolding(mls_model::specs::Messages::content_tag, mls_schedule::specs::Epoch::membership_tag))]
    fn has_tag(&self, view: &PublicMessageView<'_>) -> bool
        ensures { TellsTag self.now view.now result }
    {
        let tag = view.membership_tag_under(
            self.epoch.membership_key(),
            self.group.context_bytes(),
        );
        view.membership_tag == tag.as_slice()
    }

    /// Whether the signature is that of a signature key (RFC 9420, 6.1).
    #[tactic(auto, unfolding(mls_model::specs::Messages::is_content_signed))]
    fn is_signed(&self, view: &PublicMessageView<'_>, key: &[u8]) -> Result<bool, AllocError>
        requires { IsShortView view.now }
        ensures { IfOk result (TellsSigned S.crypto self.now view.now key.now) }
    {
        self.group.is_short();
        let input = view.to_be_signed(self.alloc, self.group.context_bytes())?;
        let signature = view.auth.signature;
        verify_with_label::<S>(self.alloc, key, "FramedContentTBS", &input, signature)
    }

    /// `BadSignature` (47) the signature (RFC 9420, 6.1), `OwnUnknown` (48) the member's own leaf, and no proposal that
    /// it keeps.
    #[tactic(auto, unfolding(crate::specs::Process::check_sender))]
    fn check_sender(
        &self,
        view: &PublicMessageView<'_>,
        bytes: &[u8],
        leaf: &LeafNode,
    ) -> Result<(), Refusal>
        requires { IsShortView view.now }
        ensures { ChecksSender S.crypto self.now view.now bytes.now leaf.now result }
    {
        if !self.is_signed(view, leaf.signature_key.as_slice())? {
            return Err(Refusal::BadSignature);
        }
        let is_own = sender_leaf(&view.content.sender) == self.keys.leaf();
        if is_own && !is_kept(&self.kept, bytes) {
            return Err(Refusal::OwnUnknown);
        }
        Ok(())
    }

    /// `WrongGroup` (42) another group, `WrongEpoch` (43) another epoch, `SenderNotMember` (44) no member at the
    /// sender's leaf, `NotHandshake` (45) application data, `BadMembershipTag` (46) the membership tag (RFC 9420, 6.2),
    /// `BadSignature` (47) the signature (6.1), `OwnUnknown` (48) the member's own leaf, and no proposal that it keeps.
    pub(crate) fn framing_checks(
        &self,
        view: &PublicMessageView<'_>,
        bytes: &[u8],
    ) -> Result<(), Refusal>
        requires { IsShortView view.now }
        ensures answer { ChecksFraming S.crypto self.now view.now bytes.now result }
        // `WrongGroup` (42) to `BadMembershipTag` (46) come also when an allocation fails.
        ensures outright { RefusesSender self.now view.now result }
    {
        let leaf = self.sender_of(view)?;
        self.check_sender(view, bytes, leaf)
    }
}
