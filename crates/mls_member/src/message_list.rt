//! What a message's content lists.

ghost use Rattle.std.specs.Prelude.{◌≡◌, ◌≤◌, ◌^◌, length, IfOk, IfErr};
ghost use Rattle.std.specs.List.{AllByRecursion};
ghost use Rattle.mls_leaf.specs.Limits.{input_limit};
ghost use Rattle.mls_leaf.specs.declared.error.LeafError.TheVariants.{Wire as in_wire};
ghost use Rattle.mls_wire.specs.declared.WireError.TheVariants.{OutOfMemory};
ghost use Rattle.mls_tree.specs.Refusals.{RefusesOutright};
ghost use Rattle.mls_member.specs.Faults.{number_of};
ghost use Rattle.mls_member.specs.ListedProposals.{ReadsContentList, ReadsList, ReadsShownList, message_list, public_message};
ghost use Rattle.mls_member.specs.Process.{IsListedBelow, IsShortContent, IsShortView};
ghost use Rattle.mls_member.specs.Received.{SpellsList};

use crate::error::Refusal;
use crate::framing::sender_leaf;
use mls_leaf::{Items, LeafError};
use mls_types::ProposalOrRef;
use mls_view::{ContentView, MessageView, Part, PublicMessageView};
use std::alloc::Global;

/// What a message lists.
#[derive(Drop)]
pub(crate) struct MessageList {
    /// The leaf index of its sender.
    pub(crate) sender: u32,
    /// The list: empty where it is no commit.
    pub(crate) proposals: Items<ProposalOrRef>,
}

/// The list of proposals that a part of a message spells.
pub(crate) fn read_list(
    alloc: Global,
    proposals: &Part<'_, Items<ProposalOrRef>>,
) -> Result<Items<ProposalOrRef>, LeafError>
    requires { length proposals.now ≤ input_limit }
    ensures list { IfOk result (λ k. SpellsList k proposals.now) }
    ensures short { IfOk result (AllByRecursion (IsListedBelow (2 ^ 27))) }
    ensures memory { IfErr result (λ e. e ≡ in_wire OutOfMemory) }
{
    let list = proposals.to_owned(alloc)?;
    Ok(list)
}

/// The list of a content that a view shows (RFC 9420, 12.4).
fn read_content_list(
    alloc: Global,
    content: &ContentView<'_>,
) -> Result<Items<ProposalOrRef>, LeafError>
    requires { IsShortContent content.now }
    ensures list { ReadsContentList content.now result }
    ensures short { IfOk result (AllByRecursion (IsListedBelow (2 ^ 27))) }
{
    match content {
        ContentView::Application(_) | ContentView::Proposal(_) => {
            Ok(Items::from_vec(Vec::new(alloc)))
        }
        ContentView::Commit { proposals, path: _ } => read_list(alloc, proposals),
    }
}

/// The list of a message that a view shows, and its sender.
fn read_view_list(alloc: Global, view: &PublicMessageView<'_>) -> Result<MessageList, Refusal>
    requires { IsShortView view.now }
    ensures list { ReadsShownList view.now result }
    ensures short { IfOk result (λ l. AllByRecursion (IsListedBelow (2 ^ 27)) l.proposals) }
{
    Ok(MessageList {
        sender: sender_leaf(&view.content.sender),
        proposals: read_content_list(alloc, &view.content.content)?,
    })
}

/// The list of the PublicMessage that bytes spell, and its sender, or a fault of decoding, or `NotPublicMessage` (41).
pub(crate) fn read_message_list(alloc: Global, bytes: &[u8]) -> Result<MessageList, Refusal>
    ensures list { ReadsList (message_list bytes.now) result }
    ensures outright { RefusesOutright number_of (public_message bytes.now) result }
    ensures short { IfOk result (λ l. AllByRecursion (IsListedBelow (2 ^ 27)) l.proposals) }
{
    match MessageView::read(bytes)? {
        MessageView::PublicMessage(view) => read_view_list(alloc, &view),
        _ => Err(Refusal::NotPublicMessage),
    }
}
