//! The lines of public messages.

ghost use Rattle.std.specs.Prelude.{◌≡◌, ◌++◌, ◌∷◌, [], codes, map, IfOk};
ghost use Rattle.mls_cli_text.specs.Text.{bytes, entries_of, entry, entry_of, number, word};
ghost use Rattle.mls_cli_show.specs.Commit.{commit_entries};
ghost use Rattle.mls_cli_show.specs.Public.{body_entries, leaf_index, proposal_entries, public_message_entries, with_word_line};

use crate::commit::commit_lines;
use crate::extensions::extension_lines;
use crate::numbered::Detail;
use crate::package::{key_package_lines, leaf_lines};
use mls_cli_text::{Field, Line, Prefix, append_line, append_lines, line_of};
use mls_leaf::{Bytes, Proposal};
use mls_types::{Commit, PublicMessage, Sender, SignedBody, SignedContent};
use std::alloc::{AllocError, Global};

fn index_of(sender: &Sender) -> u32
    ensures { result ≡ leaf_index sender.now }
{
    match sender {
        Sender::Member(index) => *index,
    }
}

fn frame_lines(
    alloc: Global,
    group_id: Bytes,
    epoch: u64,
    sender: Sender,
    authenticated_data: Bytes,
) -> Result<Vec<Line>, AllocError>
    ensures { IfOk result (λ lines. map entry_of lines.items
        ≡ entry [] (codes "group_id") (bytes group_id)
        ∷ entry [] (codes "epoch") (number epoch)
        ∷ entry [] (codes "sender") (number (leaf_index sender))
        ∷ entry [] (codes "authenticated_data") (bytes authenticated_data) ∷ []) }
{
    let sender = index_of(&sender);
    Ok(vec![in alloc;
        line_of("group_id", Field::Bytes(group_id)),
        line_of("epoch", Field::Number(epoch)),
        line_of("sender", Field::Number(u64::from(sender))),
        line_of("authenticated_data", Field::Bytes(authenticated_data)),
    ]?)
}

/// Puts a line of one word in front of others.
fn with_word_line(
    alloc: Global,
    name: &'static str,
    value: &'static str,
    lines: Vec<Line>,
) -> Result<Vec<Line>, AllocError>
    ensures { IfOk result (λ all. entries_of all ≡ with_word_line name.entry value.entry lines) }
{
    let front = vec![in alloc; line_of(name, Field::Word(value))]?;
    append_lines(front, lines)
}

fn remove_lines(alloc: Global, removed: u32) -> Result<Vec<Line>, AllocError>
    ensures { IfOk result (λ lines. map entry_of lines.items
        ≡ entry [] (codes "proposal") (word (codes "remove"))
        ∷ entry [] (codes "removed") (number removed) ∷ []) }
{
    Ok(vec![in alloc;
        line_of("proposal", Field::Word("remove")),
        line_of("removed", Field::Number(u64::from(removed))),
    ]?)
}

/// The lines of a proposal.
#[tactic(auto, unfolding(crate::specs::Public::proposal_entries))]
pub fn proposal_lines(alloc: Global, proposal: Proposal) -> Result<Vec<Line>, AllocError>
    ensures { IfOk result (λ lines. map entry_of lines.items ≡ proposal_entries proposal) }
{
    match proposal {
        Proposal::Add(key_package) => {
            let lines = key_package_lines(alloc, Prefix::of("add."), key_package)?;
            with_word_line(alloc, "proposal", "add", lines)
        }
        Proposal::Update(leaf_node) => {
            let lines = leaf_lines(alloc, Prefix::of(""), leaf_node)?;
            with_word_line(alloc, "proposal", "update", lines)
        }
        Proposal::Remove(removed) => remove_lines(alloc, removed),
        Proposal::GroupContextExtensions(extensions) => {
            let lines = extension_lines(alloc, Prefix::of(""), extensions.as_slice())?;
            with_word_line(alloc, "proposal", "group_context_extensions", lines)
        }
    }
}

fn commit_body_lines(
    alloc: Global,
    detail: Detail,
    commit: Commit,
    signature: Bytes,
    confirmation_tag: Bytes,
) -> Result<Vec<Line>, AllocError>
    ensures { IfOk result (λ lines. map entry_of lines.items
        ≡ entry [] (codes "content") (word (codes "commit"))
        ∷ (commit_entries detail commit
        ++ entry [] (codes "signature") (bytes signature)
        ∷ entry [] (codes "confirmation_tag") (bytes confirmation_tag) ∷ [])) }
{
    let end = vec![in alloc;
        line_of("signature", Field::Bytes(signature)),
        line_of("confirmation_tag", Field::Bytes(confirmation_tag)),
    ]?;
    let lines = append_lines(commit_lines(alloc, detail, commit)?, end)?;
    with_word_line(alloc, "content", "commit", lines)
}

fn application_lines(
    alloc: Global,
    content: Bytes,
    signature: Bytes,
) -> Result<Vec<Line>, AllocError>
    ensures { IfOk result (λ lines. map entry_of lines.items
        ≡ entry [] (codes "content") (word (codes "application"))
        ∷ entry [] (codes "data") (bytes content)
        ∷ entry [] (codes "signature") (bytes signature) ∷ []) }
{
    Ok(vec![in alloc;
        line_of("content", Field::Word("application")),
        line_of("data", Field::Bytes(content)),
        line_of("signature", Field::Bytes(signature)),
    ]?)
}

fn proposed_lines(
    alloc: Global,
    proposal: Proposal,
    signature: Bytes,
) -> Result<Vec<Line>, AllocError>
    ensures { IfOk result (λ lines. map entry_of lines.items
        ≡ entry [] (codes "content") (word (codes "proposal"))
        ∷ (proposal_entries proposal ++ entry [] (codes "signature") (bytes signature) ∷ [])) }
{
    let lines = proposal_lines(alloc, proposal)?;
    let lines = with_word_line(alloc, "content", "proposal", lines)?;
    append_line(lines, line_of("signature", Field::Bytes(signature)))
}

fn body_lines(
    alloc: Global,
    detail: Detail,
    body: SignedBody,
    signature: Bytes,
) -> Result<Vec<Line>, AllocError>
    ensures { IfOk result (λ lines. map entry_of lines.items ≡ body_entries detail body signature) }
{
    match body {
        SignedBody::Application(content) => application_lines(alloc, content, signature),
        SignedBody::Proposal(proposal) => proposed_lines(alloc, proposal, signature),
        SignedBody::Commit {
            commit,
            confirmation_tag,
        } => commit_body_lines(alloc, detail, commit, signature, confirmation_tag),
    }
}

fn content_lines(
    alloc: Global,
    detail: Detail,
    content: SignedContent,
) -> Result<Vec<Line>, AllocError>
    ensures { IfOk result (λ lines. map entry_of lines.items
        ≡ entry [] (codes "group_id") (bytes content.group_id)
        ∷ entry [] (codes "epoch") (number content.epoch)
        ∷ entry [] (codes "sender") (number (leaf_index content.sender))
        ∷ entry [] (codes "authenticated_data") (bytes content.authenticated_data)
        ∷ body_entries detail content.body content.signature) }
{
    let SignedContent {
        group_id,
        epoch,
        sender,
        authenticated_data,
        body,
        signature,
    } = content;
    let body = body_lines(alloc, detail, body, signature)?;
    let frame = frame_lines(alloc, group_id, epoch, sender, authenticated_data)?;
    append_lines(frame, body)
}

/// The lines of a public message, from its group's identifier on.
#[tactic(auto, unfolding(crate::specs::Public::public_message_entries))]
pub fn public_message_lines(
    alloc: Global,
    detail: Detail,
    message: PublicMessage,
) -> Result<Vec<Line>, AllocError>
    ensures { IfOk result (λ lines. entries_of lines ≡ public_message_entries detail message) }
{
    let PublicMessage {
        content,
        membership_tag,
    } = message;
    let lines = content_lines(alloc, detail, content)?;
    append_line(
        lines,
        line_of("membership_tag", Field::Bytes(membership_tag)),
    )
}
