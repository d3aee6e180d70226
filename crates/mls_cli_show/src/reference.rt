//! The line of the reference by which other messages name a message.

ghost use Rattle.std.specs.Prelude.{◌≡◌, ℕ, ◌+◌, ◌<◌, ◌≤◌, ◌^◌, length, IfOk, Ok};
ghost use Rattle.mls_wire.specs.Whole.{whole};
ghost use Rattle.mls_leaf.specs.Limits.{input_limit};
ghost use Rattle.mls_types.specs.Message.{mls_message};
ghost use Rattle.mls_types.specs.declared.message.MlsMessage.{MlsMessage};
ghost use Rattle.mls_types.specs.declared.public_message.PublicMessage.{PublicMessage};
ghost use Rattle.mls_view.specs.Shown.{ShowsPublic};
ghost use Rattle.mls_cli_text.specs.Text.{entries_of};
ghost use Rattle.mls_cli_show.specs.Numbered.{in_full};
ghost use Rattle.mls_cli_show.specs.Reference.{IsReferenceIn, IsProposalIn, IsReferenceLine, reference_entries};

use crate::numbered::Detail;
use mls_cli_text::{Field, Line, line_of};
use mls_kdf::Secret;
use mls_leaf::{Bytes, key_package_reference};
use mls_view::{ContentView, MessageView, PublicMessageView};
use std::alloc::{AllocError, Global};

/// The reference of the proposal that a public message has, if it has one.
fn proposal_in(view: &PublicMessageView<'_>) -> Option<Secret>
    requires { length view.now.framed_content.now + length view.now.auth_data.now + 2 < 2 ^ 30 }
    ensures { IsProposalIn view.now result }
{
    match &view.content.content {
        ContentView::Proposal(_) => Some(view.reference()),
        _ => None,
    }
}

/// The reference of the KeyPackage or of the proposal that the bytes spell, if they spell one (RFC 9420, section 5.2).
fn reference_in(bytes: &[u8]) -> Option<Secret>
    ensures { IsReferenceIn bytes.now result }
{
    let Ok(view) = MessageView::read(bytes) else {
        return None;
    };
    match &view {
        MessageView::KeyPackage(part) => Some(key_package_reference(part.bytes())),
        MessageView::PublicMessage(view) => proposal_in(view),
        _ => None,
    }
}

/// The line of a reference, if there is one.
fn lines_of(alloc: Global, reference: Option<Secret>) -> Result<Vec<Line>, AllocError>
    ensures { IfOk result (λ lines. entries_of lines ≡ reference_entries reference) }
{
    let Some(reference) = reference else {
        return Ok(Vec::new(alloc));
    };
    let bytes = Bytes::from_slice(alloc, &reference)?;
    Ok(vec![in alloc; line_of("reference", Field::Bytes(bytes))]?)
}

/// The line of the reference of the message that the bytes spell, if it has one, in the full text alone.
pub(crate) fn reference_lines(
    alloc: Global,
    detail: Detail,
    bytes: &[u8],
) -> Result<Vec<Line>, AllocError>
    ensures { IfOk result (IsReferenceLine detail bytes.now) }
{
    match detail {
        Detail::Brief => Ok(Vec::new(alloc)),
        Detail::Full => lines_of(alloc, reference_in(bytes)),
    }
}
