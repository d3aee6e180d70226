//! The lines of messages.

ghost use Rattle.std.specs.Prelude.{◌≡◌, length, map, IfOk, Ok};
ghost use Rattle.mls_wire.specs.Whole.{whole};
ghost use Rattle.mls_leaf.specs.Faults.{FaultsOutright, Gives};
ghost use Rattle.mls_leaf.specs.Limits.{input_limit};
ghost use Rattle.mls_types.specs.Message.{mls_message};
ghost use Rattle.mls_cli_text.specs.Text.{entries_of, entry_of};
ghost use Rattle.mls_cli_show.specs.Message.{with_head, message_entries, shown_entries, text_of};

use crate::group::{group_info_lines, welcome_lines};
use crate::numbered::Detail;
use crate::package::key_package_lines;
use crate::public::public_message_lines;
use crate::reference::reference_lines;
use mls_cli_text::{Field, Line, Prefix, append_lines, line_of};
use mls_leaf::{Codec, LeafError};
use mls_types::MlsMessage;
use std::alloc::{AllocError, Global};

/// Puts the lines that begin each message in front of others.
fn with_head(
    alloc: Global,
    kind: &'static str,
    size: usize,
    lines: Vec<Line>,
) -> Result<Vec<Line>, AllocError>
    ensures { IfOk result (λ v. entries_of v ≡ with_head kind.entry.now size (entries_of lines)) }
{
    let head = vec![in alloc;
        line_of("message", Field::Word(kind)),
        line_of("bytes", Field::Number(size as u64)),
    ]?;
    append_lines(head, lines)
}

/// The lines of a message that is spelled in so many bytes.
#[tactic(auto, unfolding(crate::specs::Message::message_entries))]
pub fn message_lines(
    alloc: Global,
    detail: Detail,
    size: usize,
    message: MlsMessage,
) -> Result<Vec<Line>, AllocError>
    ensures { IfOk result (λ lines. entries_of lines ≡ message_entries detail size message) }
{
    match message {
        MlsMessage::KeyPackage(key_package) => {
            let lines = key_package_lines(alloc, Prefix::of(""), key_package)?;
            with_head(alloc, "key_package", size, lines)
        }
        MlsMessage::PublicMessage(message) => {
            let lines = public_message_lines(alloc, detail, message)?;
            with_head(alloc, "public_message", size, lines)
        }
        MlsMessage::Welcome(welcome) => {
            let lines = welcome_lines(alloc, detail, &welcome)?;
            with_head(alloc, "welcome", size, lines)
        }
        MlsMessage::GroupInfo(info) => {
            let lines = group_info_lines(alloc, detail, info)?;
            with_head(alloc, "group_info", size, lines)
        }
    }
}

/// The lines of the message that the bytes spell, and in the full text that of its reference.
fn lines_with_reference(
    alloc: Global,
    detail: Detail,
    bytes: &[u8],
    message: MlsMessage,
) -> Result<Vec<Line>, AllocError>
    requires { whole mls_message input_limit bytes.now ≡ Ok message }
    ensures { IfOk result (λ lines. entries_of lines
        ≡ shown_entries detail (length bytes.now) message) }
{
    let lines = message_lines(alloc, detail, bytes.len(), message)?;
    let reference = reference_lines(alloc, detail, bytes)?;
    append_lines(lines, reference)
}

/// The lines of the MLSMessage that the bytes spell, or its first fault (2 to 7, 11 to 14).
pub fn show_text(alloc: Global, detail: Detail, bytes: &[u8]) -> Result<Vec<Line>, LeafError>
    ensures lines { Gives (λ lines. map entry_of lines.items) result (text_of detail bytes.now) }
    // A fault is answered also when an allocation fails.
    ensures outright { FaultsOutright (text_of detail bytes.now) result }
{
    let message = MlsMessage::decode(alloc, bytes)?;
    let lines = lines_with_reference(alloc, detail, bytes, message)?;
    Ok(lines)
}
