//! The lines of a replay.

ghost use Rattle.std.specs.Prelude.{◌≡◌, IfOk, string_bytes};
ghost use Rattle.hex.specs.Hex.{encode_lower};
ghost use Rattle.mls_cli_text.specs.Text.{or_dash};
ghost use Rattle.mls_cli_replay.specs.ReplayLaws.{replay_line_nonempty};
ghost use Rattle.mls_cli_replay.specs.Replay.{entry_of, entry_text, entry_words, expected, gone, missing, not_expected, present, replied, HasWords};

use crate::reply::{Outcome, outcome_text};
use mls_cli_text::Printed;
use mls_kdf::Secret;
use std::alloc::{AllocError, Global};

/// A line of a replay.
#[derive(Clone, Copy, Debug)]
pub enum ReplayLine<'a> {
    /// What the action of this number came to.
    Outcome {
        action: usize,
        outcome: Outcome,
    },
    /// The text that its reply should have had.
    Expected {
        action: usize,
        text: &'a str,
    },
    /// A member that was removed.
    Gone {
        member: usize,
    },
    /// Where a member stands in the end.
    Present {
        member: usize,
        /// The index of its leaf.
        leaf: u32,
        epoch: u64,
        /// The tree hash (RFC 9420, 7.8).
        tree: &'a [u8],
        /// The epoch authenticator (RFC 9420, 8.7).
        authenticator: &'a Secret,
    },
    /// The line that the member of this number should have had in the end.
    Missing {
        member: usize,
        text: &'a str,
    },
    /// A member for which no line is expected in the end.
    NotExpected {
        member: usize,
    },
}

/// Lower-case hex digits, `-` where there are no bytes.
fn hex_text(alloc: Global, bytes: &[u8]) -> Result<String, AllocError>
    ensures { IfOk result (λ text. string_bytes text ≡ or_dash encode_lower bytes.now) }
{
    if bytes.is_empty() {
        return String::from_str(alloc, "-");
    }
    hex::encode(alloc, bytes)
}

fn outcome_words(alloc: Global, action: usize, outcome: Outcome) -> Result<String, AllocError>
    ensures { IfOk result (λ text. string_bytes text ≡ entry_words (replied action outcome)) }
{
    let said = outcome_text(alloc, outcome)?;
    format!(in alloc; "{action}: {said}")
}

fn present_words(
    alloc: Global,
    member: usize,
    leaf: u32,
    epoch: u64,
    tree: &[u8],
    authenticator: &Secret,
) -> Result<String, AllocError>
    ensures { HasWords string_bytes (present member leaf epoch tree.now authenticator.now) result }
{
    let tree = hex_text(alloc, tree)?;
    let authenticator = hex_text(alloc, authenticator)?;
    format!(in alloc;
        "member {member}: leaf {leaf}, epoch {epoch}, tree {tree}, authenticator {authenticator}"
    )
}

fn expected_words(alloc: Global, action: usize, text: &str) -> Result<String, AllocError>
    ensures { HasWords string_bytes (expected action text.now) result }
{
    format!(in alloc; "{action}: expected {text}")
}

fn gone_words(alloc: Global, member: usize) -> Result<String, AllocError>
    ensures { IfOk result (λ text. string_bytes text ≡ entry_words (gone member)) }
{
    format!(in alloc; "member {member}: gone")
}

fn missing_words(alloc: Global, member: usize, text: &str) -> Result<String, AllocError>
    ensures { IfOk result (λ words. string_bytes words ≡ entry_words (missing member text.now)) }
{
    format!(in alloc; "final {member}: expected {text}")
}

fn not_expected_words(alloc: Global, member: usize) -> Result<String, AllocError>
    ensures { IfOk result (λ text. string_bytes text ≡ entry_words (not_expected member)) }
{
    format!(in alloc; "final {member}: expected nothing")
}

/// A line without its line feed.
pub fn line_words(alloc: Global, line: &ReplayLine<'_>) -> Result<String, AllocError>
    ensures { IfOk result (λ text. string_bytes text ≡ entry_words (entry_of line.now)) }
{
    match line {
        ReplayLine::Outcome { action, outcome } => outcome_words(alloc, *action, *outcome),
        ReplayLine::Expected { action, text } => expected_words(alloc, *action, text),
        ReplayLine::Gone { member } => gone_words(alloc, *member),
        ReplayLine::Present {
            member,
            leaf,
            epoch,
            tree,
            authenticator,
        } => present_words(alloc, *member, *leaf, *epoch, tree, authenticator),
        ReplayLine::Missing { member, text } => missing_words(alloc, *member, text),
        ReplayLine::NotExpected { member } => not_expected_words(alloc, *member),
    }
}

impl Printed for ReplayLine<'_> {
    ghost text = { λ line. entry_text (entry_of line) };

    ghost nonempty = { replay_line_nonempty };

    fn text_bytes(&self, alloc: Global) -> Result<Vec<u8>, AllocError> {
        let mut text = line_words(alloc, self)?;
        text.push_str("\n")?;
        Ok(text.into_bytes())
    }
}
