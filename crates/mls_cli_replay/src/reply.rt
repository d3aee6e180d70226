//! The texts of replies.

ghost use Rattle.std.specs.Prelude.{◌≡◌, IfOk, string_bytes};
ghost use Rattle.mls_cli_replay.specs.Reply.{effect_text, outcome_text, refused_text, reply_text, tally_text};

use crate::deliveries::Tally;
use mls_model::{Effect, Reply};
use mls_wire::refusal_name;
use std::alloc::{AllocError, Global};

/// What an action came to.
#[derive(Clone, Copy, Debug, PartialEq, Eq)]
pub enum Outcome {
    Reply(Reply),
    /// The replies to deliveries to all, counted.
    Tally(Tally),
}

/// What a delivered message did to the member.
fn effect_text(alloc: Global, effect: Effect) -> Result<String, AllocError>
    ensures { IfOk result (λ text. string_bytes text ≡ effect_text effect) }
{
    match effect {
        Effect::Proposed { .. } => String::from_str(alloc, "proposed"),
        Effect::Known { .. } => String::from_str(alloc, "known"),
        Effect::Advanced { epoch } => format!(in alloc; "advanced to {epoch}"),
        Effect::Removed => String::from_str(alloc, "removed"),
    }
}

fn refusal_text(alloc: Global, number: u8, name: &str) -> Result<String, AllocError>
    ensures { IfOk result (λ text. string_bytes text ≡ refused_text number name.now) }
{
    format!(in alloc; "refused {number} {name}")
}

/// The text of a reply.
fn reply_text(alloc: Global, reply: Reply) -> Result<String, AllocError>
    ensures { IfOk result (λ text. string_bytes text ≡ reply_text reply) }
{
    match reply {
        Reply::Candidate { candidate, message } => {
            format!(in alloc; "candidate {candidate}, message {message}")
        }
        Reply::Created { member } => format!(in alloc; "member {member}"),
        Reply::Proposal { message } => format!(in alloc; "message {message}"),
        Reply::Commit {
            message,
            welcome: None,
        } => format!(in alloc; "message {message}"),
        Reply::Commit {
            message,
            welcome: Some(welcome),
        } => format!(in alloc; "message {message}, welcome {welcome}"),
        Reply::Dropped { pending: true } => String::from_str(alloc, "dropped"),
        Reply::Dropped { pending: false } => String::from_str(alloc, "nothing pending"),
        Reply::Delivered { effect } => effect_text(alloc, effect),
        Reply::Joined { member, epoch } => format!(in alloc; "member {member} at epoch {epoch}"),
        Reply::Refused { number } => refusal_text(alloc, number, refusal_name(number)),
    }
}

fn tally_text(alloc: Global, tally: Tally) -> Result<String, AllocError>
    ensures { IfOk result (λ text. string_bytes text ≡ tally_text tally) }
{
    let Tally {
        proposed,
        known,
        advanced,
        removed,
        refused,
    } = tally;
    format!(in alloc;
        "proposed {proposed}, known {known}, advanced {advanced}, removed {removed}, refused {refused}"
    )
}

/// The text of what an action came to.
pub fn outcome_text(alloc: Global, outcome: Outcome) -> Result<String, AllocError>
    ensures { IfOk result (λ text. string_bytes text ≡ outcome_text outcome) }
{
    match outcome {
        Outcome::Reply(reply) => reply_text(alloc, reply),
        Outcome::Tally(tally) => tally_text(alloc, tally),
    }
}
