//! Recordings of groups, as they are read from JSON: the calls on a world, in order, each with the text that its reply
//! should have, if one is recorded, and the lines that members should have in the end, if they are. The format is this
//! project's own.
#![tactic(auto)]

mod actions;
mod calls;
mod extensions;
mod lookup;
mod reading;
mod sources;

ghost use Rattle.mls_cli_recording.specs.CallLaws.{SameReplies, SameRun};

pub use actions::Action;
pub use reading::{Recorded, RecordedRun, has_parts, is_version, recording, suite_text};

/// Events that stand for the same calls leave the same world and have the same replies, so what a recording does
/// follows from its text. The function does nothing.
pub fn laws_of_calls()
    ensures run { SameRun }
    ensures replies { SameReplies }
{}
