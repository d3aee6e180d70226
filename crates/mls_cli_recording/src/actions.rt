//! What a recording asks a world for, by the name of its op.

ghost use Rattle.std.specs.Prelude.{◌≡◌, option_map};
ghost use Rattle.serde_json.specs.View.{view};
ghost use Rattle.mls_cli_json.specs.Faults.{Finds};
ghost use Rattle.mls_cli_recording.specs.Calls.{action_view};
ghost use Rattle.mls_cli_recording.specs.Recording.{action_by, deliver_all_in, event_in};

use crate::calls::call_by;
use crate::lookup::has_keys;
use crate::sources::source_at;
use mls_cli_json::JsonError;
use mls_model::{Event, Source};
use serde_json::Value;
use std::alloc::Global;

/// What a recording asks a world for.
#[derive(Debug, Drop)]
pub enum Action {
    Event(Event),
    /// The bytes of this source, delivered to each member that is active as the action begins.
    DeliverAll(Source),
}

fn deliver_all_in(alloc: Global, value: &Value) -> Result<Option<Action>, JsonError>
    ensures { Finds (option_map action_view) result (deliver_all_in (view value.now)) }
{
    if !has_keys(value, 2) {
        return Err(JsonError::BadJson);
    }
    match source_at(alloc, value, "bytes")? {
        Some(bytes) => Ok(Some(Action::DeliverAll(bytes))),
        None => Ok(None),
    }
}

fn event_in(alloc: Global, op: &str, value: &Value) -> Result<Option<Action>, JsonError>
    ensures { Finds (option_map action_view) result (event_in op.now (view value.now)) }
{
    match call_by(alloc, op, value)? {
        Some(event) => Ok(Some(Action::Event(event))),
        None => Ok(None),
    }
}

/// Reads the action that an object names by its op, in a recording of this version; None where a text in it isn't hex.
pub fn action_by(
    alloc: Global,
    version: u64,
    op: &str,
    value: &Value,
) -> Result<Option<Action>, JsonError>
    ensures { Finds (option_map action_view) result (action_by version op.now (view value.now)) }
{
    if version == 2 && op == "deliver_all" {
        deliver_all_in(alloc, value)
    } else {
        event_in(alloc, op, value)
    }
}
