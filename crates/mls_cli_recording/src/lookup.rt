//! Looks into the objects of a recording.

ghost use Rattle.std.specs.Prelude.{◌≡◌, option_map, string_bytes};
ghost use Rattle.serde_json.specs.View.{view};
ghost use Rattle.mls_cli_json.specs.Faults.{Finds};
ghost use Rattle.mls_cli_json.specs.Json.{number_at, text_if_any};
ghost use Rattle.mls_cli_recording.specs.Recording.{has_keys};

use mls_cli_json::{JsonError, has_members, text_if_any, u64_at};
use serde_json::Value;
use std::alloc::Global;

/// Whether the value is an object of so many members, and of one more where a reply is recorded.
pub fn has_keys(value: &Value, count: u8) -> bool
    ensures { result ≡ has_keys count (view value.now) }
{
    let count = usize::from(count);
    if value.get("expect").is_some() {
        has_members(value, count + 1)
    } else {
        has_members(value, count)
    }
}

/// Finds the number of a candidate, a member or a message: a uint64.
pub fn index_at(value: &Value, key: &str) -> Option<usize>
    ensures { result ≡ number_at key.now (view value.now) }
{
    Some(u64_at(value, key)? as usize)
}

/// Copies the text at a key that may be missing.
pub fn copy_text_at(alloc: Global, value: &Value, key: &str) -> Result<Option<String>, JsonError>
    ensures { Finds (option_map string_bytes) result (text_if_any key.now (view value.now)) }
{
    match text_if_any(value, key) {
        Some(Some(text)) => Ok(Some(String::from_str(alloc, text)?)),
        Some(None) => Ok(None),
        None => Err(JsonError::BadJson),
    }
}
