//! The value that a file is.

ghost use Rattle.std.specs.Prelude.{◌≡◌, Err};
ghost use Rattle.std.specs.Str.{IsUtf8};
ghost use Rattle.serde_json.specs.View.{view};
ghost use Rattle.mls_cli_json.specs.Json.{data_in};
ghost use Rattle.mls_cli_json.specs.Faults.{Finds};
ghost use Rattle.mls_cli_json.specs.declared.error.JsonError.TheVariants.{BadJson};

use crate::error::JsonError;
use serde_json::Value;
use std::alloc::Global;
use std::str::from_utf8;

/// Reads the value that a text is.
#[tactic(auto, unfolding(crate::specs::Json::data_in))]
fn value_of(alloc: Global, file: &[u8]) -> Result<Value, JsonError>
    ensures { Finds view result (data_in file.now) }
{
    match Value::from_slice(alloc, file) {
        Ok(value) => Ok(value),
        Err(error) => {
            if error.is_memory() {
                Err(JsonError::OutOfMemory)
            } else {
                Err(JsonError::BadJson)
            }
        }
    }
}

/// Reads the value that a file is; there is none (`BadJson` (9)) where it is no text, or no JSON. A file that is no
/// text is refused even when an allocation fails.
pub fn value_in(alloc: Global, file: &[u8]) -> Result<Value, JsonError>
    ensures value { Finds view result (data_in file.now) }
    ensures no_text { ¬ (IsUtf8 file.now) → result ≡ Err BadJson }
{
    match from_utf8(file) {
        Ok(_) => value_of(alloc, file),
        Err(_) => Err(JsonError::BadJson),
    }
}
