//! The value that a text is, or where the reader of JSON stopped.

ghost use Rattle.std.specs.Prelude.{◌≡◌, IfOk};
ghost use Rattle.mls_cli_json.specs.Json.{data_in};
ghost use Rattle.mls_cli_json_place.specs.Faults.{read_view};

use serde_json::Value;
use std::alloc::{AllocError, Global};

/// Where the reader of JSON says that it stopped.
#[derive(Clone, Copy, Debug, Drop)]
pub(crate) struct Stop {
    /// The line, from 1 on.
    pub(crate) line: usize,
    /// The byte of the line, from 1 on.
    pub(crate) column: usize,
}

/// Reads the value that a text is, or answers where the reader stopped.
#[tactic(auto, unfolding(mls_cli_json::specs::Json::data_in))]
pub(crate) fn value_or_stop(alloc: Global, text: &[u8]) -> Result<Result<Value, Stop>, AllocError>
    ensures { IfOk result (λ read. read_view read ≡ data_in text.now) }
{
    match Value::from_slice(alloc, text) {
        Ok(value) => Ok(Ok(value)),
        Err(error) => {
            if error.is_memory() {
                return Err(AllocError);
            }
            Ok(Err(Stop {
                line: error.line(),
                column: error.column(),
            }))
        }
    }
}
