//! Texts of hex digits.

ghost use Rattle.std.specs.Prelude.{◌≡◌, ◌%◌, Ok, None, length, option_map, IfOk};
ghost use Rattle.serde_json.specs.View.{view};
ghost use Rattle.mls_cli_json.specs.HexText.{bytes_of, hex_at, seed_at};
ghost use Rattle.mls_cli_json.specs.Faults.{Finds};

use crate::error::JsonError;
use crate::lookup::text_at;
use hex::{FromHex, FromHexError};
use serde_json::Value;
use std::alloc::{AllocError, Global};

/// Reads the bytes that a text of hex digits stands for; None where it isn't one. A text of an odd length takes no
/// memory.
pub fn bytes_of_hex(alloc: Global, text: &str) -> Result<Option<Vec<u8>>, AllocError>
    ensures bytes { IfOk result (λ bytes. option_map (λ v. v.items) bytes ≡ bytes_of text.now) }
    // A text of an odd length is none also when an allocation fails.
    ensures outright { length text.now % 2 ≡ 1 → result ≡ Ok None }
{
    match hex::decode(alloc, text) {
        Ok(bytes) => Ok(Some(bytes)),
        Err(FromHexError::OutOfMemory) => Err(AllocError),
        Err(_) => Ok(None),
    }
}

/// Reads the bytes that the hex digits at a key stand for. A text that isn't hex digits is kept as None, since a
/// fault of the file's shape (`BadJson` (9)) that comes later goes before it (`NotHex` (8)).
pub fn hex_at(alloc: Global, value: &Value, key: &str) -> Result<Option<Vec<u8>>, JsonError>
    ensures { Finds (option_map (λ v. v.items)) result (hex_at key.now (view value.now)) }
{
    match text_at(value, key) {
        Some(text) => Ok(bytes_of_hex(alloc, text)?),
        None => Err(JsonError::BadJson),
    }
}

/// Reads the seed at a key: 64 hex digits.
pub fn seed_at(value: &Value, key: &str) -> Option<[u8; 32]>
    ensures { result ≡ seed_at key.now (view value.now) }
{
    <[u8; 32]>::from_hex(text_at(value, key)?).ok()
}
