//! Whether the value at a key can be read. A text that isn't hex can, since it isn't refused with `BadJson` (9).

ghost use Rattle.std.specs.Prelude.{◌≡◌, is_some};
ghost use Rattle.serde_json.specs.View.{view};
ghost use Rattle.mls_cli_json.specs.HexText.{hex_at, seed_at};
ghost use Rattle.mls_cli_json.specs.Json.{bool_at, max_u32, number_at, text_if_any, whole_at};
ghost use Rattle.mls_cli_recording.specs.Recording.{has_keys};
ghost use Rattle.mls_cli_vectors.specs.VectorsFile.{hex_or_null, hex_or_null_at, label_at};

use mls_cli_json::{bool_at, has_members, seed_at, text_at, text_if_any, u32_at, u64_at};
use serde_json::Value;

/// How many bytes the label of a vector may have.
const MAX_LABEL: usize = 200;

/// Whether the value is an object of so many members, and of one more where a reply is recorded.
pub(crate) fn has_keys(value: &Value, count: u8) -> bool
    ensures { result ≡ has_keys count (view value.now) }
{
    let count = usize::from(count);
    if value.get("expect").is_some() {
        has_members(value, count + 1)
    } else {
        has_members(value, count)
    }
}

/// Whether there is a text, which may be hex digits.
pub(crate) fn has_hex(value: &Value, key: &str) -> bool
    ensures { result ≡ is_some (hex_at key.now (view value.now)) }
{
    match text_at(value, key) {
        Some(_) => true,
        None => false,
    }
}

/// Whether there is a seed.
pub(crate) fn has_seed(value: &Value, key: &str) -> bool
    ensures { result ≡ is_some (seed_at key.now (view value.now)) }
{
    match seed_at(value, key) {
        Some(_) => true,
        None => false,
    }
}

/// Whether there is a uint64.
pub(crate) fn has_number(value: &Value, key: &str) -> bool
    ensures { result ≡ is_some (number_at key.now (view value.now)) }
{
    match u64_at(value, key) {
        Some(_) => true,
        None => false,
    }
}

/// Whether there is a uint32.
pub(crate) fn has_u32(value: &Value, key: &str) -> bool
    ensures { result ≡ is_some (whole_at max_u32 key.now (view value.now)) }
{
    match u32_at(value, key) {
        Some(_) => true,
        None => false,
    }
}

/// Whether there is true or false.
pub(crate) fn has_bool(value: &Value, key: &str) -> bool
    ensures { result ≡ is_some (bool_at key.now (view value.now)) }
{
    match bool_at(value, key) {
        Some(_) => true,
        None => false,
    }
}

/// Whether there is a text, or nothing.
pub(crate) fn has_text_if_any(value: &Value, key: &str) -> bool
    ensures { result ≡ is_some (text_if_any key.now (view value.now)) }
{
    match text_if_any(value, key) {
        Some(_) => true,
        None => false,
    }
}

/// Whether there is a label of at most 200 bytes.
pub(crate) fn has_label(value: &Value, key: &str) -> bool
    ensures { result ≡ is_some (label_at key.now (view value.now)) }
{
    match text_at(value, key) {
        Some(label) => label.len() <= MAX_LABEL,
        None => false,
    }
}

/// Whether a value is a text, or null.
fn is_hex_or_null(value: &Value) -> bool
    ensures { result ≡ is_some (hex_or_null (view value.now)) }
{
    if value.as_null().is_some() {
        return true;
    }
    match value.as_str() {
        Some(_) => true,
        None => false,
    }
}

/// Whether there is a text, or null.
pub(crate) fn has_hex_or_null(value: &Value, key: &str) -> bool
    ensures { result ≡ is_some (hex_or_null_at key.now (view value.now)) }
{
    match value.get(key) {
        Some(member) => is_hex_or_null(member),
        None => false,
    }
}
