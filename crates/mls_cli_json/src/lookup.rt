//! Strict looks into JSON.

ghost use Rattle.std.specs.Prelude.{◌≡◌, option_map};
ghost use Rattle.serde_json.specs.View.{view, items_view};
ghost use Rattle.mls_cli_json.specs.Json.{bool_at, is_object_of, items_at, max_u16, max_u32, number_at, text_at, text_if_any, whole, whole_at};

use serde_json::Value;

/// Whether the value is an object of so many members.
pub fn has_members(value: &Value, count: usize) -> bool
    ensures { result ≡ is_object_of count (view value.now) }
{
    match value.as_object() {
        Some(members) => members.len() == count,
        None => false,
    }
}

/// Finds the text at a key.
pub fn text_at<'a>(value: &'a Value, key: &str) -> Option<&'a str>
    ensures { option_map (λ text. text.now) result ≡ text_at key.now (view value.now) }
{
    value.get(key)?.as_str()
}

/// Finds the items of the array at a key.
pub fn items_at<'a>(value: &'a Value, key: &str) -> Option<&'a [Value]>
    ensures { option_map (λ v. items_view v.now) result ≡ items_at key.now (view value.now) }
{
    Some(value.get(key)?.as_array()?.as_slice())
}

/// Reads a uint32 that is written as a whole number.
pub fn u32_of(value: &Value) -> Option<u32>
    ensures { result ≡ whole max_u32 (view value.now) }
{
    let number = value.as_u64()?;
    if number <= u64::from(u32::MAX) {
        Some(number as u32)
    } else {
        None
    }
}

/// Finds the uint32 at a key.
pub fn u32_at(value: &Value, key: &str) -> Option<u32>
    ensures { result ≡ whole_at max_u32 key.now (view value.now) }
{
    u32_of(value.get(key)?)
}

/// Finds the uint64 at a key.
pub fn u64_at(value: &Value, key: &str) -> Option<u64>
    ensures { result ≡ number_at key.now (view value.now) }
{
    value.get(key)?.as_u64()
}

/// Finds the uint16 at a key.
pub fn u16_at(value: &Value, key: &str) -> Option<u16>
    ensures { result ≡ whole_at max_u16 key.now (view value.now) }
{
    let number = value.get(key)?.as_u64()?;
    if number <= u64::from(u16::MAX) {
        Some(number as u16)
    } else {
        None
    }
}

/// Whether the value at a key is true; None where it is neither true nor false.
pub fn bool_at(value: &Value, key: &str) -> Option<bool>
    ensures { result ≡ bool_at key.now (view value.now) }
{
    value.get(key)?.as_bool()
}

/// Finds the text at a key that may be missing.
pub fn text_if_any<'a>(value: &'a Value, key: &str) -> Option<Option<&'a str>>
    ensures { option_map (option_map (λ t. t.now)) result ≡ text_if_any key.now (view value.now) }
{
    match value.get(key) {
        Some(member) => Some(Some(member.as_str()?)),
        None => Some(None),
    }
}
