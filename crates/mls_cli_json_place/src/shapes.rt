//! Values that recordings and vectors have inside: sources, items, extensions, texts and numbers.

ghost use Rattle.std.specs.Prelude.{◌≡◌, is_some};
ghost use Rattle.serde_json.specs.Find.{as_str};
ghost use Rattle.serde_json.specs.View.{view};
ghost use Rattle.mls_cli_json.specs.Json.{max_u32, whole};
ghost use Rattle.mls_cli_recording.specs.Recording.{commit_items_at, extension_in, extensions_at, final_lines_in, item_in, lines_in, source_at, source_in};
ghost use Rattle.mls_cli_vectors.specs.VectorsFile.{numbers_at};

use crate::lists::{Shape, are_right};
use crate::lookup::{has_number, has_u32};
use mls_cli_json::{has_members, items_at, text_at, u16_at, u32_of};
use serde_json::Value;

/// Whether a value is a text of hex, or an object with the number of a message.
fn is_source(value: &Value) -> bool
    ensures { result ≡ is_some (source_in (view value.now)) }
{
    if value.as_str().is_some() {
        return true;
    }
    has_members(value, 1) && has_number(value, "message")
}

/// Whether there is a source.
pub(crate) fn has_source(value: &Value, key: &str) -> bool
    ensures { result ≡ is_some (source_at key.now (view value.now)) }
{
    match value.get(key) {
        Some(member) => is_source(member),
        None => false,
    }
}

/// An extension.
struct ExtensionShape;

impl Shape for ExtensionShape {
    ghost right = { λ d. is_some (extension_in d) };

    fn is_right(value: &Value) -> bool {
        if !has_members(value, 2) {
            return false;
        }
        match (u16_at(value, "type"), text_at(value, "data")) {
            (Some(_), Some(_)) => true,
            _ => false,
        }
    }
}

/// Whether there are extensions.
pub(crate) fn has_extensions(value: &Value, key: &str) -> bool
    ensures { result ≡ is_some (extensions_at key.now (view value.now)) }
{
    match items_at(value, key) {
        Some(values) => are_right::<ExtensionShape>(values),
        None => false,
    }
}

/// An item of a commit.
struct ItemShape;

impl Shape for ItemShape {
    ghost right = { λ d. is_some (item_in d) };

    fn is_right(value: &Value) -> bool {
        if !has_members(value, 1) {
            return false;
        }
        if let Some(member) = value.get("ref") {
            return is_source(member);
        }
        if let Some(member) = value.get("add") {
            return is_source(member);
        }
        if value.get("extensions").is_some() {
            has_extensions(value, "extensions")
        } else {
            has_u32(value, "remove")
        }
    }
}

/// Whether there are the items of a commit.
pub(crate) fn has_items(value: &Value, key: &str) -> bool
    ensures { result ≡ is_some (commit_items_at key.now (view value.now)) }
{
    match items_at(value, key) {
        Some(values) => are_right::<ItemShape>(values),
        None => false,
    }
}

/// A text.
struct TextShape;

impl Shape for TextShape {
    ghost right = { λ d. is_some (as_str d) };

    fn is_right(value: &Value) -> bool {
        match value.as_str() {
            Some(_) => true,
            None => false,
        }
    }
}

/// Whether a value is an array of texts.
fn are_lines(value: &Value) -> bool
    ensures { result ≡ is_some (lines_in (view value.now)) }
{
    match value.as_array() {
        Some(values) => are_right::<TextShape>(values.as_slice()),
        None => false,
    }
}

/// Whether there are lines in the end, or none are recorded.
pub(crate) fn has_final_lines(value: &Value) -> bool
    ensures { result ≡ is_some (final_lines_in (view value.now)) }
{
    match value.get("final") {
        Some(lines) => are_lines(lines),
        None => true,
    }
}

/// A uint32.
struct NumberShape;

impl Shape for NumberShape {
    ghost right = { λ d. is_some (whole max_u32 d) };

    fn is_right(value: &Value) -> bool {
        match u32_of(value) {
            Some(_) => true,
            None => false,
        }
    }
}

/// Whether there is an array of uint32s.
pub(crate) fn has_numbers(value: &Value, key: &str) -> bool
    ensures { result ≡ is_some (numbers_at key.now (view value.now)) }
{
    match items_at(value, key) {
        Some(values) => are_right::<NumberShape>(values),
        None => false,
    }
}
