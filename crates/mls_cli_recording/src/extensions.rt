//! Extensions that a group is to carry.

ghost use Rattle.std.specs.Prelude.{◌≡◌, option_map};
ghost use Rattle.serde_json.specs.View.{view, items_view};
ghost use Rattle.mls_cli_json.specs.Faults.{Finds};
ghost use Rattle.mls_cli_json.specs.Lists.{each_of};
ghost use Rattle.mls_cli_recording.specs.Calls.{extension_view, extension_views};
ghost use Rattle.mls_cli_recording.specs.Recording.{extension_in, extensions_at};

use mls_cli_json::{JsonError, has_members, hex_at, items_at, push_found, u16_at};
use mls_leaf::{Bytes, Extension};
use serde_json::Value;
use std::alloc::Global;

/// Reads one extension, whose type may be any number of 16 bits; None where its data aren't hex.
fn extension_in(alloc: Global, value: &Value) -> Result<Option<Extension>, JsonError>
    ensures { Finds (option_map extension_view) result (extension_in (view value.now)) }
{
    if !has_members(value, 2) {
        return Err(JsonError::BadJson);
    }
    let Some(kind) = u16_at(value, "type") else {
        return Err(JsonError::BadJson);
    };
    match hex_at(alloc, value, "data")? {
        Some(data) => Ok(Some(Extension {
            kind,
            content: Bytes::from_vec(data),
        })),
        None => Ok(None),
    }
}

/// Reads all of the extensions; None where data of one aren't hex.
#[tactic(auto, unfolding(mls_cli_json::specs::Lists::each_of))]
fn extensions_of(alloc: Global, values: &[Value]) -> Result<Option<Vec<Extension>>, JsonError>
    ensures { Finds extension_views result (each_of extension_in (items_view values.now)) }
{
    let mut list = Vec::new(alloc);
    let mut all_hex = true;
    for value in values {
        let found = extension_in(alloc, value)?;
        all_hex = push_found(&mut list, all_hex, found)?;
    }
    if all_hex { Ok(Some(list)) } else { Ok(None) }
}

/// Reads the extensions at a key.
pub fn extensions_at(
    alloc: Global,
    value: &Value,
    key: &str,
) -> Result<Option<Vec<Extension>>, JsonError>
    ensures { Finds extension_views result (extensions_at key.now (view value.now)) }
{
    match items_at(value, key) {
        Some(values) => extensions_of(alloc, values),
        None => Err(JsonError::BadJson),
    }
}
