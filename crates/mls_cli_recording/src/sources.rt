//! Sources of messages, and what a commit names.

ghost use Rattle.std.specs.Prelude.{◌≡◌, IfErr, option_map};
ghost use Rattle.serde_json.specs.View.{view, items_view};
ghost use Rattle.mls_cli_json.specs.Faults.{Finds};
ghost use Rattle.mls_cli_json.specs.declared.error.JsonError.TheVariants.{BadJson};
ghost use Rattle.mls_cli_json.specs.Lists.{each_of};
ghost use Rattle.mls_cli_recording.specs.Calls.{item_view, item_views, source_view};
ghost use Rattle.mls_cli_recording.specs.Recording.{addition_in, commit_items_at, given_in, extensions_in, item_in, reference_in, removal_in, source_at, source_in};

use crate::extensions::extensions_at;
use crate::lookup::index_at;
use mls_cli_json::{JsonError, bytes_of_hex, has_members, items_at, push_found, u32_at};
use mls_model::{Source, WorldItem};
use serde_json::Value;
use std::alloc::Global;

/// Reads bytes in hex; None where the text isn't hex.
fn given(alloc: Global, text: &str) -> Result<Option<Source>, JsonError>
    ensures { Finds (option_map source_view) result (given_in text.now) }
{
    match bytes_of_hex(alloc, text)? {
        Some(bytes) => Ok(Some(Source::Given(bytes))),
        None => Ok(None),
    }
}

/// Reads a text of hex, or an object with the number of a message.
pub fn source(alloc: Global, value: &Value) -> Result<Option<Source>, JsonError>
    ensures { Finds (option_map source_view) result (source_in (view value.now)) }
{
    if let Some(text) = value.as_str() {
        return given(alloc, text);
    }
    if !has_members(value, 1) {
        return Err(JsonError::BadJson);
    }
    match index_at(value, "message") {
        Some(number) => Ok(Some(Source::Message(number))),
        None => Err(JsonError::BadJson),
    }
}

/// Reads the source at a key.
pub fn source_at(alloc: Global, value: &Value, key: &str) -> Result<Option<Source>, JsonError>
    ensures { Finds (option_map source_view) result (source_at key.now (view value.now)) }
{
    match value.get(key) {
        Some(member) => source(alloc, member),
        None => Err(JsonError::BadJson),
    }
}

fn removal_in(value: &Value) -> Result<Option<WorldItem>, JsonError>
    ensures found { Finds (option_map item_view) result (removal_in (view value.now)) }
    // It takes no memory.
    ensures outright { IfErr result (λ e. e ≡ BadJson) }
{
    match u32_at(value, "remove") {
        Some(leaf) => Ok(Some(WorldItem::Remove(leaf))),
        None => Err(JsonError::BadJson),
    }
}

fn reference_in(alloc: Global, value: &Value) -> Result<Option<WorldItem>, JsonError>
    ensures { Finds (option_map item_view) result (reference_in (view value.now)) }
{
    match source(alloc, value)? {
        Some(source) => Ok(Some(WorldItem::RefOf(source))),
        None => Ok(None),
    }
}

fn addition_in(alloc: Global, value: &Value) -> Result<Option<WorldItem>, JsonError>
    ensures { Finds (option_map item_view) result (addition_in (view value.now)) }
{
    match source(alloc, value)? {
        Some(source) => Ok(Some(WorldItem::Add(source))),
        None => Ok(None),
    }
}

fn extensions_in(alloc: Global, value: &Value) -> Result<Option<WorldItem>, JsonError>
    ensures { Finds (option_map item_view) result (extensions_in (view value.now)) }
{
    match extensions_at(alloc, value, "extensions")? {
        Some(list) => Ok(Some(WorldItem::Extensions(list))),
        None => Ok(None),
    }
}

/// Reads one item of a commit, an object of one member.
fn item_in(alloc: Global, value: &Value) -> Result<Option<WorldItem>, JsonError>
    ensures { Finds (option_map item_view) result (item_in (view value.now)) }
{
    if !has_members(value, 1) {
        return Err(JsonError::BadJson);
    }
    if let Some(member) = value.get("ref") {
        return reference_in(alloc, member);
    }
    if let Some(member) = value.get("add") {
        return addition_in(alloc, member);
    }
    if value.get("extensions").is_some() {
        extensions_in(alloc, value)
    } else {
        removal_in(value)
    }
}

/// Reads all of the items; None where a text in one isn't hex.
#[tactic(auto, unfolding(mls_cli_json::specs::Lists::each_of))]
fn items_of(alloc: Global, values: &[Value]) -> Result<Option<Vec<WorldItem>>, JsonError>
    ensures { Finds item_views result (each_of item_in (items_view values.now)) }
{
    let mut items = Vec::new(alloc);
    let mut all_hex = true;
    for value in values {
        let found = item_in(alloc, value)?;
        all_hex = push_found(&mut items, all_hex, found)?;
    }
    if all_hex { Ok(Some(items)) } else { Ok(None) }
}

/// Reads the items of a commit.
pub fn commit_items_at(
    alloc: Global,
    value: &Value,
    key: &str,
) -> Result<Option<Vec<WorldItem>>, JsonError>
    ensures { Finds item_views result (commit_items_at key.now (view value.now)) }
{
    match items_at(value, key) {
        Some(values) => items_of(alloc, values),
        None => Err(JsonError::BadJson),
    }
}
