//! The calls of a recording, by their names. A text that isn't hex is kept as None: a fault of the shape that comes
//! later goes before it.

ghost use Rattle.std.specs.Prelude.{◌≡◌, IfErr, option_map};
ghost use Rattle.serde_json.specs.View.{view};
ghost use Rattle.mls_cli_json.specs.Faults.{Finds};
ghost use Rattle.mls_cli_json.specs.declared.error.JsonError.TheVariants.{BadJson};
ghost use Rattle.mls_cli_recording.specs.Calls.{call_view};
ghost use Rattle.mls_cli_recording.specs.Recording.{candidate_in, create_in, propose_add_in, propose_update_in, propose_remove_in, propose_extensions_in, commit_in, drop_pending_in, deliver_in, join_in, call_by};

use crate::extensions::extensions_at;
use crate::lookup::{has_keys, index_at};
use crate::sources::{commit_items_at, source_at};
use mls_cli_json::{JsonError, bool_at, hex_at, seed_at, u32_at};
use mls_model::Event;
use serde_json::Value;
use std::alloc::Global;

fn candidate_in(alloc: Global, value: &Value) -> Result<Option<Event>, JsonError>
    ensures { Finds (option_map call_view) result (candidate_in (view value.now)) }
{
    if !has_keys(value, 3) {
        return Err(JsonError::BadJson);
    }
    let Some(seed) = seed_at(value, "seed") else {
        return Err(JsonError::BadJson);
    };
    match hex_at(alloc, value, "identity")? {
        Some(identity) => Ok(Some(Event::Candidate { identity, seed })),
        None => Ok(None),
    }
}

fn create_in(alloc: Global, value: &Value) -> Result<Option<Event>, JsonError>
    ensures { Finds (option_map call_view) result (create_in (view value.now)) }
{
    if !has_keys(value, 4) {
        return Err(JsonError::BadJson);
    }
    let Some(candidate) = index_at(value, "candidate") else {
        return Err(JsonError::BadJson);
    };
    let Some(seed) = seed_at(value, "seed") else {
        return Err(JsonError::BadJson);
    };
    match hex_at(alloc, value, "group")? {
        Some(group) => Ok(Some(Event::Create {
            candidate,
            group,
            seed,
        })),
        None => Ok(None),
    }
}

fn propose_add_in(alloc: Global, value: &Value) -> Result<Option<Event>, JsonError>
    ensures { Finds (option_map call_view) result (propose_add_in (view value.now)) }
{
    if !has_keys(value, 3) {
        return Err(JsonError::BadJson);
    }
    let Some(member) = index_at(value, "member") else {
        return Err(JsonError::BadJson);
    };
    match source_at(alloc, value, "key_package")? {
        Some(key_package) => Ok(Some(Event::ProposeAdd {
            member,
            key_package,
        })),
        None => Ok(None),
    }
}

fn propose_update_in(value: &Value) -> Result<Option<Event>, JsonError>
    ensures found { Finds (option_map call_view) result (propose_update_in (view value.now)) }
    // It takes no memory.
    ensures outright { IfErr result (λ e. e ≡ BadJson) }
{
    if !has_keys(value, 3) {
        return Err(JsonError::BadJson);
    }
    let Some(member) = index_at(value, "member") else {
        return Err(JsonError::BadJson);
    };
    match seed_at(value, "seed") {
        Some(seed) => Ok(Some(Event::ProposeUpdate { member, seed })),
        None => Err(JsonError::BadJson),
    }
}

fn propose_remove_in(value: &Value) -> Result<Option<Event>, JsonError>
    ensures found { Finds (option_map call_view) result (propose_remove_in (view value.now)) }
    // It takes no memory.
    ensures outright { IfErr result (λ e. e ≡ BadJson) }
{
    if !has_keys(value, 3) {
        return Err(JsonError::BadJson);
    }
    let Some(member) = index_at(value, "member") else {
        return Err(JsonError::BadJson);
    };
    match u32_at(value, "leaf") {
        Some(leaf) => Ok(Some(Event::ProposeRemove { member, leaf })),
        None => Err(JsonError::BadJson),
    }
}

fn propose_extensions_in(alloc: Global, value: &Value) -> Result<Option<Event>, JsonError>
    ensures { Finds (option_map call_view) result (propose_extensions_in (view value.now)) }
{
    if !has_keys(value, 3) {
        return Err(JsonError::BadJson);
    }
    let Some(member) = index_at(value, "member") else {
        return Err(JsonError::BadJson);
    };
    match extensions_at(alloc, value, "extensions")? {
        Some(extensions) => Ok(Some(Event::ProposeExtensions { member, extensions })),
        None => Ok(None),
    }
}

fn commit_in(alloc: Global, value: &Value) -> Result<Option<Event>, JsonError>
    ensures { Finds (option_map call_view) result (commit_in (view value.now)) }
{
    if !has_keys(value, 5) {
        return Err(JsonError::BadJson);
    }
    let Some(member) = index_at(value, "member") else {
        return Err(JsonError::BadJson);
    };
    let Some(path) = bool_at(value, "path") else {
        return Err(JsonError::BadJson);
    };
    let Some(seed) = seed_at(value, "seed") else {
        return Err(JsonError::BadJson);
    };
    match commit_items_at(alloc, value, "items")? {
        Some(items) => Ok(Some(Event::Commit {
            member,
            items,
            path,
            seed,
        })),
        None => Ok(None),
    }
}

fn drop_pending_in(value: &Value) -> Result<Option<Event>, JsonError>
    ensures found { Finds (option_map call_view) result (drop_pending_in (view value.now)) }
    // It takes no memory.
    ensures outright { IfErr result (λ e. e ≡ BadJson) }
{
    if !has_keys(value, 2) {
        return Err(JsonError::BadJson);
    }
    match index_at(value, "member") {
        Some(member) => Ok(Some(Event::DropPending { member })),
        None => Err(JsonError::BadJson),
    }
}

fn deliver_in(alloc: Global, value: &Value) -> Result<Option<Event>, JsonError>
    ensures { Finds (option_map call_view) result (deliver_in (view value.now)) }
{
    if !has_keys(value, 3) {
        return Err(JsonError::BadJson);
    }
    let Some(member) = index_at(value, "member") else {
        return Err(JsonError::BadJson);
    };
    match source_at(alloc, value, "bytes")? {
        Some(bytes) => Ok(Some(Event::Deliver { member, bytes })),
        None => Ok(None),
    }
}

fn join_in(alloc: Global, value: &Value) -> Result<Option<Event>, JsonError>
    ensures { Finds (option_map call_view) result (join_in (view value.now)) }
{
    if !has_keys(value, 3) {
        return Err(JsonError::BadJson);
    }
    let Some(candidate) = index_at(value, "candidate") else {
        return Err(JsonError::BadJson);
    };
    match source_at(alloc, value, "bytes")? {
        Some(bytes) => Ok(Some(Event::Join { candidate, bytes })),
        None => Ok(None),
    }
}

/// Reads the call that an object names by its op; None where a text in it isn't hex.
pub fn call_by(alloc: Global, op: &str, value: &Value) -> Result<Option<Event>, JsonError>
    ensures { Finds (option_map call_view) result (call_by op.now (view value.now)) }
{
    match op {
        "candidate" => candidate_in(alloc, value),
        "create" => create_in(alloc, value),
        "propose_add" => propose_add_in(alloc, value),
        "propose_update" => propose_update_in(value),
        "propose_remove" => propose_remove_in(value),
        "propose_extensions" => propose_extensions_in(alloc, value),
        "commit" => commit_in(alloc, value),
        "drop_pending" => drop_pending_in(value),
        "deliver" => deliver_in(alloc, value),
        "join" => join_in(alloc, value),
        _ => Err(JsonError::BadJson),
    }
}
