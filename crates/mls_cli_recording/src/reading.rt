//! All of a recording, read in one pass.

ghost use Rattle.std.specs.Prelude.{◌≡◌, Err, IfOk, option_map, string_bytes};
ghost use Rattle.std.specs.Str.{IsUtf8};
ghost use Rattle.serde_json.specs.View.{view, items_view};
ghost use Rattle.mls_wire.specs.Checks.{Answers};
ghost use Rattle.mls_cli_json.specs.Faults.{Finds, number_of};
ghost use Rattle.mls_cli_json.specs.declared.error.JsonError.TheVariants.{BadJson};
ghost use Rattle.mls_cli_json.specs.Lists.{each_of};
ghost use Rattle.mls_cli_recording.specs.Calls.{recorded_view, recorded_views, recording_view, texts_view};
ghost use Rattle.mls_cli_recording.specs.Recording.{final_lines_in, has_parts, is_version, parts_in, recorded_in, recording, suite_text, texts_in};

use crate::actions::{Action, action_by};
use crate::lookup::copy_text_at;
use mls_cli_json::{JsonError, has_members, items_at, push_found, text_at, u64_at, value_in};
use serde_json::Value;
use std::alloc::{AllocError, Global};

/// An action, and the text that its reply should have, if one is recorded.
#[derive(Debug, Drop)]
pub struct Recorded {
    /// The action.
    pub action: Action,
    /// The text.
    pub expect: Option<String>,
}

/// What a recording has.
#[derive(Debug, Drop)]
pub struct RecordedRun {
    /// The actions, in order.
    pub actions: Vec<Recorded>,
    /// The lines that members should have in the end, without line feeds, if they are recorded.
    pub final_lines: Option<Vec<String>>,
}

/// Reads one action; None where a text in it isn't hex.
fn recorded_in(alloc: Global, version: u64, value: &Value) -> Result<Option<Recorded>, JsonError>
    ensures { Finds (option_map recorded_view) result (recorded_in version (view value.now)) }
{
    let Some(op) = text_at(value, "op") else {
        return Err(JsonError::BadJson);
    };
    let expect = copy_text_at(alloc, value, "expect")?;
    match action_by(alloc, version, op, value)? {
        Some(action) => Ok(Some(Recorded { action, expect })),
        None => Ok(None),
    }
}

/// Reads all of the actions; None where a text in one isn't hex.
#[tactic(auto, unfolding(mls_cli_json::specs::Lists::each_of))]
fn recorded_actions_in(
    alloc: Global,
    version: u64,
    values: &[Value],
) -> Result<Option<Vec<Recorded>>, JsonError>
    ensures { Finds recorded_views result (each_of (recorded_in version) (items_view values.now)) }
{
    let mut list = Vec::new(alloc);
    let mut all_hex = true;
    for value in values {
        let found = recorded_in(alloc, version, value)?;
        all_hex = push_found(&mut list, all_hex, found)?;
    }
    if all_hex { Ok(Some(list)) } else { Ok(None) }
}

/// Reads all of the texts.
#[tactic(auto, unfolding(crate::specs::Recording::texts_in))]
fn texts_in(alloc: Global, values: &[Value]) -> Result<Vec<String>, JsonError>
    ensures { Finds texts_view result (texts_in (items_view values.now)) }
{
    let mut texts = Vec::new(alloc);
    for value in values {
        let Some(text) = value.as_str() else {
            return Err(JsonError::BadJson);
        };
        texts.push(String::from_str(alloc, text)?)?;
    }
    Ok(texts)
}

/// Reads the lines that members should have in the end, if they are recorded.
fn final_lines_in(alloc: Global, value: &Value) -> Result<Option<Vec<String>>, JsonError>
    ensures { Finds (option_map texts_view) result (final_lines_in (view value.now)) }
{
    if value.get("final").is_none() {
        return Ok(None);
    }
    let Some(values) = items_at(value, "final") else {
        return Err(JsonError::BadJson);
    };
    Ok(Some(texts_in(alloc, values)?))
}

/// Whether recordings of this version are read.
pub fn is_version(version: u64) -> bool
    ensures { result ≡ is_version version }
{
    version == 1 || version == 2
}

/// Whether a recording of this version has all of its parts, and no other: in version 2 the lines in the end may stand
/// beside the others.
pub fn has_parts(value: &Value, version: u64) -> bool
    ensures { result ≡ has_parts version (view value.now) }
{
    if version == 2 && value.get("final").is_some() {
        has_members(value, 4)
    } else {
        has_members(value, 3)
    }
}

/// A suite's number in four hex digits.
pub fn suite_text(alloc: Global, number: u16) -> Result<String, AllocError>
    ensures { IfOk result (λ text. string_bytes text ≡ suite_text number) }
{
    let pair = [(number / 256) as u8, (number % 256) as u8];
    hex::encode(alloc, pair.as_slice())
}

/// Reads the parts of a recording of version 1 or 2 for the suite of this number; None where a text that should be hex
/// isn't.
fn parts_in(alloc: Global, number: u16, value: &Value) -> Result<Option<RecordedRun>, JsonError>
    ensures { Finds (option_map recording_view) result (parts_in number (view value.now)) }
{
    let Some(version) = u64_at(value, "version") else {
        return Err(JsonError::BadJson);
    };
    let Some(suite) = text_at(value, "suite") else {
        return Err(JsonError::BadJson);
    };
    let Some(values) = items_at(value, "events") else {
        return Err(JsonError::BadJson);
    };
    let wanted = suite_text(alloc, number)?;
    if !(is_version(version) && suite == wanted.as_str() && has_parts(value, version)) {
        return Err(JsonError::BadJson);
    }
    let final_lines = final_lines_in(alloc, value)?;
    match recorded_actions_in(alloc, version, values)? {
        Some(actions) => Ok(Some(RecordedRun {
            actions,
            final_lines,
        })),
        None => Ok(None),
    }
}

/// Reads a recording for the suite of this number: its actions, each with the text that its reply should have, if one is
/// recorded, and the lines that members should have in the end, if they are; or answers the fault of its shape
/// (`BadJson` (9)), also where it is for another suite, or else that a text in it isn't hex (`NotHex` (8)).
#[tactic(auto, unfolding(crate::specs::Recording::recording))]
pub fn recording(alloc: Global, number: u16, text: &[u8]) -> Result<RecordedRun, JsonError>
    ensures parts { Answers recording_view number_of (recording number text.now) result }
    // A file that is no text is refused even when an allocation fails.
    ensures no_text { ¬ (IsUtf8 text.now) → result ≡ Err BadJson }
{
    let value = value_in(alloc, text)?;
    match parts_in(alloc, number, &value)? {
        Some(parts) => Ok(parts),
        None => Err(JsonError::NotHex),
    }
}
