//! Places in recordings.

ghost use Rattle.std.specs.Prelude.{◌≡◌, IfOk, option_map};
ghost use Rattle.std.specs.Str.{bytes_eq};
ghost use Rattle.serde_json.specs.View.{view, items_view};
ghost use Rattle.mls_cli_recording.specs.Recording.{recording, suite_text};
ghost use Rattle.mls_cli_json_place.specs.Events.{event_wrong};
ghost use Rattle.mls_cli_json_place.specs.Faults.{TellsBadJson, spots};
ghost use Rattle.mls_cli_json_place.specs.Lists.{first_wrong};
ghost use Rattle.mls_cli_json_place.specs.RecordingFile.{event_spot, object_spot, parts_wrong, recording_spot};

use crate::events::event_wrong;
use crate::faults::{at_key, no_more};
use crate::key::Key;
use crate::lists::{Entry, first_wrong};
use crate::place::{JsonPlace, Wrong};
use crate::shapes::has_final_lines;
use crate::value::value_or_stop;
use mls_cli_json::{items_at, text_at, u64_at};
use mls_cli_recording::{has_parts, is_version, suite_text};
use serde_json::Value;
use std::alloc::{AllocError, Global};

/// Events of a recording of this version.
#[derive(Drop)]
struct Events {
    version: u64,
}

impl Entry for Events {
    ghost wrong = { λ events. event_wrong events.version };

    fn wrong_in(&self, value: &Value) -> Option<Wrong> {
        event_wrong(self.version, value)
    }
}

/// The first event with which something is wrong.
fn event_place(version: u64, values: &[Value]) -> Option<JsonPlace>
    ensures { spots result
        ≡ option_map event_spot (first_wrong (event_wrong version) 0 (items_view values.now)) }
{
    match first_wrong(&Events { version }, values) {
        Some((index, wrong)) => Some(JsonPlace::Event { index, wrong }),
        None => None,
    }
}

/// Whether a text is a suite's number in four hex digits.
fn is_suite(alloc: Global, text: &str, number: u16) -> Result<bool, AllocError>
    ensures { IfOk result (λ same. same ≡ bytes_eq text.now (suite_text number)) }
{
    let wanted = suite_text(alloc, number)?;
    Ok(text == wanted.as_str())
}

/// What is wrong with the object of a recording itself, where it has a version, a suite and events.
#[tactic(auto, unfolding(crate::specs::RecordingFile::parts_wrong))]
fn parts_wrong(version: u64, wanted: bool, value: &Value) -> Option<Wrong>
    ensures { result ≡ parts_wrong version wanted (view value.now) }
{
    let others = at_key(
        Key::Final,
        has_final_lines(value),
        no_more(has_parts(value, version)),
    );
    at_key(
        Key::Version,
        is_version(version),
        at_key(Key::Suite, wanted, others),
    )
}

/// The first fault of the value that a recording for the suite of this number is.
#[tactic(auto, unfolding(crate::specs::RecordingFile::object_spot))]
fn object_place(alloc: Global, number: u16, value: &Value) -> Result<Option<JsonPlace>, AllocError>
    ensures { IfOk result (λ place. spots place ≡ object_spot number (view value.now)) }
{
    let Some(version) = u64_at(value, "version") else {
        return Ok(Some(JsonPlace::File(Wrong::At(Key::Version))));
    };
    let Some(suite) = text_at(value, "suite") else {
        return Ok(Some(JsonPlace::File(Wrong::At(Key::Suite))));
    };
    let Some(events) = items_at(value, "events") else {
        return Ok(Some(JsonPlace::File(Wrong::At(Key::Events))));
    };
    let wanted = is_suite(alloc, suite, number)?;
    match parts_wrong(version, wanted, value) {
        Some(wrong) => Ok(Some(JsonPlace::File(wrong))),
        None => Ok(event_place(version, events)),
    }
}

/// Where a recording for the suite of this number has the fault that it is refused with as `BadJson` (9): where it is no
/// JSON, a key of its own object, or the first event that can't be read, with the first of its keys whose value can't
/// be. None where it isn't refused so.
#[tactic(auto, using(crate::proofs::FileLaws::recording_told))]
pub fn place_of_recording(
    alloc: Global,
    number: u16,
    text: &[u8],
) -> Result<Option<JsonPlace>, AllocError>
    ensures place { IfOk result (λ place. spots place ≡ recording_spot number text.now) }
    // A place is answered exactly when the recording is refused so.
    ensures refusal { IfOk result (λ place. TellsBadJson (recording number text.now) place) }
{
    match value_or_stop(alloc, text)? {
        Ok(value) => object_place(alloc, number, &value),
        Err(stop) => Ok(Some(JsonPlace::Text {
            line: stop.line,
            column: stop.column,
        })),
    }
}
