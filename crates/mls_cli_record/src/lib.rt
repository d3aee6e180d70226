//! Recordings, written again with what a replay of them came to.
#![tactic(auto)]

ghost use Rattle.std.specs.Prelude.{◌≡◌, codes, option_map, map, string_bytes, IfOk};
ghost use Rattle.serde_json.specs.Data.{string};
ghost use Rattle.serde_json.specs.View.{view, items_view};
ghost use Rattle.mls_cli_json.specs.Json.{number_at};
ghost use Rattle.mls_cli_record.specs.Record.{IsTextOf, event_with_reply, events_with_replies, has_version, record_of, reply_at, text_items, with_lines, with_member, with_replies};

use mls_cli_json::{items_at, u64_at};
use serde_json::{Value, put};
use std::alloc::{AllocError, Global};

/// Puts a value at a key of an object.
fn put_member(alloc: Global, value: Value, key: &str, member: Value) -> Result<Value, AllocError>
    ensures { IfOk result (λ v. view v ≡ with_member key.now (view member) (view value)) }
{
    match value {
        Value::Object(mut members) => {
            put(&mut members, alloc, key, member)?;
            Ok(Value::Object(members))
        }
        other => Ok(other),
    }
}

/// The reply of that number, if there is one.
fn reply_at(replies: &[String], number: usize) -> Option<&str>
    ensures { option_map (λ t. t.now) result ≡ reply_at replies.now number }
{
    match replies.get(number) {
        Some(reply) => Some(reply.as_str()),
        None => None,
    }
}

/// Copies an event, with the reply that it should have, where there is one.
fn event_with_reply(alloc: Global, event: &Value, reply: Option<&str>) -> Result<Value, AllocError>
    ensures { IfOk result (λ v. view v
        ≡ event_with_reply (option_map (λ t. t.now) reply.entry) (view event.now)) }
{
    let copy = event.clone()?;
    match reply {
        Some(reply) => {
            let text = Value::try_from_str(alloc, reply)?;
            put_member(alloc, copy, "expect", text)
        }
        None => Ok(copy),
    }
}

/// Copies the events, each with the reply of its number.
#[tactic(auto, unfolding(crate::specs::Record::events_with_replies))]
fn events_with_replies(
    alloc: Global,
    events: &[Value],
    replies: &[String],
) -> Result<Vec<Value>, AllocError>
    ensures { IfOk result (λ v. items_view v.items
        ≡ events_with_replies 0 (map string_bytes replies.now) (items_view events.now)) }
{
    let mut list = Vec::new(alloc);
    for (number, event) in events.iter().enumerate() {
        list.push(event_with_reply(alloc, event, reply_at(replies, number))?)?;
    }
    Ok(list)
}

/// Sets what each event expects.
fn put_replies(alloc: Global, value: Value, replies: &[String]) -> Result<Value, AllocError>
    ensures { IfOk result (λ v. view v ≡ with_replies (map string_bytes replies.now) (view value)) }
{
    let events = match items_at(&value, "events") {
        Some(events) => events_with_replies(alloc, events, replies)?,
        None => return Ok(value),
    };
    put_member(alloc, value, "events", Value::Array(events))
}

/// Makes a value of a text.
fn text_value(alloc: Global, text: &String) -> Result<Value, AllocError>
    ensures { IfOk result (λ v. view v ≡ string (string_bytes text.now)) }
{
    Value::try_from_str(alloc, text.as_str())
}

/// Makes a value of each text.
#[tactic(auto, unfolding(crate::specs::Record::text_items))]
fn text_values(alloc: Global, texts: &[String]) -> Result<Vec<Value>, AllocError>
    ensures { IfOk result (λ v. items_view v.items ≡ text_items (map string_bytes texts.now)) }
{
    let mut list = Vec::new(alloc);
    for text in texts {
        list.push(text_value(alloc, text)?)?;
    }
    Ok(list)
}

/// Whether a recording's version is this one.
fn has_version(value: &Value, version: u64) -> bool
    ensures { result ≡ has_version (number_at (codes "version") (view value.now)) version }
{
    match u64_at(value, "version") {
        Some(found) => found == version,
        None => false,
    }
}

/// Sets the lines that a recording of version 2 expects in the end.
fn put_lines(alloc: Global, value: Value, lines: &[String]) -> Result<Value, AllocError>
    ensures { IfOk result (λ v. view v ≡ with_lines (map string_bytes lines.now) (view value)) }
{
    if !has_version(&value, 2) {
        return Ok(value);
    }
    let texts = text_values(alloc, lines)?;
    put_member(alloc, value, "final", Value::Array(texts))
}

/// Writes a recording again, with the reply of each event as its `expect`, and in version 2 with the lines of members
/// in the end as `final`. Its keys stand in order, one a line.
pub fn record_replies(
    alloc: Global,
    value: Value,
    replies: &[String],
    lines: &[String],
) -> Result<Vec<u8>, AllocError>
    ensures { IfOk result (λ text. IsTextOf text.items
        (record_of (map string_bytes replies.now) (map string_bytes lines.now) (view value))) }
{
    let recording = put_replies(alloc, value, replies)?;
    let whole = put_lines(alloc, recording, lines)?;
    whole.to_vec_pretty(alloc)
}
