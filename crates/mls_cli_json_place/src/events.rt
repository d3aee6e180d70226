//! What is wrong with the events of a recording.

ghost use Rattle.std.specs.Prelude.{◌≡◌};
ghost use Rattle.serde_json.specs.View.{view};
ghost use Rattle.mls_cli_json_place.specs.Events.{candidate_wrong, create_wrong, propose_add_wrong, propose_update_wrong, propose_remove_wrong, propose_extensions_wrong, commit_wrong, drop_pending_wrong, deliver_wrong, join_wrong, deliver_all_wrong, call_wrong, action_wrong, event_wrong};

use crate::faults::{at_key, no_more};
use crate::key::Key;
use crate::lookup::{has_bool, has_hex, has_keys, has_number, has_seed, has_text_if_any, has_u32};
use crate::place::Wrong;
use crate::shapes::{has_extensions, has_items, has_source};
use mls_cli_json::text_at;
use serde_json::Value;

#[tactic(auto, unfolding(crate::specs::Events::candidate_wrong))]
fn candidate_wrong(value: &Value) -> Option<Wrong>
    ensures { result ≡ candidate_wrong (view value.now) }
{
    at_key(
        Key::Seed,
        has_seed(value, "seed"),
        at_key(
            Key::Identity,
            has_hex(value, "identity"),
            no_more(has_keys(value, 3)),
        ),
    )
}

#[tactic(auto, unfolding(crate::specs::Events::create_wrong))]
fn create_wrong(value: &Value) -> Option<Wrong>
    ensures { result ≡ create_wrong (view value.now) }
{
    at_key(
        Key::Candidate,
        has_number(value, "candidate"),
        at_key(
            Key::Seed,
            has_seed(value, "seed"),
            at_key(
                Key::Group,
                has_hex(value, "group"),
                no_more(has_keys(value, 4)),
            ),
        ),
    )
}

#[tactic(auto, unfolding(crate::specs::Events::propose_add_wrong))]
fn propose_add_wrong(value: &Value) -> Option<Wrong>
    ensures { result ≡ propose_add_wrong (view value.now) }
{
    at_key(
        Key::Member,
        has_number(value, "member"),
        at_key(
            Key::KeyPackage,
            has_source(value, "key_package"),
            no_more(has_keys(value, 3)),
        ),
    )
}

#[tactic(auto, unfolding(crate::specs::Events::propose_update_wrong))]
fn propose_update_wrong(value: &Value) -> Option<Wrong>
    ensures { result ≡ propose_update_wrong (view value.now) }
{
    at_key(
        Key::Member,
        has_number(value, "member"),
        at_key(
            Key::Seed,
            has_seed(value, "seed"),
            no_more(has_keys(value, 3)),
        ),
    )
}

#[tactic(auto, unfolding(crate::specs::Events::propose_remove_wrong))]
fn propose_remove_wrong(value: &Value) -> Option<Wrong>
    ensures { result ≡ propose_remove_wrong (view value.now) }
{
    at_key(
        Key::Member,
        has_number(value, "member"),
        at_key(
            Key::Leaf,
            has_u32(value, "leaf"),
            no_more(has_keys(value, 3)),
        ),
    )
}

#[tactic(auto, unfolding(crate::specs::Events::propose_extensions_wrong))]
fn propose_extensions_wrong(value: &Value) -> Option<Wrong>
    ensures { result ≡ propose_extensions_wrong (view value.now) }
{
    at_key(
        Key::Member,
        has_number(value, "member"),
        at_key(
            Key::Extensions,
            has_extensions(value, "extensions"),
            no_more(has_keys(value, 3)),
        ),
    )
}

#[tactic(auto, unfolding(crate::specs::Events::commit_wrong))]
fn commit_wrong(value: &Value) -> Option<Wrong>
    ensures { result ≡ commit_wrong (view value.now) }
{
    at_key(
        Key::Member,
        has_number(value, "member"),
        at_key(
            Key::Path,
            has_bool(value, "path"),
            at_key(
                Key::Seed,
                has_seed(value, "seed"),
                at_key(
                    Key::Items,
                    has_items(value, "items"),
                    no_more(has_keys(value, 5)),
                ),
            ),
        ),
    )
}

#[tactic(auto, unfolding(crate::specs::Events::drop_pending_wrong))]
fn drop_pending_wrong(value: &Value) -> Option<Wrong>
    ensures { result ≡ drop_pending_wrong (view value.now) }
{
    at_key(
        Key::Member,
        has_number(value, "member"),
        no_more(has_keys(value, 2)),
    )
}

#[tactic(auto, unfolding(crate::specs::Events::deliver_wrong))]
fn deliver_wrong(value: &Value) -> Option<Wrong>
    ensures { result ≡ deliver_wrong (view value.now) }
{
    at_key(
        Key::Member,
        has_number(value, "member"),
        at_key(
            Key::Bytes,
            has_source(value, "bytes"),
            no_more(has_keys(value, 3)),
        ),
    )
}

#[tactic(auto, unfolding(crate::specs::Events::join_wrong))]
fn join_wrong(value: &Value) -> Option<Wrong>
    ensures { result ≡ join_wrong (view value.now) }
{
    at_key(
        Key::Candidate,
        has_number(value, "candidate"),
        at_key(
            Key::Bytes,
            has_source(value, "bytes"),
            no_more(has_keys(value, 3)),
        ),
    )
}

#[tactic(auto, unfolding(crate::specs::Events::deliver_all_wrong))]
fn deliver_all_wrong(value: &Value) -> Option<Wrong>
    ensures { result ≡ deliver_all_wrong (view value.now) }
{
    at_key(
        Key::Bytes,
        has_source(value, "bytes"),
        no_more(has_keys(value, 2)),
    )
}

/// What is wrong with a call, by its op.
#[tactic(auto, unfolding(crate::specs::Events::call_wrong))]
fn call_wrong(op: &str, value: &Value) -> Option<Wrong>
    ensures { result ≡ call_wrong op.now (view value.now) }
{
    match op {
        "candidate" => candidate_wrong(value),
        "create" => create_wrong(value),
        "propose_add" => propose_add_wrong(value),
        "propose_update" => propose_update_wrong(value),
        "propose_remove" => propose_remove_wrong(value),
        "propose_extensions" => propose_extensions_wrong(value),
        "commit" => commit_wrong(value),
        "drop_pending" => drop_pending_wrong(value),
        "deliver" => deliver_wrong(value),
        "join" => join_wrong(value),
        _ => Some(Wrong::At(Key::Op)),
    }
}

/// What is wrong with an action, by its op.
fn action_wrong(version: u64, op: &str, value: &Value) -> Option<Wrong>
    ensures { result ≡ action_wrong version op.now (view value.now) }
{
    if version == 2 && op == "deliver_all" {
        deliver_all_wrong(value)
    } else {
        call_wrong(op, value)
    }
}

/// What is wrong with an event of a recording of this version.
pub(crate) fn event_wrong(version: u64, value: &Value) -> Option<Wrong>
    ensures { result ≡ event_wrong version (view value.now) }
{
    match text_at(value, "op") {
        Some(op) => {
            let others = action_wrong(version, op, value);
            at_key(Key::Expect, has_text_if_any(value, "expect"), others)
        }
        None => Some(Wrong::At(Key::Op)),
    }
}
