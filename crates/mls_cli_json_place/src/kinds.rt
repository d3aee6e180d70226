//! What is wrong with the vectors of a file.

ghost use Rattle.std.specs.Prelude.{◌≡◌};
ghost use Rattle.serde_json.specs.View.{view};
ghost use Rattle.mls_cli_json_place.specs.VectorsFile.{header_wrong, hmac_wrong, hkdf_wrong, expand_wrong, treemath_wrong, message_wrong, tree_wrong, kind_wrong, vector_wrong};

use crate::faults::{at_key, no_more};
use crate::key::Key;
use crate::lookup::{has_hex, has_hex_or_null, has_label, has_number, has_u32};
use crate::place::Wrong;
use crate::shapes::has_numbers;
use mls_cli_json::{has_members, text_at};
use serde_json::Value;

#[tactic(auto, unfolding(crate::specs::VectorsFile::header_wrong))]
fn header_wrong(value: &Value) -> Option<Wrong>
    ensures { result ≡ header_wrong (view value.now) }
{
    at_key(
        Key::Length,
        has_u32(value, "length"),
        at_key(
            Key::Bytes,
            has_hex_or_null(value, "bytes"),
            no_more(has_members(value, 3)),
        ),
    )
}

#[tactic(auto, unfolding(crate::specs::VectorsFile::hmac_wrong))]
fn hmac_wrong(value: &Value) -> Option<Wrong>
    ensures { result ≡ hmac_wrong (view value.now) }
{
    at_key(
        Key::HmacKey,
        has_hex(value, "key"),
        at_key(
            Key::Data,
            has_hex(value, "data"),
            at_key(
                Key::Out,
                has_hex(value, "out"),
                no_more(has_members(value, 4)),
            ),
        ),
    )
}

#[tactic(auto, unfolding(crate::specs::VectorsFile::hkdf_wrong))]
fn hkdf_wrong(value: &Value) -> Option<Wrong>
    ensures { result ≡ hkdf_wrong (view value.now) }
{
    at_key(
        Key::Salt,
        has_hex(value, "salt"),
        at_key(
            Key::Ikm,
            has_hex(value, "ikm"),
            at_key(
                Key::Info,
                has_hex(value, "info"),
                at_key(
                    Key::Prk,
                    has_hex(value, "prk"),
                    at_key(
                        Key::Okm,
                        has_hex(value, "okm"),
                        no_more(has_members(value, 6)),
                    ),
                ),
            ),
        ),
    )
}

#[tactic(auto, unfolding(crate::specs::VectorsFile::expand_wrong))]
fn expand_wrong(value: &Value) -> Option<Wrong>
    ensures { result ≡ expand_wrong (view value.now) }
{
    at_key(
        Key::Label,
        has_label(value, "label"),
        at_key(
            Key::Secret,
            has_hex(value, "secret"),
            at_key(
                Key::Context,
                has_hex(value, "context"),
                at_key(
                    Key::Out,
                    has_hex(value, "out"),
                    no_more(has_members(value, 5)),
                ),
            ),
        ),
    )
}

#[tactic(auto, unfolding(crate::specs::VectorsFile::treemath_wrong))]
fn treemath_wrong(value: &Value) -> Option<Wrong>
    ensures { result ≡ treemath_wrong (view value.now) }
{
    at_key(
        Key::Leaves,
        has_u32(value, "leaves"),
        at_key(
            Key::Node,
            has_u32(value, "node"),
            at_key(
                Key::DirectPath,
                has_numbers(value, "direct_path"),
                at_key(
                    Key::Copath,
                    has_numbers(value, "copath"),
                    no_more(has_members(value, 5)),
                ),
            ),
        ),
    )
}

#[tactic(auto, unfolding(crate::specs::VectorsFile::message_wrong))]
fn message_wrong(value: &Value) -> Option<Wrong>
    ensures { result ≡ message_wrong (view value.now) }
{
    at_key(
        Key::Refused,
        has_number(value, "refused"),
        at_key(
            Key::Bytes,
            has_hex(value, "bytes"),
            no_more(has_members(value, 3)),
        ),
    )
}

#[tactic(auto, unfolding(crate::specs::VectorsFile::tree_wrong))]
fn tree_wrong(value: &Value) -> Option<Wrong>
    ensures { result ≡ tree_wrong (view value.now) }
{
    at_key(
        Key::Bytes,
        has_hex(value, "bytes"),
        at_key(
            Key::TreeHash,
            has_hex(value, "tree_hash"),
            no_more(has_members(value, 3)),
        ),
    )
}

/// What is wrong with a vector, by its kind.
#[tactic(auto, unfolding(crate::specs::VectorsFile::kind_wrong))]
fn kind_wrong(kind: &str, value: &Value) -> Option<Wrong>
    ensures { result ≡ kind_wrong kind.now (view value.now) }
{
    match kind {
        "header" => header_wrong(value),
        "hmac" => hmac_wrong(value),
        "hkdf" => hkdf_wrong(value),
        "expand" => expand_wrong(value),
        "treemath" => treemath_wrong(value),
        "message" => message_wrong(value),
        "tree" => tree_wrong(value),
        _ => Some(Wrong::At(Key::Kind)),
    }
}

/// What is wrong with a vector.
pub(crate) fn vector_wrong(value: &Value) -> Option<Wrong>
    ensures { result ≡ vector_wrong (view value.now) }
{
    match text_at(value, "kind") {
        Some(kind) => kind_wrong(kind, value),
        None => Some(Wrong::At(Key::Kind)),
    }
}
