//! The vectors of a file, read in one pass. A text that isn't hex is kept as None: a fault of the file's shape that
//! comes later goes before it.

ghost use Rattle.std.specs.Prelude.{◌≡◌, Err, option_map, string_bytes};
ghost use Rattle.std.specs.Str.{IsUtf8};
ghost use Rattle.serde_json.specs.View.{view, items_view};
ghost use Rattle.mls_cli_json.specs.Faults.{Finds};
ghost use Rattle.mls_cli_json.specs.declared.error.JsonError.TheVariants.{BadJson};
ghost use Rattle.mls_cli_json.specs.Lists.{each_of, value_or_number};
ghost use Rattle.mls_cli_vectors.specs.Vectors.{claim_of, seen};
ghost use Rattle.mls_cli_vectors.specs.VectorsFile.{Reads, claim_in, claims_in, expand_in, expand_seen, header_in, header_of, hex_or_null, hex_or_null_at, hkdf_in, hkdf_of, hmac_in, hmac_of, kind_in, label_at, message_in, message_of, numbers_at, numbers_of, tree_in, tree_of, treemath_in};

use mls_cli_json::{
    JsonError, bytes_of_hex, has_members, hex_at, items_at, push_found, text_at, u32_at, u32_of,
    u64_at, value_in,
};
use serde_json::Value;
use std::alloc::Global;

/// How many bytes a label may have.
pub const MAX_LABEL: usize = 200;

/// A vector.
#[derive(Debug, Drop)]
pub enum Vector {
    /// A length and its header, if it has one.
    Header {
        length: u32,
        bytes: Option<Vec<u8>>,
    },
    /// The tag of a text under a key.
    Hmac {
        key: Vec<u8>,
        message: Vec<u8>,
        out: Vec<u8>,
    },
    /// A key that is extracted, and one that is expanded from it.
    Hkdf {
        salt: Vec<u8>,
        ikm: Vec<u8>,
        info: Vec<u8>,
        prk: Vec<u8>,
        okm: Vec<u8>,
    },
    /// A key that is expanded under a label.
    Expand {
        secret: Vec<u8>,
        label: String,
        context: Vec<u8>,
        out: Vec<u8>,
    },
    /// The direct path and the copath of a node.
    Treemath {
        leaves: u32,
        node: u32,
        direct_path: Vec<u32>,
        copath: Vec<u32>,
    },
    /// Bytes, and the number that decoding gives.
    Message {
        bytes: Vec<u8>,
        refused: u64,
    },
    /// The bytes of a tree, and its tree hash.
    Tree {
        bytes: Vec<u8>,
        tree_hash: Vec<u8>,
    },
}

/// Reads the bytes of a text, or null; None where the text isn't hex.
fn hex_or_null(alloc: Global, value: &Value) -> Result<Option<Option<Vec<u8>>>, JsonError>
    ensures { Finds (option_map seen) result (hex_or_null (view value.now)) }
{
    if value.as_null().is_some() {
        return Ok(Some(None));
    }
    match value.as_str() {
        Some(text) => match bytes_of_hex(alloc, text)? {
            Some(bytes) => Ok(Some(Some(bytes))),
            None => Ok(None),
        },
        None => Err(JsonError::BadJson),
    }
}

fn hex_or_null_at(
    alloc: Global,
    value: &Value,
    key: &str,
) -> Result<Option<Option<Vec<u8>>>, JsonError>
    ensures { Finds (option_map seen) result (hex_or_null_at key.now (view value.now)) }
{
    match value.get(key) {
        Some(member) => hex_or_null(alloc, member),
        None => Err(JsonError::BadJson),
    }
}

fn header_of(length: u32, bytes: Option<Option<Vec<u8>>>) -> Option<Vector>
    ensures { claim_of result ≡ header_of length (option_map seen bytes) }
{
    Some(Vector::Header {
        length,
        bytes: bytes?,
    })
}

fn header_in(alloc: Global, value: &Value) -> Result<Option<Vector>, JsonError>
    ensures { Finds claim_of result (header_in (view value.now)) }
{
    if !has_members(value, 3) {
        return Err(JsonError::BadJson);
    }
    let Some(length) = u32_at(value, "length") else {
        return Err(JsonError::BadJson);
    };
    let bytes = hex_or_null_at(alloc, value, "bytes")?;
    Ok(header_of(length, bytes))
}

fn hmac_of(key: Option<Vec<u8>>, message: Option<Vec<u8>>, out: Option<Vec<u8>>) -> Option<Vector>
    ensures { claim_of result ≡ hmac_of (seen key) (seen message) (seen out) }
{
    Some(Vector::Hmac {
        key: key?,
        message: message?,
        out: out?,
    })
}

fn hmac_in(alloc: Global, value: &Value) -> Result<Option<Vector>, JsonError>
    ensures { Finds claim_of result (hmac_in (view value.now)) }
{
    if !has_members(value, 4) {
        return Err(JsonError::BadJson);
    }
    let key = hex_at(alloc, value, "key")?;
    let message = hex_at(alloc, value, "data")?;
    let out = hex_at(alloc, value, "out")?;
    Ok(hmac_of(key, message, out))
}

fn hkdf_of(
    salt: Option<Vec<u8>>,
    ikm: Option<Vec<u8>>,
    info: Option<Vec<u8>>,
    prk: Option<Vec<u8>>,
    okm: Option<Vec<u8>>,
) -> Option<Vector>
    ensures { claim_of result ≡ hkdf_of (seen salt) (seen ikm) (seen info) (seen prk) (seen okm) }
{
    Some(Vector::Hkdf {
        salt: salt?,
        ikm: ikm?,
        info: info?,
        prk: prk?,
        okm: okm?,
    })
}

fn hkdf_in(alloc: Global, value: &Value) -> Result<Option<Vector>, JsonError>
    ensures { Finds claim_of result (hkdf_in (view value.now)) }
{
    if !has_members(value, 6) {
        return Err(JsonError::BadJson);
    }
    let salt = hex_at(alloc, value, "salt")?;
    let ikm = hex_at(alloc, value, "ikm")?;
    let info = hex_at(alloc, value, "info")?;
    let prk = hex_at(alloc, value, "prk")?;
    let okm = hex_at(alloc, value, "okm")?;
    Ok(hkdf_of(salt, ikm, info, prk, okm))
}

fn label_at<'a>(value: &'a Value, key: &str) -> Option<&'a str>
    ensures { option_map (λ text. text.now) result ≡ label_at key.now (view value.now) }
{
    let label = text_at(value, key)?;
    if label.len() <= MAX_LABEL {
        Some(label)
    } else {
        None
    }
}

fn expand_of(
    secret: Option<Vec<u8>>,
    label: String,
    context: Option<Vec<u8>>,
    out: Option<Vec<u8>>,
) -> Option<Vector>
    ensures { claim_of result ≡ expand_seen string_bytes secret label context out }
{
    Some(Vector::Expand {
        secret: secret?,
        label,
        context: context?,
        out: out?,
    })
}

fn expand_in(alloc: Global, value: &Value) -> Result<Option<Vector>, JsonError>
    ensures { Finds claim_of result (expand_in (view value.now)) }
{
    if !has_members(value, 5) {
        return Err(JsonError::BadJson);
    }
    let Some(label) = label_at(value, "label") else {
        return Err(JsonError::BadJson);
    };
    let secret = hex_at(alloc, value, "secret")?;
    let context = hex_at(alloc, value, "context")?;
    let out = hex_at(alloc, value, "out")?;
    let label = String::from_str(alloc, label)?;
    Ok(expand_of(secret, label, context, out))
}

fn message_of(bytes: Option<Vec<u8>>, refused: u64) -> Option<Vector>
    ensures { claim_of result ≡ message_of (seen bytes) refused }
{
    Some(Vector::Message {
        bytes: bytes?,
        refused,
    })
}

fn message_in(alloc: Global, value: &Value) -> Result<Option<Vector>, JsonError>
    ensures { Finds claim_of result (message_in (view value.now)) }
{
    if !has_members(value, 3) {
        return Err(JsonError::BadJson);
    }
    let Some(refused) = u64_at(value, "refused") else {
        return Err(JsonError::BadJson);
    };
    let bytes = hex_at(alloc, value, "bytes")?;
    Ok(message_of(bytes, refused))
}

fn tree_of(bytes: Option<Vec<u8>>, tree_hash: Option<Vec<u8>>) -> Option<Vector>
    ensures { claim_of result ≡ tree_of (seen bytes) (seen tree_hash) }
{
    Some(Vector::Tree {
        bytes: bytes?,
        tree_hash: tree_hash?,
    })
}

fn tree_in(alloc: Global, value: &Value) -> Result<Option<Vector>, JsonError>
    ensures { Finds claim_of result (tree_in (view value.now)) }
{
    if !has_members(value, 3) {
        return Err(JsonError::BadJson);
    }
    let bytes = hex_at(alloc, value, "bytes")?;
    let tree_hash = hex_at(alloc, value, "tree_hash")?;
    Ok(tree_of(bytes, tree_hash))
}

#[tactic(auto, unfolding(crate::specs::VectorsFile::numbers_of))]
fn numbers_of(alloc: Global, values: &[Value]) -> Result<Vec<u32>, JsonError>
    ensures { Finds (λ v. v.items) result (numbers_of (items_view values.now)) }
{
    let mut numbers = Vec::new(alloc);
    for value in values {
        let Some(number) = u32_of(value) else {
            return Err(JsonError::BadJson);
        };
        numbers.push(number)?;
    }
    Ok(numbers)
}

fn numbers_at(alloc: Global, value: &Value, key: &str) -> Result<Vec<u32>, JsonError>
    ensures { Finds (λ v. v.items) result (numbers_at key.now (view value.now)) }
{
    match items_at(value, key) {
        Some(values) => numbers_of(alloc, values),
        None => Err(JsonError::BadJson),
    }
}

fn treemath_in(alloc: Global, value: &Value) -> Result<Option<Vector>, JsonError>
    ensures { Finds claim_of result (treemath_in (view value.now)) }
{
    if !has_members(value, 5) {
        return Err(JsonError::BadJson);
    }
    let Some(leaves) = u32_at(value, "leaves") else {
        return Err(JsonError::BadJson);
    };
    let Some(node) = u32_at(value, "node") else {
        return Err(JsonError::BadJson);
    };
    let direct_path = numbers_at(alloc, value, "direct_path")?;
    let copath = numbers_at(alloc, value, "copath")?;
    Ok(Some(Vector::Treemath {
        leaves,
        node,
        direct_path,
        copath,
    }))
}

fn vector_of_kind(alloc: Global, kind: &str, value: &Value) -> Result<Option<Vector>, JsonError>
    ensures { Finds claim_of result (kind_in kind.now (view value.now)) }
{
    match kind {
        "header" => header_in(alloc, value),
        "hmac" => hmac_in(alloc, value),
        "hkdf" => hkdf_in(alloc, value),
        "expand" => expand_in(alloc, value),
        "treemath" => treemath_in(alloc, value),
        "message" => message_in(alloc, value),
        "tree" => tree_in(alloc, value),
        _ => Err(JsonError::BadJson),
    }
}

fn vector_of(alloc: Global, value: &Value) -> Result<Option<Vector>, JsonError>
    ensures { Finds claim_of result (claim_in (view value.now)) }
{
    match text_at(value, "kind") {
        Some(kind) => vector_of_kind(alloc, kind, value),
        None => Err(JsonError::BadJson),
    }
}

/// Reads each vector, or answers that a text in one isn't hex (`NotHex` (8)), where the shape of all is right.
#[tactic(auto, unfolding(mls_cli_json::specs::Lists::each_of))]
fn vectors_of(alloc: Global, values: &[Value]) -> Result<Vec<Vector>, JsonError>
    ensures { Reads result (value_or_number (each_of claim_in (items_view values.now))) }
{
    let mut vectors = Vec::new(alloc);
    let mut all_hex = true;
    for value in values {
        let found = vector_of(alloc, value)?;
        all_hex = push_found(&mut vectors, all_hex, found)?;
    }
    if all_hex {
        Ok(vectors)
    } else {
        Err(JsonError::NotHex)
    }
}

/// Reads the vectors of a file, or answers the fault of its shape (`BadJson` (9)), or else that a text in it isn't hex
/// (`NotHex` (8)).
#[tactic(auto, unfolding(crate::specs::VectorsFile::claims_in))]
pub fn vectors_in(alloc: Global, file: &[u8]) -> Result<Vec<Vector>, JsonError>
    ensures vectors { Reads result (claims_in file.now) }
    ensures no_text { ¬ (IsUtf8 file.now) → result ≡ Err BadJson }
{
    let value = value_in(alloc, file)?;
    match value.as_array() {
        Some(values) => vectors_of(alloc, values.as_slice()),
        None => Err(JsonError::BadJson),
    }
}
