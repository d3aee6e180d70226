//! Which vectors pass.

ghost use Rattle.std.specs.Prelude.{◌≡◌, map, option_map, IfOk};
ghost use Rattle.mls_wire.specs.Whole.{whole};
ghost use Rattle.mls_leaf.specs.Limits.{input_limit};
ghost use Rattle.mls_types.specs.Message.{mls_message};
ghost use Rattle.mls_cli_vectors.specs.Vectors.{vector_view};
ghost use Rattle.mls_cli_vectors.specs.VectorsPassing.{expand_passes, header_passes, hkdf_passes, hmac_passes, labelled_passes, decoding_number, passes, tree_passes, treemath_passes};

use crate::reading::{MAX_LABEL, Vector};
use mls_cli_check::tree_in;
use mls_kdf::{MAX_OUTPUT, expand, expand_with_label, extract, hmac};
use mls_leaf::Codec;
use mls_treemath::{copath, direct_path};
use mls_types::MlsMessage;
use mls_wire::length_header;
use std::alloc::{AllocError, Global};

/// How many bytes a context may have, and one more.
const CONTEXT_END: usize = 1 << 30;

fn header_passes(length: u32, bytes: &Option<Vec<u8>>) -> bool
    ensures { result ≡ header_passes length (option_map (λ v. v.items) bytes.now) }
{
    match (length_header(length), bytes) {
        (Some(header), Some(bytes)) => header.as_slice() == bytes.as_slice(),
        (None, None) => true,
        _ => false,
    }
}

fn hmac_passes(key: &[u8], message: &[u8], out: &[u8]) -> bool
    ensures { result ≡ hmac_passes key.now message.now out.now }
{
    hmac(key, &[message]).as_slice() == out
}

fn expand_passes(alloc: Global, prk: &[u8], info: &[u8], okm: &[u8]) -> Result<bool, AllocError>
    ensures { IfOk result (λ b. b ≡ expand_passes prk.now info.now okm.now) }
{
    if okm.len() > MAX_OUTPUT {
        return Ok(false);
    }
    let mut out = vec![in alloc; 0; okm.len()]?;
    match expand(prk, &[info], out.as_mut_slice()) {
        Ok(()) => Ok(out.as_slice() == okm),
        Err(_) => Ok(false),
    }
}

fn hkdf_passes(
    alloc: Global,
    salt: &[u8],
    ikm: &[u8],
    info: &[u8],
    prk: &[u8],
    okm: &[u8],
) -> Result<bool, AllocError>
    ensures { IfOk result (λ b. b ≡ hkdf_passes salt.now ikm.now info.now prk.now okm.now) }
{
    if extract(salt, ikm).as_slice() != prk {
        return Ok(false);
    }
    expand_passes(alloc, prk, info, okm)
}

fn labelled_passes(
    alloc: Global,
    secret: &[u8],
    label: &str,
    context: &[u8],
    out: &[u8],
) -> Result<bool, AllocError>
    ensures { IfOk result (λ b. b ≡ labelled_passes secret.now label.now context.now out.now) }
{
    if label.len() > MAX_LABEL || context.len() >= CONTEXT_END || out.len() > MAX_OUTPUT {
        return Ok(false);
    }
    let mut key = vec![in alloc; 0; out.len()]?;
    match expand_with_label(secret, label, context, key.as_mut_slice()) {
        Ok(()) => Ok(key.as_slice() == out),
        Err(_) => Ok(false),
    }
}

fn treemath_passes(
    alloc: Global,
    leaves: u32,
    node: u32,
    above: &[u32],
    beside: &[u32],
) -> Result<bool, AllocError>
    ensures { IfOk result (λ b. b ≡ treemath_passes leaves node above.now beside.now) }
{
    let ancestors: Vec<u32> = direct_path(node, leaves).collect(alloc)?;
    let siblings: Vec<u32> = copath(node, leaves).collect(alloc)?;
    Ok(ancestors.as_slice() == above && siblings.as_slice() == beside)
}

/// The number that decoding gives, 0 where there is a value. It makes no value and takes no memory.
fn decoding_number(bytes: &[u8]) -> u8
    ensures { result ≡ decoding_number (whole mls_message input_limit bytes.now) }
{
    match MlsMessage::check_all(bytes) {
        Ok(()) => 0,
        Err(error) => error.number(),
    }
}

/// Whether bytes are the nodes of a tree with that tree hash.
fn tree_passes(alloc: Global, bytes: &[u8], tree_hash: &[u8]) -> Result<bool, AllocError>
    ensures { IfOk result (λ b. b ≡ tree_passes bytes.now tree_hash.now) }
{
    match tree_in(alloc, bytes) {
        Ok(mut tree) => Ok(tree.tree_hash().as_slice() == tree_hash),
        Err(error) => {
            if error.is_memory() {
                return Err(AllocError);
            }
            Ok(false)
        }
    }
}

/// Whether a vector passes: one call for each kind.
#[tactic(auto, unfolding(crate::specs::VectorsPassing::passes))]
pub fn passes(alloc: Global, vector: &Vector) -> Result<bool, AllocError>
    ensures { IfOk result (λ b. b ≡ passes (vector_view vector.now)) }
{
    match vector {
        Vector::Header { length, bytes } => Ok(header_passes(*length, bytes)),
        Vector::Hmac { key, message, out } => {
            let passed = hmac_passes(key.as_slice(), message.as_slice(), out.as_slice());
            Ok(passed)
        }
        Vector::Hkdf {
            salt,
            ikm,
            info,
            prk,
            okm,
        } => hkdf_passes(
            alloc,
            salt.as_slice(),
            ikm.as_slice(),
            info.as_slice(),
            prk.as_slice(),
            okm.as_slice(),
        ),
        Vector::Expand {
            secret,
            label,
            context,
            out,
        } => labelled_passes(
            alloc,
            secret.as_slice(),
            label.as_str(),
            context.as_slice(),
            out.as_slice(),
        ),
        Vector::Treemath {
            leaves,
            node,
            direct_path,
            copath,
        } => treemath_passes(
            alloc,
            *leaves,
            *node,
            direct_path.as_slice(),
            copath.as_slice(),
        ),
        Vector::Message { bytes, refused } => {
            Ok(u64::from(decoding_number(bytes.as_slice())) == *refused)
        }
        Vector::Tree { bytes, tree_hash } => {
            tree_passes(alloc, bytes.as_slice(), tree_hash.as_slice())
        }
    }
}

/// Whether each of the vectors passes.
pub fn verdicts(alloc: Global, vectors: &[Vector]) -> Result<Vec<bool>, AllocError>
    ensures { IfOk result (λ verdicts. verdicts.items ≡ map passes (map vector_view vectors.now)) }
{
    let mut verdicts = Vec::new(alloc);
    for vector in vectors {
        verdicts.push(passes(alloc, vector)?)?;
    }
    Ok(verdicts)
}
