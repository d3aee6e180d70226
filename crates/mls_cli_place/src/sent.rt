//! Which node or leaf of the tree in a file breaks the rule that it is refused by.

ghost use Rattle.std.specs.Prelude.{◌≡◌, ◌<◌, ◌^◌, Some, length, option_map, IfOk, IfSome};
ghost use Rattle.std.specs.Option.{option_copied};
ghost use Rattle.std.specs.Result.{result_ok};
ghost use Rattle.mls_wire.specs.Whole.{whole};
ghost use Rattle.mls_leaf.specs.Limits.{input_limit};
ghost use Rattle.mls_checks.specs.Short.{IsShort};
ghost use Rattle.mls_types.specs.GroupInfo.{group_info, ratchet_tree};
ghost use Rattle.mls_cli_text.specs.Form.{bytes_of_file};
ghost use Rattle.mls_cli_place.specs.Breach.{FindsBreach, FindsFor, FindsInInfo, group_in, info_of, nodes_of, rule_of, spelled_info};

use crate::breach::{breach_of_rule, rule_of};
use crate::tree_place::TreePlace;
use hex::FromHexError;
use mls_cli_text::{FileError, Form, file_bytes};
use mls_leaf::{Codec, INPUT_LIMIT};
use mls_suite::Suite;
use mls_types::{GroupInfo, MlsMessage, RatchetTree};
use std::alloc::{AllocError, Global};

/// The nodes that the bytes spell, if they spell some.
fn nodes_in(alloc: Global, bytes: &[u8]) -> Result<Option<RatchetTree>, AllocError>
    ensures nodes { IfOk result (λ nodes. nodes
        ≡ result_ok (whole ratchet_tree input_limit bytes.now)) }
    ensures short { IfOk result (λ nodes. IfSome nodes (λ v. IsShort ratchet_tree v)) }
{
    match RatchetTree::decode(alloc, bytes) {
        Ok(nodes) => Ok(Some(nodes)),
        Err(error) => {
            if error.number() == 1 {
                // Want of memory: 1 is its number, and that of no other refusal.
                return Err(AllocError);
            }
            Ok(None)
        }
    }
}

/// The GroupInfo that the bytes spell, if they spell one.
fn info_in(alloc: Global, bytes: &[u8]) -> Result<Option<GroupInfo>, AllocError>
    ensures info { IfOk result (λ info. info ≡ spelled_info bytes.now) }
    ensures short { IfOk result (λ info. IfSome info (λ v. IsShort group_info v)) }
{
    match MlsMessage::decode(alloc, bytes) {
        Ok(MlsMessage::GroupInfo(info)) => Ok(Some(info)),
        Ok(_) => Ok(None),
        Err(error) => {
            if error.number() == 1 {
                // Want of memory: 1 is its number, and that of no other refusal.
                return Err(AllocError);
            }
            Ok(None)
        }
    }
}

/// The group's id that a text of hex digits stands for, if it is one.
fn group_in(alloc: Global, text: &str) -> Result<Option<Vec<u8>>, AllocError>
    ensures id { IfOk result (λ id. option_map (λ v. v.items) id
        ≡ group_in text.now) }
    ensures short { IfOk result (λ id. IfSome id (λ v. length v.items < 2 ^ 28)) }
{
    match hex::decode(alloc, text) {
        Ok(bytes) => {
            if bytes.len() > INPUT_LIMIT {
                return Ok(None);
            }
            Ok(Some(bytes))
        }
        Err(FromHexError::OutOfMemory) => Err(AllocError),
        Err(_) => Ok(None),
    }
}

/// The first place of nodes that breaks the rule of this number.
fn breach_in_nodes<S: Suite>(
    alloc: Global,
    nodes: Option<&RatchetTree>,
    group_id: &[u8],
    number: u8,
) -> Result<Option<TreePlace>, AllocError>
    requires short { IfSome (option_copied nodes) (λ v. IsShort ratchet_tree v) }
    requires group { length group_id.now < 2 ^ 28 }
    ensures { IfOk result (FindsBreach S.crypto group_id.now (rule_of number)
        (option_copied nodes.entry)) }
{
    let Some(rule) = rule_of(number) else {
        return Ok(None);
    };
    match nodes {
        Some(nodes) => breach_of_rule::<S>(alloc, nodes, group_id, rule),
        None => Ok(None),
    }
}

/// The first place of the nodes that the bytes spell.
fn breach_in_bytes<S: Suite>(
    alloc: Global,
    bytes: &[u8],
    group: &str,
    number: u8,
) -> Result<Option<TreePlace>, AllocError>
    ensures { IfOk result (FindsFor S.crypto (group_in group.now) (rule_of number)
        (nodes_of (Some bytes.now))) }
{
    let Some(group_id) = group_in(alloc, group)? else {
        return Ok(None);
    };
    let nodes = nodes_in(alloc, bytes)?;
    breach_in_nodes::<S>(alloc, nodes.as_ref(), group_id.as_slice(), number)
}

/// The first node or leaf of a ratchet tree's file that breaks the rule of a refusal's number, for the group with this
/// id in hex digits: of 20 a node out of its place, of 23 and 24 a parent, of 25 a node with a key that another has before
/// it, of 26 a leaf with a client that another has before it, of 51 and 52 a leaf, of 36 a node (RFC 9420, 7.3, 7.9.2 and
/// 12.4.3). Parents below a parent come before it, its left side before its right; 24 is looked at where no parent breaks
/// 23. None for other numbers, where the file has no such tree, and where nothing of it breaks the rule.
pub fn breach_of_file<S: Suite>(
    alloc: Global,
    form: Form,
    text: &[u8],
    group: &str,
    number: u8,
) -> Result<Option<TreePlace>, AllocError>
    ensures { IfOk result (FindsFor S.crypto (group_in group.now) (rule_of number)
        (nodes_of (bytes_of_file form text.now))) }
{
    match form {
        Form::Raw => breach_in_bytes::<S>(alloc, text, group, number),
        Form::Hex => match file_bytes(alloc, text) {
            Ok(bytes) => breach_in_bytes::<S>(alloc, bytes.as_slice(), group, number),
            Err(FileError::NotHex) => Ok(None),
            Err(FileError::OutOfMemory) => Err(AllocError),
        },
    }
}

/// The first place of a GroupInfo's tree, under the one of two suites that it names.
fn breach_in_info<S: Suite, T: Suite>(
    alloc: Global,
    info: &GroupInfo,
    number: u8,
) -> Result<Option<TreePlace>, AllocError>
    requires { IsShort group_info info.now }
    ensures { IfOk result (FindsInInfo S.crypto T.crypto (rule_of number) (Some info.now)) }
{
    let nodes = info.ratchet_tree.as_ref();
    let group_id = info.group_context.group_id.as_slice();
    let suite = info.group_context.cipher_suite;
    if suite == S::NUMBER {
        return breach_in_nodes::<S>(alloc, nodes, group_id, number);
    }
    if suite == T::NUMBER {
        return breach_in_nodes::<T>(alloc, nodes, group_id, number);
    }
    Ok(None)
}

/// The first place of the tree in the GroupInfo that the bytes spell.
fn breach_in_info_bytes<S: Suite, T: Suite>(
    alloc: Global,
    bytes: &[u8],
    number: u8,
) -> Result<Option<TreePlace>, AllocError>
    ensures { IfOk result (FindsInInfo S.crypto T.crypto (rule_of number)
        (info_of (Some bytes.now))) }
{
    match info_in(alloc, bytes)? {
        Some(info) => breach_in_info::<S, T>(alloc, &info, number),
        None => Ok(None),
    }
}

/// The first node or leaf of the tree in a GroupInfo's file that breaks the rule of a refusal's number, as
/// `breach_of_file` has it, for the group of its context under the one of two suites that it names. Among suites of
/// equal numbers the first is taken.
pub fn breach_of_group_info<S: Suite, T: Suite>(
    alloc: Global,
    form: Form,
    text: &[u8],
    number: u8,
) -> Result<Option<TreePlace>, AllocError>
    ensures { IfOk result (FindsInInfo S.crypto T.crypto (rule_of number)
        (info_of (bytes_of_file form text.now))) }
{
    match form {
        Form::Raw => breach_in_info_bytes::<S, T>(alloc, text, number),
        Form::Hex => match file_bytes(alloc, text) {
            Ok(bytes) => breach_in_info_bytes::<S, T>(alloc, bytes.as_slice(), number),
            Err(FileError::NotHex) => Ok(None),
            Err(FileError::OutOfMemory) => Err(AllocError),
        },
    }
}
