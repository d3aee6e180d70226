//! Nodes of a picture: their marks, and what stands behind them.

ghost use Rattle.std.specs.Prelude.{◌≡◌, ◌++◌, OnOk, None, get_or, option_map};
ghost use Rattle.std.specs.List.{flat_map, list_all, list_any};
ghost use Rattle.hex.specs.Hex.{encode_lower};
ghost use Rattle.mls_tree_slot.specs.Nodes.{lent_node};
ghost use Rattle.mls_cli_draw.specs.Picture.{blank_text, gap, identity_text, is_on, is_printable, leaf_text, node_text, parent_text, spaced_numbers, star, unmerged_text};

use crate::characters::{push_ascii, push_decimal};
use mls_leaf::{LeafNode, ParentNode};
use mls_tree_slot::{NodeRef, Slot};
use std::alloc::{AllocError, Global};

/// The node at a place of a list, or None where it is blank or not in the list.
pub(crate) fn node_in(nodes: &[Slot], node: usize) -> Option<NodeRef<'_>>
    ensures { option_map lent_node result ≡ get_or nodes.now node None }
{
    match nodes.get(node) {
        Some(slot) => slot.node(),
        None => None,
    }
}

/// Whether a node is among these, as those of the last path.
pub(crate) fn is_on(path: &[u32], node: usize) -> bool
    ensures { result ≡ is_on path.now node }
{
    path.iter().any(|other| *other as usize == node)
}

/// Whether each byte is a printable character of ASCII.
fn is_readable(text: &[u8]) -> bool
    ensures { result ≡ list_all is_printable text.now }
{
    text.iter().all(|byte| *byte >= 32 && *byte <= 126)
}

/// Adds an identity: between quotes where all of its bytes are printable, else in hex.
pub(crate) fn push_identity(
    alloc: Global,
    characters: &mut Vec<char>,
    identity: &[u8],
) -> Result<(), AllocError>
    ensures { OnOk result (characters.new.items
        ≡ characters.old.items ++ identity_text identity.now) }
{
    if is_readable(identity) {
        characters.push('"')?;
        push_ascii(characters, identity)?;
        characters.push('"')?;
        Ok(())
    } else {
        push_ascii(characters, hex::encode(alloc, identity)?.as_bytes())
    }
}

/// Adds what stands behind the mark of a member's leaf: a star where the leaf is on the last path, else a blank.
fn push_gap(characters: &mut Vec<char>, on_path: bool) -> Result<(), AllocError>
    ensures { OnOk result (characters.new.items ≡ characters.old.items ++ gap on_path) }
{
    if on_path {
        push_ascii(characters, b"*")
    } else {
        push_ascii(characters, b" ")
    }
}

/// Adds a star where a parent is on the last path.
fn push_star(characters: &mut Vec<char>, on_path: bool) -> Result<(), AllocError>
    ensures { OnOk result (characters.new.items ≡ characters.old.items ++ star on_path) }
{
    if on_path {
        push_ascii(characters, b"*")
    } else {
        Ok(())
    }
}

/// Adds a member's leaf: its mark, its index and its identity.
fn push_leaf(
    alloc: Global,
    characters: &mut Vec<char>,
    on_path: bool,
    index: u64,
    leaf: &LeafNode,
) -> Result<(), AllocError>
    ensures { OnOk result (characters.new.items
        ≡ characters.old.items ++ leaf_text on_path index leaf.now) }
{
    characters.push('■')?;
    push_gap(characters, on_path)?;
    push_decimal(alloc, characters, index)?;
    characters.push(' ')?;
    push_identity(alloc, characters, leaf.credential.identity.as_slice())
}

/// Adds each number behind a space.
pub(crate) fn push_spaced(
    alloc: Global,
    characters: &mut Vec<char>,
    numbers: &[u32],
) -> Result<(), AllocError>
    ensures { OnOk result (characters.new.items
        ≡ characters.old.items ++ spaced_numbers numbers.now) }
{
    for number in numbers {
        characters.push(' ')?;
        push_decimal(alloc, characters, u64::from(*number))?;
    }
    Ok(())
}

/// Adds a parent that isn't blank: its mark and the indexes of its unmerged leaves.
fn push_parent(
    alloc: Global,
    characters: &mut Vec<char>,
    on_path: bool,
    parent: &ParentNode,
) -> Result<(), AllocError>
    ensures { OnOk result (characters.new.items
        ≡ characters.old.items ++ parent_text on_path parent.now) }
{
    characters.push('●')?;
    push_star(characters, on_path)?;
    if parent.unmerged_leaves().is_empty() {
        return Ok(());
    }
    push_ascii(characters, b" unmerged")?;
    push_spaced(alloc, characters, parent.unmerged_leaves())
}

/// Adds a blank leaf or a blank parent, by its place.
fn push_blank(alloc: Global, characters: &mut Vec<char>, place: usize) -> Result<(), AllocError>
    ensures { OnOk result (characters.new.items ≡ characters.old.items ++ blank_text place) }
{
    if place % 2 != 0 {
        characters.push('○')?;
        return Ok(());
    }
    characters.push('□')?;
    characters.push(' ')?;
    push_decimal(alloc, characters, (place / 2) as u64)
}

/// Adds what is drawn of a node, by its place in the order of an array and whether it is on the last path.
pub(crate) fn push_node(
    alloc: Global,
    characters: &mut Vec<char>,
    on_path: bool,
    place: usize,
    node: Option<NodeRef<'_>>,
) -> Result<(), AllocError>
    ensures { OnOk result (characters.new.items
        ≡ characters.old.items ++ node_text on_path place (option_map lent_node node.entry)) }
{
    match node {
        Some(NodeRef::Leaf(leaf)) => push_leaf(
            alloc,
            characters,
            on_path,
            (place / 2) as u64,
            leaf,
        ),
        Some(NodeRef::Parent(parent)) => push_parent(alloc, characters, on_path, parent),
        None => push_blank(alloc, characters, place),
    }
}
