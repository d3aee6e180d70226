//! Rows of an SVG picture: a row for each node, with the lines to its children.

ghost use Rattle.std.specs.Prelude.{◌≡◌, ◌++◌, IfOk, OnOk, option_map};
ghost use Rattle.mls_tree_slot.specs.Nodes.{lent_node};
ghost use Rattle.mls_tree_model.specs.Arrays.{leaf_in, parent_in};
ghost use Rattle.mls_cli_draw.specs.Svg.{leaf_class, leaf_front, leaf_row, opened, parent_class, parent_front, parent_row};

use crate::characters::push_ascii;
use crate::point::{Fork, Point};
use crate::row::Row;
use crate::shapes::{
    push_box, push_circle, push_group, push_lines, push_name, push_numbered, push_unmerged,
};
use mls_tree_slot::NodeRef;
use std::alloc::{AllocError, Global};

/// The first row of a picture, by its width and its height.
pub(crate) fn opening_row(alloc: Global, width: u64, height: u64) -> Result<Row, AllocError>
    ensures { IfOk result (λ row. row.characters.items ≡ opened width height) }
{
    let mut characters = Vec::new(alloc);
    push_numbered(
        alloc,
        &mut characters,
        b"<svg xmlns=\"http://www.w3.org/2000/svg\" width=\"",
        width,
    )?;
    push_numbered(alloc, &mut characters, b"\" height=\"", height)?;
    push_numbered(alloc, &mut characters, b"\" viewBox=\"-16 -40 ", width)?;
    push_numbered(alloc, &mut characters, b" ", height)?;
    push_ascii(&mut characters, b"\">")?;
    Ok(Row { characters })
}

/// The class of a member's leaf.
fn leaf_class(on_path: bool) -> &'static str
    ensures { result.now ≡ leaf_class on_path }
{
    if on_path { "renewed leaf" } else { "leaf" }
}

/// Begins a leaf's group, and adds its identity; blank where the node isn't a leaf.
fn push_leaf_front(
    alloc: Global,
    characters: &mut Vec<char>,
    point: Point,
    on_path: bool,
    node: Option<NodeRef<'_>>,
) -> Result<(), AllocError>
    ensures { OnOk result (characters.new.items
        ≡ characters.old.items
        ++ leaf_front point on_path (leaf_in (option_map lent_node node.entry))) }
{
    match node {
        Some(NodeRef::Leaf(leaf)) => {
            push_group(alloc, characters, leaf_class(on_path).as_bytes(), point)?;
            push_name(alloc, characters, leaf.credential.identity.as_slice())
        }
        Some(NodeRef::Parent(_)) | None => push_group(alloc, characters, b"blank leaf", point),
    }
}

/// The row of the leaf with this index, which may be on the last path; blank where the node isn't a leaf.
pub(crate) fn leaf_row(
    alloc: Global,
    index: u32,
    point: Point,
    on_path: bool,
    node: Option<NodeRef<'_>>,
) -> Result<Row, AllocError>
    ensures { IfOk result (λ row. row.characters.items
        ≡ leaf_row index point on_path (leaf_in (option_map lent_node node.entry))) }
{
    let mut characters = Vec::new(alloc);
    push_leaf_front(alloc, &mut characters, point, on_path, node)?;
    push_box(alloc, &mut characters, index)?;
    push_ascii(&mut characters, b"</g>")?;
    Ok(Row { characters })
}

/// The class of a parent that isn't blank.
fn parent_class(on_path: bool) -> &'static str
    ensures { result.now ≡ parent_class on_path }
{
    if on_path { "renewed parent" } else { "parent" }
}

/// Begins a parent's group, and marks its unmerged leaves; blank where the node isn't a parent.
fn push_parent_front(
    alloc: Global,
    characters: &mut Vec<char>,
    point: Point,
    on_path: bool,
    node: Option<NodeRef<'_>>,
) -> Result<(), AllocError>
    ensures { OnOk result (characters.new.items
        ≡ characters.old.items
        ++ parent_front point on_path (parent_in (option_map lent_node node.entry))) }
{
    match node {
        Some(NodeRef::Parent(parent)) => {
            push_group(alloc, characters, parent_class(on_path).as_bytes(), point)?;
            push_unmerged(alloc, characters, parent.unmerged_leaves())
        }
        Some(NodeRef::Leaf(_)) | None => push_group(alloc, characters, b"blank parent", point),
    }
}

/// The row of a parent with this number, which may be on the last path; blank where the node isn't a parent.
pub(crate) fn parent_row(
    alloc: Global,
    number: u64,
    fork: Fork,
    on_path: bool,
    node: Option<NodeRef<'_>>,
) -> Result<Row, AllocError>
    ensures { IfOk result (λ row. row.characters.items
        ≡ parent_row number fork.parent fork.left fork.right on_path
        (parent_in (option_map lent_node node.entry))) }
{
    let mut characters = Vec::new(alloc);
    push_lines(alloc, &mut characters, fork)?;
    push_parent_front(alloc, &mut characters, fork.parent, on_path, node)?;
    push_circle(alloc, &mut characters, number)?;
    push_ascii(&mut characters, b"</g>")?;
    Ok(Row { characters })
}
