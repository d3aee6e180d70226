//! The picture of a ratchet tree as an SVG file.

ghost use Rattle.std.specs.Prelude.{◌≡◌, ◌≤◌, IfOk};
ghost use Rattle.mls_tree.specs.Tree.{term};
ghost use Rattle.mls_cli_draw.specs.Picture.{DrawsPage};
ghost use Rattle.mls_cli_draw.specs.Svg.{svg_picture};
ghost use Rattle.mls_cli_draw.specs.SvgSubtrees.{HasRoom, IsHeight, PushesSubtree};

use crate::nodes::{is_on, node_in};
use crate::point::{Fork, Subtree};
use crate::row::Row;
use crate::svg_rows::{leaf_row, opening_row, parent_row};
use crate::svg_style::{push_style, push_text_row};
use mls_cli_text::{Ending, Page};
use mls_tree::PublicTree;
use mls_tree_slot::Slot;
use std::alloc::{AllocError, Global};

/// The height of a tree of so many leaves.
fn height(leaves: u32) -> u32
    ensures height { IsHeight leaves result }
    ensures small { result ≤ leaves }
{
    if leaves <= 1 {
        0
    } else {
        1 + height(leaves / 2)
    }
}

/// Adds the rows of a subtree of a tree with these nodes and of its last path.
#[tactic(auto, using(crate::proofs::Subtrees::left_room, crate::proofs::Subtrees::right_room))]
fn push_subtree(
    alloc: Global,
    rows: &mut Vec<Row>,
    nodes: &[Slot],
    path: &[u32],
    subtree: Subtree,
) -> Result<(), AllocError>
    requires { HasRoom subtree }
    ensures { PushesSubtree subtree nodes.now path.now rows.old.items rows.new.items result }
{
    let point = subtree.point();
    if subtree.leaves <= 1 {
        let place = 2 * subtree.first as usize;
        let node = node_in(nodes, place);
        rows.push(leaf_row(alloc, subtree.first, point, is_on(path, place), node)?)?;
        return Ok(());
    }
    let left = subtree.left();
    let right = subtree.right();
    push_subtree(alloc, rows, nodes, path, left)?;
    let number = subtree.number();
    let fork = Fork {
        parent: point,
        left: left.point(),
        right: right.point(),
    };
    let found = node_in(nodes, number as usize);
    let on_path = is_on(path, number as usize);
    rows.push(parent_row(alloc, number, fork, on_path, found)?)?;
    push_subtree(alloc, rows, nodes, path, right)
}

/// The picture of a ratchet tree (RFC 9420, 7.1) as the rows of an SVG file: leaves in a row, over them their parents in
/// levels, with lines to the children; each with its number as a node (RFC 9420, appendix C). A member's leaf is drawn
/// with its index and its identity, a parent with the indexes of its unmerged leaves; blank nodes are dashed. Thick edges
/// have the nodes that the last commit with a path gave new keys, as the parent hashes tell (RFC 9420, 7.9.2).
pub fn svg_picture(alloc: Global, tree: &PublicTree) -> Result<Page<Row>, AllocError>
    ensures { DrawsPage result (svg_picture (term tree.now)) }
{
    let leaves = tree.leaf_count();
    let nodes = tree.to_nodes()?;
    let path = tree.last_path()?;
    let width = 80 * u64::from(leaves) + 32;
    let height = 72 * u64::from(height(leaves)) + 116;
    let mut rows = Vec::new(alloc);
    rows.push(opening_row(alloc, width, height)?)?;
    push_style(alloc, &mut rows)?;
    let whole = Subtree {
        first: 0,
        leaves,
        depth: 0,
    };
    push_subtree(alloc, &mut rows, nodes.as_slice(), path.as_slice(), whole)?;
    push_text_row(alloc, &mut rows, b"</svg>")?;
    Ok(Page {
        lines: rows,
        ending: Ending::Good,
    })
}
