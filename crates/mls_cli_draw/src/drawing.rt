//! The picture of a ratchet tree.

ghost use Rattle.std.specs.Prelude.{◌≡◌, ℕ, IfOk};
ghost use Rattle.mls_tree.specs.Tree.{term};
ghost use Rattle.mls_tree_model.specs.Term.{Term};
ghost use Rattle.mls_cli_draw.specs.Picture.{DrawsPage, picture, row};
ghost use Rattle.mls_cli_draw.specs.Stems.{IsOfTree};

use crate::nodes::{is_on, node_in, push_node};
use crate::row::{Row, cut_to};
use crate::stem::push_stem;
use mls_cli_text::{Ending, Page};
use mls_tree::PublicTree;
use mls_tree_slot::Slot;
use std::alloc::{AllocError, Global};

/// The row of a node of a tree with these leaves and nodes, and of its last path.
fn row(
    alloc: Global,
    leaves: usize,
    nodes: &[Slot],
    path: &[u32],
    node: usize,
    columns: Option<usize>,
) -> Result<Row, AllocError>
    ensures { (h : ℕ) (t : Term) → IsOfTree h t leaves nodes.now
        → IfOk result (λ r. r.characters.items ≡ row columns path.now t node) }
{
    let mut characters = Vec::new(alloc);
    push_stem(&mut characters, leaves, node)?;
    let on_path = is_on(path, node);
    let found = node_in(nodes, node);
    push_node(alloc, &mut characters, on_path, node, found)?;
    Ok(Row {
        characters: cut_to(characters, columns)?,
    })
}

/// The picture of a ratchet tree (RFC 9420, 7.1), each row cut to as many columns as are given: a row for each node, in
/// the order of an array (RFC 9420, appendix C), with the root at the left. A member's leaf is drawn with its index and
/// its identity, a parent with the indexes of its unmerged leaves. A star is at each node that the last commit with a
/// path gave a new key, as the parent hashes tell (RFC 9420, 7.9.2).
pub fn picture(
    alloc: Global,
    tree: &PublicTree,
    columns: Option<usize>,
) -> Result<Page<Row>, AllocError>
    ensures { DrawsPage result (picture columns (term tree.now)) }
{
    let leaves = tree.leaf_count() as usize;
    let nodes = tree.to_nodes()?;
    let path = tree.last_path()?;
    let mut rows = Vec::new(alloc);
    for node in 0..2 * leaves - 1 {
        let made = row(
            alloc,
            leaves,
            nodes.as_slice(),
            path.as_slice(),
            node,
            columns,
        )?;
        rows.push(made)?;
    }
    Ok(Page {
        lines: rows,
        ending: Ending::Good,
    })
}
