//! Lists of nodes from outside, and as they are sent (RFC 9420, 12.4.3.3).

ghost use Rattle.std.specs.Prelude.{◌≡◌, ◌<◌, ◌≤◌, true, length, take, OnOk, OnErr, IfOk, IsOk};
ghost use Rattle.mls_tree_model.specs.Arrays.{without_last_blanks, has_last, may_stand, alternates, height_for, with_padding};
ghost use Rattle.mls_tree_array.specs.Additions.{PadsTo};

use mls_tree_cells::Cells;
use mls_tree_slot::{NodeRef, Slot};
use std::alloc::{AllocError, Global};

/// Whether there is a last node, and it isn't blank.
pub fn has_last(nodes: &[Slot]) -> bool
    ensures { result ≡ has_last nodes.now }
{
    match nodes.last() {
        Some(node) => node.is_taken(),
        None => false,
    }
}

/// Whether a node may stand at an even place, or at an odd one.
fn may_stand(even: bool, node: &Slot) -> bool
    ensures { result ≡ may_stand even node.now }
{
    match node.node() {
        Some(NodeRef::Leaf(_)) => even,
        Some(NodeRef::Parent(_)) => !even,
        None => true,
    }
}

/// Whether leaves stand at even places alone, and parents at odd ones.
pub fn alternates(nodes: &[Slot]) -> bool
    ensures { result ≡ alternates true nodes.now }
{
    let mut even = true;
    for node in nodes {
        if !may_stand(even, node) {
            return false;
        }
        even = !even;
    }
    true
}

/// The least height of a tree with at least `len` nodes.
pub fn height_for(len: usize) -> u32
    ensures value { result ≡ height_for len }
    ensures low { result ≤ 63 }
{
    if len == 0 {
        return 0;
    }
    len.ilog2()
}

/// Adds blank nodes up to a length. Without memory for it all stays as it was.
pub fn pad(nodes: &mut Vec<Slot>, to: usize) -> Result<(), AllocError>
    ensures ok { OnOk result (PadsTo to nodes.old nodes.new) }
    ensures err { OnErr result (nodes.new.items ≡ nodes.old.items) }
    ensures there { to ≤ length nodes.old.items → IsOk result }
{
    let missing = to.saturating_sub(nodes.len());
    nodes.reserve(missing)?;
    for _ in 0..missing {
        nodes.push_reserved(Slot::blank());
    }
    Ok(())
}

/// Adds blank nodes up to the least tree that holds all, whose height is given. Without memory for them all stays as it
/// was.
pub fn pad_tree(nodes: &mut Vec<Slot>, height: u32) -> Result<(), AllocError>
    requires holds { height ≡ height_for (length nodes.old.items) }
    requires low { height < 64 }
    ensures ok { OnOk result (nodes.new.items ≡ with_padding nodes.old.items) }
    ensures err { OnErr result (nodes.new.items ≡ nodes.old.items) }
{
    let leaves = 1usize << height;
    pad(nodes, leaves - 1 + leaves)?;
    Ok(())
}

/// How many cells there are up to the last one that isn't blank.
fn sent_len(cells: &Cells) -> usize
    ensures within { result ≤ length cells.now.nodes }
    ensures cut { take result cells.now.nodes ≡ without_last_blanks cells.now.nodes }
{
    let mut len = cells.len();
    while len > 0 {
        if cells.slot(len - 1).is_taken() {
            return len;
        }
        len -= 1;
    }
    0
}

/// A copy of the nodes up to the last one that isn't blank, as they are sent.
pub fn to_nodes(alloc: Global, cells: &Cells) -> Result<Vec<Slot>, AllocError>
    ensures { IfOk result (λ v. v.items ≡ without_last_blanks cells.now.nodes) }
{
    let count = sent_len(cells);
    let mut nodes = Vec::with_capacity(alloc, count)?;
    for x in 0..count {
        let slot = cells.slot(x).clone()?;
        nodes.push_reserved(slot);
    }
    Ok(nodes)
}
