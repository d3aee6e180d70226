ghost use Rattle.std.specs.Prelude.{◌≡◌, ◌^◌, ◌≤◌, None, IfOk, length, replicate, vec_len};
ghost use Rattle.mls_treemath.specs.Limits.{max_height};
ghost use Rattle.mls_treemath.specs.Paths.{nodes_in};

use mls_leaf::{Codec, LeafError, LeafNode, Node, ParentNode};
use mls_tree_array::{
    HashedSubtree, Subtree, alternates, filtered_path, first_blank, first_wrong_hash,
    first_wrong_list, has_good_lists, has_last, has_leaf, height_for, is_reached, is_reached_at,
    leaf, member_count, pad, resolution, resolution_at, to_nodes, tree_hash,
};
use mls_tree_cells::Cells;
use mls_tree_slot::Slot;
use std::alloc::{AllocError, Global};
use std::test::*;

const LEAF: [u8; 25] = [
    1, 0xbb, 1, 0xcc, 0, 1, 3, 0x62, 0x6f, 0x62, 2, 0, 1, 2, 0xf0, 1, 0, 0, 2, 0, 1, 2, 0, 1, 0xdd,
];

// Parents that list leaf 1, none, and leaf 2.
const X: [u8; 8] = [1, 0xaa, 0, 4, 0, 0, 0, 1];

const Y: [u8; 4] = [1, 0xbb, 0, 0];

const Z: [u8; 8] = [1, 0xcc, 0, 4, 0, 0, 0, 2];

// The place of the parent that these bytes spell.
fn parent_slot(alloc: Global, bytes: &[u8]) -> Result<Slot, LeafError> {
    let parent = ParentNode::decode(alloc, bytes)?;
    Ok(Slot::of(alloc, Node::Parent(parent))?)
}

fn leaf_slot(alloc: Global) -> Result<Slot, LeafError> {
    let leaf = LeafNode::decode(alloc, &LEAF)?;
    Ok(Slot::of(alloc, Node::Leaf(leaf))?)
}

// A node of the example of RFC 9420, 4.1.1: X[B] over A, B, a blank leaf and D, and Y over E and F, beside a
// blank leaf and H.
fn example_node(alloc: Global, x: usize) -> Result<Slot, LeafError> {
    match x {
        0 | 2 | 6 | 8 | 10 | 14 => leaf_slot(alloc),
        3 => parent_slot(alloc, &X),
        9 => parent_slot(alloc, &Y),
        _ => Ok(Slot::blank()),
    }
}

// A node of it, with parents in these places that list leaf 2, which is blank.
fn node_with(alloc: Global, wrong: &[usize], x: usize) -> Result<Slot, LeafError> {
    if wrong.contains(&x) {
        parent_slot(alloc, &Z)
    } else {
        example_node(alloc, x)
    }
}

// The example, with parents in these places that list leaf 2, which is blank.
fn example_with(alloc: Global, wrong: &[usize]) -> Result<Vec<Slot>, LeafError>
    ensures { IfOk result (λ nodes. vec_len nodes ≡ nodes_in 3) }
{
    let mut nodes = Vec::new(alloc);
    for x in 0..15 {
        let node = node_with(alloc, wrong, x)?;
        nodes.push(node)?;
    }
    Ok(nodes)
}

fn example(alloc: Global) -> Result<Vec<Slot>, LeafError>
    ensures { IfOk result (λ nodes. vec_len nodes ≡ nodes_in 3) }
{
    example_with(alloc, &[])
}

fn example_cells(alloc: Global) -> Result<Cells, LeafError>
    ensures { IfOk result (λ cells. length cells.nodes ≡ nodes_in 3) }
{
    Ok(Cells::from_slots(example(alloc)?)?)
}

// The tree of this height over these cells.
fn tree_of(cells: &Cells, height: u32) -> Subtree<'_>
    requires shape { length cells.now.nodes ≡ nodes_in height }
    requires fits { 2 ^ height ≤ 2 ^ 31 }
{
    Subtree::of(cells, height)
}

// What the example resolves to.
fn whole_resolution(alloc: Global) -> Result<Vec<u64>, LeafError> {
    let cells = example_cells(alloc)?;
    let mut out = Vec::new(alloc);
    resolution(&tree_of(&cells, 3), &mut out)?;
    Ok(out)
}

fn add_resolutions(
    tree: &Subtree<'_>,
    nodes: &[u32],
    out: &mut Vec<u64>,
) -> Result<(), AllocError> {
    for x in nodes {
        resolution_at(tree, *x, out)?;
    }
    Ok(())
}

// What the subtrees below these nodes of the example resolve to.
fn resolutions(alloc: Global, nodes: &[u32]) -> Result<Vec<u64>, LeafError> {
    let cells = example_cells(alloc)?;
    let mut out = Vec::new(alloc);
    add_resolutions(&tree_of(&cells, 3), nodes, &mut out)?;
    Ok(out)
}

fn are_reached_at(tree: &Subtree<'_>) -> (bool, bool, bool) {
    (
        is_reached_at(tree, 3),
        is_reached_at(tree, 4),
        is_reached_at(tree, 15),
    )
}

// Whether nodes 3, 4 and 15 of the example are reached; it has no node 15.
fn are_reached(alloc: Global) -> Result<(bool, bool, bool), LeafError> {
    let cells = example_cells(alloc)?;
    Ok(are_reached_at(&tree_of(&cells, 3)))
}

#[test]
fn resolutions_of_the_example(rt: HostRuntime) -> Result<(), Fail> {
    assert_eq!(rt;
        whole_resolution(rt.alloc())?.as_slice(),
        [3, 2, 9, 14].as_slice()
    );
    assert_eq!(rt;
        resolutions(rt.alloc(), &[3, 4, 15])?.as_slice(),
        [3, 2].as_slice()
    );
    assert_eq!(rt; are_reached(rt.alloc())?, (true, false, false));
    Ok(())
}

fn add_paths(tree: &Subtree<'_>, leaves: &[u32], out: &mut Vec<u32>) -> Result<(), AllocError> {
    for leaf in leaves {
        filtered_path(tree, *leaf, out)?;
    }
    Ok(())
}

// The filtered paths of these leaves of the example, one behind the other.
fn paths(alloc: Global, leaves: &[u32]) -> Result<Vec<u32>, LeafError> {
    let cells = example_cells(alloc)?;
    let mut out = Vec::new(alloc);
    add_paths(&tree_of(&cells, 3), leaves, &mut out)?;
    Ok(out)
}

#[test]
fn paths_of_the_example(rt: HostRuntime) -> Result<(), Fail> {
    assert_eq!(rt;
        paths(rt.alloc(), &[0, 3, 7])?.as_slice(),
        [1, 3, 7, 3, 7, 11, 7].as_slice()
    );
    Ok(())
}

fn members_of(tree: &Subtree<'_>) -> (Option<u32>, bool, u32) {
    (first_blank(tree, 0), is_reached(tree), member_count(tree))
}

// The first blank leaf of the example, whether it is reached, and how many members it has.
fn members(alloc: Global) -> Result<(Option<u32>, bool, u32), LeafError> {
    let cells = example_cells(alloc)?;
    Ok(members_of(&tree_of(&cells, 3)))
}

// Whether the list of its nodes has a leaf.
fn is_inhabited(alloc: Global) -> Result<bool, LeafError> {
    let nodes = example(alloc)?;
    Ok(has_leaf(&nodes, 3))
}

fn are_taken_in(cells: &Cells, height: u32) -> (bool, bool, bool, bool)
    requires { length cells.now.nodes ≡ nodes_in height }
{
    (
        leaf(cells, height, 0).is_some(),
        leaf(cells, height, 2).is_some(),
        leaf(cells, height, 7).is_some(),
        leaf(cells, height, 8).is_some(),
    )
}

// Whether members are at leaves 0, 2, 7 and 8 of the example; it has no leaf 8.
fn are_taken(alloc: Global) -> Result<(bool, bool, bool, bool), LeafError> {
    let cells = example_cells(alloc)?;
    Ok(are_taken_in(&cells, 3))
}

#[test]
fn members_of_the_example(rt: HostRuntime) -> Result<(), Fail> {
    assert_eq!(rt; members(rt.alloc())?, (Some(2), true, 6));
    assert!(rt; is_inhabited(rt.alloc())?);
    assert_eq!(rt; are_taken(rt.alloc())?, (true, false, true, false));
    Ok(())
}

// The first parent with a wrong list, or where all are right that isn't parent-hash valid.
fn first_wrong(alloc: Global, cells: &mut Cells, height: u32) -> Result<Option<u32>, AllocError>
    requires shape { length cells.old.nodes ≡ nodes_in height }
    requires fits { 2 ^ height ≤ 2 ^ 31 }
    requires low { height ≤ max_height }
    requires cold { cells.old.hashes ≡ replicate (nodes_in height) None }
{
    if !has_good_lists(&Subtree::of(cells, height)) {
        return Ok(first_wrong_list(&Subtree::of(cells, height)));
    }
    let mut done = 0;
    let _tree_hash = tree_hash(cells, height, &mut done);
    first_wrong_hash(alloc, &HashedSubtree::of(cells, height))
}

fn first_wrong_with(alloc: Global, wrong: &[usize]) -> Result<Option<u32>, LeafError> {
    let mut cells = Cells::from_slots(example_with(alloc, wrong)?)?;
    Ok(first_wrong(alloc, &mut cells, 3)?)
}

#[test]
fn the_first_wrong_parent(rt: HostRuntime) -> Result<(), Fail> {
    let alloc = rt.alloc();
    assert_eq!(rt; first_wrong_with(alloc, &[])?, Some(3));
    assert_eq!(rt; first_wrong_with(alloc, &[7])?, Some(7));
    assert_eq!(rt; first_wrong_with(alloc, &[7, 13])?, Some(13));
    assert_eq!(rt; first_wrong_with(alloc, &[13, 9, 11])?, Some(9));
    assert_eq!(rt; first_wrong_with(alloc, &[7, 3, 5])?, Some(5));
    Ok(())
}

// The first length of a list whose tree has another height than it should.
fn first_wrong_height() -> Option<usize> {
    for (len, height) in [(0, 0), (1, 0), (2, 1), (3, 1), (4, 2), (7, 2), (8, 3)] {
        if height_for(len) != height {
            return Some(len);
        }
    }
    None
}

// Whether a list ends with a node, and whether leaves and parents alternate in it.
fn is_sendable(alloc: Global) -> Result<(bool, bool), LeafError> {
    let nodes = example(alloc)?;
    Ok((has_last(&nodes), alternates(&nodes)))
}

// The example and blank nodes behind it, 31 in all.
fn padded(alloc: Global) -> Result<Vec<Slot>, LeafError> {
    let mut nodes = example(alloc)?;
    pad(&mut nodes, 31)?;
    Ok(nodes)
}

// How many nodes the padded list has, whether it ends with one that isn't blank, and how many nodes are sent of it.
fn sent_of_padded(alloc: Global) -> Result<(usize, bool, usize), LeafError> {
    let nodes = padded(alloc)?;
    let (len, has_last) = (nodes.len(), has_last(&nodes));
    Ok((len, has_last, sent_len(alloc, nodes)?))
}

fn sent_len(alloc: Global, nodes: Vec<Slot>) -> Result<usize, AllocError> {
    let cells = Cells::from_slots(nodes)?;
    Ok(to_nodes(alloc, &cells)?.len())
}

#[test]
fn lists_from_outside(rt: HostRuntime) -> Result<(), Fail> {
    assert_eq!(rt; is_sendable(rt.alloc())?, (true, true));
    assert_eq!(rt; first_wrong_height(), None);
    assert_eq!(rt; sent_of_padded(rt.alloc())?, (31, false, 15));
    Ok(())
}
