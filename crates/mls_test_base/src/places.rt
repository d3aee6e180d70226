//! Nodes of trees of mls_treemath.

ghost use Rattle.std.specs.Prelude.{◌≡◌, IfOk};
ghost use Rattle.mls_treemath.specs.Steps.{ancestors_of, copath_of};

use mls_treemath::{
    MAX_HEIGHT, MAX_LEAVES, common_ancestor, copath, direct_path, laws_of_common_ancestors,
    laws_of_ways, left, level, parent, right, root, sibling,
};
use std::alloc::{AllocError, Global};
use std::test::Fail;

const LEVELS: &[(u32, u32)] = &[
    (0, 0),
    (6, 0),
    (5, 1),
    (3, 2),
    (7, 3),
    (MAX_LEAVES - 1, MAX_HEIGHT),
];

/// How many nodes have this level, from the first on.
fn count_levels(rows: &[(u32, u32)]) -> usize {
    for i in 0..rows.len() {
        let (node, below) = rows[i];
        if level(node) != below {
            return i;
        }
    }
    rows.len()
}

const ROOTS: &[(u32, Option<u32>)] = &[
    (1, Some(0)),
    (8, Some(7)),
    (MAX_LEAVES, Some(MAX_LEAVES - 1)),
    (0, None),
    (6, None),
    (2 * MAX_LEAVES, None),
];

/// How many trees of so many leaves have this root, from the first on.
fn count_roots(rows: &[(u32, Option<u32>)]) -> usize {
    for i in 0..rows.len() {
        let (leaves, node) = rows[i];
        if root(leaves) != node {
            return i;
        }
    }
    rows.len()
}

/// A node with two others.
type Family = (u32, (Option<u32>, Option<u32>));

const CHILDREN: &[Family] = &[
    (7, (Some(3), Some(11))),
    (5, (Some(4), Some(6))),
    (6, (None, None)),
    (2 * MAX_LEAVES - 1, (None, None)),
];

/// How many nodes have these children, from the first on.
fn count_children(rows: &[Family]) -> usize {
    for i in 0..rows.len() {
        let (node, children) = rows[i];
        if (left(node), right(node)) != children {
            return i;
        }
    }
    rows.len()
}

const FAMILIES: &[Family] = &[
    (6, (Some(5), Some(4))),
    (3, (Some(7), Some(11))),
    (7, (None, None)),
    (15, (None, None)),
];

/// How many nodes of eight leaves have this parent and sibling, from the first on.
fn count_families(rows: &[Family]) -> usize {
    for i in 0..rows.len() {
        let (node, family) = rows[i];
        if (parent(node, 8), sibling(node, 8)) != family {
            return i;
        }
    }
    rows.len()
}

#[test]
fn levels_and_roots(rt: HostRuntime) {
    assert_eq!(rt; count_levels(LEVELS), LEVELS.len());
    assert_eq!(rt; count_roots(ROOTS), ROOTS.len());
}

#[test]
fn steps(rt: HostRuntime) {
    assert_eq!(rt; count_children(CHILDREN), CHILDREN.len());
    assert_eq!(rt; count_families(FAMILIES), FAMILIES.len());
    assert!(rt; right(4294967295).is_none());
    assert!(rt; parent(4, 6).is_none());
    assert!(rt; sibling(4, 6).is_none());
}

const COMMON_ANCESTORS: &[(u32, u32, Option<u32>)] = &[
    (0, 6, Some(3)),
    (0, 8, Some(7)),
    (5, 4, Some(5)),
    (4, 5, Some(5)),
    (14, 14, Some(14)),
    (0, 15, None),
];

/// How many pairs of nodes of eight leaves have this common ancestor, from the first on.
fn count_common_ancestors(rows: &[(u32, u32, Option<u32>)]) -> usize {
    for i in 0..rows.len() {
        let (x, y, node) = rows[i];
        if common_ancestor(x, y, 8) != node {
            return i;
        }
    }
    rows.len()
}

#[test]
fn common_ancestors(rt: HostRuntime) {
    assert_eq!(rt;
        count_common_ancestors(COMMON_ANCESTORS),
        COMMON_ANCESTORS.len()
    );
    assert!(rt; common_ancestor(0, 2, 6).is_none());
}

#[test]
fn laws(rt: HostRuntime) {
    laws_of_ways();
    laws_of_common_ancestors();
    assert!(rt; level(0) == 0);
}

/// The nodes of a direct path: what a caller gets to know of the walk.
fn direct_path_nodes(alloc: Global, x: u32, n: u32) -> Result<Vec<u32>, AllocError>
    ensures { IfOk result (λ nodes. nodes.items ≡ ancestors_of n x) }
{
    direct_path(x, n).collect(alloc)
}

/// The nodes of a copath.
fn copath_nodes(alloc: Global, x: u32, n: u32) -> Result<Vec<u32>, AllocError>
    ensures { IfOk result (λ nodes. nodes.items ≡ copath_of n x) }
{
    copath(x, n).collect(alloc)
}

/// Whether these are the walks from node 6 of eight leaves.
fn walks_from_6(alloc: Global) -> Result<bool, AllocError> {
    let path = direct_path_nodes(alloc, 6, 8)?;
    let copath = copath_nodes(alloc, 6, 8)?;
    Ok(path.as_slice() == [5, 3, 7].as_slice() && copath.as_slice() == [4, 1, 11].as_slice())
}

/// Whether no walk goes on from a node.
fn ends_at(node: u32, leaves: u32) -> bool {
    direct_path(node, leaves).next().is_none() && copath(node, leaves).next().is_none()
}

const ENDS: &[(u32, u32)] = &[(7, 8), (15, 8), (0, 1), (0, 6)];

/// At how many nodes no walk goes on, from the first on.
fn count_ends(rows: &[(u32, u32)]) -> usize {
    for i in 0..rows.len() {
        let (node, leaves) = rows[i];
        if !ends_at(node, leaves) {
            return i;
        }
    }
    rows.len()
}

#[test]
fn walks(rt: HostRuntime) -> Result<(), Fail> {
    assert!(rt; walks_from_6(rt.alloc())?);
    assert_eq!(rt; count_ends(ENDS), ENDS.len());
    Ok(())
}

/// Whether a path has so many nodes, and begins and ends with these.
fn is_of(path: &[u32], count: u32, front: &[u32], last: u32) -> bool {
    path.len() == count as usize && path.starts_with(front) && path.last() == Some(&last)
}

/// Whether the path of the last leaf of the largest tree is as long as it can be.
fn is_longest(alloc: Global) -> Result<bool, AllocError> {
    let last = 2 * MAX_LEAVES - 2;
    let path = direct_path_nodes(alloc, last, MAX_LEAVES)?;
    let front = [last - 1, last - 3, last - 7];
    Ok(is_of(
        path.as_slice(),
        MAX_HEIGHT,
        front.as_slice(),
        MAX_LEAVES - 1,
    ))
}

#[test]
fn last_leaf_of_the_largest_tree(rt: HostRuntime) -> Result<(), Fail> {
    assert!(rt; is_longest(rt.alloc())?);
    Ok(())
}
