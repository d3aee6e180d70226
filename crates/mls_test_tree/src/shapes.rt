//! The shape of a tree as its leaves come and go, and what its blank nodes and lists make of its paths.

use crate::rows::Step::{
    Add, AllTaken, Ciphertexts, Counts, FilteredPath, IsReached, Leaves, Remove, Resolution, Sent,
    Unmerged,
};
use crate::rows::Told::{Done, Is, Refused};
use crate::rows::{Row, count_met};
use mls_treemath::MAX_LEAVES;
use std::test::*;

const UNMERGED_LEAVES: &[Row] = &[
    (Unmerged, Done),
    (Resolution(3), Is(&[0, 5, 6])),
    (Resolution(7), Is(&[])),
    (IsReached(3), Is(&[1])),
    (IsReached(2), Is(&[0])),
    (IsReached(7), Is(&[0])),
];

#[test]
fn unmerged_leaves_are_in_the_resolution(rt: HostRuntime) -> Result<(), Fail> {
    assert_eq!(rt;
        count_met(rt.alloc(), UNMERGED_LEAVES)?,
        UNMERGED_LEAVES.len()
    );
    Ok(())
}

const ADDS: &[Row] = &[
    (Leaves(&[true, false, true, true]), Done),
    (FilteredPath(0), Is(&[3])),
    (FilteredPath(1), Refused(22)),
    (Add(2), Is(&[1])),
    (Add(3), Is(&[4])),
    (Counts, Is(&[8, 5])),
];

#[test]
fn adds_go_to_the_leftmost_blank_leaf(rt: HostRuntime) -> Result<(), Fail> {
    assert_eq!(rt; count_met(rt.alloc(), ADDS)?, ADDS.len());
    Ok(())
}

/// The first number of `Counts` is how many leaves are left.
const REMOVALS: &[Row] = &[
    (Leaves(&[true, true, true, true, true]), Done),
    (Remove(4), Done),
    (Counts, Is(&[4, 4])),
    (Leaves(&[true, true, true, true]), Done),
    (Remove(3), Done),
    (Counts, Is(&[4, 3])),
    (Leaves(&[true, false, false, false, true]), Done),
    (Remove(4), Done),
    (Counts, Is(&[1, 1])),
];

#[test]
fn removals_halve(rt: HostRuntime) -> Result<(), Fail> {
    assert_eq!(rt; count_met(rt.alloc(), REMOVALS)?, REMOVALS.len());
    Ok(())
}

const NO_SHAPES: &[Row] = &[
    (Leaves(&[]), Refused(20)),
    (Leaves(&[false]), Refused(20)),
    (Leaves(&[true, false]), Refused(20)),
];

#[test]
fn shapes_that_no_tree_has(rt: HostRuntime) -> Result<(), Fail> {
    assert_eq!(rt; count_met(rt.alloc(), NO_SHAPES)?, NO_SHAPES.len());
    Ok(())
}

const FULL: &[Row] = &[
    (AllTaken(MAX_LEAVES), Done),
    (Counts, Is(&[MAX_LEAVES as u64, MAX_LEAVES as u64])),
    (Add(0), Refused(21)),
    (Counts, Is(&[MAX_LEAVES as u64, MAX_LEAVES as u64])),
    (Sent, Is(&[2 * MAX_LEAVES as u64 - 1])),
    (AllTaken(MAX_LEAVES + 1), Refused(21)),
    (AllTaken(4096), Done),
    (Add(1), Is(&[4096])),
    (Counts, Is(&[8192, 4097])),
];

#[test]
fn a_full_tree(rt: HostRuntime) -> Result<(), Fail> {
    assert_eq!(rt; count_met(rt.alloc(), FULL)?, FULL.len());
    Ok(())
}

const CIPHERTEXTS: &[Row] = &[
    (Leaves(&[true, true, true, true]), Done),
    (Ciphertexts(1, &[]), Is(&[1, 2])),
    (Ciphertexts(1, &[3]), Is(&[1, 1])),
    (Ciphertexts(1, &[0, 2, 3]), Is(&[0, 0])),
    (Ciphertexts(4, &[]), Refused(22)),
];

#[test]
fn ciphertexts_of_each_node(rt: HostRuntime) -> Result<(), Fail> {
    assert_eq!(rt; count_met(rt.alloc(), CIPHERTEXTS)?, CIPHERTEXTS.len());
    Ok(())
}
