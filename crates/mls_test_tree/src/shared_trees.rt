//! A tree that shares its nodes, its hashes and its indexes with a copy.

use crate::rows::Step::{
    Add, Check, Counts, Distinct, HashesMade, IsBlank, Large, MergeAll, Remove, Share, Update,
};
use crate::rows::Told::{Done, Is};
use crate::rows::{Row, count_met_by_both};
use std::test::Fail;

const SHARED_TREE: &[Row] = &[
    (Large, Done),
    (Counts, Is(&[4096, 2002])),
    (HashesMade, Is(&[8191])),
    (Share, Done),
];

/// A removal inside, one of the last member, and one that halves the tree.
const CHANGED_COPY: &[Row] = &[
    (Distinct, Is(&[1, 1])),
    (HashesMade, Is(&[0])),
    (Add(1), Is(&[2000])),
    (Update(3, 2), Done),
    (Remove(5), Done),
    (Counts, Is(&[4096, 2002])),
    (Remove(2049), Done),
    (Counts, Is(&[4096, 2001])),
    (Remove(2048), Done),
    (Counts, Is(&[2048, 2000])),
    (Distinct, Is(&[1, 1])),
    (
        MergeAll(3, 4, &[5, 6, 7, 8, 9, 10, 11, 12, 13, 14, 15]),
        Done,
    ),
    (Distinct, Is(&[1, 1])),
    (IsBlank(2047), Is(&[0])),
    (Check, Is(&[51])),
    (Update(7, 5), Done),
    (Distinct, Is(&[0, 1])),
    (Share, Done),
    (Update(7, 16), Done),
    (Distinct, Is(&[1, 1])),
];

/// The tree has none of the copy's keys, so it takes them.
const SHARING_TREE: &[Row] = &[
    (Counts, Is(&[4096, 2002])),
    (Distinct, Is(&[1, 1])),
    (HashesMade, Is(&[0])),
    (IsBlank(2047), Is(&[1])),
    (Check, Is(&[51])),
    (Update(7, 5), Done),
    (Remove(2049), Done),
    (Remove(2048), Done),
    (Counts, Is(&[2048, 2000])),
    (Distinct, Is(&[1, 1])),
    (Update(8, 5), Done),
    (Distinct, Is(&[0, 0])),
    (Check, Is(&[25])),
];

#[test]
fn a_copy_of_a_shared_tree_changes_alone(rt: HostRuntime) -> Result<(), Fail> {
    let count_met = count_met_by_both(rt.alloc(), SHARED_TREE, CHANGED_COPY, SHARING_TREE)?;
    assert_eq!(rt;
        count_met,
        [SHARED_TREE.len(), CHANGED_COPY.len(), SHARING_TREE.len()]
    );
    Ok(())
}
