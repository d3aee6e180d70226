//! How many hashes of nodes a tree makes after an edit.

use crate::rows::Step::{Add, AddKeys, Counts, HashesMade, Remove, Single, Update};
use crate::rows::Told::{Done, Is};
use crate::rows::{Row, count_met};
use std::test::*;

/// A tree of eight members.
const UPDATES: &[Row] = &[
    (Single(0), Done),
    (AddKeys(1, 8), Done),
    (HashesMade, Is(&[15])),
    (Update(3, 13), Done),
    (HashesMade, Is(&[4])),
    (Update(0, 10), Done),
    (Update(7, 17), Done),
    (HashesMade, Is(&[7])),
    (HashesMade, Is(&[0])),
];

#[test]
fn updates_cost_their_ways(rt: HostRuntime) -> Result<(), Fail> {
    assert_eq!(rt; count_met(rt.alloc(), UPDATES)?, UPDATES.len());
    Ok(())
}

/// A tree of four members, and then of five.
const DOUBLING: &[Row] = &[
    (Single(0), Done),
    (AddKeys(1, 4), Done),
    (HashesMade, Is(&[7])),
    (Add(4), Is(&[4])),
    (Counts, Is(&[8, 5])),
    (HashesMade, Is(&[8])),
    (Remove(4), Done),
    (Counts, Is(&[4, 4])),
    (HashesMade, Is(&[0])),
];

#[test]
fn a_doubling_costs_its_nodes(rt: HostRuntime) -> Result<(), Fail> {
    assert_eq!(rt; count_met(rt.alloc(), DOUBLING)?, DOUBLING.len());
    Ok(())
}
