//! Keys that stand twice, as members and paths come and go.

use crate::rows::Step::{Add, Counts, Distinct, Merge, Odd, Remove, Single, Update};
use crate::rows::Told::{Done, Is, Refused};
use crate::rows::{Row, count_met};
use std::test::*;

const REPEATED: &[Row] = &[
    (Single(1), Done),
    (Distinct, Is(&[1, 1])),
    (Add(2), Is(&[1])),
    (Distinct, Is(&[1, 1])),
    (Add(1), Is(&[2])),
    (Distinct, Is(&[0, 0])),
];

#[test]
fn repeated_keys_and_clients(rt: HostRuntime) -> Result<(), Fail> {
    assert_eq!(rt; count_met(rt.alloc(), REPEATED)?, REPEATED.len());
    Ok(())
}

const MEMBERS: &[Row] = &[
    (Single(1), Done),
    (Add(2), Is(&[1])),
    (Add(1), Is(&[2])),
    (Distinct, Is(&[0, 0])),
    (Remove(2), Done),
    (Distinct, Is(&[1, 1])),
    (Update(1, 1), Done),
    (Distinct, Is(&[0, 0])),
    (Update(0, 2), Done),
    (Distinct, Is(&[1, 1])),
];

#[test]
fn keys_leave_with_their_members(rt: HostRuntime) -> Result<(), Fail> {
    assert_eq!(rt; count_met(rt.alloc(), MEMBERS)?, MEMBERS.len());
    Ok(())
}

const REFUSED_PATHS: &[Row] = &[
    (Single(1), Done),
    (Add(2), Is(&[1])),
    (Merge(0, 3, 3), Refused(25)),
    (Merge(0, 2, 3), Refused(25)),
    (Merge(0, 3, 2), Refused(25)),
    (Distinct, Is(&[1, 1])),
    (Add(1), Is(&[2])),
    (Distinct, Is(&[0, 0])),
];

#[test]
fn a_refused_path_leaves_the_keys(rt: HostRuntime) -> Result<(), Fail> {
    assert_eq!(rt; count_met(rt.alloc(), REFUSED_PATHS)?, REFUSED_PATHS.len());
    Ok(())
}

const REPLACED_KEYS: &[Row] = &[
    (Single(1), Done),
    (Add(2), Is(&[1])),
    (Merge(0, 3, 1), Done),
    (Distinct, Is(&[1, 1])),
    (Merge(0, 1, 3), Done),
    (Distinct, Is(&[1, 1])),
    (Update(1, 3), Done),
    (Distinct, Is(&[1, 1])),
];

#[test]
fn a_path_may_take_the_keys_that_it_replaces(rt: HostRuntime) -> Result<(), Fail> {
    assert_eq!(rt; count_met(rt.alloc(), REPLACED_KEYS)?, REPLACED_KEYS.len());
    Ok(())
}

const ENTERED_KEYS: &[Row] = &[
    (Single(1), Done),
    (Add(2), Is(&[1])),
    (Merge(0, 3, 4), Done),
    (Add(4), Is(&[2])),
    (Distinct, Is(&[0, 1])),
    (Update(2, 3), Done),
    (Distinct, Is(&[0, 0])),
];

#[test]
fn a_path_enters_its_keys(rt: HostRuntime) -> Result<(), Fail> {
    assert_eq!(rt; count_met(rt.alloc(), ENTERED_KEYS)?, ENTERED_KEYS.len());
    Ok(())
}

const CUT_KEYS: &[Row] = &[
    (Odd, Done),
    (Counts, Is(&[8, 5])),
    (Update(0, 9), Done),
    (Distinct, Is(&[0, 1])),
    (Remove(4), Done),
    (Counts, Is(&[4, 4])),
    (Distinct, Is(&[1, 1])),
];

#[test]
fn keys_leave_with_the_half_that_is_cut(rt: HostRuntime) -> Result<(), Fail> {
    assert_eq!(rt; count_met(rt.alloc(), CUT_KEYS)?, CUT_KEYS.len());
    Ok(())
}
