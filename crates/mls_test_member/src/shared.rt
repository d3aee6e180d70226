//! The two members that share each epoch: their calls succeed.

use mls_member::Refusal;
use mls_suite::Glass;
use mls_test_pair::{Pair, Seeds, share};
use std::alloc::Global;
use std::test::Fail;

const SEEDS: Seeds = Seeds {
    alice: [1; 32],
    bob: [2; 32],
    group: [3; 32],
    addition: [4; 32],
    renewal: [5; 32],
};

/// The epochs of both, and whether they hold one epoch secret.
fn epochs(alloc: Global) -> Result<(u64, u64, bool), Refusal> {
    let pair: Pair<Glass> = share(alloc, b"g", &SEEDS)?;
    let (first, second) = (&pair.first, &pair.second);
    let is_one = first.secrets().epoch_secret() == second.secrets().epoch_secret();
    Ok((first.epoch(), second.epoch(), is_one))
}

#[test]
fn a_pair(rt: HostRuntime) -> Result<(), Fail> {
    assert_eq!(rt; epochs(rt.alloc())?, (2, 2, true));
    Ok(())
}
