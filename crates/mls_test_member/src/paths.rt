//! The path of a sole member.

use crate::sole::sole;
use mls_leaf::LeafSource;
use mls_member::{Member, Refusal};
use mls_suite::Glass;
use std::alloc::Global;
use std::test::Fail;

/// Whether the first leaf of the member's tree was made by a commit, with an empty parent hash.
fn has_no_parent(member: &Member<Glass>) -> bool {
    let Some(leaf) = member.group().tree().leaf(0) else {
        return false;
    };
    match &leaf.source {
        LeafSource::Commit { parent_hash } => parent_hash.as_slice().is_empty(),
        _ => false,
    }
}

/// Whether the leaf of a sole member was made by its own path, with an empty parent hash.
fn path_has_no_nodes(alloc: Global) -> Result<bool, Refusal> {
    let member = sole(alloc)?;
    Ok(has_no_parent(&member))
}

#[test]
fn a_path_of_no_nodes(rt: HostRuntime) -> Result<(), Fail> {
    assert!(rt; path_has_no_nodes(rt.alloc())?);
    Ok(())
}
